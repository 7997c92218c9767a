//! How an entry's checks are written in its function.

/// Makes the checks in order. If one fails, the function around the macro returns its reason.
macro_rules! check {
    ($judge:expr, $recorder:expr; $($case:ident $of:tt),+ $(,)?) => {
        if let Some(reason) = $judge.first_fault($recorder, &[$(crate::check::Check::$case $of),+])? {
            return Ok(Some(reason));
        }
    };
}

pub(crate) use check;
