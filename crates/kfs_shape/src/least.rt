//! The least number at which a test of a rule fails.
ghost use Rattle.std.specs.Prelude.{◌≡◌, ℕ, Some, Option, if◌then◌else◌};
ghost use Rattle.std.specs.Option.{option_copied};
ghost use Rattle.kfs_model.specs.Device.Finding.{least_of};
ghost use Rattle.kfs_shape.specs.Least.{merged, before};

/// The least number at which a test failed, after one more test at `number`.
pub(crate) fn noted(least: Option<u32>, holds: bool, number: u32) -> Option<u32>
    ensures { (later : Option ℕ) → merged result later ≡ merged least (if holds then later else Some (least_of number later)) }
{
    if holds {
        return least;
    }
    match least {
        None => Some(number),
        Some(other) => Some(other.min(number)),
    }
}

/// The lesser of two numbers, each of which may be missing.
pub fn lesser(one: Option<u32>, other: Option<u32>) -> Option<u32>
    ensures { result ≡ merged one other }
{
    match one {
        None => other,
        Some(first) => match other {
            None => one,
            Some(second) => Some(first.min(second)),
        },
    }
}

/// The row before the one with this index, if there is one.
pub(crate) fn previous<T>(rows: &[T], index: usize) -> Option<&T>
    ensures { option_copied result ≡ before rows.now index }
{
    if index == 0 {
        return None;
    }
    rows.get(index - 1)
}
