//! Counts of rows.
ghost use Rattle.std.specs.Prelude.{◌≡◌, ◌+◌, IfOk};

use std::alloc::AllocError;

/// How many rows of a part there are, and how many bytes they are encoded in.
#[derive(Clone, Copy)]
pub(crate) struct Rows {
    /// How many rows.
    pub(crate) count: u32,
    /// How many bytes, or the greatest number where there are more. No clause rests on it.
    pub(crate) len: usize,
}

impl Rows {
    /// No rows.
    pub(crate) fn none() -> Rows
        ensures { result.count ≡ 0 }
    {
        Rows { count: 0, len: 0 }
    }

    /// One row more, of this many bytes. A count over 32 bits can't occur, since an image has at most
    /// 65,536 nodes, 1,024 names of each and three tiers of 65,536 blocks; it would be answered as
    /// `Err`.
    pub(crate) fn and_one(self, len: usize) -> Result<Rows, AllocError>
        ensures { IfOk result (λ rows. rows.count ≡ self.count + 1) }
    {
        match self.count.checked_add(1) {
            Some(count) => Ok(Rows {
                count,
                len: self.len.saturating_add(len),
            }),
            None => Err(AllocError),
        }
    }
}
