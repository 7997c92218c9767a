//! Why bytes are no log or no plan.
ghost use Rattle.std.specs.Prelude.{◌≡◌};
ghost use Rattle.kfs_entry.specs.declared.fault.SpellFault.TheVariants.{OutOfMemory};

use std::alloc::{AllocError, AllocFailed};
use thiserror::Error;

/// Why bytes weren't decoded. Nothing of them is kept.
#[derive(Clone, Copy, Debug, PartialEq, Eq, Error)]
pub enum SpellFault {
    /// 1: the bytes don't begin with a header. There are too few, the magic is another, the version is
    /// neither 1 nor 2, or a log's count is over 4,096.
    #[error("BadHeader")]
    BadHeader,
    /// 2: this many entries were read, fewer than the log's count, and no entry follows.
    #[error("BadEntry({0})")]
    BadEntry(u16),
    /// 3: the whole log or plan was read, and bytes remain.
    #[error("Trailing")]
    Trailing,
    /// 4: the part (0 names, 1 nodes, 2 pieces) and how many of its rows were read. All parts before it
    /// were read, and no row of this part follows, though its count is larger.
    #[error("BadRow({0},{1})")]
    BadRow(u8, u32),
    /// Memory was refused.
    #[error("memory")]
    OutOfMemory,
}

impl From<AllocError> for SpellFault {
    ghost from_gives = { λ _ fault. fault ≡ OutOfMemory };

    fn from(_error: AllocError) -> SpellFault {
        SpellFault::OutOfMemory
    }
}

impl<T: Drop> From<AllocFailed<T>> for SpellFault {
    ghost from_gives = { λ _ fault. fault ≡ OutOfMemory };

    fn from(_error: AllocFailed<T>) -> SpellFault {
        SpellFault::OutOfMemory
    }
}
