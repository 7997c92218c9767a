//! Why a journal takes no group and no state.
ghost use Rattle.std.specs.Prelude.{◌≡◌};
ghost use Rattle.kfs_journal.specs.declared.fault.JournalFault.TheVariants.{OutOfMemory, Failed};

use crate::disk::DiskFailed;
use std::alloc::{AllocError, AllocFailed};
use thiserror::Error;

/// Why a group or a state isn't kept.
#[derive(Clone, Copy, Debug, PartialEq, Eq, Error)]
pub enum JournalFault {
    /// Memory was refused. Journal and disk are as they were.
    #[error("memory")]
    OutOfMemory,
    /// The disk has failed. What was to be kept may be on it or not; open the files again to know.
    #[error("failed")]
    Failed,
    /// What was to be kept is too long, or the file or its number has grown to its limit. Journal and disk are
    /// as they were.
    #[error("full")]
    Full,
}

impl From<AllocError> for JournalFault {
    ghost from_gives = { λ _ fault. fault ≡ OutOfMemory };

    fn from(_error: AllocError) -> JournalFault {
        JournalFault::OutOfMemory
    }
}

impl<T: Drop> From<AllocFailed<T>> for JournalFault {
    ghost from_gives = { λ _ fault. fault ≡ OutOfMemory };

    fn from(_error: AllocFailed<T>) -> JournalFault {
        JournalFault::OutOfMemory
    }
}

impl From<DiskFailed> for JournalFault {
    ghost from_gives = { λ _ fault. fault ≡ Failed };

    fn from(_error: DiskFailed) -> JournalFault {
        JournalFault::Failed
    }
}
