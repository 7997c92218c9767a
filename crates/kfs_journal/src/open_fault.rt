//! Why files aren't opened as a journal.
ghost use Rattle.std.specs.Prelude.{◌≡◌};
ghost use Rattle.kfs_journal.specs.declared.open_fault.OpenFault.TheVariants.{OutOfMemory, Failed};

use crate::disk::DiskFailed;
use std::alloc::{AllocError, AllocFailed};
use thiserror::Error;

/// Why files weren't opened. What they stand for is as it was.
#[derive(Clone, Copy, Debug, PartialEq, Eq, Error)]
pub enum OpenFault {
    /// Neither file has a whole open head, and they aren't both empty. They are another program's, or a journal's
    /// that is damaged, or a crash has cut a `create` short: then nothing was acknowledged. The disk is as it was.
    #[error("not a journal")]
    NotAJournal,
    /// Memory was refused. The disk is as it was.
    #[error("memory")]
    OutOfMemory,
    /// The disk has failed.
    #[error("failed")]
    Failed,
}

impl From<AllocError> for OpenFault {
    ghost from_gives = { λ _ fault. fault ≡ OutOfMemory };

    fn from(_error: AllocError) -> OpenFault {
        OpenFault::OutOfMemory
    }
}

impl<T: Drop> From<AllocFailed<T>> for OpenFault {
    ghost from_gives = { λ _ fault. fault ≡ OutOfMemory };

    fn from(_error: AllocFailed<T>) -> OpenFault {
        OpenFault::OutOfMemory
    }
}

impl From<DiskFailed> for OpenFault {
    ghost from_gives = { λ _ fault. fault ≡ Failed };

    fn from(_error: DiskFailed) -> OpenFault {
        OpenFault::Failed
    }
}
