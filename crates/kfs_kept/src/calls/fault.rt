//! Why the calls of a group aren't made again.
ghost use Rattle.std.specs.Prelude.{◌≡◌};
ghost use Rattle.kfs_kept.specs.declared.calls.fault.AgainFault.TheVariants.{OutOfMemory};

use std::alloc::{AllocError, AllocFailed};
use thiserror::Error;

/// Why the calls of a group weren't all made again. Some of them may be made.
#[derive(Clone, Copy, Debug, PartialEq, Eq, Error)]
pub enum AgainFault {
    /// The bytes are no group of calls with their answers.
    #[error("BadGroup")]
    BadGroup,
    /// A call has another answer than the one that is kept, or is no call.
    #[error("Differs")]
    Differs,
    /// The docket is full: it has as many rows as its limit allows.
    #[error("full")]
    DocketFull,
    /// Memory was refused.
    #[error("memory")]
    OutOfMemory,
}

impl From<AllocError> for AgainFault {
    ghost from_gives = { λ _ fault. fault ≡ OutOfMemory };

    fn from(_error: AllocError) -> AgainFault {
        AgainFault::OutOfMemory
    }
}

impl<T: Drop> From<AllocFailed<T>> for AgainFault {
    ghost from_gives = { λ _ fault. fault ≡ OutOfMemory };

    fn from(_error: AllocFailed<T>) -> AgainFault {
        AgainFault::OutOfMemory
    }
}
