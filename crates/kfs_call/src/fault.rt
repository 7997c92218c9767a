//! Why bytes are no call.
ghost use Rattle.std.specs.Prelude.{◌≡◌};
ghost use Rattle.kfs_call.specs.declared.fault.FieldFault.TheVariants.{OutOfMemory};

use std::alloc::{AllocError, AllocFailed};
use thiserror::Error;

/// Why bytes weren't decoded. Nothing of them is kept.
#[derive(Clone, Copy, Debug, PartialEq, Eq, Error)]
pub enum FieldFault {
    /// 1: this many fields were read, and no field that may follow them does. The tag is field 0. Each
    /// move is a field, and so are the bytes of a log, a plan or a path with their length.
    #[error("BadField({0})")]
    BadField(u32),
    /// 2: all was read, and bytes remain.
    #[error("Trailing")]
    Trailing,
    /// Memory was refused.
    #[error("memory")]
    OutOfMemory,
}

impl From<AllocError> for FieldFault {
    ghost from_gives = { λ _ fault. fault ≡ OutOfMemory };

    fn from(_error: AllocError) -> FieldFault {
        FieldFault::OutOfMemory
    }
}

impl<T: Drop> From<AllocFailed<T>> for FieldFault {
    ghost from_gives = { λ _ fault. fault ≡ OutOfMemory };

    fn from(_error: AllocFailed<T>) -> FieldFault {
        FieldFault::OutOfMemory
    }
}
