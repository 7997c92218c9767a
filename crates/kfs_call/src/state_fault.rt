//! Why bytes are no state.
ghost use Rattle.std.specs.Prelude.{◌≡◌};
ghost use Rattle.kfs_call.specs.declared.state_fault.StateFault.TheVariants.{OutOfMemory};

use std::alloc::AllocError;
use thiserror::Error;

/// Why bytes weren't decoded to a state. Nothing of them is kept.
#[derive(Clone, Copy, Debug, PartialEq, Eq, Error)]
pub enum StateFault {
    /// 1: the bytes don't begin with a header. There are too few, or magic or version are others.
    #[error("BadHeader")]
    BadHeader,
    /// 2: the part (0 clients, 1 leases) and how many of its rows were read. All parts before it were
    /// read, and no row of this part follows, though its count is larger.
    #[error("BadRow({0},{1})")]
    BadRow(u8, u32),
    /// Memory was refused.
    #[error("memory")]
    OutOfMemory,
}

impl From<AllocError> for StateFault {
    ghost from_gives = { λ _ fault. fault ≡ OutOfMemory };

    fn from(_error: AllocError) -> StateFault {
        StateFault::OutOfMemory
    }
}
