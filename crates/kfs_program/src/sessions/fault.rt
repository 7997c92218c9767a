//! Why the engine stops before the end of its input.
ghost use Rattle.std.specs.Prelude.{◌≡◌};
ghost use Rattle.kfs_program.specs.declared.sessions.fault.EngineFault.TheVariants.{OutOfMemory, ReadFault as Unread, WriteFault as Unwritten};

use kfs_program_text::{InputFault, OutputFault};
use std::alloc::AllocError;
use thiserror::Error;

/// Why the engine stopped early. The lines before were answered.
#[derive(Clone, Copy, Debug, PartialEq, Eq, Error)]
pub enum EngineFault {
    /// 1: the reader failed, or was read 2^32 times without an end.
    #[error("the input can't be read")]
    ReadFault,
    /// 2: the writer failed, or took no byte.
    #[error("the output can't be written")]
    WriteFault,
    /// 3: a line has over 16,777,216 bytes without its end.
    #[error("a line of the input is too long")]
    LongLine,
    /// Memory for a line of the input was refused.
    #[error("out of memory")]
    OutOfMemory,
}

impl From<AllocError> for EngineFault {
    ghost from_gives = { λ _ fault. fault ≡ OutOfMemory };

    fn from(_error: AllocError) -> EngineFault {
        EngineFault::OutOfMemory
    }
}

impl From<InputFault> for EngineFault {
    ghost from_gives = { λ _ fault. fault ≡ Unread };

    fn from(_fault: InputFault) -> EngineFault {
        EngineFault::ReadFault
    }
}

impl From<OutputFault> for EngineFault {
    ghost from_gives = { λ _ fault. fault ≡ Unwritten };

    fn from(_fault: OutputFault) -> EngineFault {
        EngineFault::WriteFault
    }
}
