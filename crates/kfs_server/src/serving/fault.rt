//! Why a group isn't answered, and why serving stops.
ghost use Rattle.std.specs.Prelude.{◌≡◌};
ghost use Rattle.kfs_server.specs.declared.serving.fault.ServeFault.TheVariants as faults;

use kfs_kept::{AdmitFault, OpenFault, SaveFault};
use kfs_program_text::{InputFault, OutputFault};
use std::alloc::{AllocError, AllocFailed};
use thiserror::Error;

/// Why a group isn't answered. None of its frames is answered then.
#[derive(Clone, Copy, Debug, PartialEq, Eq, Error)]
pub enum GroupFault {
    /// 2^60 bytes of the journal's file are used. Nothing has changed.
    #[error("full")]
    Full,
    /// The disk has failed. The calls are kept, all of them or none, and the desk is closed.
    #[error("failed")]
    Failed,
}

/// Why serving stops. What was answered is kept.
#[derive(Clone, Copy, Debug, PartialEq, Eq, Error)]
pub enum ServeFault {
    /// The input can't be read.
    #[error("the input can't be read")]
    ReadFault,
    /// The output can't be written.
    #[error("the output can't be written")]
    WriteFault,
    /// Memory was refused before the first read.
    #[error("memory")]
    OutOfMemory,
    /// A group isn't answered.
    #[error("{0}")]
    Group(GroupFault),
}

/// Why a desk isn't served from its files to the end of the input.
#[derive(Clone, Copy, Debug, PartialEq, Eq, Error)]
pub enum RunFault {
    /// The files aren't opened.
    #[error("the files aren't opened: {0}")]
    NotOpened(OpenFault),
    /// The files are opened, and their desk doesn't go on with the list of clients.
    #[error("the clients: {0}")]
    NotAdmitted(AdmitFault),
    /// No journal is made on the files.
    #[error("no journal is made: {0}")]
    NotMade(SaveFault),
    /// Serving has stopped.
    #[error("{0}")]
    Stopped(ServeFault),
}

impl From<GroupFault> for ServeFault {
    ghost from_gives = { λ found fault. fault ≡ faults.Group found };

    fn from(found: GroupFault) -> ServeFault {
        ServeFault::Group(found)
    }
}

impl From<InputFault> for ServeFault {
    ghost from_gives = { λ _ fault. fault ≡ faults.ReadFault };

    fn from(_found: InputFault) -> ServeFault {
        ServeFault::ReadFault
    }
}

impl From<OutputFault> for ServeFault {
    ghost from_gives = { λ _ fault. fault ≡ faults.WriteFault };

    fn from(_found: OutputFault) -> ServeFault {
        ServeFault::WriteFault
    }
}

impl From<AllocError> for ServeFault {
    ghost from_gives = { λ _ fault. fault ≡ faults.OutOfMemory };

    fn from(_error: AllocError) -> ServeFault {
        ServeFault::OutOfMemory
    }
}

impl<T: Drop> From<AllocFailed<T>> for ServeFault {
    ghost from_gives = { λ _ fault. fault ≡ faults.OutOfMemory };

    fn from(_error: AllocFailed<T>) -> ServeFault {
        ServeFault::OutOfMemory
    }
}
