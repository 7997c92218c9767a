//! Why the program ends before its input does, and the exit status.

use kfs_desk::BeginFault;
use kfs_journal_files::FilesFault;
use kfs_server::{RunFault, exit_status};
use std::alloc::{AllocError, AllocFailed};
use std::io;
use thiserror::Error;

/// Why the program ends before its input does.
#[derive(Clone, Copy, Debug, Error)]
pub enum ProgramFault {
    /// The words ask for nothing.
    #[error("usage: kfs_serve open FOLDER LIMIT [--clients FILE] [--judges N] | new FOLDER LIMIT CLIENTS A B C [--judges N]")]
    Usage,
    /// The file of clients can't be read.
    #[error("the clients can't be read: {0}")]
    Unread(io::Error),
    /// The line of this index, from 0, is no client's.
    #[error("line {0} of the clients isn't a client's")]
    BadLine(usize),
    /// The clients can't be beside each other.
    #[error("the clients: {0}")]
    BadClients(BeginFault),
    /// The two files can't be made or opened.
    #[error("the files: {0}")]
    Files(FilesFault),
    /// The desk isn't served to the end of the input.
    #[error("{0}")]
    Run(RunFault),
    /// Memory was refused before the files were made or opened.
    #[error("memory")]
    OutOfMemory,
}

impl From<FilesFault> for ProgramFault {
    fn from(fault: FilesFault) -> ProgramFault {
        ProgramFault::Files(fault)
    }
}

impl From<RunFault> for ProgramFault {
    fn from(fault: RunFault) -> ProgramFault {
        ProgramFault::Run(fault)
    }
}

impl From<AllocError> for ProgramFault {
    fn from(_error: AllocError) -> ProgramFault {
        ProgramFault::OutOfMemory
    }
}

impl<T: Drop> From<AllocFailed<T>> for ProgramFault {
    fn from(_error: AllocFailed<T>) -> ProgramFault {
        ProgramFault::OutOfMemory
    }
}

/// The exit status: 1 where the clients are refused, 2 where the words are, and 3 to 5 as of `exit_status`.
pub fn status_of(fault: &ProgramFault) -> u8 {
    match fault {
        ProgramFault::Unread(_) | ProgramFault::BadLine(_) | ProgramFault::BadClients(_) => 1,
        ProgramFault::Usage => 2,
        ProgramFault::Files(FilesFault::OutOfMemory) | ProgramFault::OutOfMemory => 4,
        ProgramFault::Files(_) => 3,
        ProgramFault::Run(fault) => exit_status(&Err(*fault)),
    }
}
