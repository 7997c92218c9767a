//! Why the files of a journal aren't opened.
ghost use Rattle.std.specs.Prelude.{◌≡◌};
ghost use Rattle.kfs_journal_files.specs.declared.fault.FilesFault.TheVariants.{OutOfMemory};

use std::alloc::AllocError;
use std::io;
use thiserror::Error;

/// Why there is no disk.
#[derive(Clone, Copy, Debug, Error)]
pub enum FilesFault {
    /// The system refused a call. `NotFound` where a file or the folder isn't there, `AlreadyExists` where a file
    /// was to be made and something stands at its name.
    #[error("{0}")]
    Io(io::Error),
    /// Another handle has a file open, in this process or in another one.
    #[error("busy")]
    Busy,
    /// A link, a folder or a device stands at the name of a file, or the name was given to another file while
    /// this one was opened.
    #[error("not a regular file")]
    NotRegular,
    /// Memory was refused, also by the system.
    #[error("memory")]
    OutOfMemory,
}

impl From<io::Error> for FilesFault {
    fn from(error: io::Error) -> FilesFault {
        match error.kind() {
            io::ErrorKind::OutOfMemory => FilesFault::OutOfMemory,
            _ => FilesFault::Io(error),
        }
    }
}

impl From<AllocError> for FilesFault {
    ghost from_gives = { λ _ fault. fault ≡ OutOfMemory };

    fn from(_error: AllocError) -> FilesFault {
        FilesFault::OutOfMemory
    }
}
