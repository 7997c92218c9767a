//! The calls that a disk in memory has had.
ghost use Rattle.std.specs.Prelude.{◌≡◌};
ghost use Rattle.kfs_journal.specs.Memory.{file_of};

use crate::disk::File;

/// A call of the disk that was made.
#[derive(Drop)]
pub enum Call {
    /// These bytes were written over those of the file from this place on, and past its end.
    Write(File, usize, Vec<u8>),
    /// The file was cut to this length.
    Cut(File, usize),
    /// The file was synced.
    Sync(File),
}

impl Call {
    /// The file that the call is for.
    pub fn file(&self) -> File
        ensures { result ≡ file_of self.now }
    {
        match self {
            Call::Write(file, _, _) => *file,
            Call::Cut(file, _) => *file,
            Call::Sync(file) => *file,
        }
    }
}
