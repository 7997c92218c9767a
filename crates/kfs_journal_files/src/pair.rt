//! Two open files of the operating system.

use crate::raw_disk::RawFiles;
use kfs_journal::File;
use std::fs::OpenFile;
use std::os::unix::fs::FileExt;
use std::{fs, io};

/// Two open files. Both locks last until it is dropped.
#[derive(Drop)]
pub struct Pair<F: FileExt + OpenFile + Drop = fs::File> {
    first: F,
    second: F,
}

impl<F: FileExt + OpenFile + Drop> Pair<F> {
    pub fn new(first: F, second: F) -> Pair<F> {
        Pair { first, second }
    }

    fn of(&self, file: File) -> &F {
        match file {
            File::First => &self.first,
            File::Second => &self.second,
        }
    }
}

impl<F: FileExt + OpenFile + Drop> RawFiles for Pair<F> {
    fn write_all_at(&mut self, file: File, at: u64, bytes: &[u8]) -> io::Result<()> {
        self.of(file).write_all_at(bytes, at)
    }

    fn set_len(&mut self, file: File, len: u64) -> io::Result<()> {
        self.of(file).set_len(len)
    }

    fn sync_data(&mut self, file: File) -> io::Result<()> {
        self.of(file).sync_data()
    }
}
