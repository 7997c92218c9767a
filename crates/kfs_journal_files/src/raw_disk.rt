//! A disk over files of which nothing is known: it notes what they were told.
ghost use Rattle.std.specs.Prelude.{◌≡◌, length};
ghost use Rattle.kfs_journal.specs.Disk.{Only};
ghost use Rattle.kfs_journal_files.specs.Events.{file_of, seen_after, Leaves};
ghost use Rattle.kfs_journal_files.specs.Since.{Since, now_counts, no_other};

use crate::told::Told;
use kfs_journal::{Disk, DiskFailed, File};
use std::io;

// The kinds of calls that are noted, as `event_of` of specs/Events reads them.
const WRITTEN: u64 = 0;

const TRIED: u64 = 1;

const SHORTENED: u64 = 2;

const TRIED_CUT: u64 = 3;

const SYNCED: u64 = 4;

const BEGUN: u64 = 5;

/// Calls on two files. Nothing is known of what they do: that each does what is said here is argued, and not
/// proved.
pub trait RawFiles {
    /// Writes all bytes over those from `at` on, and past the end. After `Err` some of them may be written.
    fn write_all_at(&mut self, file: File, at: u64, bytes: &[u8]) -> io::Result<()>;

    /// Cuts the file to this length. After `Err` it may be cut to some length between.
    fn set_len(&mut self, file: File, len: u64) -> io::Result<()>;

    /// Brings the file's bytes and length to the disk. After `Err` they may be there or not, also those that an
    /// earlier write has answered `Ok` for.
    fn sync_data(&mut self, file: File) -> io::Result<()>;
}

/// A disk over raw files. Once a call has failed, no other is made: each is refused.
#[derive(Drop)]
pub struct RawDisk<R: RawFiles + Drop> {
    raw: R,
    told: Told,
    failed: bool,
}

/// The file's number, as it is noted.
fn number(file: File) -> u64
    ensures { file_of result ≡ file }
{
    match file {
        File::First => 0,
        File::Second => 1,
    }
}

impl<R: RawFiles + Drop> RawDisk<R> {
    /// A disk of files that have these bytes, on the disk and to be read. Condition, which no proof shows: the
    /// files were synced, and then read.
    pub fn begin(raw: R, first: &[u8], second: &[u8]) -> RawDisk<R>
        ensures seen { seen_after result.told.events ≡ (first.now, second.now) }
        ensures durable { Only (first.now, second.now) (Leaves result.told.events) }
    {
        let mut told = Told::new();
        told.note(&[BEGUN, 0], first);
        told.note(&[BEGUN, 1], second);
        RawDisk {
            raw,
            told,
            failed: false,
        }
    }
}

impl<R: RawFiles + Drop> Disk for RawDisk<R> {
    ghost seen = { λ m. seen_after m.told.events };

    ghost may_leave = { λ m c. Leaves m.told.events c };

    ghost moment = { λ m. length m.told.events };

    ghost left_since = { λ m t c. Since m.told.events t c };

    ghost has_failed = { λ m. m.failed };

    ghost counts_now = { λ m t c le now. now_counts m.told.events t c le now };

    ghost only_now = { λ m c since. no_other m.told.events c since };

    fn write_at(&mut self, file: File, at: usize, bytes: &[u8]) -> Result<(), DiskFailed> {
        let of = number(file);
        if self.failed {
            return Err(DiskFailed);
        }
        match self.raw.write_all_at(file, at as u64, bytes) {
            Ok(()) => {
                self.told.note(&[WRITTEN, of, at as u64], bytes);
                Ok(())
            }
            Err(_) => {
                self.told.note(&[TRIED, of, at as u64], bytes);
                self.failed = true;
                Err(DiskFailed)
            }
        }
    }

    fn cut(&mut self, file: File, len: usize) -> Result<(), DiskFailed> {
        let of = number(file);
        if self.failed {
            return Err(DiskFailed);
        }
        match self.raw.set_len(file, len as u64) {
            Ok(()) => {
                self.told.note(&[SHORTENED, of, len as u64], &[]);
                Ok(())
            }
            Err(_) => {
                self.told.note(&[TRIED_CUT, of, len as u64], &[]);
                self.failed = true;
                Err(DiskFailed)
            }
        }
    }

    fn sync(&mut self, file: File) -> Result<(), DiskFailed> {
        let of = number(file);
        if self.failed {
            return Err(DiskFailed);
        }
        match self.raw.sync_data(file) {
            Ok(()) => {
                self.told.note(&[SYNCED, of], &[]);
                Ok(())
            }
            Err(_) => {
                self.failed = true;
                Err(DiskFailed)
            }
        }
    }
}
