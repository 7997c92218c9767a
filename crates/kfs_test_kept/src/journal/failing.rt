//! Files of which a call fails: that is told, and no other call is made.
use kfs_journal::{File, Journal, JournalFault, settle};
use kfs_journal_files::{RawDisk, RawFiles};
use std::alloc::Global;
use std::io;
use std::process::Abort;

/// How many calls of the disk it takes to create a journal: a cut, five writes and four syncs.
const CREATE_CALLS: usize = 10;

/// Files that keep nothing. After so many calls each further one fails, as on a full disk.
#[derive(Drop)]
struct FailingFiles {
    left: usize,
    failed: usize,
}

impl FailingFiles {
    fn answer(&mut self) -> io::Result<()> {
        if self.left == 0 {
            self.failed = self.failed.saturating_add(1);
            // ENOSPC
            return Err(io::Error::from_raw_os_error(28));
        }
        self.left -= 1;
        Ok(())
    }
}

/// The files, lent to a disk.
#[derive(Drop)]
struct Lent<'a> {
    files: &'a mut FailingFiles,
}

impl<'a> RawFiles for Lent<'a> {
    fn write_all_at(&mut self, _file: File, _at: u64, _bytes: &[u8]) -> io::Result<()> {
        self.files.answer()
    }

    fn set_len(&mut self, _file: File, _len: u64) -> io::Result<()> {
        self.files.answer()
    }

    fn sync_data(&mut self, _file: File) -> io::Result<()> {
        self.files.answer()
    }
}

/// How a journal is created where the calls after so many fail, whether both files can be synced then, and how many calls failed.
fn created(alloc: Global, left: usize) -> (Result<(), JournalFault>, bool, usize) {
    let mut files = FailingFiles { left, failed: 0 };
    let mut disk = RawDisk::begin(Lent { files: &mut files }, &[], &[]);
    let created = Journal::create(alloc, &mut disk, b"state").map(|_| ());
    let is_settled = settle(&mut disk).is_ok();
    drop(disk);
    (created, is_settled, files.failed)
}

#[test]
fn a_call_that_fails_is_told_and_is_the_last_one(rt: HostRuntime) {
    for left in 0..CREATE_CALLS {
        let told = (Err(JournalFault::Failed), false, 1);
        assert!(&rt; created(rt.alloc(), left) == told, "{left}");
    }
    assert!(&rt; created(rt.alloc(), CREATE_CALLS) == (Ok(()), false, 1));
    assert!(&rt; created(rt.alloc(), CREATE_CALLS + 2) == (Ok(()), true, 0));
}
