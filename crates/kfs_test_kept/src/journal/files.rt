//! Real files: made, locked, and opened again. `tools/journal-files` tries what else may stand at their names.

ghost use Rattle.std.specs.Prelude.{◌≡◌};
ghost use Rattle.kfs_journal.specs.Disk.{Only};
ghost use Rattle.kfs_journal.specs.Journal.{AreEmpty};
ghost use Rattle.kfs_journal_files.specs.Events.{seen_after, Leaves};

use crate::journal::bytes::are_groups;
use kfs_journal::{Journal, JournalFault};
use kfs_journal_files::{FilesFault, OpenedFiles, Pair, RawDisk, create_files, open_files};
use std::alloc::Global;
use std::fs;
use std::process::Abort;

/// An empty folder of this name; whether it could be made.
fn makes_folder(rt: &HostRuntime, folder: &str) -> bool {
    let _ = fs::remove_dir_all(rt, folder);
    fs::create_dir(rt, folder).is_ok()
}

/// Whether a folder goes, with all that is in it.
fn is_removed(rt: &HostRuntime, folder: &str) -> bool {
    fs::remove_dir_all(rt, folder).is_ok()
}

/// Makes the files of a journal with a state and a group.
fn put(alloc: Global, disk: &mut RawDisk<Pair>) -> Result<(), JournalFault>
    requires empty { AreEmpty (seen_after disk.old.told.events) }
    requires durable { Only (seen_after disk.old.told.events) (Leaves disk.old.told.events) }
{
    let mut journal = Journal::create(alloc, disk, b"state")?;
    journal.put(disk, b"group")
}

fn is_put(rt: &HostRuntime, folder: &str) -> bool {
    match create_files(rt, folder) {
        Ok(mut disk) => put(rt.alloc(), &mut disk).is_ok(),
        Err(_) => false,
    }
}

/// Whether an open disk's files are opened as that state with that group.
fn is_found(alloc: Global, opened: &mut OpenedFiles) -> bool
    requires bytes { seen_after opened.old.disk.told.events ≡ (opened.old.first.items, opened.old.second.items) }
    requires durable { Only (seen_after opened.old.disk.told.events) (Leaves opened.old.disk.told.events) }
{
    match Journal::open(alloc, &mut opened.disk, &opened.first, &opened.second) {
        Ok(Some(found)) => {
            found.state.as_slice() == b"state".as_slice() && are_groups(&found.groups, 1, b"group")
        }
        _ => false,
    }
}

fn is_busy(rt: &HostRuntime, folder: &str) -> bool {
    match open_files(rt, folder) {
        Err(FilesFault::Busy) => true,
        _ => false,
    }
}

/// Whether the files are opened, and aren't opened again meanwhile.
fn is_found_once(rt: &HostRuntime, folder: &str) -> bool {
    match open_files(rt, folder) {
        Ok(mut opened) => is_found(rt.alloc(), &mut opened) && is_busy(rt, folder),
        Err(_) => false,
    }
}

#[test]
fn a_journal_is_made_and_found_again(rt: HostRuntime) {
    let folder = "kfs_test_kept_found";
    assert!(&rt; makes_folder(&rt, folder));
    assert!(&rt; is_put(&rt, folder));
    assert!(&rt; is_found_once(&rt, folder));
    assert!(&rt; is_found_once(&rt, folder));
    assert!(&rt; is_removed(&rt, folder));
}
