//! The bytes of both files after a short run, and what bytes by the format stand for.
ghost use Rattle.std.specs.Prelude.{◌≡◌, IfSome, OnOk};
ghost use Rattle.kfs_journal.specs.Disk.{Only};
ghost use Rattle.kfs_journal.specs.Journal.{AreEmpty, IsSettled};
ghost use Rattle.kfs_journal.specs.Memory.{memory_seen, memory_may_leave};

use kfs_journal::{Journal, JournalFault, MemoryDisk, Opened};
use std::alloc::Global;
use std::process::Abort;

/// State `ab`, and group `c`: an open head, an open record, and a closed gate.
static FIRST: [u8; 30] = [
    b'K', b'D', b'J', b'L', 0, 0, 0, 0, 0, 0, 0, 0, 1, 0, 0, 0, 0, 0, 0, 0, 2, b'a', b'b', 1, 0, 0,
    0, 1, b'c', 0,
];

/// An empty state with the next number, and no group.
static SECOND: [u8; 22] = [
    b'K', b'D', b'J', b'L', 0, 0, 0, 0, 0, 0, 0, 1, 1, 0, 0, 0, 0, 0, 0, 0, 0, 0,
];

/// A state `z` with the last number.
static LAST: [u8; 23] = [
    b'K', b'D', b'J', b'L', 255, 255, 255, 255, 255, 255, 255, 255, 1, 0, 0, 0, 0, 0, 0, 0, 1,
    b'z', 0,
];

/// A disk of two files with these bytes, all on the disk.
pub fn disk_of(alloc: Global, first: &[u8], second: &[u8]) -> Option<MemoryDisk>
    ensures seen { IfSome result (λ disk. memory_seen disk ≡ (first.now, second.now)) }
    ensures durable { IfSome result (λ disk. Only (memory_seen disk) (memory_may_leave disk)) }
{
    let first = first.to_vec(alloc).ok()?;
    let second = second.to_vec(alloc).ok()?;
    Some(MemoryDisk::new(alloc, first, second))
}

/// Whether there are so many groups, each with these bytes.
pub fn are_groups(groups: &[Vec<u8>], count: usize, bytes: &[u8]) -> bool {
    for group in groups {
        if group.as_slice() != bytes {
            return false;
        }
    }
    groups.len() == count
}

/// `Journal::put`, with the clause that the next call asks for alone.
fn put_group(disk: &mut MemoryDisk, journal: &mut Journal, group: &[u8]) -> Result<(), JournalFault>
    requires { IsSettled (memory_seen disk.old) (memory_may_leave disk.old) journal.old }
    ensures { OnOk result (IsSettled (memory_seen disk.new) (memory_may_leave disk.new) journal.new) }
{
    journal.put(disk, group)
}

/// Puts a group behind a state, and then changes to an empty one if that is asked for.
fn put(alloc: Global, disk: &mut MemoryDisk, changes: bool) -> Result<(), JournalFault>
    requires empty { AreEmpty (memory_seen disk.old) }
    requires durable { Only (memory_seen disk.old) (memory_may_leave disk.old) }
{
    let mut journal = Journal::create(alloc, disk, b"ab")?;
    put_group(disk, &mut journal, b"c")?;
    if changes {
        journal.change(alloc, disk, b"")?;
    }
    Ok(())
}

/// What both files have then.
fn put_bytes(alloc: Global, changes: bool) -> Option<(Vec<u8>, Vec<u8>)> {
    let mut disk = MemoryDisk::new(alloc, Vec::new(alloc), Vec::new(alloc));
    put(alloc, &mut disk, changes).ok()?;
    disk.contents().ok()
}

fn are_put(alloc: Global, changes: bool, second: &[u8]) -> bool {
    match put_bytes(alloc, changes) {
        Some((first, other)) => first.as_slice() == FIRST.as_slice() && other.as_slice() == second,
        None => false,
    }
}

/// What files with these bytes are opened as.
fn opened(alloc: Global, first: &[u8], second: &[u8]) -> Option<Opened<Global>> {
    let mut disk = disk_of(alloc, first, second)?;
    Journal::open(alloc, &mut disk, first, second).ok()?
}

/// Whether they are opened as this state, with so many groups that are each `c`.
fn is_opened(alloc: Global, files: (&[u8], &[u8]), state: &[u8], groups: usize) -> bool {
    match opened(alloc, files.0, files.1) {
        Some(opened) => {
            opened.state.as_slice() == state && are_groups(&opened.groups, groups, b"c")
        }
        None => false,
    }
}

/// The fault of a change of state after the last number.
fn change_of_last(alloc: Global) -> Option<JournalFault> {
    let mut disk = disk_of(alloc, &LAST, &[])?;
    let found = Journal::open(alloc, &mut disk, &LAST, &[]).ok()?;
    let mut opened = found?;
    opened.journal.change(alloc, &mut disk, b"y").err()
}

#[test]
fn the_bytes_are_those_of_the_format(rt: HostRuntime) {
    assert!(&rt; are_put(rt.alloc(), false, &[]));
    assert!(&rt; are_put(rt.alloc(), true, &SECOND));
}

#[test]
fn bytes_by_the_format_are_opened(rt: HostRuntime) {
    let alloc = rt.alloc();
    assert!(&rt; is_opened(alloc, (&FIRST, &[]), b"ab", 1));
    assert!(&rt; is_opened(alloc, (&[], &FIRST), b"ab", 1));
    // the higher number counts, in either file, and of equal ones the first file's
    assert!(&rt; is_opened(alloc, (&FIRST, &SECOND), b"", 0));
    assert!(&rt; is_opened(alloc, (&SECOND, &FIRST), b"", 0));
    assert!(&rt; is_opened(alloc, (&FIRST, &FIRST[..24]), b"ab", 1));
    assert!(&rt; is_opened(alloc, (&FIRST[..24], &FIRST), b"ab", 0));
    // a record that isn't whole counts for nothing
    assert!(&rt; is_opened(alloc, (&FIRST[..28], &[]), b"ab", 0));
    assert!(&rt; is_opened(alloc, (&FIRST[..29], &[]), b"ab", 1));
    // a head that isn't whole counts for nothing
    assert!(&rt; is_opened(alloc, (&FIRST, &SECOND[..20]), b"ab", 1));
}

#[test]
fn the_last_number_is_followed_by_none(rt: HostRuntime) {
    assert!(&rt; change_of_last(rt.alloc()) == Some(JournalFault::Full));
}
