//! Files that are no journal: they are told apart from empty ones, and stay as they are.

use crate::journal::bytes::disk_of;
use kfs_journal::{Journal, OpenFault};
use std::alloc::Global;
use std::process::Abort;

/// A journal with an empty state, and no group.
static FRESH: [u8; 22] = [
    b'K', b'D', b'J', b'L', 0, 0, 0, 0, 0, 0, 0, 0, 1, 0, 0, 0, 0, 0, 0, 0, 0, 0,
];

/// What an opening finds.
#[derive(Clone, Copy, PartialEq, Eq)]
enum Found {
    Empty,
    Journal,
    Foreign,
}

/// What an opening of files with these bytes answers, and how many calls of the disk it makes.
fn answer(alloc: Global, first: &[u8], second: &[u8]) -> Option<(Found, usize)> {
    let mut disk = disk_of(alloc, first, second)?;
    let answer = match Journal::open(alloc, &mut disk, first, second) {
        Ok(None) => Found::Empty,
        Ok(Some(_opened)) => Found::Journal,
        Err(OpenFault::NotAJournal) => Found::Foreign,
        Err(_) => return None,
    };
    Some((answer, disk.moment()))
}

/// The same of a journal of which this byte, counted from 0, is another.
fn answer_of_damaged(alloc: Global, place: usize) -> Option<(Found, usize)> {
    let mut bytes = FRESH.to_vec(alloc).ok()?;
    let byte = bytes.get_mut(place)?;
    *byte = byte.wrapping_add(2);
    answer(alloc, &bytes, &[])
}

#[test]
fn empty_files_are_empty(rt: HostRuntime) {
    assert!(&rt; answer(rt.alloc(), &[], &[]) == Some((Found::Empty, 0)));
}

#[test]
fn other_files_are_no_journal_and_are_not_changed(rt: HostRuntime) {
    for (first, second) in [
        (b"\0".as_slice(), b"".as_slice()),
        (b"", b"\0"),
        (b"a text of more than thirteen bytes", b""),
        (b"", b"a text of more than thirteen bytes"),
        (b"KDJL", b"KDJL"),
    ] {
        assert!(&rt; answer(rt.alloc(), first, second) == Some((Found::Foreign, 0)));
    }
}

#[test]
fn a_head_that_is_cut_short_is_no_journal(rt: HostRuntime) {
    for len in 1..21 {
        let found = answer(rt.alloc(), &FRESH[..len], &[]);
        assert!(&rt; found == Some((Found::Foreign, 0)), "{len}");
    }
    assert!(&rt; answer(rt.alloc(), &FRESH[..21], &[]) == Some((Found::Journal, 4)));
    assert!(&rt; answer(rt.alloc(), &FRESH, &[]) == Some((Found::Journal, 4)));
}

#[test]
fn a_damaged_magic_gate_or_length_is_no_journal(rt: HostRuntime) {
    for place in [0, 1, 2, 3, 12, 13, 20] {
        let found = answer_of_damaged(rt.alloc(), place);
        assert!(&rt; found == Some((Found::Foreign, 0)), "{place}");
    }
}
