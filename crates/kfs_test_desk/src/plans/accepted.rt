//! Plans that are made, and accepted.

use crate::plans::desks::{Step, are_done, opened};
use crate::plans::logs::{
    CREATE_AND_UNLINK, LAST_BYTE, NESTED, NO_BYTES, OUT_OF_STICKY, READ_ONLY, REGROUP,
    REMOVE_NESTED, RENAMES, STICKY, interleaved,
};
use Step::{Land, Lease};
use kfs_test_support::vectors::{CREATE_LOG, EDITS_LOG, LETTERS_LOG};
use std::alloc::Global;

/// Client 7 holds the root.
const LEASE: Step<'static> = Lease(b"/");

/// Then it makes file 5 named "a", empty, and holds it.
const CREATE: Step<'static> = Land(CREATE_LOG, 0);

const LEASE_FILE: Step<'static> = Lease(b"/a");

/// Whether these steps at a new desk are as expected.
fn is_accepted(alloc: Global, steps: &[Step<'_>]) -> bool {
    match opened(alloc) {
        Some(mut desk) => are_done(alloc, &mut desk, steps),
        None => false,
    }
}

static ACCEPTED: [&[Step<'static>]; 9] = [
    &[
        LEASE,
        CREATE,
        LEASE_FILE,
        Land(LETTERS_LOG, 1),
        Land(EDITS_LOG, 1),
    ],
    &[LEASE, CREATE, LEASE_FILE, Land(NO_BYTES, 0)],
    &[LEASE, Land(CREATE_AND_UNLINK, 0)],
    &[LEASE, Land(READ_ONLY, 1)],
    &[LEASE, CREATE, LEASE_FILE, Land(LAST_BYTE, 1)],
    // a directory and what is in it
    &[
        LEASE,
        Land(NESTED, 0),
        Lease(b"/p"),
        Lease(b"/p/x"),
        Land(REMOVE_NESTED, 0),
    ],
    &[LEASE, Land(STICKY, 0), Lease(b"/t"), Land(OUT_OF_STICKY, 0)],
    &[LEASE, CREATE, LEASE_FILE, Land(REGROUP, 0)],
    // names that lead to what the log named
    &[LEASE, CREATE, LEASE_FILE, Land(RENAMES, 0)],
];

#[test]
fn plans_that_are_made_are_accepted(rt: HostRuntime) {
    for (number, steps) in ACCEPTED.iter().enumerate() {
        assert!(rt; is_accepted(rt.alloc(), *steps), "{number}");
    }
}

/// The same of 4,096 Writes, from the first byte on or from the last one back.
fn are_interleaved(alloc: Global, is_backward: bool) -> bool {
    match interleaved(alloc, is_backward) {
        Some(log) => is_accepted(alloc, &[LEASE, CREATE, LEASE_FILE, Land(&log, 2)]),
        None => false,
    }
}

#[test]
fn as_many_writes_as_there_may_be(rt: HostRuntime) {
    for is_backward in [false, true] {
        assert!(rt; are_interleaved(rt.alloc(), is_backward), "{is_backward}");
    }
}
