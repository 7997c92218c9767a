//! Which field or row is told as missing.

use crate::spelled::bytes::{DROP, LEASE, LEASE_AT, MIGRATE, NO_ROWS, STATE, SUBMIT, TICK};
use crate::spelled::encodings::with_byte;
use crate::spelled::outcome::{Kind, Outcome, read_as};
use FieldFault::{BadField, Trailing};
use Kind::{Answer, Call, Desk, Rows};
use Outcome::{NoDesk, NoFields, NoRows};
use StateFault::{BadHeader, BadRow};
use kfs_call::{FieldFault, StateFault};
use kfs_call_desk::RestoreFault;
use std::alloc::Global;

/// What is read, bytes, how many of them are given, and what they come to.
type Cut = (Kind, &'static [u8], usize, Outcome);

const CUTS: [Cut; 28] = [
    (Call, b"", 0, NoFields(BadField(0))),
    (Call, b"\0", 1, NoFields(BadField(0))),
    (Call, b"\x07", 1, NoFields(BadField(0))),
    (Call, b"\x01", 1, NoFields(BadField(1))),
    (Call, SUBMIT, 8, NoFields(BadField(2))),
    (Call, SUBMIT, 9, NoFields(BadField(2))),
    (Call, SUBMIT, 15, NoFields(BadField(3))),
    (Call, b"\x02\0\0\0\x07\x02", 6, NoFields(BadField(2))),
    (Call, LEASE, 13, NoFields(BadField(3))),
    (Call, LEASE, 16, NoFields(BadField(4))),
    (Call, DROP, 8, NoFields(BadField(2))),
    (Call, TICK, 8, NoFields(BadField(1))),
    (Call, MIGRATE, 2, NoFields(BadField(1))),
    (Call, MIGRATE, 3, NoFields(BadField(2))),
    (Call, MIGRATE, 28, NoFields(BadField(3))),
    (Call, LEASE_AT, 4, NoFields(BadField(1))),
    (Call, b"\x06\0\0\0\x07\x02", 6, NoFields(BadField(2))),
    (Call, LEASE_AT, 13, NoFields(BadField(3))),
    (Call, LEASE_AT, 17, NoFields(BadField(4))),
    (Answer, b"", 0, NoFields(BadField(0))),
    (Answer, b"\0\0\0\0\0", 5, NoFields(BadField(1))),
    (Answer, b"\0\0\0\0\x0a", 5, NoFields(BadField(1))),
    (Answer, b"\0\0\0\0\x01\x02", 6, NoFields(BadField(2))),
    (Answer, b"\0\0\0\0\x01\x01\0", 7, NoFields(BadField(3))),
    (Answer, b"\0\0\0\0\x04\0\0\0\x01\0", 10, NoFields(Trailing)),
    (Rows, NO_ROWS, 20, NoRows(BadHeader)),
    (Rows, NO_ROWS, 21, NoRows(BadRow(0, 0))),
    (
        Desk,
        NO_ROWS,
        21,
        NoDesk(RestoreFault::BadState(BadRow(0, 0))),
    ),
];

/// A place of `STATE`, the byte that is set there, and what is told of its rows.
const CHANGES: [(usize, u8, StateFault); 6] = [
    // another magic word, another version
    (3, b'L', BadHeader),
    (4, 2, BadHeader),
    // privileged is neither 0 nor 1; over 16 groups; a kind that there isn't; more leases than bytes
    (33, 2, BadRow(0, 0)),
    (42, 17, BadRow(0, 0)),
    (55, 2, BadRow(1, 0)),
    (20, 2, BadRow(1, 1)),
];

fn is_cut_told(alloc: Global, row: &Cut) -> bool {
    match row.1.get(..row.2) {
        Some(bytes) => read_as(row.0, alloc, bytes) == row.3,
        None => false,
    }
}

fn is_change_told(alloc: Global, row: &(usize, u8, StateFault)) -> bool {
    match with_byte(alloc, STATE, row.0, row.1) {
        Some(bytes) => read_as(Rows, alloc, &bytes) == NoRows(row.2),
        None => false,
    }
}

/// Whether of each cut of a header it is told that it is none.
fn are_headers_told(alloc: Global) -> bool {
    let due = NoDesk(RestoreFault::BadState(BadHeader));
    for len in 0..NO_ROWS.len() {
        if read_as(Desk, alloc, &NO_ROWS[..len]) != due {
            return false;
        }
    }
    true
}

#[test]
fn the_first_that_is_missing_is_told(rt: HostRuntime) {
    for (number, row) in CUTS.iter().enumerate() {
        assert!(&rt; is_cut_told(rt.alloc(), row), "{number}");
    }
    for (number, row) in CHANGES.iter().enumerate() {
        assert!(&rt; is_change_told(rt.alloc(), row), "{number}");
    }
    assert!(&rt; are_headers_told(rt.alloc()));
}
