//! Calls, answers and states have one encoding each. What answers and a state say.

use crate::spelled::bytes::{BEFORE_IMAGE, DROP, LEASE, LEASE_AT, MIGRATE, STATE, SUBMIT, TICK};
use crate::spelled::outcome::{Kind, Outcome, is_memory, is_missing, read_as};
use kfs_call::{AnswerRow, FaultRow, FieldFault, LeaseKind, Told, decode_answer, decode_state};
use kfs_call_desk::RestoreFault;
use kfs_image::ImageFault;
use std::alloc::Global;

/// Whether this is right for so many of the bytes, which are fewer than all. The bytes of a state that is read as rows
/// end in an image, which may have any bytes.
fn is_right_cut(kind: Kind, told: Outcome, len: usize) -> bool {
    match kind {
        Kind::Rows if len >= BEFORE_IMAGE => told == Outcome::Same,
        _ => is_missing(told),
    }
}

/// Whether each cut of the bytes lacks something.
fn are_cuts_right(kind: Kind, alloc: Global, bytes: &[u8]) -> bool {
    for len in 0..bytes.len() {
        if !is_right_cut(kind, read_as(kind, alloc, &bytes[..len]), len) {
            return false;
        }
    }
    true
}

/// What the bytes come to with a byte more.
fn due_longer(kind: Kind) -> Outcome {
    match kind {
        Kind::Call | Kind::Answer => Outcome::NoFields(FieldFault::Trailing),
        Kind::Rows => Outcome::Same,
        Kind::Desk => Outcome::NoDesk(RestoreFault::BadImage(ImageFault::ImageTrailing)),
    }
}

fn is_longer_right(kind: Kind, alloc: Global, bytes: &[u8]) -> bool {
    let Ok(mut longer) = Vec::from_slice(alloc, bytes) else {
        return false;
    };
    longer.push(0).is_ok() && read_as(kind, alloc, &longer) == due_longer(kind)
}

/// The bytes with the one at this place set.
pub fn with_byte(alloc: Global, bytes: &[u8], place: usize, byte: u8) -> Option<Vec<u8>> {
    let mut changed = Vec::from_slice(alloc, bytes).ok()?;
    if place < changed.len() {
        changed[place] = byte;
    }
    Some(changed)
}

/// Whether bytes that differ at this place are refused, or have one encoding, too.
fn is_change_right(kind: Kind, alloc: Global, bytes: &[u8], place: usize) -> Option<bool> {
    let byte = *bytes.get(place)?;
    let changed = with_byte(alloc, bytes, place, byte ^ 0x81)?;
    let told = read_as(kind, alloc, &changed);
    Some(told != Outcome::Other && !is_memory(told))
}

fn are_changes_right(kind: Kind, alloc: Global, bytes: &[u8]) -> bool {
    for place in 0..bytes.len() {
        if is_change_right(kind, alloc, bytes, place) != Some(true) {
            return false;
        }
    }
    true
}

/// Whether the bytes are written as they are read, each cut and a byte more is told, and bytes that differ at one place are
/// refused or have one encoding, too.
pub fn has_one_encoding(kind: Kind, alloc: Global, bytes: &[u8]) -> bool {
    read_as(kind, alloc, bytes) == Outcome::Same
        && are_cuts_right(kind, alloc, bytes)
        && is_longer_right(kind, alloc, bytes)
        && are_changes_right(kind, alloc, bytes)
}

const CALLS: [&[u8]; 6] = [SUBMIT, LEASE, DROP, TICK, MIGRATE, LEASE_AT];

#[test]
fn calls_have_one_encoding(rt: HostRuntime) {
    for (number, bytes) in CALLS.iter().enumerate() {
        assert!(&rt;
            has_one_encoding(Kind::Call, rt.alloc(), *bytes),
            "{number}"
        );
    }
}

/// The first entry lacks a lease on node 9.
const NO_LEASE: FaultRow = FaultRow {
    code: 5,
    reason: 15,
    index: 0,
    detail: 9,
};

/// The third move is refused.
const MOVE_2: FaultRow = FaultRow {
    code: 3,
    reason: 0,
    index: 2,
    detail: 0,
};

/// Bytes of answers, the rows of the docket, and what is answered.
const ANSWERS: [(&[u8], u32, Told); 9] = [
    (
        b"\0\0\0\x01\x01\0\0\0\0\0\0\0\x01\0",
        1,
        Told::Yes {
            rejudged: false,
            need: 256,
        },
    ),
    (
        b"\0\0\0\x02\x02\x01\x05\x0f\0\0\0\0\0\0\0\0\0\0\0\x09",
        2,
        Told::No {
            rejudged: true,
            fault: NO_LEASE,
        },
    ),
    (
        b"\0\0\0\x03\x03\0\0\0\0\0\0\0\0\x09\0\0\0\x08",
        3,
        Told::NoRoom {
            rejudged: false,
            need: 9,
            free: 8,
        },
    ),
    (b"\0\0\0\0\x04\0\0\0\x01", 0, Told::Leased(1)),
    (b"\0\0\x01\0\x05\0\0\0\x02", 256, Told::Dropped(2)),
    (b"\0\0\0\x05\x06\0\0\0\0\0\0\0\x5a", 5, Told::Ticked(90)),
    (b"\0\0\0\x06\x07\0\0\0\x03", 6, Told::Moved(3)),
    (
        b"\0\0\0\x07\x08\x05\x0f\0\0\0\0\0\0\0\0\0\0\0\x09",
        7,
        Told::LeaseRefused(NO_LEASE),
    ),
    (
        b"\0\0\0\x08\x09\x03\0\0\0\0\0\0\0\0\x02\0\0\0\0",
        8,
        Told::MovesRefused(MOVE_2),
    ),
];

/// Whether the bytes are this answer.
fn is_answer(bytes: &[u8], position: u32, told: Told) -> bool {
    match decode_answer(bytes) {
        Ok(answer) => answer == AnswerRow { position, told },
        Err(_) => false,
    }
}

#[test]
fn answers_have_one_encoding(rt: HostRuntime) {
    for (number, row) in ANSWERS.iter().enumerate() {
        assert!(&rt; is_answer(row.0, row.1, row.2), "{number}");
        assert!(&rt;
            has_one_encoding(Kind::Answer, rt.alloc(), row.0),
            "{number}"
        );
    }
}

/// Whether the bytes are the state of `STATE`.
fn is_state(alloc: Global, bytes: &[u8]) -> bool {
    let Ok(state) = decode_state(alloc, bytes) else {
        return false;
    };
    let is_client = match state.clients.as_slice() {
        [client] => {
            client.number == 7
                && client.uid == 1_000
                && client.gid == 1_001
                && client.privileged
                && client.first == 2
                && client.last == 99
                && client.groups.as_slice() == [50].as_slice()
        }
        _ => false,
    };
    let is_lease = match state.leases.as_slice() {
        [lease] => {
            lease.node == 1
                && lease.client == 7
                && lease.kind == LeaseKind::Write
                && lease.end == 100
        }
        _ => false,
    };
    state.moment == 5 && is_client && is_lease && state.image == b"\x04\x05\x06".as_slice()
}

#[test]
fn states_have_one_encoding(rt: HostRuntime) {
    assert!(&rt; is_state(rt.alloc(), STATE));
    assert!(&rt; has_one_encoding(Kind::Rows, rt.alloc(), STATE));
}
