//! Calls, answers, states and desks with one allocation failing: the answer is that memory ran out, and the same call then
//! succeeds.

use crate::spelled::bytes::NO_ROWS;
use crate::spelled::desks::right_state;
use crate::spelled::outcome::{Kind, Outcome, is_memory, read_as};
use kfs_call::StateFault;
use kfs_call_desk::RestoreFault;
use kfs_test_support::refusing::Refusing;
use std::alloc::{AllocError, Global};
use std::process::Abort;

/// More allocations than any of these calls asks for.
const MANY: u64 = 1_000;

/// Client 7 has a lease on node 1.
const LEASED: &[u8] = b"\0\0\0\x01\x04\0\0\0\x01";

/// A call with 40 moves, whose list grows several times.
fn long_call(alloc: Global) -> Result<Vec<u8>, AllocError> {
    let mut bytes = Vec::from_slice(alloc, b"\x05\0\x28")?;
    for _ in 0..40 {
        bytes.extend_from_slice(&[1u8; 13])?;
    }
    Ok(bytes)
}

/// A state with one client, and 40 leases, whose list grows several times.
fn long_state(alloc: Global) -> Result<Vec<u8>, AllocError> {
    let header = b"KDSK\x01\0\0\0\0\0\0\0\x05\0\0\0\x01\0\0\0\x28";
    let mut bytes = Vec::from_slice(alloc, header)?;
    bytes.extend_from_slice(&[0u8; 22])?;
    for _ in 0..40 {
        bytes.extend_from_slice(&[1u8; 17])?;
    }
    Ok(bytes)
}

/// How many allocations it takes to read the bytes and to write what was read, each refused in turn.
fn growths(rt: &(impl Abort + AllocGlobal), kind: Kind, bytes: &[u8]) -> u64 {
    for growth in 0..MANY {
        let heap = Refusing::new(rt.alloc(), growth);
        let answer = read_as(kind, &heap, bytes);
        if !heap.has_refused() {
            assert!(rt; answer == Outcome::Same);
            return growth;
        }
        assert!(rt; is_memory(answer), "{growth}");
        assert!(rt;
            read_as(kind, &heap, bytes) == Outcome::Same,
            "after {growth}"
        );
    }
    MANY
}

/// What a header without its rows comes to with little memory.
fn little_memory(alloc: Global) -> Outcome {
    let heap = Refusing::new(alloc, MANY);
    heap.leave(4_096);
    read_as(Kind::Desk, &heap, NO_ROWS)
}

#[test]
fn refused_memory_is_told(rt: HostRuntime) {
    assert!(&rt; growths(&rt, Kind::Answer, LEASED) == 1);
    let call = long_call(rt.alloc()).expect(&rt, "memory");
    let growths_of_call = growths(&rt, Kind::Call, &call);
    assert!(&rt; growths_of_call > 2 && growths_of_call < MANY);
    let rows = long_state(rt.alloc()).expect(&rt, "memory");
    let growths_of_rows = growths(&rt, Kind::Rows, &rows);
    assert!(&rt; growths_of_rows > 2 && growths_of_rows < MANY);
    let state = right_state(rt.alloc()).expect(&rt, "memory");
    let growths_of_desk = growths(&rt, Kind::Desk, &state);
    assert!(&rt; growths_of_desk > 5 && growths_of_desk < MANY);
    let due = Outcome::NoDesk(RestoreFault::BadState(StateFault::BadRow(0, 0)));
    assert!(&rt; little_memory(rt.alloc()) == due);
}
