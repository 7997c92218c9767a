//! Logs and plans with one allocation failing: the answer is that memory ran out, and the
//! same call then succeeds.

use kfs_entry::{SpellFault, decode_log, decode_plan, encode_log, encode_plan};
use kfs_test_support::refusing::Refusing;
use std::alloc::{AllocError, Allocator, Global};
use std::process::Abort;

/// More allocations than any of these calls asks for.
const MANY: u64 = 100;

/// A log of 300 Truncates, whose list of entries grows several times.
fn long_log(alloc: Global) -> Result<Vec<u8>, AllocError> {
    let mut bytes = Vec::from_slice(alloc, b"KLOG\x01\0\0\0\x07\x01\x2c")?;
    for size in 0..300u64 {
        bytes.extend_from_slice(b"\x03\0\0\0\x05")?;
        bytes.extend_from_slice(&size.to_be_bytes())?;
    }
    Ok(bytes)
}

/// Adds 40 rows: of names, of removed nodes, or of zero pieces.
fn push_rows(bytes: &mut Vec<u8, Global>, before: &[u8], behind: &[u8]) -> Result<(), AllocError> {
    for number in 0..40u32 {
        bytes.extend_from_slice(before)?;
        bytes.extend_from_slice(&number.to_be_bytes())?;
        bytes.extend_from_slice(behind)?;
    }
    Ok(())
}

/// A plan with 40 rows in each part, whose lists each grow several times.
fn long_plan(alloc: Global) -> Result<Vec<u8>, AllocError> {
    let mut bytes = Vec::from_slice(alloc, b"KPLN\x01\0\x28\0\x28\0\0\0\x28")?;
    push_rows(&mut bytes, b"\0\0\0\x01\x01a", b"")?;
    push_rows(&mut bytes, b"", b"\0")?;
    push_rows(&mut bytes, b"", &[0u8; 17])?;
    Ok(bytes)
}

/// The log in the bytes, encoded again.
fn log_again<A: Allocator + Copy>(alloc: A, bytes: &[u8]) -> Result<Vec<u8, A>, SpellFault> {
    let log = decode_log(alloc, bytes)?;
    Ok(encode_log(alloc, &log, bytes)?)
}

/// The plan in the bytes, encoded again.
fn plan_again<A: Allocator + Copy>(alloc: A, bytes: &[u8]) -> Result<Vec<u8, A>, SpellFault> {
    let plan = decode_plan(alloc, bytes)?;
    Ok(encode_plan(alloc, &plan)?)
}

/// Whether the bytes, decoded and encoded again, are the same.
pub fn is_same_again<A: Allocator + Copy>(alloc: A, bytes: &[u8]) -> Result<bool, SpellFault> {
    let again = if bytes.starts_with(b"KLOG") {
        log_again(alloc, bytes)?
    } else {
        plan_again(alloc, bytes)?
    };
    Ok(again.as_slice() == bytes)
}

/// Whether the bytes are the same; or, if an allocation failed, the answer is that memory ran out.
fn is_as_due(answer: Result<bool, SpellFault>, has_refused: bool) -> bool {
    answer == Ok(true) || (has_refused && answer == Err(SpellFault::OutOfMemory))
}

/// How many allocations are asked for in decoding and encoding the bytes, each refused in turn.
fn growths(rt: &(impl Abort + AllocGlobal), bytes: &[u8]) -> u64 {
    for growth in 0..MANY {
        let heap = Refusing::new(rt.alloc(), growth);
        let answer = is_same_again(&heap, bytes);
        assert!(rt; is_as_due(answer, heap.has_refused()), "{growth}");
        if !heap.has_refused() {
            return growth;
        }
        assert!(rt; is_same_again(&heap, bytes) == Ok(true), "after {growth}");
    }
    MANY
}

/// How many allocations the long log and the long plan ask for, if there is memory for them.
fn growths_of_both(rt: &(impl Abort + AllocGlobal)) -> Result<(u64, u64), AllocError> {
    let of_the_log = growths(rt, &long_log(rt.alloc())?);
    let of_the_plan = growths(rt, &long_plan(rt.alloc())?);
    Ok((of_the_log, of_the_plan))
}

#[test]
fn each_growth_refused_in_turn(rt: HostRuntime) {
    let (of_the_log, of_the_plan) = growths_of_both(&rt).unwrap_or((MANY, MANY));
    assert!(rt; 6 < of_the_log && of_the_log < MANY, "{of_the_log}");
    assert!(rt; 6 < of_the_plan && of_the_plan < MANY, "{of_the_plan}");
}

/// The refusal of the bytes where no allocation is granted, and whether one was asked for.
fn fault_without_memory(rt: &impl AllocGlobal, bytes: &[u8]) -> (Option<SpellFault>, bool) {
    let heap = Refusing::new(rt.alloc(), 0);
    let fault = if bytes.starts_with(b"KLOG") {
        decode_log(&heap, bytes).err()
    } else {
        decode_plan(&heap, bytes).err()
    };
    (fault, heap.has_refused())
}

#[test]
fn nothing_is_reserved_by_a_count(rt: HostRuntime) {
    let cases: [(&[u8], SpellFault); 3] = [
        (b"KPLN\x01\xff\xff\0\0\0\0\0\0", SpellFault::BadRow(0, 0)),
        (
            b"KPLN\x01\0\0\0\0\xff\xff\xff\xff",
            SpellFault::BadRow(2, 0),
        ),
        (b"KLOG\x01\0\0\0\x07\x10\0", SpellFault::BadEntry(0)),
    ];
    for (bytes, fault) in cases {
        let answer = fault_without_memory(&rt, bytes);
        assert_eq!(rt; answer, (Some(fault), false), "{bytes:?}");
    }
}
