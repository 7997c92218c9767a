//! Bytes of logs and plans that are decoded and encoded to the same bytes. Each stands in both versions. What
//! they decode to is in the worked examples of `kfs_model`, and in the scripts of `kfs_rows`.

use crate::codec::memory::is_same_again;
use kfs_entry::{SpellFault, decode_log};
use kfs_test_support::vectors::{
    CREATE_LOG, CREATE_PLAN, EDITS_LOG, EDITS_PLAN, EMPTY_LOG, EMPTY_PLAN, GONE_PLAN, MOVE_LOG,
    MOVE_PLAN, OTHERS_LOG, REGROUP_LOG, REGROUP_PLAN,
};
use std::alloc::{AllocError, Global};
use std::process::Abort;

/// The same bytes with version 2.
fn in_version_2(alloc: Global, bytes: &[u8]) -> Result<Vec<u8>, AllocError> {
    let mut twin = Vec::new(alloc);
    for (place, byte) in bytes.iter().enumerate() {
        twin.push(if place == 4 { 2 } else { *byte })?;
    }
    Ok(twin)
}

/// Whether the bytes are the same after they are decoded and encoded, and so with version 2.
fn are_both_same_again(alloc: Global, bytes: &[u8]) -> Result<bool, SpellFault> {
    let twin = in_version_2(alloc, bytes)?;
    Ok(is_same_again(alloc, bytes)? && is_same_again(alloc, &twin)?)
}

/// A log and a plan of each kind of entry, row and piece of version 1.
static OF_VERSION_1: [&[u8]; 10] = [
    CREATE_LOG,
    EDITS_LOG,
    MOVE_LOG,
    OTHERS_LOG,
    EMPTY_LOG,
    CREATE_PLAN,
    EDITS_PLAN,
    MOVE_PLAN,
    GONE_PLAN,
    EMPTY_PLAN,
];

#[test]
fn logs_and_plans_have_one_encoding(rt: HostRuntime) {
    for bytes in OF_VERSION_1.iter() {
        assert!(rt;
            are_both_same_again(rt.alloc(), *bytes) == Ok(true),
            "{bytes:?}"
        );
    }
    assert!(rt; is_same_again(rt.alloc(), REGROUP_LOG) == Ok(true));
    assert!(rt; is_same_again(rt.alloc(), REGROUP_PLAN) == Ok(true));
}

/// The refusal of a log with one Write of `len` zero bytes.
fn write_fault(rt: &impl AllocGlobal, len: u32) -> Result<Option<SpellFault>, AllocError> {
    let head = b"KLOG\x01\0\0\0\x07\0\x01\x02\0\0\0\x05\0\0\0\0\0\0\0\0";
    let mut bytes = Vec::from_slice(rt.alloc(), head)?;
    bytes.extend_from_slice(&len.to_be_bytes())?;
    for _ in 0..len {
        bytes.push(0)?;
    }
    Ok(decode_log(rt.alloc(), &bytes).err())
}

#[test]
fn greatest_payload(rt: HostRuntime) {
    assert!(rt; write_fault(&rt, 65_536) == Ok(None));
    assert!(rt; write_fault(&rt, 65_537) == Ok(Some(SpellFault::BadEntry(0))));
}
