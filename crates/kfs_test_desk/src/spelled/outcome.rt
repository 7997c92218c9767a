//! What bytes come to. Each call with long clauses stands here, in a function without clauses, so that it is proved once.

use kfs_call::{
    FieldFault, StateFault, decode_answer, decode_call, decode_state, encode_answer, encode_call,
    encode_state,
};
use kfs_call_desk::{EncodeFault, RestoreFault, encode_desk, restore_alone};
use kfs_desk::Desk;
use std::alloc::Allocator;

/// How many rows the docket of a desk has room for.
const LIMIT: u32 = 9;

/// What bytes are read as.
#[derive(Clone, Copy)]
pub enum Kind {
    Call,
    Answer,
    /// A state, as rows that nobody has checked.
    Rows,
    /// A state, as a desk.
    Desk,
}

/// What bytes come to.
#[derive(Clone, Copy, PartialEq, Eq)]
pub enum Outcome {
    /// What was read is written as the same bytes.
    Same,
    /// What was read is written as other bytes, or not at all.
    Other,
    /// The bytes are no call or no answer.
    NoFields(FieldFault),
    /// They are no state.
    NoRows(StateFault),
    /// They make no desk.
    NoDesk(RestoreFault),
}

/// Whether the call in the bytes is written as the same bytes.
fn call_again<A: Allocator + Copy>(alloc: A, bytes: &[u8]) -> Result<bool, FieldFault> {
    let call = decode_call(alloc, bytes)?;
    let again = encode_call(alloc, &call)?;
    Ok(again.as_slice() == bytes)
}

/// Whether the answer in the bytes is written as the same bytes.
fn answer_again<A: Allocator + Copy>(alloc: A, bytes: &[u8]) -> Result<bool, FieldFault> {
    let answer = decode_answer(bytes)?;
    let again = encode_answer(alloc, &answer)?;
    Ok(again.as_slice() == bytes)
}

/// Whether the rows in the bytes are written as the same bytes. The states of these tests have few.
fn rows_again<A: Allocator + Copy>(alloc: A, bytes: &[u8]) -> Result<bool, StateFault> {
    let state = decode_state(alloc, bytes)?;
    if state.clients.as_slice().len() > 100 || state.leases.as_slice().len() > 100 {
        return Ok(false);
    }
    let again = encode_state(alloc, &state)?;
    Ok(again.as_slice() == bytes)
}

fn restored<A: Allocator + Copy>(alloc: A, bytes: &[u8]) -> Result<Desk<A>, RestoreFault> {
    restore_alone(alloc, bytes, LIMIT)
}

fn saved<A: Allocator + Copy>(alloc: A, desk: &Desk<A>) -> Result<Vec<u8, A>, EncodeFault> {
    encode_desk(alloc, desk.image(), desk.clients(), desk.leases())
}

/// Whether the desk of the bytes is saved as the same bytes.
fn desk_again<A: Allocator + Copy>(alloc: A, bytes: &[u8]) -> Result<bool, RestoreFault> {
    let desk = restored(alloc, bytes)?;
    match saved(alloc, &desk) {
        Ok(again) => Ok(again.as_slice() == bytes),
        Err(EncodeFault::OutOfMemory) => Err(RestoreFault::OutOfMemory),
        Err(EncodeFault::TooMany) => Ok(false),
    }
}

/// What bytes come to that were read.
fn written(is_same: bool) -> Outcome {
    if is_same {
        Outcome::Same
    } else {
        Outcome::Other
    }
}

/// What the bytes come to.
pub fn read_as<A: Allocator + Copy>(kind: Kind, alloc: A, bytes: &[u8]) -> Outcome {
    match kind {
        Kind::Call => match call_again(alloc, bytes) {
            Ok(is_same) => written(is_same),
            Err(fault) => Outcome::NoFields(fault),
        },
        Kind::Answer => match answer_again(alloc, bytes) {
            Ok(is_same) => written(is_same),
            Err(fault) => Outcome::NoFields(fault),
        },
        Kind::Rows => match rows_again(alloc, bytes) {
            Ok(is_same) => written(is_same),
            Err(fault) => Outcome::NoRows(fault),
        },
        Kind::Desk => match desk_again(alloc, bytes) {
            Ok(is_same) => written(is_same),
            Err(fault) => Outcome::NoDesk(fault),
        },
    }
}

/// Whether the outcome is that something is missing.
pub fn is_missing(told: Outcome) -> bool {
    match told {
        Outcome::NoFields(FieldFault::BadField(_)) => true,
        Outcome::NoRows(fault) => fault != StateFault::OutOfMemory,
        Outcome::NoDesk(RestoreFault::BadState(_)) | Outcome::NoDesk(RestoreFault::BadImage(_)) =>
            true,
        _ => false,
    }
}

/// Whether memory was refused.
pub fn is_memory(told: Outcome) -> bool {
    match told {
        Outcome::NoFields(fault) => fault == FieldFault::OutOfMemory,
        Outcome::NoRows(fault) => fault == StateFault::OutOfMemory,
        Outcome::NoDesk(fault) => fault == RestoreFault::OutOfMemory,
        Outcome::Same | Outcome::Other => false,
    }
}
