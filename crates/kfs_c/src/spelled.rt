//! Calls as bytes, with their answers as bytes.
ghost use Rattle.std.specs.Prelude.{◌≡◌, ◌↔◌, ◌≤◌, ◌<◌, None, length};
ghost use Rattle.kfs_c.specs.Holding.{HoldsNoDesk, OnDesk, OnDesks};
ghost use Rattle.kfs_c.specs.Spelled.{HasRows, IsAnswerGiven, IsNoCall, IsSpelledCall, answer_limit, field_told};
ghost use Rattle.kfs_c.specs.Loose.Status as status;
ghost use Rattle.kfs_c.specs.Submission.Submission.{IsFull};

use crate::bytes::hand_out;
use crate::fault_codes::{CALL_BAD_FIELD, CALL_TRAILING};
use crate::handle::Handle;
use crate::loose::status::{DONE, FULL, NO_MEMORY, REFUSED, SHORT};
use crate::on_desk;
use crate::submission::{FaultNumbers, NO_FAULT, fault};
use kfs_call::{ANSWER_LIMIT, FieldFault, spell_answer};
use kfs_call_desk::{CallFault, Called, answer_row, call};
use kfs_desk::Desk;
use std::alloc::Global;

/// Makes the call that the bytes spell, and writes its answer's bytes into the front of the buffer. `len` tells how
/// many there are. Both have the formats of docs/FORMATS.md.
///
/// The buffer must have room for the longest answer, before the call is made: else `SHORT`, and `len` tells the room
/// that is needed. `REFUSED` where the bytes are no call. A full docket is told first, then a short buffer, then bytes
/// that are no call. The answer takes no memory, so a call that was made is always answered.
#[unsafe(no_mangle)]
pub extern "C" fn kfs_call(
    alloc: Global,
    handle: &mut Handle,
    bytes: &[u8],
    answer: &mut [u8],
    len: &mut usize,
    fault: &mut FaultNumbers,
) -> u32
    ensures answered { result ≡ status.done → OnDesks handle.old.value handle.new.value (IsSpelledCall bytes.now answer.old answer.new len.new) }
    ensures unanswered { 1 ≤ result → (handle.new.value ≡ handle.old.value) × (answer.new ≡ answer.old) }
    ensures full { (result ≡ status.full) ↔ OnDesk handle.old.value IsFull }
    ensures short { (result ≡ status.short) ↔ OnDesk handle.old.value (λ desk. HasRows desk × (length answer.old < answer_limit)) }
    ensures needed { result ≡ status.short → len.new ≡ answer_limit }
    ensures refused { result ≡ status.refused → OnDesk handle.old.value (IsNoCall bytes.now fault.new) }
    ensures silent { (result ≡ status.refused → ⊥) → fault.new ≡ fault.old }
    ensures closed { (result ≡ status.closed) ↔ (handle.old.value ≡ None) }
    ensures wrong { (result ≡ status.wrong_kind) ↔ HoldsNoDesk handle.old.value }
    ensures known { result ≤ status.wrong_kind }
    ensures something { (result ≡ status.nothing) → ⊥ }
{
    on_desk!(alloc, handle, &mut desk => make_call(alloc, desk, bytes, answer, len, fault))
}

fn make_call(
    alloc: Global,
    desk: &mut Desk<Global>,
    bytes: &[u8],
    answer: &mut [u8],
    len: &mut usize,
    fault: &mut FaultNumbers,
) -> u32
    ensures answered { result ≡ status.done → IsSpelledCall bytes.now answer.old answer.new len.new desk.old desk.new }
    ensures unanswered { 1 ≤ result → (desk.new ≡ desk.old) × (answer.new ≡ answer.old) }
    ensures full { (result ≡ status.full) ↔ IsFull desk.old }
    ensures short { (result ≡ status.short) ↔ (HasRows desk.old × (length answer.old < answer_limit)) }
    ensures needed { result ≡ status.short → len.new ≡ answer_limit }
    ensures refused { result ≡ status.refused → IsNoCall bytes.now fault.new desk.old }
    ensures silent { (result ≡ status.refused → ⊥) → fault.new ≡ fault.old }
    ensures range { result ≤ status.short }
    ensures something { (result ≡ status.nothing) → ⊥ }
{
    if desk.is_full() {
        return FULL;
    }
    if answer.len() < ANSWER_LIMIT {
        *len = ANSWER_LIMIT;
        return SHORT;
    }
    call_with_room(alloc, desk, bytes, answer, len, fault)
}

/// Makes a call. Conditions: the docket isn't full, and the buffer has room for any answer.
fn call_with_room(
    alloc: Global,
    desk: &mut Desk<Global>,
    bytes: &[u8],
    answer: &mut [u8],
    len: &mut usize,
    fault: &mut FaultNumbers,
) -> u32
    requires rows { HasRows desk.old }
    requires room { answer_limit ≤ length answer.old }
    ensures answered { result ≡ status.done → IsSpelledCall bytes.now answer.old answer.new len.new desk.old desk.new }
    ensures unanswered { 1 ≤ result → (desk.new ≡ desk.old) × (answer.new ≡ answer.old) }
    ensures refused { result ≡ status.refused → IsNoCall bytes.now fault.new desk.old }
    ensures silent { (result ≡ status.refused → ⊥) → fault.new ≡ fault.old }
    ensures not_full { (result ≡ status.full) → ⊥ }
    ensures range { result ≤ status.refused }
    ensures something { (result ≡ status.nothing) → ⊥ }
{
    match call(alloc, desk, bytes) {
        Ok(called) => give_answer(&called, answer, len),
        Err(CallFault::BadCall(why)) => {
            *fault = bad_call(why);
            REFUSED
        }
        Err(CallFault::OutOfMemory) => NO_MEMORY,
        // The condition says that it isn't.
        Err(CallFault::DocketFull) => unreachable!(),
    }
}

/// Writes the answer's bytes into the front of the buffer, and tells their length. Condition: it has room for any
/// answer.
fn give_answer(called: &Called, answer: &mut [u8], len: &mut usize) -> u32
    requires { answer_limit ≤ length answer.old }
    ensures done { result ≡ status.done }
    ensures given { IsAnswerGiven called.now answer.old answer.new len.new }
{
    let spelled = spell_answer(&answer_row(called));
    let bytes = spelled.as_slice();
    hand_out(bytes, answer, len)
}

/// Why bytes are no call.
fn bad_call(why: FieldFault) -> FaultNumbers
    ensures { result ≡ field_told why }
{
    match why {
        FieldFault::BadField(count) => fault(CALL_BAD_FIELD, 0, u64::from(count), 0),
        FieldFault::Trailing => fault(CALL_TRAILING, 0, 0, 0),
        // Bytes aren't refused for that.
        FieldFault::OutOfMemory => NO_FAULT,
    }
}
