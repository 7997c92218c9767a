//! Answers as bytes.
ghost use Rattle.std.specs.Prelude.{◌≡◌, ◌+◌, ◌≤◌, ◌++◌, length, IfOk};
ghost use Rattle.kfs_model.specs.Spelling.{number32, number64};
ghost use Rattle.kfs_call.specs.Layout.{joined};
ghost use Rattle.kfs_call.specs.AnswerRow.{fault_bytes, flag_bytes, told_fields, answer_bytes};
ghost use Rattle.kfs_call.specs.AnswerViews.{fault_shown, told_shown, answer_shown};
ghost use Rattle.arrayvec.specs.ArrayVec.{array_vec_len};

use crate::answer::{AnswerRow, FaultRow, Told};
use arrayvec::ArrayVec;
use std::alloc::{AllocError, Allocator};

/// The most bytes of an answer.
pub const ANSWER_LIMIT: usize = 20;

/// Appends bytes. Condition: there is room for them.
fn put(out: &mut ArrayVec<u8, ANSWER_LIMIT>, bytes: &[u8])
    requires { array_vec_len out.old + length bytes.now ≤ 20 }
    ensures items { out.new.items ≡ out.old.items ++ bytes.now }
    ensures len { array_vec_len out.new ≡ array_vec_len out.old + length bytes.now }
{
    match out.try_extend_from_slice(bytes) {
        Ok(()) => (),
        // The condition says that there is room.
        Err(_) => unreachable!(),
    }
}

/// Appends a flag. Condition: there is room for it.
fn put_flag(out: &mut ArrayVec<u8, ANSWER_LIMIT>, flag: bool)
    requires { array_vec_len out.old + 1 ≤ 20 }
    ensures items { out.new.items ≡ out.old.items ++ flag_bytes flag }
    ensures len { array_vec_len out.new ≡ array_vec_len out.old + 1 }
{
    if flag {
        out.push(1);
    } else {
        out.push(0);
    }
}

/// Appends a number of 4 bytes, big-endian. Condition: there is room for it.
#[tactic(auto, unfolding(kfs_model::specs::Spelling::number32))]
fn put_number32(out: &mut ArrayVec<u8, ANSWER_LIMIT>, value: u32)
    requires { array_vec_len out.old + 4 ≤ 20 }
    ensures items { out.new.items ≡ out.old.items ++ number32 value }
    ensures len { array_vec_len out.new ≡ array_vec_len out.old + 4 }
{
    put(out, &value.to_be_bytes());
}

/// Appends a number of 8 bytes, big-endian. Condition: there is room for it.
#[tactic(auto, unfolding(kfs_model::specs::Spelling::number64))]
fn put_number64(out: &mut ArrayVec<u8, ANSWER_LIMIT>, value: u64)
    requires { array_vec_len out.old + 8 ≤ 20 }
    ensures items { out.new.items ≡ out.old.items ++ number64 value }
    ensures len { array_vec_len out.new ≡ array_vec_len out.old + 8 }
{
    put(out, &value.to_be_bytes());
}

/// Appends a fault. Condition: there is room for it.
fn put_fault(out: &mut ArrayVec<u8, ANSWER_LIMIT>, fault: &FaultRow)
    requires { array_vec_len out.old + 14 ≤ 20 }
    ensures { out.new.items ≡ out.old.items ++ fault_bytes (fault_shown fault.now) }
{
    out.push(fault.code);
    out.push(fault.reason);
    put_number64(out, fault.index);
    put_number32(out, fault.detail);
}

/// Appends what was answered, behind the position.
fn put_told(out: &mut ArrayVec<u8, ANSWER_LIMIT>, told: &Told)
    requires { array_vec_len out.old ≡ 4 }
    ensures { out.new.items ≡ out.old.items ++ joined (told_fields (told_shown told.now)) }
{
    match told {
        Told::Yes { rejudged, need } => {
            out.push(1);
            put_flag(out, *rejudged);
            put_number64(out, *need);
        }
        Told::No { rejudged, fault } => {
            out.push(2);
            put_flag(out, *rejudged);
            put_fault(out, fault);
        }
        Told::NoRoom {
            rejudged,
            need,
            free,
        } => {
            out.push(3);
            put_flag(out, *rejudged);
            put_number64(out, *need);
            put_number32(out, *free);
        }
        Told::Leased(number) => {
            out.push(4);
            put_number32(out, *number);
        }
        Told::Dropped(number) => {
            out.push(5);
            put_number32(out, *number);
        }
        Told::Ticked(number) => {
            out.push(6);
            put_number64(out, *number);
        }
        Told::Moved(number) => {
            out.push(7);
            put_number32(out, *number);
        }
        Told::LeaseRefused(fault) => {
            out.push(8);
            put_fault(out, fault);
        }
        Told::MovesRefused(fault) => {
            out.push(9);
            put_fault(out, fault);
        }
    }
}

/// Writes an answer as bytes that lie in place. Takes no memory, so it can be written where nothing may fail any
/// more.
pub fn spell_answer(answer: &AnswerRow) -> ArrayVec<u8, ANSWER_LIMIT>
    ensures { result.items ≡ answer_bytes (answer_shown answer.now) }
{
    let mut out = ArrayVec::new();
    put_number32(&mut out, answer.position);
    put_told(&mut out, &answer.told);
    out
}

/// Writes an answer as bytes, at most 20. Takes memory for the bytes; `Err` where it is refused.
pub fn encode_answer<A: Allocator>(alloc: A, answer: &AnswerRow) -> Result<Vec<u8, A>, AllocError>
    ensures { IfOk result (λ bytes. bytes.items ≡ answer_bytes (answer_shown answer.now)) }
{
    spell_answer(answer).as_slice().to_vec(alloc)
}
