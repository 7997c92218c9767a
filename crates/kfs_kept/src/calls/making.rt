//! Calls made, and written into a group with their answers.
ghost use Rattle.std.specs.Prelude.{◌≡◌, [], ◌≤◌, ◌<◌, ◌^◌, ◌+◌, All, length, drop, map, vec_capacity, IfOk, IfSome, IsNone};
ghost use Rattle.std.specs.List.{sum_by};
ghost use Rattle.kfs_call.specs.Call.{IsLong};
ghost use Rattle.kfs_kept.specs.Calls.Group.{IsBrief};
ghost use Rattle.kfs_kept.specs.Calls.Making.{AreMade, IsNext, IsToldIn};

use crate::calls::early::Early;
use crate::calls::group::{KeptCall, push_call};
use arrayvec::ArrayVec;
use kfs_call::{ANSWER_LIMIT, AnswerRow, spell_answer};
use kfs_call_desk::{CallFault, Called, call_judged, told};
use kfs_desk::Desk;
use kfs_plan::Judged;
use std::alloc::{AllocError, Allocator};

/// The most bytes of a group: a journal has four bytes for its length.
const MAX_GROUP: usize = (1 << 32) - 1;

/// At most so many bytes of a group a call takes beside its own: two lengths, and an answer without its position.
const BESIDE_CALL: usize = 24;

/// Calls that were made, and the group that keeps them.
#[derive(Drop)]
pub struct Made<B: Allocator> {
    /// For each call its answer, or why it has none.
    pub answers: Vec<Result<Called, CallFault>, B>,
    /// The calls that were answered, with their answers.
    pub group: Vec<u8, B>,
}

/// How many bytes the group of these calls has at most. None where that may be more than 4,294,967,295.
pub fn room_for(calls: &[&[u8]]) -> Option<usize>
    ensures room { IfSome result (λ total. (total ≡ sum_by (λ c. length c.now + 24) calls.now) × (total < 2 ^ 32)) }
    ensures short { IfSome result (λ _. All (λ c. length c.now < 2 ^ 32) calls.now) }
    ensures long { IsNone result → 2 ^ 32 ≤ sum_by (λ c. length c.now + 24) calls.now }
{
    let mut total = 0usize;
    for bytes in calls {
        total = total
            .saturating_add(bytes.len())
            .saturating_add(BESIDE_CALL);
        if total > MAX_GROUP {
            return None;
        }
    }
    Some(total)
}

impl<B: Allocator + Copy> Made<B> {
    /// No calls so far, with room for so many answers and for so many bytes of a group.
    pub fn with_room(alloc: B, answers: usize, room: usize) -> Result<Made<B>, AllocError>
        ensures none { IfOk result (λ made. (made.answers.items ≡ []) × (made.group.items ≡ [])) }
        ensures room { IfOk result (λ made. (answers ≤ vec_capacity made.answers) × (room ≤ vec_capacity made.group)) }
    {
        Ok(Made {
            answers: Vec::with_capacity(alloc, answers)?,
            group: Vec::with_capacity(alloc, room)?,
        })
    }

    /// Makes the calls one after another, and writes those that are answered into the group. Each is made beside the
    /// verdict that stands at its place in `early`, where one does.
    ///
    /// A call that isn't answered is as if it hadn't been handed in: it changes nothing, and isn't in the group. What is
    /// written here has its room already, so a desk that has changed never lacks memory for its group. Conditions: the
    /// room is that of `room_for`.
    pub fn make_all<A: Allocator + Copy>(
        &mut self,
        alloc: B,
        desk: &mut Desk<A>,
        calls: &[&[u8]],
        early: &Early<A>,
    )
        requires long { All (λ c. length c.now < 2 ^ 32) calls.now }
        requires none { (self.old.answers.items ≡ []) × (self.old.group.items ≡ []) }
        requires answers { length calls.now ≤ vec_capacity self.old.answers }
        requires room { sum_by (λ c. length c.now + 24) calls.now ≤ vec_capacity self.old.group }
        ensures made { AreMade desk.old (map (λ c. c.now) calls.now) self.new.answers.items self.new.group.items desk.new }
        ensures short { length self.new.group.items ≤ sum_by (λ c. length c.now + 24) calls.now }
    {
        for bytes in calls {
            let judged = early.verdict(self.answers.len());
            let answer = make_call(alloc, desk, bytes, judged, &mut self.group);
            self.answers.push_reserved(answer);
        }
    }
}

/// Makes a call, and appends it with its answer to the group, which has room for it.
fn make_call<A: Allocator + Copy, B: Allocator + Copy>(
    alloc: B,
    desk: &mut Desk<A>,
    bytes: &[u8],
    judged: Option<&Judged<A>>,
    group: &mut Vec<u8, B>,
) -> Result<Called, CallFault>
    requires long { IsLong bytes.now }
    requires room { length group.old.items + (length bytes.now + 24) ≤ vec_capacity group.old }
    ensures next { IsNext desk.old bytes.now result group.old.items group.new.items desk.new }
    ensures len { length group.new.items ≤ length group.old.items + (length bytes.now + 24) }
    ensures capacity { vec_capacity group.old ≤ vec_capacity group.new }
{
    let answer = call_judged(alloc, desk, bytes, judged);
    if let Ok(called) = &answer {
        let row = answer_row(called);
        let kept = KeptCall {
            call: bytes,
            answer: without_position(&row),
        };
        push_call(group, &kept);
    }
    answer
}

/// An answer as bytes, at position 0. Takes no memory.
pub fn answer_row(called: &Called) -> ArrayVec<u8, ANSWER_LIMIT>
    ensures long { 4 ≤ length result.items }
    ensures short { length result.items ≤ 20 }
    ensures brief { IsBrief (drop 4 result.items) }
    ensures told { IsToldIn called.now (drop 4 result.items) }
{
    let row = AnswerRow {
        position: 0,
        told: told(called),
    };
    spell_answer(&row)
}

/// What stands behind the position of an answer.
pub fn without_position(row: &[u8]) -> &[u8]
    requires { 4 ≤ length row.now }
    ensures { result.now ≡ drop 4 row.now }
{
    &row[4..]
}
