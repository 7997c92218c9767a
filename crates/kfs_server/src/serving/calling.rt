//! The calls of a group, made and kept.
ghost use Rattle.std.specs.Prelude.{◌≡◌, [], ◌++◌, ◌≤◌, List, length, map, vec_capacity, IfOk, IsErrOf, IsFalse, IsTrue, OnOk};
ghost use Rattle.std.specs.List.{AllByRecursion, AllZip};
ghost use Rattle.kfs_journal.specs.Disk.{Files, LeavesOnly};
ghost use Rattle.kfs_kept.specs.Calls.Making.{Runs};
ghost use Rattle.kfs_kept.specs.Keeping.{IsKept};
ghost use Rattle.kfs_kept.specs.Standing.{StandFor, StandForBeforeOrAfter};
ghost use Rattle.kfs_server.specs.Asking.{HasNoLookUp};
ghost use Rattle.kfs_server.specs.Frames.Begun.{IsFrameOf};
ghost use Rattle.kfs_server.specs.Frames.Frame.{Frame};
ghost use Rattle.kfs_server.specs.Serving.Group.{AreServed, call_in, calls_of};
ghost use Rattle.kfs_server.specs.Serving.Standing.{StandForSome};
ghost use Rattle.kfs_server.specs.declared.serving.calling.Missed.TheVariants as variants;

use crate::replies::NumberedReply;
use crate::serving::merging::merge;
use kfs_call::{Decided, Decision, Incoming, decide_all};
use kfs_call_desk::{CallFault, Called};
use kfs_journal::Disk;
use kfs_kept::{CallsFault, Judges, Kept};
use std::alloc::{AllocError, Allocator};
use std::thread::Threads;

/// Why the calls of a group aren't made and kept.
#[derive(Clone, Copy, Debug)]
pub enum Missed {
    /// Memory was refused before the first call. Nothing has changed.
    OutOfMemory,
    /// The journal's file is full. Nothing has changed.
    Full,
    /// The disk has failed. The calls are kept, all of them or none.
    Failed,
}

impl From<AllocError> for Missed {
    ghost from_gives = { λ _ missed. missed ≡ variants.OutOfMemory };

    fn from(_error: AllocError) -> Missed {
        Missed::OutOfMemory
    }
}

/// Makes the calls of a group and keeps them, and answers the replies to all of its frames.
///
/// Conditions as for `answer_group`.
pub fn make_calls<R, A, B, C, D>(
    judges: &Judges<'_, R>,
    alloc: B,
    kept: &mut Kept<A, D>,
    group: &[Incoming<C>],
    replies: &mut Vec<NumberedReply, B>,
) -> Result<(), Missed>
where
    R: Threads + Sync,
    A: Allocator + Copy + Send + Sync,
    B: Allocator + Copy,
    C: Allocator,
    D: Disk + Drop,
    requires kept { IsKept D.seen D.may_leave kept.old }
    requires open { IsTrue kept.old.is_open }
    requires none { replies.old.items ≡ [] }
    requires room { length group.now ≤ vec_capacity replies.old }
    requires calls { AllByRecursion HasNoLookUp group.now }
    ensures kept { IsKept D.seen D.may_leave kept.new }
    ensures served { (frames : List Frame) → AllZip IsFrameOf group.now frames → OnOk result (AreServed kept.old.desk frames replies.new.items kept.new.desk) }
    ensures as_many { OnOk result (length replies.new.items ≡ length group.now) }
    ensures open { OnOk result (IsTrue kept.new.is_open) }
    ensures acknowledged { OnOk result ((c : Files) → D.may_leave kept.new.disk c → StandFor c kept.new.desk.state) }
    ensures capacity { vec_capacity replies.new ≡ vec_capacity replies.old }
    ensures any_moment { (frames : List Frame) → AllZip IsFrameOf group.now frames → LeavesOnly D.moment D.left_since kept.old.disk kept.new.disk (StandForSome kept.old.desk frames) }
    ensures memory_same { IsErrOf result Missed.OutOfMemory → (kept.new ≡ kept.old) × (replies.new ≡ replies.old) }
    ensures full { IsErrOf result Missed.Full → kept.new ≡ kept.old }
    ensures failed { IsErrOf result Missed.Failed → IsTrue (D.has_failed kept.new.disk) }
{
    let decided = decide_all(alloc, group)?;
    let calls = calls_in(alloc, &decided)?;
    let answers = call_some(judges, alloc, kept, &calls)?;
    merge(&decided, &answers, replies);
    Ok(())
}

/// The calls to be made.
fn calls_in<'a, B: Allocator>(
    alloc: B,
    decided: &[Decided<'a>],
) -> Result<Vec<&'a [u8], B>, AllocError>
    ensures { IfOk result (λ calls. map (λ c. c.now) calls.items ≡ calls_of decided.now) }
{
    let mut calls = Vec::with_capacity(alloc, decided.len())?;
    for one in decided {
        push_call(&mut calls, one.what)?;
    }
    Ok(calls)
}

/// Appends the call to be made, where there is one.
fn push_call<'a, B: Allocator>(
    calls: &mut Vec<&'a [u8], B>,
    what: Decision<'a>,
) -> Result<(), AllocError>
    ensures { OnOk result (map (λ c. c.now) calls.new.items ≡ map (λ c. c.now) calls.old.items ++ call_in what.entry) }
{
    match what {
        Decision::Make(bytes) => Ok(calls.push(bytes)?),
        Decision::NotKept(_) | Decision::NoCall(_) | Decision::NotYours => Ok(()),
    }
}

/// Makes calls and keeps them, as `Kept::call_all`, behind early verdicts. Where there is none, nothing is written to the
/// files.
fn call_some<R, A, B, D>(
    judges: &Judges<'_, R>,
    alloc: B,
    kept: &mut Kept<A, D>,
    calls: &[&[u8]],
) -> Result<Vec<Result<Called, CallFault>, B>, Missed>
where
    R: Threads + Sync,
    A: Allocator + Copy + Send + Sync,
    B: Allocator + Copy,
    D: Disk + Drop,
    requires kept { IsKept D.seen D.may_leave kept.old }
    requires open { IsTrue kept.old.is_open }
    ensures kept { IsKept D.seen D.may_leave kept.new }
    ensures answers { IfOk result (λ answers. Runs kept.old.desk (map (λ c. c.now) calls.now) answers.items kept.new.desk) }
    ensures open { OnOk result (IsTrue kept.new.is_open) }
    ensures acknowledged { OnOk result ((c : Files) → D.may_leave kept.new.disk c → StandFor c kept.new.desk.state) }
    ensures any_moment { LeavesOnly D.moment D.left_since kept.old.disk kept.new.disk (StandForBeforeOrAfter kept.old.desk (map (λ c. c.now) calls.now)) }
    ensures memory_same { IsErrOf result Missed.OutOfMemory → kept.new ≡ kept.old }
    ensures full { IsErrOf result Missed.Full → kept.new ≡ kept.old }
    ensures failed { IsErrOf result Missed.Failed → IsTrue (D.has_failed kept.new.disk) }
{
    if calls.is_empty() {
        return Ok(Vec::new(alloc));
    }
    let early = kept.judge_early(judges, calls);
    let called = kept.call_all(alloc, calls, &early);
    drop(early);
    match called {
        Ok(answers) => Ok(answers),
        Err(CallsFault::OutOfMemory) => Err(Missed::OutOfMemory),
        Err(CallsFault::TooLong) => Err(Missed::OutOfMemory),
        Err(CallsFault::Full) => Err(Missed::Full),
        Err(CallsFault::Failed) => Err(Missed::Failed),
        // The condition says that it is open.
        Err(CallsFault::Closed) => unreachable!(),
    }
}
