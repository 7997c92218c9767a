//! The frames of one read answered in order: runs of calls in groups, and look-ups one by one between them.
ghost use Rattle.std.specs.Prelude.{◌≡◌, ◌<◌, ◌≤◌, length, take, IfOk, IsErrOf, IsTrue, OnOk};
ghost use Rattle.std.specs.List.{AllByRecursion};
ghost use Rattle.kfs_kept.specs.Keeping.{IsKept};
ghost use Rattle.kfs_server.specs.Asking.{HasNoLookUp};
ghost use Rattle.kfs_server.specs.Serving.Onward.{AreAnswered, AreAnsweredTo};
ghost use Rattle.kfs_server.specs.Serving.Room.{IsAmpleSaid, IsUnsaid};
ghost use Rattle.kfs_server.specs.declared.serving.fault.GroupFault.TheVariants as groups;
ghost use Rattle.kfs_server.specs.declared.serving.fault.ServeFault.TheVariants as faults;

use crate::look_ups::look_up_in;
use crate::replies::write_replies;
use crate::serving::fault::ServeFault;
use crate::serving::group::answer_group;
use crate::serving::looking::answer_look_up;
use crate::serving::room::Said;
use kfs_call::Incoming;
use kfs_journal::Disk;
use kfs_kept::{Judges, Kept};
use kfs_program_text::{flush, write_whole};
use std::alloc::Allocator;
use std::io::Write;
use std::thread::Threads;

/// Answers the frames of a read, in order. Each look-up is answered from the state behind all frames before it.
pub fn answer_frames<R, A, B, D, O>(
    judges: &Judges<'_, R>,
    alloc: B,
    kept: &mut Kept<A, D>,
    frames: &[Incoming<B>],
    said: &mut Said<B>,
    writer: &mut O,
) -> Result<(), ServeFault>
where
    R: Threads + Sync,
    A: Allocator + Copy + Send + Sync,
    B: Allocator + Copy,
    D: Disk + Drop,
    O: Write,
    requires kept { IsKept D.seen D.may_leave kept.old }
    requires open { IsTrue kept.old.is_open }
    requires few { length frames.now ≤ 65536 }
    requires unsaid { IsUnsaid said.old }
    ensures kept { IsKept D.seen D.may_leave kept.new }
    ensures open { OnOk result (IsTrue kept.new.is_open) }
    ensures failed { IsErrOf result (faults.Group groups.Failed) → IsTrue (D.has_failed kept.new.disk) }
    ensures ample { IsAmpleSaid said.new }
    ensures served { AreAnswered D.may_leave D.moment D.left_since result (O.contents writer.old) (O.contents writer.new) kept.old kept.new frames.now }
{
    let mut rest = frames;
    'frames: while !rest.is_empty() {
        rest = answer_next(judges, alloc, kept, rest, said, writer)?;
    }
    Ok(())
}

/// Answers the look-up that the first frame asks for, or all calls up to the next look-up. The frames behind come back.
/// Condition: there is a frame.
fn answer_next<'a, R, A, B, D, O>(
    judges: &Judges<'_, R>,
    alloc: B,
    kept: &mut Kept<A, D>,
    frames: &'a [Incoming<B>],
    said: &mut Said<B>,
    writer: &mut O,
) -> Result<&'a [Incoming<B>], ServeFault>
where
    R: Threads + Sync,
    A: Allocator + Copy + Send + Sync,
    B: Allocator + Copy,
    D: Disk + Drop,
    O: Write,
    requires kept { IsKept D.seen D.may_leave kept.old }
    requires open { IsTrue kept.old.is_open }
    requires some { 0 < length frames.now }
    requires few { length frames.now ≤ 65536 }
    requires unsaid { IsUnsaid said.old }
    ensures kept { IsKept D.seen D.may_leave kept.new }
    ensures open { OnOk result (IsTrue kept.new.is_open) }
    ensures failed { IsErrOf result (faults.Group groups.Failed) → IsTrue (D.has_failed kept.new.disk) }
    ensures ample { IsAmpleSaid said.new }
    ensures unsaid { OnOk result (IsUnsaid said.new) }
    ensures fewer { IfOk result (λ behind. length behind.now < length frames.entry.now) }
    ensures served { AreAnsweredTo D.may_leave D.moment D.left_since result (O.contents writer.old) (O.contents writer.new) kept.old kept.new frames.entry.now }
{
    match frames.split_first() {
        Some((first, others)) => match look_up_in(first) {
            Some(look_up) => {
                answer_look_up(alloc, kept, first, &look_up, writer)?;
                Ok(others)
            }
            None => answer_run(
                judges,
                alloc,
                kept,
                frames,
                1 + calls_before(others),
                said,
                writer,
            ),
        },
        // The condition says that there is a frame.
        None => unreachable!(),
    }
}

/// How many frames stand before the first one that asks for a look-up.
fn calls_before<B: Allocator>(frames: &[Incoming<B>]) -> usize
    ensures within { result ≤ length frames.now }
    ensures calls { AllByRecursion HasNoLookUp (take result frames.now) }
{
    let mut count = 0;
    for incoming in frames {
        if look_up_in(incoming).is_some() {
            return count;
        }
        count += 1;
    }
    count
}

/// Answers the first of the frames, so many, which are calls. The frames behind come back.
fn answer_run<'a, R, A, B, D, O>(
    judges: &Judges<'_, R>,
    alloc: B,
    kept: &mut Kept<A, D>,
    frames: &'a [Incoming<B>],
    count: usize,
    said: &mut Said<B>,
    writer: &mut O,
) -> Result<&'a [Incoming<B>], ServeFault>
where
    R: Threads + Sync,
    A: Allocator + Copy + Send + Sync,
    B: Allocator + Copy,
    D: Disk + Drop,
    O: Write,
    requires kept { IsKept D.seen D.may_leave kept.old }
    requires open { IsTrue kept.old.is_open }
    requires some { 0 < count }
    requires within { count ≤ length frames.now }
    requires few { length frames.now ≤ 65536 }
    requires calls { AllByRecursion HasNoLookUp (take count frames.now) }
    requires unsaid { IsUnsaid said.old }
    ensures kept { IsKept D.seen D.may_leave kept.new }
    ensures open { OnOk result (IsTrue kept.new.is_open) }
    ensures failed { IsErrOf result (faults.Group groups.Failed) → IsTrue (D.has_failed kept.new.disk) }
    ensures ample { IsAmpleSaid said.new }
    ensures unsaid { OnOk result (IsUnsaid said.new) }
    ensures fewer { IfOk result (λ behind. length behind.now < length frames.entry.now) }
    ensures served { AreAnsweredTo D.may_leave D.moment D.left_since result (O.contents writer.old) (O.contents writer.new) kept.old kept.new frames.entry.now }
{
    let (run, behind) = frames.split_at(count);
    write_answers(judges, alloc, kept, run, said, writer)?;
    said.clear();
    Ok(behind)
}

/// Answers a group of calls, and writes the replies once the group is kept.
fn write_answers<R, A, B, D, O>(
    judges: &Judges<'_, R>,
    alloc: B,
    kept: &mut Kept<A, D>,
    group: &[Incoming<B>],
    said: &mut Said<B>,
    writer: &mut O,
) -> Result<(), ServeFault>
where
    R: Threads + Sync,
    A: Allocator + Copy + Send + Sync,
    B: Allocator + Copy,
    D: Disk + Drop,
    O: Write,
    requires kept { IsKept D.seen D.may_leave kept.old }
    requires open { IsTrue kept.old.is_open }
    requires few { length group.now ≤ 65536 }
    requires calls { AllByRecursion HasNoLookUp group.now }
    requires unsaid { IsUnsaid said.old }
    ensures kept { IsKept D.seen D.may_leave kept.new }
    ensures open { OnOk result (IsTrue kept.new.is_open) }
    ensures failed { IsErrOf result (faults.Group groups.Failed) → IsTrue (D.has_failed kept.new.disk) }
    ensures ample { IsAmpleSaid said.new }
    ensures served { AreAnswered D.may_leave D.moment D.left_since result (O.contents writer.old) (O.contents writer.new) kept.old kept.new group.now }
{
    answer_group(judges, alloc, kept, group, &mut said.replies)?;
    write_replies(&mut said.text, &said.replies);
    write_whole(writer, &said.text)?;
    flush(writer)?;
    Ok(())
}
