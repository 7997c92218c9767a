//! A group of frames, answered together once what they did is kept.
ghost use Rattle.std.specs.Prelude.{◌≡◌, [], ◌≤◌, List, length, map, vec_capacity, IsErrOf, IsTrue, OnOk};
ghost use Rattle.std.specs.List.{AllByRecursion, AllZip};
ghost use Rattle.kfs_journal.specs.Disk.{Files, LeavesOnly};
ghost use Rattle.kfs_kept.specs.Keeping.{IsKept};
ghost use Rattle.kfs_kept.specs.Standing.{StandFor};
ghost use Rattle.kfs_server.specs.Asking.{HasNoLookUp};
ghost use Rattle.kfs_server.specs.Frames.Begun.{IsFrameOf};
ghost use Rattle.kfs_server.specs.Frames.Frame.{Frame};
ghost use Rattle.kfs_server.specs.Serving.Group.{AreServed, refused_for_memory};
ghost use Rattle.kfs_server.specs.Serving.Standing.{StandForSome};

use crate::replies::{NumberedReply, Refusal, Reply};
use crate::serving::calling::{Missed, make_calls};
use crate::serving::fault::GroupFault;
use kfs_call::Incoming;
use kfs_journal::Disk;
use kfs_kept::{Judges, Kept};
use std::alloc::Allocator;
use std::thread::Threads;

/// Answers a group of frames. Calls are made in the order of the frames, and are kept before this returns.
///
/// Conditions: the desk is open; `replies` is empty, and has room for all; no frame asks for a look-up. A frame that is
/// refused changes nothing. Where memory is refused before the first call, each frame is refused for that.
pub fn answer_group<R, A, B, C, D>(
    judges: &Judges<'_, R>,
    alloc: B,
    kept: &mut Kept<A, D>,
    group: &[Incoming<C>],
    replies: &mut Vec<NumberedReply, B>,
) -> Result<(), GroupFault>
where
    R: Threads + Sync,
    A: Allocator + Copy + Send + Sync,
    B: Allocator + Copy,
    C: Allocator,
    D: Disk + Drop,
    requires kept { IsKept D.seen D.may_leave kept.old }
    requires open { IsTrue kept.old.is_open }
    requires none { replies.old.items ≡ [] }
    requires room { length group.now ≤ vec_capacity replies.old }
    requires calls { AllByRecursion HasNoLookUp group.now }
    ensures kept { IsKept D.seen D.may_leave kept.new }

    // The replies are the machine's. With them, each crash leaves the state after all of the frames.
    ensures served { (frames : List Frame) → AllZip IsFrameOf group.now frames → OnOk result (AreServed kept.old.desk frames replies.new.items kept.new.desk) }
    ensures as_many { OnOk result (length replies.new.items ≡ length group.now) }
    ensures open { OnOk result (IsTrue kept.new.is_open) }
    ensures acknowledged { OnOk result ((c : Files) → D.may_leave kept.new.disk c → StandFor c kept.new.desk.state) }
    ensures capacity { vec_capacity replies.new ≡ vec_capacity replies.old }

    // At any moment: the state after some of the frames, none skipped and none in part.
    ensures any_moment { (frames : List Frame) → AllZip IsFrameOf group.now frames → LeavesOnly D.moment D.left_since kept.old.disk kept.new.disk (StandForSome kept.old.desk frames) }
    ensures failed { IsErrOf result GroupFault.Failed → IsTrue (D.has_failed kept.new.disk) }
    ensures full { IsErrOf result GroupFault.Full → kept.new ≡ kept.old }
{
    match make_calls(judges, alloc, kept, group, replies) {
        Ok(()) => Ok(()),
        Err(Missed::Failed) => Err(GroupFault::Failed),
        Err(Missed::Full) => Err(GroupFault::Full),
        Err(Missed::OutOfMemory) => {
            refuse_all(group, replies);
            Ok(())
        }
    }
}

/// Replies to each frame that memory was refused. Conditions: `replies` is empty, and has room for all.
fn refuse_all<B: Allocator, C: Allocator>(
    group: &[Incoming<C>],
    replies: &mut Vec<NumberedReply, B>,
)
    requires none { replies.old.items ≡ [] }
    requires room { length group.now ≤ vec_capacity replies.old }
    ensures refused { replies.new.items ≡ map refused_for_memory group.now }
    ensures capacity { vec_capacity replies.new ≡ vec_capacity replies.old }
{
    for incoming in group {
        replies.push_reserved(NumberedReply {
            number: incoming.number,
            reply: Reply::Refused(Refusal::OutOfMemory),
        });
    }
}
