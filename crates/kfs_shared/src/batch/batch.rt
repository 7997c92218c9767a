//! A batch of submissions, judged and landed by several workers.
ghost use Rattle.std.specs.Prelude.{◌≡◌, ◌↔◌, ◌-◌, ◌/◌, ◌^◌, ◌<◌, ◌≤◌, [], length, map, replicate, vec_capacity, All, IfOk, IfErr, IsTrue};
ghost use Rattle.kfs_shared.specs.Batch.Batch.{AreSettled, AreTheRows, AscendInShares, GoesOn};
ghost use Rattle.kfs_shared.specs.Batch.Back.{AreBack, HasLostDesk, IsForWorkers};
ghost use Rattle.kfs_desk.specs.Beginning.{beginning_of};
ghost use Rattle.kfs_shared.specs.Passes.{IsPassOf, started, seen, own};

use crate::batch::end::{BatchBack, BatchEnd, Left};
use crate::batch::job::{Gate, Job};
use crate::batch::settle::{jobs_of, settle};
use crate::crew::Crew;
use crate::{Docketed, Pass, Shared};
use kfs_desk::{Desk, Reply, WORKERS};
use kfs_plan::Submission;
use std::alloc::{AllocError, Allocator};
use std::sync::Wait;
use std::thread::Threads;

/// The memory of a batch.
#[derive(Drop)]
struct Room<'g, A: Allocator + Copy, G: Gate>
where
    Desk<A>: Docketed,
{
    jobs: Vec<Job<'g, A, G>, A>,
    replies: Vec<Option<Reply>, A>,
    left: Vec<Left<A>, A>,
    crew: Crew<Desk<A>, Job<'g, A, G>, A>,
}

/// Takes the memory for so many workers and submissions.
fn make_room<'g, A: Allocator + Copy, G: Gate>(
    alloc: A,
    workers: usize,
    submissions: usize,
) -> Result<Room<'g, A, G>, AllocError>
    requires some { 0 < workers }
    requires few { submissions < 2 ^ 32 }
    ensures jobs { IfOk result (λ room. (room.jobs.items ≡ []) × (submissions ≤ vec_capacity room.jobs)) }
    ensures replies { IfOk result (λ room. (room.replies.items ≡ []) × (submissions ≤ vec_capacity room.replies)) }
    ensures left { IfOk result (λ room. (room.left.items ≡ []) × (submissions ≤ vec_capacity room.left)) }
    ensures shares { IfOk result (λ room. map (λ share. share.items) room.crew.shares.items ≡ replicate workers []) }
    ensures rooms { IfOk result (λ room. All (λ share. submissions / workers < vec_capacity share) room.crew.shares.items) }
    ensures workers { IfOk result (λ room. (room.crew.workers.items ≡ []) × (workers ≤ vec_capacity room.crew.workers)) }
{
    let jobs = Vec::with_capacity(alloc, submissions)?;
    let replies = Vec::with_capacity(alloc, submissions)?;
    let left = Vec::with_capacity(alloc, submissions)?;
    let crew = Crew::new(alloc, workers, submissions)?;
    Ok(Room {
        jobs,
        replies,
        left,
        crew,
    })
}

/// Gives the memory of a batch back.
fn give_back<A: Allocator + Copy, G: Gate>(room: Room<'_, A, G>) {
    let Room {
        jobs: _,
        replies: _,
        left: _,
        crew,
    } = room;
    crew.dismiss();
}

/// Whether a docket that had so many rows, and has so many now, has a new one for each reply.
fn has_a_row_for_each(before: u64, now: u32, replies: usize, left: usize) -> bool
    ensures { IsTrue result ↔ now - before ≡ replies - left }
{
    u64::from(now).saturating_sub(before) == replies.saturating_sub(left) as u64
}

/// The batch at a shared desk, whose first pass this is. Takes no memory but what judging and landing
/// need.
fn batch_at<A: Allocator + Copy + Send + Sync, G: Gate + Sync, R: Threads + Wait + Sync>(
    rt: &R,
    alloc: A,
    gate: &G,
    shared: Shared<Desk<A>, A>,
    pass: Pass<Desk<A>>,
    submissions: Vec<Submission<A>, A>,
    room: Room<'_, A, G>,
) -> Result<BatchEnd<A>, BatchBack<A>>
    requires pass { IsPassOf shared pass × (own pass ≡ []) }
    requires few { length submissions.items < 2 ^ 32 }
    requires jobs { (room.jobs.items ≡ []) × (length submissions.items ≤ vec_capacity room.jobs) }
    requires replies { (room.replies.items ≡ []) × (length submissions.items ≤ vec_capacity room.replies) }
    requires left { (room.left.items ≡ []) × (length submissions.items ≤ vec_capacity room.left) }
    requires shares { (0 < length room.crew.shares.items) × (map (λ share. share.items) room.crew.shares.items ≡ replicate (length room.crew.shares.items) []) }
    requires rooms { All (λ share. length submissions.items / length room.crew.shares.items < vec_capacity share) room.crew.shares.items }
    requires workers { (room.crew.workers.items ≡ []) × (length room.crew.shares.items ≤ vec_capacity room.crew.workers) }
    ensures desk { IfOk result (λ end. GoesOn (started beginning_of shared) (seen pass) end.desk) }
    ensures settled { IfOk result (λ end. AreSettled (started beginning_of shared) end.desk.docket 0 submissions.items end.replies.items end.left.items) }
    ensures rows { IfOk result (λ end. AreTheRows (length (seen pass)) (length end.desk.docket) end.replies.items) }
    ensures shares { IfOk result (λ end. AscendInShares (length room.entry.crew.shares.items) (length (seen pass)) (length end.desk.docket) end.replies.items) }
    ensures back { IfErr result (λ back. HasLostDesk (started beginning_of shared) (seen pass) submissions.items back) }
{
    let rows = pass.seen();
    let Room {
        jobs,
        replies,
        left,
        crew,
    } = room;
    let mut replies = replies;
    let mut left = left;
    let mut jobs = jobs_of(alloc, gate, submissions, jobs);
    let met = crew.work(rt, &shared, pass, &mut jobs);
    let Ok(desk) = shared.close(met) else {
        return Err(BatchBack::Unreturned);
    };
    settle(jobs, &mut replies, &mut left);
    if !has_a_row_for_each(rows, desk.docket().len(), replies.len(), left.len()) {
        return Err(BatchBack::Unreturned);
    }
    Ok(BatchEnd {
        desk,
        replies,
        left,
    })
}

/// Has so many workers judge and land the submissions at the desk, each worker in a thread of its own
/// where one can be had. Submission i goes to worker `i mod workers`, and each worker takes its own in
/// their order: it takes a view, judges against that with no turn held, calls the gate, and lands. It may
/// do so with several short submissions of different clients together, which it lands in one turn.
///
/// Takes the memory for its lists before the first turn, and hands all back where that is refused. Memory
/// that is refused later leaves the submission for which it was to be. Waits for turns, and for the
/// workers to end. Condition: there are fewer than 2^32 submissions.
pub fn run_batch<A: Allocator + Copy + Send + Sync, G: Gate + Sync, R: Threads + Wait + Sync>(
    rt: &R,
    alloc: A,
    gate: &G,
    desk: Desk<A>,
    submissions: Vec<Submission<A>, A>,
    workers: usize,
) -> Result<BatchEnd<A>, BatchBack<A>>
    requires few { length submissions.items < 2 ^ 32 }

    // The desk is the one that was handed in, with the rows of the batch behind its own.
    ensures desk { IfOk result (λ end. GoesOn (beginning_of desk) desk.docket end.desk) }

    // Each submission has its reply in the docket, or is left, with the reason.
    ensures settled { IfOk result (λ end. AreSettled (beginning_of desk) end.desk.docket 0 submissions.items end.replies.items end.left.items) }

    // The rows of the batch are those of the replies, each of one.
    ensures rows { IfOk result (λ end. AreTheRows (length desk.docket) (length end.desk.docket) end.replies.items) }
    ensures shares { IfOk result (λ end. AscendInShares workers (length desk.docket) (length end.desk.docket) end.replies.items) }

    // All comes back for a wrong number of workers, and only then with this reason. For lack of memory all comes back, too. Else
    // the desk is lost: a turn wasn't passed on, or the docket has other rows than those of the replies.
    ensures workers { IsForWorkers result ↔ ((1 ≤ workers) × (workers ≤ 8) → ⊥) }
    ensures back { IfErr result (λ back. AreBack desk submissions back) }
{
    if workers == 0 || workers > WORKERS {
        return Err(BatchBack::BadWorkers { desk, submissions });
    }
    let Ok(room) = make_room(alloc, workers, submissions.len()) else {
        return Err(BatchBack::OutOfMemory { desk, submissions });
    };
    match Shared::new(alloc, desk, 0) {
        Ok((shared, pass)) => batch_at(rt, alloc, gate, shared, pass, submissions, room),
        Err(desk) => {
            give_back(room);
            Err(BatchBack::OutOfMemory { desk, submissions })
        }
    }
}
