//! Batches of one worker with each allocation failing in turn: four creations by client 7, and a
//! Write by client 8, which is answered No. The last creation and the Write go together.

use crate::shared::batch::{Ending, are_creates, batch, creates, is_create};
use crate::shared::files::{FILES_P, WRITE_LOG_OF_8, WRITE_PLAN};
use crate::shared::gates::Open;
use crate::shared::setting::{opened_with, submission_of};
use kfs_desk::{Desk, Reply};
use kfs_plan::Submission;
use kfs_shared::{BatchBack, BatchEnd, Left, SharedWant};
use kfs_test_support::refusing::Refusing;
use std::alloc::{Allocator, Global};
use std::sync::Wait;
use std::thread::Threads;

/// More allocations than anything here asks for.
const AMPLE: u64 = 1 << 40;

/// More allocations than one batch asks for.
const MANY: u64 = 1_000;

/// A desk, and the submissions that it hasn't answered.
type Rest<A> = (Desk<A>, Vec<Submission<A>, A>);

/// The number of the Write.
const WRITE: usize = 4;

/// Whether it is the Write of client 8, as it was handed in.
fn is_write<A: Allocator>(submission: &Submission<A>) -> bool {
    submission.client == 8
        && submission.log.as_slice() == WRITE_LOG_OF_8
        && submission.plan.as_slice() == WRITE_PLAN
}

/// Whether it is the submission with this number, as it was handed in.
fn is_submission<A: Allocator>(submission: &Submission<A>, number: usize) -> bool {
    if number < WRITE {
        is_create(submission, &FILES_P[number])
    } else {
        number == WRITE && is_write(submission)
    }
}

/// Whether the submission with this number is left for lack of memory, as it was handed in.
fn is_left<A: Allocator>(left: &[Left<A>], number: usize) -> bool {
    match left {
        [one] => {
            one.number as usize == number
                && one.why == SharedWant::OutOfMemory
                && is_submission(&one.submission, number)
        }
        _ => false,
    }
}

/// Whether it is the right reply to the submission with this number, in this row.
fn is_reply(reply: &Reply, number: usize, row: u32) -> bool {
    match reply {
        Reply::Yes { position, .. } => number < WRITE && *position == row,
        Reply::No { position, .. } => number == WRITE && *position == row,
        Reply::NoRoom { .. } => false,
    }
}

/// Whether each creation has a Yes and the Write a No, or is left, and the docket has a row for each
/// reply.
fn is_settled<A: Allocator + Copy>(end: &BatchEnd<A>) -> bool {
    let mut rows = 1;
    for number in 0..WRITE + 1 {
        match end.replies.get(number) {
            Some(Some(reply)) if is_reply(reply, number, rows) => {
                rows = rows.wrapping_add(1);
            }
            Some(None) if is_left(end.left.as_slice(), number) => {}
            _ => return false,
        }
    }
    end.replies.len() == WRITE + 1 && end.desk.docket().len() == rows
}

/// The submissions that are left; none where memory is lacking. At most one is left here.
fn submissions_of<A: Allocator + Copy>(
    alloc: A,
    left: Vec<Left<A>, A>,
) -> Option<Vec<Submission<A>, A>> {
    let mut left = left;
    let mut submissions = Vec::new(alloc);
    if let Some(one) = left.pop() {
        submissions.push(one.submission).ok()?;
    }
    Some(submissions)
}

/// What isn't answered at the end of a batch; none where a creation is neither answered nor left, or is
/// left with no allocation failing.
fn rest_of_end<A: Allocator + Copy>(
    alloc: A,
    end: BatchEnd<A>,
    has_refused: bool,
) -> Option<Rest<A>> {
    if !is_settled(&end) || (!has_refused && !end.left.is_empty()) {
        return None;
    }
    let BatchEnd {
        desk,
        replies: _,
        left,
    } = end;
    let submissions = submissions_of(alloc, left)?;
    Some((desk, submissions))
}

/// Whether these are all five, as they were handed in.
fn are_all<A: Allocator>(submissions: &[Submission<A>]) -> bool {
    match submissions.split_last() {
        Some((write, creates)) => is_write(write) && are_creates(creates, &FILES_P),
        None => false,
    }
}

/// All that came back; none where it isn't as it was handed in, or came back with no allocation failing.
fn rest_of_back<A: Allocator + Copy>(
    desk: Desk<A>,
    submissions: Vec<Submission<A>, A>,
    has_refused: bool,
) -> Option<Rest<A>> {
    if has_refused && desk.docket().len() == 1 && are_all(submissions.as_slice()) {
        Some((desk, submissions))
    } else {
        None
    }
}

/// What isn't answered; none where the ending is wrong.
fn rest_of<A: Allocator + Copy>(alloc: A, ending: Ending<A>, has_refused: bool) -> Option<Rest<A>> {
    match ending {
        Ok(end) => rest_of_end(alloc, end, has_refused),
        Err(BatchBack::OutOfMemory { desk, submissions }) => {
            rest_of_back(desk, submissions, has_refused)
        }
        Err(_) => None,
    }
}

/// The four creations and the Write.
fn all_five<A: Allocator + Copy>(alloc: A) -> Option<Vec<Submission<A>, A>> {
    let mut submissions = creates(alloc, &FILES_P)?;
    let write = submission_of(alloc, 8, WRITE_LOG_OF_8, WRITE_PLAN)?;
    submissions.push(write).ok()?;
    Some(submissions)
}

/// How a batch of these ends.
fn run<'a, R: Threads + Wait + Sync>(
    rt: &R,
    heap: &'a Refusing<Global>,
    rest: Rest<&'a Refusing<Global>>,
) -> Option<Ending<&'a Refusing<Global>>> {
    let (desk, submissions) = rest;
    batch(rt, heap, &Open, desk, submissions, 1)
}

/// A desk, and the five submissions.
fn begun<A: Allocator + Copy>(alloc: A) -> Option<Rest<A>> {
    let submissions = all_five(alloc)?;
    let desk = opened_with(alloc, 100)?;
    Some((desk, submissions))
}

/// How a batch of the five ends, with the allocation of this index failing.
fn ended<'a, R: Threads + Wait + Sync>(
    rt: &R,
    heap: &'a Refusing<Global>,
    growth: u64,
) -> Option<Ending<&'a Refusing<Global>>> {
    let rest = begun(heap)?;
    heap.refuse_after(growth);
    run(rt, heap, rest)
}

/// Whether nothing is left, and the docket has six rows.
fn is_done<A: Allocator + Copy>(end: &BatchEnd<A>) -> bool {
    end.left.is_empty() && end.desk.docket().len() == 6
}

/// Whether a batch of what isn't answered leaves nothing, and the docket has six rows then.
fn is_finished<'a, R: Threads + Wait + Sync>(
    rt: &R,
    heap: &'a Refusing<Global>,
    rest: Rest<&'a Refusing<Global>>,
) -> bool {
    match run(rt, heap, rest) {
        Some(Ok(end)) => is_done(&end),
        _ => false,
    }
}

/// A batch with the allocation of this index failing, and another one with ample memory of what isn't
/// answered then. Whether that allocation was asked for; none where an ending is wrong.
fn batch_with_one_refused<R: Threads + Wait + Sync>(
    rt: &R,
    heap: &Refusing<Global>,
    growth: u64,
) -> Option<bool> {
    let ending = ended(rt, heap, growth)?;
    let has_refused = heap.has_refused();
    heap.refuse_after(AMPLE);
    let rest = rest_of(heap, ending, has_refused)?;
    if is_finished(rt, heap, rest) {
        Some(has_refused)
    } else {
        None
    }
}

/// The same with a heap of its own.
fn batch_once<R: Threads + Wait + Sync>(rt: &R, alloc: Global, growth: u64) -> Option<bool> {
    let heap = Refusing::new(alloc, AMPLE);
    batch_with_one_refused(rt, &heap, growth)
}

/// How many allocations the batch asks for, each refused in turn; or as an error the index of one at which
/// an ending is wrong.
fn growths<R: Threads + Wait + Sync>(rt: &R, alloc: Global) -> Result<u64, u64> {
    for growth in 0..MANY {
        match batch_once(rt, alloc, growth) {
            Some(true) => {}
            Some(false) => return Ok(growth),
            None => return Err(growth),
        }
    }
    Err(MANY)
}

#[test]
fn each_growth_of_a_batch_refused(rt: HostRuntime) {
    let count = growths(&rt, rt.alloc());
    assert!(rt; matches!(count, Ok(10..)), "{count:?}");
}
