//! Batches of one worker whose submissions are answered together: judged against one view, and landed in
//! one turn.
//!
//! The second submission writes to the file that the first one creates. Judged before that lands, it is
//! judged again at its landing.

use crate::shared::batch::{Ending, batch};
use crate::shared::files::{FILE_A, WRITE_LOG, WRITE_LOG_OF_8, WRITE_PLAN};
use crate::shared::gates::Noting;
use crate::shared::setting::{opened, submission, submission_of};
use kfs_desk::Reply;
use kfs_judge::{EntryFault, Reason};
use kfs_plan::{Fault, Submission};
use std::alloc::Global;
use std::sync::Wait;
use std::thread::Threads;

/// The creation of file 5 by client 7, and a Write to it by this client.
fn create_and_write(alloc: Global, client: u32) -> Option<Vec<Submission<Global>>> {
    let log = if client == 7 {
        WRITE_LOG
    } else {
        WRITE_LOG_OF_8
    };
    let create = submission(alloc, FILE_A.log, FILE_A.plan)?;
    let write = submission_of(alloc, client, log, WRITE_PLAN)?;
    let mut both = Vec::new(alloc);
    both.push(create).ok()?;
    both.push(write).ok()?;
    Some(both)
}

/// How a batch of the two ends, with this gate.
fn ended<R: Threads + Wait + Sync>(
    rt: &R,
    alloc: Global,
    gate: &Noting,
    client: u32,
) -> Option<Ending<Global>> {
    let submissions = create_and_write(alloc, client)?;
    let desk = opened(alloc)?;
    batch(rt, alloc, gate, desk, submissions, 1)
}

/// Whether the second submission is answered in row 2 by a No for this reason. And whether it was judged
/// again.
fn second_of(ending: &Ending<Global>, reason: Reason) -> Option<bool> {
    let Ok(end) = ending else {
        return None;
    };
    let no = Fault::Entry(EntryFault { index: 0, reason });
    match end.replies.as_slice() {
        [
            Some(Reply::Yes { position: 1, .. }),
            Some(
                Reply::No {
                    position: 2,
                    rejudged,
                    fault,
                },
            ),
        ] if *fault == no => Some(*rejudged),
        _ => None,
    }
}

/// Whether the Write of this client is refused for the reason, and was revalidated. None also where the
/// gate wasn't called for 0 and then for 1.
fn is_judged_again<R: Threads + Wait + Sync>(
    rt: &R,
    alloc: Global,
    client: u32,
    reason: Reason,
) -> Option<bool> {
    let gate = Noting::new();
    let ending = ended(rt, alloc, &gate, client)?;
    if gate.has_noted_both() {
        second_of(&ending, reason)
    } else {
        None
    }
}

#[test]
fn submissions_of_two_clients_are_judged_before_either_lands(rt: HostRuntime) {
    assert!(rt; is_judged_again(&rt, rt.alloc(), 8, Reason::NoWrite) == Some(true));
}

#[test]
fn the_second_of_one_client_is_judged_after_the_first_has_landed(rt: HostRuntime) {
    assert!(rt; is_judged_again(&rt, rt.alloc(), 7, Reason::NoLease(5)) == Some(false));
}
