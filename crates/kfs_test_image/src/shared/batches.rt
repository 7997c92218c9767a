//! Batches of submissions: what each comes to, in whatever order the workers make their calls. Positions
//! count the row of the setting, too, where client 7 was given the root.

use crate::shared::batch::{Ending, are_creates, batch, creates, is_create};
use crate::shared::files::{FILES_P, File};
use crate::shared::gates::{Meeting, Open};
use crate::shared::setting::opened_with;
use kfs_desk::Reply;
use kfs_shared::{BatchBack, BatchEnd, Gate, Left, SharedWant};
use std::alloc::Global;
use std::sync::Wait;
use std::thread::Threads;

/// The position of a Yes that needed no block and was judged once.
fn position_of(reply: Option<&Option<Reply>>) -> Option<u32> {
    match reply {
        Some(
            Some(
                Reply::Yes {
                    position,
                    rejudged: false,
                    need: 0,
                },
            ),
        ) => Some(*position),
        _ => None,
    }
}

/// How a batch of the creations of files ends, at a desk whose docket takes so many rows.
fn ended<G: Gate + Sync, R: Threads + Wait + Sync>(
    rt: &R,
    alloc: Global,
    gate: &G,
    limit: u32,
    files: &[File],
    workers: usize,
) -> Option<Ending<Global>> {
    let submissions = creates(alloc, files)?;
    let desk = opened_with(alloc, limit)?;
    batch(rt, alloc, gate, desk, submissions, workers)
}

/// The positions of the four replies, where each is such a Yes, no submission is left, and the docket has
/// five rows.
fn all_created(end: &BatchEnd<Global>) -> Option<[u32; 4]> {
    if end.replies.len() != 4 || !end.left.is_empty() || end.desk.docket().len() != 5 {
        return None;
    }
    Some([
        position_of(end.replies.get(0))?,
        position_of(end.replies.get(1))?,
        position_of(end.replies.get(2))?,
        position_of(end.replies.get(3))?,
    ])
}

/// The positions of four creations by so many workers.
fn created_by<R: Threads + Wait + Sync>(rt: &R, alloc: Global, workers: usize) -> Option<[u32; 4]> {
    match ended(rt, alloc, &Open, 100, &FILES_P, workers)? {
        Ok(end) => all_created(&end),
        Err(_) => None,
    }
}

/// Whether each of the rows 1 to 4 is one of these.
fn are_all(positions: &[u32; 4]) -> bool {
    for row in 1..5 {
        if !positions.contains(&row) {
            return false;
        }
    }
    true
}

/// Whether each of so many workers has its rows in order. More than two have one row each here, or none.
fn do_ascend(positions: &[u32; 4], workers: usize) -> bool {
    let [first, second, third, fourth] = *positions;
    match workers {
        1 => first < second && second < third && third < fourth,
        2 => first < third && second < fourth,
        _ => true,
    }
}

#[test]
fn one_two_and_eight_workers_create_four_files(rt: HostRuntime) {
    for workers in [1, 2, 8] {
        let positions = created_by(&rt, rt.alloc(), workers);
        let is_right = match positions {
            Some(positions) => are_all(&positions) && do_ascend(&positions, workers),
            None => false,
        };
        assert!(rt; is_right, "{workers} {positions:?}");
    }
}

// ---- wrong numbers of workers

/// Whether all has come back as it was handed in, for the number of workers.
fn is_back(ending: &Ending<Global>) -> bool {
    match ending {
        Err(BatchBack::BadWorkers { desk, submissions }) => {
            desk.docket().len() == 1 && are_creates(submissions.as_slice(), &FILES_P)
        }
        _ => false,
    }
}

/// The same of a batch of so many workers.
fn is_refused<R: Threads + Wait + Sync>(rt: &R, alloc: Global, workers: usize) -> Option<bool> {
    let ending = ended(rt, alloc, &Open, 100, &FILES_P, workers)?;
    Some(is_back(&ending))
}

#[test]
fn no_worker_and_nine_are_refused(rt: HostRuntime) {
    for workers in [0, 9] {
        assert!(rt;
            is_refused(&rt, rt.alloc(), workers) == Some(true),
            "{workers}"
        );
    }
}

// ---- a full docket, and no submission

/// Whether the last of the four files alone is left, since the docket is full.
fn is_last_left(left: &[Left<Global>]) -> bool {
    match left {
        [one] => {
            one.number == 3
                && one.why == SharedWant::DocketFull
                && is_create(&one.submission, &FILES_P[3])
        }
        _ => false,
    }
}

/// The positions of the first three creations, where the fourth is left.
fn three_created(end: &BatchEnd<Global>) -> Option<[u32; 3]> {
    if end.replies.len() != 4 || !is_last_left(end.left.as_slice()) {
        return None;
    }
    Some([
        position_of(end.replies.get(0))?,
        position_of(end.replies.get(1))?,
        position_of(end.replies.get(2))?,
    ])
}

/// The same of a batch at a desk whose docket takes three rows more.
fn filled<R: Threads + Wait + Sync>(rt: &R, alloc: Global) -> Option<[u32; 3]> {
    match ended(rt, alloc, &Open, 4, &FILES_P, 1)? {
        Ok(end) => three_created(&end),
        Err(_) => None,
    }
}

#[test]
fn what_finds_a_full_docket_is_left(rt: HostRuntime) {
    assert!(rt; filled(&rt, rt.alloc()) == Some([1, 2, 3]));
}

/// How many replies there are without a submission, how many are left, and how many rows the docket has.
fn batch_of_none<R: Threads + Wait + Sync>(rt: &R, alloc: Global) -> Option<(usize, usize, u32)> {
    match ended(rt, alloc, &Open, 100, &[], 8)? {
        Ok(end) => Some((end.replies.len(), end.left.len(), end.desk.docket().len())),
        Err(_) => None,
    }
}

#[test]
fn no_submission_adds_no_row(rt: HostRuntime) {
    assert!(rt; batch_of_none(&rt, rt.alloc()) == Some((0, 0, 1)));
}

// ---- two workers at once

/// Whether the first two submissions have such a Yes.
fn are_both_created(ending: &Ending<Global>) -> bool {
    match ending {
        Ok(end) => {
            position_of(end.replies.get(0)).is_some() && position_of(end.replies.get(1)).is_some()
        }
        Err(_) => false,
    }
}

/// Whether two workers of two submissions met at the gate, each with its verdict in hand.
fn meet_at_the_gate<R: Threads + Wait + Sync>(rt: &R, alloc: Global) -> Option<bool> {
    let gate = Meeting::new();
    let ending = ended(rt, alloc, &gate, 100, &FILES_P[0..2], 2)?;
    Some(are_both_created(&ending) && !gate.has_failed())
}

#[test]
fn two_workers_judge_before_either_lands(rt: HostRuntime) {
    assert!(rt; meet_at_the_gate(&rt, rt.alloc()) == Some(true));
}
