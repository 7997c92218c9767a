//! An example of each public type of `kfs_judge`, `kfs_plan` and `kfs_desk`: how it comes about, and what it holds.

use crate::desks::{AMPLE, Call, ROOT_LEASED, are_due, begun, client, desk_after};
use kfs_desk::{
    Act, ActFault, ActReply, Back, BeginBack, BeginFault, Desk, Done, Reply, SubmissionsBack,
    Unanswered, Why,
};
use kfs_entry::{ENTRY_LIMIT, Log, SpellFault, decode_log};
use kfs_image::{Answer, Image, TierSizes};
use kfs_judge::{
    EntryFault, FileSize, Keeping, KeptRead, Net, ReadAnswer, Reason, View, Walk,
    judge_entries_keeping,
};
use kfs_lease::LeaseFault;
use kfs_mode::Client;
use kfs_plan::{Fault, Outcome, RowFault, Submission, judge, judge_bytes};
use kfs_test_support::refusing::Refusing;
use kfs_test_support::vectors::{CREATE_LOG, CREATE_PLAN, EMPTY_PLAN};
use std::alloc::{Allocator, Global};

// ---- views, and what a walk over a log's entries finds

/// A view of a new desk after these calls.
fn view(alloc: Global, calls: &[Call<'_>]) -> Option<View<Global>> {
    let desk = desk_after(alloc, 9, calls)?;
    desk.view().ok()
}

/// The walk over the entries of a log, or none where its client is unknown.
fn walk(
    alloc: Global,
    view: &View<Global>,
    log: &Log<Global>,
    keeping: Keeping,
) -> Option<Walk<Global>> {
    let is_known = view.client(log.client).is_some();
    if !is_known || log.entries.as_slice().len() > usize::from(ENTRY_LIMIT) {
        return None;
    }
    judge_entries_keeping(alloc, view, log, keeping).ok()
}

/// How many names and headers differ after the log.
fn differing<N>(net: &Net<Global, N>) -> (usize, usize) {
    (net.names.len(), net.nodes.len())
}

/// How many names and headers differ after a log, or its first fault.
type Differing = Result<(usize, usize), EntryFault>;

fn outcome(walk: &Walk<Global>) -> Differing {
    match &walk.outcome {
        Ok(net) => Ok(differing(net)),
        Err(fault) => Err(*fault),
    }
}

/// What was read of the lease on the root, of the header of file 5, and of the root's number of names. None where it wasn't
/// looked at.
fn reads(walk: &Walk<Global>) -> [Option<ReadAnswer>; 3] {
    [
        walk.reads.get(&KeptRead::lease(1)),
        walk.reads.get(&KeptRead::header(5)),
        walk.reads.get(&KeptRead::count(1)),
    ]
}

/// What a walk has found and read, the size of the first file, and whether reads were kept.
type Told = (Differing, [Option<ReadAnswer>; 3], Option<FileSize>, bool);

fn told(walk: Walk<Global>) -> Told {
    let found = outcome(&walk);
    let reads = reads(&walk);
    let size = walk.sizes.first().copied();
    (found, reads, size, walk.reads.into_map().is_some())
}

/// What is told of the walk over the Create of file 5.
fn walked(alloc: Global, calls: &[Call<'_>], keeping: Keeping) -> Option<Told> {
    let log = decode_log(alloc, CREATE_LOG).ok()?;
    let view = view(alloc, calls)?;
    let walk = walk(alloc, &view, &log, keeping)?;
    Some(told(walk))
}

const READ: [Option<ReadAnswer>; 3] = [
    Some(ReadAnswer::Lease(true)),
    Some(ReadAnswer::Look(Answer::Header(None))),
    None,
];

const CREATED_EMPTY: FileSize = FileSize {
    number: 5,
    before: 0,
    after: 0,
};

#[test]
fn walks_and_what_they_read(rt: HostRuntime) {
    let kept = walked(rt.alloc(), &[ROOT_LEASED], Keeping::Reads);
    assert!(rt; kept == Some((Ok((1, 1)), READ, Some(CREATED_EMPTY), true)));
    let unkept = walked(rt.alloc(), &[ROOT_LEASED], Keeping::Nothing);
    assert!(rt; unkept == Some((Ok((1, 1)), [None, None, None], Some(CREATED_EMPTY), false)));
}

/// The first fault where no lease is held.
fn fault_without_a_lease(alloc: Global) -> Option<EntryFault> {
    let (found, _reads, _size, _is_kept) = walked(alloc, &[], Keeping::Reads)?;
    found.err()
}

#[test]
fn a_walk_that_stops_at_an_entry(rt: HostRuntime) {
    let fault = EntryFault {
        index: 0,
        reason: Reason::NoLease(1),
    };
    assert!(rt; fault_without_a_lease(rt.alloc()) == Some(fault));
}

// ---- verdicts

/// How many names and headers a Yes changes and how many blocks it writes, or why the verdict is a No.
type Verdict = Result<(usize, usize, u64), Fault>;

fn verdict<N>(outcome: &Outcome<Global, N>) -> Verdict {
    match outcome {
        Outcome::Yes { net, need, .. } => {
            let (names, nodes) = differing(net);
            Ok((names, nodes, *need))
        }
        Outcome::No(fault) => Err(*fault),
    }
}

fn submission<A: Allocator + Copy>(alloc: A, log: &[u8], plan: &[u8]) -> Option<Submission<A>> {
    Some(Submission {
        client: 7,
        log: Vec::from_slice(alloc, log).ok()?,
        plan: Vec::from_slice(alloc, plan).ok()?,
    })
}

/// The verdict on a submission.
fn judged(alloc: Global, view: &View<Global>, log: &[u8], plan: &[u8]) -> Option<Verdict> {
    let judged = judge(alloc, view, submission(alloc, log, plan)?).ok()?;
    Some(verdict(judged.outcome()))
}

/// The same by a call that leaves the bytes where they are.
fn judged_bytes(alloc: Global, view: &View<Global>, log: &[u8], plan: &[u8]) -> Option<Verdict> {
    let outcome = judge_bytes(alloc, view, 7, log, plan).ok()?;
    Some(verdict(&outcome))
}

/// Whether both verdicts are this one, where client 7 holds the root.
fn is_judged(alloc: Global, log: &[u8], plan: &[u8], due: Verdict) -> bool {
    match view(alloc, &[ROOT_LEASED]) {
        Some(view) => {
            judged(alloc, &view, log, plan) == Some(due)
                && judged_bytes(alloc, &view, log, plan) == Some(due)
        }
        None => false,
    }
}

#[test]
fn a_verdict_of_yes_and_two_of_no(rt: HostRuntime) {
    assert!(rt; is_judged(rt.alloc(), CREATE_LOG, CREATE_PLAN, Ok((1, 1, 0))));
    let row = Fault::Row(RowFault::Names(0));
    assert!(rt; is_judged(rt.alloc(), CREATE_LOG, EMPTY_PLAN, Err(row)));
    let cut = Fault::BadLog(SpellFault::BadEntry(0));
    assert!(rt; is_judged(rt.alloc(), &CREATE_LOG[..24], CREATE_PLAN, Err(cut)));
}

// ---- the desk's answers

/// Calls at a desk whose docket takes two rows.
static TWO_ROWS: [Call<'static>; 4] = [
    ROOT_LEASED,
    Call::Act(
        Act::Drop {
            client: 7,
            number: 5,
        },
        Ok(ActReply {
            position: 1,
            answer: Err(ActFault::Lease(LeaseFault::NoLeaseHeld)),
        }),
    ),
    Call::Act(Act::Tick { moment: 5 }, Err(Unanswered::DocketFull)),
    Call::Submit(CREATE_LOG, CREATE_PLAN, Err(Why::DocketFull)),
];

#[test]
fn answers_to_calls(rt: HostRuntime) {
    assert!(rt; are_due(rt.alloc(), 2, &TWO_ROWS));
}

fn begin(
    alloc: Global,
    image: Image<Global>,
    clients: Vec<Client, Global>,
) -> Result<Desk<Global>, BeginBack<Global>> {
    Desk::begin(alloc, image, clients, 9)
}

/// Two clients of one number.
fn twins(alloc: Global) -> Option<Vec<Client, Global>> {
    let other = Client::new(7, 1_000, 1_000, &[], false, 100, 199).ok()?;
    vec![in alloc; client().ok()?, other].ok()
}

/// Why no desk is begun with two clients of one number, and how many clients come back with the image.
fn begun_with_a_client_twice(alloc: Global) -> Option<(BeginFault, usize)> {
    let clients = twins(alloc)?;
    let image = Image::fresh(alloc, TierSizes::new(8, 8, 8)?).ok()?;
    match begin(alloc, image, clients) {
        Ok(_) => None,
        Err(back) => Some((back.why, back.clients.len())),
    }
}

#[test]
fn a_desk_that_is_not_begun(rt: HostRuntime) {
    assert!(rt; begun_with_a_client_twice(rt.alloc()) == Some((BeginFault::ClientTwice(1), 2)));
}

// ---- submissions at once

/// The Create of file 5, three times.
fn creates<A: Allocator + Copy>(alloc: A) -> Option<Vec<Submission<A>, A>> {
    let mut all = Vec::new(alloc);
    for _ in 0..3 {
        all.push(submission(alloc, CREATE_LOG, CREATE_PLAN)?).ok()?;
    }
    Some(all)
}

fn submit_all<A: Allocator + Copy>(
    desk: &mut Desk<A>,
    submissions: Vec<Submission<A>, A>,
) -> Result<Vec<Result<Reply, Back<A>>, A>, SubmissionsBack<A>> {
    desk.submit_all(submissions)
}

/// The reply, or why the submission came back as it was handed in.
fn reply(answer: &Result<Reply, Back<Global>>) -> Option<Result<Reply, Why>> {
    match answer {
        Ok(reply) => Some(Ok(*reply)),
        Err(back) if back.submission.log.as_slice() == CREATE_LOG => Some(Err(back.why)),
        Err(_) => None,
    }
}

/// What these were answered.
fn replies(answers: &[Result<Reply, Back<Global>>]) -> Option<[Result<Reply, Why>; 3]> {
    match answers {
        [first, second, third] => Some([reply(first)?, reply(second)?, reply(third)?]),
        _ => None,
    }
}

/// What a desk with a docket of three rows answers to the Create of file 5, handed in three times at once.
fn created_three_times(alloc: Global) -> Option<[Result<Reply, Why>; 3]> {
    let submissions = creates(alloc)?;
    let mut desk = desk_after(alloc, 3, &[ROOT_LEASED])?;
    match submit_all(&mut desk, submissions) {
        Ok(answers) => replies(answers.as_slice()),
        Err(_) => None,
    }
}

#[test]
fn submissions_one_after_another(rt: HostRuntime) {
    let yes = Reply::Yes {
        position: 1,
        rejudged: false,
        need: 0,
    };
    let taken = Reply::No {
        position: 2,
        rejudged: false,
        fault: Fault::Entry(EntryFault {
            index: 0,
            reason: Reason::NameTaken,
        }),
    };
    let answers = created_three_times(rt.alloc());
    assert!(rt; answers == Some([Ok(yes), Ok(taken), Err(Why::DocketFull)]));
}

/// How many submissions come back where the desk finds no room for their answers.
fn sent_back<A: Allocator + Copy>(alloc: A, heap: &Refusing<Global>) -> Option<usize> {
    let submissions = creates(alloc)?;
    let mut desk = begun(alloc, 9)?;
    heap.refuse_after(0);
    match submit_all(&mut desk, submissions) {
        Ok(_) => None,
        Err(back) => Some(back.submissions.len()),
    }
}

#[test]
fn submissions_that_come_back(rt: HostRuntime) {
    let heap = Refusing::new(rt.alloc(), AMPLE);
    assert!(rt; sent_back(&heap, &heap) == Some(3));
}
