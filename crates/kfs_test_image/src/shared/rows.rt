//! Threads that share a desk. Positions and rows seen count the rows of the setting, too: one where
//! client 7 was only given the root, and three where it made file 5 and was given that.
ghost use Rattle.std.specs.Prelude.{IfSome};
ghost use Rattle.kfs_shared.specs.Passes.{IsPassOf};

use crate::shared::callers::{Asking, Creating};
use crate::shared::calls::{Sharing, closed, judged, land, meet, shared, shared_from, split, view};
use crate::shared::files::{FILE_A, FILES_P, FILES_Q, File, WRITE_LOG, WRITE_PLAN};
use crate::shared::setting::{opened, with_file};
use crate::shared::side::both;
use kfs_desk::{Act, ActReply, Desk, Done, Reply};
use kfs_judge::{EntryFault, Reason};
use kfs_lease::LeaseKind;
use kfs_plan::{Fault, Judged};
use kfs_shared::{Pass, Shared, SharedWant};
use std::alloc::Global;
use std::sync::Wait;
use std::thread::Threads;

// ---- two threads create four files each

/// Whether the numbers ascend.
fn do_ascend(positions: &[Option<u32>; 4]) -> bool {
    match positions {
        [Some(a), Some(b), Some(c), Some(d)] => a < b && b < c && c < d,
        _ => false,
    }
}

/// Whether each of the rows 1 to 8 stands in one of the lists, and none in both.
fn are_parted(one: &[Option<u32>; 4], other: &[Option<u32>; 4]) -> bool {
    for row in 1..9 {
        if one.contains(&Some(row)) == other.contains(&Some(row)) {
            return false;
        }
    }
    true
}

fn all(files: [File; 4]) -> [Option<File>; 4] {
    let [a, b, c, d] = files;
    [Some(a), Some(b), Some(c), Some(d)]
}

/// Whether all files of both threads are made, in rows 1 to 8 of the docket, each thread's in its order.
fn created_by_two<R: Threads + Wait + Sync>(rt: &R, alloc: Global) -> Option<bool> {
    let desk = opened(alloc)?;
    let (shared, p) = shared(alloc, desk)?;
    let (p, q) = split(&shared, p);
    let one = Creating::new(alloc, all(FILES_P));
    let other = Creating::new(alloc, all(FILES_Q));
    let ((one, p), (other, _)) = both(rt, &shared, one, p, other, q);
    let rows = closed(shared, p)?;
    let do_ascend = do_ascend(&one.positions) && do_ascend(&other.positions);
    Some(do_ascend && are_parted(&one.positions, &other.positions) && rows == 9)
}

#[test]
fn two_threads_create_four_files_each(rt: HostRuntime) {
    assert!(rt; created_by_two(&rt, rt.alloc()) == Some(true));
}

// ---- what a pass has seen

/// What two passes have seen after the first one has created file 5, and what a pass has seen that is
/// split from the first. Then what is answered where the second one meets that, and what it has seen. At
/// last the row of the creation, and how many rows the docket has.
fn seen_by_two<R: Threads + Wait + Sync>(
    rt: &R,
    alloc: Global,
) -> Option<([u64; 3], [u64; 2], Option<u32>, u32)> {
    let desk = opened(alloc)?;
    let (shared, p) = shared(alloc, desk)?;
    let (p, q) = split(&shared, p);
    let creating = Creating::new(alloc, [Some(FILE_A), None, None, None]);
    let resting = Creating::new(alloc, [None; 4]);
    let ((created, p), (_, q)) = both(rt, &shared, creating, p, resting, q);
    let (p, copy) = split(&shared, p);
    let mut q = q;
    let seen = [p.seen(), q.seen(), copy.seen()];
    let answer = meet(&shared, &mut q, copy);
    let met = [answer, q.seen()];
    let rows = closed(shared, p)?;
    Some((seen, met, created.positions[0], rows))
}

#[test]
fn passes_have_seen_what_their_calls_and_meetings_saw(rt: HostRuntime) {
    assert!(rt; seen_by_two(&rt, rt.alloc()) == Some(([2, 1, 2], [2, 2], Some(1), 2)));
}

// ---- no ticket left

/// The reason why the submission comes back, where it comes back as it was.
fn reason_of<R: Wait>(
    rt: &R,
    shared: &Shared<Desk<Global>, Global>,
    pass: &mut Pass<Desk<Global>>,
    judged: Judged<Global>,
    file: File,
) -> Option<SharedWant>
    requires { IsPassOf shared.now pass.old }
    ensures { IsPassOf shared.now pass.new }
{
    match land(rt, shared, pass, judged) {
        Err(back)
            if back.submission.log.as_slice() == file.log
                && back.submission.plan.as_slice() == file.plan => Some(back.why),
        _ => None,
    }
}

/// The verdict on the creation of file 5 at the desk.
fn creation_judged_at(alloc: Global, desk: &Desk<Global>) -> Option<Judged<Global>> {
    let view = desk.view().ok()?;
    judged(alloc, &view, FILE_A.log, FILE_A.plan)
}

/// The same at a desk of its own.
fn creation_judged(alloc: Global) -> Option<Judged<Global>> {
    let desk = opened(alloc)?;
    creation_judged_at(alloc, &desk)
}

/// A desk that is shared from the last number on.
fn shared_at_the_end(alloc: Global) -> Option<Sharing<Global>>
    ensures { IfSome result (λ r. IsPassOf r.0 r.1) }
{
    let desk = opened(alloc)?;
    shared_from(alloc, desk, u64::MAX).ok()
}

/// Why a view, a call for the leases and a landing aren't answered, what the pass has seen, and how
/// many rows the docket has.
fn spent<R: Threads + Wait + Sync>(
    rt: &R,
    alloc: Global,
) -> Option<([Option<SharedWant>; 3], u64, u32)> {
    let (shared, p) = shared_at_the_end(alloc)?;
    let (p, q) = split(&shared, p);
    let viewing = Asking::new(None);
    let acting = Asking::new(Some(Act::Tick { moment: 1 }));
    let ((viewing, p), (acting, _)) = both(rt, &shared, viewing, p, acting, q);
    let mut p = p;
    let landing = match creation_judged(alloc) {
        Some(verdict) => reason_of(rt, &shared, &mut p, verdict, FILE_A),
        None => None,
    };
    let seen = p.seen();
    let rows = closed(shared, p)?;
    Some(([viewing.why, acting.why, landing], seen, rows))
}

#[test]
fn no_ticket_is_left(rt: HostRuntime) {
    let why = Some(SharedWant::TurnsSpent);
    assert!(rt; spent(&rt, rt.alloc()) == Some(([why, why, why], 1, 1)));
}

// ---- a verdict that is revalidated

const DROPPED: Act<'static> = Act::Drop {
    client: 7,
    number: 5,
};

const LEASED: Act<'static> = Act::LeaseAt {
    client: 8,
    number: 5,
    kind: LeaseKind::Read,
    end: 100,
};

/// The verdict on the Write to file 5, against a view of now.
fn write_judged<R: Wait>(
    rt: &R,
    alloc: Global,
    shared: &Shared<Desk<Global>, Global>,
    pass: &mut Pass<Desk<Global>>,
) -> Option<Judged<Global>>
    requires { IsPassOf shared.now pass.old }
    ensures { IsPassOf shared.now pass.new }
{
    let view = view(rt, shared, pass).ok()?;
    judged(alloc, &view, WRITE_LOG, WRITE_PLAN)
}

/// The reply to a verdict, where there is one.
fn landed<R: Wait>(
    rt: &R,
    shared: &Shared<Desk<Global>, Global>,
    pass: &mut Pass<Desk<Global>>,
    verdict: Option<Judged<Global>>,
) -> Option<Reply>
    requires { IsPassOf shared.now pass.old }
    ensures { IsPassOf shared.now pass.new }
{
    land(rt, shared, pass, verdict?).ok()
}

/// The answers to the drop of the lease, to the Write that was judged before, and to a lease of another
/// client, by number; what the second pass has seen; and how many rows the docket has.
fn judged_before_a_drop<R: Threads + Wait + Sync>(
    rt: &R,
    alloc: Global,
) -> Option<([Option<ActReply>; 2], Option<Reply>, u64, u32)> {
    let desk = with_file(alloc)?;
    let (shared, p) = shared(alloc, desk)?;
    let (p, q) = split(&shared, p);
    let mut p = p;
    let verdict = write_judged(rt, alloc, &shared, &mut p);
    let dropping = Asking::new(Some(DROPPED));
    let ((_, p), (dropped, q)) = both(rt, &shared, Asking::new(None), p, dropping, q);
    let mut p = p;
    let reply = landed(rt, &shared, &mut p, verdict);
    let leasing = Asking::new(Some(LEASED));
    let ((_, p), (leased, q)) = both(rt, &shared, Asking::new(None), p, leasing, q);
    let seen = q.seen();
    let rows = closed(shared, p)?;
    Some(([dropped.answer, leased.answer], reply, seen, rows))
}

#[test]
fn a_verdict_is_judged_again_after_a_drop(rt: HostRuntime) {
    let dropped = ActReply {
        position: 3,
        answer: Ok(Done::Dropped(5)),
    };
    let no = Reply::No {
        position: 4,
        rejudged: true,
        fault: Fault::Entry(EntryFault {
            index: 0,
            reason: Reason::NoLease(5),
        }),
    };
    let leased = ActReply {
        position: 5,
        answer: Ok(Done::Leased(5)),
    };
    let answers = judged_before_a_drop(&rt, rt.alloc());
    let acted = [Some(dropped), Some(leased)];
    assert!(rt; answers == Some((acted, Some(no), 6, 6)));
}
