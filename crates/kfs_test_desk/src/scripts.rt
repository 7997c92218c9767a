//! Scripts of workers: steps at their place and out of place, with calls and moves of blocks between them, and a script with
//! each allocation failing in turn.

use crate::desks::{
    Block, Call, FILE, FILE_LEASED, NO_FILE, ROOT_LEASED, Shown, desk_after, has_blocks, shows,
};
use Does::{Judge, Land, Look};
use kfs_desk::{Act, Desk, Move, Reply};
use kfs_judge::{EntryFault, Reason};
use kfs_lease::LeaseKind;
use kfs_plan::{Fault, Submission};
use kfs_test_support::refusing::Refusing;
use kfs_test_support::vectors::{CREATE_LOG, CREATE_PLAN};
use kfs_workers::{ScriptBack, ScriptEnd, Step, run_script};
use std::alloc::{Allocator, Global};

/// A step of a script.
#[derive(Clone, Copy)]
enum Does {
    /// This worker takes this ticket.
    Look(usize, usize),
    Judge(usize),
    Land(usize),
    Act(Act<'static>),
    /// Both files' blocks move to other tiers.
    MoveBoth,
    /// One block moves twice, which is refused.
    MoveTwice,
}

/// The desk at which a script begins: client 7 holds the root, in row 0.
#[derive(Clone, Copy)]
enum Start {
    Root,
    /// It also made the files 5 and 6 of one block each, and holds file 5, in rows 1 and 2.
    TwoFiles,
}

/// What is due to a ticket.
#[derive(Clone, Copy)]
enum Due {
    /// A Yes in this row, which needs so many blocks and wasn't judged again.
    Yes(u32, u64),
    /// A Yes in this row, without a block, that was judged again.
    YesAgain(u32),
    /// A No in this row: no lease on the root is held.
    NoLease(u32),
    /// It is left.
    Left,
}

/// A script, and what comes of it.
#[derive(Clone, Copy)]
struct Script {
    /// How many rows the docket takes.
    limit: u32,
    start: Start,
    /// What is handed in under each ticket: a log of client 7 with its plan.
    handed_in: (&'static [u8], &'static [u8]),
    steps: &'static [Does],
    /// What is due to each ticket.
    due: &'static [Due],
    /// How many rows the docket has then.
    rows: u32,
    /// What the image shows then.
    shown: &'static [Shown<'static>],
    blocks: &'static [Block<'static>],
}

const CREATE: (&[u8], &[u8]) = (CREATE_LOG, CREATE_PLAN);

const ROOT_DROPPED: Does = Does::Act(Act::Drop {
    client: 7,
    number: 1,
});

const ROOT_LEASED_AGAIN: Does = Does::Act(Act::Lease {
    client: 7,
    path: b"/",
    kind: LeaseKind::Write,
    end: 100,
});

const ROOT_LEASED_BY_NUMBER: Does = Does::Act(Act::LeaseAt {
    client: 7,
    number: 1,
    kind: LeaseKind::Write,
    end: 100,
});

/// The submission is landed by its worker, and by no other one.
const BY_ITS_WORKER: Script = Script {
    limit: 100,
    start: Start::Root,
    handed_in: CREATE,
    steps: &[Land(0), Look(0, 0), Look(1, 0), Land(0), Judge(0), Land(0)],
    due: &[Due::Yes(1, 0)],
    rows: 2,
    shown: &FILE,
    blocks: &[],
};

/// Steps out of their place change nothing.
const OUT_OF_PLACE: Script = Script {
    limit: 100,
    start: Start::Root,
    handed_in: CREATE,
    steps: &[
        Look(8, 0),
        Look(0, 2),
        Judge(0),
        Look(0, 0),
        Look(0, 1),
        Judge(0),
        Judge(0),
        Land(1),
        Land(8),
        Land(0),
        Land(0),
        Look(7, 0),
        Judge(7),
        Land(7),
    ],
    due: &[Due::Yes(1, 0), Due::Left],
    rows: 2,
    shown: &FILE,
    blocks: &[],
};

/// A full docket leaves the submission.
const FULL: Script = Script {
    limit: 1,
    start: Start::Root,
    handed_in: CREATE,
    steps: &[Look(0, 0), Judge(0), Land(0), Look(1, 0), Judge(1), Land(1)],
    due: &[Due::Left],
    rows: 1,
    shown: &NO_FILE,
    blocks: &[],
};

/// Calls are made in their place.
const BETWEEN_CALLS: Script = Script {
    limit: 100,
    start: Start::Root,
    handed_in: CREATE,
    steps: &[
        ROOT_DROPPED,
        Look(0, 0),
        Judge(0),
        Land(0),
        ROOT_LEASED_AGAIN,
        Look(1, 1),
        Judge(1),
        Land(1),
    ],
    due: &[Due::NoLease(2), Due::Yes(4, 0)],
    rows: 5,
    shown: &FILE,
    blocks: &[],
};

/// What is judged without a lease is judged again after a lease by number.
const BEFORE_A_LEASE: Script = Script {
    limit: 100,
    start: Start::Root,
    handed_in: CREATE,
    steps: &[
        ROOT_DROPPED,
        Look(0, 0),
        Judge(0),
        ROOT_LEASED_BY_NUMBER,
        Land(0),
    ],
    due: &[Due::YesAgain(3)],
    rows: 4,
    shown: &FILE,
    blocks: &[],
};

/// Client 7 creates file 5 at `/a` with the bytes `one`, and file 6 at `/b` with the bytes `two`.
const FILES_LOG: &[u8] = b"KLOG\x01\0\0\0\x07\0\x04\
    \x01\0\0\0\x01\x01a\0\0\0\x05\0\x01\xa4\
    \x02\0\0\0\x05\0\0\0\0\0\0\0\0\0\0\0\x03one\
    \x01\0\0\0\x01\x01b\0\0\0\x06\0\x01\xa4\
    \x02\0\0\0\x06\0\0\0\0\0\0\0\0\0\0\0\x03two";

/// Both names, both headers, and a piece of each file.
const FILES_PLAN: &[u8] = b"KPLN\x01\0\x02\0\x02\0\0\0\x02\
    \0\0\0\x01\x01a\0\0\0\x05\
    \0\0\0\x01\x01b\0\0\0\x06\
    \0\0\0\x05\x01\x01\xa4\0\0\x03\xe8\0\0\x03\xe8\0\x01\0\0\0\0\0\0\0\x03\
    \0\0\0\x06\x01\x01\xa4\0\0\x03\xe8\0\0\x03\xe8\0\x01\0\0\0\0\0\0\0\x03\
    \0\0\0\x05\0\0\0\0\0\0\0\0\0\0\0\0\0\0\0\x03\x01\0\x01\0\0\0\0\
    \0\0\0\x06\0\0\0\0\0\0\0\0\0\0\0\0\0\0\0\x03\x01\0\x03\0\0\0\0";

/// Client 7 writes `ONE` over the bytes of file 5.
const WRITE_LOG: &[u8] = b"KLOG\x01\0\0\0\x07\0\x01\
    \x02\0\0\0\x05\0\0\0\0\0\0\0\0\0\0\0\x03ONE";

/// One piece.
const WRITE_PLAN: &[u8] = b"KPLN\x01\0\0\0\0\0\0\0\x01\
    \0\0\0\x05\0\0\0\0\0\0\0\0\0\0\0\0\0\0\0\x03\x01\0\0\0\0\0\0";

const FILES_CREATED: Call<'static> = Call::Submit(
    FILES_LOG,
    FILES_PLAN,
    Ok(Reply::Yes {
        position: 1,
        rejudged: false,
        need: 2,
    }),
);

/// Block 0 of the file goes to this place.
fn to(number: u32, tier: u8, place: u32) -> Move {
    Move {
        number,
        block: 0,
        tier,
        place,
    }
}

/// Two workers look and judge before the moves; the first one lands after them, and the second one
/// after it. Both are landed as they were judged.
const BETWEEN_MOVES: Script = Script {
    limit: 100,
    start: Start::TwoFiles,
    handed_in: (WRITE_LOG, WRITE_PLAN),
    steps: &[
        Look(0, 0),
        Look(1, 1),
        Judge(0),
        Does::MoveBoth,
        Judge(1),
        Land(0),
        Does::MoveTwice,
        Land(1),
    ],
    due: &[Due::Yes(4, 1), Due::Yes(6, 1)],
    rows: 7,
    shown: &[],
    blocks: &[(5, None, b"ONE"), (6, Some((1, 0)), b"two")],
};

/// The moves have the docket's last row, and the landing none.
const MOVES_THAT_FILL: Script = Script {
    limit: 4,
    start: Start::TwoFiles,
    handed_in: (WRITE_LOG, WRITE_PLAN),
    steps: &[
        Look(0, 0),
        Judge(0),
        Does::MoveBoth,
        Land(0),
        Does::MoveTwice,
    ],
    due: &[Due::Left],
    rows: 4,
    shown: &[],
    blocks: &[(5, Some((2, 3)), b"one"), (6, Some((1, 0)), b"two")],
};

/// A script that looks, judges and lands, twice, so that a submission that came back the first time is tried again.
/// Another worker holds a view to the end, and the moment goes on meanwhile.
const TRIED_AGAIN: Script = Script {
    limit: 100,
    start: Start::Root,
    handed_in: CREATE,
    steps: &[
        Look(7, 1),
        Look(0, 0),
        Does::Act(Act::Tick { moment: 1 }),
        Judge(0),
        Land(0),
        Look(1, 0),
        Judge(1),
        Land(1),
    ],
    due: &[Due::Yes(2, 0), Due::Left],
    rows: 3,
    shown: &FILE,
    blocks: &[],
};

static SCRIPTS: [Script; 8] = [
    BY_ITS_WORKER,
    OUT_OF_PLACE,
    FULL,
    BETWEEN_CALLS,
    BEFORE_A_LEASE,
    BETWEEN_MOVES,
    MOVES_THAT_FILL,
    TRIED_AGAIN,
];

/// The step, with the moves of both blocks and those of one.
fn step_of<'a>(does: Does, both: &'a [Move], twice: &'a [Move]) -> Step<'a> {
    match does {
        Does::Look(worker, ticket) => Step::Look { worker, ticket },
        Does::Judge(worker) => Step::Judge { worker },
        Does::Land(worker) => Step::Land { worker },
        Does::Act(act) => Step::Act(act),
        Does::MoveBoth => Step::Migrate { moves: both },
        Does::MoveTwice => Step::Migrate { moves: twice },
    }
}

/// Appends the script's steps. Whether there was memory.
// (apart from the list's owner, so that no way out of the loop drops a list)
fn push_steps<'a, A: Allocator + Copy>(
    all: &mut Vec<Step<'a>, A>,
    script: &Script,
    both: &'a [Move],
    twice: &'a [Move],
) -> Option<()> {
    for step in script.steps {
        all.push(step_of(*step, both, twice)).ok()?;
    }
    Some(())
}

fn steps<'a, A: Allocator + Copy>(
    alloc: A,
    script: &Script,
    both: &'a [Move],
    twice: &'a [Move],
) -> Option<Vec<Step<'a>, A>> {
    let mut all = Vec::new(alloc);
    push_steps(&mut all, script, both, twice)?;
    Some(all)
}

/// The desk at which it begins.
fn desk_of<A: Allocator + Copy>(alloc: A, script: &Script) -> Option<Desk<A>> {
    match script.start {
        Start::Root => desk_after(alloc, script.limit, &[ROOT_LEASED]),
        Start::TwoFiles => {
            let calls = [ROOT_LEASED, FILES_CREATED, FILE_LEASED];
            desk_after(alloc, script.limit, &calls)
        }
    }
}

/// What is handed in.
fn submission<A: Allocator + Copy>(alloc: A, script: &Script) -> Option<Submission<A>> {
    let (log, plan) = script.handed_in;
    Some(Submission {
        client: 7,
        log: Vec::from_slice(alloc, log).ok()?,
        plan: Vec::from_slice(alloc, plan).ok()?,
    })
}

/// Appends the same for each ticket. Whether there was memory.
fn push_submissions<A: Allocator + Copy>(
    all: &mut Vec<Submission<A>, A>,
    alloc: A,
    script: &Script,
) -> Option<()> {
    for _ in 0..script.due.len() {
        let one = submission(alloc, script)?;
        all.push(one).ok()?;
    }
    Some(())
}

/// What is handed in under all tickets.
fn submissions<A: Allocator + Copy>(alloc: A, script: &Script) -> Option<Vec<Submission<A>, A>> {
    let mut all = Vec::new(alloc);
    push_submissions(&mut all, alloc, script)?;
    Some(all)
}

/// Whether it is as it was handed in.
fn is_handed_in<A: Allocator>(submission: &Submission<A>, script: &Script) -> bool {
    let (log, plan) = script.handed_in;
    submission.client == 7 && submission.log.as_slice() == log && submission.plan.as_slice() == plan
}

/// The reply that is due.
fn reply_of(due: Due) -> Option<Reply> {
    Some(match due {
        Due::Yes(position, need) => Reply::Yes {
            position,
            rejudged: false,
            need,
        },
        Due::YesAgain(position) => Reply::Yes {
            position,
            rejudged: true,
            need: 0,
        },
        Due::NoLease(position) => Reply::No {
            position,
            rejudged: false,
            fault: Fault::Entry(EntryFault {
                index: 0,
                reason: Reason::NoLease(1),
            }),
        },
        Due::Left => return None,
    })
}

/// Whether a ticket has the reply that is due, or is left if none is.
fn is_settled<A: Allocator>(
    reply: Option<Reply>,
    left: &Option<Submission<A>>,
    script: &Script,
    due: Due,
) -> bool {
    let is_right = match left {
        Some(submission) => reply.is_none() && is_handed_in(submission, script),
        None => reply.is_some(),
    };
    is_right && reply == reply_of(due)
}

/// Whether this is due to each ticket.
fn are_settled<A: Allocator>(end: &ScriptEnd<A>, script: &Script, due: &[Due]) -> bool {
    for (number, due) in due.iter().enumerate() {
        let is_right = match (end.replies.get(number), end.left.get(number)) {
            (Some(reply), Some(left)) => is_settled(*reply, left, script, *due),
            _ => false,
        };
        if !is_right {
            return false;
        }
    }
    end.replies.len() == due.len() && end.left.len() == due.len()
}

/// Whether the script has come to what is due.
fn is_due<A: Allocator + Copy>(end: &ScriptEnd<A>, script: &Script) -> bool {
    are_settled(end, script, script.due)
        && end.desk.docket().len() == script.rows
        && shows(end.desk.image().shape(), script.shown)
        && has_blocks(end.desk.image(), script.blocks)
}

/// Whether these steps come to what is due.
fn gives(alloc: Global, script: &Script, steps: &[Step<'_>]) -> Option<bool> {
    let handed_in = submissions(alloc, script)?;
    let desk = desk_of(alloc, script)?;
    match run_script(alloc, desk, handed_in, steps) {
        Ok(end) => Some(is_due(&end, script)),
        Err(_) => None,
    }
}

/// Whether the script comes to what is due.
fn is_given(alloc: Global, script: &Script) -> bool {
    let both = [to(5, 2, 3), to(6, 1, 0)];
    let twice = [to(5, 0, 3), to(5, 0, 4)];
    match steps(alloc, script, &both, &twice) {
        Some(steps) => gives(alloc, script, &steps) == Some(true),
        None => false,
    }
}

#[test]
fn scripts_of_workers(rt: HostRuntime) {
    for (number, script) in SCRIPTS.iter().enumerate() {
        assert!(rt; is_given(rt.alloc(), script), "{number}");
    }
}

// ---- with an allocation failing

/// Whether the first ticket has a Yes in row 1 or 2 and the file is there, or else is left and there is none.
fn is_lawful<A: Allocator + Copy>(end: &ScriptEnd<A>, script: &Script) -> bool {
    let shape = end.desk.image().shape();
    if are_settled(end, script, &[Due::Left, Due::Left]) {
        return shows(shape, &NO_FILE);
    }
    let is_landed = are_settled(end, script, &[Due::Yes(1, 0), Due::Left])
        || are_settled(end, script, &[Due::Yes(2, 0), Due::Left]);
    is_landed && shows(shape, &FILE)
}

/// Whether all came back as it was handed in.
fn is_back<A: Allocator + Copy>(back: &ScriptBack<A>, script: &Script) -> bool {
    match back.submissions.as_slice() {
        [first, second] => {
            is_handed_in(first, script)
                && is_handed_in(second, script)
                && shows(back.desk.image().shape(), &NO_FILE)
        }
        _ => false,
    }
}

/// Whether the script comes to what may be.
fn is_run<A: Allocator + Copy>(
    alloc: A,
    desk: Desk<A>,
    handed_in: Vec<Submission<A>, A>,
    steps: &[Step<'_>],
    script: &Script,
) -> bool {
    match run_script(alloc, desk, handed_in, steps) {
        Ok(end) => is_lawful(&end, script),
        Err(back) => is_back(&back, script),
    }
}

/// Runs the script with only the allocation of this index failing. Answers whether there was such an allocation;
/// none where the outcome is wrong.
fn run_with_one_refused<A: Allocator + Copy>(
    alloc: A,
    heap: &Refusing<Global>,
    script: &Script,
    growth: u64,
) -> Option<bool> {
    let steps = steps(alloc, script, &[], &[])?;
    let handed_in = submissions(alloc, script)?;
    let desk = desk_of(alloc, script)?;
    heap.refuse_after(growth);
    let is_right = is_run(alloc, desk, handed_in, &steps, script);
    is_right.then_some(heap.has_refused())
}

/// The same of the script that tries again.
pub fn script_with_one_refused<A: Allocator + Copy>(
    alloc: A,
    heap: &Refusing<Global>,
    growth: u64,
) -> Option<bool> {
    run_with_one_refused(alloc, heap, &TRIED_AGAIN, growth)
}
