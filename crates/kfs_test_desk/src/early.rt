//! Submissions judged before the calls in front of them are made. Each is answered as one that is judged at its turn.

use crate::desks::begun;
use kfs_call_desk::{Called, call, call_judged};
use kfs_desk::{ActReply, Desk, Done, Reply};
use kfs_judge::{EntryFault, Reason};
use kfs_plan::{Fault, Judged, Submission, judge};
use kfs_test_support::vectors::{CREATE_LOG, CREATE_PLAN, LETTERS_LOG, LETTERS_PLAN};
use std::alloc::Global;

/// A call of client 7.
#[derive(Clone, Copy)]
enum Step {
    /// A log and a plan are handed in.
    Submit(&'static [u8], &'static [u8]),
    /// Another call, as bytes.
    Other(&'static [u8]),
}

/// Calls, and what they are answered one after another.
#[derive(Clone, Copy)]
struct Group {
    steps: &'static [Step],
    due: &'static [Due],
}

/// Which verdict a submission is made with.
#[derive(Clone, Copy, PartialEq)]
enum Verdicts {
    /// None: it is judged at its turn.
    Missing,
    /// Its own, from before the first call.
    Own,
    /// That on the call in front of it.
    Another,
}

/// File 5, named "a", is created in the root.
const CREATE: Step = Step::Submit(CREATE_LOG, CREATE_PLAN);

/// Ten letters are written to file 5.
const WRITE: Step = Step::Submit(LETTERS_LOG, LETTERS_PLAN);

/// A write lease on the root is asked for, and given up; and one on file 5 is asked for.
const LEASE_ROOT: Step = Step::Other(b"\x06\0\0\0\x07\x01\0\0\0\0\0\0\0\x64\0\0\0\x01");

const DROP_ROOT: Step = Step::Other(b"\x03\0\0\0\x07\0\0\0\x01");

const LEASE_FILE: Step = Step::Other(b"\x06\0\0\0\x07\x01\0\0\0\0\0\0\0\x64\0\0\0\x05");

/// What a call is answered, at a row of the docket.
#[derive(Clone, Copy)]
enum Due {
    /// A log lands, and writes so many blocks.
    Yes(u32, u64),
    /// The log's first entry is refused.
    No(u32, Reason),
    /// Another call is done.
    Did(u32, Done),
}

/// The same as the desk says it.
fn called(due: Due) -> Called {
    match due {
        Due::Yes(position, need) => Called::Submitted(Reply::Yes {
            position,
            rejudged: false,
            need,
        }),
        Due::No(position, reason) => Called::Submitted(Reply::No {
            position,
            rejudged: false,
            fault: Fault::Entry(EntryFault { index: 0, reason }),
        }),
        Due::Did(position, done) => Called::Acted(ActReply {
            position,
            answer: Ok(done),
        }),
    }
}

/// Groups behind the call `LEASE_ROOT`, which is row 0.
const GROUPS: [Group; 3] = [
    // Both verdicts are a Yes. The second log finds the name taken.
    Group {
        steps: &[CREATE, CREATE],
        due: &[Due::Yes(1, 0), Due::No(2, Reason::NameTaken)],
    },
    // The verdict on the Write finds no file.
    Group {
        steps: &[CREATE, LEASE_FILE, WRITE],
        due: &[Due::Yes(1, 0), Due::Did(2, Done::Leased(5)), Due::Yes(3, 1)],
    },
    // The verdict is a Yes. At its turn the client has no lease.
    Group {
        steps: &[DROP_ROOT, CREATE],
        due: &[
            Due::Did(1, Done::Dropped(1)),
            Due::No(2, Reason::NoLease(1)),
        ],
    },
];

/// The bytes of a call.
fn bytes_of(alloc: Global, step: Step) -> Option<Vec<u8>> {
    let (log, plan) = match step {
        Step::Submit(log, plan) => (log, plan),
        Step::Other(other) => return Vec::from_slice(alloc, other).ok(),
    };
    let mut bytes = vec![in alloc; 1, 0, 0, 0, 7].ok()?;
    for part in [log, plan] {
        let length = u32::try_from(part.len()).ok()?;
        bytes.extend_from_slice(&length.to_be_bytes()).ok()?;
        bytes.extend_from_slice(part).ok()?;
    }
    Some(bytes)
}

/// The verdict on a submission; none on another call.
fn verdict_on(alloc: Global, desk: &Desk<Global>, step: Step) -> Option<Judged<Global>> {
    let Step::Submit(log, plan) = step else {
        return None;
    };
    let submission = Submission {
        client: 7,
        log: Vec::from_slice(alloc, log).ok()?,
        plan: Vec::from_slice(alloc, plan).ok()?,
    };
    judge(alloc, &desk.view().ok()?, submission).ok()
}

/// The verdicts on all calls of the group, as the desk is before the first of them.
fn verdicts_on(
    alloc: Global,
    desk: &Desk<Global>,
    steps: &[Step],
) -> Option<Vec<Option<Judged<Global>>>> {
    let mut verdicts = Vec::new(alloc);
    for step in steps {
        verdicts.push(verdict_on(alloc, desk, *step)).ok()?;
    }
    Some(verdicts)
}

/// The verdict that the call at this index is made with.
fn verdict_for(
    verdicts: &[Option<Judged<Global>>],
    index: usize,
    which: Verdicts,
) -> Option<&Judged<Global>> {
    let place = match which {
        Verdicts::Missing => return None,
        Verdicts::Own => index,
        Verdicts::Another => index.checked_sub(1)?,
    };
    verdicts.get(place)?.as_ref()
}

/// Whether a call made beside this verdict is answered so.
fn is_due(
    alloc: Global,
    desk: &mut Desk<Global>,
    step: Step,
    judged: Option<&Judged<Global>>,
    due: Due,
) -> Option<bool> {
    let bytes = bytes_of(alloc, step)?;
    Some(call_judged(alloc, desk, &bytes, judged) == Ok(called(due)))
}

/// A desk behind the call `LEASE_ROOT`, if that is answered as is due.
fn leased(alloc: Global) -> Option<Desk<Global>> {
    let mut desk = begun(alloc, 100)?;
    let bytes = bytes_of(alloc, LEASE_ROOT)?;
    let is_leased = call(alloc, &mut desk, &bytes) == Ok(called(Due::Did(0, Done::Leased(1))));
    is_leased.then_some(desk)
}

/// Whether the calls of the group are answered as is due, with such verdicts.
fn are_due(alloc: Global, group: &Group, which: Verdicts) -> Option<bool> {
    let mut desk = leased(alloc)?;
    let verdicts = verdicts_on(alloc, &desk, group.steps)?;
    let mut are_right = true;
    for (index, step) in group.steps.iter().enumerate() {
        let judged = verdict_for(&verdicts, index, which);
        let due = *group.due.get(index)?;
        are_right = is_due(alloc, &mut desk, *step, judged, due)? && are_right;
    }
    Some(are_right)
}

#[test]
fn answers_are_those_without_verdicts(rt: HostRuntime) {
    for (number, group) in GROUPS.iter().enumerate() {
        for which in [Verdicts::Missing, Verdicts::Own, Verdicts::Another] {
            assert!(&rt; are_due(rt.alloc(), group, which) == Some(true), "{number}");
        }
    }
}
