//! Adding rows to the docket. At run time a row is nothing but a count.
ghost use Rattle.std.specs.Prelude.{◌≡◌, ◌+◌, ◌<◌, ◌^◌, ◌++◌, ◌∷◌, [], length, Result};
ghost use Rattle.kfs_model.specs.Machine.{Migrate, Row};
ghost use Rattle.kfs_plan.specs.Judging.{submission_of};
ghost use Rattle.kfs_desk.specs.declared.history.answers.Done.TheVariants.{Moved};
ghost use Rattle.kfs_desk.specs.Machine.{IsCallStep, IsStep, call_of, done_by};
ghost use Rattle.kfs_desk.specs.HandedIn.{handed_in};

use crate::history::answers::{ActFault, Done, Reply};
use crate::history::{Docket, OneRow, RowRule};
use crate::state_change::ShownState;
use kfs_lease::Act;
use kfs_migrate::Move;
use kfs_plan::Submission;
use std::alloc::Allocator;

/// What a client hands in.
#[derive(Clone, Copy)]
pub struct HandedIn<'a> {
    /// The client's number.
    pub client: u32,
    /// The bytes of its log.
    pub log: &'a [u8],
    /// The bytes of its plan.
    pub plan: &'a [u8],
}

impl<'a> HandedIn<'a> {
    /// What a submission has.
    pub fn of<A: Allocator>(submission: &'a Submission<A>) -> HandedIn<'a>
        ensures { handed_in result ≡ submission_of submission.now }
    {
        HandedIn {
            client: submission.client,
            log: submission.log.as_slice(),
            plan: submission.plan.as_slice(),
        }
    }
}

/// A submission and its reply, with the states before and after it.
#[derive(Drop)]
struct Answered<'a, A: Allocator> {
    before: &'a ShownState<A>,
    submission: &'a HandedIn<'a>,
    reply: &'a Reply,
    after: &'a ShownState<A>,
}

impl<A: Allocator> RowRule for Answered<'_, A> {
    ghost is_row = { λ a row. IsStep a.before.now (handed_in a.submission.now) a.reply.now row a.after.now };
}

/// Adds the row of a submission with its reply, which leads from the state before to the state after.
pub fn add_answer<A: Allocator>(
    docket: &mut Docket,
    before: &ShownState<A>,
    submission: &HandedIn<'_>,
    reply: &Reply,
    after: &ShownState<A>,
)
    requires room { length docket.old + 1 < 2 ^ 32 }
    requires step { (row : Row) × IsStep before.now (handed_in submission.now) reply.now row after.now }
    ensures { (row : Row) × IsStep before.now (handed_in submission.now) reply.now row after.now × (docket.new ≡ docket.old ++ row ∷ []) }
{
    let row = OneRow::of(&Answered {
        before,
        submission,
        reply,
        after,
    });
    docket.push(row);
}

/// A call for leases and its answer, with the states before and after it.
#[derive(Drop)]
struct Acted<'a, A: Allocator> {
    before: &'a ShownState<A>,
    act: &'a Act<'a>,
    answer: &'a Result<Done, ActFault>,
    after: &'a ShownState<A>,
}

impl<A: Allocator> RowRule for Acted<'_, A> {
    ghost is_row = { λ a row. IsCallStep a.before.now (call_of a.act.now) (done_by a.act.now) a.answer.now row a.after.now };
}

/// Adds the row of a call for leases, which leads from the state before to the state after.
pub fn add_act<A: Allocator>(
    docket: &mut Docket,
    before: &ShownState<A>,
    act: &Act<'_>,
    answer: &Result<Done, ActFault>,
    after: &ShownState<A>,
)
    requires room { length docket.old + 1 < 2 ^ 32 }
    requires step { (row : Row) × IsCallStep before.now (call_of act.now) (done_by act.now) answer.now row after.now }
    ensures { (row : Row) × IsCallStep before.now (call_of act.now) (done_by act.now) answer.now row after.now × (docket.new ≡ docket.old ++ row ∷ []) }
{
    let row = OneRow::of(&Acted {
        before,
        act,
        answer,
        after,
    });
    docket.push(row);
}

/// Moves of blocks and their answer, with the states before and after them.
#[derive(Drop)]
struct Migrated<'a, A: Allocator> {
    before: &'a ShownState<A>,
    moves: &'a [Move],
    answer: &'a Result<Done, ActFault>,
    after: &'a ShownState<A>,
}

impl<A: Allocator> RowRule for Migrated<'_, A> {
    ghost is_row = { λ a row. IsCallStep a.before.now (Migrate a.moves.now) Moved a.answer.now row a.after.now };
}

/// Adds the row of moves, which leads from the state before to the state after.
pub fn add_moves<A: Allocator>(
    docket: &mut Docket,
    before: &ShownState<A>,
    moves: &[Move],
    answer: &Result<Done, ActFault>,
    after: &ShownState<A>,
)
    requires room { length docket.old + 1 < 2 ^ 32 }
    requires step { (row : Row) × IsCallStep before.now (Migrate moves.now) Moved answer.now row after.now }
    ensures { (row : Row) × IsCallStep before.now (Migrate moves.now) Moved answer.now row after.now × (docket.new ≡ docket.old ++ row ∷ []) }
{
    let row = OneRow::of(&Migrated {
        before,
        moves,
        answer,
        after,
    });
    docket.push(row);
}
