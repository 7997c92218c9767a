//! Scripts: steps of eight workers, calls for leases, and moves of blocks, in one order.
ghost use Rattle.std.specs.Prelude.{◌≡◌, IfErr, IfOk, map, option_map};
ghost use Rattle.kfs_desk.specs.History.Legal.{IsLegalDocket};
ghost use Rattle.kfs_plan.specs.Judging.{submission_of};
ghost use Rattle.kfs_desk.specs.Machine.{};
ghost use Rattle.kfs_workers.specs.Claims.{AreSettled, EachReply, ElseChangesNothing, GoesOnFrom, HasAllowedEntries, ShowsItsEntries};
ghost use Rattle.kfs_workers.specs.Script.{IsRun, DoesSteps};

use crate::script_state::ScriptState;
use kfs_desk::Desk;
use kfs_desk::history::answers::Reply;
use kfs_lease::Act;
use kfs_plan::Submission;
use kfs_types::Move;
use std::alloc::Allocator;

/// One step of a script. Workers are numbered 0 to 7. A ticket is a submission's index in the list that
/// was handed in, from 0.
#[derive(Clone, Copy)]
pub enum Step<'a> {
    /// The worker takes the ticket's submission, and a view of the desk.
    Look { worker: usize, ticket: usize },
    /// The worker judges its submission against its view.
    Judge { worker: usize },
    /// The worker lands its verdict.
    Land { worker: usize },
    /// A call for the desk's leases.
    Act(Act<'a>),
    /// Blocks of files move to other places.
    Migrate { moves: &'a [Move] },
}

/// What a script leaves. Each ticket has either a reply, or its submission in `left`.
#[derive(Drop)]
pub struct ScriptEnd<A: Allocator> {
    /// The desk after the last step.
    pub desk: Desk<A>,
    /// The reply to each ticket, by ticket.
    pub replies: Vec<Option<Reply>, A>,
    /// The submissions without a reply, by ticket, as they were handed in.
    pub left: Vec<Option<Submission<A>>, A>,
}

/// The desk and the submissions of a script that made no step, because memory ran out.
#[derive(Drop)]
pub struct ScriptBack<A: Allocator> {
    /// As it was handed in.
    pub desk: Desk<A>,
    /// As they were handed in.
    pub submissions: Vec<Submission<A>, A>,
}

/// Makes the steps of a script in order.
///
/// These steps change nothing:
/// - any step of a worker over 7;
/// - a Look of a worker that holds something, or at a ticket without a submission;
/// - a Judge or a Land of a worker that holds nothing;
/// - a Judge of what is judged, and a Land of what isn't.
///
/// Where memory runs out for a step, or the docket is full, the step changes only this: a submission
/// that its worker holds goes back under its ticket. What workers hold at the end is left.
///
/// Takes memory for its lists before the first step; `Err` where that is refused, with desk and
/// submissions. Memory refused later is no error.
pub fn run_script<A: Allocator + Copy>(
    alloc: A,
    desk: Desk<A>,
    submissions: Vec<Submission<A>, A>,
    steps: &[Step<'_>],
) -> Result<ScriptEnd<A>, ScriptBack<A>>
    ensures run { IfOk result (λ end. IsRun desk (map submission_of submissions.items) steps.now end.replies.items (map (option_map submission_of) end.left.items) end.desk) }

    // The desk is the one that was handed in, with the rows of the script behind its own.
    ensures goes_on { IfOk result (λ end. GoesOnFrom desk end.desk) }
    ensures tickets { IfOk result (λ end. AreSettled end.desk (map submission_of submissions.items) end.replies.items (map (option_map submission_of) end.left.items)) }

    // After a Yes, a well formed image shows the tree that results from the log's entries in turn, from
    // the tree at the landing.
    ensures yes { IfOk result (λ end. EachReply end.desk (map submission_of submissions.items) end.replies.items ShowsItsEntries) }

    // Each of these entries is allowed at its own point of the log, by mode bits and by the leases held
    // at the landing.
    ensures allowed { IfOk result (λ end. EachReply end.desk (map submission_of submissions.items) end.replies.items HasAllowedEntries) }
    ensures otherwise { IfOk result (λ end. EachReply end.desk (map submission_of submissions.items) end.replies.items ElseChangesNothing) }
    ensures legal { IfOk result (λ end. IsLegalDocket end.desk.opening end.desk.docket end.desk.state) }
    ensures back { IfErr result (λ back. (back.desk ≡ desk) × (back.submissions ≡ submissions)) }
{
    // Tells the prover that the docket is legal at the start.
    let _docket = desk.docket();
    let mut state = ScriptState::begin(alloc, desk, submissions)?;
    make_all(&mut state, steps);
    let end = state.end();
    // So it is at the end.
    let _docket = end.desk.docket();
    Ok(end)
}

/// Makes the steps in order.
fn make_all<A: Allocator + Copy>(state: &mut ScriptState<A>, steps: &[Step<'_>])
    ensures { DoesSteps state.old steps.now state.new }
{
    for step in steps {
        state.make(step);
    }
}
