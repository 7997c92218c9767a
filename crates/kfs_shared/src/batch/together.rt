//! Which submissions a worker answers together, and how: it judges them against one view, and lands
//! their verdicts in one turn.
ghost use Rattle.std.specs.Prelude.{◌≡◌, ◌≢◌, IfErr};
ghost use Rattle.kfs_shared.specs.Turns.Lists.{StartsWith};
ghost use Rattle.kfs_shared.specs.Passes.{IsPassOf, seen, own};
ghost use Rattle.kfs_shared.specs.Batch.Jobs.{FromOn, IsJobJudged};

use crate::batch::job::{Gate, Hand, Job};
use crate::crew::Task;
use crate::{Pass, Shared, SharedWant};
use kfs_desk::Desk;
use kfs_judge::View;
use std::alloc::Allocator;
use std::sync::Wait;

/// The most submissions that are answered together.
const MOST_TOGETHER: usize = 16;

/// The most bytes of the logs and plans that are answered together.
const MOST_BYTES: usize = 65_536;

/// The views that a worker keeps from one turn to the next.
#[derive(Drop)]
pub struct WorkerViews<A: Allocator> {
    /// Of the state to which its last turn led: it judges against that.
    now: Option<View<A>>,
    /// Of the state that its last turn found. It keeps the parts that the worker's own landings have
    /// replaced, until the other workers have views of later states. So their memory goes back to the
    /// allocator in the thread that had taken it, with no turn held.
    replaced: Option<View<A>>,
}

/// The client of a submission that waits.
fn client_of<A: Allocator, G>(job: &Job<'_, A, G>) -> Option<u32> {
    match &job.hand {
        Hand::Waiting(submission) => Some(submission.client),
        Hand::Taken | Hand::Judged(_) | Hand::Replied(_) | Hand::Back(_) => None,
    }
}

/// The bytes of the log and the plan of a submission that waits.
fn bytes_of<A: Allocator, G>(job: &Job<'_, A, G>) -> usize {
    match &job.hand {
        Hand::Waiting(submission) => submission.log.len().saturating_add(submission.plan.len()),
        Hand::Taken | Hand::Judged(_) | Hand::Replied(_) | Hand::Back(_) => 0,
    }
}

/// Whether logs and plans are short.
fn are_short<A: Allocator, G>(jobs: &[Job<'_, A, G>]) -> bool {
    let mut bytes: usize = 0;
    for job in jobs {
        bytes = bytes.saturating_add(bytes_of(job));
    }
    bytes <= MOST_BYTES
}

/// Whether one of them is this client's.
fn has_client<A: Allocator, G>(jobs: &[Job<'_, A, G>], client: Option<u32>) -> bool {
    for job in jobs {
        if client_of(job) == client {
            return true;
        }
    }
    false
}

/// Whether no two are of one client. A client's logs build on each other, so the second would be judged
/// twice.
fn are_of_clients<A: Allocator, G>(jobs: &[Job<'_, A, G>]) -> bool {
    match jobs.split_first() {
        Some((job, later)) => !has_client(later, client_of(job)) && are_of_clients(later),
        None => true,
    }
}

/// Judges the submissions from this number on, in their order.
fn judge_from<A: Allocator + Copy, G: Gate>(
    view: &Result<View<A>, SharedWant>,
    jobs: &mut [Job<'_, A, G>],
    from: usize,
)
    requires { IfErr view.now (λ why. why ≢ SharedWant.DocketFull) }
    ensures { FromOn (λ v w. IsJobJudged v.number v.hand w.number w.hand) from jobs.old jobs.new }
{
    if from >= jobs.len() {
        return;
    }
    jobs[from].judge(view);
    judge_from(view, jobs, from + 1);
}

/// The view that was kept, or else a new one.
fn view_of<A: Allocator + Copy, R: Wait>(
    rt: &R,
    shared: &Shared<Desk<A>, A>,
    pass: &mut Pass<Desk<A>>,
    kept: Option<View<A>>,
) -> Result<View<A>, SharedWant>
    requires { IsPassOf shared.now pass.old }
    ensures pass { IsPassOf shared.now pass.new }
    ensures begins { StartsWith (seen pass.new) (seen pass.old) }
    ensures own { own pass.new ≡ own pass.old }
    ensures not_full { IfErr result (λ why. why ≢ SharedWant.DocketFull) }
{
    match kept {
        Some(view) => Ok(view),
        None => shared.view(rt, pass),
    }
}

impl<'g, A: Allocator + Copy, G: Gate> Task<Desk<A>, A> for Job<'g, A, G> {
    ghost use Rattle.kfs_shared.specs.Batch.Jobs.{IsJobDone, positions_of};

    ghost positions = { λ job. positions_of job.hand };

    ghost done = { λ beginning docket before after. IsJobDone beginning docket before.number before.hand after.number after.hand };

    type Kept = WorkerViews<A>;

    fn nothing() -> WorkerViews<A> {
        WorkerViews {
            now: None,
            replaced: None,
        }
    }

    fn let_go(_kept: WorkerViews<A>) {}

    fn go_together(tasks: &[Job<'g, A, G>]) -> bool {
        tasks.len() <= MOST_TOGETHER && are_short(tasks) && are_of_clients(tasks)
    }

    fn work<R: Wait>(
        rt: &R,
        shared: &Shared<Desk<A>, A>,
        pass: &mut Pass<Desk<A>>,
        kept: WorkerViews<A>,
        tasks: &mut [Job<'g, A, G>],
    ) -> WorkerViews<A> {
        let WorkerViews { now, replaced } = kept;
        let view = view_of(rt, shared, pass, now);
        judge_from(&view, tasks, 0);
        // A view that is dropped shares nothing with the desk, which then copies less.
        drop(view);
        let mut replaced = replaced;
        let landed = shared.land_each_keeping(rt, pass, tasks, &mut replaced);
        WorkerViews {
            now: landed.ok(),
            replaced,
        }
    }
}
