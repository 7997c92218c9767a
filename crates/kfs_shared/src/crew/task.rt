//! Tasks, and how one worker does those that it was dealt, some of them together.
ghost use Rattle.std.specs.Prelude.{◌≡◌, ℕ, List, []};
ghost use Rattle.kfs_shared.specs.Passes.{IsPassOf, started, seen, own};
ghost use Rattle.kfs_shared.specs.Crew.Crew.{Pairs};
ghost use Rattle.kfs_shared.specs.Crew.Tasks.{HasWorked, IsDoneIn, all_of};

use crate::crew::duty::Duty;
use crate::{Docketed, Pass, Shared};
use std::alloc::Allocator;
use std::sync::Wait;

/// What a worker does by calls of the shared object.
pub trait Task<D: Docketed, A: Allocator> {
    /// The positions of the rows that it has added, in the order of its calls.
    ghost positions: { Self → List ℕ };

    /// Of an object that was begun so and has this docket: the first was done, and is now the second.
    ghost done: { D.Opening → List D.Row → Self → Self → Type 0 };

    /// What a worker keeps of its last tasks for the next ones.
    type Kept;

    /// What it keeps before the first ones.
    fn nothing() -> Self::Kept;

    /// After the last ones.
    fn let_go(kept: Self::Kept);

    /// Whether these tasks are done together. One task alone always is.
    fn go_together(tasks: &[Self]) -> bool;

    /// Does the tasks together. Condition: the pass is one of this object.
    fn work<R: Wait>(
        rt: &R,
        shared: &Shared<D, A>,
        pass: &mut Pass<D>,
        kept: Self::Kept,
        tasks: &mut [Self],
    ) -> Self::Kept
        requires { IsPassOf shared.now pass.old }
        ensures pass { IsPassOf shared.now pass.new }
        ensures worked { HasWorked (seen pass.old) (own pass.old) (all_of positions tasks.new) (seen pass.new) (own pass.new) }
        ensures done { Pairs (IsDoneIn (done (started D.opening shared.now)) (seen pass.new)) tasks.old tasks.new };
}

/// Does the tasks in their order. It halves them until they go together. So the depth of its calls is
/// small.
#[tactic(auto, using(crate::proofs::CrewLemmas::Work::both_done))]
fn work_through<D: Docketed, A: Allocator, T: Task<D, A>, R: Wait>(
    rt: &R,
    shared: &Shared<D, A>,
    pass: &mut Pass<D>,
    kept: T::Kept,
    tasks: &mut [T],
) -> T::Kept
    requires { IsPassOf shared.now pass.old }
    ensures pass { IsPassOf shared.now pass.new }
    ensures worked { HasWorked (seen pass.old) (own pass.old) (all_of T.positions tasks.new) (seen pass.new) (own pass.new) }
    ensures done { Pairs (IsDoneIn (T.done (started D.opening shared.now)) (seen pass.new)) tasks.old tasks.new }
{
    if tasks.is_empty() {
        return kept;
    }
    if tasks.len() == 1 || T::go_together(tasks) {
        return T::work(rt, shared, pass, kept, tasks);
    }
    let half = tasks.len() / 2;
    let (earlier, later) = tasks.split_at_mut(half);
    let kept = work_through(rt, shared, pass, kept, earlier);
    work_through(rt, shared, pass, kept, later)
}

#[tactic(auto, using(crate::proofs::CrewLemmas::Work::has_done))]
impl<D: Docketed, A: Allocator, T: Task<D, A>> Duty<D, A> for Vec<T, A> {
    ghost use Rattle.kfs_shared.specs.Crew.Tasks.{HasDone};

    ghost worked = { λ opening seen seen_then own before after. HasDone (T.done opening) T.positions seen seen_then own before.items after.items };

    fn work<R: Wait>(&mut self, rt: &R, shared: &Shared<D, A>, pass: &mut Pass<D>) {
        let kept = work_through(rt, shared, pass, T::nothing(), self.as_mut_slice());
        T::let_go(kept);
    }
}
