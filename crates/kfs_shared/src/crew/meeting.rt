//! Workers whose passes meet.
ghost use Rattle.std.specs.Prelude.{◌≡◌, [], ◌++◌, All, map, drop};
ghost use Rattle.std.specs.List.{concat};
ghost use Rattle.kfs_shared.specs.Turns.Lists.{StartsWith, AreDistinct};
ghost use Rattle.kfs_shared.specs.Passes.{IsPassOf, started, seen, own};
ghost use Rattle.kfs_shared.specs.Crew.Crew.{Achieved};

use crate::crew::duty::Duty;
use crate::crew::team::work_together;
use crate::crew::worker::Worker;
use crate::{Docketed, Pass, Shared};
use std::alloc::Allocator;
use std::mem;
use std::sync::Wait;
use std::thread::Threads;

/// The worker's pass meets the first one, and the worker has a new one.
fn meet_one<D: Docketed, A: Allocator, T>(
    shared: &Shared<D, A>,
    pass: Pass<D>,
    worker: &mut Worker<D, T>,
) -> Pass<D>
    requires { IsPassOf shared.now pass × IsPassOf shared.now worker.old.pass }
    ensures pass { IsPassOf shared.now result × StartsWith (seen result) (seen pass) }
    ensures seen { StartsWith (seen result) (seen worker.old.pass) }
    ensures own { own result ≡ own pass ++ own worker.old.pass }
    ensures worker { IsPassOf shared.now worker.new.pass }
    ensures duty { worker.new.duty ≡ worker.old.duty }
{
    let (mut first, second) = shared.split(pass);
    let other = mem::replace(&mut worker.pass, second);
    shared.meet(&mut first, other);
    first
}

/// The passes of the workers from this number on meet the first one.
fn meet_from<D: Docketed, A: Allocator, T>(
    shared: &Shared<D, A>,
    pass: Pass<D>,
    workers: &mut [Worker<D, T>],
    from: usize,
) -> Pass<D>
    requires pass { IsPassOf shared.now pass }
    requires workers { All (λ w. IsPassOf shared.now w.pass) workers.old }
    ensures pass { IsPassOf shared.now result }
    ensures begins { StartsWith (seen result) (seen pass) }
    ensures seen { All (λ w. StartsWith (seen result) (seen w.pass)) (drop from workers.old) }
    ensures own { own result ≡ own pass ++ concat (map (λ w. own w.pass) (drop from workers.old)) }
    ensures duties { map (λ w. w.duty) workers.new ≡ map (λ w. w.duty) workers.old }
{
    if from >= workers.len() {
        return pass;
    }
    let met = meet_one(shared, pass, &mut workers[from]);
    meet_from(shared, met, workers, from + 1)
}

/// All workers work, each in a thread of its own where one can be had. Then their passes meet the first
/// one.
pub fn work_and_meet<
    D: Docketed + Send,
    A: Allocator + Send + Sync,
    T: Duty<D, A> + Send,
    R: Threads + Wait + Sync,
>(rt: &R, shared: &Shared<D, A>, pass: Pass<D>, workers: &mut [Worker<D, T>]) -> Pass<D>
    requires pass { IsPassOf shared.now pass × (own pass ≡ []) }
    requires workers { All (λ w. IsPassOf shared.now w.pass × (own w.pass ≡ []) × (seen w.pass ≡ seen pass)) workers.old }
    ensures pass { IsPassOf shared.now result }
    ensures seen { StartsWith (seen result) (seen pass) × D.legal (started D.opening shared.now) (seen result) }
    ensures once { AreDistinct (own result) }
    ensures achieved { Achieved (T.worked (started D.opening shared.now)) (seen pass) (seen result) (own result) (map (λ w. w.duty) workers.old) (map (λ w. w.duty) workers.new) }
{
    work_together(rt, shared, workers);
    let met = meet_from(shared, pass, workers, 0);
    let (mut first, second) = shared.split(met);
    shared.meet(&mut first, second);
    first
}
