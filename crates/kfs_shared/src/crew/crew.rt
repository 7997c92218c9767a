//! A crew: workers that share tasks.
ghost use Rattle.std.specs.Prelude.{◌≡◌, ◌/◌, ◌^◌, ◌<◌, ◌≤◌, List, [], length, map, reverse, replicate, All, IfOk, vec_capacity};
ghost use Rattle.kfs_shared.specs.Crew.Shares.{dealt};
ghost use Rattle.kfs_shared.specs.Turns.Lists.{StartsWith};
ghost use Rattle.kfs_shared.specs.Passes.{IsPassOf, started, seen, own};
ghost use Rattle.kfs_shared.specs.Crew.Tasks.{AreDoneBy, HaveDoneDealt};

use crate::crew::deal::{deal, gather};
use crate::crew::meeting::work_and_meet;
use crate::crew::task::Task;
use crate::crew::worker::Worker;
use crate::{Docketed, Pass, Shared};
use std::alloc::{AllocError, Allocator};
use std::sync::Wait;
use std::thread::Threads;

/// The memory for workers and their shares of tasks.
#[derive(Drop)]
pub struct Crew<D: Docketed, T, A: Allocator> {
    shares: Vec<Vec<T, A>, A>,
    workers: Vec<Worker<D, Vec<T, A>>, A>,
}

/// So many empty shares, each with room for so many tasks.
fn empty_shares<T: Drop, A: Allocator + Copy>(
    alloc: A,
    count: usize,
    room: usize,
) -> Result<Vec<Vec<T, A>, A>, AllocError>
    ensures empty { IfOk result (λ shares. map (λ share. share.items) shares.items ≡ replicate count []) }
    ensures room { IfOk result (λ shares. All (λ share. room ≤ vec_capacity share) shares.items) }
{
    let mut shares = Vec::with_capacity(alloc, count)?;
    for _ in 0..count {
        shares.push(Vec::with_capacity(alloc, room)?)?;
    }
    Ok(shares)
}

/// A worker for each share, with a pass of its own.
fn hire<D: Docketed, T: Drop, A: Allocator>(
    shared: &Shared<D, A>,
    pass: Pass<D>,
    shares: Vec<T, A>,
    workers: &mut Vec<Worker<D, T>, A>,
) -> Pass<D>
    requires pass { IsPassOf shared.now pass }
    requires room { (workers.old.items ≡ []) × (length shares.items ≤ vec_capacity workers.old) }
    ensures pass { IsPassOf shared.now result × (seen result ≡ seen pass) × (own result ≡ own pass) }
    ensures shares { map (λ w. w.duty) workers.new.items ≡ shares.items }
    ensures workers { All (λ w. IsPassOf shared.now w.pass × (own w.pass ≡ []) × (seen w.pass ≡ seen pass)) workers.new.items }
{
    let mut first = pass;
    for duty in shares {
        let (kept, pass) = shared.split(first);
        first = kept;
        workers.push_reserved(Worker { pass, duty });
    }
    first
}

impl<D: Docketed, T: Drop, A: Allocator + Copy> Crew<D, T, A> {
    /// Takes the memory for so many workers, who share so many tasks.
    pub fn new(alloc: A, workers: usize, tasks: usize) -> Result<Crew<D, T, A>, AllocError>
        requires some { 0 < workers }
        requires few { tasks < 2 ^ 32 }
        ensures shares { IfOk result (λ crew. map (λ share. share.items) crew.shares.items ≡ replicate workers []) }
        ensures room { IfOk result (λ crew. All (λ share. tasks / workers < vec_capacity share) crew.shares.items) }
        ensures workers { IfOk result (λ crew. (crew.workers.items ≡ []) × (workers ≤ vec_capacity crew.workers)) }
    {
        let shares = empty_shares(alloc, workers, tasks / workers + 1)?;
        let workers = Vec::with_capacity(alloc, workers)?;
        Ok(Crew { shares, workers })
    }

    /// Gives the memory back.
    pub fn dismiss(self) {
        let Crew {
            shares: _,
            workers: _,
        } = self;
    }
}

/// The workers do what they were dealt, and their passes meet the one that is given, which comes back. Then
/// the tasks are taken back; there are so many.
fn work_dealt<
    D: Docketed + Send,
    T: Task<D, A> + Drop + Send,
    A: Allocator + Send + Sync,
    R: Threads + Wait + Sync,
>(
    rt: &R,
    shared: &Shared<D, A>,
    pass: Pass<D>,
    workers: &mut [Worker<D, Vec<T, A>>],
    tasks: &mut Vec<T, A>,
    count: usize,
) -> Pass<D>
    requires pass { IsPassOf shared.now pass × (own pass ≡ []) }
    requires workers { All (λ w. IsPassOf shared.now w.pass × (own w.pass ≡ []) × (seen w.pass ≡ seen pass)) workers.old }
    requires some { 0 < length workers.old }
    requires dealt { (all : List _) × (map (λ w. w.duty.items) workers.old ≡ dealt (length workers.old) all) × (length all ≡ count) }
    requires room { (tasks.old.items ≡ []) × (count ≤ vec_capacity tasks.old) }
    ensures pass { IsPassOf shared.now result }
    ensures seen { StartsWith (seen result) (seen pass) × D.legal (started D.opening shared.now) (seen result) }
    ensures done { HaveDoneDealt (T.done (started D.opening shared.now)) T.positions (length workers.old) count (map (λ w. w.duty.items) workers.old) (seen pass) (seen result) tasks.new.items }
{
    let met = work_and_meet(rt, shared, pass, workers);
    gather(workers, tasks, count);
    met
}

impl<D: Docketed + Send, T: Drop + Send, A: Allocator + Copy + Send + Sync> Crew<D, T, A> {
    /// The workers do all tasks, each in a thread of its own where one can be had. A task goes to the
    /// worker with its number modulo the count of workers, who does them in their order. Then the passes
    /// of all meet the one that is given, which comes back. Takes no memory.
    pub fn work<R: Threads + Wait + Sync>(
        self,
        rt: &R,
        shared: &Shared<D, A>,
        pass: Pass<D>,
        tasks: &mut Vec<T, A>,
    ) -> Pass<D>
    where
        T: Task<D, A>,
        requires pass { IsPassOf shared.now pass × (own pass ≡ []) }
        requires shares { (0 < length self.shares.items) × (map (λ share. share.items) self.shares.items ≡ replicate (length self.shares.items) []) }
        requires room { All (λ share. length tasks.old.items / length self.shares.items < vec_capacity share) self.shares.items }
        requires workers { (self.workers.items ≡ []) × (length self.shares.items ≤ vec_capacity self.workers) }
        ensures pass { IsPassOf shared.now result }
        ensures seen { StartsWith (seen result) (seen pass) × D.legal (started D.opening shared.now) (seen result) }
        ensures done { AreDoneBy (T.done (started D.opening shared.now)) T.positions (length self.shares.items) (seen pass) (seen result) tasks.old.items tasks.new.items }
    {
        let Crew { shares, workers } = self;
        let mut shares = shares;
        let mut workers = workers;
        let count = tasks.len();
        tasks.reverse();
        deal(tasks, shares.as_mut_slice());
        let first = hire(shared, pass, shares, &mut workers);
        let met = work_dealt(rt, shared, first, workers.as_mut_slice(), tasks, count);
        tasks.reverse();
        met
    }
}
