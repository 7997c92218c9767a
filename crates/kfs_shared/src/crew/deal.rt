//! How tasks are dealt to shares, and taken back.
ghost use Rattle.std.specs.Prelude.{◌≡◌, ℕ, ◌+◌, ◌/◌, ◌%◌, ◌<◌, ◌≤◌, List, [], length, get_or, map, replicate, All, vec_capacity};
ghost use Rattle.kfs_shared.specs.Crew.Shares.{dealt, put_in};

use crate::Docketed;
use crate::crew::worker::Worker;
use std::alloc::Allocator;

/// Puts the task behind those of the share with this number.
fn put<T, A: Allocator>(shares: &mut [Vec<T, A>], at: usize, task: T)
    requires at { at < length shares.old }
    requires room { (most : ℕ) × (length (get_or (map (λ share. share.items) shares.old) at []) ≤ most) × All (λ share. most < vec_capacity share) shares.old }
    ensures put { map (λ share. share.items) shares.new ≡ put_in at task (map (λ share. share.items) shares.old) }
    ensures capacity { map vec_capacity shares.new ≡ map vec_capacity shares.old }
{
    shares[at].push_reserved(task);
}

/// Deals the tasks out, the last one first. It has the number 0, and a task goes to the share with its
/// number modulo the count of shares.
pub fn deal<T: Drop, A: Allocator>(tasks: &mut Vec<T, A>, shares: &mut [Vec<T, A>])
    requires some { 0 < length shares.old }
    requires empty { map (λ share. share.items) shares.old ≡ replicate (length shares.old) [] }
    requires room { All (λ share. length tasks.old.items / length shares.old < vec_capacity share) shares.old }
    ensures dealt { map (λ share. share.items) shares.new ≡ dealt (length shares.old) tasks.old.items }
    ensures gone { tasks.new.items ≡ [] }
    ensures capacity { vec_capacity tasks.new ≡ vec_capacity tasks.old }
{
    let count = shares.len();
    let mut number = 0;
    while let Some(task) = tasks.pop() {
        put(shares, number % count, task);
        number += 1;
    }
}

/// Takes the last task of the worker with this number.
fn take<D: Docketed, T: Drop, A: Allocator>(workers: &mut [Worker<D, Vec<T, A>>], at: usize) -> T
    requires at { at < length workers.old }
    requires some { 0 < length (get_or (map (λ w. w.duty.items) workers.old) at []) }
    ensures taken { map (λ w. w.duty.items) workers.old ≡ put_in at result (map (λ w. w.duty.items) workers.new) }
{
    let Some(task) = workers[at].duty.pop() else {
        unreachable!()
    };
    task
}

/// Takes back so many tasks that were dealt, with their order: the one with number 0 is the last again.
pub fn gather<D: Docketed, T: Drop, A: Allocator>(
    workers: &mut [Worker<D, Vec<T, A>>],
    tasks: &mut Vec<T, A>,
    count: usize,
)
    requires some { 0 < length workers.old }
    requires dealt { (all : List _) × (map (λ w. w.duty.items) workers.old ≡ dealt (length workers.old) all) × (length all ≡ count) }
    requires empty { tasks.old.items ≡ [] }
    requires room { count ≤ vec_capacity tasks.old }
    ensures dealt { map (λ w. w.duty.items) workers.old ≡ dealt (length workers.old) tasks.new.items }
    ensures count { length tasks.new.items ≡ count }
{
    let shares = workers.len();
    let mut number = count;
    while number > 0 {
        number -= 1;
        tasks.push_reserved(take(workers, number % shares));
    }
}
