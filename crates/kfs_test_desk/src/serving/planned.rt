//! What a plan maker calls: right pieces of a log, and the check of a plan.
ghost use Rattle.std.specs.Prelude.{◌≤◌, length, IfSome, IsOk};
ghost use Rattle.std.specs.List.{AllByRecursion};
ghost use Rattle.kfs_model.specs.Limits.{entry_limit};
ghost use Rattle.kfs_types.specs.Views.{IsSpanned};
ghost use Rattle.kfs_judge.specs.Walks.{HasOrderedSizes};

use crate::desks::{AMPLE, CREATED, FILE_LEASED, ROOT_LEASED, desk_after};
use kfs_entry::{Log, Plan, decode_log, decode_plan};
use kfs_judge::{View, Walk, judge_entries};
use kfs_plan::{RowFault, check_plan, sweep};
use kfs_test_support::refusing::Refusing;
use kfs_test_support::vectors::{CREATE_PLAN, LETTERS_LOG, LETTERS_PLAN};
use std::alloc::{Allocator, Global};

/// Whether the pieces are those of the right plan, or none where memory ran out; and what the checks of the right plan and of
/// another log's plan say.
type Told = (Option<bool>, Result<u64, RowFault>, Result<u64, RowFault>);

/// The log that writes ten letters.
fn letters<A: Allocator>(alloc: A) -> Option<Log<A>>
    ensures spans { IfSome result (λ log. AllByRecursion IsSpanned log.entries) }
    ensures count { IfSome result (λ log. length log.entries ≤ entry_limit) }
{
    decode_log(alloc, LETTERS_LOG).ok()
}

/// The walk over the entries of a log; none where its client is unknown or an entry is bad.
fn walked<A: Allocator + Copy>(alloc: A, view: &View<A>, log: &Log<A>) -> Option<Walk<A>>
    requires count { length log.now.entries ≤ entry_limit }
    ensures walked { IfSome result (λ walk. IsOk walk.outcome) }
    ensures sizes { IfSome result HasOrderedSizes }
{
    let is_known = view.client(log.client).is_some();
    if !is_known {
        return None;
    }
    let walk = judge_entries(alloc, view, log).ok()?;
    if walk.outcome.is_ok() {
        Some(walk)
    } else {
        None
    }
}

/// Whether the pieces are those of the plan; none where memory ran out.
fn swept<A: Allocator + Copy>(
    alloc: A,
    log: &Log<A>,
    walk: &Walk<A>,
    plan: &Plan<A>,
) -> Option<bool>
    requires walked { IsOk walk.now.outcome }
    requires sizes { HasOrderedSizes walk.now }
    requires spans { AllByRecursion IsSpanned log.now.entries }
    requires count { length log.now.entries ≤ entry_limit }
{
    match sweep(alloc, log, walk) {
        Ok(pieces) => Some(pieces.as_slice() == plan.pieces.as_slice()),
        Err(_) => None,
    }
}

/// What the check of a plan says.
fn checked<A: Allocator + Copy>(
    alloc: A,
    log: &Log<A>,
    walk: &Walk<A>,
    plan: &Plan<A>,
) -> Result<u64, RowFault>
    requires walked { IsOk walk.now.outcome }
    requires sizes { HasOrderedSizes walk.now }
    requires spans { AllByRecursion IsSpanned log.now.entries }
    requires count { length log.now.entries ≤ entry_limit }
{
    check_plan(alloc, log, walk, plan)
}

/// What is told of the log that writes ten letters, with only the allocation of this index failing once it was walked over.
fn told<A: Allocator + Copy>(
    alloc: A,
    heap: &Refusing<Global>,
    view: &View<A>,
    right: &Plan<A>,
    other: &Plan<A>,
    growth: u64,
) -> Option<Told> {
    let log = letters(alloc)?;
    let walk = walked(alloc, view, &log)?;
    heap.refuse_after(growth);
    let swept = swept(alloc, &log, &walk, right);
    let by_right = checked(alloc, &log, &walk, right);
    let by_other = checked(alloc, &log, &walk, other);
    Some((swept, by_right, by_other))
}

/// Whether all is told as with ample memory; or else that memory ran out once, and nothing wrong.
fn is_right(told: Told, has_refused: bool) -> bool {
    let (swept, checked, other) = told;
    let (is_swept, is_checked) = (swept == Some(true), checked == Ok(1));
    let is_other = other == Err(RowFault::Names(0));
    if !has_refused {
        return is_swept && is_checked && is_other;
    }
    let no_sweep = swept == None && is_checked && is_other;
    let no_check = is_swept && checked == Err(RowFault::OutOfMemory) && is_other;
    let no_other = is_swept && is_checked && other == Err(RowFault::OutOfMemory);
    no_sweep || no_check || no_other
}

/// The same at a view. Answers whether there was such an allocation; none where an answer is wrong.
fn planned_at<A: Allocator + Copy>(
    alloc: A,
    heap: &Refusing<Global>,
    view: &View<A>,
    growth: u64,
) -> Option<bool> {
    let right = decode_plan(alloc, LETTERS_PLAN).ok()?;
    let other = decode_plan(alloc, CREATE_PLAN).ok()?;
    let told = told(alloc, heap, view, &right, &other, growth)?;
    let has_refused = heap.has_refused();
    is_right(told, has_refused).then_some(has_refused)
}

/// A view of a desk with the empty file 5, on which client 7 holds a write lease.
fn view_with_file<A: Allocator + Copy>(alloc: A) -> Option<View<A>> {
    let desk = desk_after(alloc, 100, &[ROOT_LEASED, CREATED, FILE_LEASED])?;
    desk.view().ok()
}

/// The same on a desk of its own.
pub fn planned_with_one_refused<A: Allocator + Copy>(
    alloc: A,
    heap: &Refusing<Global>,
    growth: u64,
) -> Option<bool> {
    let view = view_with_file(alloc)?;
    let is_refused = planned_at(alloc, heap, &view, growth);
    heap.refuse_after(AMPLE);
    is_refused
}
