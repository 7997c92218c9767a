//! Calls that make no call of the disk, and when a checkpoint is due.
ghost use Rattle.kfs_journal.specs.Memory.{memory_may_leave, memory_seen};
ghost use Rattle.kfs_kept.specs.Keeping.{IsKept};

use crate::keeping::{AMPLE, BAD, Keeper};
use kfs_test_support::refusing::Refusing;
use std::alloc::Global;
use std::process::Abort;

/// How many answers the calls have, and how many calls of the disk they make.
fn cost(keeper: &mut Keeper<'_>, calls: &[&[u8]]) -> Option<(usize, usize)>
    requires { IsKept memory_seen memory_may_leave keeper.old.kept }
    ensures { IsKept memory_seen memory_may_leave keeper.new.kept }
{
    let before = keeper.moment();
    let (answers, _) = keeper.call(calls).ok()?;
    Some((answers, keeper.moment().saturating_sub(before)))
}

/// Whether a checkpoint was due and is made, and how many calls of the disk it makes.
fn made(keeper: &mut Keeper<'_>) -> Option<(bool, usize)>
    requires { IsKept memory_seen memory_may_leave keeper.old.kept }
    ensures { IsKept memory_seen memory_may_leave keeper.new.kept }
{
    let before = keeper.moment();
    let is_made = keeper.save_if_due().ok()?;
    Some((is_made, keeper.moment().saturating_sub(before)))
}

/// Before and after a call of more than 2^20 bytes: whether a checkpoint was due, three times.
fn grown(alloc: Global, keeper: &mut Keeper<'_>) -> Option<[(bool, usize); 3]>
    requires { IsKept memory_seen memory_may_leave keeper.old.kept }
{
    let early = made(keeper)?;
    // client 7 hands in a log of 2^20 bytes, and a plan of none
    let mut long = vec![in alloc; 0u8; (1 << 20) + 13].ok()?;
    long[0] = 1;
    long[4] = 7;
    long[6] = 16;
    let (answers, calls) = cost(keeper, &[&long])?;
    let is_due = keeper.is_due();
    let first = made(keeper)?;
    let second = made(keeper)?;
    (answers == 1 && calls == 6 && is_due).then_some([early, first, second])
}

/// Whether no call and one that is none make no call of the disk.
fn are_idle(keeper: &mut Keeper<'_>) -> bool
    requires { IsKept memory_seen memory_may_leave keeper.old.kept }
{
    let none = cost(keeper, &[]);
    let bad = cost(keeper, &[BAD]);
    none == Some((0, 0)) && bad == Some((1, 0))
}

#[test]
fn calls_without_an_answer_make_no_call_of_the_disk(rt: HostRuntime) {
    let heap = Refusing::new(rt.alloc(), AMPLE);
    let mut keeper = Keeper::begin(&rt, rt.alloc(), &heap).expect(&rt, "memory");
    assert!(&rt; are_idle(&mut keeper));
}

#[test]
fn a_checkpoint_is_made_where_it_is_due(rt: HostRuntime) {
    let heap = Refusing::new(rt.alloc(), AMPLE);
    let mut keeper = Keeper::begin(&rt, rt.alloc(), &heap).expect(&rt, "memory");
    assert!(&rt; grown(rt.alloc(), &mut keeper) == Some([(false, 0), (true, 10), (false, 0)]));
}
