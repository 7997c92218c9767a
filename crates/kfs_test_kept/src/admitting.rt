//! Lists of clients that are taken, and lists that change nothing.
ghost use Rattle.kfs_journal.specs.Memory.{memory_may_leave, memory_seen};
ghost use Rattle.kfs_kept.specs.Keeping.{IsKept};

use crate::keeping::{AMPLE, Heap, Keeper, client};
use kfs_desk::BeginFault;
use kfs_kept::{AdmitFault, SaveFault};
use kfs_mode::Client;
use kfs_test_support::refusing::Refusing;
use std::process::Abort;
use std::thread::Threads;

/// What a list is answered, and how many calls of the disk that makes.
fn answer(
    rt: &(impl Threads + Sync),
    keeper: &mut Keeper<'_>,
    clients: &[Client],
) -> (Result<bool, AdmitFault>, usize)
    requires { IsKept memory_seen memory_may_leave keeper.old.kept }
    ensures { IsKept memory_seen memory_may_leave keeper.new.kept }
{
    let before = keeper.moment();
    let answer = keeper.admit(rt, clients);
    (answer, keeper.moment().saturating_sub(before))
}

/// Whether lists that aren't taken are told so, with no call of the disk: the old client left out, another one under its number,
/// and a new one whose grant overlaps its grant.
fn are_refused(rt: &(impl Threads + Sync), keeper: &mut Keeper<'_>) -> Option<bool>
    requires { IsKept memory_seen memory_may_leave keeper.old.kept }
    ensures { IsKept memory_seen memory_may_leave keeper.new.kept }
{
    let none = answer(rt, keeper, &[]);
    let other = answer(rt, keeper, &[client(8, 100, 199)?, client(7, 2, 98)?]);
    let overlap = answer(rt, keeper, &[client(7, 2, 99)?, client(8, 99, 199)?]);
    let left_out = Err(AdmitFault::LeftOut(7));
    let taken = Err(AdmitFault::BadClients(BeginFault::GrantOverlap(1)));
    Some(none == (left_out, 0) && other == (left_out, 0) && overlap == (taken, 0))
}

/// Whether memory that is refused is told, with no call of the disk.
fn wants_memory(rt: &(impl Threads + Sync), heap: Heap<'_>, keeper: &mut Keeper<'_>) -> Option<bool>
    requires { IsKept memory_seen memory_may_leave keeper.old.kept }
    ensures { IsKept memory_seen memory_may_leave keeper.new.kept }
{
    let clients = [client(7, 2, 99)?, client(8, 100, 199)?];
    heap.refuse_after(0);
    let refused = answer(rt, keeper, &clients);
    heap.refuse_after(AMPLE);
    Some(refused == (Err(AdmitFault::Unsaved(SaveFault::OutOfMemory)), 0))
}

/// Whether the desk's own list makes no call of the disk, and one with a new client some.
fn are_taken(rt: &(impl Threads + Sync), keeper: &mut Keeper<'_>) -> Option<bool>
    requires { IsKept memory_seen memory_may_leave keeper.old.kept }
    ensures { IsKept memory_seen memory_may_leave keeper.new.kept }
{
    let own = answer(rt, keeper, &[client(7, 2, 99)?]);
    let new = answer(rt, keeper, &[client(7, 2, 99)?, client(8, 100, 199)?]);
    Some(own == (Ok(false), 0) && new == (Ok(true), 10))
}

#[test]
fn lists_change_nothing_or_are_taken(rt: HostRuntime) {
    let heap = Refusing::new(rt.alloc(), AMPLE);
    let mut keeper = Keeper::begin(&rt, rt.alloc(), &heap).expect(&rt, "memory");
    assert!(&rt; are_refused(&rt, &mut keeper) == Some(true));
    assert!(&rt; wants_memory(&rt, &heap, &mut keeper) == Some(true));
    assert!(&rt; are_taken(&rt, &mut keeper) == Some(true));
}
