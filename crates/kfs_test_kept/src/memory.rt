//! The first allocation of each call refused: what is told, and that it isn't told else. `tools/kept-memory` refuses each allocation.
ghost use Rattle.std.specs.Prelude.{◌≡◌, IfSome, None};
ghost use Rattle.kfs_desk.specs.Opening.{begin_fault};
ghost use Rattle.kfs_journal.specs.Memory.{memory_may_leave, memory_seen};
ghost use Rattle.kfs_kept.specs.Keeping.{IsKept};

use crate::keeping::{AMPLE, Heap, Keeper, LEASE_ROOT};
use kfs_desk::Desk;
use kfs_image::{Image, TierSizes};
use kfs_journal::{MemoryDisk, Tear};
use kfs_kept::{CallsFault, Kept, OpenFault, SaveFault};
use kfs_test_support::refusing::Refusing;
use std::alloc::Global;
use std::process::Abort;
use std::thread::Threads;

fn new_image<'a>(heap: Heap<'a>) -> Option<Image<Heap<'a>>> {
    Image::fresh(heap, TierSizes::new(8, 8, 8)?).ok()
}

/// A desk on a new image. The image comes from a function that says nothing of it, so that the proof doesn't compute with it.
fn new_desk<'a>(heap: Heap<'a>) -> Option<Desk<Heap<'a>>>
    ensures { IfSome result (λ desk. begin_fault desk.state.clients ≡ None) }
{
    match Desk::begin(heap, new_image(heap)?, Vec::new(heap), 1) {
        Ok(desk) => Some(desk),
        Err(_) => None,
    }
}

/// How a new desk is kept, with the allocation of this index refused: how many calls of the disk that made. None where there is no
/// desk.
fn created(alloc: Global, growth: u64) -> Option<Result<usize, SaveFault>> {
    let heap = Refusing::new(alloc, AMPLE);
    let desk = new_desk(&heap)?;
    let disk = MemoryDisk::new(alloc, Vec::new(alloc), Vec::new(alloc));
    heap.refuse_after(growth);
    match Kept::create(&heap, desk, disk) {
        Ok(kept) => Some(Ok(kept.into_disk().moment())),
        Err(back) => Some(Err(back.why)),
    }
}

/// What the files of a disk are opened as, with the allocation of this index refused: whether the desk is open.
fn opened(
    rt: &(impl Threads + Sync),
    alloc: Global,
    disk: &MemoryDisk,
    growth: u64,
) -> Result<bool, Option<OpenFault>> {
    let heap = Refusing::new(alloc, growth);
    match Keeper::after_crash(rt, &heap, disk, disk.moment(), Tear::Lost) {
        Ok(keeper) => Ok(keeper.is_open()),
        Err(why) => Err(why),
    }
}

/// Whether the files of a disk are opened, and memory that is refused is told.
fn are_opened(rt: &(impl Threads + Sync), alloc: Global, disk: &MemoryDisk) -> bool {
    let refused = opened(rt, alloc, disk, 0);
    let made = opened(rt, alloc, disk, AMPLE);
    refused == Err(Some(OpenFault::OutOfMemory)) && made == Ok(true)
}

/// Whether a call, a checkpoint and the beginning of one in steps tell that memory is refused, and call no disk.
fn are_refused(heap: Heap<'_>, keeper: &mut Keeper<'_>) -> bool
    requires { IsKept memory_seen memory_may_leave keeper.old.kept }
    ensures { IsKept memory_seen memory_may_leave keeper.new.kept }
{
    let before = keeper.moment();
    heap.refuse_after(0);
    let called = keeper.call(&[LEASE_ROOT]);
    heap.refuse_after(0);
    let saved = keeper.checkpoint();
    heap.refuse_after(0);
    let begun = keeper.begin_checkpoint();
    heap.refuse_after(AMPLE);
    let are_told = called == Err(CallsFault::OutOfMemory)
        && saved == Err(SaveFault::OutOfMemory)
        && begun == Err(SaveFault::OutOfMemory);
    are_told && keeper.moment() == before && keeper.is_open()
}

/// Whether these are answered.
fn are_made(keeper: &mut Keeper<'_>) -> bool
    requires { IsKept memory_seen memory_may_leave keeper.old.kept }
    ensures { IsKept memory_seen memory_may_leave keeper.new.kept }
{
    let called = keeper.call(&[LEASE_ROOT]);
    let saved = keeper.checkpoint();
    let begun = keeper.begin_checkpoint();
    called == Ok((1, 1)) && saved == Ok(()) && begun == Ok(())
}

#[test]
fn a_new_desk_is_kept_or_memory_is_refused(rt: HostRuntime) {
    let alloc = rt.alloc();
    assert!(&rt; created(alloc, 0) == Some(Err(SaveFault::OutOfMemory)));
    assert!(&rt; created(alloc, AMPLE) == Some(Ok(10)));
}

#[test]
fn calls_are_made_or_memory_is_refused(rt: HostRuntime) {
    let heap = Refusing::new(rt.alloc(), AMPLE);
    let mut keeper = Keeper::begin(&rt, rt.alloc(), &heap).expect(&rt, "memory");
    assert!(&rt; are_refused(&heap, &mut keeper) && are_made(&mut keeper));
    assert!(&rt; are_opened(&rt, rt.alloc(), keeper.disk()));
}
