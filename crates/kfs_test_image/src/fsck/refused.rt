//! Each allocation failing in turn: the raw image comes back as it was, and is then let in.
ghost use Rattle.std.specs.Prelude.{IsTrue};
ghost use Rattle.kfs_model.specs.Device.Finding.{IsWellFormed};
ghost use Rattle.kfs_image.specs.Codec.RawImages.{raw_of};

use crate::fsck::shown::{is_same, shows_right};
use kfs_fsck::{FsckFault, fsck};
use kfs_image::{Image, RawImage};
use kfs_shape::check_shape;
use kfs_test_support::images::broken::RIGHT;
use kfs_test_support::images::small::image;
use kfs_test_support::refusing::Refusing;
use std::alloc::{Allocator, Global};
use std::process::Abort;
use std::thread::Threads;

/// More allocations than anything here asks for.
const AMPLE: u64 = 1 << 40;

/// More allocations than a call asks for.
const MANY: u64 = 2_000;

/// Whether the ten rules hold.
pub fn is_right<A: Allocator + Copy>(alloc: A, raw: &RawImage<A>) -> bool
    ensures { IsTrue result → IsWellFormed (raw_of raw.now) }
{
    match check_shape(alloc, raw) {
        Ok(()) => true,
        Err(_fault) => false,
    }
}

/// Whether an allocation failed, and the raw image is as it was. No further allocation fails then.
fn is_kept<A: Allocator + Copy>(alloc: A, heap: &Refusing<Global>, raw: &RawImage<A>) -> bool {
    let has_refused = heap.has_refused();
    heap.refuse_after(AMPLE);
    match image(alloc, &[RIGHT]) {
        Some(other) => has_refused && is_same(raw, &other),
        None => false,
    }
}

/// Whether an image is made of rows that break no rule, and shows them.
fn is_shown_of<A: Allocator + Copy>(alloc: A, raw: RawImage<A>) -> bool {
    if !is_right(alloc, &raw) {
        return false;
    }
    match Image::from_raw(alloc, raw) {
        Ok(made) => shows_right(&made),
        Err(_back) => false,
    }
}

/// Makes an image of the rows with the allocation of this index failing, and once more of what came back. Whether that
/// allocation was asked for; none where the answer is wrong.
fn made<A: Allocator + Copy>(
    alloc: A,
    heap: &Refusing<Global>,
    raw: RawImage<A>,
    growth: u64,
) -> Option<bool>
    requires { IsWellFormed (raw_of raw) }
{
    heap.refuse_after(growth);
    match Image::from_raw(alloc, raw) {
        Ok(made) => (!heap.has_refused() && shows_right(&made)).then_some(false),
        Err(back) => {
            if !is_kept(alloc, heap, &back) {
                return None;
            }
            is_shown_of(alloc, back).then_some(true)
        }
    }
}

/// The same of the right rows.
fn made_with_one_refused<A: Allocator + Copy>(
    alloc: A,
    heap: &Refusing<Global>,
    growth: u64,
) -> Option<bool> {
    let raw = image(alloc, &[RIGHT])?;
    if !is_right(alloc, &raw) {
        return None;
    }
    made(alloc, heap, raw, growth)
}

/// Whether the rows are let in, and shown.
fn is_let_in<A: Allocator + Copy>(rt: &(impl Threads + Sync), alloc: A, raw: RawImage<A>) -> bool {
    match fsck(rt, alloc, raw) {
        Ok(made) => shows_right(&made),
        Err(_fault) => false,
    }
}

/// Checks the rows and lets them in with the allocation of this index failing, and once more what came back. Whether that
/// allocation was asked for; none where the answer is wrong.
fn checked_with_one_refused<A: Allocator + Copy>(
    rt: &(impl Threads + Sync),
    alloc: A,
    heap: &Refusing<Global>,
    growth: u64,
) -> Option<bool> {
    let raw = image(alloc, &[RIGHT])?;
    heap.refuse_after(growth);
    match fsck(rt, alloc, raw) {
        Ok(made) => (!heap.has_refused() && shows_right(&made)).then_some(false),
        Err(FsckFault::Found(_finding)) => None,
        Err(FsckFault::OutOfMemory(back)) => {
            if !is_kept(alloc, heap, &back) {
                return None;
            }
            is_let_in(rt, alloc, back).then_some(true)
        }
    }
}

/// How many allocations an image of the rows asks for, checked or not, each refused in turn; or as an error the index of one
/// at which the answer is wrong.
fn growths(rt: &(impl Threads + AllocGlobal + Sync), is_checked: bool) -> Result<u64, u64> {
    for growth in 0..MANY {
        let heap = Refusing::new(rt.alloc(), AMPLE);
        let is_refused = if is_checked {
            checked_with_one_refused(rt, &heap, &heap, growth)
        } else {
            made_with_one_refused(&heap, &heap, growth)
        };
        match is_refused {
            Some(true) => {}
            Some(false) => return Ok(growth),
            None => return Err(growth),
        }
    }
    Err(MANY)
}

#[test]
fn each_growth_refused(rt: HostRuntime) {
    let count = growths(&rt, false);
    assert!(&rt; matches!(count, Ok(20..)), "{count:?}");
    let count = growths(&rt, true);
    assert!(&rt; matches!(count, Ok(30..)), "{count:?}");
}
