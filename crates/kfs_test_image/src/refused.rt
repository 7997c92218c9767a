//! Edits, and the change of a landing, with each allocation failing in turn: the image shows what it
//! showed, and then the same is done.
ghost use Rattle.std.specs.Prelude.{◌≡◌, IsFalse};
ghost use Rattle.kfs_image.specs.Edit.{CanEdit};
ghost use Rattle.kfs_image.specs.Net.{CanApply, after_net};
ghost use Rattle.kfs_model.specs.Device.ShownTree.{IsLawful};

use crate::edits::{edits_of_each_kind, lay};
use crate::filled::fill_of_two;
use crate::landed::{Made, apply_alone, image_with, net_of};
use kfs_image::{
    Answer, Cell, Edit, Fill, Image, Net, Shape, TierSizes, look, net_apply, read_file,
};
use kfs_test_support::refusing::Refusing;
use std::alloc::{Allocator, Global};
use std::process::Abort;

/// More allocations than anything here asks for.
const AMPLE: u64 = 1 << 40;

/// More allocations than the edits ask for.
const MANY: u64 = 400;

/// File 5 of two blocks at `/a`.
static TWO_BLOCKS: Made<'static> = Made {
    log: b"KLOG\x01\0\0\0\x07\0\x02\x01\0\0\0\x01\x01a\0\0\0\x05\0\x01\xa4\
          \x03\0\0\0\x05\0\0\0\0\0\0\x20\0",
    plan: b"KPLN\x01\0\x01\0\x01\0\0\0\x01\0\0\0\x01\x01a\0\0\0\x05\0\0\0\x05\
          \x01\x01\xa4\0\0\x03\xe8\0\0\x03\xe8\0\x01\0\0\0\0\0\0\x20\0\
          \0\0\0\x05\0\0\0\0\0\0\0\0\0\0\0\0\0\0\x20\0\0",
};

/// File 6 without a byte at `/b`.
static SECOND_NAME: Made<'static> = Made {
    log: b"KLOG\x01\0\0\0\x07\0\x01\x01\0\0\0\x01\x01b\0\0\0\x06\0\x01\xa4",
    plan: b"KPLN\x01\0\x01\0\x01\0\0\0\0\0\0\0\x01\x01b\0\0\0\x06\0\0\0\x06\
          \x01\x01\xa4\0\0\x03\xe8\0\0\x03\xe8\0\x01\0\0\0\0\0\0\0\0",
};

/// The places on tier 0 of the two blocks, the bytes of the file from 4,090 on, and how many places are free.
type Shown = ((Option<u32>, Option<u32>), [u8; 20], u32);

/// The first block is mapped, the second isn't.
static BEFORE: Shown = ((Some(0), None), [0; 20], 2);

/// After the edits of each kind: block 1 is at place 2, and block 0 is unmapped.
static EDITED: Shown = (
    (None, Some(2)),
    [
        0, 0, 0, 0, 0, 0, 128, 129, 130, 131, 132, 133, 134, 135, 136, 137, 138, 139, 140, 141,
    ],
    2,
);

/// After a landing that writes both blocks: they are at places 2 and 1, and place 0 is free again.
static FILLED: Shown = (
    (Some(2), Some(1)),
    [
        218, 219, 220, 221, 222, 223, 1, 2, 3, 4, 5, 6, 7, 8, 9, 10, 11, 12, 13, 14,
    ],
    1,
);

fn place<A: Allocator>(image: &Image<A>, block: u32) -> Option<u32> {
    let (_tier, place) = image.place_of(5, block)?;
    Some(place)
}

fn shown_by<A: Allocator>(image: &Image<A>) -> Option<Shown> {
    let mut buffer = [7; 20];
    let count = read_file(image, 5, 4_090, &mut buffer).ok()?;
    let places = (place(image, 0), place(image, 1));
    (count == 20).then_some((places, buffer, image.free(0)))
}

/// Whether the image shows this.
fn shows<A: Allocator>(image: &Image<A>, wanted: &Shown) -> bool {
    match shown_by(image) {
        Some(shown) => shown == *wanted,
        None => false,
    }
}

/// Whether an allocation failed, and the image shows what it showed. No further allocation fails then.
fn is_kept<A: Allocator>(heap: &Refusing<Global>, image: &Image<A>) -> bool {
    let has_refused = heap.has_refused();
    heap.refuse_after(AMPLE);
    has_refused && shows(image, &BEFORE)
}

/// Whether there is a node with this number.
fn has_node<A: Allocator>(shape: &Shape<A>, number: u32) -> bool {
    matches!(look(shape, &Cell::Header(number)), Answer::Header(Some(_)))
}

/// Makes the edits, if there is memory.
fn is_edited<A: Allocator + Clone>(image: &mut Image<A>, edits: &[Edit<A>]) -> bool
    requires { CanEdit edits.now image.old }
    ensures { IsFalse result → image.new ≡ image.old }
{
    match image.edit(edits) {
        Ok(()) => true,
        Err(_) => false,
    }
}

/// Makes the edits, and once more where an allocation failed. Whether one did; none where the image shows anything wrong.
fn edited<A: Allocator + Clone>(
    heap: &Refusing<Global>,
    image: &mut Image<A>,
    edits: &[Edit<A>],
) -> Option<bool>
    requires { CanEdit edits.now image.old }
{
    if is_edited(image, edits) {
        return (!heap.has_refused() && shows(image, &EDITED)).then_some(false);
    }
    if !is_kept(heap, image) || !is_edited(image, edits) {
        return None;
    }
    shows(image, &EDITED).then_some(true)
}

/// The same for the edits of each kind, with the allocation of this index failing.
fn each_kind_edited<A: Allocator + Copy>(
    alloc: A,
    heap: &Refusing<Global>,
    image: &mut Image<A>,
    growth: u64,
) -> Option<bool> {
    let edits = edits_of_each_kind(alloc, image)?;
    heap.refuse_after(growth);
    edited(heap, image, edits.as_slice())
}

/// The same, while a view shares the nodes and names, and shows what it showed.
fn edited_beside_a_view<A: Allocator + Copy>(
    alloc: A,
    heap: &Refusing<Global>,
    image: &mut Image<A>,
    growth: u64,
) -> Option<bool> {
    let view = image.shape().clone().ok()?;
    let has_refused = each_kind_edited(alloc, heap, image, growth);
    if has_node(&view, 5) {
        has_refused
    } else {
        None
    }
}

/// Makes the change of the net, if there is memory.
fn is_applied<A: Allocator + Copy>(alloc: A, image: &mut Image<A>, net: &Net<A>) -> bool
    requires { IsLawful (after_net net.now image.old) }
    ensures { IsFalse result → image.new ≡ image.old }
{
    match apply_alone(&alloc, image, net) {
        Ok(()) => true,
        Err(_) => false,
    }
}

/// The change of a landing without blocks.
fn landed<A: Allocator + Copy>(
    alloc: A,
    heap: &Refusing<Global>,
    image: &mut Image<A>,
    growth: u64,
) -> Option<bool> {
    let net = net_of(alloc, image, TWO_BLOCKS)?;
    heap.refuse_after(growth);
    if is_applied(alloc, image, &net) {
        return (!heap.has_refused() && has_node(image.shape(), 5)).then_some(false);
    }
    if !heap.has_refused() || has_node(image.shape(), 5) {
        return None;
    }
    heap.refuse_after(AMPLE);
    let is_made = is_applied(alloc, image, &net);
    (is_made && has_node(image.shape(), 5)).then_some(true)
}

/// Makes the change of the net with these blocks, if there is memory.
fn is_filled_with<A: Allocator + Copy>(
    alloc: A,
    image: &mut Image<A>,
    net: &Net<A>,
    fill: &Fill<A>,
) -> bool
    requires { CanApply net.now fill.now image.old }
    ensures { IsFalse result → image.new ≡ image.old }
{
    match net_apply(alloc, image, net, fill) {
        Ok(()) => true,
        Err(_) => false,
    }
}

/// Whether both blocks are written, and file 6 is there.
fn is_filled<A: Allocator>(image: &Image<A>) -> bool {
    has_node(image.shape(), 6) && shows(image, &FILLED)
}

/// A landing with blocks, and once more where an allocation failed.
fn filled<A: Allocator + Copy>(
    alloc: A,
    heap: &Refusing<Global>,
    image: &mut Image<A>,
    net: &Net<A>,
    fill: &Fill<A>,
) -> Option<bool>
    requires { CanApply net.now fill.now image.old }
{
    if is_filled_with(alloc, image, net, fill) {
        return (!heap.has_refused() && is_filled(image)).then_some(false);
    }
    if !is_kept(heap, image) || has_node(image.shape(), 6) {
        return None;
    }
    let is_made = is_filled_with(alloc, image, net, fill);
    (is_made && is_filled(image)).then_some(true)
}

/// The same for the name `b` and two blocks of file 5, one of which has a place already, with the allocation
/// of this index refused.
fn landed_with_blocks<A: Allocator + Copy>(
    alloc: A,
    heap: &Refusing<Global>,
    image: &mut Image<A>,
    growth: u64,
) -> Option<bool> {
    let net = net_of(alloc, image, SECOND_NAME)?;
    let fill = fill_of_two(alloc, image, &net)?;
    heap.refuse_after(growth);
    filled(alloc, heap, image, &net, &fill)
}

/// What is done with each allocation failing in turn.
#[derive(Clone, Copy)]
enum Change {
    Edits,
    EditsBesideAView,
    Landing,
    LandingWithBlocks,
}

/// An image with file 5, whose block 0 lies at place 0.
fn image_with_a_block<A: Allocator + Copy>(alloc: A) -> Option<Image<A>> {
    let mut image = image_with(alloc, 3, TWO_BLOCKS)?;
    let place = lay(alloc, &mut image, 0, 0);
    (place == Some(0)).then_some(image)
}

/// The image of which the change is made.
fn image_before<A: Allocator + Copy>(alloc: A, change: Change) -> Option<Image<A>> {
    match change {
        Change::Landing => Image::fresh(alloc, TierSizes::new(3, 0, 0)?).ok(),
        _ => image_with_a_block(alloc),
    }
}

/// Makes the change with the allocation of this index failing. Whether that was asked for; none where the answer is wrong.
fn changed<A: Allocator + Copy>(
    alloc: A,
    heap: &Refusing<Global>,
    image: &mut Image<A>,
    change: Change,
    growth: u64,
) -> Option<bool> {
    match change {
        Change::Edits => each_kind_edited(alloc, heap, image, growth),
        Change::EditsBesideAView => edited_beside_a_view(alloc, heap, image, growth),
        Change::Landing => landed(alloc, heap, image, growth),
        Change::LandingWithBlocks => landed_with_blocks(alloc, heap, image, growth),
    }
}

/// The same on an image of its own.
fn changed_there<A: Allocator + Copy>(
    alloc: A,
    heap: &Refusing<Global>,
    change: Change,
    growth: u64,
) -> Option<bool> {
    let mut image = image_before(alloc, change)?;
    changed(alloc, heap, &mut image, change, growth)
}

/// How many allocations the change asks for, each refused in turn; or as an error the index of one at which
/// the answer is wrong.
fn growths(alloc: Global, change: Change) -> Result<u64, u64> {
    for growth in 0..MANY {
        let heap = Refusing::new(alloc, AMPLE);
        match changed_there(&heap, &heap, change, growth) {
            Some(true) => {}
            Some(false) => return Ok(growth),
            None => return Err(growth),
        }
    }
    Err(MANY)
}

#[test]
fn each_growth_of_a_change_refused(rt: HostRuntime) {
    for change in [
        Change::Edits,
        Change::EditsBesideAView,
        Change::Landing,
        Change::LandingWithBlocks,
    ] {
        let count = growths(rt.alloc(), change);
        let is_right = match count {
            Ok(count) => 3 < count,
            Err(_) => false,
        };
        assert!(rt; is_right, "{count:?}");
    }
}
