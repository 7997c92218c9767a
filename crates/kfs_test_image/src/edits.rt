//! Edits of an image: a tier with all its blocks in use, and edits in which each allocation is
//! refused in turn.
ghost use Rattle.std.specs.Prelude.{◌≡◌, [], ◌∷◌, IfOk, IfSome};
ghost use Rattle.kfs_image.specs.Edit.{CanEdit};
ghost use Rattle.kfs_test_image.specs.Edits.{each_kind};

use crate::fits::{block_count, is_place_free};
use crate::landed::{Made, image_with};
use kfs_image::{Edit, Header, Image, Name, Place, header};
use kfs_types::BLOCK_LEN;
use std::alloc::{AllocError, Allocator, Global};
use std::process::Abort;

/// The most blocks of a tier.
const GREATEST: u32 = 65_536;

/// File 5 of mode 0o644 at `/a`, as long as a tier.
static LONG: Made<'static> = Made {
    log: b"KLOG\x01\0\0\0\x07\0\x02\x01\0\0\0\x01\x01a\0\0\0\x05\0\x01\xa4\
          \x03\0\0\0\x05\0\0\0\0\x10\0\0\0",
    plan: b"KPLN\x01\0\x01\0\x01\0\0\0\x01\0\0\0\x01\x01a\0\0\0\x05\0\0\0\x05\
          \x01\x01\xa4\0\0\x03\xe8\0\0\x03\xe8\0\x01\0\0\0\0\x10\0\0\0\
          \0\0\0\x05\0\0\0\0\0\0\0\0\0\0\0\0\x10\0\0\0\0",
};

/// The edit that puts a block of a file at a place, if the image is lawful after it.
fn mapping<A: Allocator>(
    image: &Image<A>,
    number: u32,
    block: u32,
    tier: u8,
    place: u32,
) -> Option<Edit<A>>
    ensures { IfSome result (λ edit. CanEdit (edit ∷ []) image.now) }
{
    // Tells the prover that the image is lawful.
    let _shape = image.shape();
    let is_free = is_place_free(image, Place { tier, place });
    if is_free && u64::from(block) < block_count(header(image, number)) {
        Some(Edit::Map(number, block, Some((tier, place))))
    } else {
        None
    }
}

/// The edit that unmaps a block.
fn unmapping<A: Allocator>(image: &Image<A>, number: u32, block: u32) -> Edit<A>
    ensures { CanEdit (result ∷ []) image.now }
{
    // Tells the prover that the image is lawful.
    let _shape = image.shape();
    Edit::Map(number, block, None)
}

/// The edit that writes bytes at a place, if the place exists and they are a block's.
fn writing<A: Allocator>(
    image: &Image<A>,
    tier: u8,
    place: u32,
    bytes: Vec<u8, A>,
) -> Option<Edit<A>>
    ensures { IfSome result (λ edit. CanEdit (edit ∷ []) image.now) }
{
    // Tells the prover that the image is lawful.
    let _shape = image.shape();
    let is_there = place < image.tier_size(tier);
    if is_there && bytes.len() == BLOCK_LEN {
        Some(Edit::Bytes(tier, place, bytes))
    } else {
        None
    }
}

/// Makes one edit.
fn make<A: Allocator + Copy>(alloc: A, image: &mut Image<A>, edit: Edit<A>) -> Option<()>
    requires { CanEdit (edit ∷ []) image.old }
{
    let mut edits = Vec::new(alloc);
    edits.push(edit).ok()?;
    image.edit(edits.as_slice()).ok()
}

/// An edit of each kind: the header of the root and its name `a` stay as they are, block 1 of file 5 is
/// put at a place, these bytes are written there, and block 0 is unmapped.
fn of_each_kind<A: Allocator>(
    alloc: A,
    header: Option<Header>,
    name: Name,
    target: Option<u32>,
    place: Place,
    bytes: Vec<u8, A>,
) -> Result<Vec<Edit<A>, A>, AllocError>
    ensures { IfOk result (λ edits. edits.items ≡ each_kind header name target place bytes) }
{
    let mut edits = Vec::new(alloc);
    edits.push(Edit::Header(1, header))?;
    edits.push(Edit::Name(1, name, target))?;
    edits.push(Edit::Map(5, 1, Some((place.tier, place.place))))?;
    edits.push(Edit::Bytes(place.tier, place.place, bytes))?;
    edits.push(Edit::Map(5, 0, None))?;
    Ok(edits)
}

/// A block's bytes: each is one more than the one before it, and every hundredth is the first again.
pub fn block_bytes<A: Allocator>(alloc: A, first: u8) -> Option<Vec<u8, A>> {
    let mut bytes = Vec::new(alloc);
    for k in 0..4_096u16 {
        bytes.push(first.wrapping_add((k % 100) as u8)).ok()?;
    }
    Some(bytes)
}

/// Such edits with place 2, if the image is lawful after them.
pub fn edits_of_each_kind<A: Allocator + Copy>(
    alloc: A,
    image: &Image<A>,
) -> Option<Vec<Edit<A>, A>>
    ensures { IfSome result (λ edits. CanEdit edits.items image.now) }
{
    let place = Place { tier: 0, place: 2 };
    // Tells the prover that the image is lawful.
    let _shape = image.shape();
    let bytes = block_bytes(alloc, 128)?;
    let is_free = is_place_free(image, place);
    if !is_free || block_count(header(image, 5)) <= 1 || bytes.len() != BLOCK_LEN {
        return None;
    }
    let name = (1, Name::new(b"a")?);
    let target = image.shape().target(&name);
    of_each_kind(alloc, header(image, 1), name.1, target, place, bytes).ok()
}

/// Puts the block of file 5 at the least free place of tier 0 from `from` on, and answers the place.
pub fn lay<A: Allocator + Copy>(
    alloc: A,
    image: &mut Image<A>,
    block: u32,
    from: u32,
) -> Option<u32> {
    let place = image.next_free(0, from)?;
    let edit = mapping(image, 5, block, 0, place)?;
    make(alloc, image, edit)?;
    Some(place)
}

/// Writes bytes that aren't zero at a place, a block's.
pub fn write<A: Allocator + Copy>(alloc: A, image: &mut Image<A>, place: Place) -> Option<()> {
    let edit = writing(image, place.tier, place.place, block_bytes(alloc, 128)?)?;
    make(alloc, image, edit)
}

/// An image in which each block of file 5 is on tier 0, at the place with the block's number.
fn filled(alloc: Global) -> Option<Image<Global>> {
    let mut image = image_with(alloc, GREATEST, LONG)?;
    for block in 0..GREATEST {
        if lay(alloc, &mut image, block, block)? != block {
            return None;
        }
    }
    Some(image)
}

/// How many places of tier 0 are free, the least of them, and the place of a block of file 5.
fn found(image: &Image<Global>, block: u32) -> (u32, Option<u32>, Option<u32>) {
    let place = image.place_of(5, block);
    (
        image.free(0),
        image.next_free(0, 0),
        place.map(|place| place.1),
    )
}

#[test]
fn a_tier_of_which_each_place_is_used(rt: HostRuntime) {
    let image = filled(rt.alloc());
    assert!(rt; image.is_some());
    if let Some(mut image) = image {
        expect_one_freed(&rt, &mut image);
    }
}

/// A block is unmapped. Its place is the next free one then, and is used again.
fn expect_one_freed(rt: &(impl Abort + AllocGlobal), image: &mut Image<Global>) {
    assert!(rt; found(image, 40_000) == (0, None, Some(40_000)));
    let edit = unmapping(image, 5, 40_000);
    let is_made = make(rt.alloc(), image, edit).is_some();
    assert!(rt; is_made);
    assert!(rt; found(image, 40_000) == (1, Some(40_000), None));
    assert!(rt; image.next_free(0, 40_001) == None);
    let place = lay(rt.alloc(), image, 40_000, 0);
    assert!(rt; place == Some(40_000));
    assert!(rt; found(image, 40_000) == (0, None, Some(40_000)));
}
