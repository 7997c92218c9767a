//! The checker: the check by all ten rules, and the image of rows that break none.
ghost use Rattle.std.specs.Prelude.{◌≡◌, IfOk, IfErr};
ghost use Rattle.kfs_model.specs.Device.RawImage.{image_of};
ghost use Rattle.kfs_model.specs.Device.Finding.{IsWellFormed};
ghost use Rattle.kfs_image.specs.Codec.RawImages.{raw_of};
ghost use Rattle.kfs_image.specs.Raw.Rows.{AreHeaders};
ghost use Rattle.kfs_fsck.specs.Faults.{Tells};

use crate::fault::FsckFault;
use crate::parts::InParts;
use kfs_image::{Header, Image, RawImage};
use kfs_maps::Pages;
use kfs_shape::{ShapeFault, check_keeping};
use std::alloc::Allocator;
use std::thread::Threads;

/// Lets a raw image in: the image of its rows, if they break none of the ten rules of
/// crates/kfs_model/specs/Device/Rules.antt. What is found is what `check_shape` finds. The order of
/// names is tested in several threads, and uplinks that don't ascend are sorted in several.
///
/// Refused with `Found`, the least rule that is broken and the least number at which it is, or with
/// `OutOfMemory` where memory runs out; then the raw image comes back as it was.
pub fn fsck<A: Allocator + Copy>(
    rt: &(impl Threads + Sync),
    alloc: A,
    raw: RawImage<A>,
) -> Result<Image<A>, FsckFault<A>>
    ensures well_formed { IfOk result (λ image. IsWellFormed (raw_of raw)) }
    ensures image { IfOk result (λ image. image ≡ image_of (raw_of raw)) }
    ensures fault { IfErr result (Tells raw) }
{
    match check_keeping(alloc, &raw, &InParts { threads: rt }) {
        Ok(headers) => image_from(rt, alloc, raw, headers),
        Err(ShapeFault::Found(finding)) => Err(FsckFault::Found(finding)),
        Err(ShapeFault::OutOfMemory) => Err(FsckFault::OutOfMemory(raw)),
    }
}

/// The image of rows that break no rule, given their headers.
fn image_from<A: Allocator + Copy>(
    rt: &(impl Threads + Sync),
    alloc: A,
    raw: RawImage<A>,
    headers: Pages<Header, A>,
) -> Result<Image<A>, FsckFault<A>>
    requires well_formed { IsWellFormed (raw_of raw) }
    requires headers { AreHeaders headers raw }
    ensures well_formed { IfOk result (λ image. IsWellFormed (raw_of raw)) }
    ensures image { IfOk result (λ image. image ≡ image_of (raw_of raw)) }
    ensures fault { IfErr result (Tells raw) }
{
    match Image::from_raw_with(alloc, &InParts { threads: rt }, raw, headers) {
        Ok(image) => Ok(image),
        Err(back) => Err(FsckFault::OutOfMemory(back)),
    }
}
