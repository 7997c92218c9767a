//! Images from bytes, and the line that says what came of them.
ghost use Rattle.std.specs.Prelude.{IfOk};
ghost use Rattle.kfs_program.specs.Images.Loading.{AppendsLine, AreRead, AreSound, LoadsWith};

use crate::report::{finding_line, image_line};
use kfs_fsck::{FsckFault, fsck};
use kfs_image::{Image, ImageFault, RawImage, decode_image};
use kfs_shape::{ShapeFault, check_shape};
use std::alloc::{AllocError, Allocator};
use std::thread::Threads;

/// The image that the bytes decode to, if it breaks no rule. Appends `ok`, or `image NAME` or the line of a
/// finding, which say why there is none.
///
/// Until the image is made, its rows are held beside it. Where `out` has 128 bytes of spare room, the
/// line takes no memory. After `Err`, where memory runs out, the line may be appended.
#[tactic(auto, using(crate::proofs::ImagesLemmas::Loads::broken, crate::proofs::ImagesLemmas::Loads::loaded))]
pub fn load<A: Allocator + Copy>(
    rt: &(impl Threads + Sync),
    alloc: A,
    bytes: &[u8],
    out: &mut Vec<u8, A>,
) -> Result<Option<Image<A>>, AllocError>
    ensures { IfOk result (λ image. AppendsLine out.old.items out.new.items (LoadsWith bytes.now image)) }
{
    let Some(raw) = read_rows(alloc, bytes, out)? else {
        return Ok(None);
    };
    match fsck(rt, alloc, raw) {
        Ok(image) => {
            out.extend_from_slice(b"ok\n")?;
            Ok(Some(image))
        }
        Err(FsckFault::Found(finding)) => {
            finding_line(out, &finding)?;
            Ok(None)
        }
        Err(FsckFault::OutOfMemory(_)) => Err(AllocError),
    }
}

/// The rows that the bytes decode to, if they break no rule. Where there are none, the line that says why is
/// appended.
#[tactic(auto, using(crate::proofs::ImagesLemmas::Loads::broken))]
pub(crate) fn sound_rows<A: Allocator + Copy>(
    alloc: A,
    bytes: &[u8],
    out: &mut Vec<u8, A>,
) -> Result<Option<RawImage<A>>, AllocError>
    ensures { IfOk result (λ rows. AreSound bytes.now out.old.items out.new.items rows) }
{
    let Some(raw) = read_rows(alloc, bytes, out)? else {
        return Ok(None);
    };
    match check_shape(alloc, &raw) {
        Ok(()) => Ok(Some(raw)),
        Err(ShapeFault::Found(finding)) => {
            finding_line(out, &finding)?;
            Ok(None)
        }
        Err(ShapeFault::OutOfMemory) => Err(AllocError),
    }
}

/// The rows that the bytes decode to. Where they decode to none, the line that says why is appended.
#[tactic(auto, using(crate::proofs::ImagesLemmas::Loads::unspelled))]
fn read_rows<A: Allocator + Copy>(
    alloc: A,
    bytes: &[u8],
    out: &mut Vec<u8, A>,
) -> Result<Option<RawImage<A>>, AllocError>
    ensures { IfOk result (λ rows. AreRead bytes.now out.old.items out.new.items rows) }
{
    match decode_image(alloc, bytes) {
        Ok(raw) => Ok(Some(raw)),
        Err(fault) => {
            if fault == ImageFault::OutOfMemory {
                return Err(AllocError);
            }
            image_line(out, fault)?;
            Ok(None)
        }
    }
}
