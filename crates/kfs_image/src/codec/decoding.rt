//! Raw images from bytes.
ghost use Rattle.std.specs.Prelude.{◌≡◌, ◌≤◌, Result, length, drop, IfOk, IfErr};
ghost use Rattle.kfs_model.specs.Device.RawImage.{RawImage as RawImageValue};
ghost use Rattle.kfs_model.specs.Device.Spelling.{ImageSpellingFault, ImageAnswer};
ghost use Rattle.kfs_entry.specs.Codec.RowList.{AreRead};
ghost use Rattle.kfs_image.specs.Codec.Answers.{ImageRowMissing, OnImageAnswer};
ghost use Rattle.kfs_image.specs.Codec.RawImages.{raw_of};

use crate::codec::extent::{SpannedExtent, copies};
use crate::codec::fault::ImageFault;
use crate::codec::header;
use crate::codec::raw::{RawImage, RawNode};
use kfs_entry::{ReadRow, RowsFault, read_rows};
use kfs_types::NameRow;
use std::alloc::Allocator;

/// Reads the rows of one part of an image of this version. The parts before it have `earlier` rows.
fn part<'s, R: ReadRow<'s>, A: Allocator>(
    alloc: A,
    version: u8,
    source: &'s [u8],
    at: usize,
    count: u32,
    earlier: u64,
) -> Result<(Vec<R, A>, usize), ImageFault>
    requires inside { at ≤ length source.now }
    requires earlier { earlier ≤ 8589934590 }
    ensures found { IfOk result (λ x. AreRead (R.fits version source.now) (R.spelling source.now) source.now at count x.0.items x.1) }
    ensures missing { IfErr result (ImageRowMissing (R.fits version source.now) (R.spelling source.now) (R.begins version) earlier count (drop at source.now)) }
{
    match read_rows(alloc, version, source, at, count) {
        Ok(read) => Ok(read),
        Err(RowsFault::BadRow(k)) => Err(ImageFault::BadImageRow(earlier + u64::from(k))),
        Err(RowsFault::OutOfMemory) => Err(ImageFault::OutOfMemory),
    }
}

/// `decode_image`, with the first of its clauses.
fn image_in<A: Allocator + Clone>(alloc: A, source: &[u8]) -> Result<RawImage<A>, ImageFault>
    ensures { OnImageAnswer raw_of (ImageAnswer source.now) result }
{
    let Some((header, at)) = header::read(source) else {
        return Err(ImageFault::BadImageHeader);
    };
    let version = header.version;
    let before_names = u64::from(header.nodes);
    let before_extents = before_names + u64::from(header.names);
    let first = alloc.clone()?;
    let second = alloc.clone()?;
    let third = alloc.clone()?;
    let (nodes, at) = part::<RawNode, A>(first, version, source, at, header.nodes, 0)?;
    let (names, at) = part::<NameRow, A>(second, version, source, at, header.names, before_names)?;
    let (spanned, end) = part::<SpannedExtent, A>(
        third,
        version,
        source,
        at,
        header.extents,
        before_extents,
    )?;
    if end < source.len() {
        return Err(ImageFault::ImageTrailing);
    }
    let extents = copies(alloc, source, spanned.as_slice())?;
    Ok(RawImage {
        version,
        sizes: header.sizes,
        nodes,
        names,
        extents,
    })
}

/// Reads an image of version 1 or 2 from bytes, as rows that nobody has checked. All of `source` must be
/// the image.
///
/// The lists grow from `alloc` as rows are read, and no count of the header reserves anything. The bytes
/// of extents are copied when all rows have been read. Refused with `BadImageHeader`, `BadImageRow(k)` or
/// `ImageTrailing` where the bytes leave the format, and with `OutOfMemory` where memory runs out;
/// nothing is kept then.
pub fn decode_image<A: Allocator + Clone>(
    alloc: A,
    source: &[u8],
) -> Result<RawImage<A>, ImageFault>
    // Soundness: the answer is right for these bytes.
    ensures found { OnImageAnswer raw_of (ImageAnswer source.now) result }
    // Completeness: the right answer is given, unless memory runs out.
    ensures only { (answer : Result RawImageValue ImageSpellingFault) → ImageAnswer source.now answer → OnImageAnswer raw_of (λ given. given ≡ answer) result }
{
    image_in(alloc, source)
}
