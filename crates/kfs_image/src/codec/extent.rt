//! An extent's row: number, block, tier, place, count, and the bytes of its blocks.
ghost use Rattle.std.specs.Prelude.{◌≡◌, ◌≤◌, All, length, drop, map, IfSome, IfOk};
ghost use Rattle.kfs_types.specs.Views.{span_bytes};
ghost use Rattle.kfs_model.proofs.DeviceLemmas.ImageReading.{blocks_read, extent_read};
ghost use Rattle.kfs_entry.specs.Codec.Reading.{seen};
ghost use Rattle.kfs_image.specs.Codec.RawImages.{extent_row_of};
ghost use Rattle.kfs_image.specs.Codec.Extents.{extent_in, IsInSource};

use crate::codec::limited;
use crate::codec::raw::{Extent, ExtentRow};
use kfs_entry::codec::{byte, bytes, number32};
use kfs_entry::{ReadRow, SpelledRow};
use kfs_types::{BLOCK_LEN, Span, TIER_LIMIT};
use std::alloc::{AllocError, Allocator};

/// The greatest block that a file of 2^32 bytes has.
const GREATEST_BLOCK: u32 = 1_048_575;

/// An extent whose bytes are a span of the source.
#[derive(Clone, Copy)]
pub struct SpannedExtent {
    /// The number of the file.
    pub number: u32,
    /// Which blocks, and where they lie.
    pub extent: Extent,
    /// The bytes of the blocks, in order.
    pub bytes: Span,
}

/// The count of blocks at position `at`, the span of their bytes behind it, and the position after
/// these; none where there are no such blocks.
#[tactic(auto, unfolding(kfs_model::proofs::DeviceLemmas::ImageReading::blocks_read))]
fn read_blocks(source: &[u8], at: usize) -> Option<((u32, Span), usize)>
    requires { at ≤ length source.now }
    ensures value { seen (λ run. (run.0, span_bytes source.now run.1)) source.now result ≡ blocks_read (drop at source.now) }
    ensures within { IfSome result (λ x. (x.0.1.start ≤ x.0.1.end) × (x.0.1.end ≤ x.1) × (x.1 ≤ length source.now)) }
{
    let (count, start) = limited::read(source, at, TIER_LIMIT)?;
    if count < 1 {
        return None;
    }
    let (_, end) = bytes::run(source, start, count as usize * BLOCK_LEN)?;
    Some(((count, Span { start, end }), end))
}

#[tactic(auto, unfolding(kfs_model::proofs::DeviceLemmas::ImageReading::extent_read))]
fn read_row(source: &[u8], at: usize) -> Option<(SpannedExtent, usize)>
    requires { at ≤ length source.now }
    ensures value { seen (extent_in source.now) source.now result ≡ extent_read (drop at source.now) }
    ensures within { IfSome result (λ x. IsInSource (length source.now) x.0 × (x.1 ≤ length source.now)) }
{
    let (number, at) = number32::read(source, at)?;
    let (block, at) = limited::read(source, at, GREATEST_BLOCK)?;
    let (tier, at) = limited::read_tier(source, at)?;
    let (place, at) = limited::read(source, at, TIER_LIMIT - 1)?;
    let ((count, bytes), at) = read_blocks(source, at)?;
    let extent = Extent {
        block,
        tier,
        place,
        count,
    };
    let row = SpannedExtent {
        number,
        extent,
        bytes,
    };
    Some((row, at))
}

impl SpelledRow for SpannedExtent {
    ghost use Rattle.std.specs.Prelude.{length};
    ghost use Rattle.kfs_model.specs.Device.Spelling.{extent_bytes};
    ghost use Rattle.kfs_image.specs.Codec.Extents.{extent_in, IsInSource};

    ghost spelling = { λ source row. extent_bytes (extent_in source row) };

    ghost can_write = { λ source row. IsInSource (length source) row };

    fn write<A: Allocator>(&self, out: &mut Vec<u8, A>, source: &[u8]) -> Result<(), AllocError> {
        number32::write(out, source, &self.number)?;
        number32::write(out, source, &self.extent.block)?;
        out.push(self.extent.tier)?;
        number32::write(out, source, &self.extent.place)?;
        number32::write(out, source, &self.extent.count)?;
        out.extend_from_slice(&source[self.bytes.start..self.bytes.end])
    }

    #[tactic(auto, unfolding(kfs_model::specs::Spelling::number32))]
    fn len(&self, source: &[u8]) -> usize {
        17 + source[self.bytes.start..self.bytes.end].len()
    }
}

impl<'s> ReadRow<'s> for SpannedExtent {
    ghost use Rattle.std.specs.Prelude.{length};
    ghost use Rattle.kfs_model.specs.Spelling.{Begins};
    ghost use Rattle.kfs_model.specs.Device.Spelling.{IsExtentRow, extent_bytes};
    ghost use Rattle.kfs_image.specs.Codec.Extents.{extent_in, IsInSource};

    ghost fits = { λ _ source row. IsInSource (length source) row × IsExtentRow (extent_in source row) };

    ghost begins = { λ _. Begins IsExtentRow extent_bytes };

    fn read(_version: u8, source: &'s [u8], at: usize) -> Option<(Self, usize)> {
        read_row(source, at)
    }
}

/// The row with a copy of its bytes. `Err` where memory runs out.
fn copied<A: Allocator>(
    alloc: A,
    source: &[u8],
    row: &SpannedExtent,
) -> Result<ExtentRow<A>, AllocError>
    requires { IsInSource (length source.now) row.now }
    ensures { IfOk result (λ copy. extent_row_of copy ≡ extent_in source.now row.now) }
{
    let span = &source[row.bytes.start..row.bytes.end];
    let mut bytes = Vec::with_capacity(alloc, span.len())?;
    bytes.extend_from_slice(span)?;
    Ok(ExtentRow {
        number: row.number,
        extent: row.extent,
        bytes,
    })
}

/// The rows with copies of their bytes. `Err` where memory runs out.
pub fn copies<A: Allocator + Clone>(
    alloc: A,
    source: &[u8],
    rows: &[SpannedExtent],
) -> Result<Vec<ExtentRow<A>, A>, AllocError>
    requires { All (IsInSource (length source.now)) rows.now }
    ensures { IfOk result (λ copies. map extent_row_of copies.items ≡ map (extent_in source.now) rows.now) }
{
    let mut copies = Vec::with_capacity(alloc.clone()?, rows.len())?;
    for row in rows {
        copies.push(copied(alloc.clone()?, source, row)?)?;
    }
    Ok(copies)
}
