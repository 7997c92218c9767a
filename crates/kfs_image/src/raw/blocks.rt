//! The blocks of files that the extents of a raw image make.
ghost use Rattle.std.specs.Prelude.{◌≡◌, ◌<◌, ◌++◌, All, map, IfOk, OnOk};
ghost use Rattle.std.specs.List.{flat_map};
ghost use Rattle.kfs_model.specs.Device.RawImage.{IsSpelled, place_in, bytes_in, places_in, blocks_in};
ghost use Rattle.kfs_model.specs.Device.Finding.{IsWellFormed};
ghost use Rattle.kfs_image.specs.Codec.RawImages.{extent_row_of, raw_of};
ghost use Rattle.kfs_image.specs.Raw.Blocks.{HasItsBlocks, blocks_of_raw, placed_row, written_row};

use crate::blocks::{BlockEdits, BlockRow, FileBlocks, Place};
use crate::codec::{ExtentRow, RawImage};
use kfs_types::BLOCK_LEN;
use std::alloc::{AllocError, Allocator};

/// The blocks of a raw image's extents at their places, with copies of their bytes. `Err` where memory is
/// refused.
pub fn raw_blocks<A: Allocator + Clone>(
    alloc: &A,
    raw: &RawImage<A>,
) -> Result<FileBlocks<A>, AllocError>
    requires spelled { IsSpelled (raw_of raw.now) }
    requires well_formed { IsWellFormed (raw_of raw.now) }
    ensures { IfOk result (λ blocks. blocks ≡ blocks_of_raw (raw_of raw.now)) }
{
    let rows = block_rows(alloc, raw.extents.as_slice())?;
    let mut blocks = FileBlocks::new(alloc.clone()?, raw.sizes)?;
    let BlockEdits { places, written } = blocks.moved_edits(&[], rows)?;
    blocks.change(places.as_slice(), written)?;
    Ok(blocks)
}

/// The blocks of the extents, one after another.
fn block_rows<A: Allocator + Clone>(
    alloc: &A,
    extents: &[ExtentRow<A>],
) -> Result<Vec<BlockRow<A>, A>, AllocError>
    requires { All HasItsBlocks extents.now }
    ensures placed { IfOk result (λ rows. map placed_row rows.items ≡ flat_map (λ e. places_in (extent_row_of e)) extents.now) }
    ensures written { IfOk result (λ rows. map written_row rows.items ≡ flat_map (λ e. blocks_in (extent_row_of e)) extents.now) }
{
    let mut rows = Vec::new(alloc.clone()?);
    for extent in extents {
        push_blocks(alloc, &mut rows, extent)?;
    }
    Ok(rows)
}

/// Adds the blocks of an extent.
fn push_blocks<A: Allocator + Clone>(
    alloc: &A,
    rows: &mut Vec<BlockRow<A>, A>,
    extent: &ExtentRow<A>,
) -> Result<(), AllocError>
    requires { HasItsBlocks extent.now }
    ensures placed { OnOk result (map placed_row rows.new.items ≡ map placed_row rows.old.items ++ places_in (extent_row_of extent.now)) }
    ensures written { OnOk result (map written_row rows.new.items ≡ map written_row rows.old.items ++ blocks_in (extent_row_of extent.now)) }
{
    for index in 0..extent.extent.count {
        rows.push(block_row(alloc, extent, index)?)?;
    }
    Ok(())
}

/// The extent's block with this index, with a copy of its bytes.
fn block_row<A: Allocator + Clone>(
    alloc: &A,
    extent: &ExtentRow<A>,
    index: u32,
) -> Result<BlockRow<A>, AllocError>
    requires blocks { HasItsBlocks extent.now }
    requires index { index < extent.now.extent.count }
    ensures placed { IfOk result (λ row. placed_row row ≡ place_in (extent_row_of extent.now) index) }
    ensures written { IfOk result (λ row. written_row row ≡ bytes_in (extent_row_of extent.now) index) }
{
    let start = index as usize * BLOCK_LEN;
    let all = extent.bytes.as_slice();
    let mut bytes = Vec::with_capacity(alloc.clone()?, BLOCK_LEN)?;
    bytes.extend_from_slice(&all[start..start + BLOCK_LEN])?;
    Ok(BlockRow {
        number: extent.number,
        block: extent.extent.block + index,
        place: Place {
            tier: extent.extent.tier,
            place: extent.extent.place + index,
        },
        bytes,
    })
}
