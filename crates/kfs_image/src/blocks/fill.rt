//! The blocks that a landing unmaps, and the blocks that it maps and writes. The places that become
//! free, and those that become used, when blocks change places.
ghost use Rattle.std.specs.Prelude.{◌≡◌, ◌∷◌, [], ◌≤◌, ◌<◌, map, IfSome, IfNone, IfOk, OnOk, ◌++◌};
ghost use Rattle.kfs_model.specs.Table.{pairs, numbers};
ghost use Rattle.kfs_maps.specs.Chunks.Edits.{KeysAscend};
ghost use Rattle.kfs_maps.specs.Chunks.Tables.{table_after, table};
ghost use Rattle.kfs_image.specs.Blocks.Fill.{less, mapped_by, placement_after, new_part, row_edit, row_part};
ghost use Rattle.kfs_image.specs.Blocks.Walks.{AreUnmapped, placed, seen, SeesMapped};
ghost use Rattle.kfs_image.specs.Blocks.Moves.{left_by, given_by, taken_by};

use crate::tier::{NewBlock, Place};
use kfs_maps::{Chunks, KeyEdit, Near, Overlay, key_edits, push_above};
use std::alloc::{AllocError, Allocator};
use std::ops::Bound;

/// A run of blocks of one file: from `first` on, below `end`. It is empty where `end` isn't above
/// `first`.
#[derive(Clone, Copy, Debug, PartialEq, Eq)]
pub struct BlockRun {
    /// The number of the file.
    pub number: u32,
    /// The first block, from 0.
    pub first: u32,
    /// The block after the last.
    pub end: u32,
}

/// A block of a file that a landing writes.
#[derive(Debug, Drop)]
pub struct BlockRow<A: Allocator> {
    /// The number of the file.
    pub number: u32,
    /// The block of the file, from 0.
    pub block: u32,
    /// The place on a tier at which it is put.
    pub place: Place,
    /// Its 4,096 bytes.
    pub bytes: Vec<u8, A>,
}

/// Edits of the blocks of files, all of which are made by one change.
#[derive(Drop)]
pub struct BlockEdits<A: Allocator> {
    /// The new places of blocks, ascending; none for a block that is unmapped.
    pub places: Vec<KeyEdit<(u32, u32), Place>, A>,
    /// The blocks to be written, in order.
    pub written: Vec<NewBlock<A>, A>,
}

/// The changes of places that unmap the blocks in the runs and then map the rows' blocks, ascending.
pub(crate) fn fill_edits<A: Allocator + Clone>(
    placement: &Chunks<(u32, u32), Place, A>,
    released: &[BlockRun],
    rows: &[BlockRow<A>],
) -> Result<Vec<KeyEdit<(u32, u32), Place>, A>, AllocError>
    ensures ascend { IfOk result (λ edits. KeysAscend (pairs numbers numbers).compare edits.items) }
    ensures placed { IfOk result (λ edits. table_after (placed placement.now) edits.items ≡ placement_after released.now rows.now (placed placement.now)) }
{
    let mut overlay = Overlay::new(placement.allocator().clone()?);
    for run in released {
        unmap(&mut overlay, placement, run)?;
    }
    if overlay.latest.is_empty()
        && let Some(edits) = rows_in_order(placement.allocator(), rows)?
    {
        return Ok(edits);
    }
    edits_over(overlay, placement, rows)
}

/// The rows as edits, or none where their blocks don't ascend.
fn rows_in_order<A: Allocator + Clone>(
    alloc: &A,
    rows: &[BlockRow<A>],
) -> Result<Option<Vec<KeyEdit<(u32, u32), Place>, A>>, AllocError>
    ensures rows { IfOk result (λ made. IfSome made (λ edits. edits.items ≡ map row_edit rows.now)) }
    ensures ascend { IfOk result (λ made. IfSome made (λ edits. KeysAscend (pairs numbers numbers).compare edits.items)) }
{
    let mut edits = Vec::with_capacity(alloc.clone()?, rows.len())?;
    for row in rows {
        if !push_above(&mut edits, (row.number, row.block), Some(row.place))? {
            return Ok(None);
        }
    }
    Ok(Some(edits))
}

/// The changes of the overlay, and then those that map the rows' blocks.
fn edits_over<A: Allocator + Clone>(
    overlay: Overlay<(u32, u32), Place, A>,
    placement: &Chunks<(u32, u32), Place, A>,
    rows: &[BlockRow<A>],
) -> Result<Vec<KeyEdit<(u32, u32), Place>, A>, AllocError>
    ensures ascend { IfOk result (λ edits. KeysAscend (pairs numbers numbers).compare edits.items) }
    ensures placed { IfOk result (λ edits. table_after (placed placement.now) edits.items ≡ mapped_by rows.now (seen overlay placement.now)) }
{
    let mut overlay = overlay;
    for row in rows {
        overlay.set((row.number, row.block), Some(row.place))?;
    }
    let edits = key_edits(placement.allocator(), &overlay)?;
    Ok(edits)
}

/// Marks each mapped block of the run as unmapped.
fn unmap<A: Allocator + Clone>(
    overlay: &mut Overlay<(u32, u32), Place, A>,
    placement: &Chunks<(u32, u32), Place, A>,
    run: &BlockRun,
) -> Result<(), AllocError>
    requires { SeesMapped placement.now overlay.old }
    ensures { OnOk result (seen overlay.new placement.now ≡ less (run.now ∷ []) (seen overlay.old placement.now)) }
{
    let mut from = run.first;
    while let Some(block) = next_mapped(placement, run.number, from, run.end) {
        overlay.set((run.number, block), None)?;
        from = block + 1;
    }
    Ok(())
}

/// The file's least mapped block from `from` on and below `end`, or none.
fn next_mapped<A: Allocator>(
    placement: &Chunks<(u32, u32), Place, A>,
    number: u32,
    from: u32,
    end: u32,
) -> Option<u32>
    ensures range { IfSome result (λ block. (from ≤ block) × (block < end)) }
    ensures between { IfSome result (λ block. AreUnmapped placement.now number from block) }
    ensures none { IfNone result (AreUnmapped placement.now number from end) }
{
    let (key, _) = placement.next(Bound::Included(&(number, from)))?;
    if key.0 == number && key.1 < end {
        Some(key.1)
    } else {
        None
    }
}

/// The rows' blocks with copies of their bytes.
pub(crate) fn copies<A: Allocator + Clone>(
    alloc: &A,
    rows: &[BlockRow<A>],
) -> Result<Vec<NewBlock<A>, A>, AllocError>
    ensures { IfOk result (λ written. map new_part written.items ≡ map row_part rows.now) }
{
    let mut written = Vec::new(alloc.clone()?);
    for row in rows {
        let mut bytes = Vec::new(alloc.clone()?);
        bytes.extend_from_slice(row.bytes.as_slice())?;
        written.push(NewBlock {
            place: row.place,
            bytes,
        })?;
    }
    Ok(written)
}

/// The rows' blocks with their bytes, none of which is copied.
pub(crate) fn moved<A: Allocator + Clone>(
    alloc: &A,
    rows: Vec<BlockRow<A>, A>,
) -> Result<Vec<NewBlock<A>, A>, AllocError>
    ensures { IfOk result (λ written. map new_part written.items ≡ map row_part rows.items) }
{
    let mut written = Vec::with_capacity(alloc.clone()?, rows.len())?;
    for row in rows {
        let BlockRow {
            number: _,
            block: _,
            place,
            bytes,
        } = row;
        written.push(NewBlock { place, bytes })?;
    }
    Ok(written)
}

/// The places that become free, and the places that become used.
#[derive(Drop)]
pub(crate) struct Moves<A: Allocator> {
    pub(crate) given: Vec<Place, A>,
    pub(crate) taken: Vec<Place, A>,
}

/// The places that the edits free, and those that they use. A block that keeps its place counts as
/// neither.
impl<A: Allocator + Clone> Moves<A> {
    /// The places that blocks leave by the edits, and those that they enter. A block that keeps its
    /// place has no part in it. A block is found faster where it is near the last one; `near` becomes the
    /// place of the last of these.
    pub(crate) fn of(
        alloc: &A,
        placement: &Chunks<(u32, u32), Place, A>,
        near: &mut Near,
        edits: &[KeyEdit<(u32, u32), Place>],
    ) -> Result<Moves<A>, AllocError>
        ensures given { IfOk result (λ moves. moves.given.items ≡ given_by (table (pairs numbers numbers) placement.now) edits.now) }
        ensures taken { IfOk result (λ moves. moves.taken.items ≡ taken_by (table (pairs numbers numbers) placement.now) edits.now) }
    {
        let mut given = Vec::with_capacity(alloc.clone()?, edits.len())?;
        let mut taken = Vec::with_capacity(alloc.clone()?, edits.len())?;
        let mut found = false;
        for edit in edits {
            let was = placement.get_near(near, &edit.key).copied();
            found = was.is_some();
            push_left(&mut given, was, edit.value)?;
            push_left(&mut taken, edit.value, was)?;
        }
        *near = near.at_key(found);
        Ok(Moves { given, taken })
    }
}

/// Adds the place that a block had, if it isn't there any more.
fn push_left<A: Allocator + Clone>(
    places: &mut Vec<Place, A>,
    was: Option<Place>,
    is: Option<Place>,
) -> Result<(), AllocError>
    ensures { OnOk result (places.new.items ≡ places.old.items ++ left_by was is) }
{
    if let Some(place) = was
        && is != was
    {
        places.push(place)?;
    }
    Ok(())
}
