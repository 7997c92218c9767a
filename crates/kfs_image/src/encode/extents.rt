//! The extent rows of an image: runs of blocks, and the bytes of their files.
ghost use Rattle.std.specs.Prelude.{◌≡◌, ◌++◌, ◌+◌, ◌≤◌, [], ◌∷◌, length, replicate, IsTrue, IsFalse, IfSome, IfNone, IfOk, OnOk};
ghost use Rattle.std.specs.List.{flat_map};
ghost use Rattle.std.specs.declared.ops.Bound.TheVariants.{Excluded};
ghost use Rattle.kfs_model.specs.Limits.{block_size};
ghost use Rattle.kfs_model.specs.Table.{get};
ghost use Rattle.kfs_model.specs.Tree.{content_of};
ghost use Rattle.kfs_model.specs.Device.ShownTree.{IsLawful, shown_tree};
ghost use Rattle.kfs_model.specs.Device.Canonical.{block_of, extents_of};
ghost use Rattle.kfs_model.specs.Device.Spelling.{extent_bytes, greatest_block};
ghost use Rattle.kfs_image.specs.Encode.Rows.{entries_from};
ghost use Rattle.kfs_image.specs.Encode.Runs.{run_extent, last_block, next_entry, extents_from, Ends};

use crate::encode::counts::Rows;
use crate::encode::run::Run;
use crate::{Image, read_file};
use kfs_entry::codec::number32;
use kfs_types::BLOCK_LEN;
use std::alloc::{AllocError, Allocator};
use std::ops::Bound;

/// The bytes of an extent's row, apart from those of its blocks.
const LEN: usize = 17;

/// Whether the mapped block behind the run's last goes on from it.
fn goes_on<A: Allocator>(image: &Image<A>, run: &Run) -> bool
    requires lawful { IsLawful image.now }
    requires small { run.now.block + run.now.more ≤ greatest_block }
    ensures on { IsTrue result → entries_from (Excluded (last_block run.now)) image.now.placement ≡ next_entry run.now ∷ entries_from (Excluded (next_entry run.now).0) image.now.placement }
    ensures small { IsTrue result → run.now.block + (run.now.more + 1) ≤ greatest_block }
    ensures end { IsFalse result → Ends image.now run.now }
{
    match image.next_block(&Bound::Excluded(run.last())) {
        Some(mapped) => run.is_next(mapped),
        None => false,
    }
}

/// The first run of blocks at the bound or behind it, as long as it goes on; or none.
fn next_run<A: Allocator>(image: &Image<A>, start: &Bound<(u32, u32)>) -> Option<Run>
    requires { IsLawful image.now }
    ensures first { IfSome result (λ run. extents_from image.now start.now ≡ run_extent (shown_tree image.now) run ∷ extents_from image.now (Excluded (last_block run))) }
    ensures small { IfSome result (λ run. run.block + run.more ≤ greatest_block) }
    ensures none { IfNone result (extents_from image.now start.now ≡ []) }
{
    let first = image.next_block(start)?;
    let mut run = Run::of(first);
    'longer: while goes_on(image, &run) {
        run.more += 1;
    }
    Some(run)
}

/// How many extents there are, and the bytes of their rows.
pub(crate) fn count_extents<A: Allocator>(image: &Image<A>) -> Result<Rows, AllocError>
    requires { IsLawful image.now }
    ensures { IfOk result (λ rows. rows.count ≡ length (extents_of (shown_tree image.now) image.now.placement)) }
{
    let mut rows = Rows::none();
    let mut start = Bound::Unbounded;
    while let Some(extent) = next_run(image, &start) {
        rows = rows.and_one(LEN + (extent.more as usize + 1) * BLOCK_LEN)?;
        start = Bound::Excluded(extent.last());
    }
    Ok(rows)
}

/// Appends the rows of the extents, ascending by file number and block. `Err` where memory runs out.
pub(crate) fn write_extents<A: Allocator, B: Allocator>(
    out: &mut Vec<u8, B>,
    image: &Image<A>,
) -> Result<(), AllocError>
    requires { IsLawful image.now }
    ensures { OnOk result (out.new.items ≡ out.old.items ++ flat_map extent_bytes (extents_of (shown_tree image.now) image.now.placement)) }
{
    let mut start = Bound::Unbounded;
    while let Some(extent) = next_run(image, &start) {
        write_run(out, image, &extent)?;
        start = Bound::Excluded(extent.last());
    }
    Ok(())
}

/// Appends the row of a run.
fn write_run<A: Allocator, B: Allocator>(
    out: &mut Vec<u8, B>,
    image: &Image<A>,
    run: &Run,
) -> Result<(), AllocError>
    requires { run.now.block + run.now.more ≤ greatest_block }
    ensures { OnOk result (out.new.items ≡ out.old.items ++ extent_bytes (run_extent (shown_tree image.now) run.now)) }
{
    number32::write(out, &[], &run.number)?;
    number32::write(out, &[], &run.block)?;
    out.push(run.tier)?;
    number32::write(out, &[], &run.place)?;
    number32::write(out, &[], &(run.more + 1))?;
    write_blocks(out, image, run)
}

/// Appends the bytes of a run's blocks.
fn write_blocks<A: Allocator, B: Allocator>(
    out: &mut Vec<u8, B>,
    image: &Image<A>,
    run: &Run,
) -> Result<(), AllocError>
    requires { run.now.block + run.now.more ≤ greatest_block }
    ensures { OnOk result (out.new.items ≡ out.old.items ++ (run_extent (shown_tree image.now) run.now).bytes) }
{
    for index in 0..run.more + 1 {
        write_block(out, image, run.number, run.block + index)?;
    }
    Ok(())
}

/// Appends the bytes of a block, those past the file's end as zero.
fn write_block<A: Allocator, B: Allocator>(
    out: &mut Vec<u8, B>,
    image: &Image<A>,
    number: u32,
    block: u32,
) -> Result<(), AllocError>
    ensures { OnOk result (out.new.items ≡ out.old.items ++ block_of (content_of (get (shown_tree image.now).nodes number)) block) }
{
    let len = out.len();
    push_zeros(out)?;
    read_block(image, number, block, &mut out[len..]);
    Ok(())
}

/// Appends a block of zero bytes, in one piece: `resize` writes one byte after another.
fn push_zeros<B: Allocator>(out: &mut Vec<u8, B>) -> Result<(), AllocError>
    ensures { OnOk result (out.new.items ≡ out.old.items ++ replicate block_size 0) }
{
    out.extend_from_slice(&[0u8; BLOCK_LEN])
}

/// Reads a block over zero bytes.
fn read_block<A: Allocator>(image: &Image<A>, number: u32, block: u32, bytes: &mut [u8])
    requires zero { bytes.old ≡ replicate (length bytes.old) 0 }
    requires whole { length bytes.old ≡ block_size }
    ensures { bytes.new ≡ block_of (content_of (get (shown_tree image.now).nodes number)) block }
{
    let start = u64::from(block) * BLOCK_LEN as u64;
    // Bytes past the file's end stay zero, so the count doesn't matter.
    let _count = read_file(image, number, start, bytes);
}
