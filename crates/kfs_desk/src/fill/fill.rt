//! The fill of a landing: the blocks that it writes and those that it clears. The change of a landing,
//! bytes included. The places at which a landing puts blocks.
ghost use Rattle.std.specs.Prelude.{◌≡◌, ◌++◌, IfOk, map, OnErr, OnOk, take};
ghost use Rattle.std.specs.List.{AllByRecursion};
ghost use Rattle.kfs_types.specs.Views.{piece_of};
ghost use Rattle.kfs_pieces.specs.TouchedBlocks.{touches};
ghost use Rattle.kfs_model.specs.Plan.{PiecesAscend};
ghost use Rattle.kfs_pieces.specs.BlockLists.{cleared_runs, listed};
ghost use Rattle.kfs_pieces.specs.Lefts.{IsFilled, PieceIsInRange};
ghost use Rattle.kfs_pieces.specs.Parts.{AreByNumber};
ghost use Rattle.kfs_image_nodes.specs.Change.{reheaded};
ghost use Rattle.kfs_image_nodes.specs.Lent.{net_in};
ghost use Rattle.kfs_desk.specs.Fill.Bytes.{pieces_of, BlocksAscend, HasPayloads};
ghost use Rattle.kfs_desk.specs.Fill.FillOf.{AreMadeZero, AreWritten, IsFillOf, run_of, size_among, CanLandWith, HasLandedWith};
ghost use Rattle.kfs_image.specs.Tier.Unused.{unused_places};

use crate::fill::bytes::LogBytes;
use crate::fill::rows::block_rows;
use kfs_image::{BlockRun, Fill, Image, header_after, net_apply_moving};
use kfs_image_nodes::{LentNet, NodeChanges};
use kfs_pieces::{cleared_in, front_len, written_in};
use kfs_types::Piece;
use std::alloc::{AllocError, Allocator};

/// The blocks that a log writes, ascending, and the runs of those that it makes zero.
#[derive(Drop)]
struct FileBlocks<A: Allocator> {
    written: Vec<(u32, u32), A>,
    zero: Vec<BlockRun, A>,
}

/// The size of a file after the rows, 0 where there is no file.
fn size_after<A: Allocator>(image: &Image<A>, nodes: &NodeChanges<'_, A>, number: u32) -> u64
    ensures { result ≡ size_among (reheaded image.now.heads nodes.now) number }
{
    match header_after(image, nodes, number) {
        Some(header) => header.size,
        None => 0,
    }
}

/// Adds the blocks that the pieces of one file write; `size` is the file's size after the log.
fn add_written<A: Allocator + Copy>(
    alloc: A,
    out: &mut Vec<(u32, u32), A>,
    number: u32,
    pieces: &[Piece],
    size: u64,
) -> Result<(), AllocError>
    requires whole { AllByRecursion PieceIsInRange pieces.now }
    requires filled { AllByRecursion IsFilled pieces.now }
    ensures { IfOk result (λ _. out.new.items ≡ out.old.items ++ map (λ block. (number, block)) (listed 0 (touches size 0 (map piece_of pieces.now)))) }
{
    let blocks = written_in(alloc, pieces, size)?;
    for &block in blocks.iter() {
        out.push((number, block))?;
    }
    Ok(())
}

/// Adds the runs of blocks that the pieces of one file make zero; `size` is the file's size after the
/// log.
fn add_cleared<A: Allocator + Copy>(
    alloc: A,
    out: &mut Vec<BlockRun, A>,
    number: u32,
    pieces: &[Piece],
    size: u64,
) -> Result<(), AllocError>
    requires { AllByRecursion PieceIsInRange pieces.now }
    ensures { IfOk result (λ _. out.new.items ≡ out.old.items ++ map (run_of number) (cleared_runs size (map piece_of pieces.now))) }
{
    let ranges = cleared_in(alloc, pieces, size)?;
    for range in ranges.iter() {
        out.push(BlockRun {
            number,
            first: range.first,
            end: range.end,
        })?;
    }
    Ok(())
}

/// The blocks of all files that right pieces write or make zero; the rows say which sizes files have
/// after the log.
fn file_blocks<A: Allocator + Copy>(
    alloc: A,
    image: &Image<A>,
    pieces: &[Piece],
    nodes: &NodeChanges<'_, A>,
) -> Result<FileBlocks<A>, AllocError>
    requires order { AreByNumber 0 pieces.now }
    requires whole { AllByRecursion PieceIsInRange pieces.now }
    requires filled { AllByRecursion IsFilled pieces.now }
    ensures order { IfOk result (λ blocks. BlocksAscend blocks.written.items) }
    ensures written { IfOk result (λ blocks. AreWritten (reheaded image.now.heads nodes.now) (map piece_of pieces.now) blocks.written.items) }
    ensures zero { IfOk result (λ blocks. AreMadeZero (reheaded image.now.heads nodes.now) (map piece_of pieces.now) blocks.zero.items) }
{
    let mut written = Vec::new(alloc);
    let mut zero = Vec::new(alloc);
    let mut rest = pieces;
    while let Some(first) = rest.first() {
        let number = first.number;
        let (part, behind) = rest.split_at(front_len(rest, number));
        let size = size_after(image, nodes, number);
        add_written(alloc, &mut written, number, part, size)?;
        add_cleared(alloc, &mut zero, number, part, size)?;
        rest = behind;
    }
    Ok(FileBlocks { written, zero })
}

/// The fill of a log: its written blocks, at the least free places of tier 0, and the runs of blocks
/// that it makes zero. Where there are fewer free places than written blocks, only the first blocks
/// have rows.
///
/// `nodes` are the rows of the log's net. Condition: the pieces ascend, none is empty, and they and the
/// payloads are in range. Bytes are put into memory from `spares` first. `Err` where memory runs out.
pub(crate) fn fill_of<A: Allocator + Copy>(
    alloc: A,
    image: &Image<A>,
    log: &LogBytes<'_, '_, A>,
    nodes: &NodeChanges<'_, A>,
    spares: &mut Vec<Vec<u8, A>, A>,
) -> Result<Fill<A>, AllocError>
    requires payloads { HasPayloads log.now }
    requires pieces { PiecesAscend (pieces_of log.now) }
    requires whole { AllByRecursion PieceIsInRange log.now.pieces.now }
    requires filled { AllByRecursion IsFilled log.now.pieces.now }
    ensures { IfOk result (λ fill. IsFillOf image.now log.now nodes.now fill) }
{
    let blocks = file_blocks(alloc, image, log.pieces, nodes)?;
    let places = free_places(alloc, image, blocks.written.len())?;
    let placed = &blocks.written[..places.len()];
    let rows = block_rows(alloc, image, log, placed, places.as_slice(), spares)?;
    Ok(Fill {
        rows,
        zero: blocks.zero,
    })
}

/// Makes the change that a log makes: the names and headers of its net, and its bytes. Condition: that
/// of `fill_of`, and the net can be applied with such a fill. Blocks are made in the memory of those that
/// were written over, where the image keeps some. `Err` where memory runs out; the image shows what it
/// showed then.
pub fn land_bytes<A: Allocator + Copy>(
    alloc: A,
    image: &mut Image<A>,
    log: &LogBytes<'_, '_, A>,
    net: &LentNet<'_, '_, A>,
) -> Result<(), AllocError>
    requires payloads { HasPayloads log.now }
    requires pieces { PiecesAscend (pieces_of log.now) }
    requires whole { AllByRecursion PieceIsInRange log.now.pieces.now }
    requires filled { AllByRecursion IsFilled log.now.pieces.now }
    requires fits { CanLandWith image.old log.now (net_in net.now) }
    ensures ok { OnOk result (HasLandedWith image.old log.now (net_in net.now) image.new) }
    ensures err { OnErr result (image.new ≡ image.old) }
{
    let nodes = NodeChanges::of(&alloc, net.nodes().as_slice())?;
    let mut spares = Vec::new(alloc);
    image.swap_spares(&mut spares);
    let made = fill_of(alloc, image, log, &nodes, &mut spares);
    image.swap_spares(&mut spares);
    let fill = made?;
    net_apply_moving(alloc, image, *net, &nodes, fill)
}

/// The `count` least free places of tier 0, or all of them where there are fewer. `Err` where memory is
/// refused.
pub(crate) fn free_places<A: Allocator>(
    alloc: A,
    image: &Image<A>,
    count: usize,
) -> Result<Vec<u32, A>, AllocError>
    ensures { IfOk result (λ places. places.items ≡ take count (unused_places image.now.sizes image.now.placement 0)) }
{
    let size = image.tier_size(0);
    let mut places = Vec::with_capacity(alloc, count.min(image.free(0) as usize))?;
    let mut from = 0;
    while places.len() < count && from < size {
        let Some(place) = image.next_free(0, from) else {
            break;
        };
        places.push(place)?;
        from = place + 1;
    }
    Ok(places)
}
