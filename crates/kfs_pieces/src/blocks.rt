//! How many blocks of a file its right pieces write. The blocks of a file that its right pieces write,
//! one by one, and the ranges of blocks that they make all zero. How many blocks right pieces write,
//! over all files.
ghost use Rattle.std.specs.Prelude.{◌≡◌, ◌+◌, ◌<◌, ◌≤◌, ◌^◌, ◌++◌, [], ◌∷◌, drop, map, if◌then◌else◌, IfOk};
ghost use Rattle.std.specs.List.{AllByRecursion};
ghost use Rattle.kfs_types.specs.Views.{piece_of};
ghost use Rattle.kfs_pieces.specs.TouchedBlocks.{block_of, counted, goes_on, touches};
ghost use Rattle.kfs_model.specs.Limits.{size_limit};
ghost use Rattle.kfs_pieces.specs.Lefts.{IsFilled, PieceIsInRange};
ghost use Rattle.kfs_pieces.specs.PieceBlocks.{HasCounted, blocks_in, piece_blocks, zeros_until};
ghost use Rattle.kfs_model.specs.Placement.{block_count};
ghost use Rattle.kfs_pieces.specs.BlockLists.{HasListed, blocks_between, cleared_runs, listed, zeros_start};
ghost use Rattle.kfs_pieces.specs.Parts.{AreByNumber, IsNeedOf, front_len};
ghost use Rattle.kfs_pieces.specs.Sizes.{SizesAscend};

use crate::log::{FileSize, size_after};
use crate::touched::Touched;
use kfs_types::{BLOCK_SIZE, Piece, Source};
use std::alloc::{AllocError, Allocator};

/// A count that is under way: the first block not counted yet, and how many were counted.
#[derive(Clone, Copy)]
pub(crate) struct Count {
    pub next: u64,
    pub total: u64,
}

/// The block at a position, unless it is to be left out.
fn block_at(place: u64, is_left_out: bool) -> Option<Touched>
    requires { place ≤ size_limit }
    ensures { blocks_in result ≡ (if is_left_out then [] else block_of place ∷ []) }
{
    if is_left_out {
        return None;
    }
    let block = place / BLOCK_SIZE;
    Some(Touched {
        first: block,
        last: block,
    })
}

/// The blocks that a piece writes, ascending: at most two runs of them.
pub(crate) fn touched_by(
    until: u64,
    piece: &Piece,
    goes_on: bool,
    size: u64,
) -> (Option<Touched>, Option<Touched>)
    requires whole { PieceIsInRange piece.now }
    requires filled { 0 < piece.now.len }
    ensures { blocks_in result.0 ++ blocks_in result.1 ≡ piece_blocks size until goes_on (piece_of piece.now) }
{
    let end = piece.start + piece.len;
    match piece.source {
        Source::Zero => {
            let starts_out = piece.start % BLOCK_SIZE == 0 || piece.start == until;
            let ends_out = end % BLOCK_SIZE == 0 || size <= end || goes_on;
            (block_at(piece.start, starts_out), block_at(end, ends_out))
        }
        Source::Payload { entry: _, place: _ } => {
            let touched = Touched {
                first: piece.start / BLOCK_SIZE,
                last: (end - 1) / BLOCK_SIZE,
            };
            (Some(touched), None)
        }
    }
}

/// Counts the blocks of a run, without those counted before.
fn with_blocks(count: Count, touched: Option<Touched>) -> Count
    requires near { count.next ≤ 2 ^ 20 + 1 }
    requires low { count.total ≤ count.next }
    ensures counts { HasCounted count (blocks_in touched) result }
    ensures low { result.total ≤ result.next }
    ensures near { result.next ≤ 2 ^ 20 + 1 }
{
    let Some(blocks) = touched else {
        return count;
    };
    let from = count.next.max(blocks.first);
    if from > blocks.last {
        return count;
    }
    Count {
        next: blocks.last + 1,
        total: count.total + (blocks.last + 1 - from),
    }
}

/// Counts the blocks that a piece writes.
fn with_piece(count: Count, until: u64, piece: &Piece, goes_on: bool, size: u64) -> Count
    requires whole { PieceIsInRange piece.now }
    requires filled { 0 < piece.now.len }
    requires low { count.total ≤ count.next }
    requires near { count.next ≤ 2 ^ 20 + 1 }
    ensures counts { HasCounted count (piece_blocks size until goes_on (piece_of piece.now)) result }
    ensures low { result.total ≤ result.next }
    ensures near { result.next ≤ 2 ^ 20 + 1 }
{
    let (front, back) = touched_by(until, piece, goes_on, size);
    let begun = with_blocks(count, front);
    with_blocks(begun, back)
}

/// Whether the next piece is of zero bytes and starts at this position.
pub(crate) fn goes_on_at(pieces: &[Piece], index: usize, place: u64) -> bool
    ensures { result ≡ goes_on place (map piece_of (drop index pieces.now)) }
{
    if index >= pieces.len() {
        return false;
    }
    pieces[index].source == Source::Zero && pieces[index].start == place
}

/// Where a piece's zero bytes end; 0 for a payload's piece.
pub(crate) fn zeros_end(piece: &Piece) -> u64
    requires { PieceIsInRange piece.now }
    ensures { result ≡ zeros_until (piece_of piece.now) }
{
    match piece.source {
        Source::Zero => piece.start + piece.len,
        Source::Payload { entry: _, place: _ } => 0,
    }
}

/// How many blocks the right pieces of one file write. `size` is the file's size after the log. Takes
/// no memory.
pub fn blocks_written(pieces: &[Piece], size: u64) -> u64
    requires whole { AllByRecursion PieceIsInRange pieces.now }
    requires filled { AllByRecursion IsFilled pieces.now }
    ensures counts { result ≡ counted 0 (touches size 0 (map piece_of pieces.now)) }
    ensures few { result ≤ 2 ^ 21 }
{
    let mut count = Count { next: 0, total: 0 };
    let mut until = 0;
    for (index, piece) in pieces.iter().enumerate() {
        let goes_on = goes_on_at(pieces, index + 1, piece.start + piece.len);
        count = with_piece(count, until, piece, goes_on, size);
        until = zeros_end(piece);
    }
    count.total
}

/// Blocks of a file, whose number the caller knows: from `first` on, below `end`. A landing's `BlockRun`
/// has the number, too.
#[derive(Clone, Copy, Debug, PartialEq, Eq)]
pub struct BlockRange {
    /// The first block, from 0.
    pub first: u32,
    /// The block after the last.
    pub end: u32,
}

/// Lists the blocks from `next` on, and answers the block after the last one listed.
fn list_blocks<A: Allocator>(
    out: &mut Vec<u32, A>,
    next: u64,
    touched: Option<Touched>,
) -> Result<u64, AllocError>
    requires { next ≤ 2 ^ 20 + 1 }
    ensures lists { IfOk result (λ later. HasListed out.old.items next (blocks_in touched) out.new.items later) }
    ensures near { IfOk result (λ later. later ≤ 2 ^ 20 + 1) }
{
    let Some(blocks) = touched else {
        return Ok(next);
    };
    for block in blocks.first.max(next)..blocks.last + 1 {
        out.push(block as u32)?;
    }
    Ok(next.max(blocks.last + 1))
}

/// The blocks that the right pieces of one file write, ascending. `size` is the file's size after the
/// log. `Err` where memory runs out.
pub fn written_in<A: Allocator>(
    alloc: A,
    pieces: &[Piece],
    size: u64,
) -> Result<Vec<u32, A>, AllocError>
    requires whole { AllByRecursion PieceIsInRange pieces.now }
    requires filled { AllByRecursion IsFilled pieces.now }
    ensures { IfOk result (λ blocks. blocks.items ≡ listed 0 (touches size 0 (map piece_of pieces.now))) }
{
    let mut out = Vec::new(alloc);
    let mut next = 0;
    let mut until = 0;
    for (index, piece) in pieces.iter().enumerate() {
        let goes_on = goes_on_at(pieces, index + 1, piece.start + piece.len);
        let (front, back) = touched_by(until, piece, goes_on, size);
        next = list_blocks(&mut out, next, front)?;
        next = list_blocks(&mut out, next, back)?;
        until = zeros_end(piece);
    }
    Ok(out)
}

/// How many blocks hold the bytes before this position.
fn blocks_to(place: u64) -> u64
    requires { place ≤ size_limit }
    ensures { result ≡ block_count place }
{
    place.div_ceil(BLOCK_SIZE)
}

/// Adds the range of blocks that lie whole between two positions, if there are any. A file's last block
/// counts as whole at its end.
fn add_between<A: Allocator>(
    out: &mut Vec<BlockRange, A>,
    size: u64,
    start: u64,
    end: u64,
) -> Result<(), AllocError>
    requires start { start ≤ size_limit }
    requires end { end ≤ size_limit }
    ensures { IfOk result (λ _. out.new.items ≡ out.old.items ++ blocks_between size start end) }
{
    let first = blocks_to(start);
    let behind = if size <= end {
        blocks_to(size)
    } else {
        end / BLOCK_SIZE
    };
    if first < behind {
        out.push(BlockRange {
            first: first as u32,
            end: behind as u32,
        })?;
    }
    Ok(())
}

/// Where a piece's zero bytes begin; for a payload's piece, where the piece ends.
fn zeros_start(piece: &Piece) -> u64
    requires { PieceIsInRange piece.now }
    ensures value { result ≡ zeros_start (piece_of piece.now) }
    ensures small { result ≤ size_limit }
{
    match piece.source {
        Source::Zero => piece.start,
        Source::Payload { entry: _, place: _ } => piece.start + piece.len,
    }
}

/// The ranges of blocks that the right pieces of one file make all zero, ascending, none empty. `size`
/// is the file's size after the log. `Err` where memory runs out.
pub fn cleared_in<A: Allocator>(
    alloc: A,
    pieces: &[Piece],
    size: u64,
) -> Result<Vec<BlockRange, A>, AllocError>
    requires { AllByRecursion PieceIsInRange pieces.now }
    ensures { IfOk result (λ ranges. ranges.items ≡ cleared_runs size (map piece_of pieces.now)) }
{
    let mut out = Vec::new(alloc);
    let mut start = 0;
    let mut end = 0;
    for (index, piece) in pieces.iter().enumerate() {
        if !goes_on_at(pieces, index, end) {
            add_between(&mut out, size, start, end)?;
            start = zeros_start(piece);
        }
        end = piece.start + piece.len;
    }
    add_between(&mut out, size, start, end)?;
    Ok(out)
}

/// How many pieces at the front are of this file. Takes no memory.
pub fn front_len(pieces: &[Piece], number: u32) -> usize
    ensures { result ≡ front_len number pieces.now }
{
    let mut len = 0;
    while len < pieces.len() && pieces[len].number == number {
        len += 1;
    }
    len
}

/// How many blocks right pieces write, over all files: as many free places a landing takes. The pieces
/// ascend by file number and position; `sizes` ascends by number. Takes no memory.
pub fn need_of(pieces: &[Piece], sizes: &[FileSize]) -> u64
    requires ascending { SizesAscend 0 sizes.now }
    requires order { AreByNumber 0 pieces.now }
    requires whole { AllByRecursion PieceIsInRange pieces.now }
    requires filled { AllByRecursion IsFilled pieces.now }
    ensures { IsNeedOf sizes.now (map piece_of pieces.now) result }
{
    let mut total = 0;
    let mut rest = pieces;
    while let Some(first) = rest.first() {
        let (part, behind) = rest.split_at(front_len(rest, first.number));
        total += blocks_written(part, size_after(sizes, first.number));
        rest = behind;
    }
    total
}
