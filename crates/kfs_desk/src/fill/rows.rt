//! The blocks that a landing writes, with their places and bytes. The pieces that matter for one block,
//! among all pieces of a log.
ghost use Rattle.std.specs.Prelude.{◌≡◌, IfOk, length, map};
ghost use Rattle.kfs_model.specs.Plan.{PiecesAscend};
ghost use Rattle.kfs_model.specs.Device.ShownTree.{shown_tree};
ghost use Rattle.kfs_desk.specs.Fill.Bytes.{entries_of, pieces_of, HasPayloads, BlocksAscend, ends_by, begins_before, reaching, beginning};
ghost use Rattle.kfs_desk.specs.Fill.Fill.{AreRowsOf};
ghost use Rattle.kfs_types.specs.Views.{piece_of};

use crate::fill::bytes::{LogBytes, block_bytes};
use kfs_image::{BlockRow, Image, Place};
use kfs_types::{BLOCK_SIZE, Piece};
use std::alloc::{AllocError, Allocator};

/// A row for each of these blocks, with its place on tier 0 and its bytes after the log. Pieces and
/// blocks ascend, so pieces that end before a block are skipped for good. Bytes are put into memory from
/// `spares`, until there is none. `Err` where memory runs out.
pub(crate) fn block_rows<A: Allocator + Copy>(
    alloc: A,
    image: &Image<A>,
    log: &LogBytes<'_, '_, A>,
    blocks: &[(u32, u32)],
    places: &[u32],
    spares: &mut Vec<Vec<u8, A>, A>,
) -> Result<Vec<BlockRow<A>, A>, AllocError>
    requires payloads { HasPayloads log.now }
    requires pieces { PiecesAscend (pieces_of log.now) }
    requires blocks { BlocksAscend blocks.now }
    requires count { length blocks.now ≡ length places.now }
    ensures { IfOk result (λ rows. AreRowsOf (shown_tree image.now) (entries_of log.now) (pieces_of log.now) blocks.now places.now rows.items) }
{
    let mut rows = Vec::with_capacity(alloc, blocks.len())?;
    let mut pieces = log.pieces;
    for (index, &(number, block)) in blocks.iter().enumerate() {
        let start = u64::from(block) * BLOCK_SIZE;
        pieces = reaching(pieces, number, start);
        let part = LogBytes {
            pieces: beginning(pieces, number, start + BLOCK_SIZE),
            ..*log
        };
        let memory = spares.pop().unwrap_or(Vec::new(alloc));
        let bytes = block_bytes(memory, image, &part, number, block)?;
        let place = Place {
            tier: 0,
            place: places[index],
        };
        rows.push(BlockRow {
            number,
            block,
            place,
            bytes,
        })?;
    }
    Ok(rows)
}

/// Whether the piece ends at this byte of the file, or before it.
fn ends_by(piece: &Piece, number: u32, place: u64) -> bool
    ensures { result ≡ ends_by number place (piece_of piece.now) }
{
    piece.number < number
        || piece.number == number && piece.start <= place && piece.len <= place - piece.start
}

/// Whether the piece begins before this byte of the file.
fn begins_before(piece: &Piece, number: u32, place: u64) -> bool
    ensures { result ≡ begins_before number place (piece_of piece.now) }
{
    piece.number < number || piece.number == number && piece.start < place
}

/// The pieces without those at the front that end at this byte or before it.
pub(crate) fn reaching(pieces: &[Piece], number: u32, place: u64) -> &[Piece]
    ensures { map piece_of result.now ≡ reaching number place (map piece_of pieces.now) }
{
    let mut first = 0;
    while first < pieces.len() && ends_by(&pieces[first], number, place) {
        first += 1;
    }
    &pieces[first..]
}

/// The pieces at the front that begin before this byte.
pub(crate) fn beginning(pieces: &[Piece], number: u32, place: u64) -> &[Piece]
    ensures { map piece_of result.now ≡ beginning number place (map piece_of pieces.now) }
{
    let mut end = 0;
    while end < pieces.len() && begins_before(&pieces[end], number, place) {
        end += 1;
    }
    &pieces[..end]
}
