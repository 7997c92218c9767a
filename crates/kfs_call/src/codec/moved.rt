//! Moves of blocks, each with four fields: the file's number, the block, and the target's tier and place.
ghost use Rattle.std.specs.Prelude.{◌≡◌, ◌≤◌, ◌++◌, length, drop, map, IfSome, IfOk, OnOk};
ghost use Rattle.std.specs.List.{flat_map};
ghost use Rattle.kfs_entry.specs.Codec.Reading.{seen};
ghost use Rattle.kfs_call.specs.Call.{move_bytes};
ghost use Rattle.kfs_call.specs.Layout.{joined};
ghost use Rattle.kfs_call.specs.Reading.{IsSeen};
ghost use Rattle.kfs_call.specs.Readers.{rows_at};
ghost use Rattle.kfs_call.specs.Readers.{move_read};

use crate::fault::FieldFault;
use kfs_entry::codec::{byte, number32};
use kfs_types::Move;
use std::alloc::{AllocError, Allocator};

/// How many fields come before the first move: the tag and the count.
const FIELDS_BEFORE: u32 = 2;

/// The move at position `at`, and the position after it; none where no move is there.
#[tactic(auto, unfolding(crate::specs::Readers::move_read))]
fn read_move(source: &[u8], at: usize) -> Option<(Move, usize)>
    requires { at ≤ length source.now }
    ensures value { seen (λ m. m) source.now result ≡ move_read (drop at source.now) }
    ensures within { IfSome result (λ x. x.1 ≤ length source.now) }
{
    let (number, at) = number32::read(source, at)?;
    let (block, at) = number32::read(source, at)?;
    let (tier, at) = byte::read(source, at)?;
    let (place, at) = number32::read(source, at)?;
    let one = Move {
        number,
        block,
        tier,
        place,
    };
    Some((one, at))
}

/// So many moves from position `at` on, and the position after the last. The list grows as moves are
/// read: the count reserves nothing.
pub fn read<A: Allocator>(
    alloc: A,
    source: &[u8],
    at: usize,
    count: u16,
) -> Result<(Vec<Move, A>, usize), FieldFault>
    requires { at ≤ length source.now }
    ensures value { IsSeen (λ moves. moves.items) source.now result (rows_at move_read 2 count (drop at source.now)) }
    ensures within { IfOk result (λ x. x.1 ≤ length source.now) }
{
    let mut moves = Vec::new(alloc);
    let mut end = at;
    for k in 0..count {
        let Some((one, after)) = read_move(source, end) else {
            return Err(FieldFault::BadField(FIELDS_BEFORE + u32::from(k)));
        };
        moves.push(one)?;
        end = after;
    }
    Ok((moves, end))
}

/// Appends the bytes of a move. `Err` where memory runs out.
fn write_move<A: Allocator>(out: &mut Vec<u8, A>, one: &Move) -> Result<(), AllocError>
    ensures { OnOk result (out.new.items ≡ out.old.items ++ move_bytes one.now) }
{
    number32::write(out, &[], &one.number)?;
    number32::write(out, &[], &one.block)?;
    out.push(one.tier)?;
    number32::write(out, &[], &one.place)
}

/// `write`, in terms of a flat list.
fn write_moves<A: Allocator>(out: &mut Vec<u8, A>, moves: &[Move]) -> Result<(), AllocError>
    ensures { OnOk result (out.new.items ≡ out.old.items ++ flat_map move_bytes moves.now) }
{
    for one in moves {
        write_move(out, one)?;
    }
    Ok(())
}

/// Appends the bytes of the moves, one after another. `Err` where memory runs out.
pub fn write<A: Allocator>(out: &mut Vec<u8, A>, moves: &[Move]) -> Result<(), AllocError>
    ensures { OnOk result (out.new.items ≡ out.old.items ++ joined (map move_bytes moves.now)) }
{
    write_moves(out, moves)
}
