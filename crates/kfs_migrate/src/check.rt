//! The check of a list of moves. Each move is looked at once.
ghost use Rattle.std.specs.Prelude.{◌≡◌, ◌<◌, List, length, None, IfErr, OnOk};
ghost use Rattle.kfs_model.specs.Placement.{tier_size, is_free};
ghost use Rattle.kfs_model.specs.Migration.{Move as ModelMove, fault_of_move, fault_of_moves};
ghost use Rattle.kfs_types.specs.Moves.Faults.{Refuses};
ghost use Rattle.kfs_migrate.specs.Faults.{IsPossible};

use kfs_image::Image;
use kfs_types::{Move, MoveFault};
use std::alloc::Allocator;
use std::collections::BTreeSet;

/// The most moves of one call.
pub const MOVE_LIMIT: usize = 1024;

/// Whether the moves can be made together, all at once. Refused with `TooManyMoves`; or else for the
/// first move that has a fault, with `NotMapped`, `OutOfRange`, `NotFree` or `Overlap`, in this order.
///
/// Blocks and free places are those of the image as it is: a place that another move leaves isn't free.
/// Any free place will do, also one on the block's own tier. `OutOfMemory` where memory runs out.
pub fn check_moves<A: Allocator + Clone>(
    alloc: A,
    image: &Image<A>,
    moves: &[Move],
) -> Result<(), MoveFault>
    ensures ok { OnOk result (fault_of_moves image.now.sizes image.now.placement moves.now ≡ None) }
    ensures err { IfErr result (Refuses (fault_of_moves image.now.sizes image.now.placement moves.now)) }
{
    if moves.len() > MOVE_LIMIT {
        return Err(MoveFault::TooManyMoves);
    }
    let mut sources = BTreeSet::new(alloc.clone()?);
    let mut targets = BTreeSet::new(alloc);
    for (index, m) in moves.iter().enumerate() {
        check_alone(image, *m, index)?;
        if !sources.insert((m.number, m.block))? {
            return Err(MoveFault::Overlap(index));
        }
        if !targets.insert((m.tier, m.place))? {
            return Err(MoveFault::Overlap(index));
        }
    }
    Ok(())
}

/// Whether the move with this index can be made, whatever the earlier ones are.
fn check_alone<A: Allocator>(image: &Image<A>, m: Move, index: usize) -> Result<(), MoveFault>
    ensures ok { OnOk result (IsPossible image.now.sizes image.now.placement m) }
    ensures err { IfErr result (λ fault. (earlier : List ModelMove) → length earlier ≡ index → Refuses (fault_of_move image.now.sizes image.now.placement earlier m) fault) }
{
    let Some(_place) = image.place_of(m.number, m.block) else {
        return Err(MoveFault::NotMapped(index));
    };
    if m.place >= image.tier_size(m.tier) {
        return Err(MoveFault::OutOfRange(index));
    }
    if !is_free(image, m) {
        return Err(MoveFault::NotFree(index));
    }
    Ok(())
}

/// Whether no block lies at the move's target. Condition: the target exists.
fn is_free<A: Allocator>(image: &Image<A>, m: Move) -> bool
    requires { m.target.place < tier_size image.now.sizes m.target.tier }
    ensures { result ≡ is_free image.now.placement m.target }
{
    match image.next_free(m.tier, m.place) {
        Some(place) => place == m.place,
        None => false,
    }
}
