//! The blocks of a landing.
ghost use Rattle.std.specs.Prelude.{◌≡◌, [], ◌∷◌, IfOk, IfSome};
ghost use Rattle.kfs_model.specs.Device.ShownTree.{IsLawful};
ghost use Rattle.kfs_image.specs.Net.{CanApply, after_net};

use crate::edits::block_bytes;
use crate::fits::{block_count, is_place_free};
use kfs_image::{BlockRow, Fill, Image, Net, Place, header_after};
use kfs_image_nodes::NodeChanges;
use kfs_types::BLOCK_LEN;
use std::alloc::{AllocError, Allocator};

/// The fill that writes two blocks, and clears none.
fn of_two<A: Allocator + Copy>(
    alloc: A,
    first: BlockRow<A>,
    second: BlockRow<A>,
) -> Result<Fill<A>, AllocError>
    ensures { IfOk result (λ fill. fill.rows.items ≡ first ∷ second ∷ []) }
{
    let mut rows = Vec::new(alloc);
    rows.push(first)?;
    rows.push(second)?;
    let zero = Vec::new(alloc);
    Ok(Fill { rows, zero })
}

/// The fill that writes blocks 0 and 1 of file 5 at places 2 and 1 of tier 0, if it can be applied with
/// the net.
pub fn fill_of_two<A: Allocator + Copy>(alloc: A, image: &Image<A>, net: &Net<A>) -> Option<Fill<A>>
    requires { IsLawful (after_net net.now image.now) }
    ensures { IfSome result (λ fill. CanApply net.now fill image.now) }
{
    let place = Place { tier: 0, place: 2 };
    let other = Place { tier: 0, place: 1 };
    let bytes = block_bytes(alloc, 128)?;
    let later = block_bytes(alloc, 1)?;
    let is_free = is_place_free(image, place);
    let is_other_free = is_place_free(image, other);
    if !is_free || !is_other_free || bytes.len() != BLOCK_LEN || later.len() != BLOCK_LEN {
        return None;
    }
    let Ok(nodes) = NodeChanges::of(&alloc, net.nodes.as_slice()) else {
        return None;
    };
    if block_count(header_after(image, &nodes, 5)) <= 1 {
        return None;
    }
    let first = BlockRow {
        number: 5,
        block: 0,
        place,
        bytes,
    };
    let second = BlockRow {
        number: 5,
        block: 1,
        place: other,
        bytes: later,
    };
    of_two(alloc, first, second).ok()
}
