//! What the types of a raw image's fields say of its rows.
ghost use Rattle.std.specs.Prelude.{◌<◌, ◌^◌, All};
ghost use Rattle.kfs_model.specs.Spelling.{IsName};
ghost use Rattle.kfs_model.specs.Device.RawImage.{IsSpelled};
ghost use Rattle.kfs_image.specs.Codec.RawImages.{raw_of};

use crate::codec::{RawImage, RawNode};
use kfs_types::NameRow;
use std::alloc::Allocator;

/// Tells the prover that the names of a raw image are names, that its uids and gids fit 32 bits, and that
/// no tier is larger than it may be. It goes over the rows once and changes nothing. Takes no memory.
pub fn tell_spelled<A: Allocator>(raw: &RawImage<A>)
    ensures { IsSpelled (raw_of raw.now) }
{
    let sizes = raw.sizes;
    // Each call says that its tier is no larger than it may be.
    let _blocks = [sizes.size(0), sizes.size(1), sizes.size(2)];
    tell_names(raw.names.as_slice());
    tell_ids(raw.nodes.as_slice());
}

fn tell_names(rows: &[NameRow])
    ensures { All (λ row. IsName row.name) rows.now }
{
    for row in rows {
        // The call says that the name is one.
        let _bytes = row.name.as_bytes();
    }
}

fn tell_ids(rows: &[RawNode])
    ensures { All (λ row. (row.header.uid < 2 ^ 32) × (row.header.gid < 2 ^ 32)) rows.now }
{
    for row in rows {
        // The call says that both are of their types.
        let _ids = ids_of(row);
    }
}

/// The node's uid and gid.
fn ids_of(row: &RawNode) -> (u32, u32)
    ensures { (row.now.header.uid < 2 ^ 32) × (row.now.header.gid < 2 ^ 32) }
{
    (in_range(row.header.uid), in_range(row.header.gid))
}

/// The id as it is, with what its type says of it.
fn in_range(id: u32) -> u32
    ensures { id < 2 ^ 32 }
{
    id
}
