//! The encoding of an image.
ghost use Rattle.std.specs.Prelude.{◌≡◌, ◌++◌, IfOk, OnOk};
ghost use Rattle.kfs_model.specs.Device.ShownTree.{IsLawful};
ghost use Rattle.kfs_model.specs.Device.Canonical.{image_bytes};

use crate::codec::header;
use crate::encode::extents::{count_extents, write_extents};
use crate::encode::names::{count_names, write_names};
use crate::encode::nodes::{count_nodes, write_nodes};
use crate::{Image, TierSizes};
use kfs_types::LATEST_VERSION;
use std::alloc::{AllocError, Allocator};

/// The sizes of the tiers.
fn sizes_of<A: Allocator>(image: &Image<A>) -> TierSizes
    requires { IsLawful image.now }
    ensures { result ≡ image.now.sizes }
{
    TierSizes::new(image.tier_size(0), image.tier_size(1), image.tier_size(2)).unwrap()
}

/// The image as bytes of version 2: nodes ascending by number, names by directory and name, extents by
/// file number and block. Blocks next to each other at places next to each other on one tier are one
/// extent; blocks that aren't mapped are in none. Bytes past a file's size are zero.
///
/// So images with the same tier sizes, tree and placement have the same bytes, and others have not.
///
/// All is counted first. Then the bytes take their room from `alloc`, once. `Err` where it is refused.
pub fn encode_image<A: Allocator, B: Allocator>(
    alloc: B,
    image: &Image<A>,
) -> Result<Vec<u8, B>, AllocError>
    ensures { IfOk result (λ bytes. bytes.items ≡ image_bytes image.now) }
{
    let mut out = Vec::new(alloc);
    append_image(&mut out, image)?;
    Ok(out)
}

/// Writes the image as `encode_image` does, behind what `out` has.
///
/// All is counted first. Then `out` takes its room, once. `Err` where it is refused.
pub fn append_image<A: Allocator, B: Allocator>(
    out: &mut Vec<u8, B>,
    image: &Image<A>,
) -> Result<(), AllocError>
    ensures { OnOk result (out.new.items ≡ out.old.items ++ image_bytes image.now) }
{
    // Tells the prover that the image is lawful.
    let _shape = image.shape();
    let nodes = count_nodes(image)?;
    let names = count_names(image)?;
    let extents = count_extents(image)?;
    let len = header::LEN
        .saturating_add(nodes.len)
        .saturating_add(names.len)
        .saturating_add(extents.len);
    out.reserve_exact(len)?;
    let head = header::ImageHeader {
        version: LATEST_VERSION,
        sizes: sizes_of(image),
        nodes: nodes.count,
        names: names.count,
        extents: extents.count,
    };
    header::write(out, head)?;
    write_nodes(out, image)?;
    write_names(out, image)?;
    write_extents(out, image)?;
    Ok(())
}
