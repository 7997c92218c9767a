//! The header with which an image begins.
ghost use Rattle.std.specs.Prelude.{◌≡◌, ◌≤◌, ◌++◌, length, drop, IfSome, IfNone, OnOk};
ghost use Rattle.kfs_model.specs.Spelling.{BeginsWithNo};
ghost use Rattle.kfs_model.specs.Device.Spelling.{IsImageHeader, image_header};
ghost use Rattle.kfs_model.proofs.DeviceLemmas.ImageReading.{image_header_read};
ghost use Rattle.kfs_entry.specs.Codec.Reading.{StandsIn, seen};
ghost use Rattle.kfs_image.specs.Codec.Headers.{image_header_of};

use crate::codec::limited;
use kfs_entry::codec::headers::{read_mark, read_version};
use kfs_entry::codec::number32;
use kfs_types::{TIER_LIMIT, TierSizes};
use std::alloc::{AllocError, Allocator};

/// What an image begins with.
const MARK: &[u8] = b"KIMG";

/// The length of the header in bytes.
pub const LEN: usize = 29;

/// The version of an image, the sizes of its tiers, and how many rows each part has.
#[derive(Clone, Copy)]
pub struct ImageHeader {
    /// The version of its format: 1 or 2.
    pub version: u8,
    /// The sizes of the tiers, in blocks.
    pub sizes: TierSizes,
    /// How many node rows.
    pub nodes: u32,
    /// How many name rows.
    pub names: u32,
    /// How many extent rows.
    pub extents: u32,
}

#[tactic(auto, unfolding(kfs_model::proofs::DeviceLemmas::ImageReading::image_header_read))]
fn header_of_image(source: &[u8]) -> Option<(ImageHeader, usize)>
    ensures value { seen image_header_of source.now result ≡ image_header_read (drop 0 source.now) }
    ensures within { IfSome result (λ x. x.1 ≤ length source.now) }
{
    let at = read_mark(source, 0, MARK)?;
    let (version, at) = read_version(source, at)?;
    let (first, at) = limited::read(source, at, TIER_LIMIT)?;
    let (second, at) = limited::read(source, at, TIER_LIMIT)?;
    let (third, at) = limited::read(source, at, TIER_LIMIT)?;
    let (nodes, at) = number32::read(source, at)?;
    let (names, at) = number32::read(source, at)?;
    let (extents, at) = number32::read(source, at)?;
    let header = ImageHeader {
        version,
        sizes: TierSizes::new(first, second, third)?,
        nodes,
        names,
        extents,
    };
    Some((header, at))
}

/// The header of an image, and the position after it; none where the source doesn't begin with one.
pub fn read(source: &[u8]) -> Option<(ImageHeader, usize)>
    ensures found { IfSome result (λ x. IsImageHeader (image_header_of x.0) × StandsIn source.now 0 x.1 (image_header (image_header_of x.0))) }
    ensures none { IfNone result (BeginsWithNo IsImageHeader image_header source.now) }
{
    header_of_image(source)
}

/// Appends an image's header, 29 bytes. `Err` where memory runs out.
pub fn write<A: Allocator>(out: &mut Vec<u8, A>, header: ImageHeader) -> Result<(), AllocError>
    ensures { OnOk result (out.new.items ≡ out.old.items ++ image_header (image_header_of header)) }
{
    out.extend_from_slice(MARK)?;
    out.push(header.version)?;
    number32::write(out, &[], &header.sizes.size(0))?;
    number32::write(out, &[], &header.sizes.size(1))?;
    number32::write(out, &[], &header.sizes.size(2))?;
    number32::write(out, &[], &header.nodes)?;
    number32::write(out, &[], &header.names)?;
    number32::write(out, &[], &header.extents)
}
