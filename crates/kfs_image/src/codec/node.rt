//! A node's row: number, kind, and the other fields of its header.
//! A plan has another format (`kfs_entry`): its first byte is 0 for a gone node, 1 or 2 for a kind.
ghost use Rattle.std.specs.Prelude.{◌≡◌, ◌≤◌, ◌++◌, length, drop, IfSome, OnOk};
ghost use Rattle.kfs_model.proofs.DeviceLemmas.ImageReading.{raw_node_read};
ghost use Rattle.kfs_entry.specs.Codec.Reading.{seen};
ghost use Rattle.kfs_image.specs.Codec.RawImages.{raw_node_of};

use crate::codec::raw::RawNode;
use kfs_entry::codec::{kind, number16, number32, number64};
use kfs_entry::{ReadRow, SpelledRow};
use kfs_types::Header;
use std::alloc::{AllocError, Allocator};

#[tactic(auto, unfolding(kfs_model::proofs::DeviceLemmas::ImageReading::raw_node_read))]
fn read_row(source: &[u8], at: usize) -> Option<(RawNode, usize)>
    requires { at ≤ length source.now }
    ensures value { seen raw_node_of source.now result ≡ raw_node_read (drop at source.now) }
    ensures within { IfSome result (λ x. x.1 ≤ length source.now) }
{
    let (number, at) = number32::read(source, at)?;
    let (kind, at) = kind::read(source, at)?;
    let (mode, at) = number16::read(source, at)?;
    let (uid, at) = number32::read(source, at)?;
    let (gid, at) = number32::read(source, at)?;
    let (links, at) = number16::read(source, at)?;
    let (size, at) = number64::read(source, at)?;
    let header = Header {
        kind,
        mode,
        uid,
        gid,
        links,
        size,
    };
    Some((RawNode { number, header }, at))
}

impl SpelledRow for RawNode {
    ghost use Rattle.kfs_model.specs.Device.Spelling.{raw_node_bytes};
    ghost use Rattle.kfs_image.specs.Codec.RawImages.{raw_node_of};

    ghost spelling = { λ _ row. raw_node_bytes (raw_node_of row) };

    ghost can_write = { λ _ _. Unit {0} };

    fn write<A: Allocator>(&self, out: &mut Vec<u8, A>, source: &[u8]) -> Result<(), AllocError> {
        number32::write(out, source, &self.number)?;
        kind::write(out, source, &self.header.kind)?;
        number16::write(out, source, &self.header.mode)?;
        number32::write(out, source, &self.header.uid)?;
        number32::write(out, source, &self.header.gid)?;
        number16::write(out, source, &self.header.links)?;
        number64::write(out, source, &self.header.size)
    }

    #[tactic(auto, unfolding(kfs_model::specs::Spelling::number16, kfs_model::specs::Spelling::number32, kfs_model::specs::Spelling::number64))]
    fn len(&self, source: &[u8]) -> usize {
        24 + kind::len(source, &self.header.kind)
    }
}

impl<'s> ReadRow<'s> for RawNode {
    ghost use Rattle.kfs_model.specs.Spelling.{Begins};
    ghost use Rattle.kfs_model.specs.Device.Spelling.{IsRawNode, raw_node_bytes};
    ghost use Rattle.kfs_image.specs.Codec.RawImages.{raw_node_of};

    ghost fits = { λ _ _ row. IsRawNode (raw_node_of row) };

    ghost begins = { λ _. Begins IsRawNode raw_node_bytes };

    fn read(_version: u8, source: &'s [u8], at: usize) -> Option<(Self, usize)> {
        read_row(source, at)
    }
}
