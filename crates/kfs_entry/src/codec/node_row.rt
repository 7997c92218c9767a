//! A node row of a plan: number, header.
ghost use Rattle.std.specs.Prelude.{◌≡◌, ◌≤◌, ◌++◌, length, drop, IfSome, OnOk};
ghost use Rattle.kfs_model.specs.Spelling.{node_row_bytes};
ghost use Rattle.kfs_types.specs.Views.{node_row_of};
ghost use Rattle.kfs_model.proofs.Reading.{node_row_read};
ghost use Rattle.kfs_entry.specs.Codec.Reading.{seen};

use crate::codec::row::{ReadRow, SpelledRow};
use crate::codec::{header, number32};
use kfs_types::NodeRow;
use std::alloc::{AllocError, Allocator};

#[tactic(auto, unfolding(kfs_model::proofs::Reading::node_row_read))]
fn read_row(source: &[u8], at: usize) -> Option<(NodeRow, usize)>
    requires { at ≤ length source.now }
    ensures value { seen node_row_of source.now result ≡ node_row_read (drop at source.now) }
    ensures within { IfSome result (λ x. x.1 ≤ length source.now) }
{
    let (number, at) = number32::read(source, at)?;
    let (now, at) = header::read(source, at)?;
    Some((NodeRow { number, now }, at))
}

impl SpelledRow for NodeRow {
    ghost use Rattle.kfs_model.specs.Spelling.{node_row_bytes};
    ghost use Rattle.kfs_types.specs.Views.{node_row_of};

    ghost spelling = { λ _ row. node_row_bytes (node_row_of row) };

    ghost can_write = { λ _ _. Unit {0} };

    fn write<A: Allocator>(&self, out: &mut Vec<u8, A>, source: &[u8]) -> Result<(), AllocError> {
        number32::write(out, source, &self.number)?;
        header::write(out, source, &self.now)
    }

    #[tactic(auto, unfolding(kfs_model::specs::Spelling::number16, kfs_model::specs::Spelling::number32, kfs_model::specs::Spelling::number64))]
    fn len(&self, source: &[u8]) -> usize {
        4 + header::len(source, &self.now)
    }
}

impl<'s> ReadRow<'s> for NodeRow {
    ghost use Rattle.kfs_model.specs.Spelling.{IsNodeRow, node_row_bytes};
    ghost use Rattle.kfs_types.specs.Views.{node_row_of};
    ghost use Rattle.kfs_model.specs.Spelling.{Begins};

    ghost fits = { λ _ _ row. IsNodeRow (node_row_of row) };

    ghost begins = { λ _. Begins IsNodeRow node_row_bytes };

    fn read(_version: u8, source: &'s [u8], at: usize) -> Option<(Self, usize)> {
        read_row(source, at)
    }
}
