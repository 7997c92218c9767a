//! A lease of a state: node, client, kind, end.
ghost use Rattle.std.specs.Prelude.{◌≡◌, ◌≤◌, length, drop, IfSome};
ghost use Rattle.kfs_entry.specs.Codec.Reading.{seen};
ghost use Rattle.kfs_call.specs.StateReaders.{lease_row_read};
ghost use Rattle.kfs_call.specs.StateViews.{lease_shown};

use crate::codec::lease_kind;
use crate::state::LeaseRow;
use kfs_entry::codec::{number32, number64};
use kfs_entry::{ReadRow, SpelledRow};
use std::alloc::{AllocError, Allocator};

#[tactic(auto, unfolding(crate::specs::StateReaders::lease_row_read))]
fn read_row(source: &[u8], at: usize) -> Option<(LeaseRow, usize)>
    requires { at ≤ length source.now }
    ensures value { seen lease_shown source.now result ≡ lease_row_read (drop at source.now) }
    ensures within { IfSome result (λ x. x.1 ≤ length source.now) }
{
    let (node, at) = number32::read(source, at)?;
    let (client, at) = number32::read(source, at)?;
    let (kind, at) = lease_kind::read(source, at)?;
    let (end, at) = number64::read(source, at)?;
    let row = LeaseRow {
        node,
        client,
        kind,
        end,
    };
    Some((row, at))
}

impl SpelledRow for LeaseRow {
    ghost use Rattle.kfs_call.specs.StateRows.{lease_bytes};
    ghost use Rattle.kfs_call.specs.StateViews.{lease_shown};

    ghost spelling = { λ _ row. lease_bytes (lease_shown row) };

    ghost can_write = { λ _ _. Unit {0} };

    fn write<A: Allocator>(&self, out: &mut Vec<u8, A>, source: &[u8]) -> Result<(), AllocError> {
        number32::write(out, source, &self.node)?;
        number32::write(out, source, &self.client)?;
        lease_kind::write(out, self.kind)?;
        number64::write(out, source, &self.end)
    }

    #[tactic(auto, unfolding(kfs_model::specs::Spelling::number32, kfs_model::specs::Spelling::number64))]
    fn len(&self, _source: &[u8]) -> usize {
        16 + lease_kind::len(self.kind)
    }
}

impl<'s> ReadRow<'s> for LeaseRow {
    ghost use Rattle.kfs_model.specs.Spelling.{Begins};
    ghost use Rattle.kfs_call.specs.StateRows.{IsLeaseRow, lease_bytes};
    ghost use Rattle.kfs_call.specs.StateViews.{lease_shown};

    ghost fits = { λ _ _ row. IsLeaseRow (lease_shown row) };

    ghost begins = { λ _. Begins IsLeaseRow lease_bytes };

    fn read(_version: u8, source: &'s [u8], at: usize) -> Option<(Self, usize)> {
        read_row(source, at)
    }
}
