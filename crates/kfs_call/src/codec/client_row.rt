//! A client of a state: number, uid, gid, whether it is privileged, first and last number, groups.
ghost use Rattle.std.specs.Prelude.{◌≡◌, ◌≤◌, length, drop, IfSome};
ghost use Rattle.kfs_entry.specs.Codec.Reading.{seen};
ghost use Rattle.kfs_call.specs.StateReaders.{client_read};
ghost use Rattle.kfs_call.specs.StateViews.{client_shown};

use crate::codec::{flag, groups};
use crate::state::ClientRow;
use kfs_entry::codec::number32;
use kfs_entry::{ReadRow, SpelledRow};
use std::alloc::{AllocError, Allocator};

#[tactic(auto, unfolding(crate::specs::StateReaders::client_read))]
fn read_row(source: &[u8], at: usize) -> Option<(ClientRow, usize)>
    requires { at ≤ length source.now }
    ensures value { seen client_shown source.now result ≡ client_read (drop at source.now) }
    ensures within { IfSome result (λ x. x.1 ≤ length source.now) }
{
    let (number, at) = number32::read(source, at)?;
    let (uid, at) = number32::read(source, at)?;
    let (gid, at) = number32::read(source, at)?;
    let (privileged, at) = flag::read(source, at)?;
    let (first, at) = number32::read(source, at)?;
    let (last, at) = number32::read(source, at)?;
    let (groups, at) = groups::read(source, at)?;
    let row = ClientRow {
        number,
        uid,
        gid,
        groups,
        privileged,
        first,
        last,
    };
    Some((row, at))
}

impl SpelledRow for ClientRow {
    ghost use Rattle.kfs_call.specs.StateRows.{client_bytes};
    ghost use Rattle.kfs_call.specs.StateViews.{client_shown};

    ghost spelling = { λ _ row. client_bytes (client_shown row) };

    ghost can_write = { λ _ _. Unit {0} };

    fn write<A: Allocator>(&self, out: &mut Vec<u8, A>, source: &[u8]) -> Result<(), AllocError> {
        number32::write(out, source, &self.number)?;
        number32::write(out, source, &self.uid)?;
        number32::write(out, source, &self.gid)?;
        flag::write(out, self.privileged)?;
        number32::write(out, source, &self.first)?;
        number32::write(out, source, &self.last)?;
        groups::write(out, &self.groups)
    }

    #[tactic(auto, unfolding(kfs_model::specs::Spelling::number32))]
    fn len(&self, _source: &[u8]) -> usize {
        20 + flag::len(self.privileged) + groups::len(&self.groups)
    }
}

impl<'s> ReadRow<'s> for ClientRow {
    ghost use Rattle.kfs_model.specs.Spelling.{Begins};
    ghost use Rattle.kfs_call.specs.StateRows.{IsClientRow, client_bytes};
    ghost use Rattle.kfs_call.specs.StateViews.{client_shown};

    ghost fits = { λ _ _ row. IsClientRow (client_shown row) };

    ghost begins = { λ _. Begins IsClientRow client_bytes };

    fn read(_version: u8, source: &'s [u8], at: usize) -> Option<(Self, usize)> {
        read_row(source, at)
    }
}
