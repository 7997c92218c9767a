//! A name row of a plan: directory, name, number.
ghost use Rattle.std.specs.Prelude.{◌≡◌, ◌≤◌, ◌++◌, length, drop, IfSome, OnOk};
ghost use Rattle.kfs_model.specs.Spelling.{name_row_bytes};
ghost use Rattle.kfs_types.specs.Views.{name_row_of};
ghost use Rattle.kfs_model.proofs.Reading.{name_row_read};
ghost use Rattle.kfs_entry.specs.Codec.Reading.{seen};

use crate::codec::row::{ReadRow, SpelledRow};
use crate::codec::{name, number32};
use kfs_types::{BorrowedName, Name, NameRow};
use std::alloc::{AllocError, Allocator};

#[tactic(auto, unfolding(kfs_model::proofs::Reading::name_row_read))]
fn read_row(source: &[u8], at: usize) -> Option<(NameRow<BorrowedName<'_>>, usize)>
    requires { at ≤ length source.now }
    ensures value { seen name_row_of source.now result ≡ name_row_read (drop at source.now) }
    ensures within { IfSome result (λ x. x.1 ≤ length source.now) }
{
    let (dir, at) = number32::read(source, at)?;
    let (name, at) = name::read(source, at)?;
    let (number, at) = number32::read(source, at)?;
    Some((NameRow { dir, name, number }, at))
}

impl<'s> SpelledRow for NameRow<BorrowedName<'s>> {
    ghost use Rattle.kfs_model.specs.Spelling.{name_row_bytes};
    ghost use Rattle.kfs_types.specs.Views.{name_row_of};

    ghost spelling = { λ _ row. name_row_bytes (name_row_of row) };

    ghost can_write = { λ _ _. Unit {0} };

    fn write<A: Allocator>(&self, out: &mut Vec<u8, A>, source: &[u8]) -> Result<(), AllocError> {
        number32::write(out, source, &self.dir)?;
        name::write(out, source, &self.name)?;
        number32::write(out, source, &self.number)
    }

    #[tactic(auto, unfolding(kfs_model::specs::Spelling::number16, kfs_model::specs::Spelling::number32, kfs_model::specs::Spelling::number64))]
    fn len(&self, source: &[u8]) -> usize {
        8 + name::len(source, &self.name)
    }
}

impl<'s> ReadRow<'s> for NameRow<BorrowedName<'s>> {
    ghost use Rattle.kfs_model.specs.Spelling.{IsNameRow, name_row_bytes};
    ghost use Rattle.kfs_types.specs.Views.{name_row_of};
    ghost use Rattle.kfs_model.specs.Spelling.{Begins};

    ghost fits = { λ _ _ row. IsNameRow (name_row_of row) };

    ghost begins = { λ _. Begins IsNameRow name_row_bytes };

    fn read(_version: u8, source: &'s [u8], at: usize) -> Option<(Self, usize)> {
        read_row(source, at)
    }
}

impl SpelledRow for NameRow<Name> {
    ghost use Rattle.kfs_model.specs.Spelling.{name_row_bytes};
    ghost use Rattle.kfs_types.specs.Views.{name_row_of};

    ghost spelling = { λ _ row. name_row_bytes (name_row_of row) };

    ghost can_write = { λ _ _. Unit {0} };

    fn write<A: Allocator>(&self, out: &mut Vec<u8, A>, source: &[u8]) -> Result<(), AllocError> {
        self.borrowed().write(out, source)
    }

    fn len(&self, source: &[u8]) -> usize {
        self.borrowed().len(source)
    }
}

impl<'s> ReadRow<'s> for NameRow<Name> {
    ghost use Rattle.kfs_model.specs.Spelling.{IsNameRow, name_row_bytes};
    ghost use Rattle.kfs_types.specs.Views.{name_row_of};
    ghost use Rattle.kfs_model.specs.Spelling.{Begins};

    ghost fits = { λ _ _ row. IsNameRow (name_row_of row) };

    ghost begins = { λ _. Begins IsNameRow name_row_bytes };

    fn read(version: u8, source: &'s [u8], at: usize) -> Option<(Self, usize)> {
        let (row, at) = NameRow::<BorrowedName<'s>>::read(version, source, at)?;
        Some((row.owned(), at))
    }
}
