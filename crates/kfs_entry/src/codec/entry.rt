//! An entry of a log: its tag and its fields, as the table lists them.
ghost use Rattle.std.specs.Prelude.{◌≡◌, ◌≤◌, length, drop, IfSome};
ghost use Rattle.kfs_types.specs.Views.{entry_of, IsWithin};
ghost use Rattle.kfs_model.proofs.Reading.{tagged_read, entry_read};
ghost use Rattle.kfs_entry.specs.Codec.Reading.{seen};

use crate::codec::row::{ReadRow, SpelledRow};
use crate::codec::{byte, group, kind, mode, name, number32, number64, payload};
use crate::entry_table;
use kfs_types::{BorrowedName, Entry, Name, Span};
use std::alloc::{AllocError, Allocator};

/// Reads an entry's field. The range of a mode depends on the log's version, and whether there are
/// groups.
macro_rules! read_field {
    (mode $version:ident, $source:ident, $at:ident) => {
        mode::read($version, $source, $at)
    };
    (group $version:ident, $source:ident, $at:ident) => {
        group::read($version, $source, $at)
    };
    ($codec:ident $version:ident, $source:ident, $at:ident) => {
        $codec::read($source, $at)
    };
}

macro_rules! read_case {
    ([$version:ident, $tag:ident, $source:ident, $at:ident] $($number:literal $variant:ident $call:ident { $($field:ident: $codec:ident),* })*) => {
        match $tag {
            $($number => {
                $(let ($field, $at) = read_field!($codec $version, $source, $at)?;)*
                Some((Entry::$variant { $($field),* }, $at))
            })*
            _ => None,
        }
    };
}

macro_rules! write_case {
    ([$out:ident, $source:ident, $entry:ident] $($number:literal $variant:ident $call:ident { $($field:ident: $codec:ident),* })*) => {
        match $entry {
            $(Entry::$variant { $($field),* } => {
                $out.push($number)?;
                $($codec::write($out, $source, $field)?;)*
            })*
        }
    };
}

macro_rules! len_case {
    ([$source:ident, $entry:ident] $($number:literal $variant:ident $call:ident { $($field:ident: $codec:ident),* })*) => {
        match $entry {
            $(Entry::$variant { $($field),* } => 1 $(+ $codec::len($source, $field))*,)*
        }
    };
}

#[tactic(auto, unfolding(kfs_model::proofs::Reading::entry_read))]
fn read_entry(
    version: u8,
    source: &[u8],
    at: usize,
) -> Option<(Entry<Span, BorrowedName<'_>>, usize)>
    requires { at ≤ length source.now }
    ensures value { seen (entry_of source.now) source.now result ≡ entry_read version (drop at source.now) }
    ensures within { IfSome result (λ x. IsWithin (length source.now) x.0 × (x.1 ≤ length source.now)) }
{
    let (tag, at) = byte::read(source, at)?;
    read_fields(version, tag, source, at)
}

/// The entry with this tag, of a log of this version, whose fields are at position `at`, and the
/// position after it.
#[inline(always)]
fn read_fields(
    version: u8,
    tag: u8,
    source: &[u8],
    at: usize,
) -> Option<(Entry<Span, BorrowedName<'_>>, usize)>
    requires { at ≤ length source.now }
    ensures value { seen (entry_of source.now) source.now result ≡ tagged_read version tag (drop at source.now) }
    ensures within { IfSome result (λ x. IsWithin (length source.now) x.0 × (x.1 ≤ length source.now)) }
{
    entry_table!(read_case(version, tag, source, at))
}

impl<'s> SpelledRow for Entry<Span, BorrowedName<'s>> {
    ghost use Rattle.std.specs.Prelude.{length};
    ghost use Rattle.kfs_model.specs.Limits.{latest_version};
    ghost use Rattle.kfs_model.specs.Spelling.{IsEntry, entry_bytes};
    ghost use Rattle.kfs_types.specs.Views.{entry_of, IsWithin};

    ghost spelling = { λ source entry. entry_bytes (entry_of source entry) };

    ghost can_write = { λ source entry. IsWithin (length source) entry × IsEntry latest_version (entry_of source entry) };

    fn write<A: Allocator>(&self, out: &mut Vec<u8, A>, source: &[u8]) -> Result<(), AllocError> {
        entry_table!(write_case(out, source, self));
        Ok(())
    }

    #[tactic(auto, unfolding(kfs_model::specs::Spelling::number16, kfs_model::specs::Spelling::number32, kfs_model::specs::Spelling::number64))]
    fn len(&self, source: &[u8]) -> usize {
        entry_table!(len_case(source, self))
    }
}

impl<'s> ReadRow<'s> for Entry<Span, BorrowedName<'s>> {
    ghost use Rattle.std.specs.Prelude.{length};
    ghost use Rattle.kfs_model.specs.Spelling.{IsEntry, entry_bytes};
    ghost use Rattle.kfs_types.specs.Views.{entry_of, IsWithin};
    ghost use Rattle.kfs_model.specs.Spelling.{Begins};

    ghost fits = { λ version source entry. IsWithin (length source) entry × IsEntry version (entry_of source entry) };

    ghost begins = { λ version. Begins (IsEntry version) entry_bytes };

    fn read(version: u8, source: &'s [u8], at: usize) -> Option<(Self, usize)> {
        read_entry(version, source, at)
    }
}

impl SpelledRow for Entry<Span, Name> {
    ghost use Rattle.std.specs.Prelude.{length};
    ghost use Rattle.kfs_model.specs.Limits.{latest_version};
    ghost use Rattle.kfs_model.specs.Spelling.{IsEntry, entry_bytes};
    ghost use Rattle.kfs_types.specs.Views.{entry_of, IsWithin};

    ghost spelling = { λ source entry. entry_bytes (entry_of source entry) };

    ghost can_write = { λ source entry. IsWithin (length source) entry × IsEntry latest_version (entry_of source entry) };

    fn write<A: Allocator>(&self, out: &mut Vec<u8, A>, source: &[u8]) -> Result<(), AllocError> {
        self.borrowed().write(out, source)
    }

    fn len(&self, source: &[u8]) -> usize {
        self.borrowed().len(source)
    }
}

impl<'s> ReadRow<'s> for Entry<Span, Name> {
    ghost use Rattle.std.specs.Prelude.{length};
    ghost use Rattle.kfs_model.specs.Spelling.{IsEntry, entry_bytes};
    ghost use Rattle.kfs_types.specs.Views.{entry_of, IsWithin};
    ghost use Rattle.kfs_model.specs.Spelling.{Begins};

    ghost fits = { λ version source entry. IsWithin (length source) entry × IsEntry version (entry_of source entry) };

    ghost begins = { λ version. Begins (IsEntry version) entry_bytes };

    fn read(version: u8, source: &'s [u8], at: usize) -> Option<(Self, usize)> {
        let (entry, at) = Entry::<Span, BorrowedName<'s>>::read(version, source, at)?;
        Some((entry.owned(), at))
    }
}
