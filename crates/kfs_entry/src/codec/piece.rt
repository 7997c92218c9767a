//! A piece of a plan: number, start, length, source.
ghost use Rattle.std.specs.Prelude.{◌≡◌, ◌≤◌, ◌++◌, length, drop, IfSome, OnOk};
ghost use Rattle.kfs_model.specs.Spelling.{source_bytes, piece_bytes};
ghost use Rattle.kfs_types.specs.Views.{source_of, piece_of};
ghost use Rattle.kfs_model.proofs.Reading.{source_read, piece_read};
ghost use Rattle.kfs_entry.specs.Codec.Reading.{seen};

use crate::codec::row::{ReadRow, SpelledRow};
use crate::codec::{byte, number16, number32, number64};
use kfs_types::{Piece, Source};
use std::alloc::{AllocError, Allocator};

#[tactic(auto, unfolding(kfs_model::proofs::Reading::source_read))]
fn read_source(source: &[u8], at: usize) -> Option<(Source, usize)>
    requires { at ≤ length source.now }
    ensures value { seen source_of source.now result ≡ source_read (drop at source.now) }
    ensures within { IfSome result (λ x. x.1 ≤ length source.now) }
{
    match byte::read(source, at)? {
        (0, at) => Some((Source::Zero, at)),
        (1, at) => {
            let (entry, at) = number16::read(source, at)?;
            let (place, at) = number32::read(source, at)?;
            Some((Source::Payload { entry, place }, at))
        }
        _ => None,
    }
}

fn write_source<A: Allocator>(
    out: &mut Vec<u8, A>,
    bytes: &[u8],
    value: Source,
) -> Result<(), AllocError>
    ensures { OnOk result (out.new.items ≡ out.old.items ++ source_bytes (source_of value)) }
{
    match value {
        Source::Zero => out.push(0)?,
        Source::Payload { entry, place } => {
            out.push(1)?;
            number16::write(out, bytes, &entry)?;
            number32::write(out, bytes, &place)?;
        }
    }
    Ok(())
}

#[tactic(auto, unfolding(kfs_model::proofs::Reading::piece_read))]
fn read_piece(source: &[u8], at: usize) -> Option<(Piece, usize)>
    requires { at ≤ length source.now }
    ensures value { seen piece_of source.now result ≡ piece_read (drop at source.now) }
    ensures within { IfSome result (λ x. x.1 ≤ length source.now) }
{
    let (number, at) = number32::read(source, at)?;
    let (start, at) = number64::read(source, at)?;
    let (len, at) = number64::read(source, at)?;
    let (source, at) = read_source(source, at)?;
    let piece = Piece {
        number,
        start,
        len,
        source,
    };
    Some((piece, at))
}

impl SpelledRow for Piece {
    ghost use Rattle.kfs_model.specs.Spelling.{piece_bytes};
    ghost use Rattle.kfs_types.specs.Views.{piece_of};

    ghost spelling = { λ _ piece. piece_bytes (piece_of piece) };

    ghost can_write = { λ _ _. Unit {0} };

    fn write<A: Allocator>(&self, out: &mut Vec<u8, A>, source: &[u8]) -> Result<(), AllocError> {
        number32::write(out, source, &self.number)?;
        number64::write(out, source, &self.start)?;
        number64::write(out, source, &self.len)?;
        write_source(out, source, self.source)
    }

    #[tactic(auto, unfolding(kfs_model::specs::Spelling::number16, kfs_model::specs::Spelling::number32, kfs_model::specs::Spelling::number64))]
    fn len(&self, _source: &[u8]) -> usize {
        match self.source {
            Source::Zero => 21,
            Source::Payload { .. } => 27,
        }
    }
}

impl<'s> ReadRow<'s> for Piece {
    ghost use Rattle.kfs_model.specs.Spelling.{IsPiece, piece_bytes};
    ghost use Rattle.kfs_types.specs.Views.{piece_of};
    ghost use Rattle.kfs_model.specs.Spelling.{Begins};

    ghost fits = { λ _ _ piece. IsPiece (piece_of piece) };

    ghost begins = { λ _. Begins IsPiece piece_bytes };

    fn read(_version: u8, source: &'s [u8], at: usize) -> Option<(Self, usize)> {
        read_piece(source, at)
    }
}
