//! Which bytes of files the entries of a log change. The sizes of the files that a log changes. Right
//! pieces of a log, made from byte ranges.
ghost use Rattle.std.specs.Prelude.{◌≡◌, ◌≤◌, ◌+◌, ◌*◌, ◌++◌, IfOk, IfSome, length, map, ◌<◌, ℕ};
ghost use Rattle.std.specs.List.{AllByRecursion};
ghost use Rattle.kfs_model.specs.Limits.{entry_limit};
ghost use Rattle.kfs_types.specs.Views.{piece_of, IsSpanned};
ghost use Rattle.kfs_pieces.specs.Lefts.{IsFilled, PieceIsInRange};
ghost use Rattle.kfs_pieces.specs.Made.{IsFit, made, range_of, AreRightOf, piece_made, pieces_made};
ghost use Rattle.kfs_pieces.specs.Parts.{AreByNumber};
ghost use Rattle.kfs_pieces.specs.RangeCounts.{grown_count, filled_count};
ghost use Rattle.kfs_pieces.specs.Sizes.{AreRightFrom, SizesAscend, IsSize, growth_of, growths, length_after, reach_in};
ghost use Rattle.kfs_pieces.specs.ByteRanges.{AreFrom};

use crate::merge::{ByteRange, Origin, last_of_all};
use kfs_types::{BorrowedEntry, Entry, Piece, Source};
use std::alloc::{AllocError, Allocator};

/// The range between a file's sizes before and after; empty where it didn't grow.
fn growth(size: &FileSize) -> ByteRange
    requires { IsSize size.now }
    ensures made { result ≡ growth_of size.now }
    ensures fit { IsFit result }
{
    ByteRange {
        number: size.number,
        start: size.before,
        end: size.after,
        origin: Origin::Zero,
    }
}

/// The range that the entry with this index changes in its file, cut off at the file's size after the
/// log. None where the entry is neither a Write nor a Truncate.
fn reach(sizes: &[FileSize], index: u16, entry: &BorrowedEntry<'_>) -> Option<ByteRange>
    requires ascending { SizesAscend 0 sizes.now }
    requires sizes { AllByRecursion IsSize sizes.now }
    requires span { IsSpanned entry.now }
    ensures made { result ≡ range_of (length_after sizes.now) index (reach_in entry.now) }
    ensures fit { IfSome result IsFit }
{
    match entry {
        Entry::Write {
            number,
            offset,
            payload,
        } => {
            let end = offset.saturating_add((payload.end - payload.start) as u64);
            Some(ByteRange {
                number: *number,
                start: *offset,
                end: end.min(size_after(sizes, *number)),
                origin: Origin::Payload {
                    entry: index,
                    offset: *offset,
                },
            })
        }
        Entry::Truncate { number, size } => Some(ByteRange {
            number: *number,
            start: *size,
            end: size_after(sizes, *number),
            origin: Origin::Zero,
        }),
        _ => None,
    }
}

/// The ranges that a log changes: first what each listed file grew by, if it did, then what each Write
/// and Truncate changes.
fn ranges_of<A: Allocator>(
    alloc: A,
    sizes: &[FileSize],
    entries: &[BorrowedEntry<'_>],
) -> Result<Vec<ByteRange, A>, AllocError>
    requires ascending { SizesAscend 0 sizes.now }
    requires sizes { AllByRecursion IsSize sizes.now }
    requires spans { AllByRecursion IsSpanned entries.now }
    requires count { length entries.now ≤ entry_limit }
    ensures made { IfOk result (λ out. out.items ≡ growths sizes.now ++ made (length_after sizes.now) 0 (map reach_in entries.now)) }
    ensures fit { IfOk result (λ out. AllByRecursion IsFit out.items) }
{
    let mut out = Vec::new(alloc);
    for size in sizes {
        if size.before < size.after {
            out.push(growth(size))?;
        }
    }
    for (index, entry) in entries.iter().enumerate() {
        if let Some(range) = reach(sizes, index as u16, entry) {
            out.push(range)?;
        }
    }
    Ok(out)
}

/// Right pieces of a log, from its entries and the sizes of files. `sizes` lists, ascending by number,
/// each file that grew or that a Write or Truncate names, if it is there after the log.
///
/// Condition: at most 4,096 entries, with payloads and sizes in their ranges. `Err` where memory is
/// refused.
pub fn sweep<A: Allocator + Copy>(
    alloc: A,
    sizes: &[FileSize],
    entries: &[BorrowedEntry<'_>],
) -> Result<Vec<Piece, A>, AllocError>
    requires ascending { SizesAscend 0 sizes.now }
    requires sizes { AllByRecursion IsSize sizes.now }
    requires spans { AllByRecursion IsSpanned entries.now }
    requires count { length entries.now ≤ entry_limit }
    ensures right { IfOk result (λ out. AreRightFrom sizes.now entries.now (map piece_of out.items)) }
    ensures whole { IfOk result (λ out. AllByRecursion PieceIsInRange out.items) }
    ensures filled { IfOk result (λ out. AllByRecursion IsFilled out.items) }
    ensures order { IfOk result (λ out. AreByNumber 0 out.items) }
    // They are at most two for each file that grew and for each entry.
    ensures few { IfOk result (λ out. length out.items ≤ 2 * (grown_count sizes.now + length entries.now)) }
{
    let ranges = ranges_of(alloc, sizes, entries)?;
    let out = right_pieces(alloc, ranges.as_slice())?;
    Ok(out)
}

/// The sizes of one file before and after a log.
#[derive(Clone, Copy, Debug, PartialEq, Eq)]
pub struct FileSize {
    /// The file's number.
    pub number: u32,
    /// In bytes; 0 where the file wasn't there.
    pub before: u64,
    /// In bytes; 0 where the file is gone.
    pub after: u64,
}

/// The file's size after the log, 0 where it isn't listed. The numbers ascend, so it is found by binary
/// search.
pub(crate) fn size_after(sizes: &[FileSize], number: u32) -> u64
    requires { SizesAscend 0 sizes.now }
    ensures { result ≡ length_after sizes.now number }
{
    let place = sizes.partition_point(|size| size.number < number);
    match sizes.get(place) {
        Some(size) => { if size.number == number { size.after } else { 0 } }
        None => 0,
    }
}

/// A range as a piece of a plan.
fn piece_from(range: &ByteRange) -> Piece
    requires fit { IsFit range.now }
    requires filled { range.now.start < range.now.end }
    ensures made { piece_of result ≡ piece_made range.now }
    ensures whole { PieceIsInRange result }
    ensures filled { IsFilled result }
{
    let source = match range.origin {
        Origin::Zero => Source::Zero,
        Origin::Payload { entry, offset } => Source::Payload {
            entry,
            place: (range.start - offset) as u32,
        },
    };
    Piece {
        number: range.number,
        start: range.start,
        len: range.end - range.start,
        source,
    }
}

/// The ranges as pieces of a plan.
fn pieces_from<A: Allocator>(alloc: A, ranges: &[ByteRange]) -> Result<Vec<Piece, A>, AllocError>
    requires fit { AllByRecursion IsFit ranges.now }
    requires order { AreFrom 0 0 ranges.now }
    ensures made { IfOk result (λ out. map piece_of out.items ≡ pieces_made ranges.now) }
    ensures whole { IfOk result (λ out. AllByRecursion PieceIsInRange out.items) }
    ensures filled { IfOk result (λ out. AllByRecursion IsFilled out.items) }
    ensures order { IfOk result (λ out. AreByNumber 0 out.items) }
{
    let mut out = Vec::new(alloc);
    for range in ranges {
        out.push(piece_from(range))?;
    }
    Ok(out)
}

/// Right pieces of a log, from the ranges that it changed: first what each file grew by, then what each
/// entry changes, in the log's order. `Err` where memory runs out.
pub fn right_pieces<A: Allocator + Copy>(
    alloc: A,
    ranges: &[ByteRange],
) -> Result<Vec<Piece, A>, AllocError>
    requires fit { AllByRecursion IsFit ranges.now }
    ensures right { IfOk result (λ out. AreRightOf ranges.now (map piece_of out.items)) }
    ensures whole { IfOk result (λ out. AllByRecursion PieceIsInRange out.items) }
    ensures filled { IfOk result (λ out. AllByRecursion IsFilled out.items) }
    ensures order { IfOk result (λ out. AreByNumber 0 out.items) }
    ensures few { IfOk result (λ out. length out.items ≤ 2 * filled_count ranges.now) }
{
    let laid = last_of_all(alloc, ranges)?;
    let out = pieces_from(alloc, laid.as_slice())?;
    Ok(out)
}
