//! Lists of byte ranges, one laid over another. A range of bytes of one file that one entry of a log
//! made.
ghost use Rattle.std.specs.Prelude.{◌≡◌, ◌<◌, ◌≤◌, ◌*◌, ◌++◌, IfOk, ℕ, List, [], ◌∷◌};
ghost use Rattle.kfs_pieces.specs.ByteRanges.{AreFrom, begins_before, cut_below, cut_from, ends_by, last_origin, merged, origin_at};
ghost use Rattle.std.specs.List.{AllByRecursion};
ghost use Rattle.kfs_pieces.specs.Made.{IsFit};
ghost use Rattle.kfs_pieces.specs.RangeCounts.{edge_count, filled_count};
ghost use Rattle.kfs_pieces.specs.Rests.{rest_of};

use crate::compare::{Rest, from_next};
use std::alloc::{AllocError, Allocator};

/// Whether the range ends at this byte of the file, or before it.
fn is_over(range: &ByteRange, number: u32, place: u64) -> bool
    ensures { result ≡ ends_by number place range.now }
{
    range.number < number || range.number == number && range.end <= place
}

/// Whether the range begins before this byte of the file.
fn has_begun(range: &ByteRange, number: u32, place: u64) -> bool
    ensures { result ≡ begins_before number place range.now }
{
    range.number == number && range.start < place
}

/// Moves to `out` what lies before the byte, and answers what is left.
fn take_below<A: Allocator>(
    out: &mut Vec<ByteRange, A>,
    list: &[ByteRange],
    rest: Rest<ByteRange>,
    number: u32,
    place: u64,
) -> Result<Rest<ByteRange>, AllocError>
    ensures taken { IfOk result (λ _. out.new.items ≡ out.old.items ++ cut_below number place (rest_of list.now rest)) }
    ensures left { IfOk result (λ left. rest_of list.now left ≡ cut_from number place (rest_of list.now rest)) }
{
    let mut left = rest;
    while let Some(range) = left.front {
        if is_over(&range, number, place) {
            out.push(range)?;
            left = from_next(list, left.next);
        } else if has_begun(&range, number, place) {
            out.push(ByteRange {
                end: place,
                ..range
            })?;
            let back = ByteRange {
                start: place,
                ..range
            };
            return Ok(Rest {
                front: Some(back),
                next: left.next,
            });
        } else {
            return Ok(left);
        }
    }
    Ok(left)
}

/// What is left without what lies before the byte.
fn skip_below(list: &[ByteRange], rest: Rest<ByteRange>, number: u32, place: u64) -> Rest<ByteRange>
    ensures { rest_of list.now result ≡ cut_from number place (rest_of list.now rest) }
{
    let mut left = rest;
    while let Some(range) = left.front {
        if is_over(&range, number, place) {
            left = from_next(list, left.next);
        } else if has_begun(&range, number, place) {
            let back = ByteRange {
                start: place,
                ..range
            };
            return Rest {
                front: Some(back),
                next: left.next,
            };
        } else {
            return left;
        }
    }
    left
}

/// Moves to `out` all that is left.
fn take_all<A: Allocator>(
    out: &mut Vec<ByteRange, A>,
    list: &[ByteRange],
    rest: Rest<ByteRange>,
) -> Result<(), AllocError>
    ensures { IfOk result (λ _. out.new.items ≡ out.old.items ++ rest_of list.now rest) }
{
    let mut left = rest;
    while let Some(range) = left.front {
        out.push(range)?;
        left = from_next(list, left.next);
    }
    Ok(())
}

/// The upper list laid over the lower one: all of the upper list, and of the lower one what the upper
/// one doesn't cover.
pub fn laid_over<A: Allocator>(
    alloc: A,
    lower: &[ByteRange],
    upper: &[ByteRange],
) -> Result<Vec<ByteRange, A>, AllocError>
    ensures { IfOk result (λ out. out.items ≡ merged lower.now upper.now) }
{
    let mut out = Vec::new(alloc);
    let mut rest = from_next(lower, 0);
    for range in upper {
        let left = take_below(&mut out, lower, rest, range.number, range.start)?;
        out.push(*range)?;
        rest = skip_below(lower, left, range.number, range.end);
    }
    take_all(&mut out, lower, rest)?;
    Ok(out)
}

/// For each byte, the last of the ranges that has it. Ranges may overlap and be empty; a later one
/// hides an earlier one. `Err` where memory runs out.
pub fn last_of_all<A: Allocator + Copy>(
    alloc: A,
    ranges: &[ByteRange],
) -> Result<Vec<ByteRange, A>, AllocError>
    ensures order { IfOk result (λ out. AreFrom 0 0 out.items) }
    ensures says { IfOk result (λ out. (number place : ℕ) → origin_at out.items number place ≡ last_origin ranges.now number place) }
    ensures fit { IfOk result (λ out. AllByRecursion IsFit ranges.now → AllByRecursion IsFit out.items) }
    // They are at most two for each range, since they begin and end only where ranges do.
    ensures few { IfOk result (λ out. edge_count 0 0 out.items ≤ 2 * filled_count ranges.now) }
{
    match ranges {
        [] => Ok(Vec::new(alloc)),
        [range] => alone(alloc, range),
        [lower, upper] if lower.start < lower.end && upper.start < upper.end => {
            one_over(alloc, lower, upper)
        }
        _ => {
            let middle = ranges.len() / 2;
            let earlier = last_of_all(alloc, &ranges[..middle])?;
            let later = last_of_all(alloc, &ranges[middle..])?;
            let out = laid_over(alloc, earlier.as_slice(), later.as_slice())?;
            Ok(out)
        }
    }
}

/// The range as a list of one, or no range where it is empty.
fn alone<A: Allocator>(alloc: A, range: &ByteRange) -> Result<Vec<ByteRange, A>, AllocError>
    ensures order { IfOk result (λ out. AreFrom 0 0 out.items) }
    ensures says { IfOk result (λ out. (number place : ℕ) → origin_at out.items number place ≡ last_origin (range.now ∷ []) number place) }
    ensures fit { IfOk result (λ out. IsFit range.now → AllByRecursion IsFit out.items) }
    ensures few { IfOk result (λ out. edge_count 0 0 out.items ≤ 2 * filled_count (range.now ∷ [])) }
{
    let mut out = Vec::new(alloc);
    if range.start < range.end {
        out.push(*range)?;
    }
    Ok(out)
}

/// One range laid over another; neither is empty. As each is a list in order, no list is made of it.
fn one_over<A: Allocator>(
    alloc: A,
    lower: &ByteRange,
    upper: &ByteRange,
) -> Result<Vec<ByteRange, A>, AllocError>
    requires lower { lower.now.start < lower.now.end }
    requires upper { upper.now.start < upper.now.end }
    ensures order { IfOk result (λ out. AreFrom 0 0 out.items) }
    ensures says { IfOk result (λ out. (number place : ℕ) → origin_at out.items number place ≡ last_origin (lower.now ∷ upper.now ∷ []) number place) }
    ensures fit { IfOk result (λ out. IsFit lower.now → IsFit upper.now → AllByRecursion IsFit out.items) }
    ensures few { IfOk result (λ out. edge_count 0 0 out.items ≤ 2 * filled_count (lower.now ∷ upper.now ∷ [])) }
{
    let out = laid_over(alloc, &[*lower], &[*upper])?;
    Ok(out)
}

/// What the bytes are: zero, or part of the payload of the entry with this index. The payload's first
/// byte is at position `offset` of the file.
#[derive(Clone, Copy, Debug, PartialEq, Eq)]
pub enum Origin {
    /// Zero bytes.
    Zero,
    /// Part of a payload.
    Payload { entry: u16, offset: u64 },
}

/// Bytes of one file.
#[derive(Clone, Copy, Debug, PartialEq, Eq)]
pub struct ByteRange {
    /// The file's number.
    pub number: u32,
    /// The position of the first byte, from 0.
    pub start: u64,
    /// The position after the last byte.
    pub end: u64,
    /// What they are.
    pub origin: Origin,
}
