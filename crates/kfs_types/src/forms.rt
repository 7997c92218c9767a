//! Lists of entries and name rows with their names in another form: borrowed, kept, or of their own.
ghost use Rattle.std.specs.Prelude.{◌≡◌, IfOk};

use crate::entry::{BorrowedEntry, Entry, KeptEntry, Span};
use crate::plan::{BorrowedRow, KeptRow, NameRow};
use std::alloc::{AllocError, Allocator};

/// The same entries, with names where they lie in these. `Err` where memory runs out.
pub fn borrowed_entries<A: Allocator>(
    alloc: A,
    entries: &[Entry<Span>],
) -> Result<Vec<BorrowedEntry<'_>, A>, AllocError>
    ensures { IfOk result (λ borrowed. borrowed.items ≡ entries.now) }
{
    let mut borrowed = Vec::with_capacity(alloc, entries.len())?;
    for entry in entries {
        borrowed.push(entry.borrowed())?;
    }
    Ok(borrowed)
}

/// The same entries, with names that are kept. `Err` where memory runs out.
pub fn kept_entries<A: Allocator + Copy>(
    alloc: A,
    entries: &[BorrowedEntry<'_>],
) -> Result<Vec<KeptEntry<A>, A>, AllocError>
    ensures { IfOk result (λ kept. kept.items ≡ entries.now) }
{
    let mut kept = Vec::with_capacity(alloc, entries.len())?;
    for entry in entries {
        kept.push(entry.kept(alloc)?)?;
    }
    Ok(kept)
}

/// The same rows, with names where they lie in these. `Err` where memory runs out.
pub fn borrowed_rows<A: Allocator>(
    alloc: A,
    rows: &[NameRow],
) -> Result<Vec<BorrowedRow<'_>, A>, AllocError>
    ensures { IfOk result (λ borrowed. borrowed.items ≡ rows.now) }
{
    let mut borrowed = Vec::with_capacity(alloc, rows.len())?;
    for row in rows {
        borrowed.push(row.borrowed())?;
    }
    Ok(borrowed)
}

/// The same rows, with names of their own. `Err` where memory runs out.
pub fn owned_rows<A: Allocator>(
    alloc: A,
    rows: &[BorrowedRow<'_>],
) -> Result<Vec<NameRow, A>, AllocError>
    ensures { IfOk result (λ owned. owned.items ≡ rows.now) }
{
    let mut owned = Vec::with_capacity(alloc, rows.len())?;
    for row in rows {
        owned.push(row.owned())?;
    }
    Ok(owned)
}

/// The same rows, with names that are kept. `Err` where memory runs out.
pub fn kept_rows<A: Allocator + Copy>(
    alloc: A,
    rows: &[BorrowedRow<'_>],
) -> Result<Vec<KeptRow<A>, A>, AllocError>
    ensures { IfOk result (λ kept. kept.items ≡ rows.now) }
{
    let mut kept = Vec::with_capacity(alloc, rows.len())?;
    for row in rows {
        kept.push(row.kept(alloc)?)?;
    }
    Ok(kept)
}
