//! Logs and plans from bytes.
ghost use Rattle.std.specs.Prelude.{◌≡◌, ◌≤◌, Result, length, drop, IfOk, IfErr};
ghost use Rattle.kfs_model.specs.Limits.{entry_limit};
ghost use Rattle.kfs_model.specs.Entry.{Log as LogValue};
ghost use Rattle.kfs_model.specs.PlanRow.{Plan as PlanValue};
ghost use Rattle.kfs_model.specs.Spelling.{SpellingFault, LogAnswer, PlanAnswer};
ghost use Rattle.kfs_entry.specs.Codec.RowList.{AreRead};
ghost use Rattle.kfs_entry.specs.Missing.{EntryMissing, PartRowMissing};
ghost use Rattle.kfs_entry.specs.Answers.{OnAnswer, log_of, plan_of, AreSpanned, SpansAreWithin};

use crate::codec::{ReadRow, RowsFault, headers, read_rows};
use crate::fault::SpellFault;
use kfs_types::{
    BorrowedEntry, BorrowedName, BorrowedRow, Entry, KeptName, Log, NodeRow, Piece, Plan, RowList,
    Span, borrowed_entries, borrowed_rows, kept_entries, kept_rows, owned_rows,
};
use std::alloc::{AllocError, Allocator};

/// Reads the entries of a log of this version.
fn entries<'s, R: ReadRow<'s>, A: Allocator>(
    alloc: A,
    version: u8,
    source: &'s [u8],
    at: usize,
    count: u16,
) -> Result<(Vec<R, A>, usize), SpellFault>
    requires { at ≤ length source.now }
    ensures found { IfOk result (λ x. AreRead (R.fits version source.now) (R.spelling source.now) source.now at count x.0.items x.1) }
    ensures missing { IfErr result (EntryMissing (R.fits version source.now) (R.spelling source.now) (R.begins version) count (drop at source.now)) }
{
    match read_rows(alloc, version, source, at, u32::from(count)) {
        Ok(read) => Ok(read),
        Err(RowsFault::BadRow(k)) => Err(SpellFault::BadEntry(k as u16)),
        Err(RowsFault::OutOfMemory) => Err(SpellFault::OutOfMemory),
    }
}

/// Reads the rows of one part of a plan of this version.
fn part<'s, R: ReadRow<'s>, A: Allocator>(
    alloc: A,
    version: u8,
    source: &'s [u8],
    at: usize,
    count: u32,
    number: u8,
) -> Result<(Vec<R, A>, usize), SpellFault>
    requires { at ≤ length source.now }
    ensures found { IfOk result (λ x. AreRead (R.fits version source.now) (R.spelling source.now) source.now at count x.0.items x.1) }
    ensures missing { IfErr result (PartRowMissing (R.fits version source.now) (R.spelling source.now) (R.begins version) count number (drop at source.now)) }
{
    match read_rows(alloc, version, source, at, count) {
        Ok(read) => Ok(read),
        Err(RowsFault::BadRow(k)) => Err(SpellFault::BadRow(number, k)),
        Err(RowsFault::OutOfMemory) => Err(SpellFault::OutOfMemory),
    }
}

/// `decode_log`, without the clauses `only` and `count`.
#[tactic(auto, using(crate::proofs::LogsRead::log_read))]
fn log_in<A: Allocator>(alloc: A, source: &[u8]) -> Result<Log<A>, SpellFault>
    ensures found { OnAnswer (log_of source.now) (LogAnswer source.now) result }
    ensures spans { IfOk result (SpansAreWithin (length source.now)) }
    ensures spanned { IfOk result AreSpanned }
{
    let Some((header, at)) = headers::read_log(source) else {
        return Err(SpellFault::BadHeader);
    };
    let version = header.version;
    let (entries, end) = entries::<Entry<Span>, A>(alloc, version, source, at, header.entries)?;
    if end < source.len() {
        return Err(SpellFault::Trailing);
    }
    Ok(Log {
        version,
        client: header.client,
        entries: RowList::from_vec(entries),
    })
}

/// `decode_borrowed_log`, without the clauses `only` and `count`.
#[tactic(auto, using(crate::proofs::LogsRead::log_read))]
fn borrowed_log_in<A: Allocator>(
    alloc: A,
    source: &[u8],
) -> Result<Log<A, BorrowedName<'_>>, SpellFault>
    ensures found { OnAnswer (log_of source.now) (LogAnswer source.now) result }
    ensures spans { IfOk result (SpansAreWithin (length source.now)) }
    ensures spanned { IfOk result AreSpanned }
{
    let Some((header, at)) = headers::read_log(source) else {
        return Err(SpellFault::BadHeader);
    };
    let version = header.version;
    let (entries, end) = entries::<BorrowedEntry<'_>, A>(
        alloc,
        version,
        source,
        at,
        header.entries,
    )?;
    if end < source.len() {
        return Err(SpellFault::Trailing);
    }
    Ok(Log {
        version,
        client: header.client,
        entries: RowList::from_vec(entries),
    })
}

/// Reads a log of version 1 or 2 from bytes. All of `source` must be the log.
///
/// The entries hold spans of `source`: no payload byte is copied or looked at. The list of entries
/// grows from `alloc` as entries are read. Refused with `BadHeader`, `BadEntry(k)` or `Trailing` where
/// the bytes leave the format, and with `OutOfMemory` where memory runs out; nothing is kept then.
pub fn decode_log<A: Allocator>(alloc: A, source: &[u8]) -> Result<Log<A>, SpellFault>
    // Soundness: the answer is right for these bytes.
    ensures found { OnAnswer (log_of source.now) (LogAnswer source.now) result }
    // Completeness: the right answer is given, unless memory runs out.
    ensures only { (answer : Result LogValue SpellingFault) → LogAnswer source.now answer → OnAnswer (log_of source.now) (λ given. given ≡ answer) result }
    ensures spans { IfOk result (SpansAreWithin (length source.now)) }
    // What calls over a log's entries ask for.
    ensures spanned { IfOk result AreSpanned }
    ensures count { IfOk result (λ log. length log.entries ≤ entry_limit) }
{
    log_in(alloc, source)
}

/// The same, with names where they lie in `source`: an entry is 48 bytes long then, and 528 with names
/// of its own.
pub fn decode_borrowed_log<A: Allocator>(
    alloc: A,
    source: &[u8],
) -> Result<Log<A, BorrowedName<'_>>, SpellFault>
    // Soundness: the answer is right for these bytes.
    ensures found { OnAnswer (log_of source.now) (LogAnswer source.now) result }
    // Completeness: the right answer is given, unless memory runs out.
    ensures only { (answer : Result LogValue SpellingFault) → LogAnswer source.now answer → OnAnswer (log_of source.now) (λ given. given ≡ answer) result }
    ensures spans { IfOk result (SpansAreWithin (length source.now)) }
    // What calls over a log's entries ask for.
    ensures spanned { IfOk result AreSpanned }
    ensures count { IfOk result (λ log. length log.entries ≤ entry_limit) }
{
    borrowed_log_in(alloc, source)
}

/// The same log, with names that are kept. `Err` where memory runs out.
pub fn kept_log<A: Allocator + Copy>(
    alloc: A,
    log: &Log<A, BorrowedName<'_>>,
) -> Result<Log<A, KeptName<A>>, AllocError>
    ensures { IfOk result (λ kept. kept ≡ log.now) }
{
    let entries = kept_entries(alloc, log.entries.as_slice())?;
    Ok(Log {
        version: log.version,
        client: log.client,
        entries: RowList::from_vec(entries),
    })
}

/// The same log, with names where they lie in this one. `Err` where memory runs out.
pub fn borrowed_log<A: Allocator>(
    alloc: A,
    log: &Log<A>,
) -> Result<Log<A, BorrowedName<'_>>, AllocError>
    ensures { IfOk result (λ borrowed. borrowed ≡ log.now) }
{
    let entries = borrowed_entries(alloc, log.entries.as_slice())?;
    Ok(Log {
        version: log.version,
        client: log.client,
        entries: RowList::from_vec(entries),
    })
}

/// `decode_borrowed_plan`, with the first of its clauses.
fn plan_in<A: Allocator + Clone>(
    alloc: A,
    source: &[u8],
) -> Result<Plan<A, BorrowedName<'_>>, SpellFault>
    ensures { OnAnswer plan_of (PlanAnswer source.now) result }
{
    let Some((header, at)) = headers::read_plan(source) else {
        return Err(SpellFault::BadHeader);
    };
    let version = header.version;
    let first = alloc.clone()?;
    let second = alloc.clone()?;
    let (names, at) = part::<BorrowedRow<'_>, A>(
        first,
        version,
        source,
        at,
        u32::from(header.names),
        0,
    )?;
    let (nodes, at) = part::<NodeRow, A>(second, version, source, at, u32::from(header.nodes), 1)?;
    let (pieces, end) = part::<Piece, A>(alloc, version, source, at, header.pieces, 2)?;
    if end < source.len() {
        return Err(SpellFault::Trailing);
    }
    Ok(Plan {
        version,
        names: RowList::from_vec(names),
        nodes: RowList::from_vec(nodes),
        pieces: RowList::from_vec(pieces),
    })
}

/// Reads a plan of version 1 or 2 from bytes. All of `source` must be the plan.
///
/// The three lists grow from `alloc` as rows are read. Refused with `BadHeader`, `BadRow(part, k)` or
/// `Trailing` where the bytes leave the format, and with `OutOfMemory` where memory runs out; nothing
/// is kept then.
pub fn decode_plan<A: Allocator + Clone>(alloc: A, source: &[u8]) -> Result<Plan<A>, SpellFault>
    // Soundness: the answer is right for these bytes.
    ensures found { OnAnswer plan_of (PlanAnswer source.now) result }
    // Completeness: the right answer is given, unless memory runs out.
    ensures only { (answer : Result PlanValue SpellingFault) → PlanAnswer source.now answer → OnAnswer plan_of (λ given. given ≡ answer) result }
{
    let names_alloc = alloc.clone()?;
    let plan = decode_borrowed_plan(alloc, source)?;
    Ok(owned_plan(names_alloc, plan)?)
}

/// The same, with names where they lie in `source`.
pub fn decode_borrowed_plan<A: Allocator + Clone>(
    alloc: A,
    source: &[u8],
) -> Result<Plan<A, BorrowedName<'_>>, SpellFault>
    // Soundness: the answer is right for these bytes.
    ensures found { OnAnswer plan_of (PlanAnswer source.now) result }
    // Completeness: the right answer is given, unless memory runs out.
    ensures only { (answer : Result PlanValue SpellingFault) → PlanAnswer source.now answer → OnAnswer plan_of (λ given. given ≡ answer) result }
{
    plan_in(alloc, source)
}

/// The same plan, with names of its own. `Err` where memory runs out.
pub fn owned_plan<A: Allocator>(
    alloc: A,
    plan: Plan<A, BorrowedName<'_>>,
) -> Result<Plan<A>, AllocError>
    ensures { IfOk result (λ owned. owned ≡ plan.entry) }
{
    let Plan {
        version,
        names,
        nodes,
        pieces,
    } = plan;
    let names = owned_rows(alloc, names.as_slice())?;
    Ok(Plan {
        version,
        names: RowList::from_vec(names),
        nodes,
        pieces,
    })
}

/// The same plan, with names that are kept. `Err` where memory runs out.
pub fn kept_plan<A: Allocator + Copy>(
    alloc: A,
    plan: Plan<A, BorrowedName<'_>>,
) -> Result<Plan<A, KeptName<A>>, AllocError>
    ensures { IfOk result (λ kept. kept ≡ plan.entry) }
{
    let Plan {
        version,
        names,
        nodes,
        pieces,
    } = plan;
    let names = kept_rows(alloc, names.as_slice())?;
    Ok(Plan {
        version,
        names: RowList::from_vec(names),
        nodes,
        pieces,
    })
}

/// The same plan, with names where they lie in this one. `Err` where memory runs out.
pub fn borrowed_plan<A: Allocator + Clone>(
    alloc: A,
    plan: &Plan<A>,
) -> Result<Plan<A, BorrowedName<'_>>, AllocError>
    ensures { IfOk result (λ borrowed. borrowed ≡ plan.now) }
{
    let names = borrowed_rows(alloc.clone()?, plan.names.as_slice())?;
    let nodes = Vec::from_slice(alloc.clone()?, plan.nodes.as_slice())?;
    let pieces = Vec::from_slice(alloc, plan.pieces.as_slice())?;
    Ok(Plan {
        version: plan.version,
        names: RowList::from_vec(names),
        nodes: RowList::from_vec(nodes),
        pieces: RowList::from_vec(pieces),
    })
}
