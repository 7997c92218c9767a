//! A plan's rows, checked against what its log leads to.
ghost use Rattle.std.specs.Prelude.{◌≡◌, ◌≤◌, length, map, nat_eq, position, zip, not, IsOk};
ghost use Rattle.std.specs.List.{AllByRecursion};
ghost use Rattle.kfs_model.specs.Access.{Client as ClientRow};
ghost use Rattle.kfs_model.specs.FirstWrong.{first_difference, same_pair, same_place};
ghost use Rattle.kfs_model.specs.Limits.{entry_limit};
ghost use Rattle.kfs_types.specs.Views.{IsSpanned};
ghost use Rattle.kfs_image_nodes.specs.Lent.{net_in, rows_in};
ghost use Rattle.kfs_pieces.specs.Sizes.{SizesAscend, IsSize};
ghost use Rattle.kfs_judge.specs.Walks.{HasOrderedSizes, IsWalkOf};
ghost use Rattle.kfs_judge.specs.Step.Rows.{keyed_name_row};
ghost use Rattle.kfs_plan.specs.PlanCheck.{at_end, is_same_row, TellsOfEachRun, TellsOfEachTree};
ghost use Rattle.kfs_plan.specs.declared.rows.RowFault.TheVariants.{OutOfMemory};

use kfs_entry::{BorrowedName, BorrowedRow, Log, NameRow, Plan, borrowed_log, borrowed_plan};
use kfs_image_nodes::{LentNet, NameRows};
use kfs_judge::Walk;
use kfs_pieces::{FileSize, first_piece_apart, need_of, sweep};
use kfs_types::KeptRow;
use std::alloc::{AllocError, Allocator};
use thiserror::Error;

/// Why a plan isn't right for its log. Names are checked before nodes, nodes before pieces. Indices
/// count from 0.
#[derive(Clone, Copy, Debug, PartialEq, Eq, Error)]
pub enum RowFault {
    /// 1: the first name row that differs from the right list; where one list is a prefix of the other,
    /// the shorter length.
    #[error("Names({0})")]
    Names(usize),
    /// 2: the same for the node rows.
    #[error("Nodes({0})")]
    Nodes(usize),
    /// 3: the first piece that is empty, or differs from the next bytes that the log changed; if all
    /// agree but bytes are missing at the end, the number of pieces.
    #[error("Pieces({0})")]
    Pieces(usize),
    /// Memory was refused.
    #[error("memory")]
    OutOfMemory,
}

impl From<AllocError> for RowFault {
    ghost from_gives = { λ _ fault. fault ≡ OutOfMemory };

    fn from(_error: AllocError) -> RowFault {
        RowFault::OutOfMemory
    }
}

/// Checks a plan against its log: names, then nodes, then pieces, each list from its first row on.
/// Answers `need`: how many blocks the landing writes.
///
/// Condition: the walk is this log's own and has no bad entry, and the log is one that `decode_log`
/// gives (at most 4,096 entries, payloads of at most 65,536 bytes). Refused with the first wrong row,
/// or with `OutOfMemory`. Nothing is changed.
pub fn check_plan<A: Allocator + Copy>(
    alloc: A,
    log: &Log<A>,
    walk: &Walk<A>,
    plan: &Plan<A>,
) -> Result<u64, RowFault>
    requires walked { IsOk walk.now.outcome }
    requires sizes { HasOrderedSizes walk.now }
    requires spans { AllByRecursion IsSpanned log.now.entries }
    requires count { length log.now.entries ≤ entry_limit }
    // At every sound tree, with all leases, that agrees with the walk's reads: the first wrong row is
    // answered, or the need.
    ensures { (client : ClientRow) → IsWalkOf client log.now walk.now → TellsOfEachTree client log.now walk.now plan.now result }
{
    let net = walk.outcome.as_ref().unwrap();
    let lent_log = borrowed_log(alloc, log)?;
    let lent_plan = borrowed_plan(alloc, plan)?;
    let sizes = walk.sizes.as_slice();
    check_rows(alloc, &lent_log, sizes, LentNet::Owned(net), &lent_plan)
}

/// Checks a plan against a net, and against right pieces of the log; `sizes` are the sizes of its
/// files.
pub fn check_rows<A: Allocator + Copy>(
    alloc: A,
    log: &Log<A, BorrowedName<'_>>,
    sizes: &[FileSize],
    net: LentNet<'_, '_, A>,
    plan: &Plan<A, BorrowedName<'_>>,
) -> Result<u64, RowFault>
    requires ascending { SizesAscend 0 sizes.now }
    requires sizes { AllByRecursion IsSize sizes.now }
    requires spans { AllByRecursion IsSpanned log.now.entries }
    requires count { length log.now.entries ≤ entry_limit }
    ensures { TellsOfEachRun sizes.now log.now (net_in net.entry) plan.now result }
{
    if let Some(row) = first_name_apart(plan.names.as_slice(), net.names()) {
        return Err(RowFault::Names(row));
    }
    if let Some(row) = first_difference(plan.nodes.as_slice(), net.nodes().as_slice()) {
        return Err(RowFault::Nodes(row));
    }
    let right = sweep(alloc, sizes, log.entries.as_slice())?;
    if let Some(row) = first_piece_apart(plan.pieces.as_slice(), right.as_slice()) {
        return Err(RowFault::Pieces(row));
    }
    Ok(need_of(right.as_slice(), sizes))
}

/// The index of the first name row that differs from the net's; where one list is a prefix of the other,
/// the shorter length.
fn first_name_apart<A: Allocator>(
    rows: &[BorrowedRow<'_>],
    right: NameRows<'_, '_, A>,
) -> Option<usize>
    ensures { result ≡ first_difference (same_pair same_place nat_eq) (map keyed_name_row rows.now) (map keyed_name_row (rows_in right.entry)) }
{
    match right {
        NameRows::Owned(right) => {
            let differs = first_unlike_owned(rows, right);
            at_end(differs, rows.len(), right.len())
        }
        NameRows::Borrowed(right) => {
            let differs = first_unlike_borrowed(rows, right);
            at_end(differs, rows.len(), right.len())
        }
        NameRows::Kept(right) => {
            let differs = first_unlike_kept(rows, right);
            at_end(differs, rows.len(), right.len())
        }
    }
}

/// The first index at which both lists have a name row and the rows differ.
fn first_unlike_owned(rows: &[BorrowedRow<'_>], right: &[NameRow]) -> Option<usize>
    ensures { result ≡ position (λ pair. not (is_same_row pair.0 pair.1)) (zip rows.now right.now) }
{
    rows.iter()
        .zip(right)
        .position(|pair| !is_same_row(pair.0, &pair.1.borrowed()))
}

/// The same where names are borrowed.
fn first_unlike_borrowed(rows: &[BorrowedRow<'_>], right: &[BorrowedRow<'_>]) -> Option<usize>
    ensures { result ≡ position (λ pair. not (is_same_row pair.0 pair.1)) (zip rows.now right.now) }
{
    rows.iter()
        .zip(right)
        .position(|pair| !is_same_row(pair.0, pair.1))
}

/// The same where names are kept.
fn first_unlike_kept<A: Allocator>(rows: &[BorrowedRow<'_>], right: &[KeptRow<A>]) -> Option<usize>
    ensures { result ≡ position (λ pair. not (is_same_row pair.0 pair.1)) (zip rows.now right.now) }
{
    rows.iter()
        .zip(right)
        .position(|pair| !is_same_row(pair.0, &pair.1.borrowed()))
}

fn is_same_row(row: &BorrowedRow<'_>, right: &BorrowedRow<'_>) -> bool
    ensures { result ≡ is_same_row row.now right.now }
{
    row.dir == right.dir && row.name == right.name && row.number == right.number
}

/// The index of the first difference; where one list is a prefix of the other, the shorter length.
fn first_difference<T: PartialEq>(rows: &[T], right: &[T]) -> Option<usize>
    ensures { result ≡ first_difference T.eq rows.now right.now }
{
    let differs = first_unequal(rows, right);
    at_end(differs, rows.len(), right.len())
}

/// The index at which two lists of these lengths differ, or else where the shorter one ends.
fn at_end(differs: Option<usize>, len: usize, right_len: usize) -> Option<usize>
    ensures { result ≡ at_end differs len right_len }
{
    if differs.is_some() {
        return differs;
    }
    if len == right_len {
        None
    } else {
        Some(len.min(right_len))
    }
}

/// The first index at which both lists have a row and the rows differ.
fn first_unequal<T: PartialEq>(rows: &[T], right: &[T]) -> Option<usize>
    ensures { result ≡ position (λ pair. not (T.eq pair.0 pair.1)) (zip rows.now right.now) }
{
    rows.iter().zip(right).position(|pair| pair.0 != pair.1)
}
