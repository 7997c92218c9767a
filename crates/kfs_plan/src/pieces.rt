//! Right pieces of a log whose entries were judged.
ghost use Rattle.std.specs.Prelude.{◌≤◌, ◌+◌, ◌*◌, IfOk, IsOk, length, map};
ghost use Rattle.std.specs.List.{AllByRecursion};
ghost use Rattle.kfs_model.specs.Access.{Client as ClientRow};
ghost use Rattle.kfs_model.specs.Limits.{entry_limit};
ghost use Rattle.kfs_types.specs.Views.{piece_of, IsSpanned};
ghost use Rattle.kfs_judge.specs.Walks.{HasOrderedSizes, IsWalkOf};
ghost use Rattle.kfs_plan.specs.PlanCheck.{ArePiecesOf};
ghost use Rattle.kfs_pieces.specs.RangeCounts.{grown_count};

use kfs_entry::{Log, Piece};
use kfs_judge::Walk;
use kfs_types::borrowed_entries;
use std::alloc::{AllocError, Allocator};

/// Right pieces of a log: the bytes that it wrote or made zero, each from the last entry that reached
/// it.
///
/// Condition: the walk is this log's own and has no bad entry, and the log is one that `decode_log`
/// gives (at most 4,096 entries, payloads of at most 65,536 bytes). `Err` where memory runs out.
pub fn sweep<A: Allocator + Copy>(
    alloc: A,
    log: &Log<A>,
    walk: &Walk<A>,
) -> Result<Vec<Piece, A>, AllocError>
    requires walked { IsOk walk.now.outcome }
    requires sizes { HasOrderedSizes walk.now }
    requires spans { AllByRecursion IsSpanned log.now.entries }
    requires count { length log.now.entries ≤ entry_limit }
    // They are right pieces of the log at every sound tree, with all leases, that agrees with the
    // walk's reads.
    ensures right { IfOk result (λ out. (client : ClientRow) → IsWalkOf client log.now walk.now → ArePiecesOf client log.now walk.now (map piece_of out.items)) }
    // They are at most two for each file that grew and for each entry.
    ensures few { IfOk result (λ out. length out.items ≤ 2 * (grown_count walk.now.sizes.items + length log.now.entries)) }
{
    let entries = borrowed_entries(alloc, log.entries.as_slice())?;
    let out = kfs_pieces::sweep(alloc, walk.sizes.as_slice(), entries.as_slice())?;
    Ok(out)
}
