//! Judging the entries of a log against a view.
ghost use Rattle.std.specs.Prelude.{◌≡◌, ℕ, ◌≤◌, false, true, length, IsSome, IfOk, [], None, Ok, OnOk};
ghost use Rattle.kfs_model.specs.Access.{Client as ClientRow};
ghost use Rattle.kfs_model.specs.Lease.{row_of};
ghost use Rattle.kfs_model.specs.Limits.{entry_limit};
ghost use Rattle.kfs_model.specs.Sight.{Sight};
ghost use Rattle.kfs_judge.specs.EntriesEntered.{HasTheirFiles, RunStopsAt, ReadsTheirCells, WritesTheirCells};
ghost use Rattle.kfs_judge_reads.specs.Draft.Overlay.{has_created, over, ShiftsBy, ChangesAreAmong};
ghost use Rattle.kfs_judge_reads.specs.Kept.{keeps_reads};
ghost use Rattle.kfs_judge_reads.specs.Reads.{Agrees, AreOnce};
ghost use Rattle.kfs_judge_reads.specs.Recorders.{GoesOn};
ghost use Rattle.kfs_judge_reads.specs.View.{clients_of, client_sight_in};
ghost use Rattle.kfs_judge.specs.Walks.{HasOrderedSizes, IsRowOf, IsSameOutcome, IsWalkOf, IsCellWalkOf, ReadsLookedCells};

use crate::check::Reason;
use crate::step::LogJudge;
use kfs_entry::{BorrowedEntry, BorrowedName, Log, Name, borrowed_log};
use kfs_image_nodes::{Net, owned_net};
use kfs_judge_reads::{Keeping, Reads, View};
use kfs_pieces::FileSize;
use std::alloc::{AllocError, Allocator};
use thiserror::Error;

/// The first bad entry of a log.
#[derive(Clone, Copy, Debug, PartialEq, Eq, Error)]
#[error("entry {index} {reason}")]
pub struct EntryFault {
    /// Its index in the log, from 0.
    pub index: usize,
    /// The reason of its first check that fails.
    pub reason: Reason,
}

/// The outcome of judging a log's entries, with the reads that it rests on.
/// `N` is how a name stands in the net, as in an `Entry`.
#[derive(Drop)]
pub struct Walk<A: Allocator, N = Name> {
    /// What was read of the view, with the answers, in order.
    pub reads: Reads<A>,
    /// The net change, or the first bad entry.
    pub outcome: Result<Net<A, N>, EntryFault>,
    /// The sizes of the files that the log changes or reaches, ascending by number. Empty where there
    /// is a bad entry.
    pub sizes: Vec<FileSize, A>,
}

/// Judges the entries of a log against a view. Condition: the log's client is one of the view's, and
/// there are at most 4,096 entries. The reads are kept, each once, in the order of the first look.
///
/// A bad entry is an outcome, not an error. `Err` only where memory runs out; nothing is kept then.
pub fn judge_entries<A: Allocator + Copy>(
    alloc: A,
    view: &View<A>,
    log: &Log<A>,
) -> Result<Walk<A>, AllocError>
    requires client { IsSome (row_of (clients_of view.now) log.now.client) }
    requires count { length log.now.entries ≤ entry_limit }
    // The outcome is right at every sound tree, with all leases, that agrees with the reads, whatever
    // bytes the payloads are.
    ensures known { IfOk result (λ walk. (client : ClientRow) × IsRowOf (clients_of view.now) log.now.client client × IsWalkOf client log.now walk) }
    ensures view_agrees { IfOk result (λ walk. Agrees walk.reads.entries (client_sight_in view.now log.now.client)) }
    ensures once { IfOk result (λ walk. AreOnce walk.reads.entries) }
    ensures among { IfOk result (ReadsLookedCells view.now log.now) }
    ensures keeps { IfOk result (λ walk. walk.reads.keeps ≡ true) }
    ensures sizes { IfOk result HasOrderedSizes }
{
    judge_entries_keeping(alloc, view, log, Keeping::Reads)
}

/// The same, where the caller says whether the reads are kept.
pub fn judge_entries_keeping<A: Allocator + Copy>(
    alloc: A,
    view: &View<A>,
    log: &Log<A>,
    keeping: Keeping,
) -> Result<Walk<A>, AllocError>
    requires client { IsSome (row_of (clients_of view.now) log.now.client) }
    requires count { length log.now.entries ≤ entry_limit }
    // The outcome is right at every sound tree, with all leases, that agrees with the reads, whatever
    // bytes the payloads are.
    ensures known { IfOk result (λ walk. (client : ClientRow) × IsRowOf (clients_of view.now) log.now.client client × IsWalkOf client log.now walk) }
    ensures view_agrees { IfOk result (λ walk. Agrees walk.reads.entries (client_sight_in view.now log.now.client)) }
    ensures once { keeping ≡ Keeping.Reads → IfOk result (λ walk. AreOnce walk.reads.entries) }
    ensures among { IfOk result (ReadsLookedCells view.now log.now) }
    ensures keeps { IfOk result (λ walk. walk.reads.keeps ≡ keeps_reads keeping) }
    ensures sizes { IfOk result HasOrderedSizes }
{
    let borrowed = borrowed_log(alloc, log)?;
    let walk = judge_borrowed(alloc, view, &borrowed, keeping)?;
    let owned = owned_walk(alloc, walk)?;
    Ok(owned)
}

/// The same walk, with names of its own in the net. `Err` where memory runs out.
fn owned_walk<A: Allocator + Copy>(
    alloc: A,
    walk: Walk<A, BorrowedName<'_>>,
) -> Result<Walk<A>, AllocError>
    ensures reads { IfOk result (λ owned. owned.reads ≡ walk.entry.reads) }
    ensures outcome { IfOk result (λ owned. IsSameOutcome walk.entry.outcome owned.outcome) }
    ensures sizes { IfOk result (λ owned. owned.sizes ≡ walk.entry.sizes) }
{
    let Walk {
        reads,
        sizes,
        outcome,
    } = walk;
    let outcome = match outcome {
        Ok(net) => Ok(owned_net(alloc, net)?),
        Err(fault) => Err(fault),
    };
    Ok(Walk {
        reads,
        sizes,
        outcome,
    })
}

/// The same of a log whose names lie in its bytes.
pub fn judge_borrowed<'s, A: Allocator + Copy>(
    alloc: A,
    view: &View<A>,
    log: &Log<A, BorrowedName<'s>>,
    keeping: Keeping,
) -> Result<Walk<A, BorrowedName<'s>>, AllocError>
    requires client { IsSome (row_of (clients_of view.now) log.now.client) }
    requires count { length log.now.entries ≤ entry_limit }
    // The outcome is right at every sound tree, with all leases, that agrees with the reads, whatever
    // bytes the payloads are.
    ensures known { IfOk result (λ walk. (client : ClientRow) × IsRowOf (clients_of view.now) log.now.client client × IsWalkOf client log.now walk) }
    ensures view_agrees { IfOk result (λ walk. Agrees walk.reads.entries (client_sight_in view.now log.now.client)) }
    ensures once { keeping ≡ Keeping.Reads → IfOk result (λ walk. AreOnce walk.reads.entries) }
    ensures among { IfOk result (ReadsLookedCells view.now log.now) }
    ensures keeps { IfOk result (λ walk. walk.reads.keeps ≡ keeps_reads keeping) }
    ensures sizes { IfOk result HasOrderedSizes }
{
    let walk = walk_entries(alloc, view, log, Reads::new(alloc, keeping))?;
    Ok(walk)
}

/// The same over cells. What is read goes into `reads`, where there is none yet.
fn walk_entries<'s, A: Allocator + Copy>(
    alloc: A,
    view: &View<A>,
    log: &Log<A, BorrowedName<'s>>,
    reads: Reads<A>,
) -> Result<Walk<A, BorrowedName<'s>>, AllocError>
    requires client { IsSome (row_of (clients_of view.now) log.now.client) }
    requires count { length log.now.entries ≤ entry_limit }
    requires none { reads.entries ≡ [] }
    // The outcome is right in every state that agrees with the reads.
    ensures known { IfOk result (λ walk. (client : ClientRow) × IsRowOf (clients_of view.now) log.now.client client × IsCellWalkOf client log.now walk) }
    ensures view_agrees { IfOk result (λ walk. Agrees walk.reads.entries (client_sight_in view.now log.now.client)) }
    ensures once { IfOk result (λ walk. reads.keeps ≡ true → AreOnce walk.reads.entries) }
    ensures among { IfOk result (ReadsLookedCells view.now log.now) }
    ensures keeps { IfOk result (λ walk. walk.reads.keeps ≡ reads.keeps) }
    ensures sizes { IfOk result HasOrderedSizes }
{
    let client = view.client(log.client).unwrap();
    let mut judge = LogJudge::new(alloc, view, client, reads);
    let fault = enter_all(&mut judge, log.entries.as_slice())?;
    if let Some(fault) = fault {
        return Ok(Walk {
            reads: judge.into_reads(),
            outcome: Err(fault),
            sizes: Vec::new(alloc),
        });
    }
    let net = judge.net(alloc)?;
    let sizes = judge.sizes(alloc)?;
    Ok(Walk {
        reads: judge.into_reads(),
        outcome: Ok(net),
        sizes,
    })
}

/// Enters the entries in order, up to the first bad one.
fn enter_all<'e, 's, A: Allocator + Copy>(
    judge: &mut LogJudge<'_, 'e, 's, A>,
    entries: &'e [BorrowedEntry<'s>],
) -> Result<Option<EntryFault>, AllocError>
    requires count { length entries.now ≤ entry_limit }
    requires shown { (s : Sight) → over judge.old.draft s ≡ s }
    requires created { (n : ℕ) → has_created judge.old.draft n ≡ false }
    requires written { ChangesAreAmong judge.old.draft [] }
    requires shifts { ShiftsBy 0 judge.old.draft }
    ensures goes { GoesOn judge.old.recorder judge.new.recorder }
    ensures client { judge.new.client.now ≡ judge.old.client.now }
    ensures known { IfOk result (RunStopsAt judge.old judge.new entries.now) }
    ensures among { OnOk result (ReadsTheirCells judge.old judge.new entries.now) }
    ensures written { result ≡ Ok None → WritesTheirCells judge.old judge.new entries.now }
    ensures reached { result ≡ Ok None → HasTheirFiles judge.new entries.now }
{
    for (index, entry) in entries.iter().enumerate() {
        if let Some(reason) = judge.enter(entry)? {
            return Ok(Some(EntryFault { index, reason }));
        }
    }
    Ok(None)
}
