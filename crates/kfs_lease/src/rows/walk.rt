//! Walks over rows and ends, one after another in their order, and the first row of another client.
ghost use Rattle.std.specs.Prelude.{◌≡◌, ◌≤◌, IfSome, IfNone, OnOk};
ghost use Rattle.kfs_model.specs.Lease.{live_at};
ghost use Rattle.kfs_maps.specs.Chunks.Starts.{IsNextEntry};
ghost use Rattle.kfs_lease.specs.Rows.Ending.{rows_left, start_on, AreLater, AreListed, IsFirstOther, NoneOn, NoOtherOn};
ghost use Rattle.kfs_lease.specs.Rows.Listed.{NoneFrom};
ghost use Rattle.kfs_lease.specs.Rows.Rows.{by_node, by_end, shown, without_node, IndexesAreExact};

use crate::rows::rows::{Ending, Lease, LeaseRows, RowEnd};
use kfs_maps::Chunks;
use std::alloc::{AllocError, Allocator};
use std::ops::Bound;

/// Where the entries begin whose keys have this first part, behind a second part, or all of them.
fn start_on(first: u32, after: Option<u32>) -> Bound<(u32, u32)>
    ensures { result ≡ start_on first after }
{
    match after {
        Some(second) => Bound::Excluded((first, second)),
        None => Bound::Included((first, 0)),
    }
}

/// Of the entries whose keys have this first part the first one behind `after`, or of all of them: its
/// second part and its value. So it is the node's next client with the lease, or a client's next node.
/// None where there is no such entry.
pub(crate) fn next_on<V: Copy, A: Allocator>(
    entries: &Chunks<(u32, u32), V, A>,
    first: u32,
    after: Option<u32>,
) -> Option<(u32, V)>
    ensures next { IfSome result (λ entry. IsNextEntry by_node.compare (start_on first after) entries.now (first, entry.0) entry.1) }
    ensures none { IfNone result (NoneOn entries.now first after) }
{
    let start = start_on(first, after);
    let (key, value) = entries.next(start.as_ref())?;
    if key.0 == first {
        Some((key.1, *value))
    } else {
        None
    }
}

/// The first other client that has a lease on the node, and its lease; none where no other has one.
pub(crate) fn first_other<A: Allocator>(
    leases: &Chunks<(u32, u32), Lease, A>,
    number: u32,
    client: u32,
) -> Option<(u32, Lease)>
    ensures first { IfSome result (λ row. IsFirstOther leases.now number client row.0 row.1) }
    ensures none { IfNone result (NoOtherOn leases.now number client) }
{
    let first = next_on(leases, number, None)?;
    if first.0 == client {
        next_on(leases, number, Some(client))
    } else {
        Some(first)
    }
}

/// The first row from the start on, with its key, or none.
pub(crate) fn next_row<A: Allocator>(
    leases: &Chunks<(u32, u32), Lease, A>,
    start: &Bound<(u32, u32)>,
) -> Option<((u32, u32), Lease)>
    ensures next { IfSome result (λ row. IsNextEntry by_node.compare start.now leases.now row.0 row.1) }
    ensures none { IfNone result (NoneFrom leases.now start.now) }
{
    let (key, lease) = leases.next(start.as_ref())?;
    Some((*key, *lease))
}

/// The first end from the start on, if it isn't above the moment.
fn next_ended<A: Allocator>(
    ends: &Chunks<RowEnd, (), A>,
    start: &Bound<RowEnd>,
    moment: u64,
) -> Option<RowEnd>
    ensures next { IfSome result (λ end. IsNextEntry by_end.compare start.now ends.now end tt) }
    ensures ended { IfSome result (λ end. end.end ≤ moment) }
    ensures none { IfNone result (AreLater ends.now start.now moment) }
{
    let (end, _) = ends.next(start.as_ref())?;
    if end.end <= moment { Some(*end) } else { None }
}

impl<A: Allocator + Copy> LeaseRows<A> {
    /// Adds the node's rows to those that are to go.
    pub(crate) fn list_on(&self, ending: &mut Ending<A>, number: u32) -> Result<(), AllocError>
        requires { AreListed self.now ending.old }
        ensures listed { OnOk result (AreListed self.now ending.new) }
        ensures left { OnOk result (shown (rows_left self.now ending.new) ≡ without_node (shown (rows_left self.now ending.old)) number) }
    {
        let mut after = None;
        while let Some((client, lease)) = next_on(&self.leases, number, after) {
            ending.add(RowEnd {
                end: lease.end,
                key: (number, client),
            })?;
            after = Some(client);
        }
        Ok(())
    }

    /// Adds the rows whose ends aren't above the moment to those that are to go.
    pub(crate) fn list_ended(&self, ending: &mut Ending<A>, moment: u64) -> Result<(), AllocError>
        requires indexed { IndexesAreExact self.now }
        requires listed { AreListed self.now ending.old }
        ensures listed { OnOk result (AreListed self.now ending.new) }
        ensures left { OnOk result (shown (rows_left self.now ending.new) ≡ live_at moment (shown (rows_left self.now ending.old))) }
    {
        let mut start = Bound::Unbounded;
        while let Some(end) = next_ended(&self.ends, &start, moment) {
            ending.add(end)?;
            start = Bound::Excluded(end);
        }
        Ok(())
    }
}
