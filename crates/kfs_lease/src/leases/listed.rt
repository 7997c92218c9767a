//! Leases as a list of rows: let in, listed, one client's alone, and those of some clients alone.
ghost use Rattle.std.specs.Prelude.{◌≡◌, ◌⊎◌, IfOk, IfErr, IfSome, IfNone, OnOk, List, None, Option, Some, option_map, if◌then◌else◌, is_some, is_none, not, ℕ, true};
ghost use Rattle.kfs_model.specs.Access.{Client as ClientRow};
ghost use Rattle.kfs_model.specs.Header.{Header};
ghost use Rattle.kfs_model.specs.Lease.{row_of};
ghost use Rattle.kfs_model.specs.Table.{get, remove};
ghost use Rattle.kfs_lease.specs.LeaseLists as model;
ghost use Rattle.kfs_lease.specs.LeaseLists.{AreFirstOf, Ascend, AreLawful};
ghost use Rattle.kfs_lease.specs.OfClients.{of_clients};
ghost use Rattle.kfs_lease.specs.Rows.Rows.{kind_of, table_in, IndexesAreExact};
ghost use Rattle.kfs_lease.specs.ShownLists.{row_fault_of, row_shown, rows_shown};
ghost use Rattle.kfs_lease.specs.declared.leases.listed.LeaseRowFault.TheVariants.{OutOfMemory};

use crate::leases::Leases;
use crate::rows::{Lease, LeaseKind, LeaseRows, next_row};
use kfs_image_nodes::{Answer, Cell, Shape, look};
use kfs_mode::Client;
use std::alloc::{AllocError, Allocator};
use std::ops::Bound;
use thiserror::Error;

/// A lease of a client on a node, as a row of a list.
#[derive(Clone, Copy, Debug, PartialEq, Eq)]
pub struct LeaseRow {
    /// The node's number.
    pub number: u32,
    /// The client's number.
    pub client: u32,
    /// For reading or for writing.
    pub kind: LeaseKind,
    /// The moment at which the lease ends.
    pub end: u64,
}

/// Why a list of leases isn't let in: no lawful table has the row with this index, counted from 0,
/// behind the rows before it. The first such row is answered, with the first reason that applies.
#[derive(Clone, Copy, Debug, PartialEq, Eq, Error)]
pub enum LeaseRowFault {
    /// 1: no client has the row's client number.
    #[error("UnknownClient({0})")]
    UnknownClient(usize),
    /// 2: no node has the row's node number.
    #[error("NoSuchNode({0})")]
    NoSuchNode(usize),
    /// 3: the end isn't above the moment.
    #[error("Past({0})")]
    Past(usize),
    /// 4: the row doesn't come behind an earlier one, by node and then by client.
    #[error("NotAscending({0})")]
    NotAscending(usize),
    /// 5: it conflicts with an earlier row of its node: one of the two is for writing.
    #[error("LeaseHeld({0})")]
    LeaseHeld(usize),
    /// Memory was refused.
    #[error("memory")]
    OutOfMemory,
}

impl From<AllocError> for LeaseRowFault {
    ghost from_gives = { λ _ fault. fault ≡ OutOfMemory };

    fn from(_error: AllocError) -> LeaseRowFault {
        LeaseRowFault::OutOfMemory
    }
}

impl<A: Allocator + Copy> Leases<A> {
    /// The leases of these rows at a moment: each is of one of the clients, on a node of the shape, and
    /// live, and no two conflict. Rows ascend by node and then by client.
    ///
    /// Refused with the fault of the first row that no such leases have, or with `OutOfMemory`.
    pub fn from_rows(
        alloc: A,
        shape: &Shape<A>,
        clients: &[Client],
        rows: &[LeaseRow],
        moment: u64,
    ) -> Result<Leases<A>, LeaseRowFault>
        ensures ok { IfOk result (λ leases. leases ≡ model.listed_leases moment (rows_shown rows.now)) }
        ensures lawful { IfOk result (λ leases. AreLawful clients.now (get shape.now.heads) leases) }
        ensures faultless { OnOk result (model.fault_of_rows clients.now (get shape.now.heads) moment (rows_shown rows.now) ≡ None) }

        // The first fault; or memory was refused, which may be so with any rows.
        ensures err { IfErr result (λ fault. (fault ≡ OutOfMemory) ⊎ (model.fault_of_rows clients.now (get shape.now.heads) moment (rows_shown rows.now) ≡ row_fault_of fault)) }
    {
        let mut table = LeaseRows::empty(alloc);
        let mut last = None;
        for (index, row) in rows.iter().enumerate() {
            if let Some(fault) = row_fault(shape, clients, moment, index, last, row) {
                return Err(fault);
            }
            let lease = Lease {
                kind: row.kind,
                end: row.end,
            };
            table.put(row.client, row.number, None, lease)?;
            last = Some(*row);
        }
        Ok(Leases {
            rows: table,
            moment,
        })
    }

    /// All leases as rows, ascending by node and then by client. `from_rows` makes the same leases of
    /// them. `Err` where memory is refused.
    pub fn rows(&self) -> Result<Vec<LeaseRow, A>, AllocError>
        ensures ascend { IfOk result (λ rows. Ascend (rows_shown rows.items)) }
        ensures same { IfOk result (λ rows. model.listed_leases self.now.moment (rows_shown rows.items) ≡ self.now) }
    {
        let mut rows = Vec::new(*self.rows.leases.allocator());
        let mut start = Bound::Unbounded;
        while let Some((key, lease)) = next_row(&self.rows.leases, &start) {
            rows.push(LeaseRow {
                number: key.0,
                client: key.1,
                kind: lease.kind,
                end: lease.end,
            })?;
            start = Bound::Excluded(key);
        }
        Ok(rows)
    }

    /// The client's leases on nodes from the number `first` on, as rows: `at_most` of them, or all where
    /// there are fewer. Takes time and memory for these alone. `Err` where memory is refused.
    #[doc(hidden)]
    pub fn rows_of(
        &self,
        client: u32,
        first: u32,
        at_most: usize,
    ) -> Result<Vec<LeaseRow, A>, AllocError>
        ensures { IfOk result (λ rows. AreFirstOf self.now client first at_most (rows_shown rows.items)) }
    {
        let mut rows = Vec::new(*self.rows.leases.allocator());
        let mut after = first.checked_sub(1);
        while rows.len() < at_most {
            let Some((number, lease)) = self.rows.next_of(client, after) else {
                return Ok(rows);
            };
            rows.push(LeaseRow {
                number,
                client,
                kind: lease.kind,
                end: lease.end,
            })?;
            after = Some(number);
        }
        Ok(rows)
    }

    /// The leases of the clients that are among these, at the same moment. Those of the others have
    /// ended. A client is known by its number, so one whose ids or grant are others keeps its leases.
    /// `Err` where memory is refused.
    pub fn of_clients(&self, clients: &[Client]) -> Result<Leases<A>, AllocError>
        ensures left { IfOk result (λ left. left ≡ of_clients clients.now self.now) }

        // Leases on nodes, and of clients that were known, are lawful for these clients.
        ensures lawful { IfOk result (λ left. (known : List ClientRow) (heads : ℕ → Option Header) → AreLawful known heads self.now → AreLawful clients.now heads left) }
    {
        let rows = self.rows()?;
        let mut left = self.rows.clone()?;
        for row in rows.iter() {
            end_if_gone(&mut left, clients, row)?;
        }
        Ok(Leases {
            rows: left,
            moment: self.moment,
        })
    }
}

/// Ends the lease of the row where no client has its client number.
fn end_if_gone<A: Allocator + Copy>(
    left: &mut LeaseRows<A>,
    clients: &[Client],
    row: &LeaseRow,
) -> Result<(), AllocError>
    requires indexed { IndexesAreExact left.old }
    ensures indexed { IndexesAreExact left.new }
    ensures table { OnOk result (table_in left.new ≡ (if is_some (row_of clients.now row.now.client) then table_in left.old else remove (table_in left.old) (row.now.client, row.now.number))) }
{
    if is_client(clients, row.client) {
        return Ok(());
    }
    left.take(row.client, row.number)?;
    Ok(())
}

/// Why the row can't follow rows without a fault, of which this is the last.
fn row_fault<A: Allocator>(
    shape: &Shape<A>,
    clients: &[Client],
    moment: u64,
    index: usize,
    last: Option<LeaseRow>,
    row: &LeaseRow,
) -> Option<LeaseRowFault>
    ensures some { IfSome result (λ fault. model.fault_behind clients.now (get shape.now.heads) moment index (option_map row_shown last) (row_shown row.now) ≡ row_fault_of fault) }
    ensures named { IfSome result (λ fault. is_some (row_fault_of fault) ≡ true) }
    ensures none { IfNone result (model.fault_behind clients.now (get shape.now.heads) moment index (option_map row_shown last) (row_shown row.now) ≡ None) }
{
    if !is_client(clients, row.client) {
        return Some(LeaseRowFault::UnknownClient(index));
    }
    if !is_node(shape, row.number) {
        return Some(LeaseRowFault::NoSuchNode(index));
    }
    if row.end <= moment {
        return Some(LeaseRowFault::Past(index));
    }
    if !comes_behind(last, row) {
        return Some(LeaseRowFault::NotAscending(index));
    }
    if is_barred(last, row) {
        return Some(LeaseRowFault::LeaseHeld(index));
    }
    None
}

/// Whether a client has this number. Where the numbers ascend it is found by binary search, else by a
/// scan.
fn is_client(clients: &[Client], number: u32) -> bool
    ensures known { result ≡ is_some (row_of clients.now number) }
    ensures unknown { result ≡ not (is_none (row_of clients.now number)) }
{
    let near = clients.binary_search_by_key(&number, |client| client.number());
    if let Ok(place) = near {
        if let Some(client) = clients.get(place) {
            if client.number() == number {
                return true;
            }
        }
    }
    for client in clients {
        if client.number() == number {
            return true;
        }
    }
    false
}

fn is_node<A: Allocator>(shape: &Shape<A>, number: u32) -> bool
    ensures { result ≡ not (is_none (get shape.now.heads number)) }
{
    match look(shape, &Cell::Header(number)) {
        Answer::Header(Some(_)) => true,
        _ => false,
    }
}

fn comes_behind(last: Option<LeaseRow>, row: &LeaseRow) -> bool
    ensures { result ≡ model.comes_behind (option_map row_shown last) (row_shown row.now) }
{
    match last {
        Some(last) => {
            last.number < row.number || last.number == row.number && last.client < row.client
        }
        None => true,
    }
}

fn is_barred(last: Option<LeaseRow>, row: &LeaseRow) -> bool
    ensures { result ≡ model.is_barred (option_map row_shown last) (row_shown row.now) }
{
    match last {
        Some(last) => last.number == row.number && (last.kind.is_write() || row.kind.is_write()),
        None => false,
    }
}
