//! The rows of leases, kept by node and client, with two indexes: their ends, kept in order, and their
//! keys by client. The ends of leases, in their order. Rows that are to go, listed before the first of
//! them goes.
ghost use Rattle.std.specs.Prelude.{◌≡◌, ◌&&◌, ◌||◌, IfOk, IfErr, IfSome, IfNone, OnOk, OnErr, Some, None, option_map, is_some, false, refl, []};
ghost use Rattle.kfs_model.specs.Table.{empty, get, insert, remove};
ghost use Rattle.kfs_model.specs.Lease as model;
ghost use Rattle.kfs_lease.specs.InForce.{AreInForce};
ghost use Rattle.kfs_lease.specs.Rows.Rows.{kind_of, lease_of, conflicting, row_end, row_table, table_in, without_nodes, IndexesAreExact, by_end};
ghost use Rattle.kfs_lease.specs.Rows.Ending.{AddsRow, AddsEnd, AddsOfClient};
ghost use Rattle.kfs_lease.specs.Rows.OfClients.{IsNextOf, NoneOf};

use crate::rows::change::EndEdit;
use crate::rows::walk::{first_other, next_on};
use kfs_maps::{Chunks, Key, KeyEdit, Overlay};
use kfs_types::{Change, Nothing};
use std::alloc::{AllocError, Allocator};

/// What a lease allows its client ("Strata", SOSP 2017: read leases are shared, write leases are
/// exclusive).
#[derive(Clone, Copy, Debug, PartialEq, Eq)]
pub enum LeaseKind {
    /// Other clients may hold read leases on the node, and no write lease.
    Read,
    /// No other client may hold a lease on the node.
    Write,
}

/// A lease of one client on one node.
#[derive(Clone, Copy, Debug, PartialEq, Eq)]
pub struct Lease {
    /// For reading or for writing.
    pub kind: LeaseKind,
    /// The lease is live while the moment is below this one. Moments are numbers that the caller
    /// counts.
    pub end: u64,
}

impl LeaseKind {
    pub(crate) fn is_write(self) -> bool
        ensures { result ≡ model.is_write (kind_of self) }
    {
        match self {
            LeaseKind::Read => false,
            LeaseKind::Write => true,
        }
    }
}

impl Lease {
    /// Whether the lease is live and conflicts with another client's lease of this kind.
    fn excludes(&self, kind: LeaseKind, moment: u64) -> bool
        ensures { result ≡ model.is_live moment (lease_of self.now) && (model.is_write (kind_of kind) || model.is_write (kind_of self.now.kind)) }
    {
        moment < self.end && (kind.is_write() || self.kind.is_write())
    }
}

/// The rows of a table: each client has at most one lease on a node. Copies share chunks of rows and of
/// both indexes.
pub struct LeaseRows<A: Allocator> {
    /// By the node's number, and then the client's.
    pub leases: Chunks<(u32, u32), Lease, A>,
    /// The end of each row, with the row's key.
    pub ends: Chunks<RowEnd, (), A>,
    /// The key of each row, turned: by the client's number, and then the node's.
    pub of_clients: Chunks<(u32, u32), (), A>,
}

// Written out, so that the drop of the three maps is proved here once and not again in each crate that
// drops leases.
impl<A: Allocator> Drop for LeaseRows<A> {
    fn drop(self) {
        let LeaseRows {
            leases,
            ends,
            of_clients,
        } = self;
        drop(leases);
        drop(ends);
        drop(of_clients);
    }
}

impl<A: Allocator + Copy> Clone for LeaseRows<A> {
    ghost is_clone = { λ rows copy. copy ≡ rows };

    fn clone(&self) -> Result<LeaseRows<A>, AllocError> {
        Ok(LeaseRows {
            leases: self.leases.clone()?,
            ends: self.ends.clone()?,
            of_clients: self.of_clients.clone()?,
        })
    }
}

impl<A: Allocator + Copy> LeaseRows<A> {
    /// No rows. Takes no memory.
    pub fn empty(alloc: A) -> LeaseRows<A>
        ensures table { table_in result ≡ empty }
        ensures indexed { IndexesAreExact result }
    {
        LeaseRows {
            leases: Chunks::new(alloc),
            ends: Chunks::new(alloc),
            of_clients: Chunks::new(alloc),
        }
    }

    /// The client's lease on the node, or none.
    pub fn lease(&self, client: u32, number: u32) -> Option<Lease>
        ensures { option_map lease_of result ≡ get (table_in self.now) (client, number) }
    {
        self.leases.get(&(number, client)).copied()
    }

    /// What there is on the node to a lease of this kind for the client. As an error, the least other
    /// client whose live lease conflicts with it; else the client's own lease, or none.
    ///
    /// The first other client's lease decides. Of leases in force one for writing is alone on its node,
    /// and where several stand there, all are for reading. Condition: the leases are in force.
    pub fn contest(
        &self,
        client: u32,
        number: u32,
        kind: LeaseKind,
        moment: u64,
    ) -> Result<Option<Lease>, u32>
        requires { AreInForce (record { rows = table_in self.now; moment = moment }) }
        ensures held { IfErr result (λ other. Some other ≡ conflicting (table_in self.now) moment client number (kind_of kind)) }
        ensures free { OnOk result (None ≡ conflicting (table_in self.now) moment client number (kind_of kind)) }
        ensures own { IfOk result (λ own. own ≡ get (row_table self.now) (number, client)) }
    {
        if let Some((other, lease)) = first_other(&self.leases, number, client) {
            if lease.excludes(kind, moment) {
                return Err(other);
            }
        }
        Ok(self.leases.get(&(number, client)).copied())
    }

    /// Sets the client's lease on the node, in place of the old one, if there is one. `Err` where memory
    /// is refused; the rows are as before then.
    pub fn put(
        &mut self,
        client: u32,
        number: u32,
        old: Option<Lease>,
        lease: Lease,
    ) -> Result<(), AllocError>
        requires indexed { IndexesAreExact self.old }
        requires old { old ≡ get (row_table self.old) (number, client) }
        ensures indexed { IndexesAreExact self.new }
        ensures table { OnOk result (table_in self.new ≡ insert (table_in self.old) (client, number) (lease_of lease)) }
        ensures err { OnErr result (self.new ≡ self.old) }
    {
        let key = (number, client);
        match old {
            Some(old) => self.replace(key, old, lease),
            None => {
                let of_client = KeyEdit {
                    key: (client, number),
                    value: Some(()),
                };
                self.change_row(key, Some(lease), &[listed(lease.end, key)], &[of_client])
            }
        }
    }

    /// Sets the row of a key in place of the one that is there.
    fn replace(&mut self, key: (u32, u32), old: Lease, new: Lease) -> Result<(), AllocError>
        requires indexed { IndexesAreExact self.old }
        requires there { get (row_table self.old) key ≡ Some old }
        ensures indexed { IndexesAreExact self.new }
        ensures table { OnOk result (table_in self.new ≡ insert (table_in self.old) (key.1, key.0) (lease_of new)) }
        ensures err { OnErr result (self.new ≡ self.old) }
    {
        if old.end < new.end {
            return self.change_row(
                key,
                Some(new),
                &[unlisted(old.end, key), listed(new.end, key)],
                &[],
            );
        }
        if new.end < old.end {
            return self.change_row(
                key,
                Some(new),
                &[listed(new.end, key), unlisted(old.end, key)],
                &[],
            );
        }
        self.change_row(key, Some(new), &[], &[])
    }

    /// Removes the client's lease on the node. Answers whether there was one. `Err` where memory is
    /// refused; the rows are as before then.
    pub fn take(&mut self, client: u32, number: u32) -> Result<bool, AllocError>
        requires { IndexesAreExact self.old }
        ensures indexed { IndexesAreExact self.new }
        ensures found { IfOk result (λ found. found ≡ is_some (get (table_in self.old) (client, number))) }
        ensures table { OnOk result (table_in self.new ≡ remove (table_in self.old) (client, number)) }
        ensures kept { IfOk result (λ found. found ≡ false → self.new ≡ self.old) }
        ensures err { OnErr result (self.new ≡ self.old) }
    {
        let key = (number, client);
        let Some(lease) = self.leases.get(&key).copied() else {
            return Ok(false);
        };
        let of_client = KeyEdit {
            key: (client, number),
            value: None,
        };
        self.change_row(key, None, &[unlisted(lease.end, key)], &[of_client])?;
        Ok(true)
    }

    /// The client's first lease on a node behind `after`, or of all its leases, with the node's number;
    /// none where it has no such lease.
    pub fn next_of(&self, client: u32, after: Option<u32>) -> Option<(u32, Lease)>
        requires { IndexesAreExact self.now }
        ensures next { IfSome result (λ row. IsNextOf (row_table self.now) client after row.0 row.1) }
        ensures none { IfNone result (NoneOf (row_table self.now) client after) }
    {
        let (number, _) = next_on(&self.of_clients, client, after)?;
        let lease = self.leases.get(&(number, client)).copied()?;
        Some((number, lease))
    }

    /// Removes the leases whose end isn't above the moment. `Err` where memory runs out; the rows are
    /// as before then.
    pub fn end_until(&mut self, moment: u64) -> Result<(), AllocError>
        requires { IndexesAreExact self.old }
        ensures indexed { IndexesAreExact self.new }
        ensures table { OnOk result (table_in self.new ≡ model.live_at moment (table_in self.old)) }
        ensures err { OnErr result (self.new ≡ self.old) }
    {
        let mut ending = Ending::none(*self.leases.allocator());
        self.list_ended(&mut ending, moment)?;
        self.end_all(&ending, &mut Nothing)
    }

    /// Removes the leases on the nodes, together with another change. All memory is taken before the
    /// first change; `Err` where it is refused, and neither change is made then.
    pub fn remove_nodes<T: Change>(
        &mut self,
        numbers: &[u32],
        then: &mut T,
    ) -> Result<(), AllocError>
        requires indexed { IndexesAreExact self.old }
        requires then { T.can_make then.old }
        ensures indexed { IndexesAreExact self.new }
        ensures table { OnOk result (table_in self.new ≡ without_nodes (table_in self.old) numbers.now) }
        ensures err { OnErr result (self.new ≡ self.old) }
        ensures made { OnOk result (T.made then.old then.new) }
        ensures kept { OnErr result (T.kept then.old then.new) }
    {
        let mut ending = Ending::none(*self.leases.allocator());
        for number in numbers {
            self.list_on(&mut ending, *number)?;
        }
        self.end_all(&ending, then)
    }
}

/// The edit that lists an end.
fn listed(end: u64, key: (u32, u32)) -> EndEdit
    ensures { result ≡ record { key = row_end end key; value = Some tt } }
{
    KeyEdit {
        key: RowEnd { end, key },
        value: Some(()),
    }
}

/// The edit that takes an end out.
fn unlisted(end: u64, key: (u32, u32)) -> EndEdit
    ensures { result ≡ record { key = row_end end key; value = None } }
{
    KeyEdit {
        key: RowEnd { end, key },
        value: None,
    }
}

/// The end of a lease, with its row's key. Ends are ordered by their moment, and then by the row's key.
#[derive(Clone, Copy, Debug, PartialEq, Eq, PartialOrd, Ord)]
pub struct RowEnd {
    /// The moment at which the lease ends.
    pub end: u64,
    /// The number of the lease's node, and that of its client.
    pub key: (u32, u32),
}

impl Key for RowEnd {
    ghost order = { by_end };

    ghost compared = { refl };

    fn most_entries() -> usize {
        256
    }
}

/// Rows that are to go, and what both indexes have of them.
#[derive(Drop)]
pub(crate) struct Ending<A: Allocator> {
    /// The keys of the rows, all without a value.
    pub(crate) rows: Overlay<(u32, u32), Lease, A>,
    /// Their ends, without a value.
    pub(crate) ends: Overlay<RowEnd, (), A>,
    /// Their keys by client, without a value.
    pub(crate) of_clients: Overlay<(u32, u32), (), A>,
}

impl<A: Allocator + Copy> Ending<A> {
    /// No row is to go. Takes no memory.
    pub(crate) fn none(alloc: A) -> Ending<A>
        ensures rows { result.rows.latest.entries ≡ [] }
        ensures ends { result.ends.latest.entries ≡ [] }
        ensures of_clients { result.of_clients.latest.entries ≡ [] }
    {
        Ending {
            rows: Overlay::new(alloc),
            ends: Overlay::new(alloc),
            of_clients: Overlay::new(alloc),
        }
    }

    /// Adds the row that has this end.
    pub(crate) fn add(&mut self, end: RowEnd) -> Result<(), AllocError>
        ensures rows { OnOk result (AddsRow end.key self.old self.new) }
        ensures ends { OnOk result (AddsEnd end self.old self.new) }
        ensures of_clients { OnOk result (AddsOfClient end.key self.old self.new) }
    {
        let (number, client) = end.key;
        self.rows.set(end.key, None)?;
        self.ends.set(end, None)?;
        self.of_clients.set((client, number), None)?;
        Ok(())
    }
}
