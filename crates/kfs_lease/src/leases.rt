//! Leases of clients on nodes, each up to an end moment. Read leases are shared, write leases
//! exclusive.
ghost use Rattle.std.specs.Prelude.{◌≡◌, Ok, IfOk, IfErr, OnOk, OnErr};
ghost use Rattle.kfs_model.specs.Lease.{no_leases, holds, granted, dropped, ticked};
ghost use Rattle.kfs_mode.specs.Clients.{ClientsAreDistinct};
ghost use Rattle.kfs_image_nodes.specs.Contents.{sight_of};
ghost use Rattle.kfs_lease.specs.Faults.{Refuses};
ghost use Rattle.kfs_lease.specs.Rows.Rows.{kind_of};
ghost use Rattle.kfs_lease.specs.Removed.{without_nodes_in};
ghost use Rattle.kfs_lease.specs.declared.leases.LeaseFault.TheVariants.{OutOfMemory};

mod by_number;
mod listed;
mod writer;

use crate::path::{names_of, walk};
use crate::rows::{Lease, LeaseKind, LeaseRows};
use kfs_image_nodes::Shape;
use kfs_mode::{Client, find_client};
use kfs_types::Change;
pub use listed::{LeaseRow, LeaseRowFault};
use std::alloc::{AllocError, AllocFailed, Allocator};
use std::marker::Model;
use thiserror::Error;

/// The leases that clients hold on nodes, and the moment. A client has at most one lease on a node.
/// Copies share what isn't changed.
///
/// Moments are numbers that the caller counts, from 0; no clock is read. A lease is live while its end
/// is above the moment. All leases are live, since a tick removes the others, and no two are in
/// conflict.
#[derive(Drop)]
pub struct Leases<A: Allocator> {
    rows: LeaseRows<A>,
    moment: u64,
}

impl<A: Allocator> Model for Leases<A> {
    ghost use Rattle.kfs_model.specs.Lease.{Leases as LeaseTable};
    ghost use Rattle.kfs_lease.specs.InForce.{AreInForce};
    ghost use Rattle.kfs_lease.specs.Rows.Rows.{table_in, IndexesAreExact};

    ghost Value = { LeaseTable };

    ghost view = { λ l. record { rows = table_in l.rows; moment = l.moment } };

    ghost invariant = { λ l. IndexesAreExact l.rows × AreInForce (record { rows = table_in l.rows; moment = l.moment }) };
}

impl<A: Allocator + Copy> Clone for Leases<A> {
    ghost is_clone = { λ leases copy. copy ≡ leases };

    fn clone(&self) -> Result<Leases<A>, AllocError> {
        Ok(Leases {
            rows: self.rows.clone()?,
            moment: self.moment,
        })
    }
}

/// Why a call for leases is refused. The leases and the moment stay as they were. Components of a path
/// are counted from 0.
#[derive(Clone, Copy, Debug, PartialEq, Eq, Error)]
pub enum LeaseFault {
    /// 1: no client has this number.
    #[error("UnknownClient")]
    UnknownClient,
    /// 2: the path is neither `/` nor names with one `/` before each.
    #[error("BadPath")]
    BadPath,
    /// 3: the component with this index isn't a name of the directory before it.
    #[error("NoSuchName({0})")]
    NoSuchName(usize),
    /// 4: what comes before the component with this index isn't a directory.
    #[error("NotDirectory({0})")]
    NotDirectory(usize),
    /// 5: the client may not search the directory before the component with this index.
    #[error("NoSearch({0})")]
    NoSearch(usize),
    /// 6: the end isn't above the moment.
    #[error("Past")]
    Past,
    /// 7: another client has a live lease that conflicts; the least such client's number.
    #[error("LeaseHeld({0})")]
    LeaseHeld(u32),
    /// 8: the client has no lease on the node.
    #[error("NoLeaseHeld")]
    NoLeaseHeld,
    /// 9: the moment would go down.
    #[error("Backwards")]
    Backwards,
    /// 10: no node has this number.
    #[error("NoSuchNode")]
    NoSuchNode,
    /// 11: the client has no permission on the node for a lease of this kind.
    #[error("NotAllowed")]
    NotAllowed,
    /// Memory was refused.
    #[error("memory")]
    OutOfMemory,
}

impl From<AllocError> for LeaseFault {
    ghost from_gives = { λ _ fault. fault ≡ OutOfMemory };

    fn from(_error: AllocError) -> LeaseFault {
        LeaseFault::OutOfMemory
    }
}

impl<T: Drop> From<AllocFailed<T>> for LeaseFault {
    ghost from_gives = { λ _ fault. fault ≡ OutOfMemory };

    fn from(_error: AllocFailed<T>) -> LeaseFault {
        LeaseFault::OutOfMemory
    }
}

impl<A: Allocator + Copy> Leases<A> {
    /// No lease, at moment 0. Takes no memory.
    pub fn new(alloc: A) -> Leases<A>
        ensures { result ≡ no_leases }
    {
        Leases {
            rows: LeaseRows::empty(alloc),
            moment: 0,
        }
    }

    /// Whether the client holds a live write lease on the node; false where there is no such client or
    /// node. Takes no memory.
    pub fn holds(&self, client: u32, number: u32) -> bool
        ensures { result ≡ holds self.now client number }
    {
        match self.rows.lease(client, number) {
            Some(lease) => lease.kind == LeaseKind::Write && self.moment < lease.end,
            None => false,
        }
    }

    /// The moment: a number that the caller counts. It never goes down.
    pub fn moment(&self) -> u64
        ensures { result ≡ self.now.moment }
    {
        self.moment
    }

    /// An equal table, which shares this one's rows until either is changed. `Err` where memory is
    /// refused.
    pub fn copy(&self) -> Result<Leases<A>, AllocError>
        ensures { IfOk result (λ copy. copy ≡ self.now) }
    {
        self.clone()
    }

    /// Ends the client's lease on the node. Refused with `UnknownClient` or `NoLeaseHeld`; with
    /// `OutOfMemory` where memory runs out for what a copy shares, or for rows that are laid out
    /// anew. Condition: no two clients have the same number.
    pub fn drop_lease(
        &mut self,
        clients: &[Client],
        client: u32,
        number: u32,
    ) -> Result<(), LeaseFault>
        requires distinct { ClientsAreDistinct clients.now }
        ensures ok { OnOk result (dropped self.old clients.now client number ≡ (Ok number, self.new)) }
        ensures err { IfErr result (λ fault. Refuses (dropped self.old clients.now client number) fault self.new) }
        ensures unchanged { OnErr result (self.new ≡ self.old) }
    {
        if find_client(clients, client).is_none() {
            return Err(LeaseFault::UnknownClient);
        }
        let found = self.rows.take(client, number)?;
        if !found {
            return Err(LeaseFault::NoLeaseHeld);
        }
        Ok(())
    }

    /// Goes to a moment, the same or a later one, and ends the leases that are no longer live. Refused
    /// with `Backwards`, or with `OutOfMemory` where leases end and memory runs out.
    #[tactic(auto, unfolding(kfs_model::specs::Lease::ticked, kfs_model::specs::Lease::live_at))]
    pub fn tick(&mut self, moment: u64) -> Result<(), LeaseFault>
        ensures ok { OnOk result (ticked self.old moment ≡ (Ok moment, self.new)) }
        ensures err { IfErr result (λ fault. Refuses (ticked self.old moment) fault self.new) }
        ensures unchanged { OnErr result (self.new ≡ self.old) }
    {
        if moment < self.moment {
            return Err(LeaseFault::Backwards);
        }
        self.rows.end_until(moment)?;
        self.moment = moment;
        Ok(())
    }

    /// Ends all leases on nodes that are removed, together with another change, or makes neither. All
    /// memory is taken first; then comes the other change, then the leases end. `Err` where memory is
    /// refused.
    #[doc(hidden)]
    pub fn remove_nodes<T: Change>(
        &mut self,
        numbers: &[u32],
        then: &mut T,
    ) -> Result<(), AllocError>
        requires then { T.can_make then.old }
        ensures ok { OnOk result (self.new ≡ without_nodes_in self.old numbers.now) }
        ensures err { OnErr result (self.new ≡ self.old) }
        ensures made { OnOk result (T.made then.old then.new) }
        ensures kept { OnErr result (T.kept then.old then.new) }
    {
        self.rows.remove_nodes(numbers, then)
    }

    /// Gives the client a lease on the node at the path, up to the moment `end`, and answers the node's
    /// number. It replaces the client's own lease on that node, kind and end. Of permissions it asks
    /// only for search on the directories of the path (POSIX.1-2017, XBD 4.13).
    ///
    /// Refused, in this order, with `UnknownClient`; `BadPath`; at the least component that fails
    /// `NotDirectory`, `NoSearch` or `NoSuchName`; `Past`; `LeaseHeld`. `OutOfMemory` where memory is
    /// refused. Condition: no two clients have the same number.
    pub fn grant(
        &mut self,
        shape: &Shape<A>,
        clients: &[Client],
        client: u32,
        path: &[u8],
        kind: LeaseKind,
        end: u64,
    ) -> Result<u32, LeaseFault>
        requires distinct { ClientsAreDistinct clients.now }
        ensures ok { IfOk result (λ number. granted self.old (sight_of shape.now) clients.now client path.now (kind_of kind) end ≡ (Ok number, self.new)) }
        ensures err { IfErr result (λ fault. Refuses (granted self.old (sight_of shape.now) clients.now client path.now (kind_of kind) end) fault self.new) }
        ensures unchanged { OnErr result (self.new ≡ self.old) }
    {
        let Some(row) = find_client(clients, client) else {
            return Err(LeaseFault::UnknownClient);
        };
        let Some(names) = names_of(path) else {
            return Err(LeaseFault::BadPath);
        };
        let number = walk(shape, row, names)?;
        if end <= self.moment {
            return Err(LeaseFault::Past);
        }
        match self.rows.contest(client, number, kind, self.moment) {
            Ok(own) => {
                self.rows.put(client, number, own, Lease { kind, end })?;
                Ok(number)
            }
            Err(holder) => Err(LeaseFault::LeaseHeld(holder)),
        }
    }
}
