//! A lease on a node by its number.
ghost use Rattle.std.specs.Prelude.{◌≡◌, IfOk, IfErr, OnErr, Ok};
ghost use Rattle.std.specs.Option.{option_map};
ghost use Rattle.kfs_model.specs.Access as access;
ghost use Rattle.kfs_model.specs.Lease.{granted_by_number, may_lease};
ghost use Rattle.kfs_model.specs.Table.{get};
ghost use Rattle.kfs_types.specs.Views.{header_of};
ghost use Rattle.kfs_mode.specs.Clients.{ClientsAreDistinct};
ghost use Rattle.kfs_image_nodes.specs.Contents.{sight_of};
ghost use Rattle.kfs_lease.specs.Faults.{Refuses};
ghost use Rattle.kfs_lease.specs.Rows.Rows.{kind_of};

use crate::leases::{LeaseFault, Leases};
use crate::rows::{Lease, LeaseKind};
use kfs_image_nodes::{Answer, Cell, Header, Shape, look};
use kfs_mode::{Client, Want, find_client, may};
use std::alloc::Allocator;

impl<A: Allocator + Copy> Leases<A> {
    /// Gives the client a lease on the node with this number, up to the moment `end`, and answers the
    /// number. It replaces the client's own lease on that node, kind and end. No path is walked, so no
    /// search is asked, as of a process that has the node open. In place of it the client must have
    /// permission on the node itself (POSIX.1-2017, XBD 4.5): for reading it may read the node; for
    /// writing it may write it, or owns it, or is privileged.
    ///
    /// Refused, in this order, with `UnknownClient`, `NoSuchNode`, `NotAllowed`, `Past`, `LeaseHeld`.
    /// `OutOfMemory` where memory is refused. Condition: no two clients have the same number.
    pub fn grant_at(
        &mut self,
        shape: &Shape<A>,
        clients: &[Client],
        client: u32,
        number: u32,
        kind: LeaseKind,
        end: u64,
    ) -> Result<u32, LeaseFault>
        requires distinct { ClientsAreDistinct clients.now }
        ensures ok { IfOk result (λ told. granted_by_number self.old (sight_of shape.now) clients.now client number (kind_of kind) end ≡ (Ok told, self.new)) }
        ensures err { IfErr result (λ fault. Refuses (granted_by_number self.old (sight_of shape.now) clients.now client number (kind_of kind) end) fault self.new) }
        ensures unchanged { OnErr result (self.new ≡ self.old) }
    {
        let Some(row) = find_client(clients, client) else {
            return Err(LeaseFault::UnknownClient);
        };
        let Some(header) = header_at(shape, number) else {
            return Err(LeaseFault::NoSuchNode);
        };
        let allowed = may_lease(row, kind, &header);
        if !allowed {
            return Err(LeaseFault::NotAllowed);
        }
        if end <= self.moment {
            return Err(LeaseFault::Past);
        }
        match self.rows.contest(client, number, kind, self.moment) {
            Ok(own) => {
                self.rows.put(client, number, own, Lease { kind, end })?;
                Ok(number)
            }
            Err(holder) => Err(LeaseFault::LeaseHeld(holder)),
        }
    }
}

/// The header of the node with this number, or none.
fn header_at<A: Allocator>(shape: &Shape<A>, number: u32) -> Option<Header>
    ensures { option_map header_of result ≡ get shape.now.heads number }
{
    match look(shape, &Cell::Header(number)) {
        Answer::Header(header) => header,
        _ => None,
    }
}

/// Whether the client may have a lease of this kind on a node with this header, without a path to it.
fn may_lease(client: &Client, kind: LeaseKind, header: &Header) -> bool
    ensures { result ≡ may_lease client.now (kind_of kind) (header_of header.now) }
{
    match kind {
        LeaseKind::Read => may(client, header.uid, header.gid, header.mode, Want::Read),
        LeaseKind::Write => {
            owns(client, header.uid)
                || may(client, header.uid, header.gid, header.mode, Want::Write)
        }
    }
}

/// Whether the client owns a node of this uid, or is privileged.
fn owns(client: &Client, uid: u32) -> bool
    ensures { result ≡ access.owns client.now uid }
{
    client.uid() == uid || client.is_privileged()
}
