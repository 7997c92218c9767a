//! Clients: who they are, and which numbers they may give to new nodes.
ghost use Rattle.std.specs.Prelude.{◌≡◌, ◌<◌, ◌≤◌, ◌↔◌, length, IfOk, IsErrOf, IsFalse};
ghost use Rattle.std.specs.Option.{option_map};
ghost use Rattle.kfs_model.specs.Limits.{group_limit};
ghost use Rattle.kfs_model.specs.Access as access;
ghost use Rattle.kfs_model.specs.Access.{is_grant};
ghost use Rattle.kfs_model.specs.CleanStep.{IsClient};
ghost use Rattle.kfs_model.specs.Lease.{row_of};
ghost use Rattle.kfs_mode.specs.Clients.{ClientsAreDistinct, client_row};

use arrayvec::ArrayVec;
use kfs_types::GREATEST_NUMBER;
use std::marker::Model;
use thiserror::Error;

/// The most supplementary groups of a client (POSIX `NGROUPS_MAX`).
pub const GROUP_LIMIT: usize = 16;

/// A client: its number, its ids and groups, whether it is privileged, and its grant, the range of
/// numbers that it may give to new nodes. It takes no memory of its own.
#[derive(Clone, Debug, PartialEq, Eq, Drop)]
pub struct Client {
    number: u32,
    uid: u32,
    gid: u32,
    groups: ArrayVec<u32, GROUP_LIMIT>,
    privileged: bool,
    first: u32,
    last: u32,
}

impl Model for Client {
    ghost use Rattle.kfs_model.specs.Access.{Client as ClientRow};
    ghost use Rattle.kfs_model.specs.CleanStep.{IsClient};

    ghost Value = { ClientRow };

    ghost view = { λ c. record { number = c.number; uid = c.uid; gid = c.gid; groups = c.groups.items; privileged = c.privileged; first = c.first; last = c.last } };

    ghost invariant = { λ c. IsClient (record { number = c.number; uid = c.uid; gid = c.gid; groups = c.groups.items; privileged = c.privileged; first = c.first; last = c.last }) };

    ghost inverse = { λ v. record { number = v.number; uid = v.uid; gid = v.gid; groups = record { items = v.groups }; privileged = v.privileged; first = v.first; last = v.last } };
}

/// Why a client is refused. The first that applies is answered.
#[derive(Clone, Copy, Debug, PartialEq, Eq, Error)]
pub enum ClientFault {
    /// 1: there are over 16 supplementary groups.
    #[error("TooManyGroups")]
    TooManyGroups,
    /// 2: the grant begins at 0 or ends above 65,536.
    #[error("BadGrant")]
    BadGrant,
}

impl Client {
    /// A client. `number`, `uid`, `gid` and `groups` are any of 32 bits; `groups` are the supplementary
    /// groups. The grant is `first..=last`, empty where `first` is above `last`. Refused with
    /// `TooManyGroups` or `BadGrant`. Takes no memory.
    pub fn new(
        number: u32,
        uid: u32,
        gid: u32,
        groups: &[u32],
        privileged: bool,
        first: u32,
        last: u32,
    ) -> Result<Client, ClientFault>
        ensures groups { IsErrOf result ClientFault.TooManyGroups ↔ (group_limit < length groups.now) }
        ensures grant { IsErrOf result ClientFault.BadGrant ↔ ((length groups.now ≤ group_limit) × IsFalse (is_grant first last)) }
        ensures row { IfOk result (λ c. c ≡ client_row number uid gid groups.now privileged first last) }
    {
        let Ok(groups) = ArrayVec::try_from(groups) else {
            return Err(ClientFault::TooManyGroups);
        };
        if first == 0 || last > GREATEST_NUMBER {
            return Err(ClientFault::BadGrant);
        }
        Ok(Client {
            number,
            uid,
            gid,
            groups,
            privileged,
            first,
            last,
        })
    }

    /// The client's own number, any of 32 bits. The clause on ranges says what every client fulfills.
    pub fn number(&self) -> u32
        ensures number { result ≡ self.now.number }
        ensures in_range { IsClient self.now }
    {
        self.number
    }

    /// The user id, also of the client's new nodes.
    pub fn uid(&self) -> u32
        ensures { result ≡ self.now.uid }
    {
        self.uid
    }

    /// The group id, also of the client's new nodes.
    pub fn gid(&self) -> u32
        ensures { result ≡ self.now.gid }
    {
        self.gid
    }

    /// The supplementary groups, in the order in which they were handed in.
    pub fn groups(&self) -> &[u32]
        ensures { result.now ≡ self.now.groups }
    {
        self.groups.as_slice()
    }

    /// Whether the client may read, write and search whatever a node's bits are.
    pub fn is_privileged(&self) -> bool
        ensures { result ≡ self.now.privileged }
    {
        self.privileged
    }

    /// The first and the last number that the client may give to new nodes, each 1 to 65,536 where the
    /// grant isn't empty; it is empty where the first is above the last.
    pub fn grant(&self) -> (u32, u32)
        ensures { result ≡ (self.now.first, self.now.last) }
    {
        (self.first, self.last)
    }

    /// Whether the client may give this number to a new node.
    pub fn is_granted(&self, number: u32) -> bool
        ensures { result ≡ access.is_granted self.now number }
    {
        self.first <= number && number <= self.last
    }

    /// Whether the group is the client's own or a supplementary one.
    pub fn has_group(&self, gid: u32) -> bool
        ensures { result ≡ access.is_in_group self.now gid }
    {
        self.gid == gid || self.groups.as_slice().contains(&gid)
    }
}

/// The client with this number, or none. Condition: no two clients have the same number. Where the
/// numbers ascend it is found by binary search, else by a scan. Takes no memory.
pub fn find_client(clients: &[Client], number: u32) -> Option<&Client>
    requires distinct { ClientsAreDistinct clients.now }
    ensures { option_map (λ row. row.now) result ≡ row_of clients.now number }
{
    let near = clients.binary_search_by_key(&number, |client| client.number);
    if let Ok(place) = near {
        if let Some(client) = clients.get(place) {
            if client.number == number {
                return Some(client);
            }
        }
    }
    clients.iter().find(|client| client.number == number)
}
