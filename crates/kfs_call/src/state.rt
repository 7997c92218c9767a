//! States of a desk, as rows.

use arrayvec::ArrayVec;
use kfs_lease::LeaseKind;
use kfs_mode::GROUP_LIMIT;
use kfs_types::RowList;
use std::alloc::Allocator;

/// A client, as it is written. Nothing of it has been checked.
#[derive(Clone, Debug, PartialEq, Eq, Drop)]
pub struct ClientRow {
    /// The client's own number.
    pub number: u32,
    /// Its user id.
    pub uid: u32,
    /// Its group id.
    pub gid: u32,
    /// Its supplementary groups.
    pub groups: ArrayVec<u32, GROUP_LIMIT>,
    /// Whether permission bits don't bind it.
    pub privileged: bool,
    /// The first number that it may give to a new node.
    pub first: u32,
    /// The last one.
    pub last: u32,
}

/// A client's lease on a node, as it is written.
#[derive(Clone, Copy, Debug, PartialEq, Eq)]
pub struct LeaseRow {
    /// The number of the node.
    pub node: u32,
    /// The number of the client.
    pub client: u32,
    /// For reading or for writing.
    pub kind: LeaseKind,
    /// The lease is live while the moment is below this one.
    pub end: u64,
}

/// A state of a desk: the moment, the clients and their leases, and the bytes of an image, which are read
/// where they lie. Nothing of the rows has been checked but their widths, and nothing of the image.
#[derive(Drop)]
pub struct StateRows<'a, A: Allocator> {
    pub moment: u64,
    pub clients: RowList<ClientRow, A>,
    pub leases: RowList<LeaseRow, A>,
    pub image: &'a [u8],
}
