//! What crosses to C and back: rows, answers and headers as numbers.

use crate::submission::FaultNumbers;

/// A client, as a host gives it.
#[repr(C)]
#[derive(Clone, Copy)]
pub struct ClientRow {
    /// The client's own number.
    pub number: u32,
    /// Its user id.
    pub uid: u32,
    /// Its group id.
    pub gid: u32,
    /// The first number that it may give to a new node.
    pub first: u32,
    /// The last number that it may give to a new node. Below `first`: it may give none.
    pub last: u32,
    /// Where its supplementary groups begin in the list of groups.
    pub groups_start: u32,
    /// How many supplementary groups it has, at most 16.
    pub groups_count: u32,
    /// Whether permission bits don't bind it.
    pub privileged: bool,
}

/// A lease, as a host gives it.
#[repr(C)]
#[derive(Clone, Copy)]
pub struct LeaseNumbers {
    /// The number of the node.
    pub number: u32,
    /// The number of the client.
    pub client: u32,
    /// The moment at which it ends.
    pub end: u64,
    /// Whether it is for writing, or else for reading.
    pub write: bool,
}

/// The move of a block to another place.
#[repr(C)]
#[derive(Clone, Copy)]
pub struct MoveRow {
    /// The number of the file.
    pub number: u32,
    /// The block of the file, from 0.
    pub block: u32,
    /// The tier of the target.
    pub tier: u8,
    /// The target on its tier, from 0.
    pub place: u32,
}

/// The answer to a call that is no submission.
#[repr(C)]
#[derive(Clone, Copy)]
pub struct ActNumbers {
    /// The row of the docket, from 0.
    pub position: u32,
    /// Whether it was done.
    pub done: bool,
    /// What was done: the node's number, the moment, or how many blocks moved.
    pub number: u64,
    /// Why it wasn't done.
    pub fault: FaultNumbers,
}

/// The header of a node.
#[repr(C)]
#[derive(Clone, Copy)]
pub struct NodeNumbers {
    /// Whether it is a directory.
    pub directory: bool,
    /// The permission bits, 0 to 0o1777.
    pub mode: u16,
    /// How many names lead to it.
    pub links: u16,
    /// The user id of the owner.
    pub uid: u32,
    /// The id of the group.
    pub gid: u32,
    /// The size in bytes.
    pub size: u64,
}
