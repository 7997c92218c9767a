//! What can be looked up in a shape.

use kfs_types::{Header, Name};

/// A cell: one thing that a shape shows. Numbers are any of 32 bits; those that are no node's have
/// answers too.
#[derive(Clone, Debug, PartialEq, Eq, Hash, Drop)]
pub enum Cell {
    /// The header of the node with this number.
    Header(u32),
    /// Where the name of a directory leads: the directory's number, and the name.
    Name(u32, Name),
    /// How many names the directory with this number has.
    Count(u32),
    /// The directory in which the directory with this number has its name.
    Parent(u32),
}

/// The answer to a cell of the same case.
#[derive(Clone, Copy, Debug, PartialEq, Eq)]
pub enum Answer {
    /// The header, or none where no node has the number.
    Header(Option<Header>),
    /// The number that the name leads to, or none where the directory has no such name.
    Name(Option<u32>),
    /// How many names; 0 where the number isn't a directory's.
    Count(u64),
    /// The directory's parent; none for the root, and where the number isn't a directory's.
    Parent(Option<u32>),
}
