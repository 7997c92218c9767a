//! Digest plans and their rows ("Strata", SOSP 2017: what is left of a log once it is coalesced).
ghost use Rattle.std.specs.Prelude.{◌≡◌, IfOk};

use crate::borrowed_name::BorrowedName;
use crate::entry::Header;
use crate::kept_name::KeptName;
use crate::name::Name;
use crate::rows::RowList;
use std::alloc::{AllocError, Allocator};

/// The number that a name leads to after the log, where that differs from before. `N` is how the name
/// stands in it, as in an `Entry`.
#[derive(Clone, Debug, PartialEq, Eq, Drop)]
pub struct NameRow<N = Name> {
    /// The number of the name's directory.
    pub dir: u32,
    /// The name.
    pub name: N,
    /// The node's number after the log, or 0 where the name is gone.
    pub number: u32,
}

impl NameRow<Name> {
    /// The same row, with its name where it lies in this one. Takes no memory.
    pub fn borrowed(&self) -> NameRow<BorrowedName<'_>>
        ensures { result ≡ self.now }
    {
        NameRow {
            dir: self.dir,
            name: self.name.borrowed(),
            number: self.number,
        }
    }
}

impl<'s> NameRow<BorrowedName<'s>> {
    /// The same row, with a name of its own. Takes no memory.
    pub fn owned(&self) -> NameRow
        ensures { result ≡ self.now }
    {
        NameRow {
            dir: self.dir,
            name: self.name.owned(),
            number: self.number,
        }
    }

    /// The same row, with a name that is kept. `Err` where memory runs out.
    pub fn kept<A: Allocator>(&self, alloc: A) -> Result<KeptRow<A>, AllocError>
        ensures { IfOk result (λ kept. kept ≡ self.now) }
    {
        Ok(NameRow {
            dir: self.dir,
            name: self.name.kept(alloc)?,
            number: self.number,
        })
    }
}

impl<A: Allocator> NameRow<KeptName<A>> {
    /// The same row, with its name where it lies in this one. Takes no memory.
    pub fn borrowed(&self) -> BorrowedRow<'_>
        ensures { result ≡ self.now }
    {
        NameRow {
            dir: self.dir,
            name: self.name.borrowed(),
            number: self.number,
        }
    }
}

/// A row whose name lies in other bytes.
pub type BorrowedRow<'s> = NameRow<BorrowedName<'s>>;

/// A row whose name is kept.
pub type KeptRow<A> = NameRow<KeptName<A>>;

/// The header that a node has after the log, where that differs from before.
#[derive(Clone, Copy, Debug, PartialEq, Eq)]
pub struct NodeRow {
    /// The node's number.
    pub number: u32,
    /// The header after the log, or none where the node is gone.
    pub now: Option<Header>,
}

/// Where the bytes of a piece come from.
#[derive(Clone, Copy, Debug, PartialEq, Eq)]
pub enum Source {
    /// The bytes are zero.
    Zero,
    /// The bytes are part of a Write's payload. `entry` is the Write's index in the log, from 0.
    /// `place` is the index, in that payload, of the piece's first byte.
    Payload { entry: u16, place: u32 },
}

/// A range of bytes of one file that the log changed, and where they come from.
#[derive(Clone, Copy, Debug, PartialEq, Eq)]
pub struct Piece {
    /// The file's number.
    pub number: u32,
    /// The position of the first byte in the file, from 0.
    pub start: u64,
    /// How many bytes.
    pub len: u64,
    /// Where they come from.
    pub source: Source,
}

/// What a client says that its log changes, against the tree before the log. The client makes the plan,
/// and the desk only checks it.
#[derive(Debug, Drop)]
pub struct Plan<A: Allocator, N = Name> {
    /// The version of its format, 1 or 2. It may differ from the log's.
    pub version: u8,
    /// The names that lead elsewhere, ascending by directory and name.
    pub names: RowList<NameRow<N>, A>,
    /// The nodes with another header, ascending by number.
    pub nodes: RowList<NodeRow, A>,
    /// The changed bytes of files, ascending by file number and position, not overlapping.
    pub pieces: RowList<Piece, A>,
}
