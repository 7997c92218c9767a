//! Update logs and their entries ("Strata", SOSP 2017). The header of a node: all that it shows apart
//! from its bytes.
ghost use Rattle.std.specs.Prelude.{◌≡◌, IfOk};

use crate::borrowed_name::BorrowedName;
use crate::kept_name::KeptName;
use crate::name::Name;
use crate::rows::RowList;
use std::alloc::{AllocError, Allocator};

/// A payload's place: the bytes from position `start` up to, but without, `end` of the bytes that the
/// log was read from. Positions count from 0.
#[derive(Clone, Copy, Debug, PartialEq, Eq)]
pub struct Span {
    /// The position of the first byte.
    pub start: usize,
    /// The position after the last byte.
    pub end: usize,
}

/// One change that a client asks for. Nodes and directories are given by number. A log may hold any
/// 32-bit number; the judge refuses those that fit no node of the tree. `P` is what stands for the
/// payload of a Write: in a decoded log a `Span`. `N` is how a name stands in it: as a value, or where it
/// lies in the log's bytes (`BorrowedName`), or kept in few bytes (`KeptName`).
#[derive(Clone, Debug, PartialEq, Eq, Drop)]
pub enum Entry<P, N = Name> {
    /// Makes the empty node `number` with the name `name` in the directory `dir`, with the client's uid
    /// and gid and the permission bits `mode` (POSIX `open` with `O_CREAT`, `mkdir`). A mode is 0 to
    /// 0o777 in a log of version 1, and 0 to 0o1777 in one of version 2.
    Create {
        dir: u32,
        name: N,
        number: u32,
        kind: Kind,
        mode: u16,
    },
    /// Puts the payload, 0 to 65,536 bytes, into the file `number` from byte `offset` on (POSIX
    /// `pwrite`). A gap behind the old end is filled with zero bytes. A Write without bytes changes
    /// nothing.
    Write {
        number: u32,
        offset: u64,
        payload: P,
    },
    /// Sets the size of the file `number` to `size` bytes (POSIX `ftruncate`). Bytes that it gains are
    /// zero.
    Truncate {
        number: u32,
        size: u64,
    },
    /// Gives the file `number` one more name: `name` in the directory `dir` (POSIX `link`).
    Link {
        number: u32,
        dir: u32,
        name: N,
    },
    /// Removes the name `name` from the directory `dir`. `kind` says what the name must lead to: a file
    /// (POSIX `unlink`) or an empty directory (POSIX `rmdir`). A file goes with its last name.
    Unlink {
        dir: u32,
        name: N,
        kind: Kind,
    },
    /// Moves the name `name` of `dir` to `new_name` in `new_dir`, in place of what is there (POSIX
    /// `rename`).
    Rename {
        dir: u32,
        name: N,
        new_dir: u32,
        new_name: N,
    },
    /// Sets the permission bits of the node `number` to `mode`, in the same range (POSIX `fchmod`).
    Chmod {
        number: u32,
        mode: u16,
    },
    /// Sets the group of the node `number` to `group`, and leaves its owner (POSIX `fchown` with an
    /// owner of -1). It stands in logs of version 2 alone.
    Regroup {
        number: u32,
        group: u32,
    },
}

/// An entry whose names lie in the bytes that its log was read from.
pub type BorrowedEntry<'s> = Entry<Span, BorrowedName<'s>>;

/// An entry whose names are kept.
pub type KeptEntry<A> = Entry<Span, KeptName<A>>;

/// A client's update log. The payloads are spans of the bytes that it was read from.
#[derive(Debug, Drop)]
pub struct Log<A: Allocator, N = Name> {
    /// The version of its format, 1 or 2. It says which modes the entries may have, and whether a
    /// Regroup may be among them.
    pub version: u8,
    /// The number of the client whose log it is, any of 32 bits.
    pub client: u32,
    /// At most 4,096, in the order in which they take effect.
    pub entries: RowList<Entry<Span, N>, A>,
}

/// Whether a node is a regular file or a directory. There are no other kinds.
#[derive(Clone, Copy, Debug, PartialEq, Eq)]
pub enum Kind {
    /// A regular file.
    File,
    /// A directory.
    Directory,
}

/// The header of a node: the part of POSIX `struct stat` that this file system keeps.
#[derive(Clone, Copy, Debug, PartialEq, Eq)]
pub struct Header {
    /// File or directory.
    pub kind: Kind,
    /// The file permission bits (POSIX.1-2017, XBD 4.5) and the bit 0o1000, 0 to 0o1777 in a tree.
    pub mode: u16,
    /// The user id of the owner, any of 32 bits.
    pub uid: u32,
    /// The id of the node's group, any of 32 bits.
    pub gid: u32,
    /// How many names lead to a file, 1 to 1,024; a directory has 1.
    pub links: u16,
    /// The size in bytes, at most 2^32; a directory has 0.
    pub size: u64,
}

/// The same entry, with its names in another form: `$form` is the call on each of them.
macro_rules! in_form {
    ($entry:expr, $($form:tt)+) => {
        match $entry {
            Entry::Create {
                dir,
                name,
                number,
                kind,
                mode,
            } => Entry::Create {
                dir: *dir,
                name: name.$($form)+,
                number: *number,
                kind: *kind,
                mode: *mode,
            },
            Entry::Write {
                number,
                offset,
                payload,
            } => Entry::Write {
                number: *number,
                offset: *offset,
                payload: *payload,
            },
            Entry::Truncate { number, size } => Entry::Truncate {
                number: *number,
                size: *size,
            },
            Entry::Link { number, dir, name } => Entry::Link {
                number: *number,
                dir: *dir,
                name: name.$($form)+,
            },
            Entry::Unlink { dir, name, kind } => Entry::Unlink {
                dir: *dir,
                name: name.$($form)+,
                kind: *kind,
            },
            Entry::Rename {
                dir,
                name,
                new_dir,
                new_name,
            } => Entry::Rename {
                dir: *dir,
                name: name.$($form)+,
                new_dir: *new_dir,
                new_name: new_name.$($form)+,
            },
            Entry::Chmod { number, mode } => Entry::Chmod {
                number: *number,
                mode: *mode,
            },
            Entry::Regroup { number, group } => Entry::Regroup {
                number: *number,
                group: *group,
            },
        }
    };
}

impl<P: Copy> Entry<P, Name> {
    /// The same entry, with its names where they lie in this one. Takes no memory.
    pub fn borrowed(&self) -> Entry<P, BorrowedName<'_>>
        ensures { result ≡ self.now }
    {
        in_form!(self, borrowed())
    }
}

impl<'s, P: Copy> Entry<P, BorrowedName<'s>> {
    /// The same entry, with names of its own. Takes no memory.
    pub fn owned(&self) -> Entry<P, Name>
        ensures { result ≡ self.now }
    {
        in_form!(self, owned())
    }

    /// The same entry, with names that are kept. `Err` where memory runs out.
    pub fn kept<A: Allocator + Copy>(&self, alloc: A) -> Result<Entry<P, KeptName<A>>, AllocError>
        ensures { IfOk result (λ kept. kept ≡ self.now) }
    {
        Ok(in_form!(self, kept(alloc)?))
    }
}
