//! The checks of an entry, and the reasons for which they fail.

use kfs_judge_reads::NameKey;
use thiserror::Error;

/// Why an entry is refused: the first of its checks that fails. `checks_of` in
/// crates/kfs_model/specs/Check.antt lists the checks of each entry in order.
#[derive(Clone, Copy, Debug, PartialEq, Eq, Error)]
pub enum Reason {
    /// 1: no node has the number.
    #[error("NoSuchNode")]
    NoSuchNode,
    /// 2: the node isn't a directory.
    #[error("NotDirectory")]
    NotDirectory,
    /// 3: the node is a directory.
    #[error("IsDirectory")]
    IsDirectory,
    /// 4: the directory has no such name.
    #[error("NoSuchName")]
    NoSuchName,
    /// 5: the directory already has the name.
    #[error("NameTaken")]
    NameTaken,
    /// 6: the number is a node's, or was one's before the log, or the log has created it.
    #[error("NumberTaken")]
    NumberTaken,
    /// 7: the number isn't in the client's grant.
    #[error("NumberNotGranted")]
    NumberNotGranted,
    /// 8: the directory has names.
    #[error("NotEmpty")]
    NotEmpty,
    /// 9: the directory would be put below itself.
    #[error("BelowItself")]
    BelowItself,
    /// 10: the file already has 1,024 names.
    #[error("TooManyLinks")]
    TooManyLinks,
    /// 11: the file would be longer than 2^32 bytes.
    #[error("TooBig")]
    TooBig,
    /// 12: the client may not search the directory.
    #[error("NoSearch")]
    NoSearch,
    /// 13: the client may not write the node.
    #[error("NoWrite")]
    NoWrite,
    /// 14: the client is neither the node's owner nor privileged.
    #[error("NotOwner")]
    NotOwner,
    /// 15: the client holds no live write lease on the node with this number.
    #[error("NoLease({0})")]
    NoLease(u32),
    /// 16: the directory is sticky, and the client owns neither it nor the node, and isn't privileged.
    #[error("Sticky")]
    Sticky,
    /// 17: the group is none of the client's, and the client isn't privileged.
    #[error("NotInGroup")]
    NotInGroup,
}

/// One check: what must hold at an entry's point of the log. Nodes are given by number.
#[derive(Clone, Copy)]
pub enum Check<'a, 'e, 's> {
    /// The number is a node's.
    Exists(u32),
    /// The node is a directory.
    IsADirectory(u32),
    /// The node isn't a directory.
    IsAFile(u32),
    /// The client may search the directory.
    MaySearch(u32),
    /// The client may write the node, or the log created it as a file.
    MayWrite(u32),
    /// The client is the node's owner, or privileged.
    IsOwned(u32),
    /// The client may take a name of the node out of the directory (POSIX.1-2017, XBD 4.3, "Directory
    /// Protection").
    MayRemove { dir: u32, number: u32 },
    /// The client may make this a node's group: it is in the group, or privileged.
    MaySetGroup(u32),
    /// The client holds a live write lease on the node, or the log created it.
    IsLeased(u32),
    /// The directory has no names.
    HasNoNames(u32),
    /// The file may have one more name.
    HasRoomForLink(u32),
    /// The directory doesn't have the name.
    NameIsFree(&'a NameKey<'e, 's>),
    /// The client may give the number to a new node.
    NumberIsGranted(u32),
    /// The number is no node's, was none's before the log, and wasn't created by the log.
    NumberIsFree(u32),
    /// The end, offset + length, is at most 2^32. Kept in 128 bits, since the sum may exceed 64.
    EndIsInRange(u128),
    /// The node isn't the directory, and isn't above it.
    IsNotAbove { node: u32, dir: u32 },
}
