//! The numbers of faults, as C knows them. Each has its name in `include/kfs.h`, with `KFS_` before it.
//! `ROW_NAMES` and the two behind it have none: the header says these numbers in words.

// Kinds of a reply.

/// The log was landed.
pub(crate) const YES: u32 = 0;

/// It is refused.
pub(crate) const NO: u32 = 1;

/// There are too few free places.
pub(crate) const NO_ROOM: u32 = 2;

// Of a reply to a submission.

/// The desk has no such client.
pub(crate) const UNKNOWN_CLIENT: u32 = 1;

/// The bytes are no log.
pub(crate) const BAD_LOG: u32 = 2;

/// The log is another client's.
pub(crate) const WRONG_CLIENT: u32 = 3;

/// The bytes are no plan.
pub(crate) const BAD_PLAN: u32 = 4;

/// An entry is refused.
pub(crate) const ENTRY: u32 = 5;

/// A row of the plan is wrong.
pub(crate) const ROW: u32 = 6;

// Of bytes that are no log or no plan.

/// Its first bytes.
pub(crate) const BAD_HEADER: u32 = 1;

/// The entry with this index.
pub(crate) const BAD_ENTRY: u32 = 2;

/// Bytes remain.
pub(crate) const TRAILING: u32 = 3;

/// The row with this index, in the part that is told.
pub(crate) const BAD_ROW: u32 = 4;

// Why an entry is refused.

/// No such node.
pub(crate) const NO_SUCH_NODE: u32 = 1;

/// The node is no directory.
pub(crate) const NOT_DIRECTORY: u32 = 2;

/// The node is a directory.
pub(crate) const IS_DIRECTORY: u32 = 3;

/// No such name.
pub(crate) const NO_SUCH_NAME: u32 = 4;

/// The name leads somewhere already.
pub(crate) const NAME_TAKEN: u32 = 5;

/// The number is a node's, or was.
pub(crate) const NUMBER_TAKEN: u32 = 6;

/// The number isn't the client's to give.
pub(crate) const NUMBER_NOT_GRANTED: u32 = 7;

/// The directory has names.
pub(crate) const NOT_EMPTY: u32 = 8;

/// The directory would go below itself.
pub(crate) const BELOW_ITSELF: u32 = 9;

/// The file has as many names as it may.
pub(crate) const TOO_MANY_LINKS: u32 = 10;

/// The file would be too large.
pub(crate) const TOO_BIG: u32 = 11;

/// Search isn't granted.
pub(crate) const NO_SEARCH: u32 = 12;

/// Write isn't granted.
pub(crate) const NO_WRITE: u32 = 13;

/// The client isn't the owner.
pub(crate) const NOT_OWNER: u32 = 14;

/// No live write lease on the node that is told.
pub(crate) const NO_LEASE: u32 = 15;

/// The directory lets owners alone take names out.
pub(crate) const STICKY: u32 = 16;

/// The client isn't in the group.
pub(crate) const NOT_IN_GROUP: u32 = 17;

// Which part of a plan has the wrong row.

/// A row of the names.
pub(crate) const ROW_NAMES: u32 = 1;

/// A row of the nodes.
pub(crate) const ROW_NODES: u32 = 2;

/// A piece.
pub(crate) const ROW_PIECES: u32 = 3;
