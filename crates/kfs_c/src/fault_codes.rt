//! The numbers of faults of openings, calls as bytes, calls for leases, moves and permissions, as C knows them. Each has
//! its name in `include/kfs.h`, with `KFS_` before it. The reasons of an opening have none: the header says them in
//! words.

// Of a call for leases.

/// The desk has no such client.
pub(crate) const LEASE_UNKNOWN_CLIENT: u32 = 1;

/// The bytes are no path.
pub(crate) const LEASE_BAD_PATH: u32 = 2;

/// The component with this index.
pub(crate) const LEASE_NO_SUCH_NAME: u32 = 3;

/// What comes before the component with this index.
pub(crate) const LEASE_NOT_DIRECTORY: u32 = 4;

/// Of the directory before the component with this index.
pub(crate) const LEASE_NO_SEARCH: u32 = 5;

/// The end isn't above the moment.
pub(crate) const LEASE_PAST: u32 = 6;

/// By the client that is told.
pub(crate) const LEASE_HELD: u32 = 7;

/// The client has no lease on the node.
pub(crate) const LEASE_NONE_HELD: u32 = 8;

/// The moment would go down.
pub(crate) const LEASE_BACKWARDS: u32 = 9;

/// No node has the number.
pub(crate) const LEASE_NO_SUCH_NODE: u32 = 10;

/// The client has no permission on the node for such a lease.
pub(crate) const LEASE_NOT_ALLOWED: u32 = 11;

// Of moves: the move with this index.

/// The block isn't mapped.
pub(crate) const MOVE_NOT_MAPPED: u32 = 1;

/// There is no such place.
pub(crate) const MOVE_OUT_OF_RANGE: u32 = 2;

/// The place holds a block.
pub(crate) const MOVE_NOT_FREE: u32 = 3;

/// An earlier move has the same block or place.
pub(crate) const MOVE_OVERLAP: u32 = 4;

/// There are more moves than a call may have.
pub(crate) const MOVE_TOO_MANY: u32 = 5;

// Of who may look names up, list them and read.

/// The view has no such client.
pub(crate) const MAY_UNKNOWN_CLIENT: u32 = 1;

/// No such node.
pub(crate) const MAY_NO_SUCH_NODE: u32 = 2;

/// The node is no directory.
pub(crate) const MAY_NOT_DIRECTORY: u32 = 3;

/// The node is a directory.
pub(crate) const MAY_IS_DIRECTORY: u32 = 4;

/// Search isn't permitted.
pub(crate) const MAY_NO_SEARCH: u32 = 5;

/// Reading isn't permitted.
pub(crate) const MAY_NO_READ: u32 = 6;

// Of openings.

/// A tier is too large.
pub(crate) const OPEN_SIZES: u32 = 1;

/// The client with this index can't be.
pub(crate) const OPEN_CLIENT: u32 = 2;

/// The client with this index can't be beside an earlier one.
pub(crate) const OPEN_CLIENTS: u32 = 3;

/// The bytes are no image.
pub(crate) const OPEN_IMAGE: u32 = 4;

/// The image breaks the rule that is the reason.
pub(crate) const OPEN_RULE: u32 = 5;

/// The bytes are no state.
pub(crate) const OPEN_STATE: u32 = 6;

/// The lease with this index can't be one.
pub(crate) const OPEN_LEASE: u32 = 7;

// Reasons of `OPEN_CLIENT`.

/// More groups than a client may have.
pub(crate) const TOO_MANY_GROUPS: u32 = 1;

/// A grant out of range.
pub(crate) const BAD_GRANT: u32 = 2;

/// Groups that reach out of the list.
pub(crate) const GROUPS_OUTSIDE: u32 = 3;

// Reasons of `OPEN_CLIENTS`.

/// The number is an earlier client's.
pub(crate) const CLIENT_TWICE: u32 = 1;

/// The grant has a number of an earlier one's.
pub(crate) const GRANT_OVERLAP: u32 = 2;

// Reasons of `OPEN_IMAGE`.

/// Its first bytes.
pub(crate) const IMAGE_HEADER: u32 = 1;

/// The row with this index.
pub(crate) const IMAGE_ROW: u32 = 2;

/// Bytes remain.
pub(crate) const IMAGE_TRAILING: u32 = 3;

// Reasons of `OPEN_STATE`.

/// Its first bytes.
pub(crate) const STATE_HEADER: u32 = 1;

/// The row with this index, in the part that is told.
pub(crate) const STATE_ROW: u32 = 2;

// Reasons of `OPEN_LEASE`.

/// No client has the number.
pub(crate) const ROW_UNKNOWN_CLIENT: u32 = 1;

/// No such node.
pub(crate) const ROW_NO_SUCH_NODE: u32 = 2;

/// The end isn't above the moment.
pub(crate) const ROW_PAST: u32 = 3;

/// It doesn't come behind the one before it.
pub(crate) const ROW_NOT_ASCENDING: u32 = 4;

/// It conflicts with an earlier one.
pub(crate) const ROW_LEASE_HELD: u32 = 5;

// Of a call as bytes.

/// So many fields were read, and no field that may follow them does.
pub(crate) const CALL_BAD_FIELD: u32 = 1;

/// All was read, and bytes remain.
pub(crate) const CALL_TRAILING: u32 = 2;
