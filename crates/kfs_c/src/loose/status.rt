//! The numbers that exports answer. `specs/Status` names them for contracts.
ghost use Rattle.std.specs.Prelude.{◌≡◌};
ghost use Rattle.kfs_c.specs.Loose.Status as status;

/// The call was made and answered.
pub const DONE: u32 = 0;

/// Memory was refused. The desk is as it was.
pub const NO_MEMORY: u32 = 1;

/// The docket is full. The desk is as it was.
pub const FULL: u32 = 2;

/// There is no such thing.
pub const NOTHING: u32 = 3;

/// Refused, for the reason that the fault tells.
pub const REFUSED: u32 = 4;

/// The buffer is too short. The length that is needed is told.
pub const SHORT: u32 = 5;

/// The handle holds nothing (`closed`).
const CLOSED: u32 = 6;

/// The handle holds something of another kind.
pub const WRONG_KIND: u32 = 7;

/// The node is a directory, and the call is for files.
pub const DIRECTORY: u32 = 8;

/// What a call of a handle that holds nothing answers.
pub fn closed() -> u32
    ensures { result ≡ status.closed }
{
    CLOSED
}
