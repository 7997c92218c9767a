//! Why a script isn't as expected.

use std::alloc::{AllocError, AllocFailed};
use thiserror::Error;

#[derive(Clone, Copy, Debug, PartialEq, Eq, Error)]
pub enum ScriptFault {
    /// The line and the byte of the first difference, both counted from 1.
    #[error("differs at line {line} (byte {byte})")]
    Differs { line: usize, byte: usize },
    #[error("status {ended}, not {status}")]
    Status { ended: u8, status: u8 },
    /// A file with this ending is missing.
    #[error("has no file {0}")]
    Missing(&'static str),
    /// A file with this ending has the wrong content.
    #[error("its file {0} can't be read")]
    Unreadable(&'static str),
    /// With the allocation of this index refused, other lines are answered differently.
    #[error("isn't as it is due with growth {0} refused")]
    Growth(u64),
    /// The line with this index, for which memory ran out, isn't answered as it is due when it comes
    /// again.
    #[error("isn't as it is due with line {0} again, which found no memory")]
    Again(usize),
    /// With the read of this index failing, the answer is another.
    #[error("isn't as it is due where read {0} fails")]
    Read(u64),
    /// With the write of this index failing, the answer is another.
    #[error("isn't as it is due where write {0} fails")]
    Write(u64),
    /// With the write of this index taking no byte, the answer is another.
    #[error("isn't as it is due where write {0} takes no byte")]
    NothingTaken(u64),
    /// The replies to one read are so many writes.
    #[error("writes {0} times")]
    Writes(u64),
    #[error("makes {made} growths, not {least}")]
    FewGrowths { made: u64, least: u64 },
    /// The number in `.room` is too small.
    #[error("has too little room in {0} bytes")]
    Room(u64),
    #[error("out of memory")]
    OutOfMemory,
}

impl From<AllocError> for ScriptFault {
    fn from(_error: AllocError) -> ScriptFault {
        ScriptFault::OutOfMemory
    }
}

impl<T: Drop> From<AllocFailed<T>> for ScriptFault {
    fn from(_error: AllocFailed<T>) -> ScriptFault {
        ScriptFault::OutOfMemory
    }
}
