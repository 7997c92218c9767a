//! Why calls aren't answered, a state isn't kept, and files aren't opened.
ghost use Rattle.std.specs.Prelude.{◌≡◌};
ghost use Rattle.kfs_kept.specs.Faults.{of_encoding, of_journal};
ghost use Rattle.kfs_kept.specs.declared.fault.AdmitFault.TheVariants as admitting;
ghost use Rattle.kfs_kept.specs.declared.fault.CallsFault.TheVariants as calls;

use kfs_call_desk::{EncodeFault, RestoreFault};
use kfs_desk::BeginFault;
use kfs_journal::JournalFault;
use std::alloc::{AllocError, AllocFailed};
use thiserror::Error;

/// Why calls aren't answered.
#[derive(Clone, Copy, Debug, PartialEq, Eq, Error)]
pub enum CallsFault {
    /// 1: the desk is closed. Nothing has changed.
    #[error("closed")]
    Closed,
    /// 2: the calls' group may be over 4,294,967,295 bytes. Nothing has changed.
    #[error("TooLong")]
    TooLong,
    /// 3: memory was refused before the first call. Nothing has changed.
    #[error("memory")]
    OutOfMemory,
    /// 4: 2^60 bytes of the journal's file are used. Nothing has changed. A checkpoint goes on in the other file.
    #[error("full")]
    Full,
    /// 5: the disk has failed. The calls are kept, all of them or none, and the desk is closed.
    #[error("failed")]
    Failed,
}

impl From<AllocError> for CallsFault {
    ghost from_gives = { λ _ fault. fault ≡ calls.OutOfMemory };

    fn from(_error: AllocError) -> CallsFault {
        CallsFault::OutOfMemory
    }
}

impl<T: Drop> From<AllocFailed<T>> for CallsFault {
    ghost from_gives = { λ _ fault. fault ≡ calls.OutOfMemory };

    fn from(_error: AllocFailed<T>) -> CallsFault {
        CallsFault::OutOfMemory
    }
}

/// Why a state isn't kept.
#[derive(Clone, Copy, Debug, PartialEq, Eq, Error)]
pub enum SaveFault {
    /// The desk is closed. Nothing has changed. A new journal has no such fault.
    #[error("closed")]
    Closed,
    /// There are 2^32 clients or leases or more, or a client has more groups than a client may have. Nothing has
    /// changed.
    #[error("TooMany")]
    TooMany,
    /// The state has 2^60 bytes or more, or the journal's last number is used up. Nothing has changed.
    #[error("full")]
    Full,
    /// Memory was refused. Nothing has changed.
    #[error("memory")]
    OutOfMemory,
    /// The disk has failed. What is kept is as it was, or is the state. A desk that was open is closed.
    #[error("failed")]
    Failed,
}

impl From<JournalFault> for SaveFault {
    ghost from_gives = { λ found fault. fault ≡ of_journal found };

    fn from(found: JournalFault) -> SaveFault {
        match found {
            JournalFault::OutOfMemory => SaveFault::OutOfMemory,
            JournalFault::Failed => SaveFault::Failed,
            JournalFault::Full => SaveFault::Full,
        }
    }
}

impl From<EncodeFault> for SaveFault {
    ghost from_gives = { λ found fault. fault ≡ of_encoding found };

    fn from(found: EncodeFault) -> SaveFault {
        match found {
            EncodeFault::TooMany => SaveFault::TooMany,
            EncodeFault::OutOfMemory => SaveFault::OutOfMemory,
        }
    }
}

/// Why a desk doesn't go on with a list of clients.
#[derive(Clone, Copy, Debug, PartialEq, Eq, Error)]
pub enum AdmitFault {
    /// The desk's client with this number isn't in the list as it is: it is left out, or is another one there. Nothing has
    /// changed.
    #[error("client {0} isn't in the list as it was")]
    LeftOut(u32),
    /// The list's clients can't be beside each other. Nothing has changed.
    #[error("{0}")]
    BadClients(BeginFault),
    /// The state with the list's clients isn't kept. Nothing has changed but by `Failed`.
    #[error("{0}")]
    Unsaved(SaveFault),
}

impl From<EncodeFault> for AdmitFault {
    ghost from_gives = { λ found fault. fault ≡ admitting.Unsaved (of_encoding found) };

    fn from(found: EncodeFault) -> AdmitFault {
        AdmitFault::Unsaved(SaveFault::from(found))
    }
}

/// Why files aren't opened. What they stand for is as it was.
#[derive(Clone, Copy, Debug, PartialEq, Eq, Error)]
pub enum OpenFault {
    /// Both files are empty: no journal was created on them.
    #[error("empty")]
    Empty,
    /// Neither file has a whole open head, and they aren't both empty. They are another program's, or a journal's
    /// that is damaged, or a crash has cut a `create` short: then nothing was answered.
    #[error("not a journal")]
    NotAJournal,
    /// The state's bytes make no desk.
    #[error("{0}")]
    BadState(RestoreFault),
    /// The group with this index, counted from 0, is none.
    #[error("BadGroup({0})")]
    BadGroup(usize),
    /// A call of the group with this index has another answer than the one that is kept.
    #[error("Differs({0})")]
    Differs(usize),
    /// The docket is full: the groups have more calls than its limit allows.
    #[error("full")]
    DocketFull,
    /// Memory was refused.
    #[error("memory")]
    OutOfMemory,
    /// The disk has failed.
    #[error("failed")]
    Failed,
}
