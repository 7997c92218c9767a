//! The values with which the desk answers its calls.

pub use kfs_lease::Act;
use kfs_lease::LeaseFault;
use kfs_plan::{Fault, Submission};
use kfs_types::MoveFault;
use std::alloc::{AllocError, Allocator};
use thiserror::Error;

/// The answer to a submission. `position` is its row in the docket, from 0. `rejudged` says whether it
/// was revalidated because something that the first verdict rested on had changed.
#[derive(Clone, Copy, Debug, PartialEq, Eq)]
pub enum Reply {
    /// The log was landed: the tree is what its entries make of it. `need` is the number of blocks that
    /// were written, each to a free place of tier 0.
    Yes {
        position: u32,
        rejudged: bool,
        need: u64,
    },
    /// The submission is refused, and the tree is as it was. `fault` is the first thing found wrong.
    No {
        position: u32,
        rejudged: bool,
        fault: Fault,
    },
    /// Log and plan are right, but the log's blocks need `need` free places of tier 0, and there are
    /// only `free`. The tree is as it was.
    NoRoom {
        position: u32,
        rejudged: bool,
        need: u64,
        free: u32,
    },
}

/// What a call that is no submission has done.
#[derive(Clone, Copy, Debug, PartialEq, Eq)]
pub enum Done {
    /// The client has a lease on the node with this number.
    Leased(u32),
    /// The client's lease on the node with this number is gone.
    Dropped(u32),
    /// This is the moment now, and leases that are no longer live are gone.
    Ticked(u64),
    /// So many blocks have moved.
    Moved(u32),
}

/// Why a call was refused. What the call would have changed is as it was.
#[derive(Clone, Copy, Debug, PartialEq, Eq, Error)]
pub enum ActFault {
    /// A call for leases.
    #[error("{0}")]
    Lease(LeaseFault),
    /// A call that moves blocks.
    #[error("{0}")]
    Move(MoveFault),
}

/// The answer to a call that is no submission.
#[derive(Clone, Copy, Debug, PartialEq, Eq)]
pub struct ActReply {
    /// Its row in the docket, from 0.
    pub position: u32,
    /// What was done, or why nothing was; the desk's state is as it was then.
    pub answer: Result<Done, ActFault>,
}

/// Why a call that is no submission wasn't answered. It has no row in the docket, and the desk is as it was.
#[derive(Clone, Copy, Debug, PartialEq, Eq, Error)]
pub enum Unanswered {
    /// 1: memory ran out.
    #[error("memory")]
    OutOfMemory,
    /// 2: the docket is full: it has as many rows as its limit allows.
    #[error("full")]
    DocketFull,
}

impl From<AllocError> for Unanswered {
    ghost use Rattle.std.specs.Prelude.{◌≡◌};
    ghost use Rattle.kfs_desk.specs.declared.history.answers.Unanswered.TheVariants.{OutOfMemory};

    ghost from_gives = { λ _ why. why ≡ OutOfMemory };

    fn from(_error: AllocError) -> Unanswered {
        Unanswered::OutOfMemory
    }
}

/// Submissions that come back as they were handed in, because there was no memory for their answers.
#[derive(Drop)]
pub struct SubmissionsBack<A: Allocator> {
    /// In the order in which they were handed in.
    pub submissions: Vec<Submission<A>, A>,
}

/// Why a desk wasn't begun. The number is the client's index in the list, from 0; the least index with
/// a fault is answered.
#[derive(Clone, Copy, Debug, PartialEq, Eq, Error)]
pub enum BeginFault {
    /// 1: an earlier client has the same number.
    #[error("ClientTwice({0})")]
    ClientTwice(usize),
    /// 2: this client's grant has a number in common with an earlier one's.
    #[error("GrantOverlap({0})")]
    GrantOverlap(usize),
    /// Memory was refused.
    #[error("memory")]
    OutOfMemory,
}
