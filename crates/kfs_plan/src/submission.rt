//! Submissions, their outcomes, and submissions that come back.
ghost use Rattle.std.specs.Prelude.{◌≡◌};
ghost use Rattle.kfs_plan.specs.declared.submission.Why.TheVariants.{OutOfMemory};

use crate::rows::RowFault;
use kfs_entry::{KeptName, Log, Name, Plan, SpellFault};
use kfs_image_nodes::Net;
use kfs_judge::EntryFault;
use std::alloc::{AllocError, Allocator};
use thiserror::Error;

/// What a client hands in: a log and the plan that it claims is right for it.
#[derive(Debug, Drop)]
pub struct Submission<A: Allocator> {
    /// The number of the client that hands it in. The caller tells which client that is; nothing here
    /// authenticates it.
    pub client: u32,
    /// The bytes of the log.
    pub log: Vec<u8, A>,
    /// The bytes of the plan.
    pub plan: Vec<u8, A>,
}

/// Why a submission is refused. The checks are made in this order, and the first that fails is the
/// fault.
#[derive(Clone, Copy, Debug, PartialEq, Eq, Error)]
pub enum Fault {
    /// 1: no client has the submission's number.
    #[error("client unknown")]
    UnknownClient,
    /// 2: the bytes of the log aren't a log.
    #[error("log {0}")]
    BadLog(SpellFault),
    /// 3: the log's client isn't the submission's.
    #[error("client wrong")]
    WrongClient,
    /// 4: the bytes of the plan aren't a plan.
    #[error("plan {0}")]
    BadPlan(SpellFault),
    /// 5: an entry is refused; the first one.
    #[error("{0}")]
    Entry(EntryFault),
    /// 6: a row of the plan is wrong; the first one.
    #[error("plan {0}")]
    Row(RowFault),
}

/// What a judgement found. `N` is how a name stands in the log, the plan and the net, as in an `Entry`.
#[derive(Drop)]
pub enum Outcome<A: Allocator, N = Name> {
    /// The plan is right for the log. Has both, the net change, and `need`, the number of blocks that a
    /// landing writes.
    Yes {
        log: Log<A, N>,
        plan: Plan<A, N>,
        net: Net<A, N>,
        need: u64,
    },
    /// The submission is refused.
    No(Fault),
}

/// The outcome in a verdict. Its names are kept in few bytes.
pub type KeptOutcome<A> = Outcome<A, KeptName<A>>;

/// Why a submission comes back without a verdict or an answer. Nothing has changed.
#[derive(Clone, Copy, Debug, PartialEq, Eq, Error)]
pub enum Why {
    /// 1: memory ran out.
    #[error("memory")]
    OutOfMemory,
    /// 2: the docket is full: it has as many rows as its limit allows. Only a desk answers so.
    #[error("full")]
    DocketFull,
}

/// A submission that comes back.
#[derive(Debug, Drop)]
pub struct Back<A: Allocator> {
    /// As it was handed in.
    pub submission: Submission<A>,
    /// The reason.
    pub why: Why,
}

impl From<AllocError> for Why {
    ghost from_gives = { λ _ why. why ≡ OutOfMemory };

    fn from(_error: AllocError) -> Why {
        Why::OutOfMemory
    }
}
