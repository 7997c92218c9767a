//! Why a call of a shared desk isn't answered.

use kfs_plan::Submission;
use std::alloc::Allocator;
use thiserror::Error;

/// Why a call of a shared desk wasn't answered. The pass has no row of it among its own. Rows of others may
/// have come meanwhile.
#[derive(Clone, Copy, Debug, PartialEq, Eq, Error)]
pub enum SharedWant {
    /// 1: memory ran out.
    #[error("memory")]
    OutOfMemory,
    /// 2: the docket is full: it has as many rows as its limit allows.
    #[error("full")]
    DocketFull,
    /// 3: there is no ticket left: the next one would be 2^64 - 1.
    #[error("TurnsSpent")]
    TurnsSpent,
}

/// A submission that comes back from a shared desk.
#[derive(Debug, Drop)]
pub struct SharedBack<A: Allocator> {
    /// As it was handed in.
    pub submission: Submission<A>,
    /// The reason.
    pub why: SharedWant,
}

/// Some ticket was drawn and its turn not passed on, so the shared object doesn't come back. Each call
/// that returns has passed its turn on; no clause says so.
#[derive(Clone, Copy, Debug, PartialEq, Eq, Error)]
#[error("Unreturned")]
pub struct Unreturned;
