//! Moves, and why they are refused.
ghost use Rattle.std.specs.Prelude.{◌≡◌};
ghost use Rattle.kfs_types.specs.declared.moves.moves.MoveFault.TheVariants.{OutOfMemory};

use std::alloc::{AllocError, AllocFailed};
use std::marker::Model;
use thiserror::Error;

/// A block of a file, and the place to which it moves: its target.
#[derive(Clone, Copy, Debug, PartialEq, Eq)]
pub struct Move {
    /// The number of the file.
    pub number: u32,
    /// The block of the file, from 0. Each has 4,096 bytes.
    pub block: u32,
    /// The tier of the target: 0 to 2 for a tier that exists.
    pub tier: u8,
    /// The target on its tier's device, from 0.
    pub place: u32,
}

impl Model for Move {
    ghost use Rattle.kfs_model.specs.Migration.{Move as ModelMove};

    ghost Value = { ModelMove };

    ghost view = { λ m. record { number = m.number; block = m.block; target = record { tier = m.tier; place = m.place } } };

    ghost inverse = { λ v. record { number = v.number; block = v.block; tier = v.target.tier; place = v.target.place } };
}

/// Why moves are refused. Nothing has changed then. Moves are counted from 0.
#[derive(Clone, Copy, Debug, PartialEq, Eq, Error)]
pub enum MoveFault {
    /// 1: the block of the move with this index lies nowhere.
    #[error("NotMapped({0})")]
    NotMapped(usize),
    /// 2: the target of the move with this index doesn't exist.
    #[error("OutOfRange({0})")]
    OutOfRange(usize),
    /// 3: a block lies at the target of the move with this index.
    #[error("NotFree({0})")]
    NotFree(usize),
    /// 4: an earlier move has the same block or the same target as the move with this index.
    #[error("Overlap({0})")]
    Overlap(usize),
    /// 5: there are over 1,024 moves.
    #[error("TooManyMoves")]
    TooManyMoves,
    /// Memory was refused.
    #[error("memory")]
    OutOfMemory,
}

impl From<AllocError> for MoveFault {
    ghost from_gives = { λ _ fault. fault ≡ OutOfMemory };

    fn from(_error: AllocError) -> MoveFault {
        MoveFault::OutOfMemory
    }
}

impl<T: Drop> From<AllocFailed<T>> for MoveFault {
    ghost from_gives = { λ _ fault. fault ≡ OutOfMemory };

    fn from(_error: AllocFailed<T>) -> MoveFault {
        MoveFault::OutOfMemory
    }
}
