//! What is wrong with an image.
ghost use Rattle.std.specs.Prelude.{◌≡◌};
ghost use Rattle.kfs_shape.specs.declared.fault.ShapeFault.TheVariants.{OutOfMemory};

use std::alloc::AllocError;
use thiserror::Error;

/// A broken rule of an image.
#[derive(Clone, Copy, Debug, PartialEq, Eq, Error)]
#[error("finding {rule} {number}")]
pub struct Finding {
    /// The least rule that is broken, 1 to 10.
    pub rule: u8,
    /// The least number of a node at which it is broken.
    pub number: u32,
}

/// Why the check of an image didn't succeed.
#[derive(Clone, Copy, Debug, PartialEq, Eq, Error)]
pub enum ShapeFault {
    /// The image breaks a rule.
    #[error("{0}")]
    Found(Finding),
    /// Memory was refused.
    #[error("memory")]
    OutOfMemory,
}

impl From<AllocError> for ShapeFault {
    ghost from_gives = { λ _ fault. fault ≡ OutOfMemory };

    fn from(_error: AllocError) -> ShapeFault {
        ShapeFault::OutOfMemory
    }
}
