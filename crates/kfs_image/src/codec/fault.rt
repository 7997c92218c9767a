//! Why bytes are no image.
ghost use Rattle.std.specs.Prelude.{◌≡◌};
ghost use Rattle.kfs_image.specs.declared.codec.fault.ImageFault.TheVariants.{OutOfMemory};

use std::alloc::{AllocError, AllocFailed};
use thiserror::Error;

/// Why an image wasn't decoded. Nothing of its bytes is kept.
#[derive(Clone, Copy, Debug, PartialEq, Eq, Error)]
pub enum ImageFault {
    /// 1: the bytes don't begin with a header. There are fewer than 29, the magic is another, the version
    /// is neither 1 nor 2, or a tier has over 65,536 blocks.
    #[error("BadImageHeader")]
    BadImageHeader,
    /// 2: this many rows were read, nodes, names and extents together, fewer than the header counts, and
    /// the next row isn't one.
    #[error("BadImageRow({0})")]
    BadImageRow(u64),
    /// 3: all rows were read, and bytes remain.
    #[error("ImageTrailing")]
    ImageTrailing,
    /// Memory was refused.
    #[error("memory")]
    OutOfMemory,
}

impl From<AllocError> for ImageFault {
    ghost from_gives = { λ _ fault. fault ≡ OutOfMemory };

    fn from(_error: AllocError) -> ImageFault {
        ImageFault::OutOfMemory
    }
}

impl<T: Drop> From<AllocFailed<T>> for ImageFault {
    ghost from_gives = { λ _ fault. fault ≡ OutOfMemory };

    fn from(_error: AllocFailed<T>) -> ImageFault {
        ImageFault::OutOfMemory
    }
}
