//! Why a desk isn't written as bytes, and why bytes make no desk.
ghost use Rattle.std.specs.Prelude.{◌≡◌};
ghost use Rattle.kfs_call_desk.specs.Restore.Told.{image_told, state_told};
ghost use Rattle.kfs_call_desk.specs.declared.restore.fault.EncodeFault.TheVariants as encoding;
ghost use Rattle.kfs_call_desk.specs.declared.restore.fault.RestoreFault.TheVariants as restoring;

use kfs_call::StateFault;
use kfs_desk::BeginFault;
use kfs_image::ImageFault;
use kfs_lease::LeaseRowFault;
use kfs_mode::ClientFault;
use kfs_shape::Finding;
use std::alloc::{AllocError, AllocFailed};
use thiserror::Error;

/// Why a desk's state isn't written as bytes.
#[derive(Clone, Copy, Debug, PartialEq, Eq, Error)]
pub enum EncodeFault {
    /// 1: there are 2^32 clients or leases or more, or a client has more groups than a client may have.
    #[error("TooMany")]
    TooMany,
    /// Memory was refused.
    #[error("memory")]
    OutOfMemory,
}

impl From<AllocError> for EncodeFault {
    ghost from_gives = { λ _ fault. fault ≡ encoding.OutOfMemory };

    fn from(_error: AllocError) -> EncodeFault {
        EncodeFault::OutOfMemory
    }
}

impl<T: Drop> From<AllocFailed<T>> for EncodeFault {
    ghost from_gives = { λ _ fault. fault ≡ encoding.OutOfMemory };

    fn from(_error: AllocFailed<T>) -> EncodeFault {
        EncodeFault::OutOfMemory
    }
}

/// Why bytes make no desk: the first of these that applies. Nothing of the bytes is kept.
#[derive(Clone, Copy, Debug, PartialEq, Eq, Error)]
pub enum RestoreFault {
    /// 1: the bytes are no state.
    #[error("{0}")]
    BadState(StateFault),
    /// 2: the state's last bytes are no image.
    #[error("{0}")]
    BadImage(ImageFault),
    /// 3: the image breaks a rule.
    #[error("{0}")]
    BrokenRule(Finding),
    /// 4: the client with this index, counted from 0, is the first that can't be one.
    #[error("BadClient({0},{1})")]
    BadClient(usize, ClientFault),
    /// 5: no lawful table of leases has the row that is named.
    #[error("{0}")]
    BadLease(LeaseRowFault),
    /// 6: the client that is named can't be beside an earlier one.
    #[error("{0}")]
    BadClients(BeginFault),
    /// Memory was refused.
    #[error("memory")]
    OutOfMemory,
}

impl From<AllocError> for RestoreFault {
    ghost from_gives = { λ _ fault. fault ≡ restoring.OutOfMemory };

    fn from(_error: AllocError) -> RestoreFault {
        RestoreFault::OutOfMemory
    }
}

impl<T: Drop> From<AllocFailed<T>> for RestoreFault {
    ghost from_gives = { λ _ fault. fault ≡ restoring.OutOfMemory };

    fn from(_error: AllocFailed<T>) -> RestoreFault {
        RestoreFault::OutOfMemory
    }
}

impl From<StateFault> for RestoreFault {
    ghost from_gives = { λ found fault. fault ≡ state_told found };

    fn from(found: StateFault) -> RestoreFault {
        match found {
            StateFault::OutOfMemory => RestoreFault::OutOfMemory,
            _ => RestoreFault::BadState(found),
        }
    }
}

impl From<ImageFault> for RestoreFault {
    ghost from_gives = { λ found fault. fault ≡ image_told found };

    fn from(found: ImageFault) -> RestoreFault {
        match found {
            ImageFault::OutOfMemory => RestoreFault::OutOfMemory,
            _ => RestoreFault::BadImage(found),
        }
    }
}
