//! The checker that accepts images: it tests the ten rules of a raw image, the order of names in several
//! threads, and makes the image of one that breaks none.
//!
//! It stands on `kfs_shape` (the tests) and `kfs_image`; `kfs_kept` stands on it. Begin with `fsck`.
#![tactic(auto)]

mod check;
mod fault;
pub mod laws;
mod parts;

pub use check::fsck;
pub use fault::FsckFault;
pub use kfs_image::{Image, RawImage};
pub use kfs_shape::Finding;
#[doc(hidden)]
pub use parts::InParts;
