//! Why the checker lets no image in.

use kfs_image::RawImage;
use kfs_shape::Finding;
use std::alloc::Allocator;

/// Why there is no image.
#[derive(Debug, Drop)]
pub enum FsckFault<A: Allocator> {
    /// The raw image breaks a rule.
    Found(Finding),
    /// Memory was refused. The raw image comes back as it was.
    OutOfMemory(RawImage<A>),
}
