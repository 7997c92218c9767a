//! What tests share: logs and plans as bytes, raw images, and an allocator that refuses some allocations. It
//! has no tests of its own, so that it is proved once.
//!
//! It stands on `kfs_shape`; the test crates and `kfs_rows` stand on it. Begin with `refusing.rt`, and with
//! `images/small.rt`.
#![tactic(auto)]

pub mod images;
pub mod refusing;
pub mod vectors;
