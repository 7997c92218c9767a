//! A frame that has come, and why its body isn't kept.

use std::alloc::Allocator;
use thiserror::Error;

/// Who stands in the place of a client where a frame comes from the front itself.
pub const FRONT: u32 = u32::MAX;

/// Why a frame's body isn't kept. The frame is passed over then, byte by byte, and has its answer.
#[derive(Clone, Copy, Debug, PartialEq, Eq, Error)]
pub enum BodyFault {
    /// It has more than 16,777,216 bytes.
    #[error("TooLong")]
    TooLong,
    /// Memory for it was refused.
    #[error("memory")]
    OutOfMemory,
}

/// A frame that has come.
#[derive(Drop)]
pub struct Incoming<A: Allocator> {
    /// The front's own number of the frame, which its answer has.
    pub number: u32,
    /// The client that it comes from, or `FRONT`.
    pub from: u32,
    /// What it asks for.
    pub body: Result<Vec<u8, A>, BodyFault>,
}
