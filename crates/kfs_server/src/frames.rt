//! Frames from bytes that come in pieces.
mod begun;
#[doc(hidden)]
pub mod laws;
mod reader;

pub use self::begun::BODY_LIMIT;
pub use self::reader::FrameReader;
