//! The state of a desk as bytes, there and back: a desk is saved while it goes on, and one is made that goes on where it stood.
//!
//! Begin with `encode_desk` and `restore_alone`. docs/FORMATS.md has the format.
mod encoding;
mod fault;
mod restoring;
mod rows;

pub use self::encoding::encode_desk;
pub use self::fault::{EncodeFault, RestoreFault};
pub use self::restoring::restore_alone;
#[doc(hidden)]
pub use self::restoring::restore_asking;
