//! What a landing does to blocks: which ones it writes, at which places, with which bytes, and which
//! ones it clears. Begin with `land_bytes`, then `fill_of`.
mod bytes;
mod fill;
mod rows;

pub use self::bytes::{Entries, LogBytes};
pub use self::fill::land_bytes;
