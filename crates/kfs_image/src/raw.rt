//! The nodes, names and blocks that the rows of a raw image make. Begin with `contents.rt` (nodes and
//! names), then `blocks.rt`.
mod blocks;
mod contents;
mod spelled;

pub use self::blocks::raw_blocks;
pub use self::contents::{raw_headers, raw_shape};
pub use self::spelled::tell_spelled;
