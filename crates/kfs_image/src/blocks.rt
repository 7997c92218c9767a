//! Where the blocks of files lie, and the three tiers, changed together. Begin with `blocks.rt`.
mod blocks;
mod fill;
mod nested;
mod read;
mod staged;

pub use self::blocks::FileBlocks;
pub use self::fill::{BlockEdits, BlockRow, BlockRun};
pub use self::nested::ChangeBlocks;
pub use crate::tier::{NewBlock, Place};
