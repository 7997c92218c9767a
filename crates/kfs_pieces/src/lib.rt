//! Which bytes of files a log changed, and where they come from; the right pieces that say so; and the
//! blocks that these write and clear. No byte of a file is read.
//!
//! It stands on `kfs_types`; judge, plan checker and desk stand on it. Begin with `sweep` (right pieces of
//! a log), then `first_piece_apart` and `need_of`.
#![tactic(auto)]

mod blocks;
mod compare;
pub mod laws;
mod log;
mod merge;
mod touched;

pub use blocks::{cleared_in, front_len, need_of, written_in};
pub use compare::first_piece_apart;
pub use log::{FileSize, sweep};
