//! Moves of blocks to other places, as values, and why a list of them is refused. `kfs_migrate` checks
//! and makes moves. Begin with `Move`.
mod moves;

pub use self::moves::{Move, MoveFault};
