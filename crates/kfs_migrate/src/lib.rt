//! Migration: blocks of files move to other places, on other tiers or the same one. The tree that the
//! image shows stays as it is.
//!
//! It stands on `kfs_image`. Begin with `check_moves`, then `apply_moves`.
#![tactic(auto)]

mod apply;
mod check;

pub use apply::apply_moves;
pub use check::{MOVE_LIMIT, check_moves};
pub use kfs_types::{Move, MoveFault};
