//! The three tiers: which of their places are free, and the bytes of their blocks. Begin with
//! `tiers.rt`. A place is a tier's number and a block's number on its device.
mod bits;
mod blocks;
pub mod laws;
mod places;
mod tier;
mod tiers;

pub use self::places::{Place, Places};
pub use self::tiers::{NewBlock, Tiers};
