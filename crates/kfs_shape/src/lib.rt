//! Checks the ten rules of a raw image, and tells the least that is broken. Shows the change of a
//! landing, too.
//!
//! It stands on the definitions of `kfs_model` and on `kfs_image`; `kfs_fsck` stands on it. Begin
//! with `check_shape`.
#![tactic(auto)]

mod check;
mod climbs;
mod counts;
mod extents;
mod fault;
mod heads;
mod least;
mod links;
mod names;
mod node_test;
mod nodes;
mod places;

#[doc(hidden)]
pub use check::check_keeping;
pub use check::check_shape;
pub use fault::{Finding, ShapeFault};
pub use kfs_image::{
    BlockRow, BlockRun, Extent, ExtentRow, Fill, Net, Place, RawImage, RawNode, net_apply,
};
pub use kfs_types::{Header, Kind, Name, NameRow, TierSizes};
#[doc(hidden)]
pub use least::lesser;
#[doc(hidden)]
pub use names::least_unordered;
#[doc(hidden)]
pub use node_test::{AskRows, NodeTest};
