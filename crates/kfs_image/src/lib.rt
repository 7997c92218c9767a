//! The image of the file system: nodes, names, and the blocks of files on three tiers.
//!
//! It stands on `kfs_image_nodes` (nodes and names, which views share); the desk owns an image. Begin with
//! `Image::fresh`, `look` and `read_file`. The order of its folders: `tier` (which blocks of a device are
//! free), `blocks` (where the blocks of files lie), `codec` (raw images, from bytes), `raw` (an image of a
//! raw one), and `encode` (an image as bytes).
#![tactic(auto)]

mod blocks;
#[doc(hidden)]
pub mod codec;
mod edit;
mod encode;
mod image;
mod net;
mod raw;
mod read;
#[doc(hidden)]
pub mod tier;

pub use blocks::{BlockRow, BlockRun, Place};
pub use codec::{Extent, ExtentRow, ImageFault, RawImage, RawNode, decode_image};
pub use edit::Edit;
#[doc(hidden)]
pub use encode::append_image;
pub use encode::encode_image;
pub use image::Image;
#[doc(hidden)]
pub use image::{header, header_after};
pub use kfs_image_nodes::{Answer, Cell, HeaderPage, Net, Page, Shape, look};
#[doc(hidden)]
pub use kfs_image_nodes::{InTurn, SortUplinks};
pub use kfs_types::{
    BLOCK_SIZE, GREATEST_MODE, GREATEST_NUMBER, Header, Kind, LINK_LIMIT, Name, NameRow, NodeRow,
    ROOT, SIZE_LIMIT, TIER_LIMIT, TierSizes,
};
#[doc(hidden)]
pub use net::net_apply_moving;
pub use net::{Fill, net_apply};
#[doc(hidden)]
pub use raw::raw_headers;
pub use read::{ReadFault, read_file};
pub use tier::Places;
