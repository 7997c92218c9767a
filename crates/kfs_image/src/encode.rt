//! Images as bytes: the one encoding of an image's tier sizes, tree and placement. Begin with
//! `encode.rt`. docs/FORMATS.md has the format.
mod counts;
mod encode;
mod extents;
mod names;
mod nodes;
mod run;

pub use self::encode::{append_image, encode_image};
