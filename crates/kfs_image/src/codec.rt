//! Raw images: an image as its format lists it, and how it is read from bytes. `kfs_shape` checks raw
//! images. Begin with `raw.rt` (the rows) and `decoding.rt`. docs/FORMATS.md has the format.
mod decoding;
mod extent;
mod fault;
pub mod header;
mod limited;
mod node;
mod raw;

pub use self::decoding::decode_image;
pub use self::fault::ImageFault;
pub use self::raw::{Extent, ExtentRow, RawImage, RawNode};
