//! Maps whose copies share what neither has changed: by number in pages, and sorted in chunks.
//!
//! It stands on `kfs_types` (for `Change`); images and leases stand on it. Begin with `Pages` and `Chunks`.
#![tactic(auto)]

mod chunks;
mod pages;

pub use chunks::{
    ChunkList, Chunks, EditChunks, Key, KeyEdit, NameAt, Near, Overlay, Sought, key_edits,
    push_above,
};
pub use pages::{EditPages, NumberEdit, Page, Pages};
