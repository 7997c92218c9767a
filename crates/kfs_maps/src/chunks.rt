//! A sorted map in chunks that copies share. The image keeps names and the places of blocks in such
//! maps.
//!
//! Begin with `Chunks`: a map is a list of parts, a part a list of 1 to 64 chunks, a chunk a list of 1 to 256 sorted
//! entries.
mod change;
mod chunk_list;
mod chunks;
mod entries;
mod overlay;
mod part;
mod run;

pub use self::change::EditChunks;
pub use self::chunk_list::ChunkList;
pub use self::chunks::Chunks;
pub use self::entries::{Key, KeyEdit, NameAt, Sought, push_above};
pub use self::overlay::{Overlay, key_edits};
pub use self::part::Near;
