//! Tests of the journal: its bytes, files that are no journal, files that fail, and disks of real files. The expected values come
//! from the format that the head of `kfs_journal` has, never from the program's own output. `tools/journal-crashes` crashes a
//! journal at each moment.
//!
//! Begin with `bytes.rt`.
mod bytes;
mod failing;
mod files;
mod foreign;

pub use self::bytes::disk_of;
