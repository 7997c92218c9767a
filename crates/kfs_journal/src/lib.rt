//! A journal on two files: a state, and groups of bytes since. Each group is on the disk before it is
//! acknowledged, and a crash at any moment leaves files from which the journal opens with all that was
//! acknowledged, in its order, none in part.
//!
//! What state and groups mean is the caller's. It stands on no crate of ours; `kfs_journal_files` is a disk of
//! real files for it. Begin with `Journal`; `disk.rt` has what a disk must keep to, and `specs/Format` what
//! bytes stand for.
//!
//! # The two files
//!
//! One file counts, and the other waits for the next state. All numbers are big-endian.
//!
//! ```text
//! file     magic KDJL (4)   number (8)   gate (1)   length (8)   state   record ..
//! record   gate (1)   length (4)   group
//! ```
//!
//! A gate is open where it is 1. A head (all before the records) is whole where the magic is right, its gate is
//! open and the state is there in full. Of two whole heads that with the higher number counts, and of two with
//! one number the first file's. Records are read up to the first that isn't open or isn't whole.
//!
//! A gate stands closed on the disk before anything is written behind it. A write of its own opens it, after
//! the sync of what stands behind it. So no checksum is trusted: what a torn write left is behind a closed gate.
//!
//! A new state is written in one call (`Journal::change`), or in parts with groups between them (`Draft`). The gate
//! of its head stays closed until all of it is there.
//!
//! # What is proved
//!
//! - Of every disk that keeps to `Disk`: the clauses of `Journal` and `settle`. A clause `any_moment` says what
//!   a crash may leave at each moment within the call.
//! - `open` answers `Ok` with nothing exactly where both files are empty, and `NotAJournal` exactly where they
//!   aren't and neither has a whole open head. `create` asks for empty files. So nothing is made over files
//!   that a journal, or anything else, has left.
//! - `MemoryDisk` keeps to `Disk`. The law that what it tears is an outcome that it may leave is the clause
//!   `left` of `MemoryDisk::crashed`; `proofs/TornCalls` has its proof (`torn_is_left`).
//!
//! Not provable here: that a call makes no more syncs than it needs, and that a real file is such a disk.
#![tactic(auto)]

mod call;
mod disk;
mod fault;
mod format;
mod journal;
mod memory;
mod open_fault;
mod replay;
mod steps;
mod tear;

pub use call::Call;
pub use disk::{Disk, DiskFailed, File};
pub use fault::JournalFault;
pub use format::push_record;
pub use journal::{Draft, Journal, Opened};
pub use memory::MemoryDisk;
pub use open_fault::OpenFault;
pub use steps::settle;
pub use tear::Tear;
