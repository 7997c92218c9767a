//! Judges a client's log against a view of the nodes and names, the leases and the clients.
//!
//! It stands on `kfs_judge_reads` and `kfs_pieces`; `kfs_plan` stands on it. Begin with `judge_entries`.
//! The order of its folders: `check` (the checks of an entry), and `step` (each entry's checks and its
//! change).
#![tactic(auto)]

mod check;
pub mod laws;
mod step;
mod walk;

pub use check::Reason;
pub use kfs_image_nodes::Net;
pub use kfs_judge_reads::{Keeping, KeptRead, KeptReads, Read, ReadAnswer, Reads, View};
pub use kfs_mode::{Access, AccessFault};
pub use kfs_pieces::FileSize;
pub use walk::{EntryFault, Walk, judge_borrowed, judge_entries, judge_entries_keeping};
