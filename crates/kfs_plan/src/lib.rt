//! Judges a client's submission: client, log, plan, entries, plan rows.
//!
//! It stands on `kfs_judge` (the entries) and `kfs_pieces` (the pieces); desk, workers and report
//! stand on it. Begin with `judge`, and with `check_plan` for a log that was judged before.
#![tactic(auto)]

mod judged;
mod judgement;
mod pieces;
mod rows;
mod submission;

pub use judged::Judged;
pub use judgement::{judge, judge_bytes, kept_outcome};
pub use pieces::sweep;
pub use rows::{RowFault, check_plan};
pub use submission::{Back, Fault, KeptOutcome, Outcome, Submission, Why};
