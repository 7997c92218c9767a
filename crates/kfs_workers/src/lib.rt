//! Workers: each takes a view of a desk, judges a submission against it, and lands the verdict.
//!
//! The workers of a script make their steps one after another; those in threads share the desk, as `kfs_shared` has it. A
//! batch starts the threads itself. Begin with `run_script`, with `run_batch`, or with `Shared`.
#![tactic(auto)]

pub mod laws;
mod script;
mod script_state;

pub use kfs_desk::{DeskView, WORKERS};
pub use kfs_shared::{
    BatchBack, BatchEnd, Begun, DocketRow, Docketed, Gate, Landing, Left, Pass, Shared, SharedBack,
    SharedWant, Unreturned, run_batch,
};
pub use script::{ScriptBack, ScriptEnd, Step, run_script};
