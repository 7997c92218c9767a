//! Makes the plan of a client's log.
//!
//! It stands on the judgement (`kfs_judge`, `kfs_plan`) and on the image, and nothing of the desk
//! stands on it; `kfs_program` and `kfs_c` do. Begin with `make_plan`.
#![tactic(auto)]

mod fits;
mod maker;
mod numbers;

pub use maker::make_plan;
