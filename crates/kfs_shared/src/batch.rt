//! Batches: submissions that up to eight workers judge and land at one desk, each in a thread of its own
//! where one can be had.
//!
//! It stands on `crew`, which deals tasks to workers and has their passes meet. Begin with `run_batch` in
//! `batch.rt`, then `job.rt`, which has what is done for one submission, and `together.rt`, for several.
mod batch;
mod end;
mod job;
mod settle;
mod together;

pub use self::batch::run_batch;
pub use self::end::{BatchBack, BatchEnd, Left};
pub use self::job::Gate;
