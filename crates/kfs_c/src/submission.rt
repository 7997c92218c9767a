//! A submission of bytes to a desk, with its answer in the numbers that C is told. Begin with
//! `submission.rt`, then `told.rt`.
mod fault_codes;
mod numbers;
mod submission;
mod told;

pub use self::numbers::{FaultNumbers, ReplyNumbers};
pub use self::submission::{submit, why_number};
pub use self::told::{NO_FAULT, fault, reply_numbers};
