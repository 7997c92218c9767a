//! Calls of a desk as they are kept: groups of calls with their answers as bytes, made, written, and made again.
//!
//! Begin with `Made` and `make_again`; `early` judges submissions before a group is made. `specs/Calls/Group` has what the
//! bytes of a group are, and `specs/Calls/Leads` what they stand for.
//!
//! # A group
//!
//! Calls one after another, each with its answer, to the end of the group. Lengths are big-endian.
//!
//! ```text
//! call    length (4)   call   length (1)   answer
//! ```
//!
//! Call and answer are those of docs/FORMATS.md, the answer without its first four bytes: a position counts from
//! the opening of one desk, and the desk that makes the call again has another.
mod again;
mod early;
mod fault;
mod group;
mod making;

pub use self::again::make_again;
pub use self::early::{Early, Judges, judge_early};
pub use self::fault::AgainFault;
pub use self::making::{Made, room_for};
