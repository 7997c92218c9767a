//! Text for the program: lines and their words, the parts of a reply, reads and writes of whole texts,
//! and command lines, read into values that say what they ask for.
//!
//! It stands on `kfs_plan` (submissions) and `kfs_lease`, and on `hex`, `itoa` and `memchr`; `kfs_program`
//! and `kfs_server` stand on it. Begin with `words.rt`, and of commands with `Command::read`.
//! docs/FORMATS.md has the commands.
#![tactic(auto)]

mod command;
mod digits;
pub mod examples;
mod fault;
mod held;
pub mod parts;
mod reading;
mod words;
mod worker;

pub use command::{Command, DeskCommand, OpeningCommand, worker_to_land};
pub use fault::{InputFault, OutputFault};
pub use held::{HeldBack, flush, write_whole};
pub use reading::{first_line, read_some};
pub use words::{Refusal, Words};
pub use worker::{LAST_WORKER, Worker};
