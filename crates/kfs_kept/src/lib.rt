//! A desk whose answers outlive a crash: what it has answered stands on two files before the answer is handed out.
//!
//! It stands on `kfs_journal` (groups of bytes on two files) and `kfs_call_desk` (calls made from bytes, and states as
//! bytes). Begin with `Kept`; `specs/Standing` has what files stand for. `admitting` makes a desk that goes on with new clients.
//! Its folders: `calls` (calls with their answers as groups of bytes) and `restored` (a desk from the bytes of a state, in several
//! threads, and the laws of that).
#![tactic(auto)]

mod admitting;
mod calls;
mod fault;
mod kept;
mod opening;
mod renewal;
mod restored;
mod saving;

pub use calls::{Early, Judges};
pub use fault::{AdmitFault, CallsFault, OpenFault, SaveFault};
pub use kept::{CreateBack, Kept, OpenBack};
pub use restored::restore;
