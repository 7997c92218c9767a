//! The desk: it owns the image, the clients and their leases, and answers calls one after another.
//!
//! It stands on `kfs_plan` (judging), `kfs_image` and `kfs_lease`; workers and program stand on it. Begin
//! with `Desk::begin`, then `Desk::view` and `Desk::land`. `fill` has what a landing does to blocks,
//! `history` the docket's rows, which contracts alone see, and `verdict` what a worker holds of a desk.
#![tactic(auto)]

mod back;
mod desk;
mod docket;
mod fill;
mod first_fault;
mod found;
#[doc(hidden)]
pub mod history;
#[doc(hidden)]
pub mod laws;
mod state_change;
mod verdict;

pub use back::{BeginBack, ResumeBack};
pub use desk::Desk;
#[doc(hidden)]
pub use desk::Landed;
pub use history::Docket;
#[doc(hidden)]
pub use history::OneRow;
pub use history::answers::{
    Act, ActFault, ActReply, BeginFault, Done, Reply, SubmissionsBack, Unanswered,
};
pub use kfs_migrate::{Move, MoveFault};
pub use kfs_plan::{Back, Why};
#[doc(hidden)]
pub use verdict::none_of;
pub use verdict::{DeskView, WORKERS};
