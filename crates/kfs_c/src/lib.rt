//! The desk for hosts that aren't Rattle: what C calls.
//!
//! Nothing stands on it. include/kfs.h says the same to C. Begin with `slot.rt`, which has the frame of a
//! call, then `calls.rt` and `acts.rt`.
#![tactic(auto)]

mod acts;
mod bytes;
mod calls;
mod fault_codes;
mod handle;
mod held;
mod listing;
mod look_ups;
pub mod loose;
mod numbers;
mod opening;
mod permissions;
mod resuming;
mod slot;
mod spelled;
mod states;
mod submission;
mod told;
mod views;
