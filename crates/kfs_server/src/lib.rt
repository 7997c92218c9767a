//! A server of a kept desk: frames in, kept answers out.
//!
//! Its folders: `frames` (what comes in), `look_ups` (frames that make no call), `replies` (what goes out) and `serving`
//! (frames answered by a kept desk).
//! docs/PROTOCOL.md has the layouts.
#![tactic(auto)]

#[doc(hidden)]
pub mod examples;
mod frames;
mod look_ups;
mod put;
mod replies;
mod serving;

pub use frames::{BODY_LIMIT, FrameReader};
pub use kfs_call::{BodyFault, FRONT, Incoming};
pub use kfs_kept::Judges;
pub use look_ups::{
    FOUND_HEAD_LIMIT, FOUND_LIMIT, Figures, Found, LookUp, TierFigures, found_tail, look_up_of,
    spell_found_head,
};
pub use replies::{NumberedReply, REPLY_LIMIT, Refusal, Reply, spell_reply, write_replies};
pub use serving::{
    GroupFault, RunFault, ServeFault, exit_status, run_admitting, run_new, run_opened, serve,
};
