//! Calls of a desk, its answers and its states as bytes, and whose call a frame is.
//!
//! It stands on `kfs_entry` (fields, logs and plans). Begin with `decode_call` and `encode_call`; `asking` has frames, and
//! `codec` has the fields. docs/FORMATS.md has the formats.
#![tactic(auto)]

mod answer;
mod answer_decoding;
mod answer_encoding;
mod asking;
mod call;
mod codec;
mod decoding;
mod encoding;
#[doc(hidden)]
pub mod examples;
mod fault;
mod frame;
mod state;
mod state_decoding;
mod state_encoding;
mod state_fault;

pub use answer::{AnswerRow, FaultRow, Told};
pub use answer_decoding::decode_answer;
pub use answer_encoding::{ANSWER_LIMIT, encode_answer, spell_answer};
#[doc(hidden)]
pub use asking::{Decided, Decision, decide_all};
pub use call::Call;
pub use decoding::decode_call;
pub use encoding::encode_call;
pub use fault::FieldFault;
pub use frame::{BodyFault, FRONT, Incoming};
pub use kfs_lease::LeaseKind;
pub use kfs_types::Move;
pub use state::{ClientRow, LeaseRow, StateRows};
pub use state_decoding::decode_state;
pub use state_encoding::encode_state;
pub use state_fault::StateFault;
