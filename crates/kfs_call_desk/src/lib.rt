//! A desk by bytes: its calls made from bytes, with their answers in numbers, and its states written and begun with.
//!
//! It stands on `kfs_call` (calls, answers and states as bytes) and `kfs_desk`. Begin with `call`; `call_judged` makes one
//! beside a verdict from before. `answer_row` gives an answer in the numbers of its bytes. `restore` saves a desk while it
//! goes on, and makes one that goes on from there.
#![tactic(auto)]

mod answers;
mod early;
mod made;
mod restore;

pub use answers::{answer_row, told};
pub use early::call_judged;
pub use made::{CallFault, Called, call};
#[doc(hidden)]
pub use restore::restore_asking;
pub use restore::{EncodeFault, RestoreFault, encode_desk, restore_alone};
