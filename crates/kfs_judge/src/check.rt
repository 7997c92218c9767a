//! The checks of an entry. Begin with `check.rt`.
mod check;
mod entry_judge;

pub use self::check::{Check, Reason};
pub use self::entry_judge::EntryJudge;
