//! The verdicts that a session's workers hold, between `judge` and `land`. Begin with `HeldVerdicts`.
mod held_verdicts;

pub use self::held_verdicts::HeldVerdicts;
