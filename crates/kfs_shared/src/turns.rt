//! The rule by which passes take turns with an object that threads share: what the words of their table
//! are, what a pass knows, which states the table may be in between two steps, and what each kind of
//! step tells.
//!
//! It knows nothing of desks. All of it is for proofs, but for the places of the words. Begin with
//! `specs/Turns/Turns.antt`, then `proofs/TurnsLemmas/Steps.antt`, which shows that each kind of step keeps
//! the rule.
mod known;
mod words;

pub use self::known::{Known, Stage};
pub use self::words::{BELLS, DOOR, LENGTH, NEXT, TURN};
