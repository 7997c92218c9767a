//! What the entries of a log have changed so far. It is kept apart, over the state that the log began
//! with. Begin with `draft.rt`.
mod draft;
mod few;
mod key;
mod parents;

pub use self::draft::{Draft, linked, unlinked};
pub use self::few::Few;
pub use self::key::NameKey;
