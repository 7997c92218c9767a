//! What a pass knows of the object that is shared, and where it stands in its turn.

use std::collections::LinkedList;

/// Where a pass stands. No value of it is made: it exists in proofs alone.
pub enum Stage<D> {
    /// It has no ticket.
    Idle,
    /// It has a ticket, and hasn't seen that its turn has come.
    Waiting {
        ticket: u64,
    },
    /// Its turn has come and the object is out with it. It may have seen since then how many rows the
    /// object's docket has.
    Served {
        ticket: u64,
        object: D,
        has_counted: bool,
    },
}

/// What a pass knows of the object. No value of it is made: it exists in proofs alone. `O` says how an
/// object was begun, and `W` is a row of its docket.
pub struct Known<D, O, W> {
    /// How the object was begun. None only of a pass that another one has met, which is used up.
    pub opening: Option<O>,
    /// The rows of the docket that it has seen.
    pub seen: LinkedList<W>,
    /// The rows that a pass had seen which it met.
    pub told: LinkedList<W>,
    /// The positions of the rows that are its own.
    pub own: LinkedList<u64>,
    /// It has found that there is no ticket left.
    pub ended: bool,
    pub stage: Stage<D>,
}
