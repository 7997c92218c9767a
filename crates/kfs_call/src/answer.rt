//! Answers of a desk, as values in numbers.

/// Why something was refused, in the numbers of docs/FORMATS.md.
#[derive(Clone, Copy, Debug, PartialEq, Eq)]
pub struct FaultRow {
    /// The number of the fault in its list, from 1.
    pub code: u8,
    /// The number of the reason within that fault, from 1. 0: there is none.
    pub reason: u8,
    /// Which entry, row, move or component it is, from 0.
    pub index: u64,
    /// A number that the reason tells: of a node, a client or a part.
    pub detail: u32,
}

/// What a call was answered.
#[derive(Clone, Copy, Debug, PartialEq, Eq)]
pub enum Told {
    /// The log was landed, on `need` places.
    Yes {
        rejudged: bool,
        need: u64,
    },
    /// The submission is refused.
    No {
        rejudged: bool,
        fault: FaultRow,
    },
    /// The log needs `need` free places of tier 0, and there are only `free`.
    NoRoom {
        rejudged: bool,
        need: u64,
        free: u32,
    },
    /// The client has a lease on the node with this number.
    Leased(u32),
    /// The client's lease on the node with this number is gone.
    Dropped(u32),
    /// So many blocks have moved.
    Moved(u32),
    /// This is the moment now.
    Ticked(u64),
    /// A call for leases is refused.
    LeaseRefused(FaultRow),
    /// Moves are refused.
    MovesRefused(FaultRow),
}

/// An answer: the row of the docket that the call has, from 0, and what it was answered.
#[derive(Clone, Copy, Debug, PartialEq, Eq)]
pub struct AnswerRow {
    pub position: u32,
    pub told: Told,
}
