//! Replies and faults as numbers.

/// Why something was refused.
#[repr(C)]
#[derive(Clone, Copy)]
pub struct FaultNumbers {
    /// The number of the fault in its list, from 1. 0: there is no fault.
    pub code: u32,
    /// The number of the reason within that fault, from 1. 0: there is none.
    pub reason: u32,
    /// Which entry, row, move, component or client it is, from 0.
    pub index: u64,
    /// A number that the reason tells: of a node, a client or a part.
    pub detail: u32,
}

/// The answer to a submission.
#[repr(C)]
#[derive(Clone, Copy)]
pub struct ReplyNumbers {
    /// 0 yes, 1 no, 2 no room.
    pub kind: u32,
    /// The row of the docket, from 0.
    pub position: u32,
    /// Whether it was revalidated.
    pub rejudged: bool,
    /// How many free places of tier 0 the log needs. 0 where the answer is no.
    pub need: u64,
    /// How many places of tier 0 are free, where there is no room.
    pub free: u32,
    /// Why the answer is no.
    pub fault: FaultNumbers,
}
