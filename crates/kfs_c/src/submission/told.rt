//! Replies and their faults as the numbers that C is told.
ghost use Rattle.std.specs.Prelude.{◌≡◌};
ghost use Rattle.kfs_c.specs.Submission.Told.{fault_told, numbers, reason_told, reply_told, row_told, spelling_told};

use crate::submission::fault_codes::{
    BAD_ENTRY, BAD_HEADER, BAD_LOG, BAD_PLAN, BAD_ROW, BELOW_ITSELF, ENTRY, IS_DIRECTORY,
    NAME_TAKEN, NO, NO_LEASE, NO_ROOM, NO_SEARCH, NO_SUCH_NAME, NO_SUCH_NODE, NO_WRITE,
    NOT_DIRECTORY, NOT_EMPTY, NOT_IN_GROUP, NOT_OWNER, NUMBER_NOT_GRANTED, NUMBER_TAKEN, ROW,
    ROW_NAMES, ROW_NODES, ROW_PIECES, STICKY, TOO_BIG, TOO_MANY_LINKS, TRAILING, UNKNOWN_CLIENT,
    WRONG_CLIENT, YES,
};
use crate::submission::numbers::{FaultNumbers, ReplyNumbers};
use kfs_desk::history::answers::Reply;
use kfs_entry::SpellFault;
use kfs_judge::Reason;
use kfs_plan::{Fault, RowFault};

/// No fault.
pub const NO_FAULT: FaultNumbers = FaultNumbers {
    code: 0,
    reason: 0,
    index: 0,
    detail: 0,
};

/// A fault with these numbers.
pub fn fault(code: u32, reason: u32, index: u64, detail: u32) -> FaultNumbers
    ensures { result ≡ numbers code reason index detail }
{
    FaultNumbers {
        code,
        reason,
        index,
        detail,
    }
}

/// The answer to a submission.
pub fn reply_numbers(reply: Reply) -> ReplyNumbers
    ensures { result ≡ reply_told reply }
{
    match reply {
        Reply::Yes {
            position,
            rejudged,
            need,
        } => ReplyNumbers {
            kind: YES,
            position,
            rejudged,
            need,
            free: 0,
            fault: NO_FAULT,
        },
        Reply::No {
            position,
            rejudged,
            fault,
        } => ReplyNumbers {
            kind: NO,
            position,
            rejudged,
            need: 0,
            free: 0,
            fault: fault_numbers(fault),
        },
        Reply::NoRoom {
            position,
            rejudged,
            need,
            free,
        } => ReplyNumbers {
            kind: NO_ROOM,
            position,
            rejudged,
            need,
            free,
            fault: NO_FAULT,
        },
    }
}

/// Why a submission is refused.
fn fault_numbers(found: Fault) -> FaultNumbers
    ensures { result ≡ fault_told found }
{
    match found {
        Fault::UnknownClient => fault(UNKNOWN_CLIENT, 0, 0, 0),
        Fault::BadLog(spelling) => spelling_numbers(BAD_LOG, spelling),
        Fault::WrongClient => fault(WRONG_CLIENT, 0, 0, 0),
        Fault::BadPlan(spelling) => spelling_numbers(BAD_PLAN, spelling),
        Fault::Entry(entry) => reason_numbers(entry.index as u64, entry.reason),
        Fault::Row(row) => row_numbers(row),
    }
}

/// Why bytes are no log or no plan.
fn spelling_numbers(code: u32, found: SpellFault) -> FaultNumbers
    ensures { result ≡ spelling_told code found }
{
    match found {
        SpellFault::BadHeader => fault(code, BAD_HEADER, 0, 0),
        SpellFault::BadEntry(index) => fault(code, BAD_ENTRY, u64::from(index), 0),
        SpellFault::Trailing => fault(code, TRAILING, 0, 0),
        SpellFault::BadRow(part, index) => fault(code, BAD_ROW, u64::from(index), u32::from(part)),
        SpellFault::OutOfMemory => fault(code, 0, 0, 0),
    }
}

/// Why an entry is refused.
fn reason_numbers(index: u64, reason: Reason) -> FaultNumbers
    ensures { result ≡ reason_told index reason }
{
    match reason {
        Reason::NoSuchNode => fault(ENTRY, NO_SUCH_NODE, index, 0),
        Reason::NotDirectory => fault(ENTRY, NOT_DIRECTORY, index, 0),
        Reason::IsDirectory => fault(ENTRY, IS_DIRECTORY, index, 0),
        Reason::NoSuchName => fault(ENTRY, NO_SUCH_NAME, index, 0),
        Reason::NameTaken => fault(ENTRY, NAME_TAKEN, index, 0),
        Reason::NumberTaken => fault(ENTRY, NUMBER_TAKEN, index, 0),
        Reason::NumberNotGranted => fault(ENTRY, NUMBER_NOT_GRANTED, index, 0),
        Reason::NotEmpty => fault(ENTRY, NOT_EMPTY, index, 0),
        Reason::BelowItself => fault(ENTRY, BELOW_ITSELF, index, 0),
        Reason::TooManyLinks => fault(ENTRY, TOO_MANY_LINKS, index, 0),
        Reason::TooBig => fault(ENTRY, TOO_BIG, index, 0),
        Reason::NoSearch => fault(ENTRY, NO_SEARCH, index, 0),
        Reason::NoWrite => fault(ENTRY, NO_WRITE, index, 0),
        Reason::NotOwner => fault(ENTRY, NOT_OWNER, index, 0),
        Reason::NoLease(number) => fault(ENTRY, NO_LEASE, index, number),
        Reason::Sticky => fault(ENTRY, STICKY, index, 0),
        Reason::NotInGroup => fault(ENTRY, NOT_IN_GROUP, index, 0),
    }
}

/// Why a row of a plan is wrong.
fn row_numbers(found: RowFault) -> FaultNumbers
    ensures { result ≡ row_told found }
{
    match found {
        RowFault::Names(index) => fault(ROW, ROW_NAMES, index as u64, 0),
        RowFault::Nodes(index) => fault(ROW, ROW_NODES, index as u64, 0),
        RowFault::Pieces(index) => fault(ROW, ROW_PIECES, index as u64, 0),
        RowFault::OutOfMemory => fault(ROW, 0, 0, 0),
    }
}
