//! What a call was answered, in the numbers of docs/FORMATS.md.
ghost use Rattle.std.specs.Prelude.{◌≡◌, false, IfSome};
ghost use Rattle.kfs_call.specs.AnswerViews.{answer_shown, fault_shown, told_shown};
ghost use Rattle.kfs_desk.specs.Docket.{is_rejudged, position_of};
ghost use Rattle.kfs_desk.specs.Machine.{call_fault_of, reply_of};
ghost use Rattle.kfs_judge.specs.Check.Checks.{reason_of};
ghost use Rattle.kfs_lease.specs.Faults as leases;
ghost use Rattle.kfs_plan.specs.Judging.{refusal_of, row_fault_of, spelling_fault_of};
ghost use Rattle.kfs_types.specs.Moves.Faults as moves;
ghost use Rattle.kfs_call_desk.specs.Told as tables;
ghost use Rattle.kfs_call_desk.specs.Told.{IsActTold, IsAnswer, IsTold, docket_row, fault_row, lease_row, move_row, plan_row, reason_row, refusal_told, reply_told, spelling_row};

use crate::made::Called;
use kfs_call::{AnswerRow, FaultRow, Told};
use kfs_desk::{ActFault, ActReply, Done, MoveFault, Reply};
use kfs_entry::SpellFault;
use kfs_judge::Reason;
use kfs_lease::LeaseFault;
use kfs_plan::{Fault, RowFault};

/// What a call was answered, without the row of the docket that it has. Numbers as in docs/FORMATS.md.
pub fn told(called: &Called) -> Told
    ensures { IsTold called.now (told_shown result) }
{
    match called {
        Called::Submitted(reply) => reply_words(*reply),
        Called::Acted(reply) => act_words(*reply),
    }
}

/// What a call was answered, with the row of the docket that it has. `spell_answer` and `encode_answer` of `kfs_call`
/// write it as bytes.
pub fn answer_row(called: &Called) -> AnswerRow
    ensures { IsAnswer called.now (answer_shown result) }
{
    AnswerRow {
        position: position(called),
        told: told(called),
    }
}

/// The row of the docket that the call has, from 0.
fn position(called: &Called) -> u32
    ensures { result ≡ docket_row called.now }
{
    match called {
        Called::Submitted(reply) => reply_position(*reply),
        Called::Acted(reply) => reply.position,
    }
}

/// The row of the docket that a submission has.
fn reply_position(reply: Reply) -> u32
    ensures { result ≡ position_of reply }
{
    match reply {
        Reply::Yes { position, .. } | Reply::No { position, .. } | Reply::NoRoom { position, .. } =>
            position,
    }
}

/// The answer to a submission.
fn reply_words(reply: Reply) -> Told
    ensures { is_rejudged reply ≡ false → IfSome (reply_of reply) (λ is. told_shown result ≡ reply_told is) }
{
    match reply {
        Reply::Yes { rejudged, need, .. } => Told::Yes { rejudged, need },
        Reply::No {
            rejudged,
            fault,
            ..
        } => Told::No {
            rejudged,
            fault: fault_numbers(fault),
        },
        Reply::NoRoom {
            rejudged,
            need,
            free,
            ..
        } => Told::NoRoom {
            rejudged,
            need,
            free,
        },
    }
}

/// A fault with these numbers.
fn numbers(code: u8, reason: u8, index: u64, detail: u32) -> FaultRow
    ensures { fault_shown result ≡ tables.numbers code reason index detail }
{
    FaultRow {
        code,
        reason,
        index,
        detail,
    }
}

/// Why a submission is refused.
fn fault_numbers(found: Fault) -> FaultRow
    ensures { IfSome (refusal_of found) (λ refusal. fault_shown result ≡ fault_row refusal) }
{
    match found {
        Fault::UnknownClient => numbers(1, 0, 0, 0),
        Fault::BadLog(spelling) => spelling_numbers(2, spelling),
        Fault::WrongClient => numbers(3, 0, 0, 0),
        Fault::BadPlan(spelling) => spelling_numbers(4, spelling),
        Fault::Entry(entry) => reason_numbers(entry.index as u64, entry.reason),
        Fault::Row(row) => row_numbers(row),
    }
}

/// Why bytes are no log or no plan.
fn spelling_numbers(code: u8, found: SpellFault) -> FaultRow
    ensures { IfSome (spelling_fault_of found) (λ fault. fault_shown result ≡ spelling_row code fault) }
{
    match found {
        SpellFault::BadHeader => numbers(code, 1, 0, 0),
        SpellFault::BadEntry(index) => numbers(code, 2, u64::from(index), 0),
        SpellFault::Trailing => numbers(code, 3, 0, 0),
        SpellFault::BadRow(part, index) => numbers(code, 4, u64::from(index), u32::from(part)),
        SpellFault::OutOfMemory => numbers(code, 0, 0, 0),
    }
}

/// Why an entry is refused.
fn reason_numbers(index: u64, reason: Reason) -> FaultRow
    ensures { fault_shown result ≡ reason_row index (reason_of reason) }
{
    match reason {
        Reason::NoSuchNode => numbers(5, 1, index, 0),
        Reason::NotDirectory => numbers(5, 2, index, 0),
        Reason::IsDirectory => numbers(5, 3, index, 0),
        Reason::NoSuchName => numbers(5, 4, index, 0),
        Reason::NameTaken => numbers(5, 5, index, 0),
        Reason::NumberTaken => numbers(5, 6, index, 0),
        Reason::NumberNotGranted => numbers(5, 7, index, 0),
        Reason::NotEmpty => numbers(5, 8, index, 0),
        Reason::BelowItself => numbers(5, 9, index, 0),
        Reason::TooManyLinks => numbers(5, 10, index, 0),
        Reason::TooBig => numbers(5, 11, index, 0),
        Reason::NoSearch => numbers(5, 12, index, 0),
        Reason::NoWrite => numbers(5, 13, index, 0),
        Reason::NotOwner => numbers(5, 14, index, 0),
        Reason::NoLease(number) => numbers(5, 15, index, number),
        Reason::Sticky => numbers(5, 16, index, 0),
        Reason::NotInGroup => numbers(5, 17, index, 0),
    }
}

/// Why a row of a plan is wrong.
fn row_numbers(found: RowFault) -> FaultRow
    ensures { IfSome (row_fault_of found) (λ fault. fault_shown result ≡ plan_row fault) }
{
    match found {
        RowFault::Names(index) => numbers(6, 1, index as u64, 0),
        RowFault::Nodes(index) => numbers(6, 2, index as u64, 0),
        RowFault::Pieces(index) => numbers(6, 3, index as u64, 0),
        RowFault::OutOfMemory => numbers(6, 0, 0, 0),
    }
}

/// The answer to a call that is no submission.
fn act_words(reply: ActReply) -> Told
    ensures { IsActTold reply.answer (told_shown result) }
{
    match reply.answer {
        Ok(Done::Leased(number)) => Told::Leased(number),
        Ok(Done::Dropped(number)) => Told::Dropped(number),
        Ok(Done::Ticked(moment)) => Told::Ticked(moment),
        Ok(Done::Moved(count)) => Told::Moved(count),
        Err(fault) => refusal_words(fault),
    }
}

/// Why such a call is refused.
fn refusal_words(found: ActFault) -> Told
    ensures { IfSome (call_fault_of found) (λ refusal. told_shown result ≡ refusal_told refusal) }
{
    match found {
        ActFault::Lease(fault) => Told::LeaseRefused(lease_numbers(fault)),
        ActFault::Move(fault) => Told::MovesRefused(move_numbers(fault)),
    }
}

/// Why a call for leases is refused.
fn lease_numbers(found: LeaseFault) -> FaultRow
    ensures { IfSome (leases.fault_of found) (λ fault. fault_shown result ≡ lease_row fault) }
{
    match found {
        LeaseFault::UnknownClient => numbers(1, 0, 0, 0),
        LeaseFault::BadPath => numbers(2, 0, 0, 0),
        LeaseFault::NoSuchName(index) => numbers(3, 0, index as u64, 0),
        LeaseFault::NotDirectory(index) => numbers(4, 0, index as u64, 0),
        LeaseFault::NoSearch(index) => numbers(5, 0, index as u64, 0),
        LeaseFault::Past => numbers(6, 0, 0, 0),
        LeaseFault::LeaseHeld(client) => numbers(7, 0, 0, client),
        LeaseFault::NoLeaseHeld => numbers(8, 0, 0, 0),
        LeaseFault::Backwards => numbers(9, 0, 0, 0),
        LeaseFault::NoSuchNode => numbers(10, 0, 0, 0),
        LeaseFault::NotAllowed => numbers(11, 0, 0, 0),
        LeaseFault::OutOfMemory => numbers(0, 0, 0, 0),
    }
}

/// Why moves are refused.
fn move_numbers(found: MoveFault) -> FaultRow
    ensures { IfSome (moves.fault_of found) (λ fault. fault_shown result ≡ move_row fault) }
{
    match found {
        MoveFault::NotMapped(index) => numbers(1, 0, index as u64, 0),
        MoveFault::OutOfRange(index) => numbers(2, 0, index as u64, 0),
        MoveFault::NotFree(index) => numbers(3, 0, index as u64, 0),
        MoveFault::Overlap(index) => numbers(4, 0, index as u64, 0),
        MoveFault::TooManyMoves => numbers(5, 0, 0, 0),
        MoveFault::OutOfMemory => numbers(0, 0, 0, 0),
    }
}
