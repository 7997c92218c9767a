//! Answers to calls and headers as the numbers that C is told.
ghost use Rattle.std.specs.Prelude.{◌≡◌};
ghost use Rattle.kfs_c.specs.Told.{act_fault_told, act_told, done_told, header_told, is_directory_kind, lease_fault_told, move_fault_told};

use crate::fault_codes::{
    LEASE_BACKWARDS, LEASE_BAD_PATH, LEASE_HELD, LEASE_NO_SEARCH, LEASE_NO_SUCH_NAME,
    LEASE_NO_SUCH_NODE, LEASE_NONE_HELD, LEASE_NOT_ALLOWED, LEASE_NOT_DIRECTORY, LEASE_PAST,
    LEASE_UNKNOWN_CLIENT, MOVE_NOT_FREE, MOVE_NOT_MAPPED, MOVE_OUT_OF_RANGE, MOVE_OVERLAP,
    MOVE_TOO_MANY,
};
use crate::numbers::{ActNumbers, NodeNumbers};
use crate::submission::{FaultNumbers, NO_FAULT, fault};
use kfs_desk::history::answers::{ActFault, ActReply, Done};
use kfs_image::{Header, Kind};
use kfs_lease::LeaseFault;
use kfs_types::MoveFault;

/// The answer to a call that is no submission.
pub(crate) fn act_numbers(reply: ActReply) -> ActNumbers
    ensures { result ≡ act_told reply }
{
    let position = reply.position;
    match reply.answer {
        Ok(what) => ActNumbers {
            position,
            done: true,
            number: done_number(what),
            fault: NO_FAULT,
        },
        Err(fault) => ActNumbers {
            position,
            done: false,
            number: 0,
            fault: act_fault_numbers(fault),
        },
    }
}

/// What was done, as a number.
fn done_number(what: Done) -> u64
    ensures { result ≡ done_told what }
{
    match what {
        Done::Leased(number) | Done::Dropped(number) | Done::Moved(number) => u64::from(number),
        Done::Ticked(moment) => moment,
    }
}

/// Why a call is refused.
fn act_fault_numbers(found: ActFault) -> FaultNumbers
    ensures { result ≡ act_fault_told found }
{
    match found {
        ActFault::Lease(found) => lease_fault_numbers(found),
        ActFault::Move(found) => move_fault_numbers(found),
    }
}

/// Why a call for leases is refused.
fn lease_fault_numbers(found: LeaseFault) -> FaultNumbers
    ensures { result ≡ lease_fault_told found }
{
    match found {
        LeaseFault::UnknownClient => fault(LEASE_UNKNOWN_CLIENT, 0, 0, 0),
        LeaseFault::BadPath => fault(LEASE_BAD_PATH, 0, 0, 0),
        LeaseFault::NoSuchName(index) => fault(LEASE_NO_SUCH_NAME, 0, index as u64, 0),
        LeaseFault::NotDirectory(index) => fault(LEASE_NOT_DIRECTORY, 0, index as u64, 0),
        LeaseFault::NoSearch(index) => fault(LEASE_NO_SEARCH, 0, index as u64, 0),
        LeaseFault::Past => fault(LEASE_PAST, 0, 0, 0),
        LeaseFault::LeaseHeld(client) => fault(LEASE_HELD, 0, 0, client),
        LeaseFault::NoLeaseHeld => fault(LEASE_NONE_HELD, 0, 0, 0),
        LeaseFault::Backwards => fault(LEASE_BACKWARDS, 0, 0, 0),
        LeaseFault::NoSuchNode => fault(LEASE_NO_SUCH_NODE, 0, 0, 0),
        LeaseFault::NotAllowed => fault(LEASE_NOT_ALLOWED, 0, 0, 0),
        LeaseFault::OutOfMemory => NO_FAULT,
    }
}

/// Why moves are refused.
fn move_fault_numbers(found: MoveFault) -> FaultNumbers
    ensures { result ≡ move_fault_told found }
{
    match found {
        MoveFault::NotMapped(index) => fault(MOVE_NOT_MAPPED, 0, index as u64, 0),
        MoveFault::OutOfRange(index) => fault(MOVE_OUT_OF_RANGE, 0, index as u64, 0),
        MoveFault::NotFree(index) => fault(MOVE_NOT_FREE, 0, index as u64, 0),
        MoveFault::Overlap(index) => fault(MOVE_OVERLAP, 0, index as u64, 0),
        MoveFault::TooManyMoves => fault(MOVE_TOO_MANY, 0, 0, 0),
        MoveFault::OutOfMemory => NO_FAULT,
    }
}

/// The header of a node.
pub(crate) fn node_numbers(header: Header) -> NodeNumbers
    ensures { result ≡ header_told header }
{
    NodeNumbers {
        directory: is_directory(header.kind),
        mode: header.mode,
        links: header.links,
        uid: header.uid,
        gid: header.gid,
        size: header.size,
    }
}

fn is_directory(kind: Kind) -> bool
    ensures { result ≡ is_directory_kind kind }
{
    match kind {
        Kind::File => false,
        Kind::Directory => true,
    }
}
