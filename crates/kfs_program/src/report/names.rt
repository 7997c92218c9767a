//! The names of refusals, with their numbers in brackets. The caller has made room for them.
ghost use Rattle.std.specs.Prelude.{◌≡◌, ◌+◌, ◌≤◌, ◌++◌, length};
ghost use Rattle.kfs_program.specs.Report.{fault_text, spell_text, row_text, reason_name, reason_text, act_fault_text, lease_name, lease_text, move_text, client_text, begin_text, image_fault_text};
ghost use Rattle.kfs_types.specs.Room.{Appends, spare_of};

use kfs_desk::history::answers::{ActFault, BeginFault};
use kfs_entry::SpellFault;
use kfs_image::ImageFault;
use kfs_judge::Reason;
use kfs_lease::LeaseFault;
use kfs_mode::ClientFault;
use kfs_plan::{Fault, RowFault};
use kfs_program_text::parts::{number, numbered, text};
use kfs_types::MoveFault;
use std::alloc::Allocator;

/// Appends why a submission is refused.
pub fn judgement_fault<A: Allocator>(out: &mut Vec<u8, A>, fault: Fault)
    requires { 90 ≤ spare_of out.old }
    ensures { Appends out.old out.new 90 (fault_text fault) }
{
    match fault {
        Fault::UnknownClient => text(out, b"client unknown"),
        Fault::BadLog(fault) => {
            text(out, b"log ");
            spell_fault(out, fault);
        }
        Fault::WrongClient => text(out, b"client wrong"),
        Fault::BadPlan(fault) => {
            text(out, b"plan ");
            spell_fault(out, fault);
        }
        Fault::Entry(fault) => {
            text(out, b"entry ");
            number(out, fault.index as u64);
            text(out, b" ");
            entry_reason(out, fault.reason);
        }
        Fault::Row(fault) => {
            text(out, b"plan ");
            row_fault(out, fault);
        }
    }
}

/// Appends why bytes aren't a log or a plan.
fn spell_fault<A: Allocator>(out: &mut Vec<u8, A>, fault: SpellFault)
    requires { 60 ≤ spare_of out.old }
    ensures { Appends out.old out.new 60 (spell_text fault) }
{
    match fault {
        SpellFault::BadHeader => text(out, b"BadHeader"),
        SpellFault::BadEntry(entry) => numbered(out, b"BadEntry", u64::from(entry)),
        SpellFault::Trailing => text(out, b"Trailing"),
        SpellFault::BadRow(part, row) => {
            text(out, b"BadRow(");
            number(out, u64::from(part));
            text(out, b",");
            number(out, u64::from(row));
            text(out, b")");
        }
        SpellFault::OutOfMemory => text(out, b"OutOfMemory"),
    }
}

/// Appends which row of a plan is wrong.
fn row_fault<A: Allocator>(out: &mut Vec<u8, A>, fault: RowFault)
    requires { 60 ≤ spare_of out.old }
    ensures { Appends out.old out.new 60 (row_text fault) }
{
    match fault {
        RowFault::Names(row) => numbered(out, b"Names", row as u64),
        RowFault::Nodes(row) => numbered(out, b"Nodes", row as u64),
        RowFault::Pieces(row) => numbered(out, b"Pieces", row as u64),
        RowFault::OutOfMemory => text(out, b"OutOfMemory"),
    }
}

/// Appends why an entry is refused.
#[tactic(auto, using(crate::proofs::Texts::reason_without_number))]
fn entry_reason<A: Allocator>(out: &mut Vec<u8, A>, reason: Reason)
    requires { 60 ≤ spare_of out.old }
    ensures { Appends out.old out.new 60 (reason_text reason) }
{
    let name = reason_name(reason);
    match reason {
        Reason::NoLease(node) => numbered(out, name, u64::from(node)),
        _ => text(out, name),
    }
}

fn reason_name(reason: Reason) -> &'static [u8]
    ensures name { result.now ≡ reason_name reason }
    ensures short { length result.now ≤ 16 }
{
    match reason {
        Reason::NoSuchNode => b"NoSuchNode",
        Reason::NotDirectory => b"NotDirectory",
        Reason::IsDirectory => b"IsDirectory",
        Reason::NoSuchName => b"NoSuchName",
        Reason::NameTaken => b"NameTaken",
        Reason::NumberTaken => b"NumberTaken",
        Reason::NumberNotGranted => b"NumberNotGranted",
        Reason::NotEmpty => b"NotEmpty",
        Reason::BelowItself => b"BelowItself",
        Reason::TooManyLinks => b"TooManyLinks",
        Reason::TooBig => b"TooBig",
        Reason::NoSearch => b"NoSearch",
        Reason::NoWrite => b"NoWrite",
        Reason::NotOwner => b"NotOwner",
        Reason::NoLease(_) => b"NoLease",
        Reason::Sticky => b"Sticky",
        Reason::NotInGroup => b"NotInGroup",
    }
}

/// Appends why a call that is no submission is refused.
pub fn act_fault<A: Allocator>(out: &mut Vec<u8, A>, fault: ActFault)
    requires { 60 ≤ spare_of out.old }
    ensures { Appends out.old out.new 60 (act_fault_text fault) }
{
    match fault {
        ActFault::Lease(fault) => lease_fault(out, fault),
        ActFault::Move(fault) => move_fault(out, fault),
    }
}

/// Appends why a call for leases is refused.
#[tactic(auto, using(crate::proofs::Texts::lease_without_number))]
fn lease_fault<A: Allocator>(out: &mut Vec<u8, A>, fault: LeaseFault)
    requires { 60 ≤ spare_of out.old }
    ensures { Appends out.old out.new 60 (lease_text fault) }
{
    let name = lease_name(fault);
    match fault {
        LeaseFault::NoSuchName(component)
        | LeaseFault::NotDirectory(component)
        | LeaseFault::NoSearch(component) => numbered(out, name, component as u64),
        LeaseFault::LeaseHeld(client) => numbered(out, name, u64::from(client)),
        _ => text(out, name),
    }
}

fn lease_name(fault: LeaseFault) -> &'static [u8]
    ensures name { result.now ≡ lease_name fault }
    ensures short { length result.now ≤ 13 }
{
    match fault {
        LeaseFault::UnknownClient => b"UnknownClient",
        LeaseFault::BadPath => b"BadPath",
        LeaseFault::NoSuchName(_) => b"NoSuchName",
        LeaseFault::NotDirectory(_) => b"NotDirectory",
        LeaseFault::NoSearch(_) => b"NoSearch",
        LeaseFault::Past => b"Past",
        LeaseFault::LeaseHeld(_) => b"LeaseHeld",
        LeaseFault::NoLeaseHeld => b"NoLeaseHeld",
        LeaseFault::Backwards => b"Backwards",
        LeaseFault::NoSuchNode => b"NoSuchNode",
        LeaseFault::NotAllowed => b"NotAllowed",
        LeaseFault::OutOfMemory => b"OutOfMemory",
    }
}

/// Appends why moves are refused.
fn move_fault<A: Allocator>(out: &mut Vec<u8, A>, fault: MoveFault)
    requires { 60 ≤ spare_of out.old }
    ensures { Appends out.old out.new 60 (move_text fault) }
{
    match fault {
        MoveFault::NotMapped(index) => numbered(out, b"NotMapped", index as u64),
        MoveFault::OutOfRange(index) => numbered(out, b"OutOfRange", index as u64),
        MoveFault::NotFree(index) => numbered(out, b"NotFree", index as u64),
        MoveFault::Overlap(index) => numbered(out, b"Overlap", index as u64),
        MoveFault::TooManyMoves => text(out, b"TooManyMoves"),
        MoveFault::OutOfMemory => text(out, b"OutOfMemory"),
    }
}

/// Appends why a client is refused.
pub fn client_fault<A: Allocator>(out: &mut Vec<u8, A>, fault: ClientFault)
    requires { 60 ≤ spare_of out.old }
    ensures { Appends out.old out.new 60 (client_text fault) }
{
    match fault {
        ClientFault::TooManyGroups => text(out, b"TooManyGroups"),
        ClientFault::BadGrant => text(out, b"BadGrant"),
    }
}

/// Appends why a desk wasn't begun.
pub fn begin_fault<A: Allocator>(out: &mut Vec<u8, A>, fault: BeginFault)
    requires { 60 ≤ spare_of out.old }
    ensures { Appends out.old out.new 60 (begin_text fault) }
{
    match fault {
        BeginFault::ClientTwice(client) => numbered(out, b"ClientTwice", client as u64),
        BeginFault::GrantOverlap(client) => numbered(out, b"GrantOverlap", client as u64),
        BeginFault::OutOfMemory => text(out, b"OutOfMemory"),
    }
}

/// Appends why bytes aren't an image.
pub fn image_fault<A: Allocator>(out: &mut Vec<u8, A>, fault: ImageFault)
    requires { 60 ≤ spare_of out.old }
    ensures { Appends out.old out.new 60 (image_fault_text fault) }
{
    match fault {
        ImageFault::BadImageHeader => text(out, b"BadImageHeader"),
        ImageFault::BadImageRow(row) => numbered(out, b"BadImageRow", row),
        ImageFault::ImageTrailing => text(out, b"ImageTrailing"),
        ImageFault::OutOfMemory => text(out, b"OutOfMemory"),
    }
}
