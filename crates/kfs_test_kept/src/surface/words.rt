//! What each fault says of itself as an `Error`: the words of docs/FORMATS.md, where these have some.

use kfs_call::{FieldFault, StateFault};
use kfs_call_desk::{CallFault, EncodeFault, RestoreFault};
use kfs_desk::{ActFault, BeginFault, Unanswered, Why};
use kfs_entry::SpellFault;
use kfs_image::{ImageFault, ReadFault};
use kfs_judge::{AccessFault, EntryFault, Reason};
use kfs_kept::{AdmitFault, CallsFault, OpenFault, SaveFault};
use kfs_lease::{LeaseFault, LeaseRowFault};
use kfs_migrate::MoveFault;
use kfs_mode::ClientFault;
use kfs_plan::{Fault, RowFault};
use kfs_program::{EngineFault, fault_line};
use kfs_shape::{Finding, ShapeFault};
use kfs_test_support::refusing::Refusing;
use kfs_workers::{SharedWant, Unreturned};
use std::alloc::Global;
use std::error::Error;

/// Whether the fault says this of itself.
fn says<E: Error>(alloc: Global, fault: &E, words: &str) -> bool {
    match format!(in alloc; "{fault}") {
        Ok(text) => text.as_str() == words,
        Err(_) => false,
    }
}

/// Whether each fault says its words.
fn say<E: Error>(alloc: Global, faults: &[(E, &str)]) -> bool {
    for (fault, words) in faults {
        if !says(alloc, fault, words) {
            return false;
        }
    }
    true
}

/// The fault of the second entry of a log.
const ENTRY: EntryFault = EntryFault {
    index: 1,
    reason: Reason::NoLease(5),
};

#[test]
fn faults_of_bytes(rt: HostRuntime) {
    let faults = [
        (SpellFault::BadHeader, "BadHeader"),
        (SpellFault::BadEntry(3), "BadEntry(3)"),
        (SpellFault::Trailing, "Trailing"),
        (SpellFault::BadRow(1, 0), "BadRow(1,0)"),
        (SpellFault::OutOfMemory, "memory"),
    ];
    assert!(rt; say(rt.alloc(), &faults));
}

#[test]
fn faults_of_calls(rt: HostRuntime) {
    let faults = [
        (FieldFault::BadField(3), "BadField(3)"),
        (FieldFault::Trailing, "Trailing"),
        (FieldFault::OutOfMemory, "memory"),
    ];
    assert!(rt; say(rt.alloc(), &faults));
    let faults = [
        (StateFault::BadHeader, "BadHeader"),
        (StateFault::BadRow(1, 0), "BadRow(1,0)"),
        (StateFault::OutOfMemory, "memory"),
    ];
    assert!(rt; say(rt.alloc(), &faults));
    let faults = [
        (CallFault::BadCall(FieldFault::BadField(3)), "BadField(3)"),
        (CallFault::OutOfMemory, "memory"),
        (CallFault::DocketFull, "full"),
    ];
    assert!(rt; say(rt.alloc(), &faults));
    let faults = [
        (EncodeFault::TooMany, "TooMany"),
        (EncodeFault::OutOfMemory, "memory"),
    ];
    assert!(rt; say(rt.alloc(), &faults));
}

#[test]
fn faults_of_restored_desks(rt: HostRuntime) {
    let finding = Finding { rule: 2, number: 1 };
    let grant = ClientFault::BadGrant;
    let faults = [
        (RestoreFault::BadState(StateFault::BadHeader), "BadHeader"),
        (
            RestoreFault::BadImage(ImageFault::ImageTrailing),
            "ImageTrailing",
        ),
        (RestoreFault::BrokenRule(finding), "finding 2 1"),
        (RestoreFault::BadClient(3, grant), "BadClient(3,BadGrant)"),
        (RestoreFault::BadLease(LeaseRowFault::Past(4)), "Past(4)"),
        (
            RestoreFault::BadClients(BeginFault::ClientTwice(1)),
            "ClientTwice(1)",
        ),
        (RestoreFault::OutOfMemory, "memory"),
    ];
    assert!(rt; say(rt.alloc(), &faults));
}

#[test]
fn faults_of_kept_desks(rt: HostRuntime) {
    let faults = [
        (CallsFault::Closed, "closed"),
        (CallsFault::TooLong, "TooLong"),
        (CallsFault::OutOfMemory, "memory"),
        (CallsFault::Full, "full"),
        (CallsFault::Failed, "failed"),
    ];
    assert!(rt; say(rt.alloc(), &faults));
    let faults = [
        (SaveFault::Closed, "closed"),
        (SaveFault::TooMany, "TooMany"),
        (SaveFault::Full, "full"),
        (SaveFault::OutOfMemory, "memory"),
        (SaveFault::Failed, "failed"),
    ];
    assert!(rt; say(rt.alloc(), &faults));
    let twice = AdmitFault::BadClients(BeginFault::ClientTwice(1));
    let faults = [
        (
            AdmitFault::LeftOut(7),
            "client 7 isn't in the list as it was",
        ),
        (twice, "ClientTwice(1)"),
        (AdmitFault::Unsaved(SaveFault::Full), "full"),
    ];
    assert!(rt; say(rt.alloc(), &faults));
    let state = RestoreFault::BadState(StateFault::BadHeader);
    let faults = [
        (OpenFault::Empty, "empty"),
        (OpenFault::NotAJournal, "not a journal"),
        (OpenFault::BadState(state), "BadHeader"),
        (OpenFault::BadGroup(3), "BadGroup(3)"),
        (OpenFault::Differs(3), "Differs(3)"),
        (OpenFault::DocketFull, "full"),
        (OpenFault::OutOfMemory, "memory"),
        (OpenFault::Failed, "failed"),
    ];
    assert!(rt; say(rt.alloc(), &faults));
}

#[test]
fn faults_of_entries(rt: HostRuntime) {
    let reasons = [
        (Reason::NoSuchNode, "NoSuchNode"),
        (Reason::NotDirectory, "NotDirectory"),
        (Reason::IsDirectory, "IsDirectory"),
        (Reason::NoSuchName, "NoSuchName"),
        (Reason::NameTaken, "NameTaken"),
        (Reason::NumberTaken, "NumberTaken"),
        (Reason::NumberNotGranted, "NumberNotGranted"),
        (Reason::NotEmpty, "NotEmpty"),
        (Reason::BelowItself, "BelowItself"),
        (Reason::TooManyLinks, "TooManyLinks"),
        (Reason::TooBig, "TooBig"),
        (Reason::NoSearch, "NoSearch"),
        (Reason::NoWrite, "NoWrite"),
        (Reason::NotOwner, "NotOwner"),
        (Reason::NoLease(9), "NoLease(9)"),
        (Reason::Sticky, "Sticky"),
        (Reason::NotInGroup, "NotInGroup"),
    ];
    assert!(rt; say(rt.alloc(), &reasons));
    assert!(rt; says(rt.alloc(), &ENTRY, "entry 1 NoLease(5)"));
}

/// Why submissions are refused.
const FAULTS: [(Fault, &str); 6] = [
    (Fault::UnknownClient, "client unknown"),
    (Fault::BadLog(SpellFault::Trailing), "log Trailing"),
    (Fault::WrongClient, "client wrong"),
    (Fault::BadPlan(SpellFault::BadRow(1, 0)), "plan BadRow(1,0)"),
    (Fault::Entry(ENTRY), "entry 1 NoLease(5)"),
    (Fault::Row(RowFault::Names(0)), "plan Names(0)"),
];

#[test]
fn faults_of_submissions(rt: HostRuntime) {
    let rows = [
        (RowFault::Names(0), "Names(0)"),
        (RowFault::Nodes(2), "Nodes(2)"),
        (RowFault::Pieces(3), "Pieces(3)"),
        (RowFault::OutOfMemory, "memory"),
    ];
    assert!(rt; say(rt.alloc(), &rows));
    assert!(rt; say(rt.alloc(), &FAULTS));
}

/// Whether the line of the fault is these words, behind what was written before.
fn is_line(alloc: Global, fault: &Fault, words: &str) -> bool {
    let Ok(mut out) = Vec::from_slice(alloc, b"before\n") else {
        return false;
    };
    if fault_line(&mut out, fault).is_err() {
        return false;
    }
    let line = out
        .strip_prefix(b"before\n")
        .and_then(|line| line.strip_suffix(b"\n"));
    line == Some(words.as_bytes())
}

#[test]
fn lines_of_faults(rt: HostRuntime) {
    for (fault, words) in &FAULTS {
        assert!(rt; is_line(rt.alloc(), fault, words), "{words}");
    }
}

/// Whether the line finds no memory, and then some.
fn is_line_at_last(alloc: Global) -> bool {
    let heap = Refusing::new(alloc, 0);
    let mut out = Vec::new(&heap);
    let was_refused = fault_line(&mut out, &Fault::WrongClient).is_err();
    was_refused
        && out.is_empty()
        && fault_line(&mut out, &Fault::WrongClient).is_ok()
        && out.as_slice() == b"client wrong\n".as_slice()
}

#[test]
fn the_growth_of_a_line_is_refused(rt: HostRuntime) {
    assert!(rt; is_line_at_last(rt.alloc()));
}

#[test]
fn faults_of_leases(rt: HostRuntime) {
    let faults = [
        (LeaseFault::UnknownClient, "UnknownClient"),
        (LeaseFault::BadPath, "BadPath"),
        (LeaseFault::NoSuchName(0), "NoSuchName(0)"),
        (LeaseFault::NotDirectory(1), "NotDirectory(1)"),
        (LeaseFault::NoSearch(2), "NoSearch(2)"),
        (LeaseFault::Past, "Past"),
        (LeaseFault::LeaseHeld(7), "LeaseHeld(7)"),
        (LeaseFault::NoLeaseHeld, "NoLeaseHeld"),
        (LeaseFault::Backwards, "Backwards"),
        (LeaseFault::NoSuchNode, "NoSuchNode"),
        (LeaseFault::NotAllowed, "NotAllowed"),
        (LeaseFault::OutOfMemory, "memory"),
    ];
    assert!(rt; say(rt.alloc(), &faults));
    assert!(rt;
        says(
            rt.alloc(),
            &ActFault::Lease(LeaseFault::LeaseHeld(7)),
            "LeaseHeld(7)"
        )
    );
}

#[test]
fn faults_of_moves(rt: HostRuntime) {
    let faults = [
        (MoveFault::NotMapped(0), "NotMapped(0)"),
        (MoveFault::OutOfRange(1), "OutOfRange(1)"),
        (MoveFault::NotFree(2), "NotFree(2)"),
        (MoveFault::Overlap(3), "Overlap(3)"),
        (MoveFault::TooManyMoves, "TooManyMoves"),
        (MoveFault::OutOfMemory, "memory"),
    ];
    assert!(rt; say(rt.alloc(), &faults));
    assert!(rt;
        says(
            rt.alloc(),
            &ActFault::Move(MoveFault::Overlap(3)),
            "Overlap(3)"
        )
    );
}

#[test]
fn faults_of_a_desk(rt: HostRuntime) {
    let begun = [
        (BeginFault::ClientTwice(1), "ClientTwice(1)"),
        (BeginFault::GrantOverlap(1), "GrantOverlap(1)"),
        (BeginFault::OutOfMemory, "memory"),
    ];
    assert!(rt; say(rt.alloc(), &begun));
    let back = [(Why::OutOfMemory, "memory"), (Why::DocketFull, "full")];
    assert!(rt; say(rt.alloc(), &back));
    let unanswered = [
        (Unanswered::OutOfMemory, "memory"),
        (Unanswered::DocketFull, "full"),
    ];
    assert!(rt; say(rt.alloc(), &unanswered));
}

#[test]
fn faults_of_a_shared_desk(rt: HostRuntime) {
    let wants = [
        (SharedWant::OutOfMemory, "memory"),
        (SharedWant::DocketFull, "full"),
        (SharedWant::TurnsSpent, "TurnsSpent"),
    ];
    assert!(rt; say(rt.alloc(), &wants));
    assert!(rt; says(rt.alloc(), &Unreturned, "Unreturned"));
}

#[test]
fn faults_of_clients_and_images(rt: HostRuntime) {
    let clients = [
        (ClientFault::TooManyGroups, "TooManyGroups"),
        (ClientFault::BadGrant, "BadGrant"),
    ];
    assert!(rt; say(rt.alloc(), &clients));
    let reads = [
        (ReadFault::NoSuchNode, "NoSuchNode"),
        (ReadFault::IsDirectory, "IsDirectory"),
    ];
    assert!(rt; say(rt.alloc(), &reads));
    let accesses = [
        (AccessFault::UnknownClient, "UnknownClient"),
        (AccessFault::NoSuchNode, "NoSuchNode"),
        (AccessFault::NotDirectory, "NotDirectory"),
        (AccessFault::IsDirectory, "IsDirectory"),
        (AccessFault::NoSearch, "NoSearch"),
        (AccessFault::NoRead, "NoRead"),
    ];
    assert!(rt; say(rt.alloc(), &accesses));
    let finding = Finding {
        rule: 10,
        number: 5,
    };
    let shapes = [
        (ShapeFault::Found(finding), "finding 10 5"),
        (ShapeFault::OutOfMemory, "memory"),
    ];
    assert!(rt; say(rt.alloc(), &shapes));
}

#[test]
fn faults_of_the_engine(rt: HostRuntime) {
    assert!(rt;
        says(
            rt.alloc(),
            &EngineFault::LongLine,
            "a line of the input is too long"
        )
    );
}
