//! Verdicts from before a group's calls: on which calls there is one. No contract says so, since no answer depends on it.
use crate::journal::disk_of;
use crate::keeping::{CREATE, FILE, LIMIT, TICK};
use kfs_journal::MemoryDisk;
use kfs_kept::{Judges, Kept};
use std::alloc::Global;
use std::process::Abort;
use std::thread::Threads;

/// Client 8, whom the desk doesn't know, hands in no bytes for a log and none for a plan.
const NOTHING_OF_8: &[u8] = b"\x01\0\0\0\x08\0\0\0\0\0\0\0\0";

/// Of which calls of a group there is a verdict before their turn: client 7's submission, a tick, client 8's submission, and
/// another one of client 7.
fn judged(rt: &(impl Threads + Sync), alloc: Global, count: usize) -> Option<[bool; 4]> {
    let disk = disk_of(alloc, FILE, &[])?;
    let kept: Kept<Global, MemoryDisk> = match Kept::open(rt, alloc, disk, FILE, &[], LIMIT) {
        Ok(kept) => kept,
        Err(_) => return None,
    };
    let calls = [CREATE, TICK, NOTHING_OF_8, CREATE];
    let early = kept.judge_early(&Judges { threads: rt, count }, &calls);
    let is_judged = |place: usize| early.verdict(place).is_some();
    Some([is_judged(0), is_judged(1), is_judged(2), is_judged(3)])
}

#[test]
fn each_clients_first_submission_is_judged_before_its_turn(rt: HostRuntime) {
    let two = judged(&rt, rt.alloc(), 2);
    assert!(&rt; two == Some([true, false, true, false]));
    let one = judged(&rt, rt.alloc(), 1);
    assert!(&rt; one == Some([false; 4]));
}
