//! Renames of directories below a long chain: what climbs find, and what they read.

use crate::plans::desks::{is_leased, lands, opened};
use kfs_desk::Desk;
use kfs_image::Cell;
use kfs_judge::{EntryFault, Read, Reason, View};
use kfs_plan::{Fault, Judged, Outcome, Submission, judge};
use kfs_test_support::vectors::EMPTY_PLAN;
use std::alloc::{AllocError, Global};

/// The last directory of the chain. Each but the root is named "d" and lies in the one numbered before it.
const LAST: u16 = 1_500;

fn push_made(log: &mut Vec<u8, Global>, dir: u16, name: u8, number: u16) -> Result<(), AllocError> {
    log.extend_from_slice(b"\x01")?;
    log.extend_from_slice(&u32::from(dir).to_be_bytes())?;
    log.extend_from_slice(&[1, name])?;
    log.extend_from_slice(&u32::from(number).to_be_bytes())?;
    log.extend_from_slice(b"\x01\x01\xed")
}

fn push_moved(
    log: &mut Vec<u8, Global>,
    dir: u16,
    name: u8,
    new_dir: u16,
    new_name: u8,
) -> Result<(), AllocError> {
    log.extend_from_slice(b"\x06")?;
    log.extend_from_slice(&u32::from(dir).to_be_bytes())?;
    log.extend_from_slice(&[1, name])?;
    log.extend_from_slice(&u32::from(new_dir).to_be_bytes())?;
    log.extend_from_slice(&[1, new_name])
}

/// The log of client 7 that makes the chain.
fn chain(alloc: Global) -> Result<Vec<u8, Global>, AllocError> {
    let mut log = Vec::new(alloc);
    log.extend_from_slice(b"KLOG\x01\0\0\0\x07")?;
    log.extend_from_slice(&(LAST - 1).to_be_bytes())?;
    for number in 1..LAST {
        push_made(&mut log, number, b'd', number + 1)?;
    }
    Ok(log)
}

/// The log that makes directory 1503 at the end of the chain and moves it about, then 300 into 100 and 200 into 1503. At last
/// it moves 50 there.
fn moves(alloc: Global) -> Result<Vec<u8, Global>, AllocError> {
    let mut log = Vec::new(alloc);
    log.extend_from_slice(b"KLOG\x01\0\0\0\x07\0\x09")?;
    push_made(&mut log, LAST, b'a', 1_501)?;
    push_made(&mut log, LAST, b'b', 1_502)?;
    push_made(&mut log, 1_501, b'x', 1_503)?;
    push_moved(&mut log, 1_501, b'x', 1_502, b'x')?;
    push_moved(&mut log, 1_502, b'x', 1_501, b'x')?;
    push_moved(&mut log, 1_501, b'x', 1_502, b'x')?;
    push_moved(&mut log, 299, b'd', 100, b't')?;
    push_moved(&mut log, 199, b'd', 1_503, b'd')?;
    push_moved(&mut log, 49, b'd', 1_503, b'e')?;
    Ok(log)
}

fn path_to(alloc: Global, number: u16) -> Result<Vec<u8, Global>, AllocError> {
    let mut path = Vec::new(alloc);
    for _ in 1..number {
        path.extend_from_slice(b"/d")?;
    }
    Ok(path)
}

/// Whether client 7 is given a lease on this directory of the chain.
fn is_leased_in_chain(alloc: Global, desk: &mut Desk<Global>, number: u16) -> bool {
    match path_to(alloc, number) {
        Ok(path) => is_leased(desk, &path),
        Err(_) => false,
    }
}

/// Whether the chain is made.
fn is_chained(alloc: Global, desk: &mut Desk<Global>) -> bool {
    match chain(alloc) {
        Ok(log) => is_leased(desk, b"/") && lands(alloc, desk, &log, 0),
        Err(_) => false,
    }
}

/// Whether the chain is made, and client 7 holds what `moves` moves.
fn is_prepared(alloc: Global, desk: &mut Desk<Global>) -> bool {
    if !is_chained(alloc, desk) {
        return false;
    }
    for number in [49, 50, 100, 199, 200, 299, 300, LAST] {
        if !is_leased_in_chain(alloc, desk, number) {
            return false;
        }
    }
    true
}

/// What is seen of a desk that is prepared so.
fn view(alloc: Global) -> Option<View<Global>> {
    let mut desk = opened(alloc)?;
    if is_prepared(alloc, &mut desk) {
        desk.view().ok()
    } else {
        None
    }
}

fn judged(alloc: Global) -> Option<Judged<Global>> {
    let submission = Submission {
        client: 7,
        log: moves(alloc).ok()?,
        plan: Vec::from_slice(alloc, EMPTY_PLAN).ok()?,
    };
    let view = view(alloc)?;
    judge(alloc, &view, submission).ok()
}

fn fault(judged: &Judged<Global>) -> Option<Fault> {
    match judged.outcome() {
        Outcome::Yes { .. } => None,
        Outcome::No(fault) => Some(*fault),
    }
}

/// Whether the parents that were read are those of the chain from its end, each once, up to the root.
fn are_read_upwards(judged: &Judged<Global>) -> bool {
    let mut next = u32::from(LAST);
    for read in judged.reads().keys() {
        if let Read::Look(Cell::Parent(number)) = read.read() {
            if number != next {
                return false;
            }
            next = next.saturating_sub(1);
        }
    }
    next == 0
}

/// 200 isn't above 1503 any more once 300 has left it. 50 still is, by 100.
#[test]
fn directories_moved_below_a_long_chain(rt: HostRuntime) {
    let judged = judged(rt.alloc());
    assert!(rt; judged.is_some());
    if let Some(judged) = judged {
        let below = EntryFault {
            index: 8,
            reason: Reason::BelowItself,
        };
        assert!(rt; fault(&judged) == Some(Fault::Entry(below)));
        assert!(rt; are_read_upwards(&judged));
    }
}
