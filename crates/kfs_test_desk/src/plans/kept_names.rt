//! Names in verdicts that are kept: those that lie in the value itself, and those that don't.

use crate::plans::desks::{client, is_leased, opened, planned};
use kfs_desk::{Desk, Reply};
use kfs_entry::Name;
use kfs_image::{Answer, Cell, look};
use kfs_judge::Read;
use kfs_plan::{Judged, Submission, judge};
use std::alloc::{AllocError, Global};

/// The name of so many letters, from the first letter on.
fn name_of(alloc: Global, len: u8) -> Option<Name> {
    let mut bytes = Vec::new(alloc);
    for index in 0..len {
        bytes.push(b'a' + index % 26).ok()?;
    }
    Name::new(&bytes)
}

/// The log of client 7 that makes a file of this name in the root, and moves it to the other one.
fn log_of(alloc: Global, name: &Name, new_name: &Name) -> Result<Vec<u8, Global>, AllocError> {
    let mut log = Vec::new(alloc);
    log.extend_from_slice(b"KLOG\x01\0\0\0\x07\0\x02\x01\0\0\0\x01")?;
    push_name(&mut log, name)?;
    log.extend_from_slice(b"\0\0\0\x05\0\x01\xa4\x06\0\0\0\x01")?;
    push_name(&mut log, name)?;
    log.extend_from_slice(b"\0\0\0\x01")?;
    push_name(&mut log, new_name)?;
    Ok(log)
}

fn push_name(log: &mut Vec<u8, Global>, name: &Name) -> Result<(), AllocError> {
    let bytes = name.as_bytes();
    log.extend_from_slice(&[bytes.len() as u8])?;
    log.extend_from_slice(bytes)
}

/// The verdict on that log.
fn judged(
    alloc: Global,
    desk: &Desk<Global>,
    name: &Name,
    new_name: &Name,
) -> Option<Judged<Global>> {
    let log = log_of(alloc, name, new_name).ok()?;
    let plan = planned(alloc, desk, &client()?, &log).ok()??;
    let view = desk.view().ok()?;
    let submission = Submission {
        client: 7,
        log,
        plan,
    };
    judge(alloc, &view, submission).ok()
}

/// Whether it is recorded that this name of the root was looked up.
fn is_read(judged: &Judged<Global>, name: &Name) -> bool {
    judged
        .reads()
        .keys()
        .any(|read| read.read() == Read::Look(Cell::Name(1, *name)))
}

fn leads_to(desk: &Desk<Global>, name: &Name) -> Option<u32> {
    match look(desk.image().shape(), &Cell::Name(1, *name)) {
        Answer::Name(number) => number,
        _ => None,
    }
}

/// Whether a file is made under a name of so many bytes and moved to one of as many as `new_len` says, both
/// looked up, and the second one alone is there in the end.
fn are_kept(alloc: Global, len: u8, new_len: u8) -> Option<bool> {
    let (name, new_name) = (name_of(alloc, len)?, name_of(alloc, new_len)?);
    let mut desk = opened(alloc)?;
    if !is_leased(&mut desk, b"/") {
        return None;
    }
    let judged = judged(alloc, &desk, &name, &new_name)?;
    let are_read = is_read(&judged, &name) && is_read(&judged, &new_name);
    let reply = desk.land(judged).ok()?;
    let is_there = leads_to(&desk, &name).is_none() && leads_to(&desk, &new_name) == Some(5);
    Some(are_read && is_there && matches!(reply, Reply::Yes { .. }))
}

#[test]
fn names_that_a_verdict_keeps(rt: HostRuntime) {
    assert!(rt; are_kept(rt.alloc(), 1, 30) == Some(true));
    assert!(rt; are_kept(rt.alloc(), 30, 31) == Some(true));
    assert!(rt; are_kept(rt.alloc(), 31, 255) == Some(true));
    assert!(rt; are_kept(rt.alloc(), 255, 2) == Some(true));
}
