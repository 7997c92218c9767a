//! A server in thirty lines: from a new image to a landing. docs/ARCHITECTURE.md shows these functions.

use kfs_desk::{Desk, Reply};
use kfs_image::{Image, TierSizes};
use kfs_lease::LeaseKind;
use kfs_mode::Client;
use kfs_plan::{Submission, judge};
use std::alloc::Global;

/// Client 7 creates the file 5, named `a`, in the root directory, with mode 0o644.
const LOG: &[u8] = b"KLOG\x01\0\0\0\x07\0\x01\x01\0\0\0\x01\x01a\0\0\0\x05\0\x01\xa4";

/// What that log changes: the name, and the header of the new node.
const PLAN: &[u8] = b"KPLN\x01\0\x01\0\x01\0\0\0\0\0\0\0\x01\x01a\0\0\0\x05\0\0\0\x05\
      \x01\x01\xa4\0\0\x03\xe8\0\0\x03\xe8\0\x01\0\0\0\0\0\0\0\0";

/// Opens a desk on a new image.
fn opened(alloc: Global) -> Option<Desk<Global>> {
    // client 7, of uid and gid 1000, may give the numbers 2 to 99 to new nodes
    let client = Client::new(7, 1_000, 1_000, &[], false, 2, 99).ok()?;
    let clients = vec![in alloc; client].ok()?;
    // three tiers, of 4, 16 and 64 MiB
    let image = Image::fresh(alloc, TierSizes::new(1_024, 4_096, 16_384)?).ok()?;
    // at most 1,000 calls are answered
    Desk::begin(alloc, image, clients, 1_000).ok()
}

/// Judges what client 7 hands in, and lands it.
fn answered(alloc: Global, desk: &mut Desk<Global>, log: &[u8], plan: &[u8]) -> Option<Reply> {
    let submission = Submission {
        client: 7,
        log: Vec::from_slice(alloc, log).ok()?,
        plan: Vec::from_slice(alloc, plan).ok()?,
    };
    // judging looks at a view and touches nothing else: it may be done anywhere
    let view = desk.view().ok()?;
    let judged = judge(alloc, &view, submission).ok()?;
    drop(view);
    // landing judges again only where what the verdict rests on has changed
    desk.land(judged).ok()
}

/// Opens a desk, lets client 7 lease the root directory, and answers its submission.
fn serve(alloc: Global, log: &[u8], plan: &[u8]) -> Option<Reply> {
    let mut desk = opened(alloc)?;
    let leased = desk.lease(7, b"/", LeaseKind::Write, 100);
    match leased {
        Ok(reply) if reply.answer.is_ok() => answered(alloc, &mut desk, log, plan),
        _ => None,
    }
}

#[test]
fn a_create_is_landed(rt: HostRuntime) {
    let reply = serve(rt.alloc(), LOG, PLAN);
    let yes = Reply::Yes {
        position: 1,
        rejudged: false,
        need: 0,
    };
    assert!(rt; reply == Some(yes));
}
