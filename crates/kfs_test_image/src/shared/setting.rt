//! The desks that are shared here: a new image with three tiers of 8 blocks, and the clients 7 and 8.

use kfs_desk::{Desk, Reply};
use kfs_image::{Image, TierSizes};
use kfs_lease::LeaseKind;
use kfs_mode::{Client, ClientFault};
use kfs_plan::Submission;
use kfs_test_support::vectors::{CREATE_LOG, CREATE_PLAN};
use std::alloc::Allocator;

/// A client that may give the numbers from `first` to `last` to new nodes.
fn client(number: u32, id: u32, first: u32, last: u32) -> Result<Client, ClientFault> {
    Client::new(number, id, id, &[], false, first, last)
}

/// A desk whose docket takes so many rows.
fn begun<A: Allocator + Copy>(alloc: A, limit: u32) -> Option<Desk<A>> {
    let seven = client(7, 1_000, 2, 99).ok()?;
    let eight = client(8, 1_001, 100, 199).ok()?;
    let clients = vec![in alloc; seven, eight].ok()?;
    let image = Image::fresh(alloc, TierSizes::new(8, 8, 8)?).ok()?;
    Desk::begin(alloc, image, clients, limit).ok()
}

/// Asks for a write lease of client 7 on the node at the path. Without it no log of the tests is accepted.
fn lease<A: Allocator + Copy>(desk: &mut Desk<A>, path: &[u8]) {
    let _leased = desk.lease(7, path, LeaseKind::Write, 100);
}

/// A desk whose docket takes so many rows. Client 7 holds the root, which is row 0.
///
/// It is freed without a look at the answer: that a desk may be dropped on the way makes the proofs
/// of these functions long.
pub fn opened_with<A: Allocator + Copy>(alloc: A, limit: u32) -> Option<Desk<A>> {
    let mut desk = begun(alloc, limit)?;
    lease(&mut desk, b"/");
    Some(desk)
}

/// Such a desk, whose docket takes 100 rows.
pub fn opened<A: Allocator + Copy>(alloc: A) -> Option<Desk<A>> {
    opened_with(alloc, 100)
}

/// What a client hands in.
pub fn submission_of<A: Allocator + Copy>(
    alloc: A,
    client: u32,
    log: &[u8],
    plan: &[u8],
) -> Option<Submission<A>> {
    Some(Submission {
        client,
        log: Vec::from_slice(alloc, log).ok()?,
        plan: Vec::from_slice(alloc, plan).ok()?,
    })
}

/// What client 7 hands in.
pub fn submission<A: Allocator + Copy>(alloc: A, log: &[u8], plan: &[u8]) -> Option<Submission<A>> {
    submission_of(alloc, 7, log, plan)
}

/// Whether the submission has a Yes.
fn is_accepted<A: Allocator + Copy>(desk: &mut Desk<A>, submission: Submission<A>) -> bool {
    matches!(desk.submit(submission), Ok(Reply::Yes { .. }))
}

/// Such a desk with the empty file 5 of client 7, who holds it, too. Its docket has 3 rows.
pub fn with_file<A: Allocator + Copy>(alloc: A) -> Option<Desk<A>> {
    let create = submission(alloc, CREATE_LOG, CREATE_PLAN)?;
    let mut desk = opened(alloc)?;
    let _accepted = is_accepted(&mut desk, create);
    lease(&mut desk, b"/a");
    Some(desk)
}
