//! Desks of client 7, and plans that are made for its logs.

use kfs_desk::{Desk, Reply};
use kfs_image::{Image, TierSizes};
use kfs_lease::LeaseKind;
use kfs_mode::Client;
use kfs_plan::Submission;
use kfs_plan_maker::make_plan;
use std::alloc::{AllocError, Allocator};

/// Client 7, of uid and gid 1000 and the further group 50. It may give the numbers 2 to 4,096 to new nodes.
pub fn client() -> Option<Client> {
    Client::new(7, 1_000, 1_000, &[50], false, 2, 4_096).ok()
}

/// A desk on a new image, with eight blocks on each tier.
pub fn opened<A: Allocator + Copy>(alloc: A) -> Option<Desk<A>> {
    let clients = vec![in alloc; client()?].ok()?;
    let image = Image::fresh(alloc, TierSizes::new(8, 8, 8)?).ok()?;
    Desk::begin(alloc, image, clients, 100).ok()
}

/// The plan of a log over the desk's image.
pub fn planned<A: Allocator + Copy>(
    alloc: A,
    desk: &Desk<A>,
    client: &Client,
    log: &[u8],
) -> Result<Option<Vec<u8, A>>, AllocError> {
    make_plan(alloc, desk.image(), client, log)
}

/// What happens at a desk.
#[derive(Clone, Copy)]
pub enum Step<'a> {
    /// Client 7 is given a write lease on the node at the path.
    Lease(&'a [u8]),
    /// A plan is made for the log and handed in with it. It is accepted, and so many blocks are written.
    Land(&'a [u8], u64),
}

/// Whether client 7 is given a write lease on the node at the path.
pub fn is_leased<A: Allocator + Copy>(desk: &mut Desk<A>, path: &[u8]) -> bool {
    match desk.lease(7, path, LeaseKind::Write, 100) {
        Ok(reply) => reply.answer.is_ok(),
        Err(_) => false,
    }
}

/// The reply to the log with this plan.
fn reply<A: Allocator + Copy>(
    alloc: A,
    desk: &mut Desk<A>,
    log: &[u8],
    plan: Vec<u8, A>,
) -> Option<Reply> {
    let submission = Submission {
        client: 7,
        log: Vec::from_slice(alloc, log).ok()?,
        plan,
    };
    desk.submit(submission).ok()
}

/// Whether a plan of the log's version is made, and is accepted with this need.
pub fn lands<A: Allocator + Copy>(alloc: A, desk: &mut Desk<A>, log: &[u8], wanted: u64) -> bool {
    let Some(client) = client() else {
        return false;
    };
    let Ok(Some(plan)) = planned(alloc, desk, &client, log) else {
        return false;
    };
    if plan.get(4) != log.get(4) {
        return false;
    }
    match reply(alloc, desk, log, plan) {
        Some(Reply::Yes { need, .. }) => need == wanted,
        _ => false,
    }
}

fn is_done<A: Allocator + Copy>(alloc: A, desk: &mut Desk<A>, step: Step<'_>) -> bool {
    match step {
        Step::Lease(path) => is_leased(desk, path),
        Step::Land(log, need) => lands(alloc, desk, log, need),
    }
}

/// Whether these steps are as expected.
pub fn are_done<A: Allocator + Copy>(alloc: A, desk: &mut Desk<A>, steps: &[Step<'_>]) -> bool {
    for step in steps {
        if !is_done(alloc, desk, *step) {
            return false;
        }
    }
    true
}
