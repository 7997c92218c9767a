//! The plan of a client's own log.
ghost use Rattle.std.specs.Prelude.{◌≡◌, IfOk, Some};
ghost use Rattle.kfs_server.specs.LookUps.LookUp as asked;
ghost use Rattle.kfs_server.specs.LookUps.Found.{IsPlanFound, plan_told};
ghost use Rattle.kfs_server.specs.LookUps.Views.{IsWithin, found_shown};
ghost use Rattle.kfs_server.specs.Serving.Looking.{IsSought};

use crate::look_ups::found::{FOUND_LIMIT, Found};
use crate::replies::Refusal;
use kfs_desk::{Desk, DeskView};
use kfs_mode::{AccessFault, Client};
use kfs_plan_maker::make_plan;
use std::alloc::{AllocError, Allocator};

/// The plan of the sender's log, from the desk's state (`make_plan`). `Err` where memory is refused.
pub fn found_plan<A: Allocator + Copy, B: Allocator>(
    alloc: B,
    desk: &Desk<A>,
    from: u32,
    log: &[u8],
) -> Result<Found<B>, Refusal>
    ensures { IsSought desk.now from (asked.Plan log.now) result }
{
    let seen = DeskView::at(desk)?;
    match seen.view().client(from) {
        Some(client) => {
            let found = plan_for(alloc, desk, client, log)?;
            Ok(found)
        }
        None => Ok(Found::Denied(AccessFault::UnknownClient)),
    }
}

/// The plan of the client's log. It is made in memory of the desk's.
fn plan_for<A: Allocator + Copy, B: Allocator>(
    alloc: B,
    desk: &Desk<A>,
    client: &Client,
    log: &[u8],
) -> Result<Found<B>, AllocError>
    ensures found { IfOk result (λ found. IsPlanFound desk.now (Some client.now) log.now (found_shown found)) }
    ensures within { IfOk result IsWithin }
{
    match make_plan(desk.allocator(), desk.image(), client, log)? {
        Some(plan) => told(alloc, &plan),
        None => Ok(Found::NoPlan),
    }
}

/// What is told of a plan: its bytes, copied to memory of the reply's; or that they are too many.
fn told<B: Allocator>(alloc: B, plan: &[u8]) -> Result<Found<B>, AllocError>
    ensures told { IfOk result (λ found. found_shown found ≡ plan_told plan.now) }
    ensures within { IfOk result IsWithin }
{
    if FOUND_LIMIT < plan.len() {
        return Ok(Found::PlanTooLong);
    }
    let mut bytes = Vec::new(alloc);
    bytes.extend_from_slice(plan)?;
    Ok(Found::PlanIs(bytes))
}
