//! Calls of a shared desk, each in a function that says no more than whose the pass is.
ghost use Rattle.std.specs.Prelude.{IfOk, IfSome};
ghost use Rattle.kfs_shared.specs.Passes.{IsPassOf};

use crate::shared::setting::submission;
use kfs_desk::{Act, ActReply, Desk, Reply};
use kfs_image::{Answer, Cell};
use kfs_judge::View;
use kfs_plan::{Judged, judge};
use kfs_shared::{Pass, Shared, SharedBack, SharedWant};
use std::alloc::Allocator;
use std::sync::Wait;

/// A desk that is shared, with its first pass. The first turn has this number.
pub type Sharing<A> = (Shared<Desk<A>, A>, Pass<Desk<A>>);

/// Shares the desk.
pub fn shared_from<A: Allocator + Copy>(
    alloc: A,
    desk: Desk<A>,
    first: u64,
) -> Result<Sharing<A>, Desk<A>>
    ensures { IfOk result (λ r. IsPassOf r.0 r.1) }
{
    Shared::new(alloc, desk, first)
}

/// Shares the desk, from turn 0 on.
pub fn shared<A: Allocator + Copy>(alloc: A, desk: Desk<A>) -> Option<Sharing<A>>
    ensures { IfSome result (λ r. IsPassOf r.0 r.1) }
{
    shared_from(alloc, desk, 0).ok()
}

/// Two passes for one.
pub fn split<A: Allocator + Copy>(
    shared: &Shared<Desk<A>, A>,
    pass: Pass<Desk<A>>,
) -> (Pass<Desk<A>>, Pass<Desk<A>>)
    requires { IsPassOf shared.now pass }
    ensures { IsPassOf shared.now result.0 × IsPassOf shared.now result.1 }
{
    shared.split(pass)
}

/// Joins the second pass into the first.
pub fn meet<A: Allocator + Copy>(
    shared: &Shared<Desk<A>, A>,
    pass: &mut Pass<Desk<A>>,
    other: Pass<Desk<A>>,
) -> u64
    requires { IsPassOf shared.now pass.old × IsPassOf shared.now other }
    ensures { IsPassOf shared.now pass.new }
{
    shared.meet(pass, other)
}

pub fn view<A: Allocator + Copy, R: Wait>(
    rt: &R,
    shared: &Shared<Desk<A>, A>,
    pass: &mut Pass<Desk<A>>,
) -> Result<View<A>, SharedWant>
    requires { IsPassOf shared.now pass.old }
    ensures { IsPassOf shared.now pass.new }
{
    shared.view(rt, pass)
}

pub fn land<A: Allocator + Copy, R: Wait>(
    rt: &R,
    shared: &Shared<Desk<A>, A>,
    pass: &mut Pass<Desk<A>>,
    judged: Judged<A>,
) -> Result<Reply, SharedBack<A>>
    requires { IsPassOf shared.now pass.old }
    ensures { IsPassOf shared.now pass.new }
{
    shared.land(rt, pass, judged)
}

pub fn act<A: Allocator + Copy, R: Wait>(
    rt: &R,
    shared: &Shared<Desk<A>, A>,
    pass: &mut Pass<Desk<A>>,
    act: Act<'_>,
) -> Result<ActReply, SharedWant>
    requires { IsPassOf shared.now pass.old }
    ensures { IsPassOf shared.now pass.new }
{
    shared.act(rt, pass, act)
}

/// How many rows the docket of the desk has that comes back.
pub fn closed<A: Allocator + Copy>(shared: Shared<Desk<A>, A>, pass: Pass<Desk<A>>) -> Option<u32>
    requires { IsPassOf shared pass }
{
    let desk = shared.close(pass).ok()?;
    Some(desk.docket().len())
}

/// The verdict of client 7's submission against the view.
pub fn judged<A: Allocator + Copy>(
    alloc: A,
    view: &View<A>,
    log: &[u8],
    plan: &[u8],
) -> Option<Judged<A>> {
    judge(alloc, view, submission(alloc, log, plan)?).ok()
}

/// Whether the view has a node with this number.
pub fn has_node<A: Allocator + Copy>(view: &View<A>, number: u32) -> bool {
    matches!(view.look(&Cell::Header(number)), Answer::Header(Some(_)))
}
