//! Calls of a shared desk with each allocation failing in turn.
ghost use Rattle.std.specs.Prelude.{IfSome};
ghost use Rattle.kfs_shared.specs.Passes.{IsPassOf};

use crate::shared::batch::is_create;
use crate::shared::calls::{
    Sharing, act, closed, has_node, judged, land, shared, shared_from, view,
};
use crate::shared::files::FILE_A;
use crate::shared::setting::opened;
use kfs_desk::{Act, ActReply, Desk, Done, Reply};
use kfs_lease::LeaseKind;
use kfs_plan::Judged;
use kfs_shared::{Pass, Shared, SharedWant};
use kfs_test_support::refusing::Refusing;
use std::alloc::{Allocator, Global};
use std::sync::Wait;

/// More allocations than anything here asks for.
const AMPLE: u64 = 1 << 40;

/// More allocations than one call asks for.
const MANY: u64 = 200;

/// A call, with each of its allocations refused in turn.
#[derive(Clone, Copy, Debug)]
enum Call {
    /// The sharing of a desk.
    Share,
    View,
    Land,
    /// A call for a lease.
    Lease,
    /// A call that ends the only lease.
    Tick,
}

/// Whether a view shows the desk as it was opened, rather than that memory runs out; none where the
/// answer is another one.
fn viewed<A: Allocator + Copy, R: Wait>(
    rt: &R,
    shared: &Shared<Desk<A>, A>,
    pass: &mut Pass<Desk<A>>,
) -> Option<bool>
    requires { IsPassOf shared.now pass.old }
    ensures { IsPassOf shared.now pass.new }
{
    match view(rt, shared, pass) {
        Ok(view) if !has_node(&view, 5) => Some(true),
        Err(SharedWant::OutOfMemory) => Some(false),
        _ => None,
    }
}

/// The call for a lease, or the tick, and what it has done then.
fn act_of(call: Call) -> (Act<'static>, Done) {
    match call {
        Call::Tick => (Act::Tick { moment: 100 }, Done::Ticked(100)),
        _ => {
            let lease = Act::Lease {
                client: 7,
                path: b"/",
                kind: LeaseKind::Read,
                end: 90,
            };
            (lease, Done::Leased(1))
        }
    }
}

/// Whether the call for leases is answered in row 1, rather than that memory runs out; none where the
/// answer is another one.
fn acted<A: Allocator + Copy, R: Wait>(
    rt: &R,
    shared: &Shared<Desk<A>, A>,
    pass: &mut Pass<Desk<A>>,
    call: Call,
) -> Option<bool>
    requires { IsPassOf shared.now pass.old }
    ensures { IsPassOf shared.now pass.new }
{
    let (asked, done) = act_of(call);
    let right = ActReply {
        position: 1,
        answer: Ok(done),
    };
    match act(rt, shared, pass, asked) {
        Ok(reply) if reply == right => Some(true),
        Err(SharedWant::OutOfMemory) => Some(false),
        _ => None,
    }
}

/// The verdict on the creation of file 5 against a view of now.
fn verdict<A: Allocator + Copy, R: Wait>(
    rt: &R,
    alloc: A,
    shared: &Shared<Desk<A>, A>,
    pass: &mut Pass<Desk<A>>,
) -> Option<Judged<A>>
    requires { IsPassOf shared.now pass.old }
    ensures { IsPassOf shared.now pass.new }
{
    let view = view(rt, shared, pass).ok()?;
    judged(alloc, &view, FILE_A.log, FILE_A.plan)
}

/// Whether the verdict is answered Yes in row 1, rather than that its submission comes back as it was handed in because
/// memory runs out; none where the answer is another one.
fn landed<A: Allocator + Copy, R: Wait>(
    rt: &R,
    shared: &Shared<Desk<A>, A>,
    pass: &mut Pass<Desk<A>>,
    judged: Judged<A>,
) -> Option<bool>
    requires { IsPassOf shared.now pass.old }
    ensures { IsPassOf shared.now pass.new }
{
    let yes = Reply::Yes {
        position: 1,
        rejudged: false,
        need: 0,
    };
    match land(rt, shared, pass, judged) {
        Ok(reply) if reply == yes => Some(true),
        Err(back) if back.why == SharedWant::OutOfMemory && is_create(&back.submission, &FILE_A) =>
            { Some(false) }
        _ => None,
    }
}

/// Makes the call with the allocation of this index failing. A verdict is made with ample memory. Whether it was answered as
/// it is then, rather than that memory ran out; none where the answer is another one.
fn called<A: Allocator + Copy, R: Wait>(
    rt: &R,
    alloc: A,
    heap: &Refusing<Global>,
    shared: &Shared<Desk<A>, A>,
    pass: &mut Pass<Desk<A>>,
    call: Call,
    growth: u64,
) -> Option<bool>
    requires { IsPassOf shared.now pass.old }
    ensures { IsPassOf shared.now pass.new }
{
    if let Call::Land = call {
        let judged = verdict(rt, alloc, shared, pass)?;
        heap.refuse_after(growth);
        return landed(rt, shared, pass, judged);
    }
    heap.refuse_after(growth);
    match call {
        Call::View => viewed(rt, shared, pass),
        _ => acted(rt, shared, pass, call),
    }
}

/// Makes the call with the allocation of this index failing, and once more with ample memory where it was refused. Whether
/// that allocation was asked for; none where an answer is wrong.
fn called_until_answered<A: Allocator + Copy, R: Wait>(
    rt: &R,
    alloc: A,
    heap: &Refusing<Global>,
    shared: &Shared<Desk<A>, A>,
    pass: &mut Pass<Desk<A>>,
    call: Call,
    growth: u64,
) -> Option<bool>
    requires { IsPassOf shared.now pass.old }
    ensures { IsPassOf shared.now pass.new }
{
    let is_ample = called(rt, alloc, heap, shared, pass, call, growth)?;
    let has_refused = heap.has_refused();
    if is_ample {
        return Some(has_refused);
    }
    let is_answered = called(rt, alloc, heap, shared, pass, call, AMPLE)?;
    (has_refused && is_answered).then_some(true)
}

/// How many rows the docket has after the call.
fn rows_after(call: Call) -> u32 {
    match call {
        Call::Share | Call::View => 1,
        Call::Land | Call::Lease | Call::Tick => 2,
    }
}

/// The same with a desk of its own. None also where the docket is wrong at the end.
fn called_with_one_refused<A: Allocator + Copy, R: Wait>(
    rt: &R,
    alloc: A,
    heap: &Refusing<Global>,
    call: Call,
    growth: u64,
) -> Option<bool> {
    let desk = opened(alloc)?;
    let (shared, mut pass) = shared(alloc, desk)?;
    let has_refused = called_until_answered(rt, alloc, heap, &shared, &mut pass, call, growth);
    if closed(shared, pass)? == rows_after(call) {
        has_refused
    } else {
        None
    }
}

/// Shares the desk with the allocation of this index failing, and again where it was.
fn shared_at_last<A: Allocator + Copy>(
    alloc: A,
    heap: &Refusing<Global>,
    desk: Desk<A>,
    growth: u64,
) -> Option<Sharing<A>>
    ensures { IfSome result (λ r. IsPassOf r.0 r.1) }
{
    heap.refuse_after(growth);
    match shared_from(alloc, desk, 0) {
        Ok(sharing) => Some(sharing),
        Err(desk) => shared(alloc, desk),
    }
}

/// How many rows the docket has of the desk that is shared so.
fn rows_shared<A: Allocator + Copy>(alloc: A, heap: &Refusing<Global>, growth: u64) -> Option<u32> {
    let desk = opened(alloc)?;
    let (shared, pass) = shared_at_last(alloc, heap, desk, growth)?;
    closed(shared, pass)
}

/// Makes the call with the allocation of this index failing, and once more where it was refused. Whether that allocation was
/// asked for; none where an answer is wrong.
fn made<R: Wait>(rt: &R, heap: &Refusing<Global>, call: Call, growth: u64) -> Option<bool> {
    if let Call::Share = call {
        let rows = rows_shared(heap, heap, growth)?;
        return (rows == rows_after(call)).then_some(heap.has_refused());
    }
    called_with_one_refused(rt, heap, heap, call, growth)
}

/// The same with a heap of its own.
fn made_once<R: Wait>(rt: &R, alloc: Global, call: Call, growth: u64) -> Option<bool> {
    let heap = Refusing::new(alloc, AMPLE);
    made(rt, &heap, call, growth)
}

/// How many allocations the call asks for, each refused in turn; or as an error the index of one at which
/// an answer is wrong.
fn growths<R: Wait>(rt: &R, alloc: Global, call: Call) -> Result<u64, u64> {
    for growth in 0..MANY {
        match made_once(rt, alloc, call, growth) {
            Some(true) => {}
            Some(false) => return Ok(growth),
            None => return Err(growth),
        }
    }
    Err(MANY)
}

/// Each call, and how many allocations it asks for at least and at most.
const CALLS: [(Call, u64, u64); 5] = [
    (Call::Share, 3, 3),
    (Call::View, 0, 0),
    (Call::Land, 2, MANY),
    (Call::Lease, 1, MANY),
    (Call::Tick, 1, MANY),
];

#[test]
fn each_growth_of_a_call_refused(rt: HostRuntime) {
    for (call, least, most) in CALLS {
        let count = growths(&rt, rt.alloc(), call);
        assert!(rt;
            matches!(count, Ok(asked) if least <= asked && asked <= most),
            "{call:?} {count:?}"
        );
    }
}
