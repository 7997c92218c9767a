//! Leases through calls: paths that no command line can hold, nodes that are removed, and copies. All
//! nodes below the root have uid and gid 1000.

use crate::desks::{AMPLE, Call, ROOT_LEASED, desk_after};
use kfs_desk::{Desk, Reply};
use kfs_image_nodes::Shape;
use kfs_lease::LeaseKind::{Read, Write};
use kfs_lease::{LeaseFault, LeaseKind, Leases};
use kfs_mode::{Client, ClientFault};
use kfs_test_support::refusing::Refusing;
use kfs_types::Nothing;
use std::alloc::{Allocator, Global};
use std::process::Abort;

/// Client 7 makes the file 5 at `/a`, the directories 20, 30, 31 and 120 at `/d`, `/m`, `/n` and `/p`, the
/// directory 121 at `/d/e` and the file 122 at `/d/e/f`.
const TREE_LOG: &[u8] =
    b"KLOG\x01\0\0\0\x07\0\x07\x01\0\0\0\x01\x01a\0\0\0\x05\0\x01\xa4\x01\0\0\0\x01\
      \x01d\0\0\0\x14\x01\x01\xed\x01\0\0\0\x01\x01m\0\0\0\x1e\x01\x01\xb6\x01\0\0\0\
      \x01\x01n\0\0\0\x1f\x01\0I\x01\0\0\0\x01\x01p\0\0\0x\x01\x01\xc0\x01\0\0\0\x14\
      \x01e\0\0\0y\x01\x01\xc9\x01\0\0\0y\x01f\0\0\0z\0\0\0";

/// The right plan of that log.
const TREE_PLAN: &[u8] =
    b"KPLN\x01\0\x07\0\x07\0\0\0\0\0\0\0\x01\x01a\0\0\0\x05\0\0\0\x01\x01d\0\0\0\x14\0\
      \0\0\x01\x01m\0\0\0\x1e\0\0\0\x01\x01n\0\0\0\x1f\0\0\0\x01\x01p\0\0\0x\0\0\0\x14\
      \x01e\0\0\0y\0\0\0y\x01f\0\0\0z\0\0\0\x05\x01\x01\xa4\0\0\x03\xe8\0\0\x03\xe8\0\
      \x01\0\0\0\0\0\0\0\0\0\0\0\x14\x02\x01\xed\0\0\x03\xe8\0\0\x03\xe8\0\x01\0\0\0\0\
      \0\0\0\0\0\0\0\x1e\x02\x01\xb6\0\0\x03\xe8\0\0\x03\xe8\0\x01\0\0\0\0\0\0\0\0\0\0\
      \0\x1f\x02\0I\0\0\x03\xe8\0\0\x03\xe8\0\x01\0\0\0\0\0\0\0\0\0\0\0x\x02\x01\xc0\0\
      \0\x03\xe8\0\0\x03\xe8\0\x01\0\0\0\0\0\0\0\0\0\0\0y\x02\x01\xc9\0\0\x03\xe8\0\0\
      \x03\xe8\0\x01\0\0\0\0\0\0\0\0\0\0\0z\x01\0\0\0\0\x03\xe8\0\0\x03\xe8\0\x01\0\0\
      \0\0\0\0\0\0";

const TREE_MADE: Call<'static> = Call::Submit(
    TREE_LOG,
    TREE_PLAN,
    Ok(Reply::Yes {
        position: 1,
        rejudged: false,
        need: 0,
    }),
);

/// A desk with these nodes, if there is memory.
pub fn tree<A: Allocator + Copy>(alloc: A) -> Option<Desk<A>> {
    desk_after(alloc, 100, &[ROOT_LEASED, TREE_MADE])
}

/// The client with this number, or client 7 where there is none. Client 7 owns all nodes but the root, client 8 is in
/// their group, client 9 isn't, and client 10 is privileged.
fn known(number: u32) -> Result<Client, ClientFault> {
    match number {
        8 => Client::new(8, 1001, 1001, &[50, 1000], false, 1, 0),
        9 => Client::new(9, 1002, 1002, &[], false, 1, 0),
        10 => Client::new(10, 1003, 1003, &[], true, 1, 0),
        _ => Client::new(7, 1000, 1000, &[], false, 2, 99),
    }
}

/// Asks for a lease by path.
fn grant<A: Allocator + Copy>(
    leases: &mut Leases<A>,
    shape: &Shape<A>,
    number: u32,
    path: &str,
    kind: LeaseKind,
    end: u64,
) -> Result<u32, LeaseFault> {
    let Ok(client) = known(number) else {
        return Err(LeaseFault::UnknownClient);
    };
    leases.grant(shape, &[client], number, path.as_bytes(), kind, end)
}

/// A client, a node's number, a kind, an end, and the answer that is due.
pub type Asked = (u32, u32, LeaseKind, u64, Result<u32, LeaseFault>);

/// Asks for a lease by number. A client that isn't known asks beside client 7.
fn is_granted_at<A: Allocator + Copy>(
    leases: &mut Leases<A>,
    shape: &Shape<A>,
    asked: Asked,
) -> bool {
    let (number, node, kind, end, due) = asked;
    match known(number) {
        Ok(client) => leases.grant_at(shape, &[client], number, node, kind, end) == due,
        Err(_) => false,
    }
}

/// Gives up a lease.
fn drop_lease<A: Allocator + Copy>(
    leases: &mut Leases<A>,
    number: u32,
    node: u32,
) -> Result<(), LeaseFault> {
    let Ok(client) = known(number) else {
        return Err(LeaseFault::UnknownClient);
    };
    leases.drop_lease(&[client], number, node)
}

/// A call for leases, with the answer that is expected.
#[derive(Clone, Copy)]
pub enum LeaseCall<'a> {
    Grant(u32, &'a str, LeaseKind, u64, Result<u32, LeaseFault>),
    Drop(u32, u32, Result<(), LeaseFault>),
    Tick(u64, Result<(), LeaseFault>),
    Holds(u32, u32, bool),
    Moment(u64),
    RemoveNodes(&'a [u32]),
    /// By number.
    GrantAt(Asked),
}

/// Makes the call, and says whether the answer is the expected one.
fn is_answered<A: Allocator + Copy>(
    leases: &mut Leases<A>,
    shape: &Shape<A>,
    call: LeaseCall<'_>,
) -> bool {
    match call {
        LeaseCall::Grant(client, path, kind, end, due) => {
            grant(leases, shape, client, path, kind, end) == due
        }
        LeaseCall::Drop(client, number, due) => drop_lease(leases, client, number) == due,
        LeaseCall::Tick(moment, due) => leases.tick(moment) == due,
        LeaseCall::Holds(client, number, due) => leases.holds(client, number) == due,
        LeaseCall::Moment(due) => leases.moment() == due,
        LeaseCall::RemoveNodes(numbers) => leases.remove_nodes(numbers, &mut Nothing).is_ok(),
        LeaseCall::GrantAt(asked) => is_granted_at(leases, shape, asked),
    }
}

/// Makes the calls in order, and answers how many come before the first one with another answer.
fn make_calls<A: Allocator + Copy>(
    leases: &mut Leases<A>,
    shape: &Shape<A>,
    calls: &[LeaseCall<'_>],
) -> usize {
    let mut count = 0usize;
    for call in calls {
        if !is_answered(leases, shape, *call) {
            return count;
        }
        count = count.saturating_add(1);
    }
    count
}

/// Makes the calls with no leases at first.
fn answered_on(alloc: Global, shape: &Shape<Global>, calls: &[LeaseCall<'_>]) -> usize {
    let mut leases = Leases::new(alloc);
    make_calls(&mut leases, shape, calls)
}

/// The same on the tree of this module.
fn answered(alloc: Global, calls: &[LeaseCall<'_>]) -> Option<usize> {
    let desk = tree(alloc)?;
    Some(answered_on(alloc, desk.image().shape(), calls))
}

/// Expects that all calls are answered as expected.
pub fn expect_calls(rt: &(impl Abort + AllocGlobal), calls: &[LeaseCall<'_>]) {
    let count = answered(rt.alloc(), calls);
    assert!(rt; count == Some(calls.len()), "{count:?}");
}

static PATHS_THAT_NO_LINE_CAN_SAY: [LeaseCall<'static>; 3] = [
    LeaseCall::Grant(7, "", Write, 1, Err(LeaseFault::BadPath)),
    LeaseCall::Grant(7, "/\0", Write, 1, Err(LeaseFault::BadPath)),
    LeaseCall::Grant(7, "/a\0", Write, 1, Err(LeaseFault::BadPath)),
];

static CALLS_AND_NODES_THAT_GO: [LeaseCall<'static>; 13] = [
    LeaseCall::Grant(7, "/a", Read, 100, Ok(5)),
    LeaseCall::Grant(9, "/a", Read, 100, Ok(5)),
    LeaseCall::Grant(7, "/", Write, 100, Ok(1)),
    LeaseCall::Grant(8, "/d", Write, 100, Ok(20)),
    LeaseCall::RemoveNodes(&[5]),
    LeaseCall::Drop(7, 5, Err(LeaseFault::NoLeaseHeld)),
    LeaseCall::Drop(9, 5, Err(LeaseFault::NoLeaseHeld)),
    LeaseCall::Holds(7, 1, true),
    LeaseCall::Holds(8, 20, true),
    LeaseCall::RemoveNodes(&[6, 20]),
    LeaseCall::Holds(7, 1, true),
    LeaseCall::Holds(8, 20, false),
    LeaseCall::Grant(9, "/d", Write, 100, Ok(20)),
];

#[test]
fn paths_that_no_line_can_say(rt: HostRuntime) {
    expect_calls(&rt, &PATHS_THAT_NO_LINE_CAN_SAY);
}

#[test]
fn calls_and_nodes_that_go(rt: HostRuntime) {
    expect_calls(&rt, &CALLS_AND_NODES_THAT_GO);
}

static BEFORE_THE_GROWTHS: [LeaseCall<'static>; 8] = [
    LeaseCall::Grant(7, "/a", Read, 10, Ok(5)),
    LeaseCall::Grant(8, "/a", Read, 20, Ok(5)),
    LeaseCall::Grant(9, "/a", Read, 30, Ok(5)),
    LeaseCall::Grant(7, "/d", Read, 40, Ok(20)),
    LeaseCall::Grant(8, "/d", Read, 50, Ok(20)),
    LeaseCall::Grant(9, "/m", Write, 60, Ok(30)),
    LeaseCall::Grant(7, "/n", Write, 70, Ok(31)),
    LeaseCall::Grant(8, "/p", Write, 80, Ok(120)),
];

static WITH_A_GROWTH_REFUSED: [LeaseCall<'static>; 12] = [
    LeaseCall::Grant(9, "/d", Read, 15, Ok(20)),
    LeaseCall::Grant(8, "/a", Read, 90, Ok(5)),
    LeaseCall::Drop(7, 31, Ok(())),
    LeaseCall::Tick(40, Ok(())),
    LeaseCall::Drop(9, 20, Err(LeaseFault::NoLeaseHeld)),
    LeaseCall::Drop(7, 20, Err(LeaseFault::NoLeaseHeld)),
    LeaseCall::RemoveNodes(&[20, 6, 120, 5]),
    LeaseCall::Drop(8, 5, Err(LeaseFault::NoLeaseHeld)),
    LeaseCall::Drop(8, 20, Err(LeaseFault::NoLeaseHeld)),
    LeaseCall::Drop(8, 120, Err(LeaseFault::NoLeaseHeld)),
    LeaseCall::Grant(8, "/n", Write, 90, Ok(31)),
    LeaseCall::Drop(9, 30, Ok(())),
];

/// The copy shows what the table held, and goes on for itself.
static ON_THE_COPY_THEN: [LeaseCall<'static>; 12] = [
    LeaseCall::Moment(0),
    LeaseCall::Holds(7, 31, true),
    LeaseCall::Holds(8, 120, true),
    LeaseCall::Drop(7, 5, Ok(())),
    LeaseCall::Tick(20, Ok(())),
    LeaseCall::Drop(8, 5, Err(LeaseFault::NoLeaseHeld)),
    LeaseCall::Drop(9, 20, Err(LeaseFault::NoLeaseHeld)),
    LeaseCall::Drop(7, 20, Ok(())),
    LeaseCall::Tick(19, Err(LeaseFault::Backwards)),
    LeaseCall::Moment(20),
    LeaseCall::Drop(9, 30, Ok(())),
    LeaseCall::Grant(9, "/n", Write, 100, Err(LeaseFault::LeaseHeld(7))),
];

/// The table goes on as if there were no copy.
static ON_THE_TABLE_THEN: [LeaseCall<'static>; 6] = [
    LeaseCall::Moment(40),
    LeaseCall::Holds(8, 31, true),
    LeaseCall::Holds(9, 30, false),
    LeaseCall::Tick(39, Err(LeaseFault::Backwards)),
    LeaseCall::Grant(7, "/m", Write, 100, Ok(30)),
    LeaseCall::Grant(9, "/n", Read, 50, Err(LeaseFault::LeaseHeld(8))),
];

/// Makes the call, and once more where it was the one for which memory ran out.
fn is_answered_at_last<A: Allocator + Copy>(
    heap: &Refusing<Global>,
    leases: &mut Leases<A>,
    shape: &Shape<A>,
    call: LeaseCall<'_>,
) -> bool {
    let was_refused = heap.has_refused();
    is_answered(leases, shape, call)
        || (!was_refused && heap.has_refused() && is_answered(leases, shape, call))
}

/// A copy of the table, asked for once more where memory ran out for it.
fn copied_at_last<A: Allocator + Copy>(
    heap: &Refusing<Global>,
    leases: &Leases<A>,
) -> Option<Leases<A>> {
    match leases.copy() {
        Ok(copied) => Some(copied),
        Err(_) if heap.has_refused() => leases.copy().ok(),
        Err(_) => None,
    }
}

/// Makes these calls in order, each once more where it was the one for which memory ran out. Whether they are answered as
/// expected.
fn are_answered_at_last<A: Allocator + Copy>(
    heap: &Refusing<Global>,
    leases: &mut Leases<A>,
    shape: &Shape<A>,
    calls: &[LeaseCall<'_>],
) -> bool {
    for call in calls {
        if !is_answered_at_last(heap, leases, shape, *call) {
            return false;
        }
    }
    true
}

/// Copies the table and makes the calls beside the copy, with only the allocation of this index failing; then goes on with
/// the copy, and with the table. Answers whether there was such an allocation; none where the outcome is wrong.
fn calls_beside_a_copy<A: Allocator + Copy>(
    heap: &Refusing<Global>,
    leases: &mut Leases<A>,
    shape: &Shape<A>,
    growth: u64,
) -> Option<bool> {
    heap.refuse_after(growth);
    let mut copied = copied_at_last(heap, leases)?;
    let is_right = are_answered_at_last(heap, leases, shape, &WITH_A_GROWTH_REFUSED);
    let is_refused = heap.has_refused();
    heap.refuse_after(AMPLE);
    let on_the_copy = make_calls(&mut copied, shape, &ON_THE_COPY_THEN);
    let on_the_table = make_calls(leases, shape, &ON_THE_TABLE_THEN);
    (is_right && on_the_copy == 12 && on_the_table == 6).then_some(is_refused)
}

/// The same on nodes of the tree of this module, with a table of its own.
fn calls_on<A: Allocator + Copy>(
    alloc: A,
    heap: &Refusing<Global>,
    shape: &Shape<A>,
    growth: u64,
) -> Option<bool> {
    let mut leases = Leases::new(alloc);
    if make_calls(&mut leases, shape, &BEFORE_THE_GROWTHS) == 8 {
        calls_beside_a_copy(heap, &mut leases, shape, growth)
    } else {
        None
    }
}

/// The same on a desk of its own.
pub fn calls_with_one_refused<A: Allocator + Copy>(
    alloc: A,
    heap: &Refusing<Global>,
    growth: u64,
) -> Option<bool> {
    let desk = tree(alloc)?;
    calls_on(alloc, heap, desk.image().shape(), growth)
}
