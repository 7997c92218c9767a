//! Leases by number: who may have one, the refusals in their order, and one of a desk below a directory that
//! the client can't search.

use crate::desks::{AMPLE, Call, ROOT_LEASED, are_due, desk_after};
use crate::leases::{LeaseCall, expect_calls};
use LeaseCall::GrantAt;
use kfs_desk::{Act, ActFault, ActReply, Desk, Done, Reply, Unanswered};
use kfs_lease::LeaseFault;
use kfs_lease::LeaseKind::{Read, Write};
use kfs_test_support::refusing::Refusing;
use std::alloc::{Allocator, Global};

/// Node 5 has mode 0644, 20 0755, 30 0666, 31 0111, 120 0700, and 122, which lies in 20 and 121, mode 0. Each
/// client asks for the other kind than the one before it only where it may have both.
static BY_BITS: [LeaseCall<'static>; 20] = [
    GrantAt((7, 122, Read, 9, Err(LeaseFault::NotAllowed))),
    GrantAt((7, 122, Write, 9, Ok(122))),
    GrantAt((7, 31, Read, 9, Err(LeaseFault::NotAllowed))),
    GrantAt((7, 31, Write, 9, Ok(31))),
    GrantAt((8, 5, Read, 9, Ok(5))),
    GrantAt((8, 5, Write, 9, Err(LeaseFault::NotAllowed))),
    GrantAt((8, 30, Write, 9, Ok(30))),
    GrantAt((8, 30, Read, 9, Ok(30))),
    GrantAt((8, 120, Read, 9, Err(LeaseFault::NotAllowed))),
    GrantAt((8, 120, Write, 9, Err(LeaseFault::NotAllowed))),
    GrantAt((9, 5, Read, 9, Ok(5))),
    GrantAt((9, 20, Read, 9, Ok(20))),
    GrantAt((9, 20, Write, 9, Err(LeaseFault::NotAllowed))),
    GrantAt((9, 1, Write, 9, Ok(1))),
    GrantAt((9, 1, Read, 9, Ok(1))),
    GrantAt((9, 122, Read, 9, Err(LeaseFault::NotAllowed))),
    GrantAt((10, 120, Read, 9, Ok(120))),
    GrantAt((10, 120, Write, 9, Ok(120))),
    GrantAt((10, 5, Read, 9, Ok(5))),
    GrantAt((10, 121, Write, 9, Ok(121))),
];

/// Each call that is refused fails each later test, too.
static IN_ORDER: [LeaseCall<'static>; 12] = [
    GrantAt((7, 5, Write, 100, Ok(5))),
    GrantAt((11, 6, Write, 0, Err(LeaseFault::UnknownClient))),
    GrantAt((9, 6, Write, 0, Err(LeaseFault::NoSuchNode))),
    GrantAt((9, 0, Read, 0, Err(LeaseFault::NoSuchNode))),
    GrantAt((9, u32::MAX, Read, 0, Err(LeaseFault::NoSuchNode))),
    GrantAt((9, 5, Write, 0, Err(LeaseFault::NotAllowed))),
    GrantAt((9, 5, Read, 0, Err(LeaseFault::Past))),
    GrantAt((9, 5, Read, 1, Err(LeaseFault::LeaseHeld(7)))),
    GrantAt((7, 5, Read, 100, Ok(5))),
    GrantAt((9, 5, Read, 1, Ok(5))),
    GrantAt((8, 5, Read, 1, Ok(5))),
    GrantAt((10, 5, Write, 1, Err(LeaseFault::LeaseHeld(7)))),
];

#[test]
fn bits_permit_a_lease(rt: HostRuntime) {
    expect_calls(&rt, &BY_BITS);
}

#[test]
fn refusals_come_in_their_order(rt: HostRuntime) {
    expect_calls(&rt, &IN_ORDER);
}

/// Client 7 makes directory 20, named `d`, and in it file 5, named `a`. Then it takes all bits from the
/// directory.
const CLOSED_LOG: &[u8] =
    b"KLOG\x01\0\0\0\x07\0\x03\x01\0\0\0\x01\x01d\0\0\0\x14\x01\x01\xed\x01\0\0\0\x14\
      \x01a\0\0\0\x05\0\x01\xa4\x07\0\0\0\x14\0\0";

/// The right plan of that log.
const CLOSED_PLAN: &[u8] =
    b"KPLN\x01\0\x02\0\x02\0\0\0\0\0\0\0\x01\x01d\0\0\0\x14\0\0\0\x14\x01a\0\0\0\x05\0\0\0\x05\x01\x01\xa4\
      \0\0\x03\xe8\0\0\x03\xe8\0\x01\0\0\0\0\0\0\0\0\0\0\0\x14\x02\0\0\0\0\x03\xe8\0\0\x03\xe8\0\x01\0\0\0\0\
      \0\0\0\0";

/// Client 7 gives file 5 the mode 0600.
const CHMOD_LOG: &[u8] = b"KLOG\x01\0\0\0\x07\0\x01\x07\0\0\0\x05\x01\x80";

/// The right plan of that log.
const CHMOD_PLAN: &[u8] =
    b"KPLN\x01\0\0\0\x01\0\0\0\0\0\0\0\x05\x01\x01\x80\0\0\x03\xe8\0\0\x03\xe8\0\x01\0\0\0\0\0\0\0\0";

const BY_PATH: Act<'static> = Act::Lease {
    client: 7,
    path: b"/d/a",
    kind: Write,
    end: 100,
};

const BY_NUMBER: Act<'static> = Act::LeaseAt {
    client: 7,
    number: 5,
    kind: Write,
    end: 100,
};

const CLOSED: Call<'static> = Call::Submit(
    CLOSED_LOG,
    CLOSED_PLAN,
    Ok(Reply::Yes {
        position: 1,
        rejudged: false,
        need: 0,
    }),
);

const CHANGED: Call<'static> = Call::Submit(
    CHMOD_LOG,
    CHMOD_PLAN,
    Ok(Reply::Yes {
        position: 4,
        rejudged: false,
        need: 0,
    }),
);

/// Client 7, which can't search the directory, leases the file by its number and changes it. The docket is full then.
static BELOW_A_CLOSED_DIRECTORY: [Call<'static>; 6] = [
    ROOT_LEASED,
    CLOSED,
    Call::Act(
        BY_PATH,
        Ok(ActReply {
            position: 2,
            answer: Err(ActFault::Lease(LeaseFault::NoSearch(1))),
        }),
    ),
    Call::Act(
        BY_NUMBER,
        Ok(ActReply {
            position: 3,
            answer: Ok(Done::Leased(5)),
        }),
    ),
    CHANGED,
    Call::Act(BY_NUMBER, Err(Unanswered::DocketFull)),
];

#[test]
fn a_file_is_changed_below_a_directory_without_search(rt: HostRuntime) {
    assert!(rt; are_due(rt.alloc(), 5, &BELOW_A_CLOSED_DIRECTORY));
}

/// The lease by number, as row 2.
const LEASED: Result<ActReply, Unanswered> = Ok(ActReply {
    position: 2,
    answer: Ok(Done::Leased(5)),
});

fn ask<A: Allocator + Copy>(desk: &mut Desk<A>) -> Result<ActReply, Unanswered> {
    desk.act(BY_NUMBER)
}

/// Asks with only the allocation of this index failing, and once more where it was refused. Answers whether there was such
/// an allocation; none where an answer is wrong.
fn asked_beside<A: Allocator + Copy>(
    heap: &Refusing<Global>,
    desk: &mut Desk<A>,
    growth: u64,
) -> Option<bool> {
    heap.refuse_after(growth);
    let first = ask(desk);
    let is_refused = heap.has_refused();
    heap.refuse_after(AMPLE);
    let is_right = if is_refused {
        first == Err(Unanswered::OutOfMemory) && ask(desk) == LEASED
    } else {
        first == LEASED
    };
    is_right.then_some(is_refused)
}

/// The same beside a view, which is taken with no memory left, and shows what it showed.
fn asked_beside_a_view<A: Allocator + Copy>(
    heap: &Refusing<Global>,
    desk: &mut Desk<A>,
    growth: u64,
) -> Option<bool> {
    heap.refuse_after(0);
    let view = desk.view().ok()?;
    let is_refused = asked_beside(heap, desk, growth);
    if view.holds(7, 5) { None } else { is_refused }
}

/// The same on a desk of its own.
pub fn asked_with_one_refused<A: Allocator + Copy>(
    alloc: A,
    heap: &Refusing<Global>,
    growth: u64,
) -> Option<bool> {
    let mut desk = desk_after(alloc, 5, &[ROOT_LEASED, CLOSED])?;
    asked_beside_a_view(heap, &mut desk, growth)
}
