//! Where no plan is made: no log, another client's log, an entry's fault, and no memory.

use crate::plans::desks::{Step, are_done, client, opened, planned};
use crate::plans::logs::{NO_NODE, RENAMES};
use kfs_desk::Desk;
use kfs_mode::Client;
use kfs_test_support::refusing::Refusing;
use kfs_test_support::vectors::{CREATE_LOG, CREATE_PLAN, LETTERS_LOG};
use std::alloc::{Allocator, Global};

/// More allocations than anything here asks for.
const AMPLE: u64 = 1 << 40;

/// More allocations than one call asks for.
const MANY: u64 = 200;

fn client_8() -> Option<Client> {
    Client::new(8, 1_000, 1_000, &[], false, 2, 99).ok()
}

/// Whether no plan is made for the client's log over a new image.
fn has_no_plan(alloc: Global, client: Option<Client>, log: &[u8]) -> bool {
    let Some(client) = client else {
        return false;
    };
    match opened(alloc) {
        Some(desk) => matches!(planned(alloc, &desk, &client, log), Ok(None)),
        None => false,
    }
}

/// No bytes, a log without its last byte, a plan, and logs with a fault.
static NO_LOGS: [&[u8]; 5] = [
    b"",
    b"KLOG\x01\0\0\0\x07\0\x01\x01\0\0\0\x01\x01a\0\0\0\x05\0\x01",
    CREATE_PLAN,
    NO_NODE,
    LETTERS_LOG,
];

#[test]
fn no_log_and_an_entry_with_a_fault(rt: HostRuntime) {
    for log in NO_LOGS.iter() {
        assert!(rt; has_no_plan(rt.alloc(), client(), *log), "{log:?}");
    }
}

#[test]
fn the_log_of_another_client(rt: HostRuntime) {
    assert!(rt; has_no_plan(rt.alloc(), client_8(), CREATE_LOG));
}

static FILE_HELD: [Step<'static>; 3] = [
    Step::Lease(b"/"),
    Step::Land(CREATE_LOG, 0),
    Step::Lease(b"/a"),
];

/// The length of a plan and whether an allocation failed.
type Made = (Option<usize>, bool);

/// The length of the plan that is made where the allocation with this index is refused; none where memory is lacking. The
/// second part says whether that allocation was asked for.
fn made_on<A: Allocator + Copy>(
    alloc: A,
    heap: &Refusing<Global>,
    desk: &Desk<A>,
    growth: u64,
) -> Option<Made> {
    let client = client()?;
    heap.refuse_after(growth);
    let len = match planned(alloc, desk, &client, RENAMES) {
        Ok(Some(plan)) => Some(plan.len()),
        Ok(None) => return None,
        Err(_) => None,
    };
    Some((len, heap.has_refused()))
}

/// The same with a desk of its own.
fn made_there<A: Allocator + Copy>(alloc: A, heap: &Refusing<Global>, growth: u64) -> Option<Made> {
    let mut desk = opened(alloc)?;
    if are_done(alloc, &mut desk, &FILE_HELD) {
        made_on(alloc, heap, &desk, growth)
    } else {
        None
    }
}

/// The same with a heap of its own.
fn made_without(alloc: Global, growth: u64) -> Option<Made> {
    let heap = Refusing::new(alloc, AMPLE);
    made_there(&heap, &heap, growth)
}

/// How many allocations the call asks for, each refused in turn; none where an answer is wrong.
fn growths(alloc: Global) -> Option<u64> {
    let (ample, _refused) = made_without(alloc, AMPLE)?;
    for growth in 0..MANY {
        match made_without(alloc, growth)? {
            (None, true) => {}
            (made, false) if made == ample => return Some(growth),
            _ => return None,
        }
    }
    None
}

#[test]
fn each_growth_is_refused(rt: HostRuntime) {
    let asked = growths(rt.alloc());
    assert!(rt; matches!(asked, Some(1..)), "{asked:?}");
}
