//! Two callers side by side, each in a thread of its own.
//!
//! What starts threads is generic in what is shared: the prover finds that a pass may go to a thread
//! and a shared object may be lent to two where it need not look into the object. That a desk may go
//! is shown once, where `both` calls it.
ghost use Rattle.kfs_shared.specs.Passes.{IsPassOf};

use kfs_desk::Desk;
use kfs_shared::{Docketed, Pass, Shared};
use std::alloc::{Allocator, Global};
use std::sync::Wait;
use std::thread::{Threads, join};

/// What a thread does with its pass. It keeps what it learns.
pub trait Caller<D: Docketed, A: Allocator> {
    fn call<R: Wait>(&mut self, rt: &R, shared: &Shared<D, A>, pass: &mut Pass<D>)
        requires { IsPassOf shared.now pass.old }
        ensures { IsPassOf shared.now pass.new };
}

/// A caller with its pass.
pub type Party<D, C> = (C, Pass<D>);

/// The caller and its pass after its calls.
fn called<D: Docketed, A: Allocator, C: Caller<D, A>, R: Wait>(
    rt: &R,
    shared: &Shared<D, A>,
    caller: C,
    pass: Pass<D>,
) -> Party<D, C>
    requires { IsPassOf shared.now pass }
    ensures { IsPassOf shared.now result.1 }
{
    let mut caller = caller;
    let mut pass = pass;
    caller.call(rt, shared, &mut pass);
    (caller, pass)
}

/// Both callers make their calls, each in a thread of its own where one can be had.
fn side_by_side<
    D: Docketed + Send,
    A: Allocator + Send + Sync,
    C: Caller<D, A> + Drop + Send,
    E: Caller<D, A> + Drop + Send,
    R: Threads + Wait + Sync,
>(
    rt: &R,
    shared: &Shared<D, A>,
    one: C,
    p: Pass<D>,
    other: E,
    q: Pass<D>,
) -> (Party<D, C>, Party<D, E>)
    requires { IsPassOf shared.now p × IsPassOf shared.now q }
    ensures { IsPassOf shared.now result.0.1 × IsPassOf shared.now result.1.1 }
{
    join(
        rt,
        move || -> Party<D, C>
            requires { IsPassOf shared.now p }
            ensures { IsPassOf shared.entry.now result.1 }
        { called(rt, shared, one, p) },
        move || -> Party<D, E>
            requires { IsPassOf shared.now q }
            ensures { IsPassOf shared.entry.now result.1 }
        { called(rt, shared, other, q) },
    )
}

/// The same over a desk.
pub fn both<
    C: Caller<Desk<Global>, Global> + Drop + Send,
    E: Caller<Desk<Global>, Global> + Drop + Send,
    R: Threads + Wait + Sync,
>(
    rt: &R,
    shared: &Shared<Desk<Global>, Global>,
    one: C,
    p: Pass<Desk<Global>>,
    other: E,
    q: Pass<Desk<Global>>,
) -> (Party<Desk<Global>, C>, Party<Desk<Global>, E>)
    requires { IsPassOf shared.now p × IsPassOf shared.now q }
    ensures { IsPassOf shared.now result.0.1 × IsPassOf shared.now result.1.1 }
{
    side_by_side(rt, shared, one, p, other, q)
}
