//! Laws of desks. Each is the contract of a function that has nothing to do when it is called.
ghost use Rattle.kfs_desk.specs.History.Runs.{LeastIsRun, RunIsLeast};
ghost use Rattle.kfs_desk.specs.SameCalls.{HaveSameAnswersSince};

use crate::desk::Desk;
use std::alloc::Allocator;

/// A docket that takes the least free places is a run of its calls, and each run is such a docket. So the
/// answers and the state are a function of the opening and the calls.
pub fn a_docket_is_a_run_of_its_calls()
    ensures only { LeastIsRun }
    ensures each { RunIsLeast }
{}

/// Two desks that showed the same state, and that were handed the same calls since then, gave the same
/// answers to them and show the same state. The word on judging again is no part of an answer.
pub fn same_calls_give_the_same_state<A: Allocator + Copy, B: Allocator + Copy>(
    one: &Desk<A>,
    other: &Desk<B>,
)
    ensures { HaveSameAnswersSince one.now other.now }
{
    // Tells the prover that both dockets are legal.
    let _docket = one.docket();
    let _other = other.docket();
}
