//! A call read from bytes, and made with a verdict from before.
ghost use Rattle.std.specs.Prelude.{◌≡◌, ◌↔◌, false, length, IfOk, IfErr, IsErrOf, IsTrue, OnErr};
ghost use Rattle.kfs_call.specs.Views.{call_shown};
ghost use Rattle.kfs_desk.specs.History.Legal.{IsLegalDocket};
ghost use Rattle.kfs_desk.specs.Machine.{IsAnswered};
ghost use Rattle.kfs_plan.specs.Judging.{submission_of, submission_with};
ghost use Rattle.kfs_call_desk.specs.Calls.{IsCalled, IsMade, IsOutcome, IsRefusal, IsSubmitting};

use crate::made::{CallFault, Called, call, make, replied};
use kfs_call::{Call, FieldFault, decode_call};
use kfs_desk::{Desk, Reply, Why};
use kfs_plan::Judged;
use std::alloc::Allocator;

/// Makes a call as `call` does, beside a verdict from before, against whatever view that was made.
///
/// Where the call is a submission, and the verdict is on its client, log and plan, `Desk::submit_judged` answers it. Else
/// a verdict is passed over. The answer is that of `call` either way.
pub fn call_judged<A: Allocator + Copy, B: Allocator>(
    alloc: B,
    desk: &mut Desk<A>,
    bytes: &[u8],
    judged: Option<&Judged<A>>,
) -> Result<Called, CallFault>
    ensures called { IfOk result (λ called. IsCalled bytes.now desk.old called desk.new) }
    ensures refused { IfErr result (IsRefusal bytes.now desk.old) }
    ensures err { OnErr result (desk.new ≡ desk.old) }

    // The docket is legal, whatever the answer.
    ensures legal { IsLegalDocket desk.new.opening desk.new.docket desk.new.state }
{
    let Some(judged) = judged else {
        return call(alloc, desk, bytes);
    };
    // Tells the prover that the docket is legal before the call.
    let _docket = desk.docket();
    match decode_call(alloc, bytes) {
        Ok(call) => make_judged(desk, call, judged),
        Err(FieldFault::OutOfMemory) => Err(CallFault::OutOfMemory),
        Err(fault) => Err(CallFault::BadCall(fault)),
    }
}

/// Makes a call.
fn make_judged<A: Allocator + Copy, B: Allocator>(
    desk: &mut Desk<A>,
    call: Call<'_, B>,
    judged: &Judged<A>,
) -> Result<Called, CallFault>
    ensures { IsOutcome (λ called. IsMade (call_shown call.entry) desk.old called desk.new) desk.old result desk.new }
{
    match call {
        Call::Submit { client, log, plan } => submit(desk, client, log, plan, judged),
        call => make(desk, call),
    }
}

fn submit<A: Allocator + Copy>(
    desk: &mut Desk<A>,
    client: u32,
    log: &[u8],
    plan: &[u8],
    judged: &Judged<A>,
) -> Result<Called, CallFault>
    ensures { IsOutcome (λ called. IsSubmitting desk.old (submission_with client log.now plan.now) called desk.new) desk.old result desk.new }
{
    let answer = answer_of(desk, client, log, plan, judged);
    replied(answer)
}

/// The desk's answer to a submission. A verdict on another one is passed over.
fn answer_of<A: Allocator + Copy>(
    desk: &mut Desk<A>,
    client: u32,
    log: &[u8],
    plan: &[u8],
    judged: &Judged<A>,
) -> Result<Reply, Why>
    ensures full { IsErrOf result Why.DocketFull ↔ (length desk.old.docket ≡ desk.old.limit) }
    ensures answered { IfOk result (λ reply. IsAnswered desk.old (submission_with client log.now plan.now) false reply desk.new) }
    ensures err { OnErr result (desk.new ≡ desk.old) }
    ensures legal { IsLegalDocket desk.new.opening desk.new.docket desk.new.state }
{
    if is_on(judged, client, log, plan) {
        desk.submit_judged(judged)
    } else {
        desk.submit_bytes(client, log, plan)
    }
}

/// Whether the verdict is on this client, log and plan.
fn is_on<A: Allocator>(judged: &Judged<A>, client: u32, log: &[u8], plan: &[u8]) -> bool
    ensures { IsTrue result → submission_of judged.now.submission ≡ submission_with client log.now plan.now }
{
    let submission = judged.submission();
    submission.client == client
        && submission.log.as_slice() == log
        && submission.plan.as_slice() == plan
}
