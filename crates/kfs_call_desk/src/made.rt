//! A call read from bytes, and made.
ghost use Rattle.std.specs.Prelude.{◌≡◌, IfOk, IfErr, OnErr};
ghost use Rattle.kfs_call.specs.Views.{call_shown};
ghost use Rattle.kfs_desk.specs.History.Legal.{IsLegalDocket};
ghost use Rattle.kfs_lease.specs.Rows.Rows.{kind_of};
ghost use Rattle.kfs_model.specs.Machine as machine;
ghost use Rattle.kfs_plan.specs.Judging.{submission_with};
ghost use Rattle.kfs_call_desk.specs.Calls.{IsActing, IsCalled, IsMade, IsOutcome, IsRefusal, IsSameAct, IsSameReply, IsSubmitting};

use kfs_call::{Call, FieldFault, LeaseKind, Move, decode_call};
use kfs_desk::{ActReply, Desk, Done, Reply, Unanswered, Why};
use std::alloc::Allocator;
use thiserror::Error;

/// What a call was answered.
#[derive(Clone, Copy, Debug, PartialEq, Eq)]
pub enum Called {
    /// A submission.
    Submitted(Reply),
    /// Any other call.
    Acted(ActReply),
}

/// Why a call wasn't answered. It has no row in the docket, and the desk is as it was.
#[derive(Clone, Copy, Debug, PartialEq, Eq, Error)]
pub enum CallFault {
    /// 1: the bytes are no call: the field that is missing, or that bytes remain.
    #[error("{0}")]
    BadCall(FieldFault),
    /// 2: memory ran out.
    #[error("memory")]
    OutOfMemory,
    /// 3: the docket is full: it has as many rows as its limit allows.
    #[error("full")]
    DocketFull,
}

/// Reads a call from bytes and makes it, with the desk's own call for it: `submit_bytes`, `lease`,
/// `lease_at`, `drop_lease`, `tick` or `migrate`. Log, plan and path are read where they lie.
///
/// `alloc` serves the list of moves alone. `Err` where the bytes are no call, where the docket is full, or
/// where memory runs out. Nothing has changed then, and the docket has no row more.
pub fn call<A: Allocator + Copy, B: Allocator>(
    alloc: B,
    desk: &mut Desk<A>,
    bytes: &[u8],
) -> Result<Called, CallFault>
    // The answer is that of the call that the bytes spell, in the clauses of the desk's own call.
    ensures called { IfOk result (λ called. IsCalled bytes.now desk.old called desk.new) }
    ensures refused { IfErr result (IsRefusal bytes.now desk.old) }
    ensures err { OnErr result (desk.new ≡ desk.old) }

    // The docket is legal, whatever the answer.
    ensures legal { IsLegalDocket desk.new.opening desk.new.docket desk.new.state }
{
    // Tells the prover that the docket is legal before the call.
    let _docket = desk.docket();
    match decode_call(alloc, bytes) {
        Ok(call) => make(desk, call),
        Err(FieldFault::OutOfMemory) => Err(CallFault::OutOfMemory),
        Err(fault) => Err(CallFault::BadCall(fault)),
    }
}

/// Makes a call.
pub(crate) fn make<A: Allocator + Copy, B: Allocator>(
    desk: &mut Desk<A>,
    call: Call<'_, B>,
) -> Result<Called, CallFault>
    ensures { IsOutcome (λ called. IsMade (call_shown call.entry) desk.old called desk.new) desk.old result desk.new }
{
    match call {
        Call::Submit { client, log, plan } => submit(desk, client, log, plan),
        Call::Lease {
            client,
            kind,
            end,
            path,
        } => lease(desk, client, kind, end, path),
        Call::Drop { client, number } => drop_lease(desk, client, number),
        Call::Tick { moment } => tick(desk, moment),
        Call::Migrate { moves } => migrate(desk, moves.as_slice()),
        Call::LeaseAt {
            client,
            kind,
            end,
            number,
        } => lease_at(desk, client, kind, end, number),
    }
}

fn submit<A: Allocator + Copy>(
    desk: &mut Desk<A>,
    client: u32,
    log: &[u8],
    plan: &[u8],
) -> Result<Called, CallFault>
    ensures { IsOutcome (λ called. IsSubmitting desk.old (submission_with client log.now plan.now) called desk.new) desk.old result desk.new }
{
    let answer = desk.submit_bytes(client, log, plan);
    replied(answer)
}

fn lease<A: Allocator + Copy>(
    desk: &mut Desk<A>,
    client: u32,
    kind: LeaseKind,
    end: u64,
    path: &[u8],
) -> Result<Called, CallFault>
    ensures { IsOutcome (λ called. IsActing desk.old (machine.Lease client path.now (kind_of kind) end) Done.Leased called desk.new) desk.old result desk.new }
{
    let answer = desk.lease(client, path, kind, end);
    acted(answer)
}

fn lease_at<A: Allocator + Copy>(
    desk: &mut Desk<A>,
    client: u32,
    kind: LeaseKind,
    end: u64,
    number: u32,
) -> Result<Called, CallFault>
    ensures { IsOutcome (λ called. IsActing desk.old (machine.LeaseAt client number (kind_of kind) end) Done.Leased called desk.new) desk.old result desk.new }
{
    let answer = desk.lease_at(client, number, kind, end);
    acted(answer)
}

fn drop_lease<A: Allocator + Copy>(
    desk: &mut Desk<A>,
    client: u32,
    number: u32,
) -> Result<Called, CallFault>
    ensures { IsOutcome (λ called. IsActing desk.old (machine.Drop client number) Done.Dropped called desk.new) desk.old result desk.new }
{
    let answer = desk.drop_lease(client, number);
    acted(answer)
}

fn tick<A: Allocator + Copy>(desk: &mut Desk<A>, moment: u64) -> Result<Called, CallFault>
    ensures { IsOutcome (λ called. IsActing desk.old (machine.Tick moment) Done.Ticked called desk.new) desk.old result desk.new }
{
    let answer = desk.tick(moment);
    acted(answer)
}

fn migrate<A: Allocator + Copy>(desk: &mut Desk<A>, moves: &[Move]) -> Result<Called, CallFault>
    ensures { IsOutcome (λ called. IsActing desk.old (machine.Migrate moves.now) Done.Moved called desk.new) desk.old result desk.new }
{
    let answer = desk.migrate(moves);
    acted(answer)
}

/// The answer to a submission, or why there is none.
pub(crate) fn replied(answer: Result<Reply, Why>) -> Result<Called, CallFault>
    ensures { IsSameReply answer result }
{
    match answer {
        Ok(reply) => Ok(Called::Submitted(reply)),
        Err(Why::OutOfMemory) => Err(CallFault::OutOfMemory),
        Err(Why::DocketFull) => Err(CallFault::DocketFull),
    }
}

/// The answer to another call, or why there is none.
fn acted(answer: Result<ActReply, Unanswered>) -> Result<Called, CallFault>
    ensures { IsSameAct answer result }
{
    match answer {
        Ok(reply) => Ok(Called::Acted(reply)),
        Err(Unanswered::OutOfMemory) => Err(CallFault::OutOfMemory),
        Err(Unanswered::DocketFull) => Err(CallFault::DocketFull),
    }
}
