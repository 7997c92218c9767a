//! Submissions.
ghost use Rattle.std.specs.Prelude.{◌≡◌, ◌↔◌, ◌≤◌, ◌<◌, None};
ghost use Rattle.kfs_model.specs.Spelling.{plan_bytes};
ghost use Rattle.kfs_c.specs.Calls.{IsLogSubmitted};
ghost use Rattle.kfs_c.specs.Holding.{HoldsNoDesk, OnDesk, OnDesks};
ghost use Rattle.kfs_c.specs.Loose.Status as status;
ghost use Rattle.kfs_c.specs.Reading.{no_rows};
ghost use Rattle.kfs_c.specs.Submission.Submission.{IsFull, IsSubmitted};

use crate::bytes::{Unplanned, plan_for};
use crate::handle::Handle;
use crate::loose::status::{FULL, NO_MEMORY};
use crate::on_desk;
use crate::submission::{ReplyNumbers, submit};
use kfs_desk::Desk;
use std::alloc::Global;

/// Judges a submission against the state now and lands it (`Desk::submit_bytes`). It is answered by `DONE`
/// and a reply, or not at all, by `NO_MEMORY` or `FULL`, and then nothing has changed.
#[unsafe(no_mangle)]
pub extern "C" fn kfs_submit(
    alloc: Global,
    handle: &mut Handle,
    client: u32,
    log: &[u8],
    plan: &[u8],
    reply: &mut ReplyNumbers,
) -> u32
    ensures answered { result ≡ status.done → OnDesks handle.old.value handle.new.value (IsSubmitted client log.now plan.now reply.new) }
    ensures unanswered { 1 ≤ result → (handle.new.value ≡ handle.old.value) × (reply.new ≡ reply.old) }
    ensures full { (result ≡ status.full) ↔ OnDesk handle.old.value IsFull }
    ensures closed { (result ≡ status.closed) ↔ (handle.old.value ≡ None) }
    ensures wrong { (result ≡ status.wrong_kind) ↔ HoldsNoDesk handle.old.value }
    ensures known { result ≤ status.wrong_kind }
    ensures range { result < status.closed → result ≤ status.full }
{
    on_desk!(alloc, handle, &mut desk => submit(desk, client, log, plan, reply))
}

/// Makes the plan of a client's log against the state now, and submits both (`kfs_plan`, then `kfs_submit`).
/// Where there is no plan, the log is submitted with one of no rows, so the reply tells the log's fault. It
/// is answered as for `kfs_submit`.
#[unsafe(no_mangle)]
pub extern "C" fn kfs_do(
    alloc: Global,
    handle: &mut Handle,
    client: u32,
    log: &[u8],
    reply: &mut ReplyNumbers,
) -> u32
    ensures answered { result ≡ status.done → OnDesks handle.old.value handle.new.value (IsLogSubmitted client log.now reply.new) }
    ensures unanswered { 1 ≤ result → (handle.new.value ≡ handle.old.value) × (reply.new ≡ reply.old) }
    ensures full { (result ≡ status.full) ↔ OnDesk handle.old.value IsFull }
    ensures closed { (result ≡ status.closed) ↔ (handle.old.value ≡ None) }
    ensures wrong { (result ≡ status.wrong_kind) ↔ HoldsNoDesk handle.old.value }
    ensures known { result ≤ status.wrong_kind }
    ensures range { result < status.closed → result ≤ status.full }
{
    on_desk!(alloc, handle, &mut desk => plan_and_submit(alloc, desk, client, log, reply))
}

fn plan_and_submit(
    alloc: Global,
    desk: &mut Desk<Global>,
    client: u32,
    log: &[u8],
    reply: &mut ReplyNumbers,
) -> u32
    ensures answered { result ≡ status.done → IsLogSubmitted client log.now reply.new desk.old desk.new }
    ensures unanswered { 1 ≤ result → (desk.new ≡ desk.old) × (reply.new ≡ reply.old) }
    ensures full { (result ≡ status.full) ↔ IsFull desk.old }
    ensures range { result ≤ status.full }
{
    if desk.is_full() {
        return FULL;
    }
    match plan_for(alloc, desk, client, log) {
        Ok(plan) => submit(desk, client, log, plan.as_slice(), reply),
        Err(Unplanned::NoClient) | Err(Unplanned::NoPlan) => {
            submit(desk, client, log, &plan_of_no_rows(), reply)
        }
        Err(Unplanned::NoMemory) => NO_MEMORY,
    }
}

/// The bytes of a plan of no rows, of version 1 (docs/FORMATS.md). They are a plan, so a log with a fault is
/// refused for that fault.
#[tactic(auto, unfolding(kfs_model::specs::Spelling::number16, kfs_model::specs::Spelling::number32))]
fn plan_of_no_rows() -> [u8; 13]
    ensures { result ≡ plan_bytes no_rows }
{
    [75, 80, 76, 78, 1, 0, 0, 0, 0, 0, 0, 0, 0]
}
