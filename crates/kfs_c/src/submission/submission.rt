//! A submission to a desk.
ghost use Rattle.std.specs.Prelude.{◌≡◌, ◌↔◌, ◌≤◌};
ghost use Rattle.kfs_c.specs.Submission.Submission.{IsFull, IsSubmitted};
ghost use Rattle.kfs_c.specs.Loose.Status as status;

use crate::loose::status::{DONE, FULL, NO_MEMORY};
use crate::submission::numbers::ReplyNumbers;
use crate::submission::told::reply_numbers;
use kfs_desk::Desk;
use kfs_plan::Why;
use std::alloc::Global;

/// Judges a submission against the state now and lands it (`Desk::submit_bytes`). It is answered by `DONE`
/// and a reply, or not at all, by `NO_MEMORY` or `FULL`, and then nothing has changed.
pub fn submit(
    desk: &mut Desk<Global>,
    client: u32,
    log: &[u8],
    plan: &[u8],
    reply: &mut ReplyNumbers,
) -> u32
    ensures answered { result ≡ status.done → IsSubmitted client log.now plan.now reply.new desk.old desk.new }
    ensures unanswered { 1 ≤ result → (desk.new ≡ desk.old) × (reply.new ≡ reply.old) }
    ensures full { (result ≡ status.full) ↔ IsFull desk.old }
    ensures range { result ≤ status.full }
{
    match desk.submit_bytes(client, log, plan) {
        Ok(answer) => {
            *reply = reply_numbers(answer);
            DONE
        }
        Err(why) => why_number(why),
    }
}

/// Why there is no answer, as a status.
pub fn why_number(why: Why) -> u32
    ensures memory { (result ≡ status.no_memory) ↔ (why ≡ Why.OutOfMemory) }
    ensures full { (result ≡ status.full) ↔ (why ≡ Why.DocketFull) }
    ensures range { (1 ≤ result) × (result ≤ status.full) }
{
    match why {
        Why::OutOfMemory => NO_MEMORY,
        Why::DocketFull => FULL,
    }
}
