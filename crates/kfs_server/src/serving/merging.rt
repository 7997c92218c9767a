//! Replies, from what was decided and what the calls were answered.
ghost use Rattle.std.specs.Prelude.{◌≡◌, [], ◌+◌, ◌<◌, ◌≤◌, length, vec_capacity};
ghost use Rattle.kfs_server.specs.Serving.Group.{AreReplies, IsFirstReplied, IsReplied, IsReplyTo, call_in, calls_of};

use crate::replies::{NumberedReply, Refusal, Reply};
use kfs_call::{Decided, Decision};
use kfs_call_desk::{CallFault, Called, answer_row};
use std::alloc::Allocator;

/// The replies to the decisions, given the answers to their calls.
///
/// Conditions: there are as many answers as calls; `replies` is empty, and has room for all.
pub fn merge<B: Allocator>(
    decided: &[Decided<'_>],
    answers: &[Result<Called, CallFault>],
    replies: &mut Vec<NumberedReply, B>,
)
    requires as_many { length answers.now ≡ length (calls_of decided.now) }
    requires none { replies.old.items ≡ [] }
    requires room { length decided.now ≤ vec_capacity replies.old }
    ensures replies { AreReplies decided.now answers.now replies.new.items }
    ensures capacity { vec_capacity replies.new ≡ vec_capacity replies.old }
{
    let mut rest = answers;
    for one in decided {
        let (reply, behind) = reply_in(&one.what, rest);
        replies.push_reserved(NumberedReply {
            number: one.number,
            reply,
        });
        rest = behind;
    }
}

/// The reply to a decision, given the answers from its call on, and the answers behind it. Condition: a call has an
/// answer.
fn reply_in<'a>(
    what: &Decision<'_>,
    answers: &'a [Result<Called, CallFault>],
) -> (Reply, &'a [Result<Called, CallFault>])
    requires { length (call_in what.now) ≤ length answers.now }
    ensures reply { IsReplied what.now answers.entry.now result.1.now result.0 }
    ensures behind { length answers.entry.now ≡ length (call_in what.now) + length result.1.now }
{
    match what {
        Decision::Make(_) => first_reply(answers),
        Decision::NotKept(fault) => (Reply::Refused(Refusal::from(*fault)), answers),
        Decision::NoCall(fault) => (Reply::Refused(Refusal::from(*fault)), answers),
        Decision::NotYours => (Reply::Refused(Refusal::NotYours), answers),
    }
}

/// The reply to the call of the first answer, and the answers behind it. Condition: there is one.
fn first_reply(answers: &[Result<Called, CallFault>]) -> (Reply, &[Result<Called, CallFault>])
    requires { 0 < length answers.now }
    ensures reply { IsFirstReplied answers.entry.now result.1.now result.0 }
    ensures behind { length answers.entry.now ≡ 1 + length result.1.now }
{
    match answers.split_first() {
        Some((answer, behind)) => (reply_to(answer), behind),
        // The condition says that there is one.
        None => unreachable!(),
    }
}

/// The reply to a call that was answered, or has no answer.
fn reply_to(answer: &Result<Called, CallFault>) -> Reply
    ensures { IsReplyTo answer.now result }
{
    match answer {
        Ok(called) => Reply::Answered(answer_row(called)),
        Err(CallFault::BadCall(fault)) => Reply::Refused(Refusal::from(*fault)),
        Err(CallFault::OutOfMemory) => Reply::Refused(Refusal::OutOfMemory),
        Err(CallFault::DocketFull) => Reply::Refused(Refusal::DocketFull),
    }
}
