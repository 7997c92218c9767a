//! Replies as bytes.
ghost use Rattle.std.specs.Prelude.{◌≡◌, ◌++◌, ◌+◌, ◌*◌, ◌≤◌, length, vec_len, vec_capacity};
ghost use Rattle.std.specs.List.{flat_map};
ghost use Rattle.kfs_model.specs.Spelling.{byte, number32};
ghost use Rattle.kfs_server.specs.Replies.Reply as spelled;
ghost use Rattle.kfs_server.specs.Replies.Reply.{refusal_index, refusal_code, reply_bytes};
ghost use Rattle.kfs_server.specs.Replies.Views.{numbered_bytes, refusal_shown};

use crate::put::put;
use crate::replies::reply::{NumberedReply, Refusal, Reply};
use arrayvec::ArrayVec;
use kfs_call::spell_answer;
use std::alloc::Allocator;

/// The most bytes of a reply with its head.
pub const REPLY_LIMIT: usize = 29;

/// The tag of a reply that has an answer.
const ANSWERED: u8 = 1;

/// The tag of a reply that refuses.
const REFUSED: u8 = 2;

/// A reply as bytes, under the frame's number. Takes no memory.
pub fn spell_reply(reply: &NumberedReply) -> ArrayVec<u8, REPLY_LIMIT>
    ensures { result.items ≡ numbered_bytes reply.now }
{
    match &reply.reply {
        Reply::Answered(answer) => {
            let answer = spell_answer(answer);
            under(reply.number, ANSWERED, answer.as_slice())
        }
        Reply::Refused(refusal) => refused(reply.number, *refusal),
    }
}

/// Writes replies as bytes, one after another. Condition: `text` has room for 29 bytes more for each of them.
pub fn write_replies<A: Allocator>(text: &mut Vec<u8, A>, replies: &[NumberedReply])
    requires { vec_len text.old + 29 * length replies.now ≤ vec_capacity text.old }
    ensures text { text.new.items ≡ text.old.items ++ flat_map numbered_bytes replies.now }
    ensures capacity { vec_capacity text.old ≤ vec_capacity text.new }
{
    for reply in replies {
        write_reply(text, reply);
    }
}

/// Writes a reply as bytes. Condition: `text` has room for 29 bytes more.
fn write_reply<A: Allocator>(text: &mut Vec<u8, A>, reply: &NumberedReply)
    requires { vec_len text.old + 29 ≤ vec_capacity text.old }
    ensures text { text.new.items ≡ text.old.items ++ numbered_bytes reply.now }
    ensures len { vec_len text.new ≤ vec_len text.old + 29 }
    ensures capacity { vec_capacity text.old ≤ vec_capacity text.new }
{
    let bytes = spell_reply(reply);
    match text.extend_from_slice(bytes.as_slice()) {
        Ok(()) => (),
        // The condition says that there is room.
        Err(_) => unreachable!(),
    }
}

/// A refusal as bytes.
#[tactic(auto, unfolding(kfs_model::specs::Spelling::number32))]
fn refused(number: u32, refusal: Refusal) -> ArrayVec<u8, REPLY_LIMIT>
    ensures { result.items ≡ reply_bytes number (spelled.Refused (refusal_shown refusal)) }
{
    let [i0, i1, i2, i3] = index(refusal).to_be_bytes();
    under(number, REFUSED, &[code(refusal), i0, i1, i2, i3])
}

/// The number of a refusal.
fn code(refusal: Refusal) -> u8
    ensures { result ≡ refusal_code (refusal_shown refusal) }
{
    match refusal {
        Refusal::TooLong => 1,
        Refusal::CutShort => 2,
        Refusal::BadField(_) => 3,
        Refusal::Trailing => 4,
        Refusal::NotYours => 5,
        Refusal::OutOfMemory => 6,
        Refusal::DocketFull => 7,
    }
}

/// How many fields were read, of a body that lacks one.
fn index(refusal: Refusal) -> u32
    ensures { result ≡ refusal_index (refusal_shown refusal) }
{
    match refusal {
        Refusal::BadField(index) => index,
        _ => 0,
    }
}

/// These bytes behind a tag, under the frame's number. Condition: they are at most 20.
#[tactic(auto, unfolding(kfs_model::specs::Spelling::number32))]
fn under(number: u32, tag: u8, rest: &[u8]) -> ArrayVec<u8, REPLY_LIMIT>
    requires { length rest.now ≤ 20 }
    ensures { result.items ≡ number32 (length (byte tag ++ rest.now)) ++ number32 number ++ (byte tag ++ rest.now) }
{
    let len = rest.len() as u32 + 1;
    let mut out = ArrayVec::new();
    put(&mut out, &len.to_be_bytes());
    put(&mut out, &number.to_be_bytes());
    out.push(tag);
    put(&mut out, rest);
    out
}
