//! Replies to frames, as values and as bytes.
mod reply;
mod spelling;

pub use self::reply::{NumberedReply, Refusal, Reply};
pub use self::spelling::{REPLY_LIMIT, spell_reply, write_replies};
