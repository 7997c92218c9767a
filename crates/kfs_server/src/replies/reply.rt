//! What a frame is replied.
ghost use Rattle.std.specs.Prelude.{◌≡◌};
ghost use Rattle.kfs_server.specs.Replies.Refusals.{refusal_for_body, refusal_for_fields, refusal_for_log};
ghost use Rattle.kfs_server.specs.declared.replies.reply.Refusal.TheVariants as refusals;

use kfs_call::{AnswerRow, BodyFault, FieldFault};
use kfs_entry::SpellFault;
use std::alloc::AllocError;
use thiserror::Error;

/// Why a frame is refused. Nothing was done for it then.
#[derive(Clone, Copy, Debug, PartialEq, Eq, Error)]
pub enum Refusal {
    /// 1: its body has more than 16,777,216 bytes.
    #[error("TooLong")]
    TooLong,
    /// 2: the input ended within it.
    #[error("CutShort")]
    CutShort,
    /// 3: its body is no call: so many fields were read, and no field that may follow them does. The tag is field 0.
    #[error("BadField({0})")]
    BadField(u32),
    /// 4: its body is a call, and more bytes.
    #[error("Trailing")]
    Trailing,
    /// 5: the call is another client's than the frame, or is the front's alone.
    #[error("NotYours")]
    NotYours,
    /// 6: memory was refused.
    #[error("memory")]
    OutOfMemory,
    /// 7: the docket has as many rows as its limit allows.
    #[error("full")]
    DocketFull,
}

impl From<AllocError> for Refusal {
    ghost from_gives = { λ _ why. why ≡ refusals.OutOfMemory };

    fn from(_error: AllocError) -> Refusal {
        Refusal::OutOfMemory
    }
}

impl From<BodyFault> for Refusal {
    ghost from_gives = { λ fault why. why ≡ refusal_for_body fault };

    fn from(fault: BodyFault) -> Refusal {
        match fault {
            BodyFault::TooLong => Refusal::TooLong,
            BodyFault::OutOfMemory => Refusal::OutOfMemory,
        }
    }
}

impl From<FieldFault> for Refusal {
    ghost from_gives = { λ fault why. why ≡ refusal_for_fields fault };

    fn from(fault: FieldFault) -> Refusal {
        match fault {
            FieldFault::BadField(index) => Refusal::BadField(index),
            FieldFault::Trailing => Refusal::Trailing,
            FieldFault::OutOfMemory => Refusal::OutOfMemory,
        }
    }
}

impl From<SpellFault> for Refusal {
    ghost from_gives = { λ fault why. why ≡ refusal_for_log fault };

    fn from(fault: SpellFault) -> Refusal {
        match fault {
            SpellFault::OutOfMemory => Refusal::OutOfMemory,
            _ => Refusal::BadField(0),
        }
    }
}

/// What a frame is replied.
#[derive(Clone, Copy, Debug, PartialEq, Eq)]
pub enum Reply {
    /// Its call was made, is kept, and has this answer.
    Answered(AnswerRow),
    /// Nothing was done.
    Refused(Refusal),
}

/// The reply to the frame with this number.
#[derive(Clone, Copy, Debug, PartialEq, Eq)]
pub struct NumberedReply {
    pub number: u32,
    pub reply: Reply,
}
