//! A fault, as four numbers: code, reason, index and detail.
ghost use Rattle.std.specs.Prelude.{◌≡◌, ◌≤◌, length, drop, IfSome};
ghost use Rattle.kfs_entry.specs.Codec.Reading.{seen};
ghost use Rattle.kfs_call.specs.AnswerReaders.{fault_read};
ghost use Rattle.kfs_call.specs.AnswerViews.{fault_shown};

use crate::answer::FaultRow;
use kfs_entry::codec::{byte, number32, number64};

/// The field at position `at`, and the position after it; none where no such field is there.
#[tactic(auto, unfolding(crate::specs::AnswerReaders::fault_read))]
pub fn read(source: &[u8], at: usize) -> Option<(FaultRow, usize)>
    requires { at ≤ length source.now }
    ensures value { seen fault_shown source.now result ≡ fault_read (drop at source.now) }
    ensures within { IfSome result (λ x. x.1 ≤ length source.now) }
{
    let (code, at) = byte::read(source, at)?;
    let (reason, at) = byte::read(source, at)?;
    let (index, at) = number64::read(source, at)?;
    let (detail, at) = number32::read(source, at)?;
    let fault = FaultRow {
        code,
        reason,
        index,
        detail,
    };
    Some((fault, at))
}
