//! The tag of an answer, one byte: 1 to 9.
ghost use Rattle.std.specs.Prelude.{◌≡◌, ◌≤◌, length, drop, IfSome};
ghost use Rattle.kfs_entry.specs.Codec.Reading.{seen};
ghost use Rattle.kfs_call.specs.AnswerReaders.{answer_tag_read};

use kfs_entry::codec::byte;

/// Which answer it is.
#[derive(Clone, Copy)]
pub enum AnswerTag {
    Yes,
    No,
    NoRoom,
    Leased,
    Dropped,
    Ticked,
    Moved,
    LeaseRefused,
    MovesRefused,
}

/// The field at position `at`, and the position after it; none where no such field is there.
#[tactic(auto, unfolding(crate::specs::AnswerReaders::answer_tag_read))]
pub fn read(source: &[u8], at: usize) -> Option<(AnswerTag, usize)>
    requires { at ≤ length source.now }
    ensures value { seen (λ tag. tag) source.now result ≡ answer_tag_read (drop at source.now) }
    ensures within { IfSome result (λ x. x.1 ≤ length source.now) }
{
    match byte::read(source, at)? {
        (1, at) => Some((AnswerTag::Yes, at)),
        (2, at) => Some((AnswerTag::No, at)),
        (3, at) => Some((AnswerTag::NoRoom, at)),
        (4, at) => Some((AnswerTag::Leased, at)),
        (5, at) => Some((AnswerTag::Dropped, at)),
        (6, at) => Some((AnswerTag::Ticked, at)),
        (7, at) => Some((AnswerTag::Moved, at)),
        (8, at) => Some((AnswerTag::LeaseRefused, at)),
        (9, at) => Some((AnswerTag::MovesRefused, at)),
        _ => None,
    }
}
