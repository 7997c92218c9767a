//! The tag of a call, one byte: 1 to 6.
ghost use Rattle.std.specs.Prelude.{◌≡◌, ◌≤◌, length, drop, IfSome};
ghost use Rattle.kfs_entry.specs.Codec.Reading.{seen};
ghost use Rattle.kfs_call.specs.Readers.{tag_read};

use kfs_entry::codec::byte;

/// Which call it is.
#[derive(Clone, Copy)]
pub enum Tag {
    Submit,
    Lease,
    Drop,
    Tick,
    Migrate,
    LeaseAt,
}

/// The field at position `at`, and the position after it; none where no such field is there.
#[tactic(auto, unfolding(crate::specs::Readers::tag_read))]
pub fn read(source: &[u8], at: usize) -> Option<(Tag, usize)>
    requires { at ≤ length source.now }
    ensures value { seen (λ tag. tag) source.now result ≡ tag_read (drop at source.now) }
    ensures within { IfSome result (λ x. x.1 ≤ length source.now) }
{
    match byte::read(source, at)? {
        (1, at) => Some((Tag::Submit, at)),
        (2, at) => Some((Tag::Lease, at)),
        (3, at) => Some((Tag::Drop, at)),
        (4, at) => Some((Tag::Tick, at)),
        (5, at) => Some((Tag::Migrate, at)),
        (6, at) => Some((Tag::LeaseAt, at)),
        _ => None,
    }
}
