//! Names that are looked for.
ghost use Rattle.std.specs.Prelude.{◌≡◌, ◌-◌, ◌<◌, ◌≤◌, ◌++◌, length, replicate, take};
ghost use Rattle.std.specs.Ordering.{nat_cmp};
ghost use Rattle.std.specs.Cmp.Lexicographic.{slice_cmp};
ghost use Rattle.std.specs.Int.{w128, from_be_bytes};
ghost use Rattle.kfs_model.specs.Spelling.{IsBytes, IsName};
ghost use Rattle.kfs_types.specs.Padded.{padded};

use crate::name::Name;
use std::cmp::Ordering;
use std::marker::Model;

/// A name that is looked for among `Name`s: a reference to its bytes where they lie, and the first 16 of
/// them as one number, which is made once for all comparisons. For contracts it is its bytes.
#[derive(Drop)]
pub struct SoughtName<'s> {
    /// The first 16 bytes as one number, the greatest first; zeros where the name is shorter.
    head: u128,
    bytes: &'s [u8],
}

impl<'s> Model for SoughtName<'s> {
    ghost use Rattle.std.specs.Prelude.{ℕ, ◌≡◌, List, take};
    ghost use Rattle.std.specs.Int.{w128, from_be_bytes};
    ghost use Rattle.kfs_model.specs.Spelling.{IsBytes, IsName};
    ghost use Rattle.kfs_types.specs.Padded.{padded};

    ghost Value = { List ℕ };

    ghost view = { λ n. n.bytes.now };

    ghost invariant = { λ n. IsName n.bytes.now × (n.head ≡ from_be_bytes w128 (take 16 (padded n.bytes.now))) × IsBytes (padded n.bytes.now) };
}

impl<'s> SoughtName<'s> {
    /// The name with these bytes.
    pub(crate) fn of(bytes: &'s [u8]) -> Self
        requires { IsName bytes.now }
        ensures { result ≡ bytes.now }
    {
        SoughtName::with_head(head_of(bytes), bytes)
    }

    /// The same, given its first 16 bytes as one number.
    #[inline(always)]
    pub(crate) fn with_head(head: u128, bytes: &'s [u8]) -> Self
        requires name { IsName bytes.now }
        requires head { head ≡ from_be_bytes w128 (take 16 (padded bytes.now)) }
        requires bytes { IsBytes (padded bytes.now) }
        ensures { result ≡ bytes.now }
    {
        SoughtName { head, bytes }
    }

    /// How it compares with a name, by their bytes. Takes no memory.
    // The first 16 bytes are compared as one number. A shorter name is all in it, with zeros behind. No byte
    // of a name is zero, so two names with equal numbers are both shorter, or neither is.
    #[inline(always)]
    pub fn against(&self, other: &Name) -> Ordering
        ensures { result ≡ slice_cmp nat_cmp self.now other.now }
    {
        let other_head = other.head();
        if self.head != other_head {
            return self.head.cmp(&other_head);
        }
        if self.bytes.len() < 16 {
            return Ordering::Equal;
        }
        let (rest, other_rest) = (&self.bytes[16..], &other.as_bytes()[16..]);
        rest.cmp(&other_rest)
    }
}

/// The first 16 bytes as one number, the greatest first; zeros where there are fewer.
fn head_of(bytes: &[u8]) -> u128
    requires { length bytes.now ≤ 255 }
    ensures value { result ≡ from_be_bytes w128 (take 16 (padded bytes.now)) }
    ensures bytes { IsBytes (padded bytes.now) }
{
    match bytes.first_chunk() {
        Some(first) => u128::from_be_bytes(*first),
        None => short_head(bytes),
    }
}

/// The same number of fewer than 16 bytes.
fn short_head(bytes: &[u8]) -> u128
    requires { length bytes.now < 16 }
    ensures { result ≡ from_be_bytes w128 (bytes.now ++ replicate (16 - length bytes.now) 0) }
{
    let mut room = [0; 16];
    room[..bytes.len()].copy_from_slice(bytes);
    u128::from_be_bytes(room)
}
