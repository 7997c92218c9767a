//! The names of files and directories.
ghost use Rattle.std.specs.Prelude.{◌≡◌, ◌↔◌, ◌≤◌, length, take, IsSome, IsTrue, IfSome, Some, nat_eq, refl, ⊤};
ghost use Rattle.std.specs.Ordering.{nat_cmp};
ghost use Rattle.std.specs.Cmp.{on_equiv, on_total, on_po, on_per, partial_equiv_from_equiv};
ghost use Rattle.std.specs.Cmp.Lexicographic.{pointwise, slice_cmp, nat_list_eq_equiv, nat_list_cmp_total, texts_po, texts_ties};
ghost use Rattle.std.specs.Cmp.Rules.{hashing};
ghost use Rattle.std.specs.Hash as fed;
ghost use Rattle.std.specs.Int.{w128, from_be_bytes};
ghost use Rattle.std.proofs.Common.{rules};
ghost use Rattle.kfs_model.specs.Spelling.{IsBytes};
ghost use Rattle.kfs_types.specs.Padded.{padded};

use crate::borrowed_name::BorrowedName;
use crate::limits::NAME_LIMIT;
use crate::sought_name::SoughtName;
use std::alloc::AllocError;
use std::cmp::Ordering;
use std::fmt;
use std::hash::{Hash, Hasher};
use std::marker::Model;

/// A name in a directory: 1 to 255 bytes without `/` and without a zero byte, neither `.` nor `..`
/// (POSIX.1-2017, XBD 3.170 "Filename"). Names are ordered by their bytes.
///
/// The bytes are part of the value itself, so a name takes no memory of its own.
#[derive(Copy)]
pub struct Name {
    /// The name's bytes, and zeros behind them.
    bytes: [u8; NAME_LIMIT],
    len: u8,
}

impl Model for Name {
    ghost use Rattle.std.specs.Prelude.{◌≡◌, ℕ, List, length, take};
    ghost use Rattle.kfs_model.specs.Spelling.{IsName};
    ghost use Rattle.kfs_types.specs.Padded.{padded};

    ghost Value = { List ℕ };

    ghost view = { λ n. take n.len n.bytes };

    ghost invariant = { λ n. IsName (take n.len n.bytes) × (padded (take n.len n.bytes) ≡ n.bytes) × (length (take n.len n.bytes) ≡ n.len) };

    ghost inverse = { λ b. record { bytes = padded b; len = length b } };

    ghost inverse_ok = { λ n h i. record { bytes = h.1 i; len = h.2 i } };
}

// Written out, since a derived clone doesn't say that the copy equals the name.
impl Clone for Name {
    ghost is_clone = { λ name copy. copy ≡ name };

    ghost is_infallible = { λ name. ⊤ };

    fn clone(&self) -> Result<Name, AllocError> {
        Ok(*self)
    }
}

impl PartialEq for Name {
    ghost eq = { pointwise nat_eq };

    ghost laws = { partial_equiv_from_equiv nat_list_eq_equiv };

    fn eq(&self, other: &Self) -> bool {
        self.as_bytes() == other.as_bytes()
    }
}

impl Eq for Name {
    ghost laws = { nat_list_eq_equiv };
}

impl PartialOrd for Name {
    ghost partial_cmp = { λ a b. Some (slice_cmp nat_cmp a b) };

    ghost laws = { texts_po };

    fn partial_cmp(&self, other: &Self) -> Option<Ordering> {
        Some(self.cmp(other))
    }
}

impl Ord for Name {
    ghost cmp = { slice_cmp nat_cmp };

    ghost total = { nat_list_cmp_total };

    ghost matches_partial_cmp = { λ a b. refl };

    ghost matches_eq = { texts_ties };

    fn cmp(&self, other: &Self) -> Ordering {
        self.sought().against(other)
    }
}

impl Hash for Name {
    ghost hash_input = { λ name. fed.slice fed.u8 name };

    ghost respects_eq = { Prim.search (hashing, rules) };

    fn hash<H: Hasher>(&self, state: &mut H) {
        self.as_bytes().hash(state);
    }
}

impl fmt::Debug for Name {
    fn fmt<W: fmt::Write>(&self, f: &mut fmt::Formatter<W>) -> fmt::Result {
        f.debug_tuple("Name").field(&self.as_bytes()).finish()
    }
}

impl Name {
    ghost use Rattle.kfs_model.specs.Spelling.{IsName};

    /// The name with these bytes, or none where they aren't a name: no bytes, over 255, a `/` or a zero
    /// byte among them, `.` or `..`. Takes no memory.
    pub fn new(bytes: &[u8]) -> Option<Name>
        ensures valid { IsSome result ↔ IsName bytes.now }
        ensures value { IfSome result (λ name. name ≡ bytes.now) }
    {
        if !Name::is_name(bytes) {
            return None;
        }
        Some(Name::of(bytes))
    }

    /// The name with these bytes, which are one.
    pub(crate) fn of(bytes: &[u8]) -> Name
        requires { IsName bytes.now }
        ensures { result ≡ bytes.now }
    {
        Name {
            bytes: padded(bytes),
            len: bytes.len() as u8,
        }
    }

    /// Whether the bytes are a name. Takes no memory.
    pub fn is_name(bytes: &[u8]) -> bool
        ensures { IsTrue result ↔ IsName bytes.now }
    {
        if bytes.len() > NAME_LIMIT || matches!(bytes, [] | b"." | b"..") {
            return false;
        }
        !bytes.iter().any(|byte| *byte == 0 || *byte == b'/')
    }

    /// The same name where it lies in this value. Takes no memory.
    pub fn borrowed(&self) -> BorrowedName<'_>
        ensures { result ≡ self.now }
    {
        BorrowedName::of(self.as_bytes())
    }

    /// The same name, to be looked for. Takes no memory.
    #[inline(always)]
    pub fn sought(&self) -> SoughtName<'_>
        ensures { result ≡ self.now }
    {
        SoughtName::with_head(self.head(), self.as_bytes())
    }

    /// The first 16 bytes as one number, the greatest first; zeros where the name is shorter.
    #[inline(always)]
    pub(crate) fn head(&self) -> u128
        ensures value { result ≡ from_be_bytes w128 (take 16 (padded self.now)) }
        ensures bytes { IsBytes (padded self.now) }
        ensures name { IsName self.now }
    {
        head(&self.bytes)
    }

    /// The bytes of the name, 1 to 255. Takes no memory.
    pub fn as_bytes(&self) -> &[u8]
        ensures value { result.now ≡ self.now }
        ensures name { IsName result.now }
    {
        &self.bytes[..self.len as usize]
    }
}

/// The first 16 bytes as one number, the greatest first.
fn head(bytes: &[u8; NAME_LIMIT]) -> u128
    ensures value { result ≡ from_be_bytes w128 (take 16 bytes.now) }
    ensures bytes { IsBytes bytes.now }
{
    u128::from_be_bytes(*bytes.first_chunk().unwrap())
}

/// The bytes, and zeros behind them.
fn padded(bytes: &[u8]) -> [u8; NAME_LIMIT]
    requires { length bytes.now ≤ 255 }
    ensures { result ≡ padded bytes.now }
{
    let mut room = [0; NAME_LIMIT];
    room[..bytes.len()].copy_from_slice(bytes);
    room
}
