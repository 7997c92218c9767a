//! Names that a verdict keeps.
ghost use Rattle.std.specs.Prelude.{◌≡◌, ◌≤◌, IfOk, IsOk, length, nat_eq, take};
ghost use Rattle.std.specs.Cmp.{partial_equiv_from_equiv};
ghost use Rattle.std.specs.Cmp.Lexicographic.{pointwise, nat_list_eq_equiv};
ghost use Rattle.std.specs.Cmp.Rules.{hashing};
ghost use Rattle.std.specs.Hash as fed;
ghost use Rattle.std.proofs.Common.{rules};
ghost use Rattle.kfs_types.specs.Kept.{bytes_in, IsPlaced};

use crate::borrowed_name::BorrowedName;
use crate::name::Name;
use crate::sought_name::SoughtName;
use std::alloc::{AllocError, Allocator};
use std::fmt;
use std::hash::{Hash, Hasher};
use std::marker::Model;

/// The most bytes of a name that lie in a `KeptName` itself.
const SHORT_LEN: usize = 30;

/// A name in a directory that is kept for a while, as in a verdict. A name of up to 30 bytes lies in the
/// value itself, which is 32 bytes long, and a longer one in memory of its own. For contracts it is its
/// bytes, as a `Name` is.
#[derive(Drop)]
pub struct KeptName<A: Allocator> {
    place: Place<A>,
}

/// Where the bytes of a kept name lie.
#[derive(Drop)]
enum Place<A: Allocator> {
    /// The first `len` of these.
    Here { len: u8, bytes: [u8; SHORT_LEN] },
    /// In memory of their own.
    There(Vec<u8, A>),
}

impl<A: Allocator> Model for KeptName<A> {
    ghost use Rattle.std.specs.Prelude.{ℕ, List};
    ghost use Rattle.kfs_model.specs.Spelling.{IsName};
    ghost use Rattle.kfs_types.specs.Kept.{bytes_in, IsPlaced};

    ghost Value = { List ℕ };

    ghost view = { λ n. bytes_in n.place };

    ghost invariant = { λ n. IsPlaced n.place × IsName (bytes_in n.place) };
}

impl<A: Allocator> PartialEq for KeptName<A> {
    ghost eq = { pointwise nat_eq };

    ghost laws = { partial_equiv_from_equiv nat_list_eq_equiv };

    fn eq(&self, other: &Self) -> bool {
        self.as_bytes() == other.as_bytes()
    }
}

impl<A: Allocator> Eq for KeptName<A> {
    ghost laws = { nat_list_eq_equiv };
}

impl<A: Allocator> Hash for KeptName<A> {
    ghost hash_input = { λ name. fed.slice fed.u8 name };

    ghost respects_eq = { Prim.search (hashing, rules) };

    fn hash<H: Hasher>(&self, state: &mut H) {
        self.as_bytes().hash(state);
    }
}

impl<A: Allocator> fmt::Debug for KeptName<A> {
    fn fmt<W: fmt::Write>(&self, f: &mut fmt::Formatter<W>) -> fmt::Result {
        f.debug_tuple("KeptName").field(&self.as_bytes()).finish()
    }
}

impl<A: Allocator> KeptName<A> {
    ghost use Rattle.kfs_model.specs.Spelling.{IsName};

    /// The same name, to be kept. `Err` where memory runs out, which a name of up to 30 bytes doesn't
    /// take.
    pub fn of(alloc: A, name: &BorrowedName<'_>) -> Result<KeptName<A>, AllocError>
        ensures name { IfOk result (λ kept. kept ≡ name.now) }
        ensures short { length name.now ≤ 30 → IsOk result }
    {
        let bytes = name.as_bytes();
        let place = if bytes.len() <= SHORT_LEN {
            here(bytes)
        } else {
            Place::There(Vec::from_slice(alloc, bytes)?)
        };
        Ok(KeptName { place })
    }

    /// The bytes of the name, 1 to 255. Takes no memory.
    pub fn as_bytes(&self) -> &[u8]
        ensures value { result.now ≡ self.now }
        ensures name { IsName result.now }
    {
        match &self.place {
            Place::Here { len, bytes } => &bytes[..*len as usize],
            Place::There(bytes) => bytes.as_slice(),
        }
    }

    /// The same name where it lies in this value. Takes no memory.
    pub fn borrowed(&self) -> BorrowedName<'_>
        ensures { result ≡ self.now }
    {
        BorrowedName::of(self.as_bytes())
    }

    /// The same name, to be looked for. Takes no memory.
    pub fn sought(&self) -> SoughtName<'_>
        ensures { result ≡ self.now }
    {
        SoughtName::of(self.as_bytes())
    }

    /// The same name as a value of its own. Takes no memory.
    pub fn owned(&self) -> Name
        ensures { result ≡ self.now }
    {
        Name::of(self.as_bytes())
    }
}

/// These bytes, in the value itself.
fn here<A: Allocator>(bytes: &[u8]) -> Place<A>
    requires { length bytes.now ≤ 30 }
    ensures bytes { bytes_in result ≡ bytes.now }
    ensures placed { IsPlaced result }
{
    let mut room = [0; SHORT_LEN];
    room[..bytes.len()].copy_from_slice(bytes);
    Place::Here {
        len: bytes.len() as u8,
        bytes: room,
    }
}
