//! Names where they lie in other bytes.
ghost use Rattle.std.specs.Prelude.{◌≡◌, ◌↔◌, ◌≤◌, IsSome, IsOk, IfOk, IfSome, Some, length, nat_eq, refl, ⊤};
ghost use Rattle.std.specs.Ordering.{nat_cmp};
ghost use Rattle.std.specs.Cmp.{partial_equiv_from_equiv};
ghost use Rattle.std.specs.Cmp.Lexicographic.{pointwise, slice_cmp, nat_list_eq_equiv, nat_list_cmp_total, texts_po, texts_ties};

use crate::kept_name::KeptName;
use crate::name::Name;
use crate::sought_name::SoughtName;
use std::alloc::{AllocError, Allocator};
use std::cmp::Ordering;
use std::fmt;
use std::marker::Model;

/// A name in a directory where it lies in other bytes, those of a log or of a plan. So it is 16 bytes
/// long, and a name is 256. For contracts it is its bytes, as a `Name` is, and the order is the same.
#[derive(Drop)]
pub struct BorrowedName<'s> {
    bytes: &'s [u8],
}

impl<'s> Model for BorrowedName<'s> {
    ghost use Rattle.std.specs.Prelude.{ℕ, List};
    ghost use Rattle.kfs_model.specs.Spelling.{IsName};

    ghost Value = { List ℕ };

    ghost view = { λ n. n.bytes.now };

    ghost invariant = { λ n. IsName n.bytes.now };
}

// Written out, since a derived clone doesn't say that the copy equals the name.
impl<'s> Clone for BorrowedName<'s> {
    ghost is_clone = { λ name copy. copy ≡ name };

    ghost is_infallible = { λ name. ⊤ };

    fn clone(&self) -> Result<Self, AllocError> {
        Ok(self.again())
    }
}

impl<'s> PartialEq for BorrowedName<'s> {
    ghost eq = { pointwise nat_eq };

    ghost laws = { partial_equiv_from_equiv nat_list_eq_equiv };

    fn eq(&self, other: &Self) -> bool {
        self.bytes == other.bytes
    }
}

impl<'s> Eq for BorrowedName<'s> {
    ghost laws = { nat_list_eq_equiv };
}

impl<'s> PartialOrd for BorrowedName<'s> {
    ghost partial_cmp = { λ a b. Some (slice_cmp nat_cmp a b) };

    ghost laws = { texts_po };

    fn partial_cmp(&self, other: &Self) -> Option<Ordering> {
        Some(self.cmp(other))
    }
}

impl<'s> Ord for BorrowedName<'s> {
    ghost cmp = { slice_cmp nat_cmp };

    ghost total = { nat_list_cmp_total };

    ghost matches_partial_cmp = { λ a b. refl };

    ghost matches_eq = { texts_ties };

    fn cmp(&self, other: &Self) -> Ordering {
        self.bytes.cmp(other.bytes)
    }
}

impl<'s> fmt::Debug for BorrowedName<'s> {
    fn fmt<W: fmt::Write>(&self, f: &mut fmt::Formatter<W>) -> fmt::Result {
        f.debug_tuple("BorrowedName").field(&self.bytes).finish()
    }
}

impl<'s> BorrowedName<'s> {
    ghost use Rattle.kfs_model.specs.Spelling.{IsName};

    /// The name that these bytes are, or none where they aren't one (`Name::new`). Takes no memory.
    pub fn new(bytes: &'s [u8]) -> Option<Self>
        ensures valid { IsSome result ↔ IsName bytes.now }
        ensures value { IfSome result (λ name. name ≡ bytes.now) }
    {
        if !Name::is_name(bytes) {
            return None;
        }
        Some(BorrowedName { bytes })
    }

    /// The name that these bytes are.
    pub(crate) fn of(bytes: &'s [u8]) -> Self
        requires { IsName bytes.now }
        ensures { result ≡ bytes.now }
    {
        BorrowedName { bytes }
    }

    /// The bytes of the name, 1 to 255. Takes no memory.
    pub fn as_bytes(&self) -> &'s [u8]
        ensures value { result.now ≡ self.now }
        ensures name { IsName result.now }
    {
        self.bytes
    }

    /// The same once more. Takes no memory.
    pub fn again(&self) -> Self
        ensures { result ≡ self.now }
    {
        BorrowedName { bytes: self.bytes }
    }

    /// The same name, to be kept (`KeptName::of`). `Err` where memory runs out.
    pub fn kept<A: Allocator>(&self, alloc: A) -> Result<KeptName<A>, AllocError>
        ensures name { IfOk result (λ kept. kept ≡ self.now) }
        ensures short { length self.now ≤ 30 → IsOk result }
    {
        KeptName::of(alloc, self)
    }

    /// The same name, to be looked for. Takes no memory.
    pub fn sought(&self) -> SoughtName<'s>
        ensures { result ≡ self.now }
    {
        SoughtName::of(self.bytes)
    }

    /// The same name as a value of its own. Takes no memory.
    pub fn owned(&self) -> Name
        ensures { result ≡ self.now }
    {
        Name::of(self.bytes)
    }
}
