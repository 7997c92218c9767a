//! A name: one byte with its length, then its bytes. It is held where it lies in the source.
ghost use Rattle.std.specs.Prelude.{◌≡◌, ◌≤◌, ◌++◌, length, drop, IfSome, OnOk};
ghost use Rattle.kfs_model.specs.Spelling.{name_bytes};
ghost use Rattle.kfs_model.proofs.Reading.{name_read};
ghost use Rattle.kfs_entry.specs.Codec.Reading.{seen};

use crate::codec::{byte, bytes};
use kfs_types::BorrowedName;
use std::alloc::{AllocError, Allocator};

/// The field at position `at`, and the position after it; none where no such field is there.
#[tactic(auto, using(kfs_model::proofs::NameTest::name_tests), unfolding(kfs_model::proofs::Reading::name_read))]
pub fn read(source: &[u8], at: usize) -> Option<(BorrowedName<'_>, usize)>
    requires { at ≤ length source.now }
    ensures value { seen (λ n. n) source.now result ≡ name_read (drop at source.now) }
    ensures within { IfSome result (λ x. x.1 ≤ length source.now) }
{
    let (len, at) = byte::read(source, at)?;
    let (bytes, at) = bytes::run(source, at, len as usize)?;
    Some((BorrowedName::new(bytes)?, at))
}

/// Appends the bytes of the value. `Err` where memory runs out.
pub fn write<A: Allocator>(
    out: &mut Vec<u8, A>,
    _source: &[u8],
    value: &BorrowedName<'_>,
) -> Result<(), AllocError>
    ensures { OnOk result (out.new.items ≡ out.old.items ++ name_bytes value.now) }
{
    let bytes = value.as_bytes();
    out.push(bytes.len() as u8)?;
    out.extend_from_slice(bytes)
}

/// How many bytes the value has.
pub fn len(_source: &[u8], value: &BorrowedName<'_>) -> usize
    ensures value { result ≡ length (name_bytes value.now) }
    ensures bound { result ≤ 256 }
{
    1 + value.as_bytes().len()
}
