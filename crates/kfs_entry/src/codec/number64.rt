//! A number of 8 bytes, big-endian.
ghost use Rattle.std.specs.Prelude.{◌≡◌, ◌≤◌, ◌++◌, length, drop, IfSome, OnOk};
ghost use Rattle.kfs_model.specs.Spelling.{number64};
ghost use Rattle.kfs_model.proofs.Reading.{number64_read};
ghost use Rattle.kfs_entry.specs.Codec.Reading.{seen};

use crate::codec::bytes::chunk;
use std::alloc::{AllocError, Allocator};

/// The field at position `at`, and the position after it; none where no such field is there.
#[tactic(auto, unfolding(kfs_model::proofs::Reading::number64_read))]
pub fn read(source: &[u8], at: usize) -> Option<(u64, usize)>
    requires { at ≤ length source.now }
    ensures value { seen (λ n. n) source.now result ≡ number64_read (drop at source.now) }
    ensures within { IfSome result (λ x. x.1 ≤ length source.now) }
{
    let (bytes, at) = chunk::<8>(source, at)?;
    Some((u64::from_be_bytes(*bytes), at))
}

/// Appends the bytes of the value. `Err` where memory runs out.
#[tactic(auto, unfolding(kfs_model::specs::Spelling::number64))]
pub fn write<A: Allocator>(
    out: &mut Vec<u8, A>,
    _source: &[u8],
    value: &u64,
) -> Result<(), AllocError>
    ensures { OnOk result (out.new.items ≡ out.old.items ++ number64 value.now) }
{
    out.extend_from_slice(&value.to_be_bytes())
}

/// How many bytes the value has.
#[tactic(auto, unfolding(kfs_model::specs::Spelling::number64))]
pub fn len(_source: &[u8], value: &u64) -> usize
    ensures { result ≡ length (number64 value.now) }
{
    8
}
