//! A number of 2 bytes, big-endian.
ghost use Rattle.std.specs.Prelude.{◌≡◌, ◌≤◌, ◌++◌, length, drop, IfSome, OnOk};
ghost use Rattle.kfs_model.specs.Spelling.{number16};
ghost use Rattle.kfs_model.proofs.Reading.{number16_read};
ghost use Rattle.kfs_entry.specs.Codec.Reading.{seen};

use crate::codec::bytes::chunk;
use std::alloc::{AllocError, Allocator};

/// The field at position `at`, and the position after it; none where no such field is there.
#[tactic(auto, unfolding(kfs_model::proofs::Reading::number16_read))]
pub fn read(source: &[u8], at: usize) -> Option<(u16, usize)>
    requires { at ≤ length source.now }
    ensures value { seen (λ n. n) source.now result ≡ number16_read (drop at source.now) }
    ensures within { IfSome result (λ x. x.1 ≤ length source.now) }
{
    let (bytes, at) = chunk::<2>(source, at)?;
    Some((u16::from_be_bytes(*bytes), at))
}

/// Appends the bytes of the value. `Err` where memory runs out.
#[tactic(auto, unfolding(kfs_model::specs::Spelling::number16))]
pub fn write<A: Allocator>(
    out: &mut Vec<u8, A>,
    _source: &[u8],
    value: &u16,
) -> Result<(), AllocError>
    ensures { OnOk result (out.new.items ≡ out.old.items ++ number16 value.now) }
{
    out.extend_from_slice(&value.to_be_bytes())
}

/// How many bytes the value has.
#[tactic(auto, unfolding(kfs_model::specs::Spelling::number16))]
pub fn len(_source: &[u8], value: &u16) -> usize
    ensures { result ≡ length (number16 value.now) }
{
    2
}
