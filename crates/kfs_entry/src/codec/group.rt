//! The group that an entry sets, as 4 bytes. A log of version 1 has no such field.
ghost use Rattle.std.specs.Prelude.{◌≡◌, ◌≤◌, ◌++◌, length, drop, IfSome, OnOk};
ghost use Rattle.kfs_model.specs.Spelling.{number32};
ghost use Rattle.kfs_model.proofs.Reading.{group_read};
ghost use Rattle.kfs_entry.specs.Codec.Reading.{seen};

use crate::codec::number32;
use std::alloc::{AllocError, Allocator};

/// The first version of logs that has groups.
const FIRST_VERSION: u8 = 2;

/// The field at position `at` of a log of this version, and the position after it; none where no such
/// field is there.
#[tactic(auto, unfolding(kfs_model::proofs::Reading::group_read))]
pub fn read(version: u8, source: &[u8], at: usize) -> Option<(u32, usize)>
    requires { at ≤ length source.now }
    ensures value { seen (λ n. n) source.now result ≡ group_read version (drop at source.now) }
    ensures within { IfSome result (λ x. x.1 ≤ length source.now) }
{
    if version < FIRST_VERSION {
        return None;
    }
    number32::read(source, at)
}

/// Appends the bytes of the value. `Err` where memory runs out.
pub fn write<A: Allocator>(
    out: &mut Vec<u8, A>,
    source: &[u8],
    value: &u32,
) -> Result<(), AllocError>
    ensures { OnOk result (out.new.items ≡ out.old.items ++ number32 value.now) }
{
    number32::write(out, source, value)
}

/// How many bytes the value has.
pub fn len(source: &[u8], value: &u32) -> usize
    ensures { result ≡ length (number32 value.now) }
{
    number32::len(source, value)
}
