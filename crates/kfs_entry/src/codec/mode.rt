//! The mode that an entry sets, as two bytes: 0 to 0o777 in a log of version 1, 0 to 0o1777 in one of
//! version 2.
ghost use Rattle.std.specs.Prelude.{◌≡◌, ◌≤◌, ◌++◌, length, drop, IfSome, OnOk};
ghost use Rattle.kfs_model.specs.Spelling.{number16, greatest_mode_of};
ghost use Rattle.kfs_model.proofs.Reading.{mode_read};
ghost use Rattle.kfs_entry.specs.Codec.Reading.{seen};

use crate::codec::number16;
use kfs_types::{GREATEST_MODE, GREATEST_MODE_OF_VERSION_1};
use std::alloc::{AllocError, Allocator};

/// The greatest mode in a log of this version.
fn greatest_of(version: u8) -> u16
    ensures { result ≡ greatest_mode_of version }
{
    if version == 1 {
        GREATEST_MODE_OF_VERSION_1
    } else {
        GREATEST_MODE
    }
}

/// The field at position `at` of a log of this version, and the position after it; none where no such
/// field is there.
#[tactic(auto, unfolding(kfs_model::proofs::Reading::mode_read))]
pub fn read(version: u8, source: &[u8], at: usize) -> Option<(u16, usize)>
    requires { at ≤ length source.now }
    ensures value { seen (λ n. n) source.now result ≡ mode_read version (drop at source.now) }
    ensures within { IfSome result (λ x. x.1 ≤ length source.now) }
{
    let (mode, at) = number16::read(source, at)?;
    if mode > greatest_of(version) {
        return None;
    }
    Some((mode, at))
}

/// Appends the bytes of the value. `Err` where memory runs out.
pub fn write<A: Allocator>(
    out: &mut Vec<u8, A>,
    source: &[u8],
    value: &u16,
) -> Result<(), AllocError>
    ensures { OnOk result (out.new.items ≡ out.old.items ++ number16 value.now) }
{
    number16::write(out, source, value)
}

/// How many bytes the value has.
pub fn len(source: &[u8], value: &u16) -> usize
    ensures { result ≡ length (number16 value.now) }
{
    number16::len(source, value)
}
