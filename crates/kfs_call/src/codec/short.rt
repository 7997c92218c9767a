//! Bytes behind two bytes with their count. They are read where they lie.
ghost use Rattle.std.specs.Prelude.{◌≡◌, ◌≤◌, ◌++◌, length, drop, IfSome, OnOk};
ghost use Rattle.kfs_entry.specs.Codec.Reading.{seen};
ghost use Rattle.kfs_call.specs.Call.{short_bytes, IsShort};
ghost use Rattle.kfs_call.specs.Readers.{short_read};

use kfs_entry::codec::{bytes, number16};
use std::alloc::{AllocError, Allocator};

/// The field at position `at`, and the position after it; none where no such field is there.
#[tactic(auto, unfolding(crate::specs::Readers::short_read))]
pub fn read(source: &[u8], at: usize) -> Option<(&[u8], usize)>
    requires { at ≤ length source.now }
    ensures value { seen (λ bytes. bytes.now) source.now result ≡ short_read (drop at source.now) }
    ensures within { IfSome result (λ x. x.1 ≤ length source.now) }
{
    let (len, at) = number16::read(source, at)?;
    let (front, end) = bytes::run(source, at, len as usize)?;
    Some((front, end))
}

/// Appends the bytes of the value. `Err` where memory runs out.
pub fn write<A: Allocator>(out: &mut Vec<u8, A>, value: &[u8]) -> Result<(), AllocError>
    requires { IsShort value.now }
    ensures { OnOk result (out.new.items ≡ out.old.items ++ short_bytes value.now) }
{
    number16::write(out, &[], &(value.len() as u16))?;
    out.extend_from_slice(value)
}
