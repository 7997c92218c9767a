//! Bytes behind four bytes with their count. They are read where they lie.
ghost use Rattle.std.specs.Prelude.{◌≡◌, ◌≤◌, ◌++◌, length, drop, IfSome, OnOk};
ghost use Rattle.kfs_entry.specs.Codec.Reading.{seen};
ghost use Rattle.kfs_call.specs.Call.{long_bytes, IsLong};
ghost use Rattle.kfs_call.specs.Readers.{long_read};

use kfs_entry::codec::{bytes, number32};
use std::alloc::{AllocError, Allocator};

/// The field at position `at`, and the position after it; none where no such field is there.
#[tactic(auto, unfolding(crate::specs::Readers::long_read))]
pub fn read(source: &[u8], at: usize) -> Option<(&[u8], usize)>
    requires { at ≤ length source.now }
    ensures value { seen (λ bytes. bytes.now) source.now result ≡ long_read (drop at source.now) }
    ensures within { IfSome result (λ x. x.1 ≤ length source.now) }
{
    let (len, at) = number32::read(source, at)?;
    let (front, end) = bytes::run(source, at, len as usize)?;
    Some((front, end))
}

/// Appends the bytes of the value. `Err` where memory runs out.
pub fn write<A: Allocator>(out: &mut Vec<u8, A>, value: &[u8]) -> Result<(), AllocError>
    requires { IsLong value.now }
    ensures { OnOk result (out.new.items ≡ out.old.items ++ long_bytes value.now) }
{
    number32::write(out, &[], &(value.len() as u32))?;
    out.extend_from_slice(value)
}
