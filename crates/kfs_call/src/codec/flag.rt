//! A flag, as one byte: 0 for no, 1 for yes.
ghost use Rattle.std.specs.Prelude.{◌≡◌, ◌≤◌, ◌++◌, length, drop, IfSome, OnOk};
ghost use Rattle.kfs_entry.specs.Codec.Reading.{seen};
ghost use Rattle.kfs_call.specs.AnswerRow.{flag_bytes};
ghost use Rattle.kfs_call.specs.AnswerReaders.{flag_read};

use kfs_entry::codec::byte;
use std::alloc::{AllocError, Allocator};

/// The field at position `at`, and the position after it; none where no such field is there.
#[tactic(auto, unfolding(crate::specs::AnswerReaders::flag_read))]
pub fn read(source: &[u8], at: usize) -> Option<(bool, usize)>
    requires { at ≤ length source.now }
    ensures value { seen (λ flag. flag) source.now result ≡ flag_read (drop at source.now) }
    ensures within { IfSome result (λ x. x.1 ≤ length source.now) }
{
    match byte::read(source, at)? {
        (0, at) => Some((false, at)),
        (1, at) => Some((true, at)),
        _ => None,
    }
}

/// Appends the bytes of the value. `Err` where memory runs out.
pub fn write<A: Allocator>(out: &mut Vec<u8, A>, flag: bool) -> Result<(), AllocError>
    ensures { OnOk result (out.new.items ≡ out.old.items ++ flag_bytes flag) }
{
    if flag {
        out.push(1)?;
    } else {
        out.push(0)?;
    }
    Ok(())
}

/// How many bytes the value has.
pub fn len(flag: bool) -> usize
    ensures value { result ≡ length (flag_bytes flag) }
    ensures bound { result ≤ 1 }
{
    match flag {
        true | false => 1,
    }
}
