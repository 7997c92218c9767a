//! A kind, as one byte: 0 for a file, 1 for a directory.
ghost use Rattle.std.specs.Prelude.{◌≡◌, ◌≤◌, ◌++◌, length, drop, IfSome, OnOk};
ghost use Rattle.kfs_model.specs.Spelling.{kind_bytes};
ghost use Rattle.kfs_types.specs.Views.{kind_of};
ghost use Rattle.kfs_model.proofs.Reading.{kind_read};
ghost use Rattle.kfs_entry.specs.Codec.Reading.{seen};

use crate::codec::byte;
use kfs_types::Kind;
use std::alloc::{AllocError, Allocator};

/// The field at position `at`, and the position after it; none where no such field is there.
#[tactic(auto, unfolding(kfs_model::proofs::Reading::kind_read))]
pub fn read(source: &[u8], at: usize) -> Option<(Kind, usize)>
    requires { at ≤ length source.now }
    ensures value { seen kind_of source.now result ≡ kind_read (drop at source.now) }
    ensures within { IfSome result (λ x. x.1 ≤ length source.now) }
{
    match byte::read(source, at)? {
        (0, at) => Some((Kind::File, at)),
        (1, at) => Some((Kind::Directory, at)),
        _ => None,
    }
}

/// Appends the bytes of the value. `Err` where memory runs out.
pub fn write<A: Allocator>(
    out: &mut Vec<u8, A>,
    _source: &[u8],
    value: &Kind,
) -> Result<(), AllocError>
    ensures { OnOk result (out.new.items ≡ out.old.items ++ kind_bytes (kind_of value.now)) }
{
    let byte = match value {
        Kind::File => 0,
        Kind::Directory => 1,
    };
    out.push(byte)?;
    Ok(())
}

/// How many bytes the value has.
pub fn len(_source: &[u8], value: &Kind) -> usize
    ensures { result ≡ length (kind_bytes (kind_of value.now)) }
{
    // For the prover: whichever kind it is, its encoding is one byte.
    let _kind = *value;
    1
}
