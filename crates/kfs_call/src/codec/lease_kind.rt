//! The kind of a lease, as one byte: 0 to read, 1 to write.
ghost use Rattle.std.specs.Prelude.{◌≡◌, ◌≤◌, ◌++◌, length, drop, IfSome, OnOk};
ghost use Rattle.kfs_entry.specs.Codec.Reading.{seen};
ghost use Rattle.kfs_call.specs.Call.{lease_kind_bytes};
ghost use Rattle.kfs_lease.specs.Rows.Rows.{kind_of};
ghost use Rattle.kfs_call.specs.Readers.{lease_kind_read};

use kfs_entry::codec::byte;
use kfs_lease::LeaseKind;
use std::alloc::{AllocError, Allocator};

/// The field at position `at`, and the position after it; none where no such field is there.
#[tactic(auto, unfolding(crate::specs::Readers::lease_kind_read))]
pub fn read(source: &[u8], at: usize) -> Option<(LeaseKind, usize)>
    requires { at ≤ length source.now }
    ensures value { seen kind_of source.now result ≡ lease_kind_read (drop at source.now) }
    ensures within { IfSome result (λ x. x.1 ≤ length source.now) }
{
    match byte::read(source, at)? {
        (0, at) => Some((LeaseKind::Read, at)),
        (1, at) => Some((LeaseKind::Write, at)),
        _ => None,
    }
}

/// Appends the bytes of the value. `Err` where memory runs out.
pub fn write<A: Allocator>(out: &mut Vec<u8, A>, value: LeaseKind) -> Result<(), AllocError>
    ensures { OnOk result (out.new.items ≡ out.old.items ++ lease_kind_bytes (kind_of value)) }
{
    let byte = match value {
        LeaseKind::Read => 0,
        LeaseKind::Write => 1,
    };
    out.push(byte)?;
    Ok(())
}

/// How many bytes the value has.
pub fn len(value: LeaseKind) -> usize
    ensures value { result ≡ length (lease_kind_bytes (kind_of value)) }
    ensures bound { result ≤ 1 }
{
    match value {
        LeaseKind::Read | LeaseKind::Write => 1,
    }
}
