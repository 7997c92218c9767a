//! Supplementary groups: one byte with their count, at most 16, then each as 4 bytes.
ghost use Rattle.std.specs.Prelude.{◌≡◌, ◌≤◌, ◌++◌, length, drop, IfSome, OnOk};
ghost use Rattle.std.specs.List.{flat_map};
ghost use Rattle.kfs_entry.specs.Codec.Reading.{seen};
ghost use Rattle.kfs_model.specs.Spelling.{number32};
ghost use Rattle.kfs_call.specs.StateRows.{groups_bytes};
ghost use Rattle.kfs_model.proofs.Reading.{number32_read};
ghost use Rattle.kfs_call.specs.Readers.{rows_at};
ghost use Rattle.kfs_call.specs.StateReaders.{groups_read, some_read};

use arrayvec::ArrayVec;
use kfs_entry::codec::{byte, number32};
use kfs_mode::GROUP_LIMIT;
use std::alloc::{AllocError, Allocator};

/// So many groups from position `at` on, and the position after the last; none where fewer are there.
fn read_each(source: &[u8], at: usize, count: u8) -> Option<(ArrayVec<u32, GROUP_LIMIT>, usize)>
    requires at { at ≤ length source.now }
    requires few { count ≤ 16 }
    ensures value { seen (λ groups. groups.items) source.now result ≡ some_read (rows_at number32_read 0 count (drop at source.now)) }
    ensures within { IfSome result (λ x. x.1 ≤ length source.now) }
{
    let mut groups = ArrayVec::new();
    let mut end = at;
    for k in 0..count {
        let Some((group, after)) = number32::read(source, end) else {
            return None;
        };
        groups.push(group);
        end = after;
    }
    Some((groups, end))
}

/// The field at position `at`, and the position after it; none where no such field is there.
#[tactic(auto, unfolding(crate::specs::StateReaders::groups_read))]
pub fn read(source: &[u8], at: usize) -> Option<(ArrayVec<u32, GROUP_LIMIT>, usize)>
    requires { at ≤ length source.now }
    ensures value { seen (λ groups. groups.items) source.now result ≡ groups_read (drop at source.now) }
    ensures within { IfSome result (λ x. x.1 ≤ length source.now) }
{
    let (count, at) = byte::read(source, at)?;
    if count > 16 {
        return None;
    }
    read_each(source, at, count)
}

/// Appends the bytes of the groups, without their count. `Err` where memory runs out.
fn write_each<A: Allocator>(out: &mut Vec<u8, A>, groups: &[u32]) -> Result<(), AllocError>
    ensures { OnOk result (out.new.items ≡ out.old.items ++ flat_map number32 groups.now) }
{
    for group in groups {
        number32::write(out, &[], group)?;
    }
    Ok(())
}

/// Appends the bytes of the value. `Err` where memory runs out.
pub fn write<A: Allocator>(
    out: &mut Vec<u8, A>,
    groups: &ArrayVec<u32, GROUP_LIMIT>,
) -> Result<(), AllocError>
    ensures { OnOk result (out.new.items ≡ out.old.items ++ groups_bytes groups.now.items) }
{
    let groups = groups.as_slice();
    out.push(groups.len() as u8)?;
    write_each(out, groups)
}

/// How many bytes the value has.
#[tactic(auto, unfolding(kfs_model::specs::Spelling::number32))]
pub fn len(groups: &ArrayVec<u32, GROUP_LIMIT>) -> usize
    ensures value { result ≡ length (groups_bytes groups.now.items) }
    ensures bound { result ≤ 65 }
{
    1 + 4 * groups.as_slice().len()
}
