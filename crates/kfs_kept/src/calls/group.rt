//! The bytes of a group: calls with their answers. The crate's head has the format.
ghost use Rattle.std.specs.Prelude.{◌≡◌, ◌≤◌, ◌+◌, ◌++◌, ℕ, List, length, option_map, vec_capacity};
ghost use Rattle.kfs_call.specs.Call.{IsLong, long_bytes};
ghost use Rattle.kfs_call.specs.Readers.{long_read};
ghost use Rattle.kfs_kept.specs.Calls.Group.{CallAndAnswer, IsBrief, IsKept, brief_bytes, brief_read, kept_bytes, kept_read, kept_shown};

use kfs_entry::codec::{byte, bytes, number32};
use std::alloc::Allocator;

/// A call and its answer as bytes, as they stand in a group.
#[derive(Clone, Copy, Debug)]
pub struct KeptCall<'a> {
    pub call: &'a [u8],
    /// Without its first four bytes, which are its position.
    pub answer: &'a [u8],
}

/// The first call of a group, and what stands behind it. None where the bytes don't begin with a whole one.
#[tactic(auto, unfolding(crate::specs::Calls::Group::kept_read))]
pub fn first_call(source: &[u8]) -> Option<(KeptCall<'_>, &[u8])>
    ensures { option_map {U = CallAndAnswer × List ℕ} (λ x. (kept_shown x.0, x.1.now)) result ≡ kept_read source.now }
{
    let (call, behind) = long_run(source)?;
    let (answer, rest) = brief_run(behind)?;
    Some((KeptCall { call, answer }, rest))
}

/// The bytes behind a length, and what stands behind them.
#[tactic(auto, unfolding(kfs_call::specs::Readers::long_read))]
fn long_run(source: &[u8]) -> Option<(&[u8], &[u8])>
    ensures { option_map (λ x. (x.0.now, x.1.now)) result ≡ long_read source.now }
{
    let (len, at) = number32::read(source, 0)?;
    let (run, end) = bytes::run(source, at, len as usize)?;
    Some((run, &source[end..]))
}

/// The bytes behind a length of one byte, and what stands behind them.
#[tactic(auto, unfolding(crate::specs::Calls::Group::brief_read))]
fn brief_run(source: &[u8]) -> Option<(&[u8], &[u8])>
    ensures { option_map (λ x. (x.0.now, x.1.now)) result ≡ brief_read source.now }
{
    let (len, at) = byte::read(source, 0)?;
    let (run, end) = bytes::run(source, at, len as usize)?;
    Some((run, &source[end..]))
}

/// Appends a call to a group that has room for it, so no memory is taken. Conditions: the call has fewer than 2^32 bytes,
/// and the answer fewer than 256.
pub fn push_call<A: Allocator>(group: &mut Vec<u8, A>, kept: &KeptCall<'_>)
    requires kept { IsKept (kept_shown kept.now) }
    requires room { length group.old.items + (5 + length kept.now.call.now + length kept.now.answer.now) ≤ vec_capacity group.old }
    ensures pushed { group.new.items ≡ group.old.items ++ kept_bytes (kept_shown kept.now) }
    ensures len { length group.new.items ≡ length group.old.items + (5 + length kept.now.call.now + length kept.now.answer.now) }
    ensures capacity { vec_capacity group.old ≤ vec_capacity group.new }
{
    push_long(group, kept.call);
    push_brief(group, kept.answer);
}

/// Appends bytes behind their length.
#[tactic(auto, unfolding(kfs_model::specs::Spelling::number32))]
fn push_long<A: Allocator>(group: &mut Vec<u8, A>, value: &[u8])
    requires long { IsLong value.now }
    requires room { length group.old.items + (4 + length value.now) ≤ vec_capacity group.old }
    ensures pushed { group.new.items ≡ group.old.items ++ long_bytes value.now }
    ensures len { length group.new.items ≡ length group.old.items + (4 + length value.now) }
    ensures capacity { vec_capacity group.old ≤ vec_capacity group.new }
{
    append(group, &(value.len() as u32).to_be_bytes());
    append(group, value);
}

/// Appends bytes behind a length of one byte.
fn push_brief<A: Allocator>(group: &mut Vec<u8, A>, value: &[u8])
    requires brief { IsBrief value.now }
    requires room { length group.old.items + (1 + length value.now) ≤ vec_capacity group.old }
    ensures pushed { group.new.items ≡ group.old.items ++ brief_bytes value.now }
    ensures len { length group.new.items ≡ length group.old.items + (1 + length value.now) }
    ensures capacity { vec_capacity group.old ≤ vec_capacity group.new }
{
    append(group, &[value.len() as u8]);
    append(group, value);
}

/// Appends bytes for which there is room.
fn append<A: Allocator>(group: &mut Vec<u8, A>, bytes: &[u8])
    requires { length group.old.items + length bytes.now ≤ vec_capacity group.old }
    ensures items { group.new.items ≡ group.old.items ++ bytes.now }
    ensures len { length group.new.items ≡ length group.old.items + length bytes.now }
    ensures capacity { vec_capacity group.old ≤ vec_capacity group.new }
{
    group.extend_from_slice(bytes).unwrap();
}
