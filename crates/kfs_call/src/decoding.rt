//! Calls from bytes.
ghost use Rattle.std.specs.Prelude.{◌≡◌, ◌≤◌, length, drop, Ok, IfOk};
ghost use Rattle.kfs_call.specs.Call as spelled;
ghost use Rattle.kfs_call.specs.Call.{CallAnswer, IsCall, call_bytes};
ghost use Rattle.kfs_call.specs.Reading.{IsSeen, OnAnswer};
ghost use Rattle.kfs_call.specs.Views.{call_shown};
ghost use Rattle.kfs_call.specs.Readers.{submit_read, lease_read, drop_read, tick_read, migrate_read, lease_at_read, call_read};

use crate::call::Call;
use crate::codec::tag::Tag;
use crate::codec::{lease_kind, long, moved, short, tag};
use crate::fault::FieldFault;
use kfs_entry::codec::{number16, number32, number64};
use kfs_types::RowList;
use std::alloc::Allocator;

fn read_submit<A: Allocator>(source: &[u8], at: usize) -> Result<(Call<'_, A>, usize), FieldFault>
    requires { at ≤ length source.now }
    ensures value { IsSeen call_shown source.now result (submit_read (drop at source.now)) }
    ensures within { IfOk result (λ x. x.1 ≤ length source.now) }
{
    let Some((client, at)) = number32::read(source, at) else {
        return Err(FieldFault::BadField(1));
    };
    let Some((log, at)) = long::read(source, at) else {
        return Err(FieldFault::BadField(2));
    };
    let Some((plan, at)) = long::read(source, at) else {
        return Err(FieldFault::BadField(3));
    };
    Ok((Call::Submit { client, log, plan }, at))
}

fn read_lease<A: Allocator>(source: &[u8], at: usize) -> Result<(Call<'_, A>, usize), FieldFault>
    requires { at ≤ length source.now }
    ensures value { IsSeen call_shown source.now result (lease_read (drop at source.now)) }
    ensures within { IfOk result (λ x. x.1 ≤ length source.now) }
{
    let Some((client, at)) = number32::read(source, at) else {
        return Err(FieldFault::BadField(1));
    };
    let Some((kind, at)) = lease_kind::read(source, at) else {
        return Err(FieldFault::BadField(2));
    };
    let Some((end, at)) = number64::read(source, at) else {
        return Err(FieldFault::BadField(3));
    };
    let Some((path, at)) = short::read(source, at) else {
        return Err(FieldFault::BadField(4));
    };
    let call = Call::Lease {
        client,
        kind,
        end,
        path,
    };
    Ok((call, at))
}

fn read_drop<A: Allocator>(source: &[u8], at: usize) -> Result<(Call<'_, A>, usize), FieldFault>
    requires { at ≤ length source.now }
    ensures value { IsSeen call_shown source.now result (drop_read (drop at source.now)) }
    ensures within { IfOk result (λ x. x.1 ≤ length source.now) }
{
    let Some((client, at)) = number32::read(source, at) else {
        return Err(FieldFault::BadField(1));
    };
    let Some((number, at)) = number32::read(source, at) else {
        return Err(FieldFault::BadField(2));
    };
    Ok((Call::Drop { client, number }, at))
}

fn read_tick<A: Allocator>(source: &[u8], at: usize) -> Result<(Call<'_, A>, usize), FieldFault>
    requires { at ≤ length source.now }
    ensures value { IsSeen call_shown source.now result (tick_read (drop at source.now)) }
    ensures within { IfOk result (λ x. x.1 ≤ length source.now) }
{
    let Some((moment, at)) = number64::read(source, at) else {
        return Err(FieldFault::BadField(1));
    };
    Ok((Call::Tick { moment }, at))
}

fn read_migrate<A: Allocator>(
    alloc: A,
    source: &[u8],
    at: usize,
) -> Result<(Call<'_, A>, usize), FieldFault>
    requires { at ≤ length source.now }
    ensures value { IsSeen call_shown source.now result (migrate_read (drop at source.now)) }
    ensures within { IfOk result (λ x. x.1 ≤ length source.now) }
{
    let Some((count, at)) = number16::read(source, at) else {
        return Err(FieldFault::BadField(1));
    };
    let (moves, at) = moved::read(alloc, source, at, count)?;
    let moves = RowList::from_vec(moves);
    Ok((Call::Migrate { moves }, at))
}

fn read_lease_at<A: Allocator>(source: &[u8], at: usize) -> Result<(Call<'_, A>, usize), FieldFault>
    requires { at ≤ length source.now }
    ensures value { IsSeen call_shown source.now result (lease_at_read (drop at source.now)) }
    ensures within { IfOk result (λ x. x.1 ≤ length source.now) }
{
    let Some((client, at)) = number32::read(source, at) else {
        return Err(FieldFault::BadField(1));
    };
    let Some((kind, at)) = lease_kind::read(source, at) else {
        return Err(FieldFault::BadField(2));
    };
    let Some((end, at)) = number64::read(source, at) else {
        return Err(FieldFault::BadField(3));
    };
    let Some((number, at)) = number32::read(source, at) else {
        return Err(FieldFault::BadField(4));
    };
    let call = Call::LeaseAt {
        client,
        kind,
        end,
        number,
    };
    Ok((call, at))
}

/// A call at the front, and the position after it.
#[tactic(auto, unfolding(crate::specs::Readers::call_read))]
fn read_call<A: Allocator>(alloc: A, source: &[u8]) -> Result<(Call<'_, A>, usize), FieldFault>
    ensures value { IsSeen call_shown source.now result (call_read (drop 0 source.now)) }
    ensures within { IfOk result (λ x. x.1 ≤ length source.now) }
{
    let Some((tag, at)) = tag::read(source, 0) else {
        return Err(FieldFault::BadField(0));
    };
    match tag {
        Tag::Submit => read_submit(source, at),
        Tag::Lease => read_lease(source, at),
        Tag::Drop => read_drop(source, at),
        Tag::Tick => read_tick(source, at),
        Tag::Migrate => read_migrate(alloc, source, at),
        Tag::LeaseAt => read_lease_at(source, at),
    }
}

/// Reads a call from bytes. All of `source` must be the call.
///
/// Log, plan and path are slices of `source`, and nothing of them is looked at. The list of moves grows
/// from `alloc` as moves are read; no other call takes memory. Refused with `BadField(k)` or `Trailing`
/// where the bytes leave the format, and with `OutOfMemory` where memory runs out; nothing is kept then.
pub fn decode_call<A: Allocator>(alloc: A, source: &[u8]) -> Result<Call<'_, A>, FieldFault>
    // Soundness: the answer is right for these bytes.
    ensures found { OnAnswer call_shown (CallAnswer source.now) result }
    // Completeness: the bytes of a call are that call, unless memory runs out.
    ensures only { (call : spelled.Call) → IsCall call → source.now ≡ call_bytes call → OnAnswer call_shown (λ given. given ≡ Ok call) result }
{
    let (call, end) = read_call(alloc, source)?;
    if end < source.len() {
        return Err(FieldFault::Trailing);
    }
    Ok(call)
}
