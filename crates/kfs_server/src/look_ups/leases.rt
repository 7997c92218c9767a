//! The leases of one client, one behind another.
ghost use Rattle.std.specs.Prelude.{◌≡◌, ◌++◌, ◌≤◌, IfOk, OnOk, vec_len};
ghost use Rattle.kfs_call.specs.Call.{lease_kind_bytes};
ghost use Rattle.kfs_lease.specs.Rows.Rows.{kind_of};
ghost use Rattle.kfs_lease.specs.ShownLists.{row_shown, rows_shown};
ghost use Rattle.kfs_model.specs.Spelling.{byte};
ghost use Rattle.kfs_server.specs.LookUps.LookUp as asked;
ghost use Rattle.kfs_server.specs.LookUps.Found.{AreFirst, held_bytes};
ghost use Rattle.kfs_server.specs.Serving.Looking.{IsSought};

use crate::look_ups::found::{FOUND_LIMIT, Found, Listing};
use crate::replies::Refusal;
use kfs_desk::Desk;
use kfs_lease::{LeaseKind, LeaseRow};
use std::alloc::{AllocError, Allocator};

/// How many bytes a lease has: number, kind and end.
const LEASE_LEN: usize = 13;

/// The client's own leases on nodes from the number `first` on: as many as `limit` bytes hold, and `FOUND_LIMIT`. All of
/// them are live: a desk has no others.
///
/// It takes time and memory for these leases and one more, whatever others there are. `Err` where memory is refused.
pub fn found_leases<A: Allocator + Copy, B: Allocator>(
    alloc: B,
    desk: &Desk<A>,
    client: u32,
    first: u32,
    limit: u32,
) -> Result<Found<B>, Refusal>
    ensures { IsSought desk.now client (asked.Leases first limit) result }
{
    let room = (limit as usize).min(FOUND_LIMIT);
    let rows = desk.leases().rows_of(client, first, room / LEASE_LEN + 1)?;
    let listing = leases_in(alloc, &rows, room)?;
    Ok(Found::LeasesAre {
        more: listing.more,
        bytes: listing.bytes,
    })
}

/// Of these leases as many as so many bytes hold.
fn leases_in<B: Allocator>(
    alloc: B,
    rows: &[LeaseRow],
    room: usize,
) -> Result<Listing<B>, AllocError>
    ensures listing { IfOk result (λ it. AreFirst (rows_shown rows.now) room it.more it.bytes.items) }
    ensures within { IfOk result (λ it. vec_len it.bytes ≤ room) }
{
    let mut bytes = Vec::new(alloc);
    for row in rows {
        if room - bytes.len() < LEASE_LEN {
            return Ok(Listing { more: true, bytes });
        }
        push_lease(&mut bytes, row)?;
    }
    Ok(Listing { more: false, bytes })
}

/// Appends a lease of a known client.
#[tactic(auto, unfolding(kfs_model::specs::Spelling::number32, kfs_model::specs::Spelling::number64))]
fn push_lease<B: Allocator>(bytes: &mut Vec<u8, B>, row: &LeaseRow) -> Result<(), AllocError>
    ensures { OnOk result (bytes.new.items ≡ bytes.old.items ++ held_bytes (row_shown row.now)) }
{
    bytes.extend_from_slice(&row.number.to_be_bytes())?;
    bytes.push(kind_byte(row.kind))?;
    bytes.extend_from_slice(&row.end.to_be_bytes())?;
    Ok(())
}

/// The byte of a kind of leases.
fn kind_byte(kind: LeaseKind) -> u8
    ensures { byte result ≡ lease_kind_bytes (kind_of kind) }
{
    match kind {
        LeaseKind::Read => 0,
        LeaseKind::Write => 1,
    }
}
