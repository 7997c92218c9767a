//! A desk's state as bytes.
ghost use Rattle.std.specs.Prelude.{◌≡◌, ◌⊎◌, IfErr, IfOk};
ghost use Rattle.kfs_desk.specs.Machine.{state_at};
ghost use Rattle.kfs_call_desk.specs.Restore.Saved.{HasTooMany, IsSaved};

use crate::restore::fault::EncodeFault;
use crate::restore::rows::{client_rows, lease_rows, moment_in_range};
use kfs_call::{StateRows, encode_state};
use kfs_image::{Image, append_image};
use kfs_lease::Leases;
use kfs_mode::Client;
use kfs_types::RowList;
use std::alloc::Allocator;

/// The state that an image shows with these clients and leases, as the bytes of docs/FORMATS.md. What a desk answers
/// to `image`, `clients` and `leases` makes the bytes of that desk's state. A state has one encoding: images in
/// theirs, leases ascending by node and client, clients in their order.
///
/// Rows and bytes take memory from `alloc`; the bytes take theirs twice, for the rows and then for the image behind
/// them. Refused with `TooMany`, or with `OutOfMemory` where memory runs out. Nothing has changed then.
pub fn encode_desk<A: Allocator + Copy, B: Allocator + Copy>(
    alloc: B,
    image: &Image<A>,
    clients: &[Client],
    leases: &Leases<A>,
) -> Result<Vec<u8, B>, EncodeFault>
    ensures saved { IfOk result (λ bytes. IsSaved (state_at image.now clients.now leases.now) bytes.items) }
    ensures refused { IfErr result (λ fault. (fault ≡ EncodeFault.OutOfMemory) ⊎ ((fault ≡ EncodeFault.TooMany) × HasTooMany (state_at image.now clients.now leases.now))) }
{
    let listed = leases.rows()?;
    let clients = client_rows(alloc, clients)?;
    let rows = lease_rows(alloc, &listed)?;
    if clients.len() > u32::MAX as usize || rows.len() > u32::MAX as usize {
        return Err(EncodeFault::TooMany);
    }
    let state = StateRows {
        moment: moment_in_range(leases.moment()),
        clients: RowList::from_vec(clients),
        leases: RowList::from_vec(rows),
        image: &[],
    };
    let mut bytes = encode_state(alloc, &state)?;
    append_image(&mut bytes, image)?;
    Ok(bytes)
}
