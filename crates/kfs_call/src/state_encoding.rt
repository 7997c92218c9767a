//! States as bytes.
ghost use Rattle.std.specs.Prelude.{◌≡◌, ◌<◌, ◌^◌, length, IfOk};
ghost use Rattle.kfs_call.specs.StateRows.{state_bytes};
ghost use Rattle.kfs_call.specs.StateViews.{state_shown};

use crate::codec::state_header;
use crate::codec::state_header::StateHeader;
use crate::state::StateRows;
use kfs_entry::codec::{rows_len, write_rows};
use std::alloc::{AllocError, Allocator};

/// Writes a state as bytes: its rows, and then the image's bytes as they are.
///
/// Condition: there are fewer than 2^32 clients and fewer than 2^32 leases. Takes memory for the bytes;
/// `Err` where it is refused.
pub fn encode_state<A: Allocator, B: Allocator>(
    alloc: A,
    state: &StateRows<'_, B>,
) -> Result<Vec<u8, A>, AllocError>
    requires clients { length state.now.clients < 2 ^ 32 }
    requires leases { length state.now.leases < 2 ^ 32 }
    ensures { IfOk result (λ bytes. bytes.items ≡ state_bytes (state_shown state.now)) }
{
    let clients = state.clients.as_slice();
    let leases = state.leases.as_slice();
    let header = StateHeader {
        moment: state.moment,
        clients: clients.len() as u32,
        leases: leases.len() as u32,
    };
    let len = rows_len(&[], clients)
        .saturating_add(rows_len(&[], leases))
        .saturating_add(state.image.len())
        .saturating_add(state_header::LEN);
    let mut out = Vec::with_capacity(alloc, len)?;
    state_header::write(&mut out, header)?;
    write_rows(&mut out, &[], clients)?;
    write_rows(&mut out, &[], leases)?;
    out.extend_from_slice(state.image)?;
    Ok(out)
}
