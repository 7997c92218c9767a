//! Calls as bytes.
ghost use Rattle.std.specs.Prelude.{◌≡◌, ◌++◌, IfOk, OnOk};
ghost use Rattle.kfs_call.specs.Call.{IsCall, call_bytes};
ghost use Rattle.kfs_call.specs.Views.{call_shown};

use crate::call::Call;
use crate::codec::{lease_kind, long, moved, short};
use kfs_entry::codec::{number16, number32, number64};
use std::alloc::{AllocError, Allocator};

/// The length of a call's encoding in bytes.
fn call_len<B: Allocator>(call: &Call<'_, B>) -> usize {
    match call {
        Call::Submit { log, plan, .. } => log.len().saturating_add(plan.len()).saturating_add(13),
        Call::Lease { path, .. } => path.len().saturating_add(16),
        Call::Drop { .. } | Call::Tick { .. } => 9,
        Call::Migrate { moves } => moves.as_slice().len().saturating_mul(13).saturating_add(3),
        Call::LeaseAt { .. } => 18,
    }
}

/// Appends the bytes of a call. `Err` where memory runs out.
fn write_call<A: Allocator, B: Allocator>(
    out: &mut Vec<u8, A>,
    call: &Call<'_, B>,
) -> Result<(), AllocError>
    requires { IsCall (call_shown call.now) }
    ensures { OnOk result (out.new.items ≡ out.old.items ++ call_bytes (call_shown call.now)) }
{
    match call {
        Call::Submit { client, log, plan } => {
            out.push(1)?;
            number32::write(out, &[], client)?;
            long::write(out, log)?;
            long::write(out, plan)
        }
        Call::Lease {
            client,
            kind,
            end,
            path,
        } => {
            out.push(2)?;
            number32::write(out, &[], client)?;
            lease_kind::write(out, *kind)?;
            number64::write(out, &[], end)?;
            short::write(out, path)
        }
        Call::Drop { client, number } => {
            out.push(3)?;
            number32::write(out, &[], client)?;
            number32::write(out, &[], number)
        }
        Call::Tick { moment } => {
            out.push(4)?;
            number64::write(out, &[], moment)
        }
        Call::Migrate { moves } => {
            let moves = moves.as_slice();
            out.push(5)?;
            number16::write(out, &[], &(moves.len() as u16))?;
            moved::write(out, moves)
        }
        Call::LeaseAt {
            client,
            kind,
            end,
            number,
        } => {
            out.push(6)?;
            number32::write(out, &[], client)?;
            lease_kind::write(out, *kind)?;
            number64::write(out, &[], end)?;
            number32::write(out, &[], number)
        }
    }
}

/// Writes a call as bytes.
///
/// Condition: log and plan each have fewer than 2^32 bytes, a path fewer than 2^16, and there are fewer
/// than 2^16 moves. Takes memory for the bytes; `Err` where it is refused.
pub fn encode_call<A: Allocator, B: Allocator>(
    alloc: A,
    call: &Call<'_, B>,
) -> Result<Vec<u8, A>, AllocError>
    requires { IsCall (call_shown call.now) }
    ensures { IfOk result (λ bytes. bytes.items ≡ call_bytes (call_shown call.now)) }
{
    let mut out = Vec::with_capacity(alloc, call_len(call))?;
    write_call(&mut out, call)?;
    Ok(out)
}
