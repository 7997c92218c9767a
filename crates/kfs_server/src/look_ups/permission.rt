//! Whether a client may ask.
ghost use Rattle.std.specs.Prelude.{◌≡◌, IfErr, IfOk, OnOk};
ghost use Rattle.kfs_mode.specs.Access.{permitted_by_state};
ghost use Rattle.kfs_server.specs.LookUps.LookUp as asked;
ghost use Rattle.kfs_server.specs.LookUps.LookUp.{IsLogOf, MayAsk};
ghost use Rattle.kfs_server.specs.LookUps.Views.{look_up_shown};
ghost use Rattle.kfs_server.specs.Serving.Looking.{IsTurnedAway};

use crate::look_ups::look_up::LookUp;
use crate::replies::Refusal;
use kfs_call::FRONT;
use kfs_desk::{Desk, DeskView};
use kfs_entry::decode_log;
use kfs_mode::{Access, AccessFault};
use std::alloc::{AllocError, Allocator};

/// Whether the look-up is the sender's to ask. What others may ask is asked where they are answered. `alloc` serves for
/// the entries of a log.
pub fn may_ask<B: Allocator>(alloc: B, look_up: &LookUp<'_>, from: u32) -> Result<(), Refusal>
    ensures may { OnOk result (MayAsk (look_up_shown look_up.now) from) }
    ensures turned_away { IfErr result (IsTurnedAway (look_up_shown look_up.now) from) }
{
    match look_up {
        LookUp::State | LookUp::Checkpoint => {
            if from == FRONT {
                Ok(())
            } else {
                Err(Refusal::NotYours)
            }
        }
        LookUp::Plan { log } => is_log_of(alloc, log, from),
        _ => Ok(()),
    }
}

/// Whether the bytes are a log of this client.
fn is_log_of<B: Allocator>(alloc: B, bytes: &[u8], client: u32) -> Result<(), Refusal>
    ensures own { OnOk result (IsLogOf client bytes.now) }
    ensures turned_away { IfErr result (IsTurnedAway (asked.Plan bytes.now) client) }
{
    let log = decode_log(alloc, bytes)?;
    if log.client == client {
        Ok(())
    } else {
        Err(Refusal::NotYours)
    }
}

/// What the desk's state permits the client to do with the node (`View::may_access`). `Err` where memory for the
/// view is refused.
pub fn permission_of<A: Allocator + Copy>(
    desk: &Desk<A>,
    access: Access,
    client: u32,
    number: u32,
) -> Result<Result<(), AccessFault>, AllocError>
    ensures { IfOk result (λ permission. permission ≡ permitted_by_state desk.now.state access client number) }
{
    let seen = DeskView::at(desk)?;
    let permission = seen.view().may_access(access, client, number);
    Ok(permission)
}
