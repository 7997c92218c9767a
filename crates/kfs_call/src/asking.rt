//! Whether frames make calls of their senders' own, decided before any call is made.
ghost use Rattle.std.specs.Prelude.{◌≡◌, IfOk};
ghost use Rattle.std.specs.List.{AllZip};
ghost use Rattle.kfs_call.specs.Asking.{IsDecided, IsDecidedFor, owner};
ghost use Rattle.kfs_call.specs.Views.{call_shown};

use crate::call::Call;
use crate::decoding::decode_call;
use crate::fault::FieldFault;
use crate::frame::{BodyFault, FRONT, Incoming};
use std::alloc::{AllocError, Allocator};

/// What is decided of the frame with this number.
#[derive(Clone, Copy)]
pub struct Decided<'a> {
    pub number: u32,
    pub what: Decision<'a>,
}

/// What is decided of a frame.
#[derive(Clone, Copy)]
pub enum Decision<'a> {
    /// Its body is a call of its sender's own, to be made.
    Make(&'a [u8]),
    /// Its body isn't kept.
    NotKept(BodyFault),
    /// Its body is no call.
    NoCall(FieldFault),
    /// Its body is a call of another client's than its sender, or the front's.
    NotYours,
}

/// Decides of each frame, in order. `alloc` serves the list of moves of a call, too. `Err` where memory for the decisions
/// is refused.
pub fn decide_all<A: Allocator, B: Allocator + Copy>(
    alloc: B,
    group: &[Incoming<A>],
) -> Result<Vec<Decided<'_>, B>, AllocError>
    ensures { IfOk result (λ decided. AllZip IsDecidedFor group.entry.now decided.items) }
{
    let mut decided = Vec::with_capacity(alloc, group.len())?;
    for incoming in group {
        decided.push(decide(alloc, incoming))?;
    }
    Ok(decided)
}

/// Decides of a frame.
fn decide<A: Allocator, B: Allocator>(alloc: B, incoming: &Incoming<A>) -> Decided<'_>
    ensures { IsDecidedFor incoming.entry.now result }
{
    let what = match &incoming.body {
        Ok(body) => decide_body(alloc, incoming.from, body),
        Err(fault) => Decision::NotKept(*fault),
    };
    Decided {
        number: incoming.number,
        what,
    }
}

/// Decides of a body.
fn decide_body<B: Allocator>(alloc: B, from: u32, body: &[u8]) -> Decision<'_>
    ensures { IsDecided from body.entry.now result }
{
    match decode_call(alloc, body) {
        Ok(call) if owner_of(&call) == from => Decision::Make(body),
        Ok(_) => Decision::NotYours,
        Err(fault) => Decision::NoCall(fault),
    }
}

/// Whose call it is: a client's, or the front's.
fn owner_of<B: Allocator>(call: &Call<'_, B>) -> u32
    ensures { result ≡ owner (call_shown call.now) }
{
    match call {
        Call::Submit { client, .. }
        | Call::Lease { client, .. }
        | Call::Drop { client, .. }
        | Call::LeaseAt { client, .. } => *client,
        Call::Tick { .. } | Call::Migrate { .. } => FRONT,
    }
}
