//! What a desk with other clients is made of: those that it had, and new ones.
ghost use Rattle.std.specs.Prelude.{◌≡◌, ◌⊎◌, ◌↔◌, Contains, IfErr, IfOk, IfSome, IsNone, IsTrue, None, Ok, OnOk};
ghost use Rattle.kfs_model.specs.Judgement.{State};
ghost use Rattle.kfs_desk.specs.Machine.{opened_at};
ghost use Rattle.kfs_desk.specs.Opening.{begin_fault};
ghost use Rattle.kfs_call_desk.specs.Restore.Restored.{RestoreAnswer};
ghost use Rattle.kfs_call_desk.specs.Restore.Saved.{HasTooMany, IsSaved};
ghost use Rattle.kfs_kept.specs.Admitting.{Admits, IsBefore, IsWhyNotBegun, IsWhyNotAdmitted, Keeps, begun_with, with_clients};

use crate::fault::{AdmitFault, SaveFault};
use crate::restored::laws::other_clients_are_restored;
use crate::restored::restore;
use kfs_call_desk::{EncodeFault, RestoreFault, encode_desk};
use kfs_desk::Desk;
use kfs_mode::Client;
use std::alloc::Allocator;
use std::thread::Threads;

/// A desk with other clients, and its state as bytes.
#[derive(Drop)]
pub struct Admission<A: Allocator> {
    pub desk: Desk<A>,
    pub state: Vec<u8, A>,
}

/// A desk that goes on from this one's state with these clients in place of its own. Its docket is empty, and will have at
/// most `limit` rows.
pub fn admission_of<A: Allocator + Copy>(
    rt: &(impl Threads + Sync),
    alloc: A,
    desk: &Desk<A>,
    clients: &[Client],
    limit: u32,
) -> Result<Admission<A>, AdmitFault>
    ensures admits { OnOk result (Admits desk.now.state.clients clients.now) }
    ensures desk { IfOk result (λ made. made.desk ≡ opened_at (with_clients desk.now.state clients.now) limit) }
    ensures saved { IfOk result (λ made. IsSaved (with_clients desk.now.state clients.now) made.state.items) }
    ensures restored { IfOk result (λ made. RestoreAnswer made.state.items (Ok (with_clients desk.now.state clients.now))) }
    ensures before { IfErr result IsBefore }
    ensures why { IfErr result (IsWhyNotAdmitted desk.now.state clients.now) }
{
    if let Some(client) = left_out(desk.clients(), clients) {
        return Err(AdmitFault::LeftOut(client.number()));
    }
    let state = state_with(alloc, desk, clients)?;
    let desk = desk_from(rt, alloc, &state, limit)?;
    Ok(Admission { desk, state })
}

/// Whether both are one list.
pub fn are_same(one: &[Client], other: &[Client]) -> bool
    ensures { IsTrue result ↔ (one.now ≡ other.now) }
{
    one == other
}

/// The first of the old clients that isn't among the new ones as it is.
fn left_out<'a>(old: &'a [Client], new: &[Client]) -> Option<&'a Client>
    ensures none { IsNone result → Keeps old.now new.now }
    ensures some { IfSome result (λ client. Contains old.now client.now × (Contains new.now client.now → ⊥)) }
{
    for client in old {
        if !new.contains(client) {
            return Some(client);
        }
    }
    None
}

/// The bytes of the desk's state with these clients in place of its own.
fn state_with<A: Allocator + Copy, B: Allocator + Copy>(
    alloc: B,
    desk: &Desk<A>,
    clients: &[Client],
) -> Result<Vec<u8, B>, EncodeFault>
    requires keeps { Keeps desk.now.state.clients clients.now }
    ensures saved { IfOk result (λ bytes. IsSaved (with_clients desk.now.state clients.now) bytes.items) }
    ensures restored { IfOk result (λ bytes. RestoreAnswer bytes.items (begun_with (with_clients desk.now.state clients.now))) }
    ensures refused { IfErr result (λ fault. (fault ≡ EncodeFault.OutOfMemory) ⊎ ((fault ≡ EncodeFault.TooMany) × HasTooMany (with_clients desk.now.state clients.now))) }
{
    other_clients_are_restored(desk, clients);
    let bytes = encode_desk(alloc, desk.image(), clients, desk.leases())?;
    Ok(bytes)
}

/// A desk of the state that the bytes come to, unless its clients can't be beside each other.
fn desk_from<A: Allocator + Copy>(
    rt: &(impl Threads + Sync),
    alloc: A,
    state: &[u8],
    limit: u32,
) -> Result<Desk<A>, AdmitFault>
    requires comes { (s : State) × RestoreAnswer state.now (begun_with s) }
    ensures desk { (s : State) → RestoreAnswer state.now (begun_with s) → IfOk result (λ desk. (desk ≡ opened_at s limit) × (begin_fault s.clients ≡ None)) }
    ensures why { (s : State) → RestoreAnswer state.now (begun_with s) → IfErr result (IsWhyNotBegun s.clients) }
{
    match restore(rt, alloc, state, limit) {
        Ok(desk) => Ok(desk),
        Err(fault) => match fault {
            RestoreFault::BadClients(why) => Err(AdmitFault::BadClients(why)),
            RestoreFault::OutOfMemory => Err(AdmitFault::Unsaved(SaveFault::OutOfMemory)),
            // The bytes are those of a state, but for its clients.
            _ => unreachable!(),
        },
    }
}
