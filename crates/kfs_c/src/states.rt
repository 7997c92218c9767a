//! The state of a desk as bytes, and a desk from them.
ghost use Rattle.std.specs.Prelude.{◌≡◌, ◌↔◌, ◌≤◌, ◌<◌, ◌⊎◌, None, Some, IfErr, IfOk};
ghost use Rattle.kfs_call_desk.specs.Restore.Saved.{HasTooMany, IsSaved};
ghost use Rattle.kfs_call_desk.specs.declared.restore.fault.EncodeFault.TheVariants as encoding;
ghost use Rattle.kfs_c.specs.Holding.{HoldsNoDesk, OnDesk};
ghost use Rattle.kfs_c.specs.Opening.{IsRefusedAs};
ghost use Rattle.kfs_c.specs.States.{IsRestored, IsStateGiven, IsStateLonger, IsUnrestored, stateless_as, unleased_as, unrestored_as};
ghost use Rattle.kfs_c.specs.Loose.Status as status;
ghost use Rattle.kfs_c.specs.Submission.Told.{numbers};

use crate::bytes::hand_out;
use crate::fault_codes::{
    OPEN_LEASE, OPEN_STATE, ROW_LEASE_HELD, ROW_NO_SUCH_NODE, ROW_NOT_ASCENDING, ROW_PAST,
    ROW_UNKNOWN_CLIENT, STATE_HEADER, STATE_ROW,
};
use crate::handle::Handle;
use crate::held::Held;
use crate::loose::status::{DONE, NO_MEMORY, REFUSED};
use crate::on_desk;
use crate::opening::{Unopened, boxed, broken, misfit, tell, unbegun, unread};
use crate::slot::put_in;
use crate::submission::{FaultNumbers, fault};
use kfs_call::StateFault;
use kfs_call_desk::{EncodeFault, RestoreFault, encode_desk, restore_alone};
use kfs_desk::Desk;
use kfs_lease::LeaseRowFault;
use kfs_shape::ShapeFault;
use std::alloc::Global;

/// Writes the bytes of the desk's state into the front of the buffer: moment, clients, leases and image, without the
/// docket (docs/FORMATS.md). `len` tells how many there are, also where the buffer is too short for them (`SHORT`).
/// `REFUSED` where clients or leases are 2^32 or more, or a client has more groups than a client may have.
#[unsafe(no_mangle)]
pub extern "C" fn kfs_state(
    alloc: Global,
    handle: &mut Handle,
    buffer: &mut [u8],
    len: &mut usize,
) -> u32
    ensures given { result ≡ status.done → OnDesk handle.old.value (IsStateGiven buffer.old buffer.new len.new) }
    ensures short { result ≡ status.short → OnDesk handle.old.value (IsStateLonger buffer.old len.new) }
    ensures refused { result ≡ status.refused → OnDesk handle.old.value (λ desk. HasTooMany desk.state) }
    ensures silent { 1 ≤ result → buffer.new ≡ buffer.old }
    ensures kept { handle.new.value ≡ handle.old.value }
    ensures closed { (result ≡ status.closed) ↔ (handle.old.value ≡ None) }
    ensures wrong { (result ≡ status.wrong_kind) ↔ HoldsNoDesk handle.old.value }
    ensures known { result ≤ status.wrong_kind }
    ensures only { result < status.closed → (result ≡ status.done) ⊎ (result ≡ status.no_memory) ⊎ (result ≡ status.refused) ⊎ (result ≡ status.short) }
{
    on_desk!(alloc, handle, &desk => give_state(alloc, desk, buffer, len))
}

fn give_state(alloc: Global, desk: &Desk<Global>, buffer: &mut [u8], len: &mut usize) -> u32
    ensures given { result ≡ status.done → IsStateGiven buffer.old buffer.new len.new desk.now }
    ensures short { result ≡ status.short → IsStateLonger buffer.old len.new desk.now }
    ensures refused { result ≡ status.refused → HasTooMany desk.now.state }
    ensures silent { 1 ≤ result → buffer.new ≡ buffer.old }
    ensures only { (result ≡ status.done) ⊎ (result ≡ status.no_memory) ⊎ (result ≡ status.refused) ⊎ (result ≡ status.short) }
{
    match state_of(alloc, desk) {
        Ok(bytes) => hand_out(bytes.as_slice(), buffer, len),
        Err(EncodeFault::TooMany) => REFUSED,
        Err(EncodeFault::OutOfMemory) => NO_MEMORY,
    }
}

/// The bytes of the desk's state.
fn state_of(alloc: Global, desk: &Desk<Global>) -> Result<Vec<u8, Global>, EncodeFault>
    ensures saved { IfOk result (λ bytes. IsSaved desk.now.state bytes.items) }
    ensures refused { IfErr result (λ fault. (fault ≡ encoding.OutOfMemory) ⊎ ((fault ≡ encoding.TooMany) × HasTooMany desk.now.state)) }
{
    encode_desk(alloc, desk.image(), desk.clients(), desk.leases())
}

/// Has the handle hold a desk that goes on where another stood: its state is that of the bytes, as `kfs_state` gives
/// them. What it held is freed then; where no desk is restored, it is kept. The docket will have at most `limit` rows.
///
/// `REFUSED` with the first of these: a fault of code `OPEN_STATE` for bytes that are no state, `OPEN_IMAGE` for an
/// image that is none, `OPEN_RULE` for one that breaks a rule, `OPEN_CLIENT` for a client that can't be, `OPEN_LEASE`
/// for a lease that can't be, `OPEN_CLIENTS` for clients that can't be together.
#[unsafe(no_mangle)]
pub extern "C" fn kfs_restore(
    alloc: Global,
    handle: &mut Handle,
    bytes: &[u8],
    limit: u32,
    fault: &mut FaultNumbers,
) -> u32
    ensures restored { result ≡ status.done → OnDesk handle.new.value (IsRestored bytes.now limit) }
    ensures refused { result ≡ status.refused → IsUnrestored bytes.now fault.new }
    ensures unopened { 1 ≤ result → handle.new.value ≡ handle.old.value }
    ensures silent { result ≤ status.no_memory → fault.new ≡ fault.old }
    ensures only { (result ≡ status.done) ⊎ (result ≡ status.no_memory) ⊎ (result ≡ status.refused) }
{
    match restore(alloc, bytes, limit) {
        Ok(held) => {
            put_in(alloc, handle, held);
            DONE
        }
        Err(why) => tell(why, fault),
    }
}

/// A desk of the bytes.
#[tactic(auto, using(crate::proofs::Restoring::unrestored))]
fn restore(alloc: Global, bytes: &[u8], limit: u32) -> Result<Box<Held, Global>, Unopened>
    ensures restored { IfOk result (λ held. OnDesk (Some held.value) (IsRestored bytes.now limit)) }
    ensures refused { IfErr result (IsRefusedAs (IsUnrestored bytes.now)) }
{
    match restore_alone(alloc, bytes, limit) {
        Ok(desk) => boxed(alloc, desk),
        Err(why) => Err(unrestored(why)),
    }
}

/// Why no desk is restored.
fn unrestored(why: RestoreFault) -> Unopened
    ensures { result ≡ unrestored_as why }
{
    match why {
        RestoreFault::BadState(found) => stateless(found),
        RestoreFault::BadImage(found) => unread(found),
        RestoreFault::BrokenRule(finding) => broken(ShapeFault::Found(finding)),
        RestoreFault::BadClient(index, found) => Unopened::Refused(misfit(index, found)),
        RestoreFault::BadLease(found) => unleased(found),
        RestoreFault::BadClients(found) => unbegun(found),
        RestoreFault::OutOfMemory => Unopened::NoMemory,
    }
}

/// Why bytes are no state.
fn stateless(found: StateFault) -> Unopened
    ensures { result ≡ stateless_as found }
{
    match found {
        StateFault::BadHeader => Unopened::Refused(fault(OPEN_STATE, STATE_HEADER, 0, 0)),
        StateFault::BadRow(part, index) => Unopened::Refused(fault(
            OPEN_STATE,
            STATE_ROW,
            u64::from(index),
            u32::from(part),
        )),
        StateFault::OutOfMemory => Unopened::NoMemory,
    }
}

/// Why a row is no lease.
pub(crate) fn unleased(found: LeaseRowFault) -> Unopened
    ensures { result ≡ unleased_as found }
{
    match found {
        LeaseRowFault::UnknownClient(index) => bad_lease(ROW_UNKNOWN_CLIENT, index),
        LeaseRowFault::NoSuchNode(index) => bad_lease(ROW_NO_SUCH_NODE, index),
        LeaseRowFault::Past(index) => bad_lease(ROW_PAST, index),
        LeaseRowFault::NotAscending(index) => bad_lease(ROW_NOT_ASCENDING, index),
        LeaseRowFault::LeaseHeld(index) => bad_lease(ROW_LEASE_HELD, index),
        LeaseRowFault::OutOfMemory => Unopened::NoMemory,
    }
}

/// The fault of the lease of this index.
fn bad_lease(reason: u32, index: usize) -> Unopened
    ensures { result ≡ Unopened.Refused (numbers 7 reason index 0) }
{
    Unopened::Refused(fault(OPEN_LEASE, reason, index as u64, 0))
}
