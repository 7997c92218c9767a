//! A desk from the bytes of a state.
ghost use Rattle.std.specs.Prelude.{◌≡◌, IfErr, IfOk, None, Result, map};
ghost use Rattle.kfs_model.specs.Judgement.{State};
ghost use Rattle.kfs_model.specs.Table.{get};
ghost use Rattle.kfs_model.specs.Device.Finding.{IsWellFormed};
ghost use Rattle.kfs_model.specs.Device.RawImage.{image_of};
ghost use Rattle.kfs_image.specs.Codec.RawImages.{raw_of};
ghost use Rattle.kfs_lease.specs.LeaseLists.{AreLawful, fault_of_rows, listed_leases};
ghost use Rattle.kfs_call.specs.StateViews.{lease_shown, state_shown};
ghost use Rattle.kfs_desk.specs.Machine.{opened_at, state_at};
ghost use Rattle.kfs_desk.specs.Opening.{begin_fault};
ghost use Rattle.kfs_call_desk.specs.Restore.Restored as model;
ghost use Rattle.kfs_call_desk.specs.Restore.Restored.{RestoreAnswer, begin_refusal, leases_at, leases_refusal, rule_refusal, verdict};
ghost use Rattle.kfs_call_desk.specs.Restore.Told.{IsRefusedFor, OnRestored, rule_told};

use crate::restore::fault::RestoreFault;
use crate::restore::rows::{clients_of, leases_of};
use kfs_call::{LeaseRow, StateRows, decode_state};
use kfs_desk::{BeginFault, Desk};
use kfs_image::{Image, InTurn, RawImage, SortUplinks, decode_image};
use kfs_lease::{LeaseRowFault, Leases};
use kfs_mode::Client;
use kfs_shape::{AskRows, ShapeFault, check_keeping};
use std::alloc::Allocator;

/// The image of rows, if they break no rule.
#[tactic(auto, using(crate::proofs::RestoreLemmas::ReadFaults::rule_refused))]
fn image_from<A: Allocator + Copy, T: AskRows + SortUplinks>(
    ask: &T,
    alloc: A,
    raw: RawImage<A>,
) -> Result<Image<A>, RestoreFault>
    requires can_ask { T.can_ask ask.now }
    requires can_sort { T.can_sort ask.now }
    ensures well_formed { IfOk result (λ image. IsWellFormed (raw_of raw)) }
    ensures image { IfOk result (λ image. image ≡ image_of (raw_of raw)) }
    ensures err { IfErr result (IsRefusedFor (rule_refusal (raw_of raw))) }
{
    match check_keeping(alloc, &raw, ask) {
        Ok(headers) => match Image::from_raw_with(alloc, ask, raw, headers) {
            Ok(image) => Ok(image),
            Err(_) => Err(RestoreFault::OutOfMemory),
        },
        Err(found) => Err(broken(found)),
    }
}

/// Which rule an image breaks.
fn broken(found: ShapeFault) -> RestoreFault
    ensures { result ≡ rule_told found }
{
    match found {
        ShapeFault::Found(finding) => RestoreFault::BrokenRule(finding),
        ShapeFault::OutOfMemory => RestoreFault::OutOfMemory,
    }
}

/// The leases of the rows at a moment.
fn leases_from<A: Allocator + Copy>(
    alloc: A,
    image: &Image<A>,
    clients: &[Client],
    rows: &[LeaseRow],
    moment: u64,
) -> Result<Leases<A>, RestoreFault>
    ensures leases { IfOk result (λ leases. leases ≡ leases_at moment (map lease_shown rows.now)) }
    ensures lawful { IfOk result (λ leases. AreLawful clients.now (get image.now.heads) leases) }
    ensures fit { IfOk result (λ leases. leases_refusal clients.now image.now.heads moment (map lease_shown rows.now) ≡ None) }
    ensures err { IfErr result (IsRefusedFor (leases_refusal clients.now image.now.heads moment (map lease_shown rows.now))) }
{
    let rows = leases_of(alloc, rows)?;
    match Leases::from_rows(alloc, image.shape(), clients, &rows, moment) {
        Ok(leases) => Ok(leases),
        Err(fault) => match fault {
            LeaseRowFault::OutOfMemory => Err(RestoreFault::OutOfMemory),
            why => Err(RestoreFault::BadLease(why)),
        },
    }
}

/// A desk with this image, these clients and these leases.
fn desk_with<A: Allocator + Copy>(
    alloc: A,
    image: Image<A>,
    clients: Vec<Client, A>,
    leases: Leases<A>,
    limit: u32,
) -> Result<Desk<A>, RestoreFault>
    requires lawful { AreLawful clients.items (get image.heads) leases }
    ensures desk { IfOk result (λ desk. desk ≡ opened_at (state_at image clients.items leases) limit) }
    ensures fit { IfOk result (λ desk. begin_refusal clients.items ≡ None) }
    ensures err { IfErr result (IsRefusedFor (begin_refusal clients.items)) }
{
    match Desk::resume(alloc, image, clients, leases, limit) {
        Ok(desk) => Ok(desk),
        Err(back) => match back.why {
            BeginFault::OutOfMemory => Err(RestoreFault::OutOfMemory),
            why => Err(RestoreFault::BadClients(why)),
        },
    }
}

/// A desk of the rows.
fn desk_of<A: Allocator + Copy, T: AskRows + SortUplinks>(
    ask: &T,
    alloc: A,
    rows: &StateRows<'_, A>,
    raw: RawImage<A>,
    limit: u32,
) -> Result<Desk<A>, RestoreFault>
    requires can_ask { T.can_ask ask.now }
    requires can_sort { T.can_sort ask.now }
    ensures { OnRestored limit (λ answer. answer ≡ verdict (state_shown rows.now) (raw_of raw)) result }
{
    let image = image_from(ask, alloc, raw)?;
    let clients = clients_of(alloc, rows.clients.as_slice())?;
    let leases = leases_from(alloc, &image, &clients, rows.leases.as_slice(), rows.moment)?;
    desk_with(alloc, image, clients, leases, limit)
}

/// `restore_asking`, with the first of its clauses.
fn restore_in<A: Allocator + Copy, T: AskRows + SortUplinks>(
    ask: &T,
    alloc: A,
    bytes: &[u8],
    limit: u32,
) -> Result<Desk<A>, RestoreFault>
    requires can_ask { T.can_ask ask.now }
    requires can_sort { T.can_sort ask.now }
    ensures { OnRestored limit (RestoreAnswer bytes.now) result }
{
    let rows = decode_state(alloc, bytes)?;
    let raw = decode_image(alloc, rows.image)?;
    desk_of(ask, alloc, &rows, raw, limit)
}

/// `restore_alone`, where `ask` tests the rows and sorts uplinks.
#[doc(hidden)]
pub fn restore_asking<A: Allocator + Copy, T: AskRows + SortUplinks>(
    ask: &T,
    alloc: A,
    bytes: &[u8],
    limit: u32,
) -> Result<Desk<A>, RestoreFault>
    requires can_ask { T.can_ask ask.now }
    requires can_sort { T.can_sort ask.now }
    // Soundness: the answer is right for these bytes.
    ensures found { OnRestored limit (RestoreAnswer bytes.now) result }
    // Completeness: the right answer is given, unless memory runs out.
    ensures only { (answer : Result State model.RestoreFault) → RestoreAnswer bytes.now answer → OnRestored limit (λ given. given ≡ answer) result }
{
    restore_in(ask, alloc, bytes, limit)
}

/// A desk that goes on where another stood: its state is that of the bytes. The docket is empty, and will have at most
/// `limit` rows.
///
/// The image is let in as `check_shape` and `Image::from_raw` let one in; the clients as `Client::new` and
/// `Desk::begin` let them in; the leases as `Leases::from_rows` does. Refused with the first of
/// these, in this order: the bytes are no state; its image's bytes are no image; the image breaks a rule; a client
/// can't be one; a lease can't be one; a client can't be beside an earlier one. `OutOfMemory` where memory runs out.
/// No count of the bytes reserves anything before the rows that it counts were read.
///
/// `restore` of `kfs_kept` does the same in several threads.
pub fn restore_alone<A: Allocator + Copy>(
    alloc: A,
    bytes: &[u8],
    limit: u32,
) -> Result<Desk<A>, RestoreFault>
    // Soundness: the answer is right for these bytes.
    ensures found { OnRestored limit (RestoreAnswer bytes.now) result }
    // Completeness: the right answer is given, unless memory runs out.
    ensures only { (answer : Result State model.RestoreFault) → RestoreAnswer bytes.now answer → OnRestored limit (λ given. given ≡ answer) result }
{
    restore_asking(&InTurn, alloc, bytes, limit)
}
