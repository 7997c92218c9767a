//! The plan of a client's log, made from the walk over its entries.
ghost use Rattle.std.specs.Prelude.{◌≡◌, ◌≢◌, ◌≤◌, ◌∷◌, [], length, Ok, None, IfOk, IfSome, IsOk};
ghost use Rattle.kfs_model.specs.Limits.{entry_limit};
ghost use Rattle.kfs_model.specs.Spelling.{IsVersion, PlanAnswer};
ghost use Rattle.kfs_model.specs.Device.ShownTree.{IsLawful, shown_tree};
ghost use Rattle.kfs_entry.specs.Answers.{AreSpanned, plan_of};
ghost use Rattle.kfs_image.specs.Image as images;
ghost use Rattle.kfs_judge.specs.Walks.{HasOrderedSizes};
ghost use Rattle.kfs_judge.specs.Views.{clients_of, contents_of, leases_of};
ghost use Rattle.kfs_plan_maker.specs.PlanMade.{HasNoPlan, IsPlanMade};
ghost use Rattle.kfs_plan_maker.specs.Rows.{IsShort};
ghost use Rattle.kfs_plan_maker.specs.Walks.{HasNoLog, HasRowsOf, IsLogFrom, IsWalkWithLeases};

use crate::fits::tell_rows;
use crate::numbers::numbers_named;
use kfs_entry::{Log, Plan, RowList, SpellFault, decode_log, encode_plan};
use kfs_image::Image;
use kfs_judge::{Keeping, View, Walk, judge_entries_keeping};
use kfs_lease::Leases;
use kfs_mode::Client;
use kfs_plan::sweep;
use std::alloc::{AllocError, Allocator};
use std::sync::Arc;

/// Makes the plan of a client's log over the image: its bytes, in the version of the log. It stands for
/// the client having all leases that the log may ask for. The desk will look for these itself.
///
/// None where the bytes are no log, where the log is another client's, or where an entry has a fault.
/// `Err` where memory runs out. No byte of a file is looked at.
pub fn make_plan<A: Allocator + Copy>(
    alloc: A,
    image: &Image<A>,
    client: &Client,
    source: &[u8],
) -> Result<Option<Vec<u8, A>>, AllocError>
    ensures made { IfOk result (λ answer. IfSome answer (λ bytes. IsPlanMade client.now (shown_tree image.now) source.now bytes.items)) }
    // There is a plan, memory aside, where the log has no fault while the client holds every node.
    ensures none { result ≡ Ok None → HasNoPlan client.now (shown_tree image.now) source.now }
{
    let Some(log) = own_log(alloc, client.number(), source)? else {
        return Ok(None);
    };
    let walk = walk_with_leases(alloc, image, client, &log)?;
    if walk.outcome.is_err() {
        return Ok(None);
    }
    let plan = plan_from(alloc, &log, walk)?;
    let bytes = encoded(alloc, &plan)?;
    Ok(Some(bytes))
}

/// The log that the bytes decode to, if they decode to one with this client's number.
fn own_log<A: Allocator + Copy>(
    alloc: A,
    number: u32,
    source: &[u8],
) -> Result<Option<Log<A>>, AllocError>
    ensures own { IfOk result (λ own. IfSome own (IsLogFrom number source.now)) }
    ensures none { result ≡ Ok None → HasNoLog number source.now }
{
    match decode_log(alloc, source) {
        Ok(log) => {
            if log.client == number {
                Ok(Some(log))
            } else {
                Ok(None)
            }
        }
        Err(fault) => {
            unless_refused(fault)?;
            Ok(None)
        }
    }
}

/// Passes over a fault, unless it is that memory ran out.
fn unless_refused(fault: SpellFault) -> Result<(), AllocError>
    ensures { IfOk result (λ _. fault ≢ SpellFault.OutOfMemory) }
{
    match fault {
        SpellFault::OutOfMemory => Err(AllocError),
        _ => Ok(()),
    }
}

/// The walk over the client's log, with a lease for writing on each node that the log may ask for.
fn walk_with_leases<A: Allocator + Copy>(
    alloc: A,
    image: &Image<A>,
    client: &Client,
    log: &Log<A>,
) -> Result<Walk<A>, AllocError>
    requires owner { log.now.client ≡ client.now.number }
    requires count { length log.now.entries ≤ entry_limit }
    ensures walk { IfOk result (IsWalkWithLeases client.now (shown_tree image.now) log.now) }
    ensures sizes { IfOk result HasOrderedSizes }
    ensures lawful { IfOk result (λ walk. IsLawful image.now) }
{
    let numbers = numbers_named(alloc, image.shape(), log.entries.as_slice())?;
    let leases = Leases::of_writer(alloc, log.client, numbers.as_slice())?;
    let view = view_with(alloc, image, client, leases)?;
    let walk = judge_entries_keeping(alloc, &view, log, Keeping::Nothing)?;
    Ok(walk)
}

/// A view of the image's nodes and names, with these leases and this client alone.
fn view_with<A: Allocator + Copy>(
    alloc: A,
    image: &Image<A>,
    client: &Client,
    leases: Leases<A>,
) -> Result<View<A>, AllocError>
    ensures contents { IfOk result (λ view. contents_of view ≡ images.contents_of image.now) }
    ensures leases { IfOk result (λ view. leases_of view ≡ leases) }
    ensures clients { IfOk result (λ view. clients_of view ≡ client.now ∷ []) }
{
    let shape = image.shape().clone()?;
    let leases = Arc::new(alloc, leases)?;
    let mut clients = Vec::new(alloc);
    clients.push(copied(client)?)?;
    let clients = Arc::new(alloc, clients)?;
    Ok(View::of(shape, leases, clients))
}

/// A copy of a client.
fn copied(client: &Client) -> Result<Client, AllocError>
    ensures { IfOk result (λ copy. copy ≡ client.now) }
{
    client.clone()
}

/// The plan of a log whose walk has no bad entry.
fn plan_from<A: Allocator + Copy>(
    alloc: A,
    log: &Log<A>,
    walk: Walk<A>,
) -> Result<Plan<A>, AllocError>
    requires walked { IsOk walk.outcome }
    requires sizes { HasOrderedSizes walk }
    requires spanned { AreSpanned log.now }
    requires count { length log.now.entries ≤ entry_limit }
    ensures { IfOk result (HasRowsOf log.now walk) }
{
    let pieces = sweep(alloc, log, &walk)?;
    let Walk {
        outcome,
        reads: _reads,
        sizes: _sizes,
    } = walk;
    let net = outcome.unwrap();
    Ok(Plan {
        version: log.version,
        names: RowList::from_vec(net.names),
        nodes: RowList::from_vec(net.nodes),
        pieces: RowList::from_vec(pieces),
    })
}

/// The bytes of a plan.
fn encoded<A: Allocator + Copy>(alloc: A, plan: &Plan<A>) -> Result<Vec<u8, A>, AllocError>
    requires version { IsVersion plan.now.version }
    requires short { IsShort plan.now }
    ensures { IfOk result (λ bytes. PlanAnswer bytes.items (Ok (plan_of plan.now))) }
{
    tell_rows(plan);
    let bytes = encode_plan(alloc, plan)?;
    Ok(bytes)
}
