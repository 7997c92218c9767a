//! Judging a submission: its log and its plan, against a view. The bytes of a submission, decoded.
ghost use Rattle.std.specs.Prelude.{◌≡◌, ◌≤◌, true, [], length, IfOk, IfErr, ◌≢◌};
ghost use Rattle.std.specs.List.{AllByRecursion};
ghost use Rattle.kfs_model.specs.Judgement.{State};
ghost use Rattle.kfs_model.specs.Lease.{row_of};
ghost use Rattle.kfs_model.specs.Limits.{entry_limit};
ghost use Rattle.kfs_types.specs.Views.{IsSpanned};
ghost use Rattle.kfs_judge.specs.Views.{clients_of, client_sight_in, Agrees, keeps_reads};
ghost use Rattle.kfs_judge.specs.Walks.{HasOrderedSizes};
ghost use Rattle.kfs_plan.specs.Judging.{AreLooked, AgreesWithReads, OutcomeIsSettled, ReadsDecide, IsSameFinding, IsVerdict, RefusesByFault, ShowsAs, submission_of, submission_with, IsEarly, IsReading, StopsByFault};

use crate::judged::Judged;
use crate::rows::{RowFault, check_rows};
use crate::submission::{Back, Fault, KeptOutcome, Outcome, Submission, Why};
use kfs_entry::{
    BorrowedName, KeptName, Log, Plan, SpellFault, decode_borrowed_log, decode_borrowed_plan,
    kept_log, kept_plan,
};
use kfs_image_nodes::{LentNet, kept_net};
use kfs_judge::{Keeping, Reads, View, Walk, judge_borrowed};
use kfs_mode::Client;
use std::alloc::{AllocError, Allocator};

/// Judges a submission against a view. It checks, in order: the client is known, the log's bytes, the
/// log's client, the plan's bytes, the entries, the plan's rows. It changes nothing but memory of its
/// own, and takes no lock.
///
/// A bad submission is a verdict, not an error. The submission comes back only where memory runs out; no verdict is a
/// No for that.
pub fn judge<A: Allocator + Copy>(
    alloc: A,
    view: &View<A>,
    submission: Submission<A>,
) -> Result<Judged<A>, Back<A>>
    ensures submission { IfOk result (λ j. j.submission ≡ submission) }
    ensures back { IfErr result (λ b. b.submission ≡ submission) }
    ensures client { IfOk result (λ j. j.client ≡ row_of (clients_of view.now) submission.client) }

    // In every state that agrees with the client and the reads, this is the verdict.
    ensures known { IfOk result (λ j. (s : State) → AgreesWithReads s submission.client j.client j.reads → IsVerdict s (submission_of submission) j.outcome) }
    ensures view_agrees { IfOk result (λ j. Agrees j.reads (client_sight_in view.now submission.client)) }
    ensures among { IfOk result (λ j. AreLooked view.now (submission_of submission) j.outcome j.reads) }
    // A No names a fault of the submission.
    ensures fault { IfOk result (λ j. RefusesByFault j.outcome) }
    ensures memory { IfErr result (λ b. b.why ≡ Why.OutOfMemory) }
{
    let (log, plan) = (submission.log.as_slice(), submission.plan.as_slice());
    let found = find_kept(alloc, view, submission.client, log, plan);
    match found {
        Ok(finding) => match client_row(view, submission.client) {
            Ok(client) => {
                let VerdictParts { reads, outcome } = finding;
                let reads = reads.into_map().unwrap();
                Ok(Judged::of(submission, client, reads, outcome))
            }
            Err(why) => Err(Back { submission, why }),
        },
        Err(why) => Err(Back { submission, why }),
    }
}

/// Judges a log and a plan whose bytes the caller keeps, for one who answers at once. The outcome is
/// that of `judge`, and no read is kept.
pub fn judge_bytes<'b, A: Allocator + Copy>(
    alloc: A,
    view: &View<A>,
    client: u32,
    log: &'b [u8],
    plan: &'b [u8],
) -> Result<Outcome<A, BorrowedName<'b>>, Why>
    // In every state that shows the client what the view shows, this is the verdict.
    ensures known { IfOk result (λ outcome. (s : State) → ShowsAs s view.now client → IsVerdict s (submission_with client log.now plan.now) outcome) }
    // A No names a fault of the submission.
    ensures fault { IfOk result (λ outcome. RefusesByFault outcome) }
    ensures memory { IfErr result (λ why. why ≡ Why.OutOfMemory) }
{
    let parts = find(alloc, view, client, log, plan, Keeping::Nothing)?;
    Ok(parts.outcome)
}

/// A copy of the view's row of the client with this number, or none.
fn client_row<A: Allocator + Copy>(view: &View<A>, number: u32) -> Result<Option<Client>, Why>
    ensures row { IfOk result (λ row. row ≡ row_of (clients_of view.now) number) }
    ensures memory { IfErr result (λ why. why ≡ Why.OutOfMemory) }
{
    match view.client(number) {
        Some(client) => Ok(Some(copied(client)?)),
        None => Ok(None),
    }
}

/// The parts of a verdict, without the submission and its client.
#[derive(Drop)]
struct VerdictParts<A: Allocator, N> {
    reads: Reads<A>,
    outcome: Outcome<A, N>,
}

impl<'b, A: Allocator + Copy> VerdictParts<A, BorrowedName<'b>> {
    /// A fault found before the entries were looked at: nothing was read.
    fn unread(alloc: A, keeping: Keeping, fault: Fault) -> Self
        ensures reads { result.reads.entries ≡ [] }
        ensures keeps { result.reads.keeps ≡ keeps_reads keeping }
        ensures outcome { result.outcome ≡ Outcome.No fault }
    {
        VerdictParts {
            reads: Reads::new(alloc, keeping),
            outcome: Outcome::No(fault),
        }
    }
}

/// Judges these bytes of the client with this number.
fn find<'b, A: Allocator + Copy>(
    alloc: A,
    view: &View<A>,
    number: u32,
    log: &'b [u8],
    plan: &'b [u8],
    keeping: Keeping,
) -> Result<VerdictParts<A, BorrowedName<'b>>, Why>
    ensures keeps { IfOk result (λ f. f.reads.keeps ≡ keeps_reads keeping) }
    ensures known { IfOk result (λ f. ReadsDecide view.now (submission_with number log.now plan.now) f.reads.entries f.outcome) }
    ensures view_agrees { IfOk result (λ f. Agrees f.reads.entries (client_sight_in view.now number)) }
    ensures among { IfOk result (λ f. AreLooked view.now (submission_with number log.now plan.now) f.outcome f.reads.entries) }
    ensures fault { IfOk result (λ f. RefusesByFault f.outcome) }
    ensures memory { IfErr result (λ why. why ≡ Why.OutOfMemory) }
{
    let Some(client) = view.client(number) else {
        let fault = Fault::UnknownClient;
        return Ok(VerdictParts::unread(alloc, keeping, fault));
    };
    match read_submission(alloc, client.number(), log, plan)? {
        Spelled::No(fault) => Ok(VerdictParts::unread(alloc, keeping, fault)),
        Spelled::Yes(log, plan) => {
            let walk = judge_borrowed(alloc, view, &log, keeping)?;
            let finding = settle(alloc, log, plan, walk)?;
            Ok(finding)
        }
    }
}

/// The same where reads and names are kept.
fn find_kept<A: Allocator + Copy>(
    alloc: A,
    view: &View<A>,
    number: u32,
    log: &[u8],
    plan: &[u8],
) -> Result<VerdictParts<A, KeptName<A>>, Why>
    ensures keeps { IfOk result (λ f. f.reads.keeps ≡ true) }
    ensures known { IfOk result (λ f. ReadsDecide view.now (submission_with number log.now plan.now) f.reads.entries f.outcome) }
    ensures view_agrees { IfOk result (λ f. Agrees f.reads.entries (client_sight_in view.now number)) }
    ensures among { IfOk result (λ f. AreLooked view.now (submission_with number log.now plan.now) f.outcome f.reads.entries) }
    ensures fault { IfOk result (λ f. RefusesByFault f.outcome) }
    ensures memory { IfErr result (λ why. why ≡ Why.OutOfMemory) }
{
    let VerdictParts { reads, outcome } = find(alloc, view, number, log, plan, Keeping::Reads)?;
    let kept = kept_outcome(alloc, outcome)?;
    Ok(VerdictParts {
        reads,
        outcome: kept,
    })
}

/// The same outcome, with names that are kept. `Err` where memory runs out.
pub fn kept_outcome<A: Allocator + Copy>(
    alloc: A,
    outcome: Outcome<A, BorrowedName<'_>>,
) -> Result<KeptOutcome<A>, AllocError>
    ensures { IfOk result (IsSameFinding outcome.entry) }
{
    match outcome {
        Outcome::Yes {
            log,
            plan,
            net,
            need,
        } => {
            let log = kept_log(alloc, &log)?;
            let plan = kept_plan(alloc, plan)?;
            let net = kept_net(alloc, net)?;
            Ok(Outcome::Yes {
                log,
                plan,
                net,
                need,
            })
        }
        Outcome::No(fault) => Ok(Outcome::No(fault)),
    }
}

fn copied(client: &Client) -> Result<Client, AllocError>
    ensures { IfOk result (λ row. row ≡ client.now) }
{
    client.clone()
}

/// The outcome of a log whose entries were judged: its first bad entry, or else what the plan's rows
/// lead to.
fn settle<'b, A: Allocator + Copy>(
    alloc: A,
    log: Log<A, BorrowedName<'b>>,
    plan: Plan<A, BorrowedName<'b>>,
    walk: Walk<A, BorrowedName<'b>>,
) -> Result<VerdictParts<A, BorrowedName<'b>>, Why>
    requires sizes { HasOrderedSizes walk }
    requires spans { AllByRecursion IsSpanned log.entries }
    requires count { length log.entries ≤ entry_limit }
    ensures reads { IfOk result (λ f. f.reads ≡ walk.entry.reads) }
    ensures outcome { IfOk result (λ f. OutcomeIsSettled log.entry plan.entry walk.entry.sizes.items walk.entry.outcome f.outcome) }
    ensures memory { IfErr result (λ why. why ≡ Why.OutOfMemory) }
{
    let Walk {
        reads,
        sizes,
        outcome,
    } = walk;
    let net = match outcome {
        Ok(net) => net,
        Err(fault) => {
            let outcome = Outcome::No(Fault::Entry(fault));
            return Ok(VerdictParts { reads, outcome });
        }
    };
    let lent = LentNet::Borrowed(&net);
    match check_rows(alloc, &log, sizes.as_slice(), lent, &plan) {
        Ok(need) => {
            let outcome = Outcome::Yes {
                log,
                plan,
                net,
                need,
            };
            Ok(VerdictParts { reads, outcome })
        }
        Err(RowFault::OutOfMemory) => Err(Why::OutOfMemory),
        Err(fault) => {
            let outcome = Outcome::No(Fault::Row(fault));
            Ok(VerdictParts { reads, outcome })
        }
    }
}

/// What the bytes of a submission decode to.
#[derive(Drop)]
pub enum Spelled<'b, A: Allocator> {
    /// A log of the submission's client, and a plan.
    Yes(Log<A, BorrowedName<'b>>, Plan<A, BorrowedName<'b>>),
    /// The fault found in the bytes.
    No(Fault),
}

/// Decodes the bytes of a submission; `number` is the submission's client. `Err` where memory is
/// refused.
pub fn read_submission<'b, A: Allocator + Copy>(
    alloc: A,
    number: u32,
    log: &'b [u8],
    plan: &'b [u8],
) -> Result<Spelled<'b, A>, Why>
    ensures read { IfOk result (IsReading (submission_with number log.now plan.now)) }
    ensures early { IfOk result IsEarly }
    ensures fault { IfOk result StopsByFault }
    ensures memory { IfErr result (λ why. why ≡ Why.OutOfMemory) }
{
    let log = match decode_borrowed_log(alloc, log) {
        Ok(log) => log,
        Err(fault) => return Ok(Spelled::No(Fault::BadLog(unless_refused(fault)?))),
    };
    if log.client != number {
        return Ok(Spelled::No(Fault::WrongClient));
    }
    let plan = match decode_borrowed_plan(alloc, plan) {
        Ok(plan) => plan,
        Err(fault) => return Ok(Spelled::No(Fault::BadPlan(unless_refused(fault)?))),
    };
    Ok(Spelled::Yes(log, plan))
}

/// The fault, unless it is that memory ran out.
fn unless_refused(fault: SpellFault) -> Result<SpellFault, Why>
    ensures fault { IfOk result (λ told. (told ≡ fault) × (told ≢ SpellFault.OutOfMemory)) }
    ensures refused { IfErr result (λ why. why ≡ Why.OutOfMemory) }
{
    match fault {
        SpellFault::OutOfMemory => Err(Why::OutOfMemory),
        _ => Ok(fault),
    }
}
