//! The commands `judge` and `land`: a verdict is made from a view of the desk now, is held by a worker,
//! and is landed later.
ghost use Rattle.std.specs.Prelude.{◌≡◌, ◌≤◌, codes, IfErr, IfOk, IsErrOf, OnOk, Some};
ghost use Rattle.kfs_plan.specs.Judging.{submission_of};
ghost use Rattle.kfs_program_text.specs.Command as commands;
ghost use Rattle.kfs_desk.specs.Verdict.Verdict.{IsVerdictOn, verdict_of};
ghost use Rattle.kfs_program.specs.Engine.Session.{After, IsLandingAnswered, IsReplied, DeskAnswers, left_without_memory};
ghost use Rattle.kfs_program_text.specs.Parts.{line_of};
ghost use Rattle.kfs_types.specs.Room.{spare_of};

use crate::report::reply_line;
use crate::verdicts::HeldVerdicts;
use kfs_desk::{Desk, DeskView};
use kfs_plan::{Judged, Submission, Why};
use kfs_program_text::parts::{number, text};
use kfs_program_text::{Refusal, Worker};
use std::alloc::Allocator;

/// Judges the submission for a worker who holds nothing; the worker holds the verdict then.
pub fn judge_for<A: Allocator + Copy>(
    alloc: A,
    desk: &Desk<A>,
    hands: &mut HeldVerdicts<A>,
    worker: Worker,
    submission: Submission<A>,
    reply: &mut Vec<u8, A>,
) -> Result<(), Refusal>
    requires { 128 ≤ spare_of reply.old }
    ensures ok { OnOk result (IsReplied (DeskAnswers desk.now hands.old (commands.Judge worker.number (submission_of submission))) reply.old.items reply.new.items (After desk.now hands.new)) }
    ensures bad { IsErrOf result Refusal.BadLine → DeskAnswers desk.now hands.old (commands.Judge worker.number (submission_of submission)) (line_of (codes "bad line"), After desk.now hands.new) }
    ensures memory { IsErrOf result Refusal.OutOfMemory → hands.new ≡ hands.old }
{
    if !hands.is_empty(worker) {
        return Err(Refusal::BadLine);
    }
    let judged = judged_now(alloc, desk, submission)?;
    hands.put(worker, judged);
    text(reply, b"judged ");
    number(reply, worker.number() as u64);
    text(reply, b"\n");
    Ok(())
}

/// The verdict on the submission in the state now. The view is dropped here, so that landing finds
/// nothing shared.
fn judged_now<A: Allocator + Copy>(
    alloc: A,
    desk: &Desk<A>,
    submission: Submission<A>,
) -> Result<Judged<A>, Refusal>
    ensures verdict { IfOk result (λ judged. IsVerdictOn desk.now.state (submission_of submission) (verdict_of judged)) }
    ensures memory { IfErr result (λ why. why ≡ Refusal.OutOfMemory) }
{
    let view = DeskView::at(desk)?;
    match view.judge(alloc, submission) {
        Ok(judged) => Ok(judged),
        Err(_) => Err(Refusal::OutOfMemory),
    }
}

/// Lands the worker's verdict. The worker holds none afterwards, whatever the answer is.
pub fn land_for<A: Allocator + Copy>(
    desk: &mut Desk<A>,
    hands: &mut HeldVerdicts<A>,
    worker: Worker,
    reply: &mut Vec<u8, A>,
) -> Result<(), Refusal>
    requires { 128 ≤ spare_of reply.old }
    ensures ok { OnOk result (IsReplied (DeskAnswers desk.old hands.old (commands.Land worker.number)) reply.old.items reply.new.items (After desk.new hands.new)) }
    ensures bad { IsErrOf result Refusal.BadLine → DeskAnswers desk.old hands.old (commands.Land worker.number) (line_of (codes "bad line"), After desk.new hands.new) }
    ensures memory { IsErrOf result Refusal.OutOfMemory → After desk.new hands.new ≡ left_without_memory (Some worker.number) (After desk.old hands.old) }
{
    let judged = hands.take(worker).ok_or(Refusal::BadLine)?;
    land_judged(desk, judged, reply)
}

/// Lands the verdict.
fn land_judged<A: Allocator + Copy>(
    desk: &mut Desk<A>,
    judged: Judged<A>,
    reply: &mut Vec<u8, A>,
) -> Result<(), Refusal>
    requires { 128 ≤ spare_of reply.old }
    ensures ok { OnOk result (IsReplied (IsLandingAnswered desk.old (verdict_of judged)) reply.old.items reply.new.items desk.new) }
    ensures err { IfErr result (λ why. (why ≡ Refusal.OutOfMemory) × (desk.new ≡ desk.old)) }
{
    match desk.land(judged) {
        Ok(answer) => Ok(reply_line(reply, &answer)?),
        Err(back) => match back.why {
            Why::DocketFull => Ok(text(reply, b"full\n")),
            Why::OutOfMemory => Err(Refusal::OutOfMemory),
        },
    }
}
