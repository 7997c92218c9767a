//! Views, verdicts on them, and landings. A host takes a view under its lock, judges outside it, and
//! lands under it again.
ghost use Rattle.std.specs.Prelude.{◌≡◌, ◌↔◌, ◌≤◌, ◌<◌, None, ⊤};
ghost use Rattle.kfs_c.specs.Calls.{HasLanded, IsJudged, IsLanded};
ghost use Rattle.kfs_c.specs.Holding.{HoldsNoDesk, HoldsNoView, OnDesk, OnDesks, OnVerdict, OnView};
ghost use Rattle.kfs_c.specs.Loose.Status as status;
ghost use Rattle.kfs_c.specs.Submission.Submission.{IsFull};

use crate::handle::Handle;
use crate::held::Held;
use crate::loose::status::{DONE, NO_MEMORY, WRONG_KIND, closed};
use crate::slot::{put_in, take_out};
use crate::submission::{ReplyNumbers, reply_numbers, why_number};
use crate::{on_desk, on_view};
use kfs_desk::{Desk, DeskView};
use kfs_plan::{Judged, Submission};
use std::alloc::Global;

/// Has the second handle hold a view of the desk's state now. What it held is freed then; where there is
/// no view, it is kept. The desk is as it was.
#[unsafe(no_mangle)]
pub extern "C" fn kfs_look(alloc: Global, handle: &mut Handle, view: &mut Handle) -> u32
    ensures seen { result ≡ status.done → OnDesk handle.old.value (λ desk. OnView view.new.value (λ seen. seen ≡ desk.state)) }
    ensures unseen { 1 ≤ result → view.new.value ≡ view.old.value }
    ensures kept { handle.new.value ≡ handle.old.value }
    ensures closed { (result ≡ status.closed) ↔ (handle.old.value ≡ None) }
    ensures wrong { (result ≡ status.wrong_kind) ↔ HoldsNoDesk handle.old.value }
    ensures known { result ≤ status.wrong_kind }
    ensures range { result < status.closed → result ≤ status.no_memory }
{
    on_desk!(alloc, handle, &desk => look(alloc, desk, view))
}

fn look(alloc: Global, desk: &Desk<Global>, view: &mut Handle) -> u32
    ensures seen { result ≡ status.done → OnView view.new.value (λ seen. seen ≡ desk.now.state) }
    ensures unseen { 1 ≤ result → view.new.value ≡ view.old.value }
    ensures range { result ≤ status.no_memory }
{
    let Ok(seen) = DeskView::at(desk) else {
        return NO_MEMORY;
    };
    let Ok(held) = Box::new(alloc, Held::View(seen)) else {
        return NO_MEMORY;
    };
    put_in(alloc, view, held);
    DONE
}

/// Has the last handle hold a verdict on the submission, judged against the view. What it held is freed
/// then; where there is no verdict, it is kept. The view is as it was, and no desk is touched.
#[unsafe(no_mangle)]
pub extern "C" fn kfs_judge(
    alloc: Global,
    view: &mut Handle,
    client: u32,
    log: &[u8],
    plan: &[u8],
    verdict: &mut Handle,
) -> u32
    ensures judged { result ≡ status.done → OnView view.old.value (λ seen. OnVerdict verdict.new.value (IsJudged seen client log.now plan.now)) }
    ensures unjudged { 1 ≤ result → verdict.new.value ≡ verdict.old.value }
    ensures kept { view.new.value ≡ view.old.value }
    ensures closed { (result ≡ status.closed) ↔ (view.old.value ≡ None) }
    ensures wrong { (result ≡ status.wrong_kind) ↔ HoldsNoView view.old.value }
    ensures known { result ≤ status.wrong_kind }
    ensures range { result < status.closed → result ≤ status.no_memory }
{
    on_view!(alloc, view, &seen => judge(alloc, seen, client, log, plan, verdict))
}

fn judge(
    alloc: Global,
    seen: &DeskView<Global>,
    client: u32,
    log: &[u8],
    plan: &[u8],
    verdict: &mut Handle,
) -> u32
    ensures judged { result ≡ status.done → OnVerdict verdict.new.value (IsJudged seen.now client log.now plan.now) }
    ensures unjudged { 1 ≤ result → verdict.new.value ≡ verdict.old.value }
    ensures range { result ≤ status.no_memory }
{
    let Ok(log) = log.to_vec(alloc) else {
        return NO_MEMORY;
    };
    let Ok(plan) = plan.to_vec(alloc) else {
        return NO_MEMORY;
    };
    let Ok(judged) = seen.judge(alloc, Submission { client, log, plan }) else {
        return NO_MEMORY;
    };
    let Ok(held) = Box::new(alloc, Held::Verdict(judged)) else {
        return NO_MEMORY;
    };
    put_in(alloc, verdict, held);
    DONE
}

/// Lands a verdict (`Desk::land`). The verdict is used up, whatever the answer, unless one of the two
/// handles holds nothing or something else.
#[unsafe(no_mangle)]
pub extern "C" fn kfs_land(
    alloc: Global,
    handle: &mut Handle,
    verdict: &mut Handle,
    reply: &mut ReplyNumbers,
) -> u32
    ensures answered { result ≡ status.done → OnDesks handle.old.value handle.new.value (HasLanded verdict.old.value reply.new) }
    ensures unanswered { 1 ≤ result → (handle.new.value ≡ handle.old.value) × (reply.new ≡ reply.old) }
    ensures full { (result ≡ status.full) ↔ OnDesk handle.old.value (λ desk. IsFull desk × OnVerdict verdict.old.value (λ _. ⊤)) }
    ensures used { result ≤ status.full → verdict.new.value ≡ None }
    ensures kept { status.closed ≤ result → verdict.new.value ≡ verdict.old.value }
    ensures closed { handle.old.value ≡ None → result ≡ status.closed }
    ensures wrong { HoldsNoDesk handle.old.value → result ≡ status.wrong_kind }
    ensures known { (result ≤ status.wrong_kind) × (result < status.closed → result ≤ status.full) }
    ensures range { (result ≤ status.full) ↔ OnDesk handle.old.value (λ _. OnVerdict verdict.old.value (λ _. ⊤)) }
{
    on_desk!(alloc, handle, &mut desk => land(alloc, desk, verdict, reply))
}

fn land(
    alloc: Global,
    desk: &mut Desk<Global>,
    verdict: &mut Handle,
    reply: &mut ReplyNumbers,
) -> u32
    ensures answered { result ≡ status.done → HasLanded verdict.old.value reply.new desk.old desk.new }
    ensures unanswered { 1 ≤ result → (desk.new ≡ desk.old) × (reply.new ≡ reply.old) }
    ensures full { (result ≡ status.full) ↔ (IsFull desk.old × OnVerdict verdict.old.value (λ _. ⊤)) }
    ensures used { result ≤ status.full → verdict.new.value ≡ None }
    ensures kept { status.closed ≤ result → verdict.new.value ≡ verdict.old.value }
    ensures range { (result ≤ status.full) ↔ OnVerdict verdict.old.value (λ _. ⊤) }
    ensures known { (result ≤ status.wrong_kind) × (result < status.closed → result ≤ status.full) }
{
    let Some(held) = take_out(alloc, verdict) else {
        return closed();
    };
    if !matches!(&*held, Held::Verdict(_)) {
        put_in(alloc, verdict, held);
        return WRONG_KIND;
    }
    let Some(judged) = Box::into_inner(held).into_verdict() else {
        return WRONG_KIND;
    };
    land_judged(desk, judged, reply)
}

fn land_judged(desk: &mut Desk<Global>, judged: Judged<Global>, reply: &mut ReplyNumbers) -> u32
    ensures answered { result ≡ status.done → IsLanded judged reply.new desk.old desk.new }
    ensures unanswered { 1 ≤ result → (desk.new ≡ desk.old) × (reply.new ≡ reply.old) }
    ensures full { (result ≡ status.full) ↔ IsFull desk.old }
    ensures range { result ≤ status.full }
{
    match desk.land(judged) {
        Ok(answer) => {
            *reply = reply_numbers(answer);
            DONE
        }
        Err(back) => why_number(back.why),
    }
}
