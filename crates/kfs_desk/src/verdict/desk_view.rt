//! A worker's view of a desk, and the verdicts that it makes from it.
ghost use Rattle.std.specs.Prelude.{◌≡◌, IfErr, IfOk};
ghost use Rattle.kfs_plan.specs.Judging.{submission_of};
ghost use Rattle.kfs_desk.specs.Machine.{IsViewOf};
ghost use Rattle.kfs_desk.specs.Verdict.Verdict.{IsVerdictOn, verdict_of};

use crate::Desk;
use kfs_judge::View;
use kfs_plan::{Back, Judged, Submission, Why, judge};
use std::alloc::{AllocError, Allocator};
use std::marker::Model;
use std::snapshot::Snapshot;

/// A view of a desk, for judging. Contracts also see which state of the desk it was taken of; that
/// takes no memory.
#[derive(Drop)]
pub struct DeskView<A: Allocator> {
    view: View<A>,
    seen: Snapshot<Desk<A>>,
}

impl<A: Allocator> Model for DeskView<A> {
    ghost use Rattle.kfs_model.specs.Judgement.{State};
    ghost use Rattle.kfs_model.specs.Order.{IsInOrder};
    ghost use Rattle.kfs_desk.specs.Machine.{IsViewOf};

    ghost Value = { State };

    ghost view = { λ l. l.seen.value.state };

    ghost invariant = { λ l. IsViewOf l.view l.seen.value.state × IsInOrder l.seen.value.state };
}

impl<A: Allocator + Copy> DeskView<A> {
    /// A view of the desk's state now. `Err` where memory runs out.
    pub fn at(desk: &Desk<A>) -> Result<DeskView<A>, AllocError>
        ensures { IfOk result (λ look. look ≡ desk.now.state) }
    {
        // Tells the prover that the desk's state is in order.
        let _image = desk.image();
        Ok(DeskView {
            view: desk.view()?,
            seen: Snapshot::of(desk),
        })
    }

    /// The view itself, which shows the state that was seen: for look-ups, and for who may look names up,
    /// list them and read (`View::may_find`, `may_list`, `may_read`). Takes no memory.
    pub fn view(&self) -> &View<A>
        ensures { IsViewOf result.now self.now }
    {
        &self.view
    }

    /// Judges a submission against the state that was seen. The submission comes back only where memory
    /// is refused. Takes no lock, and doesn't touch the desk.
    pub fn judge(&self, alloc: A, submission: Submission<A>) -> Result<Judged<A>, Back<A>>
        ensures verdict { IfOk result (λ judged. IsVerdictOn self.now (submission_of submission) (verdict_of judged)) }
        ensures submission { IfOk result (λ judged. judged.submission ≡ submission) }
        ensures back { IfErr result (λ back. (back.submission ≡ submission) × (back.why ≡ Why.OutOfMemory)) }
    {
        judge(alloc, &self.view, submission)
    }
}
