//! A landing at a shared desk.
ghost use Rattle.std.specs.Prelude.{◌≡◌, IfOk, IfErr, OnErr};
ghost use Rattle.kfs_desk.specs.Docket.{position_of};
ghost use Rattle.kfs_shared.specs.Calls.{IsLanding, answer_of};
ghost use Rattle.kfs_shared.specs.Passes.{IsPassOf, IsTurnOf, own, own_in};
ghost use Rattle.kfs_shared.specs.Sharing.{AddsNone, AddsNoneIn, AddsRow, AddsRowIn};

use crate::docketed::Docketed;
use crate::pass::{Pass, Shared, Turn};
use crate::seats::add_last;
use crate::want::{SharedBack, SharedWant};
use kfs_desk::{Desk, Landed, Reply};
use kfs_plan::{Judged, KeptOutcome, Why};
use std::alloc::Allocator;
use std::sync::Wait;

impl<A: Allocator + Copy> Shared<Desk<A>, A> {
    /// Lands a verdict, from whatever view it was made, as `Desk::land` does. The answer is a row of the
    /// docket. The pass has then seen all rows up to it, and the row is its own.
    ///
    /// Waits for its turn. Condition: the pass is one of this desk. Where the docket is full, memory is
    /// refused or no ticket is left, the submission comes back, and the call has added no row.
    pub fn land<R: Wait>(
        &self,
        rt: &R,
        pass: &mut Pass<Desk<A>>,
        judged: Judged<A>,
    ) -> Result<Reply, SharedBack<A>>
        requires { IsPassOf self.now pass.old }
        ensures pass { IsPassOf self.now pass.new }
        ensures ok { IfOk result (λ reply. AddsRow self.now pass.old pass.new (position_of reply) (IsLanding judged reply)) }

        // A refusal hands the submission back, and the pass has the rows that it had.
        ensures back { IfErr result (λ back. back.submission ≡ judged.submission) }
        ensures err { IfErr result (λ back. AddsNone self.now pass.old pass.new back.why) }
        ensures own { OnErr result (own pass.new ≡ own pass.old) }
    {
        let Some(turn) = self.begin_turn(rt, pass) else {
            return Err(unlanded(judged));
        };
        let (turn, answer) = turn.land(self, &judged);
        self.end_turn(pass, turn);
        // The verdict goes here, where the turn has ended: no call waits for what it gives back.
        let mut kept = Vec::new(self.alloc);
        answer_of(judged, answer, &mut kept)
    }
}

/// What comes back of a verdict for which there is no ticket left.
pub fn unlanded<A: Allocator>(judged: Judged<A>) -> SharedBack<A>
    ensures submission { result.submission ≡ judged.submission }
    ensures why { result.why ≡ SharedWant.TurnsSpent }
{
    back_of(judged, SharedWant::TurnsSpent)
}

/// What comes back of a verdict that isn't answered for this reason.
fn back_of<A: Allocator>(judged: Judged<A>, why: SharedWant) -> SharedBack<A>
    ensures submission { result.submission ≡ judged.submission }
    ensures why { result.why ≡ why }
{
    let (submission, _outcome) = judged.into_parts();
    SharedBack { submission, why }
}

/// A verdict that is answered, and what was found of its submission if it was judged again. It is kept
/// until the turn has ended, since it takes time to give its memory back.
#[derive(Drop)]
pub struct Spent<A: Allocator> {
    judged: Judged<A>,
    again: Option<KeptOutcome<A>>,
}

/// The reply to a verdict, or what comes back. A verdict that is answered goes to the list, if that has
/// room. Else it goes at once.
pub fn answer_of<A: Allocator>(
    judged: Judged<A>,
    landed: Result<Landed<A>, SharedWant>,
    spent: &mut Vec<Spent<A>, A>,
) -> Result<Reply, SharedBack<A>>
    ensures { result ≡ answer_of judged.submission landed }
{
    let Landed { reply, again } = match landed {
        Ok(landed) => landed,
        Err(why) => return Err(back_of(judged, why)),
    };
    if spent.len() < spent.capacity() {
        // It can't fail, since the list has room. If it did, the verdict would go.
        let _ = spent.push(Spent { judged, again });
    }
    Ok(reply)
}

impl<A: Allocator + Copy> Turn<Desk<A>> {
    /// Lands a verdict that the caller keeps, as `Desk::land_keeping` does. The answer is a row of the
    /// docket, the turn's own. Condition: the turn is one of this desk.
    pub fn land(
        self,
        shared: &Shared<Desk<A>, A>,
        judged: &Judged<A>,
    ) -> (Turn<Desk<A>>, Result<Landed<A>, SharedWant>)
        requires { IsTurnOf shared.now self }
        ensures turn { IsTurnOf shared.now result.0 }
        ensures ok { IfOk result.1 (λ landed. AddsRowIn shared.now self result.0 (position_of landed.reply) (IsLanding judged.now landed.reply)) }

        // Without an answer the turn has the rows that it had.
        ensures err { IfErr result.1 (λ why. AddsNoneIn shared.now self result.0 why) }
        ensures own { OnErr result.1 (own_in result.0 ≡ own_in self) }
    {
        let Turn { seat, object } = self;
        let mut seat = seat;
        let mut desk = object;
        // Tells the prover that the docket is legal and leads to the state.
        let _rows = desk.row_count();
        match desk.land_keeping(judged) {
            Ok(landed) => {
                let object = add_last(&shared.table.shared, &mut seat, desk);
                (Turn { seat, object }, Ok(landed))
            }
            Err(why) => {
                let why = match why {
                    Why::OutOfMemory => SharedWant::OutOfMemory,
                    Why::DocketFull => SharedWant::DocketFull,
                };
                (Turn { seat, object: desk }, Err(why))
            }
        }
    }
}
