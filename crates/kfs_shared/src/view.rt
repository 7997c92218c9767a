//! A view of a shared desk.
ghost use Rattle.std.specs.Prelude.{◌≡◌, ◌≢◌, IfOk, IfErr};
ghost use Rattle.kfs_desk.specs.Beginning.{beginning_of};
ghost use Rattle.kfs_shared.specs.Calls.{IsViewAfter};
ghost use Rattle.kfs_shared.specs.Passes.{IsPassOf, IsTurnOf, started, own, seen_in};
ghost use Rattle.kfs_shared.specs.Sharing.{AddsNone, ShowsSeen};

use crate::docketed::Docketed;
use crate::pass::{Pass, Shared, Turn};
use crate::want::SharedWant;
use kfs_desk::Desk;
use kfs_judge::View;
use std::alloc::Allocator;
use std::sync::{Arc, Wait};

impl<A: Allocator + Copy> Shared<Desk<A>, A> {
    /// A view of the desk's state, to be judged against with no turn held. It is the state to which the
    /// rows lead that the pass has then seen, and these begin with those that it had seen.
    ///
    /// Waits for its turn, which is short: a view shares the desk's tables. Condition: the pass
    /// is one of this desk. Refused with `OutOfMemory` or `TurnsSpent`.
    pub fn view<R: Wait>(&self, rt: &R, pass: &mut Pass<Desk<A>>) -> Result<View<A>, SharedWant>
        requires { IsPassOf self.now pass.old }
        ensures pass { IsPassOf self.now pass.new }
        ensures ok { IfOk result (λ view. ShowsSeen self.now pass.old pass.new view) }

        // A refusal adds no row, and `DocketFull` is none of its reasons.
        ensures err { IfErr result (λ why. AddsNone self.now pass.old pass.new why) }
        ensures not_full { IfErr result (λ why. why ≢ SharedWant.DocketFull) }
        ensures own { own pass.new ≡ own pass.old }
    {
        let Some(turn) = self.begin_turn(rt, pass) else {
            return Err(SharedWant::TurnsSpent);
        };
        let view = turn.view(self);
        self.end_turn(pass, turn);
        view
    }
}

impl<A: Allocator + Copy> Turn<Desk<A>> {
    /// A view of the desk's state. Refused with `OutOfMemory`. Condition: the turn is one of this desk.
    pub fn view(&self, shared: &Shared<Desk<A>, A>) -> Result<View<A>, SharedWant>
        requires { IsTurnOf shared.now self.now }
        ensures ok { IfOk result (λ view. IsViewAfter (started beginning_of shared.now) view (seen_in self.now) (seen_in self.now)) }
        ensures err { IfErr result (λ why. why ≡ SharedWant.OutOfMemory) }
    {
        // Tells the prover that the docket is legal and leads to the state.
        let _rows = self.object.row_count();
        match self.object.view() {
            Ok(view) => Ok(view),
            Err(_) => Err(SharedWant::OutOfMemory),
        }
    }

    /// One more view, if another one has all nodes and names of the desk's state. Landings copy what they
    /// change then anyway, so this view makes them copy no more. While it is kept, nothing that they
    /// replace of this state is given back. Condition: the turn is one of this desk.
    pub(crate) fn view_beside_another(&self, shared: &Shared<Desk<A>, A>) -> Option<View<A>>
        requires { IsTurnOf shared.now self.now }
    {
        if Arc::strong_count(self.object.image().shape()) == 1 {
            return None;
        }
        self.view(shared).ok()
    }
}
