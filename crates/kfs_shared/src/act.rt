//! A call for the leases of a shared desk.
ghost use Rattle.std.specs.Prelude.{◌≡◌, IfOk, IfErr, OnErr};
ghost use Rattle.kfs_shared.specs.Calls.{IsActing};
ghost use Rattle.kfs_shared.specs.Passes.{IsPassOf, IsTurnOf, own, own_in};
ghost use Rattle.kfs_shared.specs.Sharing.{AddsNone, AddsNoneIn, AddsRow, AddsRowIn};

use crate::docketed::Docketed;
use crate::pass::{Pass, Shared, Turn};
use crate::seats::add_last;
use crate::want::SharedWant;
use kfs_desk::{ActReply, Desk, Unanswered};
use kfs_lease::Act;
use std::alloc::Allocator;
use std::sync::Wait;

impl<A: Allocator + Copy> Shared<Desk<A>, A> {
    /// Makes a call for leases, as `Desk::act` does: `lease`, `lease_at`, `drop_lease` or `tick`, given as a value.
    /// The answer, a refusal too, is a row of the docket. The pass has then seen all rows up to it, and
    /// the row is its own.
    ///
    /// Waits for its turn. Condition: the pass is one of this desk. Where the docket is full, memory is
    /// refused or no ticket is left, the call has added no row.
    pub fn act<R: Wait>(
        &self,
        rt: &R,
        pass: &mut Pass<Desk<A>>,
        act: Act<'_>,
    ) -> Result<ActReply, SharedWant>
        requires { IsPassOf self.now pass.old }
        ensures pass { IsPassOf self.now pass.new }
        ensures ok { IfOk result (λ reply. AddsRow self.now pass.old pass.new reply.position (IsActing act.entry reply)) }

        // Without an answer the pass has the rows that it had.
        ensures err { IfErr result (λ why. AddsNone self.now pass.old pass.new why) }
        ensures own { OnErr result (own pass.new ≡ own pass.old) }
    {
        let Some(turn) = self.begin_turn(rt, pass) else {
            return Err(SharedWant::TurnsSpent);
        };
        let (turn, answer) = turn.act(self, act);
        self.end_turn(pass, turn);
        answer
    }
}

impl<A: Allocator + Copy> Turn<Desk<A>> {
    /// Makes a call for leases, as `Desk::act` does. The answer is a row of the docket, the turn's own.
    /// Condition: the turn is one of this desk.
    pub fn act(
        self,
        shared: &Shared<Desk<A>, A>,
        act: Act<'_>,
    ) -> (Turn<Desk<A>>, Result<ActReply, SharedWant>)
        requires { IsTurnOf shared.now self }
        ensures turn { IsTurnOf shared.now result.0 }
        ensures ok { IfOk result.1 (λ reply. AddsRowIn shared.now self result.0 reply.position (IsActing act.entry reply)) }

        // Without an answer the turn has the rows that it had.
        ensures err { IfErr result.1 (λ why. AddsNoneIn shared.now self result.0 why) }
        ensures own { OnErr result.1 (own_in result.0 ≡ own_in self) }
    {
        let Turn { seat, object } = self;
        let mut seat = seat;
        let mut desk = object;
        // Tells the prover that the docket is legal and leads to the state.
        let _rows = desk.row_count();
        match desk.act(act) {
            Ok(reply) => {
                let object = add_last(&shared.table.shared, &mut seat, desk);
                (Turn { seat, object }, Ok(reply))
            }
            Err(why) => {
                let why = match why {
                    Unanswered::OutOfMemory => SharedWant::OutOfMemory,
                    Unanswered::DocketFull => SharedWant::DocketFull,
                };
                (Turn { seat, object: desk }, Err(why))
            }
        }
    }
}
