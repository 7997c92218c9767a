//! How a turn begins and ends. All calls that need the object go this way, and none of them gives a turn
//! away.
ghost use Rattle.std.specs.Prelude.{◌≡◌, true, IfSome, IfNone};
ghost use Rattle.kfs_shared.specs.Turns.Lists.{StartsWith};
ghost use Rattle.kfs_shared.specs.Passes.{IsPassOf, IsTurnOf, seen, own, ended, seen_in, own_in};

use crate::docketed::Docketed;
use crate::pass::{Pass, Shared, Turn};
use crate::seats::{enter, give_back};
use std::alloc::Allocator;
use std::mem;
use std::sync::Wait;

impl<D: Docketed, A: Allocator> Shared<D, A> {
    /// Waits for the pass's turn, and begins it. None where there is no ticket left.
    ///
    /// The turn has seen the docket as it is, and has the pass's own rows. Until it ends, another pass
    /// stands in the pass's place. Condition: the pass is one of this object.
    pub(crate) fn begin_turn<R: Wait>(&self, rt: &R, pass: &mut Pass<D>) -> Option<Turn<D>>
        requires { IsPassOf self.now pass.old }
        ensures pass { IsPassOf self.now pass.new }
        ensures turn { IfSome result (IsTurnOf self.now) }
        ensures begins { IfSome result (λ turn. StartsWith (seen_in turn) (seen pass.old)) }
        ensures own { IfSome result (λ turn. own_in turn ≡ own pass.old) }
        ensures none { IfNone result ((ended pass.new ≡ true) × (seen pass.new ≡ seen pass.old) × (own pass.new ≡ own pass.old)) }
    {
        let spare = self.fork(pass);
        let Pass { seat, rows } = mem::replace(pass, spare);
        let mut seat = seat;
        match enter(rt, &self.table.shared, &mut seat) {
            Some(object) => Some(Turn { seat, object }),
            None => {
                *pass = Pass { seat, rows };
                None
            }
        }
    }

    /// Ends the turn: puts the object back, and passes the turn on. The pass has seen and made what the
    /// turn has. Condition: the pass, which stands in the place of the turn's, and the turn are of this
    /// object.
    pub(crate) fn end_turn(&self, pass: &mut Pass<D>, turn: Turn<D>)
        requires pass { IsPassOf self.now pass.old }
        requires turn { IsTurnOf self.now turn }
        ensures pass { IsPassOf self.now pass.new }
        ensures seen { seen pass.new ≡ seen_in turn }
        ensures own { own pass.new ≡ own_in turn }
    {
        let Turn { seat, object } = turn;
        let mut seat = seat;
        let rows = give_back(&self.table.shared, &mut seat, object);
        *pass = Pass { seat, rows };
    }
}
