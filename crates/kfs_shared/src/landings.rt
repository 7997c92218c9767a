//! Several landings at a shared desk, in one turn.
ghost use Rattle.std.specs.Prelude.{◌≡◌, ◌≢◌, IfOk, IfErr};
ghost use Rattle.kfs_shared.specs.Landings.{AreHandedBack, IsHandedBack, LandsEach, LandsEachIn, LandsIn};
ghost use Rattle.kfs_shared.specs.Passes.{IsPassOf, IsTurnOf};
ghost use Rattle.kfs_shared.specs.Sharing.{ShowsNone, ShowsSeen};

use crate::land::{Spent, answer_of, unlanded};
use crate::pass::{Pass, Shared, Turn};
use crate::want::{SharedBack, SharedWant};
use kfs_desk::{Desk, Reply};
use kfs_judge::View;
use kfs_plan::Judged;
use std::alloc::Allocator;
use std::sync::Wait;

/// Something that may have a verdict to be landed, and keeps the answer: at a desk a `Judged`, and a
/// `Reply` or a `SharedBack`.
///
/// `Shared::land_each` calls both methods while it has the turn. So they are to be short, and a call of
/// the same shared desk in one of them would wait for ever.
pub trait Landing<Verdict, Back> {
    ghost use Rattle.std.specs.Prelude.{◌≡◌, ℕ, Option, Result, IfNone};
    ghost use Rattle.kfs_desk.specs.declared.history.answers.Reply.{Reply};

    /// The number by which its caller knows it.
    ghost number: { Self → ℕ };

    /// Its verdict, if it has one.
    ghost verdict: { Self → Option Verdict };

    /// It keeps this answer.
    ghost keeps: { Self → Result Reply Back → Type 0 };

    /// Gives its verdict out, if it has one. Else nothing changes.
    fn give(&mut self) -> Option<Verdict>
        ensures verdict { result ≡ verdict self.old }
        ensures number { number self.new ≡ number self.old }
        ensures same { IfNone result (self.new ≡ self.old) };

    /// Keeps the answer to the verdict that it has given out.
    fn keep(&mut self, answer: Result<Reply, Back>)
        ensures number { number self.new ≡ number self.old }
        ensures kept { keeps self.new answer };
}

impl<A: Allocator + Copy> Shared<Desk<A>, A> {
    /// Lands the verdicts one after another, each as `land` does, all in one turn. Each answer is kept.
    /// Then takes a view in the same turn, of the state to which they lead.
    ///
    /// Waits for its turn. Condition: the pass is one of this desk. Where no ticket is left, all
    /// submissions come back for `TurnsSpent`, and there is no view. Else a view is refused with
    /// `OutOfMemory` alone.
    ///
    /// The verdicts go once the turn has ended, with what was found of those that were judged again. Where
    /// memory is refused for a list of them, each goes in the turn.
    pub fn land_each<L: Landing<Judged<A>, SharedBack<A>>, R: Wait>(
        &self,
        rt: &R,
        pass: &mut Pass<Desk<A>>,
        landings: &mut [L],
    ) -> Result<View<A>, SharedWant>
        requires { IsPassOf self.now pass.old }
        ensures pass { IsPassOf self.now pass.new }
        ensures landed { LandsEach L.number L.verdict L.keeps self.now pass.old pass.new landings.old landings.new }
        ensures ok { IfOk result (λ view. ShowsSeen self.now pass.old pass.new view) }
        ensures err { IfErr result (λ why. ShowsNone self.now pass.old pass.new why) }
        ensures not_full { IfErr result (λ why. why ≢ SharedWant.DocketFull) }
    {
        let mut replaced = None;
        self.land_each_keeping(rt, pass, landings, &mut replaced)
    }

    /// The same. A view of the state before the landings takes the place of `replaced`, if there was
    /// another one in this turn. So the parts of the state that they replace are kept with it. What it
    /// takes the place of goes once the turn has ended.
    pub(crate) fn land_each_keeping<L: Landing<Judged<A>, SharedBack<A>>, R: Wait>(
        &self,
        rt: &R,
        pass: &mut Pass<Desk<A>>,
        landings: &mut [L],
        replaced: &mut Option<View<A>>,
    ) -> Result<View<A>, SharedWant>
        requires { IsPassOf self.now pass.old }
        ensures pass { IsPassOf self.now pass.new }
        ensures landed { LandsEach L.number L.verdict L.keeps self.now pass.old pass.new landings.old landings.new }
        ensures ok { IfOk result (λ view. ShowsSeen self.now pass.old pass.new view) }
        ensures err { IfErr result (λ why. ShowsNone self.now pass.old pass.new why) }
        ensures not_full { IfErr result (λ why. why ≢ SharedWant.DocketFull) }
    {
        let mut spent = room_for(self.alloc, landings.len());
        let Some(turn) = self.begin_turn(rt, pass) else {
            hand_back(landings);
            return Err(SharedWant::TurnsSpent);
        };
        let before = turn.view_beside_another(self);
        let turn = land_in(self, turn, landings, &mut spent);
        let view = turn.view(self);
        self.end_turn(pass, turn);
        put_view(replaced, before);
        view
    }
}

/// Puts a view in the place of another one, which goes.
fn put_view<A: Allocator>(there: &mut Option<View<A>>, view: Option<View<A>>) {
    *there = view;
}

/// A list for so many verdicts that have landed, which are to go once the turn has ended. It has no room
/// where memory is refused.
fn room_for<A: Allocator>(alloc: A, count: usize) -> Vec<Spent<A>, A> {
    let mut spent = Vec::new(alloc);
    // Without room a verdict goes at once, which answers the same.
    let _ = spent.reserve(count);
    spent
}

/// Lands the verdict in the turn, if there is one.
fn land_one<A: Allocator + Copy, L: Landing<Judged<A>, SharedBack<A>>>(
    shared: &Shared<Desk<A>, A>,
    turn: Turn<Desk<A>>,
    landing: &mut L,
    spent: &mut Vec<Spent<A>, A>,
) -> Turn<Desk<A>>
    requires { IsTurnOf shared.now turn }
    ensures turn { IsTurnOf shared.now result }
    ensures landed { LandsIn L.number L.verdict L.keeps shared.now turn result landing.old landing.new }
{
    let Some(judged) = landing.give() else {
        return turn;
    };
    let (turn, reply) = turn.land(shared, &judged);
    let answer = answer_of(judged, reply, spent);
    landing.keep(answer);
    turn
}

/// Lands the verdicts in the turn, in their order. It halves them, so the depth of its calls is small.
fn land_in<A: Allocator + Copy, L: Landing<Judged<A>, SharedBack<A>>>(
    shared: &Shared<Desk<A>, A>,
    turn: Turn<Desk<A>>,
    landings: &mut [L],
    spent: &mut Vec<Spent<A>, A>,
) -> Turn<Desk<A>>
    requires { IsTurnOf shared.now turn }
    ensures turn { IsTurnOf shared.now result }
    ensures landed { LandsEachIn L.number L.verdict L.keeps shared.now turn result landings.old landings.new }
{
    if landings.is_empty() {
        return turn;
    }
    if landings.len() == 1 {
        return land_one(shared, turn, &mut landings[0], spent);
    }
    let half = landings.len() / 2;
    let (earlier, later) = landings.split_at_mut(half);
    let turn = land_in(shared, turn, earlier, spent);
    land_in(shared, turn, later, spent)
}

/// Gives the submission of the verdict back, if there is one.
fn hand_one_back<A: Allocator, L: Landing<Judged<A>, SharedBack<A>>>(landing: &mut L)
    ensures { IsHandedBack L.number L.verdict L.keeps landing.old landing.new }
{
    if let Some(judged) = landing.give() {
        landing.keep(Err(unlanded(judged)));
    }
}

/// Gives the submissions of the verdicts back, as no ticket is left.
fn hand_back<A: Allocator, L: Landing<Judged<A>, SharedBack<A>>>(landings: &mut [L])
    ensures { AreHandedBack L.number L.verdict L.keeps landings.old landings.new }
{
    if landings.is_empty() {
        return;
    }
    if landings.len() == 1 {
        hand_one_back(&mut landings[0]);
        return;
    }
    let half = landings.len() / 2;
    let (earlier, later) = landings.split_at_mut(half);
    hand_back(earlier);
    hand_back(later);
}
