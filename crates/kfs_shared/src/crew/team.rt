//! Work side by side.
ghost use Rattle.std.specs.Thread.{IsSend, IsSync};
ghost use Rattle.std.specs.Prelude.{◌≡◌, ◌<◌, length, All};
ghost use Rattle.kfs_shared.specs.Crew.Crew.{Pairs};

use std::sync::Wait;
use std::thread::{Threads, join_mut};

/// Work that one thread does, with something that all have in common.
pub trait Work<C> {
    /// It can be done.
    ghost ready: { C → Self → Type 0 };

    /// The first was done, and is now the second.
    ghost worked: { C → Self → Self → Type 0 };

    fn work<R: Wait>(&mut self, rt: &R, common: &C)
        requires { ready common.now self.old }
        ensures { worked common.now self.old self.new };
}

/// Does all work, each in a thread of its own where one can be had. Where none can, a thread does it that
/// has work already. Takes no memory.
#[tactic(auto, using(crate::proofs::CrewLemmas::Crews::pairs_both))]
#[cycle(halves)]
pub fn work_together<C: Sync, W: Work<C> + Send, R: Threads + Wait + Sync>(
    rt: &R,
    common: &C,
    all: &mut [W],
)
    requires ready { All (W.ready common.now) all.old }
    ensures worked { Pairs (W.worked common.now) all.old all.new }
{
    if all.is_empty() {
        return;
    }
    if all.len() == 1 {
        all[0].work(rt, common);
        return;
    }
    let half = all.len() / 2;
    let (left, right) = all.split_at_mut(half);
    both_halves(rt, common, left, right);
}

#[cycle(halves)]
fn both_halves<C: Sync, W: Work<C> + Send, R: Threads + Wait + Sync>(
    rt: &R,
    common: &C,
    left: &mut [W],
    right: &mut [W],
)
    requires left { All (W.ready common.now) left.old }
    requires right { All (W.ready common.now) right.old }
    requires some { (0 < length left.old) × (0 < length right.old) }
    ensures left { Pairs (W.worked common.now) left.old left.new }
    ensures right { Pairs (W.worked common.now) right.old right.new }
{
    let mut lefts = ||
        requires { IsSync R.row × IsSync C.row × IsSend W.row × All (W.ready common.now) left.now }
        ensures { Pairs (W.worked common.entry.now) left.entry.now left.exit.now }
    { work_together(rt, common, left) };
    let mut rights = ||
        requires { IsSync R.row × IsSync C.row × IsSend W.row × All (W.ready common.now) right.now }
        ensures { Pairs (W.worked common.entry.now) right.entry.now right.exit.now }
    { work_together(rt, common, right) };
    join_mut(rt, &mut lefts, &mut rights);
}
