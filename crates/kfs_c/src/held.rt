//! What a handle may hold.
ghost use Rattle.std.specs.Prelude.{◌≡◌, IfSome, IfNone};
ghost use Rattle.std.specs.Global.{Global};
ghost use Rattle.kfs_plan.specs.Judged.{Judged as JudgedShown};

use kfs_desk::{Desk, DeskView};
use kfs_plan::Judged;
use std::alloc::Global;

/// One of the things that a host holds.
pub enum Held {
    /// A desk.
    Desk(Desk<Global>),
    /// A view of a desk, to be judged against.
    View(DeskView<Global>),
    /// A verdict, to be landed.
    Verdict(Judged<Global>),
}

impl Held {
    /// The verdict, if it is one.
    pub fn into_verdict(self) -> Option<Judged<Global>>
        ensures verdict { IfSome result (λ judged. self ≡ Held.Verdict judged) }
        ensures other { IfNone result ((judged : JudgedShown Global) → self ≡ Held.Verdict judged → ⊥) }
    {
        match self {
            Held::Verdict(judged) => Some(judged),
            Held::Desk(desk) => {
                drop(desk);
                None
            }
            Held::View(view) => {
                drop(view);
                None
            }
        }
    }
}

// Written out, so that the drop of the three is proved here once and not again in each crate that drops
// one.
impl Drop for Held {
    fn drop(self) {
        match self {
            Held::Desk(desk) => drop(desk),
            Held::View(view) => drop(view),
            Held::Verdict(verdict) => drop(verdict),
        }
    }
}
