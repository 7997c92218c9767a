//! Workers, each with a pass of its own.
ghost use Rattle.std.specs.Prelude.{◌≡◌, []};

use crate::crew::duty::Duty;
use crate::crew::team::Work;
use crate::{Docketed, Pass, Shared};
use std::alloc::Allocator;
use std::sync::Wait;

/// A worker with its duty.
#[derive(Drop)]
pub struct Worker<D: Docketed, T> {
    pub pass: Pass<D>,
    pub duty: T,
}

impl<D: Docketed, A: Allocator, T: Duty<D, A>> Work<Shared<D, A>> for Worker<D, T> {
    ghost use Rattle.kfs_shared.specs.Passes.{IsPassOf, started, seen, own};

    ghost ready = { λ shared w. IsPassOf shared w.pass × (own w.pass ≡ []) };

    ghost worked = { λ shared v w. IsPassOf shared w.pass × T.worked (started D.opening shared) (seen v.pass) (seen w.pass) (own w.pass) v.duty w.duty };

    fn work<R: Wait>(&mut self, rt: &R, common: &Shared<D, A>) {
        self.duty.work(rt, common, &mut self.pass);
    }
}
