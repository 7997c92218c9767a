//! What one worker does with its pass.
ghost use Rattle.std.specs.Prelude.{◌≡◌, ℕ, List, []};
ghost use Rattle.kfs_shared.specs.Passes.{IsPassOf, started, seen, own};

use crate::{Docketed, Pass, Shared};
use std::alloc::Allocator;
use std::sync::Wait;

/// All that one worker does with its pass.
pub trait Duty<D: Docketed, A: Allocator> {
    /// Of an object that was begun so: where the pass had seen the first rows and had none of its own, it
    /// has seen the second ones, these are its own, and the duty was the first and is the second.
    ghost worked: { D.Opening → List D.Row → List D.Row → List ℕ → Self → Self → Type 0 };

    fn work<R: Wait>(&mut self, rt: &R, shared: &Shared<D, A>, pass: &mut Pass<D>)
        requires pass { IsPassOf shared.now pass.old }
        requires begun { own pass.old ≡ [] }
        ensures pass { IsPassOf shared.now pass.new }
        ensures worked { worked (started D.opening shared.now) (seen pass.old) (seen pass.new) (own pass.new) self.old self.new };
}
