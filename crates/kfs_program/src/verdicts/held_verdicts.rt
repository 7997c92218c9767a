//! The verdicts that workers hold: each worker one, or none.
ghost use Rattle.std.specs.Prelude.{◌≡◌, ◌↔◌, IfOk, IsTrue, None, Some, option_map};
ghost use Rattle.kfs_program.specs.Verdicts.HeldVerdicts.{held_by, no_verdict, with_held};
ghost use Rattle.kfs_desk.specs.Verdict.Verdict.{verdict_of};

use kfs_desk::{WORKERS, none_of};
use kfs_plan::Judged;
use kfs_program_text::{LAST_WORKER, Worker};
use std::alloc::{AllocError, Allocator};
use std::marker::Model;

// Each number of a `Worker` has its place.
const _: () = prove!(LAST_WORKER + 1 == WORKERS as u64);

/// The verdict of each worker, by the worker's number.
#[derive(Drop)]
pub struct HeldVerdicts<A: Allocator> {
    held: Vec<Option<Judged<A>>, A>,
}

impl<A: Allocator> Model for HeldVerdicts<A> {
    ghost use Rattle.kfs_program.specs.Verdicts.HeldVerdicts.{HeldVerdicts as VerdictsShown};
    ghost use Rattle.std.specs.Prelude.{◌≡◌, length};

    ghost Value = { VerdictsShown };

    ghost use Rattle.kfs_program.specs.Verdicts.Holding.{hands_of};

    ghost view = { λ h. hands_of h.held.items };

    ghost invariant = { λ h. length h.held.items ≡ 8 };
}

impl<A: Allocator> HeldVerdicts<A> {
    /// No worker holds a verdict. `Err` where memory runs out.
    pub fn new(alloc: A) -> Result<HeldVerdicts<A>, AllocError>
        ensures { IfOk result (λ hands. hands ≡ no_verdict) }
    {
        let held = none_of(alloc, WORKERS)?;
        Ok(HeldVerdicts { held })
    }

    /// Whether the worker holds no verdict.
    pub fn is_empty(&self, worker: Worker) -> bool
        ensures { IsTrue result ↔ (held_by self.now worker.number ≡ None) }
    {
        self.held[worker.number()].is_none()
    }

    /// Gives the verdict to the worker.
    pub fn put(&mut self, worker: Worker, judged: Judged<A>)
        ensures { self.new ≡ with_held self.old worker.number (Some (verdict_of judged)) }
    {
        self.held[worker.number()] = Some(judged);
    }

    /// Takes the worker's verdict away, if it holds one.
    pub fn take(&mut self, worker: Worker) -> Option<Judged<A>>
        ensures taken { option_map verdict_of result ≡ held_by self.old worker.number }
        ensures left { self.new ≡ with_held self.old worker.number None }
    {
        self.held[worker.number()].take()
    }

    /// Gives up the worker's verdict, if it holds one.
    pub fn give_up(&mut self, worker: Worker)
        ensures { self.new ≡ with_held self.old worker.number None }
    {
        // What was held is dropped.
        let _verdict = self.take(worker);
    }
}
