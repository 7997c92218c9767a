//! One submission of a batch: where it is, and what its worker does for it.
ghost use Rattle.std.specs.Prelude.{◌≡◌, ◌≢◌, IfOk, IfErr};
ghost use Rattle.kfs_shared.specs.Batch.Jobs.{IsJudged};

use crate::{Landing, SharedBack, SharedWant};
use kfs_desk::Reply;
use kfs_judge::View;
use kfs_plan::{Back, Judged, Submission, judge};
use std::alloc::Allocator;
use std::mem;

/// What is called before each landing of a batch.
pub trait Gate {
    /// Called once the submission with this number is judged, and before it is landed. No turn is held:
    /// other workers look, judge and land meanwhile. A worker makes these calls in the order of its
    /// submissions, and may have made several before it lands. It is to return.
    fn before(&self, number: u32);
}

/// Where a submission is.
#[derive(Drop)]
pub enum Hand<A: Allocator> {
    /// It waits for its worker.
    Waiting(Submission<A>),
    /// Its worker has it.
    Taken,
    /// It is judged.
    Judged(Box<Judged<A>, A>),
    /// It is answered.
    Replied(Reply),
    /// It isn't answered.
    Back(SharedBack<A>),
}

/// A submission with its number, and what a worker needs for it.
#[derive(Drop)]
pub struct Job<'g, A: Allocator, G> {
    pub alloc: A,
    pub gate: &'g G,
    pub number: u32,
    pub hand: Hand<A>,
}

/// The submission, which no memory was found for.
fn wanting<A: Allocator>(submission: Submission<A>) -> SharedBack<A>
    ensures submission { result.submission ≡ submission }
    ensures why { result.why ≡ SharedWant.OutOfMemory }
{
    let why = SharedWant::OutOfMemory;
    SharedBack { submission, why }
}

/// The verdict on the submission, if there is a view. Else, or where memory runs out, the submission.
fn verdict<A: Allocator + Copy>(
    alloc: A,
    view: &Result<View<A>, SharedWant>,
    submission: Submission<A>,
) -> Result<Box<Judged<A>, A>, SharedBack<A>>
    requires view { IfErr view.now (λ why. why ≢ SharedWant.DocketFull) }
    ensures submission { IfOk result (λ judged. judged.value.submission ≡ submission) }
    ensures back { IfErr result (λ back. back.submission ≡ submission) }
    ensures not_full { IfErr result (λ back. back.why ≢ SharedWant.DocketFull) }
{
    let view = match view {
        Ok(view) => view,
        Err(why) => {
            let why = *why;
            return Err(SharedBack { submission, why });
        }
    };
    let judged = match judge(alloc, view, submission) {
        Ok(judged) => judged,
        Err(Back { submission, why: _ }) => return Err(wanting(submission)),
    };
    match Box::new(alloc, judged) {
        Ok(judged) => Ok(judged),
        Err(refused) => {
            let (submission, _outcome) = refused.value.into_parts();
            Err(wanting(submission))
        }
    }
}

impl<'g, A: Allocator + Copy, G: Gate> Job<'g, A, G> {
    /// Judges a submission that waits, and calls the gate if there is a verdict. Else the submission is
    /// back.
    pub fn judge(&mut self, view: &Result<View<A>, SharedWant>)
        requires view { IfErr view.now (λ why. why ≢ SharedWant.DocketFull) }
        ensures number { self.new.number ≡ self.old.number }
        ensures judged { IsJudged self.old.hand self.new.hand }
    {
        let Hand::Waiting(submission) = mem::replace(&mut self.hand, Hand::Taken) else {
            return;
        };
        match verdict(self.alloc, view, submission) {
            Ok(judged) => {
                self.gate.before(self.number);
                self.hand = Hand::Judged(judged);
            }
            Err(back) => self.hand = Hand::Back(back),
        }
    }
}

impl<'g, A: Allocator + Copy, G: Gate> Landing<Judged<A>, SharedBack<A>> for Job<'g, A, G> {
    ghost use Rattle.std.specs.Prelude.{◌≡◌};
    ghost use Rattle.kfs_shared.specs.Batch.Jobs.{kept, verdict_of};

    ghost number = { λ job. job.number };

    ghost verdict = { λ job. verdict_of job.hand };

    ghost keeps = { λ job answer. job.hand ≡ kept answer };

    fn give(&mut self) -> Option<Judged<A>> {
        match mem::replace(&mut self.hand, Hand::Taken) {
            Hand::Judged(judged) => Some(Box::into_inner(judged)),
            hand => {
                self.hand = hand;
                None
            }
        }
    }

    fn keep(&mut self, answer: Result<Reply, SharedBack<A>>)
        ensures number { self.new.number ≡ self.old.number }
        ensures kept { self.new.hand ≡ kept answer }
    {
        self.hand = match answer {
            Ok(reply) => Hand::Replied(reply),
            Err(back) => Hand::Back(back),
        };
    }
}
