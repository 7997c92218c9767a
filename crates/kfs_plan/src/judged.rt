//! A verdict, and whether it holds in another view.
ghost use Rattle.std.specs.Prelude.{◌≡◌, ◌↔◌, IsTrue};
ghost use Rattle.std.specs.Option.{option_map};
ghost use Rattle.kfs_model.specs.Lease.{row_of};
ghost use Rattle.kfs_judge.specs.Views.{clients_of, client_sight_in, look_answer_of, answer_of, Agrees};
ghost use Rattle.kfs_plan.specs.Judged.{HoldsIn, IsKnown};

use crate::submission::{KeptOutcome, Submission};
use kfs_image_nodes::{Answer, Near};
use kfs_judge::{KeptReads, ReadAnswer, View};
use kfs_mode::Client;
use std::alloc::Allocator;
use std::marker::Model;

/// The verdict on a submission: the submission, the client and the reads that the verdict rests on, and
/// its outcome. It is the right verdict in each sound state that has the same client and agrees with
/// the reads.
#[derive(Drop)]
pub struct Judged<A: Allocator> {
    submission: Submission<A>,
    client: Option<Client>,
    reads: KeptReads<A>,
    outcome: KeptOutcome<A>,
}

impl<A: Allocator> Model for Judged<A> {
    ghost use Rattle.kfs_plan.specs.Judged.{Judged as JudgedShown, IsKnown};

    ghost Value = { JudgedShown A };

    ghost view = { λ j. record { submission = j.submission; client = j.client; reads = j.reads.entries; outcome = j.outcome } };

    ghost invariant = { λ j. IsKnown (record { submission = j.submission; client = j.client; reads = j.reads.entries; outcome = j.outcome }) };
}

impl<A: Allocator> Judged<A> {
    /// The verdict with these parts.
    pub(crate) fn of(
        submission: Submission<A>,
        client: Option<Client>,
        reads: KeptReads<A>,
        outcome: KeptOutcome<A>,
    ) -> Judged<A>
        requires known { IsKnown (record { submission = submission; client = client; reads = reads.entries; outcome = outcome }) }
        ensures { result ≡ record { submission = submission; client = client; reads = reads.entries; outcome = outcome } }
    {
        Judged {
            submission,
            client,
            reads,
            outcome,
        }
    }

    /// The submission. Takes no memory.
    pub fn submission(&self) -> &Submission<A>
        ensures { result.now ≡ self.now.submission }
    {
        &self.submission
    }

    /// The client that the verdict rests on; none where the submission's client is unknown. Takes no
    /// memory.
    pub fn client(&self) -> Option<&Client>
        ensures { option_map (λ row. row.now) result ≡ self.now.client }
    {
        self.client.as_ref()
    }

    /// The reads that the verdict rests on, with their answers, in the order of the first look. Takes
    /// no memory.
    pub fn reads(&self) -> &KeptReads<A>
        ensures { result.now.entries ≡ self.now.reads }
    {
        &self.reads
    }

    /// The outcome. Takes no memory.
    pub fn outcome(&self) -> &KeptOutcome<A>
        ensures { result.now ≡ self.now.outcome }
    {
        &self.outcome
    }

    /// The submission and the outcome. Takes no memory.
    pub fn into_parts(self) -> (Submission<A>, KeptOutcome<A>)
        ensures submission { result.0 ≡ self.submission }
        ensures outcome { result.1 ≡ self.outcome }
        ensures known { IsKnown self }
    {
        (self.submission, self.outcome)
    }
}

impl<A: Allocator + Copy> Judged<A> {
    /// Whether the verdict holds in this view: it has the same client, and answers each read as
    /// recorded. Takes no memory.
    pub fn holds_in(&self, view: &View<A>) -> bool
        ensures holds { IsTrue result ↔ HoldsIn view.now self.now }
        ensures known { IsKnown self.now }
    {
        let number = self.submission.client;
        has_row(view, number, self.client.as_ref()) && agrees(view, number, &self.reads)
    }
}

/// Whether the view has the same client with this number, or likewise none.
fn has_row<A: Allocator + Copy>(view: &View<A>, number: u32, row: Option<&Client>) -> bool
    ensures { IsTrue result ↔ (row_of (clients_of view.now) number ≡ option_map (λ r. r.now) row.entry) }
{
    match (view.client(number), row) {
        (Some(here), Some(row)) => here == row,
        (None, None) => true,
        (Some(_), None) | (None, Some(_)) => false,
    }
}

/// Whether the view answers each of the client's reads as recorded.
fn agrees<A: Allocator + Copy>(view: &View<A>, client: u32, reads: &KeptReads<A>) -> bool
    ensures { IsTrue result ↔ Agrees reads.now.entries (client_sight_in view.now client) }
{
    let mut near = Near::start();
    for (read, answer) in reads.iter() {
        if !is_same(view.answer_near(client, read, &mut near), *answer) {
            return false;
        }
    }
    true
}

/// Whether two answers are the same.
fn is_same(one: ReadAnswer, other: ReadAnswer) -> bool
    ensures { IsTrue result ↔ (answer_of one ≡ answer_of other) }
{
    match one {
        ReadAnswer::Look(one) => match other {
            ReadAnswer::Look(other) => is_same_look(one, other),
            ReadAnswer::Lease(_) => false,
        },
        ReadAnswer::Lease(one) => match other {
            ReadAnswer::Look(_) => false,
            ReadAnswer::Lease(other) => one == other,
        },
    }
}

/// Whether two answers at cells are the same; whether the number is a name's or a parent's doesn't
/// matter.
fn is_same_look(one: Answer, other: Answer) -> bool
    ensures { IsTrue result ↔ (look_answer_of one ≡ look_answer_of other) }
{
    match one {
        Answer::Header(one) => match other {
            Answer::Header(other) => one == other,
            Answer::Name(_) | Answer::Count(_) | Answer::Parent(_) => false,
        },
        Answer::Count(one) => match other {
            Answer::Count(other) => one == other,
            Answer::Header(_) | Answer::Name(_) | Answer::Parent(_) => false,
        },
        Answer::Name(one) | Answer::Parent(one) => match other {
            Answer::Name(other) | Answer::Parent(other) => one == other,
            Answer::Header(_) | Answer::Count(_) => false,
        },
    }
}
