//! What a judgement reads of a view. Where reads are kept, each is made once.

ghost use Rattle.std.specs.Prelude.{◌≡◌, ℕ, ℤ, pos, Bool, true, false, [], ◌∷◌, Option, OnOk};
ghost use Rattle.std.proofs.Props.{props};
ghost use Rattle.std.specs.Option.{option_map};
ghost use Rattle.kfs_types.specs.Views.{header_of};
ghost use Rattle.kfs_model.specs.Header.{Header as HeaderShown};
ghost use Rattle.kfs_model.specs.Sight.{answer, Head, Number, Count, Held, CountOf, ParentOf, LeaseOn};
ghost use Rattle.kfs_judge_reads.specs.Reads.{cell_of, answer_of};
ghost use Rattle.kfs_judge_reads.specs.Climbs.{ClimbsHold};

use crate::climbs::{Climbs, Way};
use crate::draft::NameKey;
use crate::kept_read::KeptRead;
use crate::looks::Looks;
use crate::record::Reads;
use crate::view::View;
use kfs_image_nodes::{Answer, Cell, Header, Near};
use std::alloc::{AllocError, Allocator};

/// One thing that a judgement may read of a state, for its client.
#[derive(Clone, Debug, PartialEq, Eq, Hash, Drop)]
pub enum Read {
    /// A cell of the nodes and names.
    Look(Cell),
    /// Whether the client holds a live write lease on the node with this number.
    Lease(u32),
}

/// The answer to a read of the same case.
#[derive(Clone, Copy, Debug, PartialEq, Eq)]
pub enum ReadAnswer {
    /// What the cell shows.
    Look(Answer),
    /// Whether the lease is held.
    Lease(bool),
}

/// Reads a view for one client, and records each read with its answer. `Err` where memory for the
/// record is refused; that read isn't recorded then.
#[derive(Drop)]
pub struct Recorder<'a, 'e, 's, A: Allocator> {
    alloc: A,
    looks: Looks<'a, 'e, 's, A>,
    client: u32,
    reads: Reads<A>,
    climbs: Climbs<A>,
    ghost ways: { ClimbsHold reads.entries climbs } by { Prim.hlevel props },
}

impl<'a, 'e, 's, A: Allocator + Copy> Recorder<'a, 'e, 's, A> {
    ghost use Rattle.kfs_judge_reads.specs.Climbs.{is_among, is_taken, IsWayOver, Follows};
    ghost use Rattle.kfs_judge_reads.specs.Recorders.{seen_by, AnswersLook, GoesOn, Known, LooksAtHeader, LooksAtName};
    ghost use Rattle.kfs_judge_reads.specs.View.{client_sight_in};

    /// For the client with this number, with the reads so far. Takes no memory.
    pub fn new(alloc: A, view: &'a View<A>, client: u32, reads: Reads<A>) -> Recorder<'a, 'e, 's, A>
        ensures reads { result.reads ≡ reads }
        ensures seen { seen_by result ≡ client_sight_in view.now client }
    {
        Recorder {
            alloc,
            looks: Looks::new(view),
            client,
            reads,
            climbs: Climbs::new(alloc),
        }
    }

    /// The recorded answer to a read, or else the view's, which is then recorded. Where reads aren't
    /// kept, it is the view's.
    #[inline(always)]
    fn read(&mut self, read: KeptRead<A>) -> Result<ReadAnswer, AllocError>
        ensures climbs { self.new.climbs ≡ self.old.climbs }
        ensures looks { AnswersLook self.old self.new result (cell_of read ∷ []) (λ told before. answer before (cell_of read) ≡ answer_of told) }
    {
        if self.reads.are_kept() {
            return self.read_kept(read);
        }
        let answer = self.view_answer(&read);
        self.reads.see(&read, &answer);
        Ok(answer)
    }

    /// The same, where reads are kept.
    // A function's frame is cleared at each call. So a read that isn't kept is answered without the frame of
    // this function.
    #[inline(never)]
    fn read_kept(&mut self, read: KeptRead<A>) -> Result<ReadAnswer, AllocError>
        ensures climbs { self.new.climbs ≡ self.old.climbs }
        ensures looks { AnswersLook self.old self.new result (cell_of read ∷ []) (λ told before. answer before (cell_of read) ≡ answer_of told) }
    {
        if let Some(answer) = self.reads.get(&read) {
            return Ok(answer);
        }
        let answer = self.view_answer(&read);
        self.reads.add(read, answer)?;
        Ok(answer)
    }

    /// The view's answer to a read.
    fn view_answer(&self, read: &KeptRead<A>) -> ReadAnswer
        ensures { answer (seen_by self.now) (cell_of read.now) ≡ answer_of result }
    {
        let mut near = Near::start();
        self.looks.view.answer_near(self.client, read, &mut near)
    }

    /// The header of a node, or none.
    pub fn header(&mut self, number: u32) -> Result<Option<Header>, AllocError>
        ensures { LooksAtHeader self.old self.new result number (λ header before. before.sight.head number ≡ option_map header_of header) }
    {
        if self.reads.are_kept() {
            return self.header_kept(number);
        }
        let header = self.looks.header(number);
        let seen = KeptRead::header(number);
        self.reads
            .see(&seen, &ReadAnswer::Look(Answer::Header(header)));
        Ok(header)
    }

    /// The same, where reads are kept.
    #[inline(never)]
    fn header_kept(&mut self, number: u32) -> Result<Option<Header>, AllocError>
        ensures { LooksAtHeader self.old self.new result number (λ header before. before.sight.head number ≡ option_map header_of header) }
    {
        let answer = self.read_kept(KeptRead::header(number))?;
        Ok(header_in(answer))
    }

    /// The number that a name leads to, or none.
    pub fn target(&mut self, key: &NameKey<'e, 's>) -> Result<Option<u32>, AllocError>
        ensures { LooksAtName self.old self.new result key.now (λ number before. before.sight.name key.now.0 key.now.1 ≡ number) }
    {
        if self.reads.are_kept() {
            return self.target_kept(key);
        }
        let number = self.looks.target(key);
        self.reads.see_name(key, number);
        Ok(number)
    }

    /// The same, where reads are kept.
    #[inline(never)]
    fn target_kept(&mut self, key: &NameKey<'e, 's>) -> Result<Option<u32>, AllocError>
        ensures { LooksAtName self.old self.new result key.now (λ number before. before.sight.name key.now.0 key.now.1 ≡ number) }
    {
        let read = KeptRead::name(self.alloc, key)?;
        if let Some(answer) = self.reads.get(&read) {
            return Ok(number_in(answer));
        }
        let number = self.looks.target(key);
        let answer = ReadAnswer::Look(Answer::Name(number));
        self.reads.add(read, answer)?;
        Ok(number)
    }

    /// How many names a directory has.
    pub fn count(&mut self, dir: u32) -> Result<u64, AllocError>
        ensures { AnswersLook self.old self.new result (CountOf dir ∷ []) (λ count before. before.sight.count dir ≡ pos count) }
    {
        let answer = self.read(KeptRead::count(dir))?;
        Ok(count_in(answer))
    }

    /// The directory's parent, or none.
    pub fn parent(&mut self, number: u32) -> Result<Option<u32>, AllocError>
        ensures climbs { self.new.climbs ≡ self.old.climbs }
        ensures looks { AnswersLook self.old self.new result (ParentOf number ∷ []) (λ parent before. before.sight.parent number ≡ parent) }
    {
        let answer = self.read(KeptRead::parent(number))?;
        Ok(number_in(answer))
    }

    /// The directory's parent, or none. The step to it is kept for later climbs.
    pub fn climb(&mut self, number: u32) -> Result<Option<u32>, AllocError>
        requires { is_taken self.old.climbs number ≡ false }
        ensures looks { AnswersLook self.old self.new result (ParentOf number ∷ []) (λ parent before. before.sight.parent number ≡ parent) }
        ensures follows { (are : ℕ → Bool) → are number ≡ false → Follows are self.old.climbs → Follows are self.new.climbs }
    {
        let parent = self.parent(number)?;
        if let Some(up) = parent {
            self.climbs.keep(number, up)?;
        }
        Ok(parent)
    }

    /// Before a climb: the ways that are kept stop at each of these directories, whose parents the
    /// entries so far have written.
    pub fn follow(&mut self, moved: &[u32]) -> Result<(), AllocError>
        ensures goes { GoesOn self.old self.new }
        ensures reads { self.new.reads.entries ≡ self.old.reads.entries }
        ensures follows { OnOk result (Follows (is_among moved.now) self.new.climbs) }
    {
        self.climbs.follow(moved)
    }

    /// The way that is kept from the one directory on, up to `node` if that is on it. It is right where
    /// the parents of all directories but those that have stops are the view's.
    pub fn way(&self, from: u32, node: u32) -> Way
        ensures { (are : ℕ → Bool) → Follows are self.now.climbs → Known self.now (IsWayOver are node result.steps from result.last) }
    {
        self.climbs.way(from, node)
    }

    /// Whether the client holds a live write lease on the node.
    pub fn is_held(&mut self, number: u32) -> Result<bool, AllocError>
        ensures { AnswersLook self.old self.new result (LeaseOn number ∷ []) (λ held before. before.held number ≡ held) }
    {
        let answer = self.read(KeptRead::lease(number))?;
        Ok(held_in(answer))
    }

    /// The recorded reads. Takes no memory.
    pub fn into_reads(self) -> Reads<A>
        ensures { result ≡ self.entry.reads }
    {
        self.reads
    }
}

/// The header in an answer.
fn header_in(answer: ReadAnswer) -> Option<Header>
    ensures { (header : Option HeaderShown) → Head header ≡ answer_of answer → header ≡ option_map header_of result }
{
    match answer {
        ReadAnswer::Look(Answer::Header(header)) => header,
        _ => None,
    }
}

/// The number in an answer.
fn number_in(answer: ReadAnswer) -> Option<u32>
    ensures { (number : Option ℕ) → Number number ≡ answer_of answer → number ≡ result }
{
    match answer {
        ReadAnswer::Look(Answer::Name(number)) | ReadAnswer::Look(Answer::Parent(number)) => number,
        _ => None,
    }
}

/// The count in an answer.
fn count_in(answer: ReadAnswer) -> u64
    ensures { (count : ℤ) → Count count ≡ answer_of answer → count ≡ pos result }
{
    match answer {
        ReadAnswer::Look(Answer::Count(count)) => count,
        _ => 0,
    }
}

/// Whether the lease in an answer is held.
fn held_in(answer: ReadAnswer) -> bool
    ensures { (held : Bool) → Held held ≡ answer_of answer → held ≡ result }
{
    match answer {
        ReadAnswer::Lease(held) => held,
        _ => false,
    }
}
