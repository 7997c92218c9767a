//! The reads that a judgement has made, with their answers.
ghost use Rattle.std.specs.Prelude.{◌≡◌, true, false, List, [], ◌∷◌, ◌++◌, None, Some, OnErr, OnOk, IfSome, IfNone, is_some};
ghost use Rattle.std.specs.Map.{lookup};
ghost use Rattle.indexmap.specs.IndexMap.{insert_entry};
ghost use Rattle.kfs_judge_reads.specs.Kept.{keeps_reads};
ghost use Rattle.kfs_image_nodes.specs.declared.cell.Cell.TheVariants.{Name};
ghost use Rattle.kfs_image_nodes.specs.declared.cell.Answer.TheVariants as looks;
ghost use Rattle.kfs_judge_reads.specs.declared.reads.Read.TheVariants.{Look};
ghost use Rattle.kfs_judge_reads.specs.declared.reads.ReadAnswer.TheVariants as answers;
ghost use Rattle.kfs_judge_reads.specs.SameReads.{same_read};

use crate::draft::NameKey;
use crate::kept_read::KeptRead;
use crate::reads::{Read, ReadAnswer};
use indexmap::IndexMap;
use kfs_image_nodes::{Answer, Cell};
use kfs_model::GhostList;
use std::alloc::{AllocError, Allocator};
use std::hash::{BuildHasherDefault, FoldHasher};
use std::marker::Model;
use std::snapshot::Snapshot;

/// What a judgement keeps of its view.
#[derive(Clone, Copy, Debug, PartialEq, Eq)]
pub enum Keeping {
    /// Each read, with its answer.
    Reads,
    /// Nothing.
    Nothing,
}

/// Reads that are kept, each once, with their answers. They stand in the order in which they were made.
pub type KeptReads<A> = IndexMap<KeptRead<A>, ReadAnswer, BuildHasherDefault<FoldHasher>, A>;

/// The reads of a judgement with their answers, in order. Where they are kept, each stands there once.
/// Where they aren't, contracts alone see them: they take no memory, and a read that is made again is
/// there again.
#[derive(Drop)]
pub struct Reads<A: Allocator> {
    kept: Option<KeptReads<A>>,
    seen: GhostList<SeenRead<A>>,
}

impl<A: Allocator> Model for Reads<A> {
    ghost use Rattle.std.specs.Prelude.{◌≡◌, is_some, IfSome};
    ghost use Rattle.kfs_judge_reads.specs.Kept.{ReadsShown};

    ghost Value = { ReadsShown };

    ghost view = { λ r. record { keeps = is_some r.kept; entries = r.seen.items } };

    ghost invariant = { λ r. IfSome r.kept (λ map. map.entries ≡ r.seen.items) };
}

impl<A: Allocator + Copy> Reads<A> {
    /// No read yet. Takes no memory.
    pub fn new(alloc: A, keeping: Keeping) -> Reads<A>
        ensures { result ≡ record { keeps = keeps_reads keeping; entries = [] } }
    {
        match keeping {
            Keeping::Reads => Reads {
                kept: Some(IndexMap::new(alloc)),
                seen: GhostList::none(),
            },
            Keeping::Nothing => Reads {
                kept: None,
                seen: GhostList::none(),
            },
        }
    }

    /// Whether reads are kept. Takes no memory.
    pub fn are_kept(&self) -> bool
        ensures { result ≡ self.now.keeps }
    {
        self.kept.is_some()
    }

    /// The answer to a read that was made, if reads are kept.
    pub fn get(&self, read: &KeptRead<A>) -> Option<ReadAnswer>
        ensures found { IfSome result (λ answer. lookup (same_read read.now) self.now.entries ≡ Some answer) }
        ensures none { IfNone result (self.now.keeps ≡ true → lookup (same_read read.now) self.now.entries ≡ None) }
    {
        self.kept.as_ref()?.get(read).copied()
    }

    /// The reads, if they are kept. Takes no memory.
    pub fn into_map(self) -> Option<KeptReads<A>>
        ensures found { IfSome result (λ map. map.entries ≡ self.entries) }
        ensures kept { is_some result ≡ self.keeps }
    {
        self.kept
    }

    /// Adds a read that isn't kept, with its answer. At run time this is nothing.
    #[inline(always)]
    pub(crate) fn see(&mut self, read: &KeptRead<A>, answer: &ReadAnswer)
        requires { self.old.keeps ≡ false }
        ensures { self.new ≡ record self.old { entries = self.old.entries ++ (read.now, answer.now) ∷ [] } }
    {
        self.seen = self.seen.and(&SeenRead::of(read, answer));
    }

    /// The same of a name.
    #[inline(always)]
    pub(crate) fn see_name(&mut self, key: &NameKey<'_, '_>, number: Option<u32>)
        requires { self.old.keeps ≡ false }
        ensures { self.new ≡ record self.old { entries = self.old.entries ++ (Look (Name key.now.0 key.now.1), answers.Look (looks.Name number)) ∷ [] } }
    {
        self.seen = self.seen.and(&SeenRead::of_name(key, number));
    }

    /// Adds a read with its answer; one that isn't there yet, where reads are kept. `Err` where memory
    /// is refused; nothing is added then.
    pub(crate) fn add(&mut self, read: KeptRead<A>, answer: ReadAnswer) -> Result<(), AllocError>
        requires { self.old.keeps ≡ true → lookup (same_read read) self.old.entries ≡ None }
        ensures ok { OnOk result (self.new ≡ record self.old { entries = self.old.entries ++ (read, answer) ∷ [] }) }
        ensures err { OnErr result (self.new ≡ self.old) }
    {
        let seen = self.seen.and(&SeenRead::of(&read, &answer));
        if let Some(map) = &mut self.kept {
            record(map, read, answer)?;
        }
        self.seen = seen;
        Ok(())
    }
}

/// Records an answer. `Err` where memory runs out; nothing is recorded then.
// A function's frame is cleared at each call. So a read that is recorded already is answered without the
// frame of this function.
#[inline(never)]
fn record<A: Allocator + Copy>(
    reads: &mut KeptReads<A>,
    read: KeptRead<A>,
    answer: ReadAnswer,
) -> Result<(), AllocError>
    ensures ok { OnOk result (reads.new.entries ≡ insert_entry same_read reads.old.entries read answer) }
    ensures err { OnErr result (reads.new.entries ≡ reads.old.entries) }
{
    reads.insert(read, answer)?;
    Ok(())
}

/// A read with its answer, which contracts alone see.
#[derive(Drop)]
pub(crate) struct SeenRead<A: Allocator> {
    seen: Seen<A>,
}

#[derive(Drop)]
enum Seen<A: Allocator> {
    /// One that could be kept.
    Kept(Snapshot<KeptRead<A>>, Snapshot<ReadAnswer>),
    /// One whose name would take memory.
    Name(Snapshot<Read>, Snapshot<ReadAnswer>),
}

impl<A: Allocator> Model for SeenRead<A> {
    ghost use Rattle.kfs_judge_reads.specs.declared.reads.Read.{Read as ReadShown};
    ghost use Rattle.kfs_judge_reads.specs.declared.reads.ReadAnswer.{ReadAnswer as AnswerShown};
    ghost use Rattle.kfs_judge_reads.specs.SeenReads.{pair_in};

    ghost Value = { ReadShown × AnswerShown };

    ghost view = { λ read. pair_in read.seen };
}

impl<A: Allocator> SeenRead<A> {
    /// This read with this answer. At run time this is nothing.
    #[inline(always)]
    fn of(read: &KeptRead<A>, answer: &ReadAnswer) -> SeenRead<A>
        ensures { result ≡ (read.now, answer.now) }
    {
        SeenRead {
            seen: Seen::Kept(Snapshot::of(read), Snapshot::of(answer)),
        }
    }

    /// The read of this name. At run time this is nothing, since nobody looks at the copy of the name.
    #[inline(always)]
    fn of_name(key: &NameKey<'_, '_>, number: Option<u32>) -> SeenRead<A>
        ensures { result ≡ (Look (Name key.now.0 key.now.1), answers.Look (looks.Name number)) }
    {
        let read = Read::Look(Cell::Name(key.dir(), key.name().owned()));
        let answer = ReadAnswer::Look(Answer::Name(number));
        SeenRead {
            seen: Seen::Name(Snapshot::of(&read), Snapshot::of(&answer)),
        }
    }
}
