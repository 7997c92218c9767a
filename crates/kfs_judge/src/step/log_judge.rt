//! Judges a log: holds the client, the changes of the entries so far, and the reads of the view.
ghost use Rattle.std.specs.Prelude.{◌≡◌, ℕ, ◌+◌, ◌==◌, List, length, None, Ok, IfOk, false, [], ◌++◌};
ghost use Rattle.kfs_types.specs.Views.{entry_of, IsWithin};
ghost use Rattle.kfs_model.specs.Sight.{Sight};
ghost use Rattle.kfs_judge.specs.Step.Entered.{IsEntered};
ghost use Rattle.kfs_judge_reads.specs.Draft.Overlay.{has_created, over, ShiftsBy, ShiftsFurther, HasRoom, ChangesAreAmong};
ghost use Rattle.kfs_judge_reads.specs.Recorders.{GoesOn, seen_by};
ghost use Rattle.kfs_judge.specs.Step.Nets.{IsNetOver, LooksOver};
ghost use Rattle.kfs_judge.specs.Step.FileSizes.{AreSizesOver};
ghost use Rattle.kfs_pieces.specs.Sizes.{SizesAscend, IsSize};
ghost use Rattle.std.specs.List.{AllByRecursion};
ghost use Rattle.kfs_judge_reads.specs.View.{client_sight_in};

use crate::check::Reason;
use crate::step::net::{file_sizes, name_rows, node_rows};
use kfs_entry::{BorrowedEntry, BorrowedName, Entry, entry_table};
use kfs_image_nodes::Net;
use kfs_judge_reads::{Draft, Reads, Recorder, View};
use kfs_mode::Client;
use kfs_pieces::FileSize;
use std::alloc::{AllocError, Allocator};

/// An entry's field as its function takes it: of a payload, the number of its bytes, and a name where it
/// lies.
macro_rules! taken {
    (payload $field:ident) => {
        $field.end.saturating_sub($field.start)
    };
    (name $field:ident) => {
        $field
    };
    ($codec:ident $field:ident) => {
        *$field
    };
}

/// Calls the entry's own function.
macro_rules! enter_case {
    ([$judge:ident, $entry:ident] $($number:literal $variant:ident $call:ident { $($field:ident: $codec:ident),* })*) => {
        match $entry {
            $(Entry::$variant { $($field),* } => $judge.$call($(taken!($codec $field)),*),)*
        }
    };
}

/// Judges the entries of a log in order. It has the log's client, what the entries so far have changed,
/// and what was read of the view.
#[derive(Drop)]
pub struct LogJudge<'a, 'e, 's, A: Allocator> {
    /// The log's client.
    pub client: &'a Client,
    /// What the entries so far have changed.
    pub draft: Draft<'e, 's, A>,
    /// The view, and what was read of it.
    pub recorder: Recorder<'a, 'e, 's, A>,
}

impl<'a, 'e, 's, A: Allocator + Copy> LogJudge<'a, 'e, 's, A> {
    /// At the start of a log of this client, with the reads so far. Takes no memory.
    pub fn new(
        alloc: A,
        view: &'a View<A>,
        client: &'a Client,
        reads: Reads<A>,
    ) -> LogJudge<'a, 'e, 's, A>
        ensures client { result.client.now ≡ client.now }
        ensures reads { result.recorder.reads ≡ reads }
        ensures seen { seen_by result.recorder ≡ client_sight_in view.now client.now.number }
        ensures shown { (s : Sight) → over result.draft s ≡ s }
        ensures written { ChangesAreAmong result.draft [] }
        ensures created { (n : ℕ) → has_created result.draft n ≡ false }
        ensures shifts { ShiftsBy 0 result.draft }
    {
        LogJudge {
            client,
            draft: Draft::new(alloc),
            recorder: Recorder::new(alloc, view, client.number(), reads),
        }
    }

    /// Makes the change of an entry, or answers the reason why not. After `Err`, where memory is
    /// refused, part of the change may be made.
    pub fn enter(&mut self, entry: &'e BorrowedEntry<'s>) -> Result<Option<Reason>, AllocError>
        requires { HasRoom 3 self.old.draft }
        ensures goes { GoesOn self.old.recorder self.new.recorder }
        ensures client { self.new.client.now ≡ self.old.client.now }
        ensures shifts { result ≡ Ok None → ShiftsFurther 3 self.old.draft self.new.draft }
        // Whatever bytes the payload's span points to.
        ensures entered { (source : List ℕ) → IsWithin (length source) entry.now → IsEntered self.old self.new (entry_of source entry.now) result }
    {
        entry_table!(enter_case(self, entry))
    }

    /// The net change of the entries so far. `Err` where memory runs out.
    pub fn net(&mut self, alloc: A) -> Result<Net<A, BorrowedName<'s>>, AllocError>
        ensures draft { self.new.draft ≡ self.old.draft }
        ensures looks { LooksOver self.old.draft self.old.recorder self.new.recorder result (λ net before. IsNetOver self.old.draft before.sight net) }
    {
        let names = name_rows(alloc, &self.draft, &mut self.recorder)?;
        let nodes = node_rows(alloc, &self.draft, &mut self.recorder)?;
        Ok(Net { names, nodes })
    }

    /// The sizes, before the log and now, of the files that the entries so far changed or reached,
    /// ascending by number. A directory's size is 0. `Err` where memory runs out.
    pub fn sizes(&mut self, alloc: A) -> Result<Vec<FileSize, A>, AllocError>
        ensures draft { self.new.draft ≡ self.old.draft }
        ensures looks { LooksOver self.old.draft self.old.recorder self.new.recorder result (λ sizes before. AreSizesOver self.old.draft before.sight sizes.items) }
        ensures ascending { IfOk result (λ sizes. SizesAscend 0 sizes.items) }
        ensures short { IfOk result (λ sizes. AllByRecursion IsSize sizes.items) }
    {
        file_sizes(alloc, &self.draft, &mut self.recorder)
    }

    /// The recorded reads. Takes no memory.
    pub fn into_reads(self) -> Reads<A>
        ensures { result ≡ self.entry.recorder.reads }
    {
        self.recorder.into_reads()
    }
}
