//! What was found of a log and a plan, as a landing takes it.
ghost use Rattle.std.specs.Prelude.{◌≡◌, IfErr, IfOk};
ghost use Rattle.kfs_desk.specs.Found.{AreParts, found_in};
ghost use Rattle.kfs_plan.specs.declared.submission.Outcome.TheVariants as outcomes;

use crate::fill::Entries;
use kfs_image_nodes::LentNet;
use kfs_plan::{Fault, KeptOutcome, Outcome};
use kfs_types::{BorrowedName, Piece};
use std::alloc::Allocator;

/// An outcome, by reference.
#[derive(Clone, Copy)]
pub enum Found<'o, 's, A: Allocator> {
    /// With names where they lie in bytes that the caller keeps.
    Borrowed(&'o Outcome<A, BorrowedName<'s>>),
    /// With names that are kept: that of a verdict.
    Kept(&'o KeptOutcome<A>),
}

/// What lands of a Yes.
#[derive(Clone, Copy)]
pub struct YesParts<'o, 's, A: Allocator> {
    /// The log's entries.
    pub entries: Entries<'o, 's, A>,
    /// The plan's pieces.
    pub pieces: &'o [Piece],
    /// The net change.
    pub net: LentNet<'o, 's, A>,
    /// How many blocks are written.
    pub need: u64,
}

/// The parts of an outcome with its log's entries, or its fault.
macro_rules! parts_of {
    ($outcome:ident, $entries:ident) => {
        match $outcome {
            Outcome::Yes {
                log,
                plan,
                net,
                need,
            } => Ok(YesParts {
                entries: Entries::$entries(log.entries.as_slice()),
                pieces: plan.pieces.as_slice(),
                net: LentNet::$entries(net),
                need: *need,
            }),
            Outcome::No(fault) => Err(*fault),
        }
    };
}

impl<'o, 's, A: Allocator> Found<'o, 's, A> {
    /// What lands, or the fault.
    pub fn parts(self) -> Result<YesParts<'o, 's, A>, Fault>
        ensures yes { IfOk result (AreParts (found_in self.entry)) }
        ensures no { IfErr result (λ fault. found_in self.entry ≡ outcomes.No fault) }
    {
        match self {
            Found::Borrowed(outcome) => parts_of!(outcome, Borrowed),
            Found::Kept(outcome) => parts_of!(outcome, Kept),
        }
    }
}
