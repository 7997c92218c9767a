//! The ways that the climbs of a judgement have gone in its view.
ghost use Rattle.std.specs.Prelude.{◌≡◌, ℕ, ◌+◌, ◌<◌, ◌≤◌, Bool, true, false, nat_eq, Option, Some, OnOk, length, drop, [], ◌∷◌, ◌++◌};
ghost use Rattle.std.specs.Ordering.{nat_cmp};
ghost use Rattle.std.specs.HashSet.{IsUnique};

use indexmap::IndexSet;
use std::alloc::{AllocError, Allocator};
use std::collections::BTreeSet;
use std::hash::{BuildHasherDefault, FoldHasher};

/// So many steps of a climb aren't kept, as long as none is. A judgement whose climbs are no longer takes
/// no memory for them.
const STEPS_NOT_KEPT: u32 = 256;

/// The directories that climbs have passed, each once. Up to each stop, a directory's parent in the view
/// stands at the next place, so that a later climb passes the whole stretch in one step.
///
/// The view stays the same during a judgement, so that what is kept stays right. A directory whose parent
/// an entry has written gets a stop at its place.
#[derive(Drop)]
pub(crate) struct Climbs<A: Allocator> {
    order: IndexSet<u32, BuildHasherDefault<FoldHasher>, A>,
    stops: BTreeSet<usize, A>,
    /// The parent of the last directory in the view.
    next: Option<u32>,
    /// The directories that were given stops because an entry has written their parent.
    moved: Vec<u32, A>,
    /// How many steps this climb has made, as long as none is kept.
    steps: u32,
    /// How often climbs came to the end of a stretch whose parent stands elsewhere in the list.
    crossed: usize,
}

/// A part of a climb: so many steps along the parents lead to `last`.
#[derive(Clone, Copy)]
pub struct Way {
    /// How many steps, 0 or more.
    pub steps: usize,
    /// The number of the directory that they end at.
    pub last: u32,
}

impl<A: Allocator + Copy> Climbs<A> {
    ghost use Rattle.kfs_judge_reads.specs.Climbs.{order_of, directory_at, is_among, is_stop, is_taken, IsWay, HasLinks, LinksHold, StopsAt, Follows};

    /// No step is kept. Takes no memory.
    pub(crate) fn new(alloc: A) -> Climbs<A>
        ensures links { (parent : ℕ → Option ℕ) → LinksHold parent result }
        ensures stops { StopsAt (is_taken result) result }
    {
        Climbs {
            order: IndexSet::new(alloc),
            stops: BTreeSet::new(alloc),
            next: None,
            moved: Vec::new(alloc),
            steps: 0,
            crossed: 0,
        }
    }

    /// Begins a climb: gives a stop to each of these directories, whose parents the entries so far have
    /// written. What was kept is forgotten where they don't go on from the earlier ones, or where the
    /// list is worn.
    pub(crate) fn follow(&mut self, moved: &[u32]) -> Result<(), AllocError>
        requires { StopsAt (is_taken self.old) self.old }
        ensures links { (parent : ℕ → Option ℕ) → LinksHold parent self.old → LinksHold parent self.new }
        ensures stops { StopsAt (is_taken self.new) self.new }
        ensures follows { OnOk result (Follows (is_among moved.now) self.new) }
    {
        if !self.goes_on(moved) {
            self.forget();
            return Ok(());
        }
        while self.moved.len() < moved.len() {
            let number = moved[self.moved.len()];
            self.stop_at(number)?;
        }
        Ok(())
    }

    /// Whether steps are kept, in a list that isn't worn, and these directories go on from those that were
    /// given stops.
    ///
    /// A list is worn once climbs have crossed from one stretch to another as often as it has directories.
    /// To lay it anew takes no longer than the crossings took, and then the next climbs cross few.
    fn goes_on(&self, moved: &[u32]) -> bool
        ensures once { IsUnique nat_eq self.now.order }
        ensures begins { result ≡ true → moved.now ≡ self.now.moved.items ++ drop (length self.now.moved.items) moved.now }
    {
        self.crossed < self.order.len() && moved.starts_with(self.moved.as_slice())
    }

    /// Forgets what was kept.
    fn forget(&mut self)
        ensures order { order_of self.new ≡ [] }
        ensures moved { self.new.moved.items ≡ [] }
    {
        self.order.clear();
        self.stops.clear();
        self.next = None;
        self.moved.clear();
        self.steps = 0;
        self.crossed = 0;
    }

    /// Gives a stop to a directory whose parent an entry has written.
    fn stop_at(&mut self, number: u32) -> Result<(), AllocError>
        requires once { IsUnique nat_eq self.old.order }
        requires stops { StopsAt (is_taken self.old) self.old }
        ensures links { (parent : ℕ → Option ℕ) → LinksHold parent self.old → LinksHold parent self.new }
        ensures order { self.new.order ≡ self.old.order }
        ensures stops { StopsAt (is_taken self.new) self.new }
        ensures moved { OnOk result (self.new.moved.items ≡ self.old.moved.items ++ number ∷ []) }
    {
        self.add_stop(number)?;
        self.moved.push(number)?;
        Ok(())
    }

    /// Puts a stop where the directory has its place, if it has one.
    fn add_stop(&mut self, number: u32) -> Result<(), AllocError>
        requires { IsUnique nat_eq self.old.order }
        ensures order { self.new.order ≡ self.old.order }
        ensures next { self.new.next ≡ self.old.next }
        ensures moved { self.new.moved ≡ self.old.moved }
        ensures stops { (place : ℕ) → is_stop self.old place ≡ true → is_stop self.new place ≡ true }
        ensures stopped { OnOk result ((place : ℕ) → place < length (order_of self.old) → directory_at self.old place ≡ number → is_stop self.new place ≡ true) }
    {
        if let Some(place) = self.order.get_index_of(&number) {
            self.stops.insert(place)?;
        }
        Ok(())
    }

    /// Keeps a step that a climb made in the view, from the directory to its parent.
    pub(crate) fn keep(&mut self, number: u32, up: u32) -> Result<(), AllocError>
        requires stops { StopsAt (is_taken self.old) self.old }
        requires still { is_taken self.old number ≡ false }
        ensures links { (parent : ℕ → Option ℕ) → parent number ≡ Some up → LinksHold parent self.old → LinksHold parent self.new }
        ensures stops { StopsAt (is_taken self.new) self.new }
        ensures follows { (are : ℕ → Bool) → are number ≡ false → Follows are self.old → Follows are self.new }
    {
        if self.steps < STEPS_NOT_KEPT {
            self.steps += 1;
            return Ok(());
        }
        if self.order.contains(&number) {
            self.cross(up);
            return Ok(());
        }
        self.end_stretch(number)?;
        self.order.insert(number)?;
        self.next = Some(up);
        Ok(())
    }

    /// Counts the end of a stretch, if its parent is kept.
    fn cross(&mut self, up: u32)
        ensures order { self.new.order ≡ self.old.order }
        ensures stops { self.new.stops ≡ self.old.stops }
        ensures next { self.new.next ≡ self.old.next }
        ensures moved { self.new.moved ≡ self.old.moved }
    {
        if self.order.contains(&up) {
            self.crossed = self.crossed.saturating_add(1);
        }
    }

    /// Ends the last stretch, unless it leads to this directory.
    fn end_stretch(&mut self, number: u32) -> Result<(), AllocError>
        ensures order { self.new.order ≡ self.old.order }
        ensures next { self.new.next ≡ self.old.next }
        ensures moved { self.new.moved ≡ self.old.moved }
        ensures stops { (place : ℕ) → is_stop self.old place ≡ true → is_stop self.new place ≡ true }
        ensures ends { OnOk result ((last : ℕ) → last + 1 ≡ length (order_of self.old) → is_stop self.new last ≡ false → self.old.next ≡ Some number) }
    {
        if self.next == Some(number) {
            return Ok(());
        }
        if let Some(last) = self.order.len().checked_sub(1) {
            self.stops.insert(last)?;
        }
        Ok(())
    }

    /// The way along kept steps from the one directory up to the next stop, or to `node` if that comes
    /// before. It has no step where none is kept.
    pub(crate) fn way(&self, from: u32, node: u32) -> Way
        ensures { (parent : ℕ → Option ℕ) → HasLinks parent self.now → IsWay parent node result.steps from result.last }
    {
        let Some(start) = self.order.get_index_of(&from) else {
            return Way {
                steps: 0,
                last: from,
            };
        };
        let order = self.order.as_slice();
        let end = self.first_of(node, start, self.end_from(start));
        Way {
            steps: end - start,
            last: order[end],
        }
    }

    /// The place of the node if that is between these two, or else the second.
    fn first_of(&self, node: u32, start: usize, end: usize) -> usize
        requires once { IsUnique nat_eq self.now.order }
        requires order { start ≤ end }
        requires within { end < length (order_of self.now) }
        ensures after { start ≤ result }
        ensures before { result ≤ end }
        ensures other { (passed : ℕ) → start ≤ passed → passed < result → directory_at self.now passed ≡ node → ⊥ }
    {
        match self.order.get_index_of(&node) {
            Some(place) if start <= place && place <= end => place,
            _ => end,
        }
    }

    /// The place at which the stretch from this place ends.
    fn end_from(&self, place: usize) -> usize
        requires { place < length (order_of self.now) }
        ensures after { place ≤ result }
        ensures within { result < length (order_of self.now) }
        ensures clear { (passed : ℕ) → place ≤ passed → passed < result → is_stop self.now passed ≡ false }
    {
        let last = self.order.len() - 1;
        match self.stops.range(place..).next() {
            Some(stop) if *stop < last => *stop,
            _ => last,
        }
    }
}
