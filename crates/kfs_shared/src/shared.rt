//! How an object is shared, how passes are made, and how the sharing ends.
ghost use Rattle.std.specs.Prelude.{◌≡◌, [], ◌∷◌, ◌++◌, length, Some, IfOk, IfErr, false};
ghost use Rattle.kfs_shared.specs.Turns.Lists.{StartsWith, AreDistinct};
ghost use Rattle.kfs_shared.specs.Passes.{IsPassOf, IsEndOf, IsLeftUnreturned, started, seen, own, ended};

use crate::docketed::Docketed;
use crate::pass::{Pass, Shared};
use crate::plays::{Copies, Glance, Meets};
use crate::turns::LENGTH;
use crate::want::Unreturned;
use atomic_table::Table;
use std::alloc::Allocator;
use std::snapshot::Snapshot;

impl<D: Docketed, A: Allocator + Copy> Shared<D, A> {
    /// Shares an object; of a desk, all its calls are then made through passes. The pass has seen the
    /// docket as it is, and no row is its own. The first turn has the number `first`, which is 0 in use.
    /// Where memory runs out, the object comes back.
    pub fn new(alloc: A, object: D, first: u64) -> Result<(Shared<D, A>, Pass<D>), D>
        ensures pass { IfOk result (λ r. IsPassOf r.0 r.1) }
        ensures opening { IfOk result (λ r. started D.opening r.0 ≡ D.opening object) }
        ensures seen { IfOk result (λ r. seen r.1 ≡ D.rows object) }
        ensures own { IfOk result (λ r. (own r.1 ≡ []) × (ended r.1 ≡ false)) }
        ensures back { IfErr result (λ back. back ≡ object) }
    {
        let about = Snapshot::of(&object);
        let rows = u64::from(object.row_count());
        let mut slots = Vec::new(alloc);
        if slots.reserve(1).is_err() {
            slots.destroy_empty();
            return Err(object);
        }
        slots.push_reserved(Some(object));
        match Table::new(
            alloc,
            &[rows, first, first, 0, 0, 0, 0, 0, 0, 0, 0, 0],
            slots,
            &about,
        ) {
            Ok((table, seat)) => Ok((Shared { table, alloc }, Pass { seat, rows })),
            Err(refused) => Err(only(refused.slots)),
        }
    }
}

impl<D: Docketed, A: Allocator> Shared<D, A> {
    /// Two passes for one, both of which have seen what it had. The first keeps its rows, the second has
    /// none of its own. Takes no memory and doesn't wait. Condition: the pass is one of this object.
    pub fn split(&self, pass: Pass<D>) -> (Pass<D>, Pass<D>)
        requires { IsPassOf self.now pass }
        ensures passes { IsPassOf self.now result.0 × IsPassOf self.now result.1 }
        ensures seen { (seen result.0 ≡ seen pass) × (seen result.1 ≡ seen pass) }
        ensures own { (own result.0 ≡ own pass) × (own result.1 ≡ []) }
        ensures ended { (ended result.0 ≡ ended pass) × (ended result.1 ≡ false) }
    {
        let mut first = pass;
        let second = self.fork(&mut first);
        (first, second)
    }

    /// The second pass of a split; the first one stays where it is.
    pub(crate) fn fork(&self, pass: &mut Pass<D>) -> Pass<D>
        requires { IsPassOf self.now pass.old }
        ensures passes { IsPassOf self.now pass.new × IsPassOf self.now result }
        ensures seen { (seen pass.new ≡ seen pass.old) × (seen result ≡ seen pass.old) }
        ensures own { (own pass.new ≡ own pass.old) × (own result ≡ []) }
        ensures ended { (ended pass.new ≡ ended pass.old) × (ended result ≡ false) }
    {
        let seat = self.table.shared.split_seat::<Copies>(&mut pass.seat);
        let rows = pass.rows;
        Pass { seat, rows }
    }

    /// Joins the second pass into the first, which then has the rows of both as its own. It has seen the
    /// docket as it is now, which begins with what either had seen. Answers how many rows that has.
    /// Takes no memory and doesn't wait. Condition: both are passes of this object.
    pub fn meet(&self, pass: &mut Pass<D>, other: Pass<D>) -> u64
        requires { IsPassOf self.now pass.old × IsPassOf self.now other }
        ensures pass { IsPassOf self.now pass.new × (ended pass.new ≡ ended pass.old) }
        ensures begins { StartsWith (seen pass.new) (seen pass.old) × StartsWith (seen pass.new) (seen other) }
        ensures legal { D.legal (started D.opening self.now) (seen pass.new) }
        ensures own { (own pass.new ≡ own pass.old ++ own other) × AreDistinct (own pass.new) }
        ensures rows { result ≡ length (seen pass.new) }
    {
        let Pass { seat, rows: _ } = other;
        self.table.shared.join_seat::<Meets>(&mut pass.seat, seat);
        let rows = self.table.shared.load::<Glance>(&mut pass.seat, LENGTH);
        pass.rows = rows;
        rows
    }

    /// Ends the sharing, and gives the object back. Takes no memory and doesn't wait. Other passes may
    /// still be there; nothing can be done with them. Condition: the pass is one of this object.
    pub fn close(self, pass: Pass<D>) -> Result<D, Unreturned>
    where
        D: Drop,
        requires { IsPassOf self pass }
        ensures ok { IfOk result (λ object. IsEndOf self pass object) }
        ensures unreturned { IfErr result (λ _. IsLeftUnreturned self pass) }
    {
        let Shared { table, alloc: _ } = self;
        let Pass { seat, rows: _ } = pass;
        let mut closed = table.close_with(seat);
        let next = closed.word(1);
        let turn = closed.word(2);
        let slot = closed.take(0);
        closed.free();
        if next != turn {
            return Err(Unreturned);
        }
        match slot {
            Some(object) => Ok(object),
            None => unreachable!(),
        }
    }
}

impl<D: Docketed> Pass<D> {
    /// How many rows of the docket it has seen. Takes no memory.
    pub fn seen(&self) -> u64
        ensures { result ≡ length (seen self.now) }
    {
        self.rows
    }
}

/// The one object of the list.
fn only<D, A: Allocator>(slots: Vec<Option<D>, A>) -> D
    requires { (d : D) × (slots.items ≡ Some d ∷ []) }
    ensures { slots.items ≡ Some result ∷ [] }
{
    let mut slots = slots;
    let Some(Some(object)) = slots.pop() else {
        unreachable!()
    };
    slots.destroy_empty();
    object
}
