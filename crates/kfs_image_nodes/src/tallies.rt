//! The counts of names while rows change them: how many names each directory has, and how many of them
//! lead to each node.
ghost use Rattle.std.specs.Prelude.{◌≡◌, ℕ, ◌+◌, ◌<◌, ◌∷◌, [], OnOk, IfOk, IfSome, Some, unwrap_or, if◌then◌else◌};
ghost use Rattle.std.specs.Ordering.{eq_by_cmp, nat_cmp};
ghost use Rattle.kfs_model.specs.Table.{get};
ghost use Rattle.kfs_maps.specs.Chunks.Tables.{table};
ghost use Rattle.kfs_image_nodes.specs.Indexes.{CountsFewer, CountsMore, CountsMoved, count_at, count_step, uplink_step, by_node, ArePositive};
ghost use Rattle.kfs_image_nodes.specs.NameEdits.{counts_seen, ways_seen, AreMovedBy};
ghost use Rattle.kfs_image_nodes.specs.Overlays.{IsOneMore};
ghost use Rattle.kfs_image_nodes.specs.SortedRows.{tallied_at};

use kfs_maps::{Chunks, KeyEdit, Near, NumberEdit, Overlay, Pages};
use kfs_types::GREATEST_NUMBER;
use std::alloc::{AllocError, Allocator};

/// New counts, laid over the maps. The maps themselves stay as they are.
#[derive(Drop)]
pub(crate) struct Tallies<A: Allocator> {
    /// How many names each directory has.
    pub(crate) counts: Overlay<u32, u64, A>,
    /// How many names of a directory lead to a node, by the node's number and then the directory's.
    pub(crate) uplinks: Overlay<(u32, u32), u64, A>,
    /// Where the last uplink was looked for.
    pub(crate) near: Near,
}

impl<A: Allocator + Clone> Tallies<A> {
    /// No new count. Uplinks are looked for from `near` on.
    pub(crate) fn new(alloc: &A, near: Near) -> Result<Tallies<A>, AllocError>
        ensures counts { IfOk result (λ tallies. tallies.counts.latest.entries ≡ []) }
        ensures uplinks { IfOk result (λ tallies. tallies.uplinks.latest.entries ≡ []) }
    {
        Ok(Tallies {
            counts: Overlay::new(alloc.clone()?),
            uplinks: Overlay::new(alloc.clone()?),
            near,
        })
    }

    /// How many names a directory has; none stands for 0.
    fn name_count(&self, counts: &Pages<u64, A>, dir: u32) -> Option<u64>
        ensures { result ≡ get (counts_seen self.now counts.now) dir }
    {
        self.counts.get_or(&dir, counts.get(dir).copied())
    }

    /// How many names of a directory lead to a node; none stands for 0.
    fn way_count(
        &self,
        uplinks: &Chunks<(u32, u32), u64, A>,
        near: &mut Near,
        way: &(u32, u32),
    ) -> Option<u64>
        ensures { result ≡ get (ways_seen self.now uplinks.now) way.now }
    {
        self.uplinks
            .get_or(way, uplinks.get_near(near, way).copied())
    }

    /// Counts that a name of the directory led to `from` and now leads to `to`.
    pub(crate) fn recount(
        &mut self,
        counts: &Pages<u64, A>,
        uplinks: &Chunks<(u32, u32), u64, A>,
        dir: u32,
        from: Option<u32>,
        to: Option<u32>,
    ) -> Result<(), AllocError>
        requires counts { (n : ℕ) → from ≡ Some n → 0 < count_at (counts_seen self.old counts.now) dir }
        requires uplinks { (n : ℕ) → from ≡ Some n → 0 < count_at (ways_seen self.old uplinks.now) (n, dir) }
        ensures positive { OnOk result (ArePositive (ways_seen self.old uplinks.now) → ArePositive (ways_seen self.new uplinks.now)) }
        ensures counts { OnOk result (CountsMoved (counts_seen self.old counts.now) (count_step dir from) (count_step dir to) (counts_seen self.new counts.now)) }
        ensures uplinks { OnOk result (CountsMoved (ways_seen self.old uplinks.now) (uplink_step dir from) (uplink_step dir to) (ways_seen self.new uplinks.now)) }
    {
        self.leave(counts, uplinks, dir, from)?;
        self.enter(counts, uplinks, dir, to)?;
        Ok(())
    }

    /// Counts one name of the directory fewer, if the name led to a node.
    fn leave(
        &mut self,
        counts: &Pages<u64, A>,
        uplinks: &Chunks<(u32, u32), u64, A>,
        dir: u32,
        from: Option<u32>,
    ) -> Result<(), AllocError>
        requires counts { (n : ℕ) → from ≡ Some n → 0 < count_at (counts_seen self.old counts.now) dir }
        requires uplinks { (n : ℕ) → from ≡ Some n → 0 < count_at (ways_seen self.old uplinks.now) (n, dir) }
        ensures positive { OnOk result (ArePositive (ways_seen self.old uplinks.now) → ArePositive (ways_seen self.new uplinks.now)) }
        ensures counts { OnOk result (CountsFewer (counts_seen self.old counts.now) (count_step dir from) (counts_seen self.new counts.now)) }
        ensures uplinks { OnOk result (CountsFewer (ways_seen self.old uplinks.now) (uplink_step dir from) (ways_seen self.new uplinks.now)) }
    {
        if let Some(number) = from {
            let way = (number, dir);
            let names = self.name_count(counts, dir);
            let mut near = self.near;
            let ways = self.way_count(uplinks, &mut near, &way);
            self.near = near;
            self.counts.set(dir, one_less(names))?;
            self.uplinks.set(way, one_less(ways))?;
        }
        Ok(())
    }

    /// Counts one name of the directory more, if the name now leads to a node.
    fn enter(
        &mut self,
        counts: &Pages<u64, A>,
        uplinks: &Chunks<(u32, u32), u64, A>,
        dir: u32,
        to: Option<u32>,
    ) -> Result<(), AllocError>
        ensures positive { OnOk result (ArePositive (ways_seen self.old uplinks.now) → ArePositive (ways_seen self.new uplinks.now)) }
        ensures counts { OnOk result (CountsMore (counts_seen self.old counts.now) (count_step dir to) (counts_seen self.new counts.now)) }
        ensures uplinks { OnOk result (CountsMore (ways_seen self.old uplinks.now) (uplink_step dir to) (ways_seen self.new uplinks.now)) }
    {
        if let Some(number) = to {
            let way = (number, dir);
            let there = uplinks.get_near(&mut self.near, &way).copied();
            add_one(&mut self.counts, dir, counts.get(dir).copied())?;
            add_one(&mut self.uplinks, way, there)?;
        }
        Ok(())
    }
}

/// New counts of directories' names and of uplinks, as edits. Each list ascends.
#[derive(Drop)]
pub(crate) struct CountEdits<A: Allocator> {
    pub(crate) counts: Vec<NumberEdit<u64>, A>,
    pub(crate) uplinks: Vec<KeyEdit<(u32, u32), u64>, A>,
}

impl<A: Allocator + Clone> CountEdits<A> {
    /// One count of each kind.
    fn of(
        alloc: &A,
        dir: u32,
        names: Option<u64>,
        way: (u32, u32),
        ways: Option<u64>,
    ) -> Result<CountEdits<A>, AllocError>
        ensures counts { IfOk result (λ edits. edits.counts.items ≡ record { number = dir; value = names } ∷ []) }
        ensures uplinks { IfOk result (λ edits. edits.uplinks.items ≡ record { key = way; value = ways } ∷ []) }
    {
        let mut counts = Vec::with_capacity(alloc.clone()?, 1)?;
        counts.push(NumberEdit {
            number: dir,
            value: names,
        })?;
        let mut uplinks = Vec::with_capacity(alloc.clone()?, 1)?;
        uplinks.push(KeyEdit {
            key: way,
            value: ways,
        })?;
        Ok(CountEdits { counts, uplinks })
    }
}

/// The edits where a name of the directory led to `from` and now leads to `to`, and no other name changes.
/// None where it leads to a node before and after, and where the directory's number is no node's. An uplink
/// is found faster where it is near the last one; `near` becomes the place of this one.
pub(crate) fn edits_of_one<A: Allocator + Clone>(
    alloc: &A,
    counts: &Pages<u64, A>,
    uplinks: &Chunks<(u32, u32), u64, A>,
    near: &mut Near,
    dir: u32,
    from: Option<u32>,
    to: Option<u32>,
) -> Result<Option<CountEdits<A>>, AllocError>
    requires counts { (n : ℕ) → from ≡ Some n → 0 < count_at counts.now dir }
    requires uplinks { (n : ℕ) → from ≡ Some n → 0 < count_at (table by_node uplinks.now) (n, dir) }
    ensures { IfOk result (λ made. IfSome made (AreMovedBy counts.now uplinks.now dir from to)) }
{
    if dir == 0 || GREATEST_NUMBER < dir {
        return Ok(None);
    }
    let names = counts.get(dir).copied();
    match (from, to) {
        (None, Some(number)) => {
            let ways = uplinks.get_near(near, &(number, dir)).copied();
            let edits = CountEdits::of(
                alloc,
                dir,
                one_more(names)?,
                (number, dir),
                one_more(ways)?,
            )?;
            Ok(Some(edits))
        }
        (Some(number), None) => {
            let ways = uplinks.get_near(near, &(number, dir)).copied();
            let edits = CountEdits::of(alloc, dir, one_less(names), (number, dir), one_less(ways))?;
            Ok(Some(edits))
        }
        _ => Ok(None),
    }
}

/// Adds one to the count of a key, laid over a map that has the count `there`. Mostly the key is a new one,
/// so it is set first.
fn add_one<K: Ord + Copy, A: Allocator + Clone>(
    overlay: &mut Overlay<K, u64, A>,
    key: K,
    there: Option<u64>,
) -> Result<(), AllocError>
    ensures { OnOk result (IsOneMore K.cmp overlay.old.latest overlay.new.latest key there) }
{
    if let Some(before) = overlay.replace(key, one_more(there)?)? {
        overlay.set(key, one_more(before)?)?;
        return Ok(());
    }
    Ok(())
}

/// Adds so many to the count of a key, laid over no other counts. A count over 64 bits can't occur, since
/// memory doesn't hold so many names; it would be answered as `Err`.
pub(crate) fn add<A: Allocator + Clone>(
    overlay: &mut Overlay<u32, u64, A>,
    key: u32,
    more: u64,
) -> Result<(), AllocError>
    ensures { OnOk result ((q : ℕ) → tallied_at overlay.new.latest.entries q ≡ tallied_at overlay.old.latest.entries q + (if eq_by_cmp nat_cmp q key then more else 0)) }
{
    let before = overlay.get_or(&key, None).unwrap_or(0);
    let Some(now) = before.checked_add(more) else {
        return Err(AllocError);
    };
    overlay.set(key, Some(now))?;
    Ok(())
}

/// Subtracts one; 0 becomes none.
fn one_less(count: Option<u64>) -> Option<u64>
    requires { 0 < unwrap_or count 0 }
    ensures less { unwrap_or result 0 + 1 ≡ unwrap_or count 0 }
    ensures positive { (n : ℕ) → result ≡ Some n → 0 < n }
{
    let less = count.unwrap_or(0) - 1;
    if less == 0 { None } else { Some(less) }
}

/// Adds one; none stands for 0. A count over 64 bits can't occur, since memory doesn't hold so many
/// names; it would be answered as `Err`.
fn one_more(count: Option<u64>) -> Result<Option<u64>, AllocError>
    ensures more { IfOk result (λ more. unwrap_or more 0 ≡ unwrap_or count 0 + 1) }
    ensures positive { IfOk result (λ more. (n : ℕ) → more ≡ Some n → 0 < n) }
{
    match count.unwrap_or(0).checked_add(1) {
        Some(more) => Ok(Some(more)),
        None => Err(AllocError),
    }
}
