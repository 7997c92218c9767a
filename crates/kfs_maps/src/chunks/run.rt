//! What a chunk and a part have in common: each is a run of entries in the order of their keys, and stands
//! in a list of such runs. Finding the run to which a key belongs. The runs of a list after edits.
ghost use Rattle.std.specs.Prelude.{◌≡◌, ◌≤◌, ◌++◌, [], T, All, None, IfOk, OnOk, List, length, take, drop};
ghost use Rattle.std.specs.FinMap.Entries.{is_sorted, below_all};
ghost use Rattle.std.specs.Range.Bound.{bound_map};
ghost use Rattle.std.specs.declared.ops.Bound.TheVariants.{Included};
ghost use Rattle.kfs_maps.specs.Chunks.Edits.{entered_all, KeysAscend};
ghost use Rattle.kfs_maps.specs.Chunks.Joined.{joined_by, EachBy, IsNotEmpty, first_run_from};
ghost use Rattle.kfs_maps.specs.Chunks.Starts.{entry_from, reaches};

use crate::chunks::entries::{Key, KeyEdit, Sought};
use std::alloc::{AllocError, Allocator};
use std::ops::Bound;
use std::sync::Arc;

/// Entries in the order of their keys.
pub(crate) trait Run<K: Key, V: Copy> {
    /// The entries.
    ghost entries: { Self → List (K × V) };

    /// Whether an entry is at the bound or behind it. Only the last entry is looked at.
    fn reaches<Q: Sought<K>>(&self, start: &Bound<Q>) -> bool
        ensures { result ≡ reaches K.cmp (bound_map Q.key start.now) (entries self.now) };
}

/// A run that stands in a list, and is cut anew where it is edited.
pub(crate) trait Recut<K: Key, V: Copy, A: Allocator + Clone>: Run<K, V> {
    /// How many entries a run of a list has.
    ghost fits: { List (K × V) → Type 0 };

    /// Appends the run after its edits; where there are none, the same run.
    fn push_edited(
        new: &mut Vec<Arc<Self, A>, A>,
        run: &Arc<Self, A>,
        edits: &[KeyEdit<K, V>],
    ) -> Result<(), AllocError>
        requires ascend { KeysAscend K.cmp edits.now }
        requires sorted { T (is_sorted K.cmp (Self.entries run.now.value)) }
        requires fit { EachBy Self.entries fits new.old.items }
        requires fits { fits (Self.entries run.now.value) }
        ensures joined { OnOk result (joined_by Self.entries new.new.items ≡ joined_by Self.entries new.old.items ++ entered_all K.cmp (Self.entries run.now.value) edits.now) }
        ensures fit { OnOk result (EachBy Self.entries fits new.new.items) };

    /// Appends runs of the entries that the edits make where there are none.
    fn push_fresh(new: &mut Vec<Arc<Self, A>, A>, edits: &[KeyEdit<K, V>]) -> Result<(), AllocError>
        requires ascend { KeysAscend K.cmp edits.now }
        requires fit { EachBy Self.entries fits new.old.items }
        ensures joined { OnOk result (joined_by Self.entries new.new.items ≡ joined_by Self.entries new.old.items ++ entered_all K.cmp [] edits.now) }
        ensures fit { OnOk result (EachBy Self.entries fits new.new.items) };
}

/// The index of the first run with an entry at the bound or behind it, or the number of runs where there
/// is none.
pub(crate) fn place<K: Key, V: Copy, A: Allocator, R: Run<K, V>, Q: Sought<K>>(
    runs: &[Arc<R, A>],
    start: &Bound<Q>,
) -> usize
    requires sorted { T (is_sorted K.cmp (joined_by R.entries runs.now)) }
    requires filled { EachBy R.entries IsNotEmpty runs.now }
    ensures { result ≡ first_run_from K.cmp R.entries (bound_map Q.key start.now) runs.now }
{
    runs.partition_point(|run| !run.reaches(start))
}

/// The same index. It is found faster where it is `near`; a guess over the number of runs is taken as that.
pub(crate) fn place_near<K: Key, V: Copy, A: Allocator, R: Run<K, V>, Q: Sought<K>>(
    runs: &[Arc<R, A>],
    start: &Bound<Q>,
    near: usize,
) -> usize
    requires sorted { T (is_sorted K.cmp (joined_by R.entries runs.now)) }
    requires filled { EachBy R.entries IsNotEmpty runs.now }
    ensures { result ≡ first_run_from K.cmp R.entries (bound_map Q.key start.now) runs.now }
{
    let near = near.min(runs.len());
    if near < runs.len() && !runs[near].reaches(start) {
        return place(runs, start);
    }
    if near > 0 && runs[near - 1].reaches(start) {
        return place(runs, start);
    }
    near
}

/// How many edits at the front of the list belong to the run: those of keys up to its last one, or all
/// where it is the last run.
pub(crate) fn edits_of<K: Key, V: Copy, A: Allocator, R: Run<K, V>>(
    edits: &[KeyEdit<K, V>],
    run: &Arc<R, A>,
    rest: &[Arc<R, A>],
) -> usize
    requires ascend { KeysAscend K.cmp edits.now }
    requires sorted { T (is_sorted K.cmp (R.entries run.now.value ++ joined_by R.entries rest.now)) }
    ensures within { result ≤ length edits.now }
    ensures run { All (λ e. T (below_all K.cmp e.key (joined_by R.entries rest.now))) (take result edits.now) }
    ensures rest { All (λ e. entry_from K.cmp (Included e.key) (R.entries run.now.value) ≡ None) (drop result edits.now) }
{
    if rest.is_empty() {
        return edits.len();
    }
    // Most runs of a list have no edit, and one look tells it.
    match edits.split_first() {
        Some((first, more)) if run.reaches(&Bound::Included(&first.key)) => {
            1 + more.partition_point(|edit| run.reaches(&Bound::Included(&edit.key)))
        }
        _ => 0,
    }
}

/// The runs after the edits. Runs without edits are shared; the others are cut anew.
pub(crate) fn rebuilt<K: Key, V: Copy, A: Allocator + Clone, R: Recut<K, V, A> + Drop>(
    runs: &Vec<Arc<R, A>, A>,
    edits: &[KeyEdit<K, V>],
) -> Result<Vec<Arc<R, A>, A>, AllocError>
    requires ascend { KeysAscend K.cmp edits.now }
    requires sorted { T (is_sorted K.cmp (joined_by R.entries runs.now.items)) }
    requires fit { EachBy R.entries R.fits runs.now.items }
    ensures joined { IfOk result (λ new. joined_by R.entries new.items ≡ entered_all K.cmp (joined_by R.entries runs.now.items) edits.now) }
    ensures fit { IfOk result (λ new. EachBy R.entries R.fits new.items) }
{
    let mut new = Vec::with_capacity(runs.allocator().clone()?, runs.len())?;
    push_rebuilt(&mut new, runs.as_slice(), edits)?;
    Ok(new)
}

/// Appends the runs after the edits.
// (apart, so that nothing is dropped in the loop)
fn push_rebuilt<K: Key, V: Copy, A: Allocator + Clone, R: Recut<K, V, A>>(
    new: &mut Vec<Arc<R, A>, A>,
    runs: &[Arc<R, A>],
    edits: &[KeyEdit<K, V>],
) -> Result<(), AllocError>
    requires ascend { KeysAscend K.cmp edits.now }
    requires sorted { T (is_sorted K.cmp (joined_by R.entries runs.now)) }
    requires old { EachBy R.entries R.fits new.old.items }
    requires fit { EachBy R.entries R.fits runs.now }
    ensures joined { OnOk result (joined_by R.entries new.new.items ≡ joined_by R.entries new.old.items ++ entered_all K.cmp (joined_by R.entries runs.now) edits.now) }
    ensures fit { OnOk result (EachBy R.entries R.fits new.new.items) }
{
    let mut left = runs;
    let mut later = edits;
    while let Some((first, rest)) = left.split_first() {
        let (mine, others) = later.split_at(edits_of(later, first, rest));
        R::push_edited(new, first, mine)?;
        left = rest;
        later = others;
    }
    R::push_fresh(new, later)?;
    Ok(())
}
