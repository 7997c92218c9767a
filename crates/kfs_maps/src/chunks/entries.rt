//! The entries of a chunk: keys with their values in one block of memory, the keys ascending. What a
//! type must offer to be the key of a map in chunks. Edits of a map in chunks. Entries after edits, as
//! a new list, made in one walk over both.
ghost use Rattle.std.specs.Prelude.{◌≡◌, ◌<◌, ◌≤◌, ◌+◌, [], T, true, is_some, IfSome, IfNone, IfOk, OnOk, length, take, drop, Some, None, Ok, Err, if◌then◌else◌, refl, ◌↔◌, ◌++◌, ◌∷◌, OnErr, IsTrue, IsFalse, All};
ghost use Rattle.std.specs.Option.{option_copied};
ghost use Rattle.std.specs.FinMap.Entries.{find, is_sorted};
ghost use Rattle.std.specs.Range.Bound.{bound_map};
ghost use Rattle.std.specs.declared.cmp.Ordering.TheVariants.{Less};
ghost use Rattle.std.specs.declared.ops.Bound.TheVariants.{Included};
ghost use Rattle.kfs_maps.specs.Chunks.Edits.{entered, entered_all, KeysAscend, IsPassed};
ghost use Rattle.kfs_maps.specs.Chunks.Joined.{Tells};
ghost use Rattle.kfs_maps.specs.Chunks.Starts.{is_from, first_from, entries_from};
ghost use Rattle.kfs_model.specs.Table.{Order, pairs, numbers};
ghost use Rattle.kfs_model.specs.Tree.{name_order};

use crate::chunks::change::append;
use crate::chunks::run::{Recut, Run};
use kfs_types::{Name, SoughtName};
use std::alloc::{AllocError, Allocator};
use std::cmp::Ordering;
use std::marker::Model;
use std::ops::Bound;
use std::sync::Arc;

/// Keys with their values, the keys ascending, none twice.
#[derive(Drop)]
pub(crate) struct Entries<K: Key, V: Copy, A: Allocator> {
    pairs: Vec<(K, V), A>,
}

impl<K: Key, V: Copy, A: Allocator> Model for Entries<K, V, A> {
    ghost use Rattle.std.specs.Prelude.{◌-◌, T};
    ghost use Rattle.std.specs.Vec.{vec_len, vec_capacity};
    ghost use Rattle.std.specs.FinMap.Entries.{is_sorted};
    ghost use Rattle.kfs_maps.specs.Chunks.Buffer.{Buffer};

    ghost Value = { Buffer K V };

    ghost view = { λ s. record { pairs = s.pairs.items; room = vec_capacity s.pairs - vec_len s.pairs } };

    ghost invariant = { λ s. T (is_sorted K.cmp s.pairs.items) };
}

// A chunk is copied where a change finds it shared. Mostly that change adds one entry, so the copy has
// room for one.
impl<K: Key, V: Copy, A: Allocator + Clone> Clone for Entries<K, V, A> {
    ghost is_clone = { λ entries copy. copy.pairs ≡ entries.pairs };

    fn clone(&self) -> Result<Entries<K, V, A>, AllocError> {
        let room = self.pairs.len().saturating_add(1);
        let mut pairs = Vec::with_capacity(self.pairs.allocator().clone()?, room)?;
        pairs.extend_from_slice(&self.pairs)?;
        Ok(Entries { pairs })
    }
}

impl<K: Key, V: Copy, A: Allocator> Entries<K, V, A> {
    /// No entries. Takes no memory.
    pub(crate) fn new(alloc: A) -> Entries<K, V, A>
        ensures { result.pairs ≡ [] }
    {
        Entries {
            pairs: Vec::new(alloc),
        }
    }

    /// These entries. Takes no memory.
    pub(crate) fn of(pairs: Vec<(K, V), A>) -> Entries<K, V, A>
        requires { T (is_sorted K.cmp pairs.items) }
        ensures { result.pairs ≡ pairs.items }
    {
        Entries { pairs }
    }

    /// The value at a key, or none. Takes no memory.
    pub(crate) fn get(&self, key: &K) -> Option<&V>
        ensures { option_copied result ≡ find K.cmp key.now self.now.pairs }
    {
        match search(&self.pairs, key) {
            Ok(at) => Some(&self.pairs[at].1),
            Err(_) => None,
        }
    }

    /// The same value, found faster where the key stands at `near`, which becomes the index of the entry
    /// behind the key. Takes no memory.
    pub(crate) fn get_near<Q: Sought<K>>(&self, near: &mut usize, key: Q) -> Option<&V>
        ensures { option_copied result ≡ find K.cmp (Q.key key) self.now.pairs }
    {
        match search_near(&self.pairs, 0, *near, key) {
            Ok(at) => {
                *near = at.saturating_add(1);
                Some(&self.pairs[at].1)
            }
            Err(at) => {
                *near = at;
                None
            }
        }
    }

    /// What the entry at an index and the one before it tell of a key, if they do: its value, or that it
    /// stands between them and has none. Takes no memory.
    pub(crate) fn told_at<Q: Sought<K>>(&self, index: usize, key: Q) -> Option<Option<&V>>
        ensures { IfSome result (λ told. Tells K.cmp (Q.key key) self.now.pairs (option_copied told)) }
    {
        let (there, value) = self.pairs.get(index)?;
        match key.against(there) {
            Ordering::Equal => Some(Some(value)),
            Ordering::Less if index > 0 && key.against(&self.pairs[index - 1].0).is_gt() => Some(
                None,
            ),
            _ => None,
        }
    }

    /// Makes room for `more` entries. The entries stay as they are. `Err` where memory runs out.
    pub(crate) fn reserve(&mut self, more: usize) -> Result<(), AllocError>
        ensures room { OnOk result (more ≤ self.new.room) }
        ensures pairs { self.new.pairs ≡ self.old.pairs }
    {
        self.pairs.try_reserve(more)
    }

    /// Sets the value of a key, or removes its entry. It is done faster where the key stands at `near`.
    /// Answers an index from which on all entries of greater keys stand. Conditions: there is room, and
    /// no entry before `from` is at the key or behind it. Takes no memory.
    fn set_from(&mut self, from: usize, near: usize, key: &K, value: Option<V>) -> usize
        requires room { 0 < self.old.room }
        requires from { from ≤ first_from K.cmp (Included key.now) self.old.pairs }
        ensures room { self.old.room ≤ self.new.room + 1 }
        ensures pairs { self.new.pairs ≡ entered K.cmp self.old.pairs key.now value }
        ensures behind { (q : _) → K.cmp key.now q ≡ Less → result ≤ first_from K.cmp (Included q) self.new.pairs }
    {
        match (search_near(&self.pairs, from, near, key), value) {
            (Ok(at), Some(value)) => {
                self.pairs[at].1 = value;
                at.saturating_add(1)
            }
            (Ok(at), None) => {
                // The entry is gone on purpose.
                let _ = self.pairs.remove(at);
                at
            }
            (Err(at), Some(value)) => {
                self.pairs.insert(at, (*key, value)).unwrap();
                at.saturating_add(1)
            }
            (Err(at), None) => at,
        }
    }

    /// Makes the edits, each by a search behind the last one, the first of them faster where its key stands
    /// at `near`. Conditions: there is room for them, and their keys ascend. Takes no memory.
    pub(crate) fn write(&mut self, near: usize, edits: &[KeyEdit<K, V>])
        requires room { length edits.now ≤ self.old.room }
        requires ascend { KeysAscend K.cmp edits.now }
        ensures pairs { self.new.pairs ≡ entered_all K.cmp self.old.pairs edits.now }
    {
        let mut from = 0;
        let mut near = near;
        for edit in edits {
            from = self.set_from(from, near, &edit.key, edit.value);
            near = from;
        }
    }

    /// How many entries there are.
    pub(crate) fn len(&self) -> usize
        ensures { result ≡ length self.now.pairs }
    {
        self.pairs.len()
    }

    /// For how many more entries there is room.
    pub(crate) fn room(&self) -> usize
        ensures { result ≡ self.now.room }
    {
        self.pairs.capacity() - self.pairs.len()
    }

    /// Whether so many edits can be made within the chunk: there is room, and an entry is left.
    pub(crate) fn takes(&self, edits: usize) -> bool
        ensures left { result ≡ true → edits < length self.now.pairs }
        ensures room { result ≡ true → length self.now.pairs ≤ 256 → length self.now.pairs + edits ≤ 256 }
    {
        edits < self.len() && edits <= K::most_entries().saturating_sub(self.len())
    }

    /// The entries at the bound or behind it.
    pub(crate) fn run_from(&self, start: Bound<&K>) -> &[(K, V)]
        ensures { result.now ≡ entries_from K.cmp (bound_map (λ x. x.now) start.entry) self.now.pairs }
    {
        let (_, from) = self.pairs.split_at(first_from(&self.pairs, start));
        from
    }
}

impl<K: Key, V: Copy, A: Allocator> Run<K, V> for Entries<K, V, A> {
    ghost entries = { λ chunk. chunk.pairs };

    fn reaches<Q: Sought<K>>(&self, start: &Bound<Q>) -> bool {
        match self.pairs.last() {
            Some((last, _)) => is_from(start, last),
            None => false,
        }
    }
}

impl<K: Key, V: Copy, A: Allocator + Clone> Recut<K, V, A> for Entries<K, V, A> {
    ghost use Rattle.kfs_maps.specs.Chunks.Joined.{IsSized};

    ghost fits = { IsSized };

    fn push_edited(
        new: &mut Vec<Arc<Entries<K, V, A>, A>, A>,
        chunk: &Arc<Entries<K, V, A>, A>,
        edits: &[KeyEdit<K, V>],
    ) -> Result<(), AllocError> {
        if edits.is_empty() {
            new.push(chunk.clone()?)?;
            return Ok(());
        }
        append(new, chunk.merged(edits)?)
    }

    fn push_fresh(
        new: &mut Vec<Arc<Entries<K, V, A>, A>, A>,
        edits: &[KeyEdit<K, V>],
    ) -> Result<(), AllocError> {
        let entries = Entries::new(new.allocator().clone()?).merged(edits)?;
        append(new, entries)
    }
}

impl<K: Key, V: Copy, A: Allocator + Clone> Entries<K, V, A> {
    /// The entries after the edits, as a new chunk.
    pub(crate) fn merged(&self, edits: &[KeyEdit<K, V>]) -> Result<Entries<K, V, A>, AllocError>
        requires { KeysAscend K.cmp edits.now }
        ensures { IfOk result (λ merged. merged.pairs ≡ entered_all K.cmp self.now.pairs edits.now) }
    {
        let pairs = merged(self.pairs.allocator().clone()?, &self.pairs, edits)?;
        Ok(Entries { pairs })
    }

    /// A copy of `count` entries, the first of them at index `from`.
    pub(crate) fn part(&self, from: usize, count: usize) -> Result<Entries<K, V, A>, AllocError>
        requires { from + count ≤ length self.now.pairs }
        ensures { IfOk result (λ part. part.pairs ≡ take count (drop from self.now.pairs)) }
    {
        let mut pairs = Vec::with_capacity(self.pairs.allocator().clone()?, count)?;
        pairs.extend_from_slice(&self.pairs[from..from + count])?;
        Ok(Entries { pairs })
    }
}

/// The index of the first entry at the bound or behind it, or the number of entries where there is
/// none.
pub(crate) fn first_from<K: Key, V: Copy, Q: Sought<K>>(pairs: &[(K, V)], start: Bound<Q>) -> usize
    requires { T (is_sorted K.cmp pairs.now) }
    ensures { result ≡ first_from K.cmp (bound_map Q.key start) pairs.now }
{
    pairs.partition_point(|pair| !is_from(&start, &pair.0))
}

/// The index of the key's entry; as an error the index at which it would be put.
fn search<K: Key, V: Copy>(pairs: &[(K, V)], key: &K) -> Result<usize, usize>
    requires { T (is_sorted K.cmp pairs.now) }
    ensures { result ≡ (let at = first_from K.cmp (Included key.now) pairs.now in if is_some (find K.cmp key.now pairs.now) then Ok at else Err at) }
{
    found_at(pairs, first_from(pairs, Bound::Included(key)), key)
}

/// The same, found faster where the index is `near`. Condition: no entry before index `from` is at the key or
/// behind it; those aren't searched.
fn search_near<K: Key, V: Copy, Q: Sought<K>>(
    pairs: &[(K, V)],
    from: usize,
    near: usize,
    key: Q,
) -> Result<usize, usize>
    requires sorted { T (is_sorted K.cmp pairs.now) }
    requires from { from ≤ first_from K.cmp (Included (Q.key key)) pairs.now }
    ensures { result ≡ (let at = first_from K.cmp (Included (Q.key key)) pairs.now in if is_some (find K.cmp (Q.key key) pairs.now) then Ok at else Err at) }
{
    found_at(pairs, first_near(pairs, from, near, key), key)
}

/// The same, where `at` is the index of the first entry at the key or behind it.
fn found_at<K: Key, V: Copy, Q: Sought<K>>(
    pairs: &[(K, V)],
    at: usize,
    key: Q,
) -> Result<usize, usize>
    requires sorted { T (is_sorted K.cmp pairs.now) }
    requires first { at ≡ first_from K.cmp (Included (Q.key key)) pairs.now }
    ensures { result ≡ (let at = first_from K.cmp (Included (Q.key key)) pairs.now in if is_some (find K.cmp (Q.key key) pairs.now) then Ok at else Err at) }
{
    let Some(pair) = pairs.get(at) else {
        return Err(at);
    };
    if key.against(&pair.0).is_eq() {
        Ok(at)
    } else {
        Err(at)
    }
}

/// The index of the first entry at the key or behind it, looked for from index `from` on, unless it is `near`.
fn first_near<K: Key, V: Copy, Q: Sought<K>>(
    pairs: &[(K, V)],
    from: usize,
    near: usize,
    key: Q,
) -> usize
    requires sorted { T (is_sorted K.cmp pairs.now) }
    requires from { from ≤ first_from K.cmp (Included (Q.key key)) pairs.now }
    ensures { result ≡ first_from K.cmp (Included (Q.key key)) pairs.now }
{
    let start = Bound::Included(key);
    let near = near.min(pairs.len());
    if near < pairs.len() && !is_from(&start, &pairs[near].0) {
        return first_behind(pairs, from, key);
    }
    if near > 0 && is_from(&start, &pairs[near - 1].0) {
        return first_behind(pairs, from, key);
    }
    near
}

/// The index of the first entry at the key or behind it, looked for from index `from` on.
fn first_behind<K: Key, V: Copy, Q: Sought<K>>(pairs: &[(K, V)], from: usize, key: Q) -> usize
    requires sorted { T (is_sorted K.cmp pairs.now) }
    requires from { from ≤ first_from K.cmp (Included (Q.key key)) pairs.now }
    ensures { result ≡ first_from K.cmp (Included (Q.key key)) pairs.now }
{
    let (_, rest) = pairs.split_at(from);
    from + first_from(rest, Bound::Included(key))
}

/// Whether a key is at the bound or behind it.
#[inline(always)]
fn is_from<K: Key, Q: Sought<K>>(start: &Bound<Q>, key: &K) -> bool
    ensures { result ≡ is_from K.cmp (bound_map Q.key start.now) key.now }
{
    match start {
        Bound::Included(first) => !first.against(key).is_gt(),
        Bound::Excluded(last) => last.against(key).is_lt(),
        Bound::Unbounded => true,
    }
}

/// A key of a map in chunks. Keys are ordered, only equal keys compare as equal, and a key takes no
/// memory of its own: chunks are copied as they lie in memory.
pub trait Key: Ord + Copy {
    /// The order of the keys.
    ghost order: { Order Self };

    /// How many entries with such keys a chunk may have. A new entry moves those behind it in its chunk.
    /// So a chunk of long keys has fewer.
    fn most_entries() -> usize
        ensures least { 2 ≤ result }
        ensures most { result ≤ 256 };

    /// The order is that of `cmp`.
    ghost compared: { Self.cmp ≡ order.compare };
}

/// What is looked for in a map in chunks. It stands for a key: it may be one, or say where one's bytes lie.
pub trait Sought<K: Key>: Copy {
    /// The key for which it stands.
    ghost key: { Self → K };

    /// How that key compares with one of the map. Takes no memory.
    fn against(self, other: &K) -> Ordering
        ensures { result ≡ K.cmp (key self) other.now };
}

impl<'k, K: Key> Sought<K> for &'k K {
    ghost key = { λ key. key.now };

    #[inline(always)]
    fn against(self, other: &K) -> Ordering {
        self.cmp(other)
    }
}

/// A name of a directory that is looked for, where its bytes lie.
#[derive(Drop)]
pub struct NameAt<'s> {
    dir: u32,
    name: SoughtName<'s>,
}

impl<'s> Model for NameAt<'s> {
    ghost use Rattle.std.specs.Prelude.{ℕ, List};

    ghost Value = { ℕ × List ℕ };

    ghost view = { λ at. (at.dir, at.name) };
}

impl<'s> NameAt<'s> {
    /// The name of the directory with this number.
    pub fn new(dir: u32, name: SoughtName<'s>) -> NameAt<'s>
        ensures { result ≡ (dir, name.entry) }
    {
        NameAt { dir, name }
    }
}

impl<'k, 's> Sought<(u32, Name)> for &'k NameAt<'s> {
    ghost key = { λ at. at.now };

    #[inline(always)]
    fn against(self, other: &(u32, Name)) -> Ordering {
        if self.dir != other.0 {
            return self.dir.cmp(&other.0);
        }
        self.name.against(&other.1)
    }
}

impl Key for (u32, u32) {
    ghost order = { pairs numbers numbers };

    ghost compared = { refl };

    fn most_entries() -> usize {
        256
    }
}

impl Key for (u32, Name) {
    ghost order = { name_order };

    ghost compared = { refl };

    fn most_entries() -> usize {
        32
    }
}

/// The new value of a key, or none where it is to have none.
#[derive(Drop)]
pub struct KeyEdit<K: Key, V: Copy> {
    /// The key.
    pub key: K,
    /// The new value, or none.
    pub value: Option<V>,
}

/// Adds an edit behind the others, where its key is above theirs, and answers whether it is. Condition:
/// the keys of the others ascend. `Err` where memory runs out; the edits are as before then.
pub fn push_above<K: Key, V: Copy, A: Allocator>(
    edits: &mut Vec<KeyEdit<K, V>, A>,
    key: K,
    value: Option<V>,
) -> Result<bool, AllocError>
    requires { KeysAscend K.cmp edits.old.items }
    ensures ascend { KeysAscend K.cmp edits.new.items }
    ensures above { IfOk result (λ above. IsTrue above ↔ All (λ e. K.cmp e.key key ≡ Less) edits.old.items) }
    ensures added { IfOk result (λ above. IsTrue above → edits.new.items ≡ edits.old.items ++ record { key = key; value = value } ∷ []) }
    ensures others { IfOk result (λ above. IsFalse above → edits.new.items ≡ edits.old.items) }
    ensures err { OnErr result (edits.new.items ≡ edits.old.items) }
{
    if !is_above(edits, &key) {
        return Ok(false);
    }
    edits.push(KeyEdit { key, value })?;
    Ok(true)
}

/// Whether the key is above those of the edits.
fn is_above<K: Key, V: Copy>(edits: &[KeyEdit<K, V>], key: &K) -> bool
    requires { KeysAscend K.cmp edits.now }
    ensures { IsTrue result ↔ All (λ e. K.cmp e.key key.now ≡ Less) edits.now }
{
    match edits.last() {
        Some(last) => last.key.cmp(key).is_lt(),
        None => true,
    }
}

/// The entries after the edits.
pub(crate) fn merged<K: Key, V: Copy, A: Allocator>(
    alloc: A,
    entries: &[(K, V)],
    edits: &[KeyEdit<K, V>],
) -> Result<Vec<(K, V), A>, AllocError>
    requires sorted { T (is_sorted K.cmp entries.now) }
    requires ascend { KeysAscend K.cmp edits.now }
    ensures { IfOk result (λ merged. merged.items ≡ entered_all K.cmp entries.now edits.now) }
{
    let room = entries.len().saturating_add(edits.len());
    let mut merged = Vec::with_capacity(alloc, room)?;
    let mut left = entries;
    for edit in edits {
        left = enter(&mut merged, left, edit)?;
    }
    merged.extend_from_slice(left)?;
    Ok(merged)
}

/// Copies the entries below the edit's key, and then the edit's entry, if it has a value. Answers the
/// entries that are left.
fn enter<'a, K: Key, V: Copy, A: Allocator>(
    merged: &mut Vec<(K, V), A>,
    left: &'a [(K, V)],
    edit: &KeyEdit<K, V>,
) -> Result<&'a [(K, V)], AllocError>
    requires { T (is_sorted K.cmp left.now) }
    ensures sorted { IfOk result (λ rest. T (is_sorted K.cmp rest.now)) }
    ensures passed { IfOk result (λ rest. IsPassed K.cmp edit.now merged.old.items left.now merged.new.items rest.now) }
{
    let (below, from) = left.split_at(first_from(left, Bound::Included(&edit.key)));
    merged.extend_from_slice(below)?;
    if let Some(value) = edit.value {
        merged.push((edit.key, value))?;
    }
    Ok(behind(from, &edit.key))
}

/// The entries without the first one, if that has the key.
fn behind<'a, K: Key, V: Copy>(entries: &'a [(K, V)], key: &K) -> &'a [(K, V)]
    requires sorted { T (is_sorted K.cmp entries.now) }
    requires from { first_from K.cmp (Included key.now) entries.now ≡ 0 }
    ensures { result.now ≡ entered K.cmp entries.now key.now None }
{
    let Some((first, rest)) = entries.split_first() else {
        return entries;
    };
    if first.0.cmp(key).is_eq() {
        rest
    } else {
        entries
    }
}
