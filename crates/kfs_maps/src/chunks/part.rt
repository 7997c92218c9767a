//! A part of a map: a list of chunks that copies share. Finding the chunk to which a key belongs.
ghost use Rattle.std.specs.Prelude.{◌≡◌, ◌≤◌, T, IfSome, IfNone, IfOk, Some, None, length};
ghost use Rattle.std.specs.Option.{option_copied};
ghost use Rattle.std.specs.FinMap.Entries.{find, is_sorted};
ghost use Rattle.std.specs.Range.Bound.{bound_map};
ghost use Rattle.kfs_maps.specs.Chunks.Edits.{KeysAscend};
ghost use Rattle.kfs_maps.specs.Chunks.Joined.{joined, AreSized, Tells, TellsAlone};
ghost use Rattle.kfs_maps.specs.Chunks.Starts.{IsNextRun};
ghost use Rattle.std.specs.declared.ops.Bound.TheVariants.{Included};

use crate::chunks::change::cut_parts;
use crate::chunks::entries::{Entries, Key, KeyEdit, Sought};
use crate::chunks::run::{Recut, Run, edits_of, place, place_near, rebuilt};
use std::alloc::{AllocError, Allocator};
use std::marker::Model;
use std::ops::Bound;
use std::sync::Arc;

/// The most chunks of a part.
pub(crate) const MOST_CHUNKS: usize = 64;

/// Chunks in the order of their keys. Copies share them.
#[derive(Drop)]
pub(crate) struct Part<K: Key, V: Copy, A: Allocator> {
    /// 1 to 64 chunks of 1 to 256 entries; the keys of a chunk come before those of the next.
    pub(crate) chunks: Vec<Arc<Entries<K, V, A>, A>, A>,
}

impl<K: Key, V: Copy, A: Allocator> Model for Part<K, V, A> {
    ghost use Rattle.std.specs.Prelude.{◌≤◌, T, length};
    ghost use Rattle.std.specs.FinMap.Entries.{is_sorted};
    ghost use Rattle.kfs_maps.specs.Chunks.Buffer.{Buffer};
    ghost use Rattle.kfs_maps.specs.Chunks.Joined.{joined, AreSized};

    ghost Value = { Buffer K V };

    ghost view = { λ s. record { pairs = joined s.chunks.items; room = 0 } };

    ghost invariant = { λ s. T (is_sorted K.cmp (joined s.chunks.items)) × AreSized s.chunks.items × (1 ≤ length s.chunks.items) × (length s.chunks.items ≤ 64) };
}

impl<K: Key, V: Copy, A: Allocator + Clone> Clone for Part<K, V, A> {
    ghost is_clone = { λ part copy. copy.pairs ≡ part.pairs };

    fn clone(&self) -> Result<Part<K, V, A>, AllocError> {
        Ok(Part {
            chunks: self.chunks.clone()?,
        })
    }
}

impl<K: Key, V: Copy, A: Allocator> Part<K, V, A> {
    /// The value at a key, or none. Takes no memory.
    pub(crate) fn get(&self, key: &K) -> Option<&V>
        ensures { option_copied result ≡ find K.cmp key.now self.now.pairs }
    {
        let chunk = self.chunks.get(place(&self.chunks, &Bound::Included(key)))?;
        chunk.get(key)
    }

    /// The same value, found faster where the key's chunk is that of `near`, which becomes the place of
    /// the key. Takes no memory.
    pub(crate) fn get_near<Q: Sought<K>>(&self, near: &mut Near, key: Q) -> Option<&V>
        ensures { option_copied result ≡ find K.cmp (Q.key key) self.now.pairs }
    {
        let at = place_near(&self.chunks, &Bound::Included(key), near.chunk);
        near.chunk = at;
        let chunk = self.chunks.get(at)?;
        chunk.get_near(&mut near.entry, key)
    }

    /// What the entry at `near` and the one before it in its chunk tell of a key, if they do. Takes no
    /// memory.
    pub(crate) fn told_at<Q: Sought<K>>(&self, near: Near, key: Q) -> Option<Option<&V>>
        ensures { IfSome result (λ told. Tells K.cmp (Q.key key) self.now.pairs (option_copied told)) }
    {
        let chunk = self.chunks.get(near.chunk)?;
        chunk.told_at(near.entry, key)
    }

    /// The chunk at an index, if the key is behind the chunk in front of it and not behind its own last
    /// key. Then only this chunk can have the key, also where the part is one of several.
    pub(crate) fn inner_chunk<Q: Sought<K>>(
        &self,
        index: usize,
        key: Q,
    ) -> Option<&Arc<Entries<K, V, A>, A>>
        ensures { IfSome result (λ chunk. TellsAlone K.cmp (Q.key key) self.now.pairs chunk.now.value.pairs) }
    {
        if index == 0 {
            return None;
        }
        let start = Bound::Included(key);
        let chunk = self.chunks.get(index)?;
        if !chunk.reaches(&start) {
            return None;
        }
        if self.chunks[index - 1].reaches(&start) {
            return None;
        }
        Some(chunk)
    }

    /// The entries at the bound or behind it, of the first chunk that has some. Empty only where no chunk
    /// has. Takes no memory.
    pub(crate) fn run_from(&self, start: Bound<&K>) -> &[(K, V)]
        ensures { IsNextRun K.cmp (bound_map (λ x. x.now) start.entry) self.now.pairs result.now }
    {
        match self.chunks.get(place(&self.chunks, &start)) {
            Some(chunk) => chunk.run_from(start),
            None => &[],
        }
    }

    /// Whether the first chunk that the edits change takes those that belong to it. It is found faster
    /// where its index is `near`.
    pub(crate) fn takes_first(&self, near: usize, edits: &[KeyEdit<K, V>]) -> bool
        requires { KeysAscend K.cmp edits.now }
    {
        let Some(edit) = edits.first() else {
            return true;
        };
        let last = self.chunks.len().saturating_sub(1);
        let index = place_near(&self.chunks, &Bound::Included(&edit.key), near).min(last);
        let Some((chunk, rest)) = self.chunks[index..].split_first() else {
            return true;
        };
        chunk.takes(edits_of(edits, chunk, rest))
    }
}

impl<K: Key, V: Copy, A: Allocator> Run<K, V> for Part<K, V, A> {
    ghost entries = { λ part. part.pairs };

    fn reaches<Q: Sought<K>>(&self, start: &Bound<Q>) -> bool {
        match self.chunks.last() {
            Some(last) => last.reaches(start),
            None => false,
        }
    }
}

impl<K: Key, V: Copy, A: Allocator + Clone> Recut<K, V, A> for Part<K, V, A> {
    ghost use Rattle.kfs_maps.specs.Chunks.Joined.{IsNotEmpty};

    ghost fits = { IsNotEmpty };

    fn push_edited(
        new: &mut Vec<Arc<Part<K, V, A>, A>, A>,
        part: &Arc<Part<K, V, A>, A>,
        edits: &[KeyEdit<K, V>],
    ) -> Result<(), AllocError> {
        if edits.is_empty() {
            new.push(part.clone()?)?;
            return Ok(());
        }
        cut_parts(new, &rebuilt(&part.chunks, edits)?)
    }

    fn push_fresh(
        new: &mut Vec<Arc<Part<K, V, A>, A>, A>,
        edits: &[KeyEdit<K, V>],
    ) -> Result<(), AllocError> {
        let mut chunks = Vec::new(new.allocator().clone()?);
        Entries::push_fresh(&mut chunks, edits)?;
        cut_parts(new, &chunks)
    }
}

impl<K: Key, V: Copy, A: Allocator + Clone> Part<K, V, A> {
    /// A part with these chunks, which it shares.
    pub(crate) fn of(
        alloc: A,
        chunks: &[Arc<Entries<K, V, A>, A>],
    ) -> Result<Part<K, V, A>, AllocError>
        requires sorted { T (is_sorted K.cmp (joined chunks.now)) }
        requires sized { AreSized chunks.now }
        requires least { 1 ≤ length chunks.now }
        requires most { length chunks.now ≤ 64 }
        ensures { IfOk result (λ part. part.pairs ≡ joined chunks.now) }
    {
        let mut own = Vec::with_capacity(alloc, chunks.len())?;
        for chunk in chunks {
            own.push(chunk.clone()?)?;
        }
        Ok(Part { chunks: own })
    }
}

/// Where in a map the next key is looked for first: behind the last one. It is only a guess, so any place
/// will do, for any map, also after a change.
#[derive(Clone, Copy)]
pub struct Near {
    /// The index of the part.
    pub(crate) part: usize,
    /// The index of the chunk in it.
    pub(crate) chunk: usize,
    /// The index of an entry in that.
    pub(crate) entry: usize,
}

impl Near {
    /// The key stands in the part at this index; behind all entries where that is the number of parts.
    pub(crate) fn move_to(&mut self, part: usize, parts: usize) {
        if part >= parts {
            self.chunk = usize::MAX;
            self.entry = usize::MAX;
        }
        self.part = part;
    }

    /// The place of the key that was looked for last, where it stands behind that key's entry, if it was found.
    pub fn at_key(self, found: bool) -> Near {
        Near {
            entry: self.entry.saturating_sub(usize::from(found)),
            ..self
        }
    }

    /// The place behind this one, where that is an entry's.
    pub fn behind(self, entry: bool) -> Near {
        Near {
            entry: self.entry.saturating_add(usize::from(entry)),
            ..self
        }
    }

    /// The place of the first entries.
    pub fn start() -> Near {
        Near {
            part: 0,
            chunk: 0,
            entry: 0,
        }
    }
}
