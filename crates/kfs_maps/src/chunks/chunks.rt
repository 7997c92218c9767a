//! The parts of all keys, as one sorted map.
ghost use Rattle.std.specs.Prelude.{◌≡◌, [], T, true, None, IfSome, IfNone, IfOk, OnOk, OnErr};
ghost use Rattle.std.specs.Option.{option_copied};
ghost use Rattle.std.specs.FinMap.Entries.{find, is_sorted};
ghost use Rattle.std.specs.Range.Bound.{bound_map};
ghost use Rattle.kfs_maps.specs.Chunks.Edits.{rewritten, KeysAscend};
ghost use Rattle.kfs_maps.specs.Chunks.Joined.{joined, AreSized};
ghost use Rattle.kfs_maps.specs.Chunks.Starts.{is_from, IsNextEntry, IsNextRun};

use crate::chunks::change::{change_parts, cut_parts};
use crate::chunks::entries::{Entries, Key, KeyEdit, Sought};
use crate::chunks::part::{Near, Part};
use crate::chunks::run::{Run, place, place_near, rebuilt};
use kfs_types::Change;
use std::alloc::{AllocError, Allocator};
use std::marker::Model;
use std::ops::Bound;
use std::sync::Arc;

/// How many edits are made in the chunks that are there, at most. Each may take five calls within each
/// other.
const MOST_IN_PLACE: usize = 16;

/// A sorted map from keys to values. Copies share chunks, and each keeps showing what it showed when it
/// was made.
#[derive(Drop)]
pub struct Chunks<K: Key, V: Copy, A: Allocator> {
    /// None is empty, and the keys of a part come before those of the next.
    parts: Vec<Arc<Part<K, V, A>, A>, A>,
}

impl<K: Key, V: Copy, A: Allocator> Model for Chunks<K, V, A> {
    ghost use Rattle.std.specs.Prelude.{List, T};
    ghost use Rattle.std.specs.FinMap.Entries.{is_sorted};
    ghost use Rattle.kfs_maps.specs.Chunks.Joined.{joined, AreFilled};

    ghost Value = { List (K × V) };

    ghost view = { λ s. joined s.parts.items };

    ghost invariant = { λ s. T (is_sorted K.cmp (joined s.parts.items)) × AreFilled s.parts.items };
}

impl<K: Key, V: Copy, A: Allocator + Clone> Clone for Chunks<K, V, A> {
    ghost is_clone = { λ chunks copy. copy ≡ chunks };

    fn clone(&self) -> Result<Chunks<K, V, A>, AllocError> {
        Ok(Chunks {
            parts: self.parts.clone()?,
        })
    }
}

impl<K: Key, V: Copy, A: Allocator> Chunks<K, V, A> {
    /// The map without entries. Takes no memory.
    pub fn new(alloc: A) -> Chunks<K, V, A>
        ensures { result ≡ [] }
    {
        Chunks {
            parts: Vec::new(alloc),
        }
    }

    /// The allocator that the map was made with. Takes no memory.
    pub fn allocator(&self) -> &A {
        self.parts.allocator()
    }

    /// The value at a key, or none. Takes no memory.
    pub fn get(&self, key: &K) -> Option<&V>
        ensures { option_copied result ≡ find K.order.compare key.now self.now }
    {
        let part = self.parts.get(place(&self.parts, &Bound::Included(key)))?;
        part.get(key)
    }

    /// The same value, for keys that are looked up one after another. It is found with one comparison
    /// where this key is the one behind the last, with two where it would stand there but has no entry, and
    /// without a search for its chunk where that is the last one's. `near` becomes the place behind this
    /// key. Takes no memory.
    pub fn get_near<Q: Sought<K>>(&self, near: &mut Near, key: Q) -> Option<&V>
        ensures { option_copied result ≡ find K.order.compare (Q.key key) self.now }
    {
        if let Some(part) = self.parts.get(near.part) {
            if let Some(told) = part.told_at(*near, key) {
                near.entry = near.entry.saturating_add(usize::from(told.is_some()));
                return told;
            }
            if let Some(chunk) = part.inner_chunk(near.chunk, key) {
                return chunk.get_near(&mut near.entry, key);
            }
        }
        let at = place_near(&self.parts, &Bound::Included(key), near.part);
        near.move_to(at, self.parts.len());
        let part = self.parts.get(at)?;
        part.get_near(near, key)
    }

    /// The first entry at the bound or behind it, or none. Takes no memory.
    pub fn next(&self, start: Bound<&K>) -> Option<(&K, &V)>
        ensures some { IfSome result (λ p. IsNextEntry K.order.compare (bound_map (λ x. x.now) start.entry) self.now p.0.now p.1.now) }
        ensures none { IfNone result ((q : K) → is_from K.order.compare (bound_map (λ x. x.now) start.entry) q ≡ true → find K.order.compare q self.now ≡ None) }
    {
        let (key, value) = self.run_from(start).first()?;
        Some((key, value))
    }

    /// The next entries at the bound or behind it, ascending: those that stand in one chunk. Empty only
    /// where the map has none there. Takes no memory.
    ///
    /// So a walk over all entries looks for each chunk once: behind the last entry of the one before.
    pub fn run_from(&self, start: Bound<&K>) -> &[(K, V)]
        ensures sorted { T (is_sorted K.order.compare self.now) }
        ensures next { IsNextRun K.order.compare (bound_map (λ x. x.now) start.entry) self.now result.now }
    {
        match self.parts.get(place(&self.parts, &start)) {
            Some(part) => part.run_from(start),
            None => &[],
        }
    }
}

impl<K: Key, V: Copy, A: Allocator + Clone> Chunks<K, V, A> {
    /// The map of the entries of these chunks, which it shares. `Err` where memory runs out.
    pub(crate) fn of(
        alloc: A,
        chunks: &[Arc<Entries<K, V, A>, A>],
    ) -> Result<Chunks<K, V, A>, AllocError>
        requires sorted { T (is_sorted K.cmp (joined chunks.now)) }
        requires sized { AreSized chunks.now }
        ensures { IfOk result (λ map. map ≡ joined chunks.now) }
    {
        let mut parts = Vec::new(alloc);
        cut_parts(&mut parts, chunks)?;
        Ok(Chunks { parts })
    }

    /// Makes the edits and the other change, or neither. All memory is taken first; then comes the
    /// other change, then the edits. Copies show what they showed. Condition: the keys of the edits
    /// ascend. `Err` where memory runs out.
    ///
    /// Usually the edits are made in the chunks that are there. Where a chunk has no room for its
    /// edits, or might become empty, and where there are many edits, a new list of parts is made, with
    /// those chunks and their parts cut anew.
    pub fn change_then<T: Change>(
        &mut self,
        edits: &[KeyEdit<K, V>],
        then: &mut T,
    ) -> Result<(), AllocError>
        requires edits { KeysAscend K.order.compare edits.now }
        requires then { T.can_make then.old }
        ensures ok { OnOk result (self.new ≡ rewritten K.order self.old edits.now) }
        ensures err { OnErr result (self.new ≡ self.old) }
        ensures made { OnOk result (T.made then.old then.new) }
        ensures kept { OnErr result (T.kept then.old then.new) }
    {
        self.change_near(Near::start(), edits, then)
    }

    /// The same. The first edit is made faster where its key stands at `near`.
    pub fn change_near<T: Change>(
        &mut self,
        near: Near,
        edits: &[KeyEdit<K, V>],
        then: &mut T,
    ) -> Result<(), AllocError>
        requires edits { KeysAscend K.order.compare edits.now }
        requires then { T.can_make then.old }
        ensures ok { OnOk result (self.new ≡ rewritten K.order self.old edits.now) }
        ensures err { OnErr result (self.new ≡ self.old) }
        ensures made { OnOk result (T.made then.old then.new) }
        ensures kept { OnErr result (T.kept then.old then.new) }
    {
        if edits.len() > MOST_IN_PLACE {
            return self.change_anew(edits, then);
        }
        if change_parts(self.parts.as_mut_slice(), near, edits, then)? {
            return Ok(());
        }
        self.change_anew(edits, then)
    }

    /// The same by a new list of parts, with the chunks that are edited and their parts cut anew.
    fn change_anew<T: Change>(
        &mut self,
        edits: &[KeyEdit<K, V>],
        then: &mut T,
    ) -> Result<(), AllocError>
        requires edits { KeysAscend K.order.compare edits.now }
        requires then { T.can_make then.old }
        ensures ok { OnOk result (self.new ≡ rewritten K.order self.old edits.now) }
        ensures err { OnErr result (self.new ≡ self.old) }
        ensures made { OnOk result (T.made then.old then.new) }
        ensures kept { OnErr result (T.kept then.old then.new) }
    {
        let parts = rebuilt(&self.parts, edits)?;
        then.make()?;
        self.parts = parts;
        Ok(())
    }
}
