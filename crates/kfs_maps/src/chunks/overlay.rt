//! New values of keys, laid over a map that stays as it is.
ghost use Rattle.std.specs.Prelude.{◌≡◌, [], Some, OnOk, IfOk, if◌then◌else◌};
ghost use Rattle.std.specs.Ordering.{eq_by_cmp};
ghost use Rattle.std.specs.BTreeMap.{get, IsOrdered};
ghost use Rattle.kfs_maps.specs.Chunks.Edits.{KeysAscend};
ghost use Rattle.kfs_maps.specs.Chunks.Overlays.{said_or, key_edits, Say};

use crate::chunks::entries::{Key, KeyEdit};
use std::alloc::{AllocError, Allocator};
use std::collections::BTreeMap;

/// The newest values set for keys of a map: a value, or none for a key that is removed. The map itself
/// isn't changed.
#[derive(Drop)]
pub struct Overlay<K: Ord + Drop, V: Copy, A: Allocator> {
    /// The keys that were set.
    pub latest: BTreeMap<K, Option<V>, A>,
}

impl<K: Ord + Drop, V: Copy, A: Allocator + Clone> Overlay<K, V, A> {
    /// An overlay in which no key is set. Takes no memory.
    pub fn new(alloc: A) -> Overlay<K, V, A>
        ensures { result.latest.entries ≡ [] }
    {
        Overlay {
            latest: BTreeMap::new(alloc),
        }
    }

    /// The value set last for the key, or `there` where the key wasn't set. Takes no memory.
    pub fn get_or(&self, key: &K, there: Option<V>) -> Option<V>
        ensures { result ≡ said_or (get K.cmp self.now.latest key.now) there }
    {
        match self.latest.get(key) {
            Some(now) => *now,
            None => there,
        }
    }

    /// The same as `set`. Answers what was set for the key before, if anything was.
    pub fn replace(&mut self, key: K, now: Option<V>) -> Result<Option<Option<V>>, AllocError>
        ensures set { OnOk result ((q : K) → get K.cmp self.new.latest q ≡ (if eq_by_cmp K.cmp q key then Some now else get K.cmp self.old.latest q)) }
        ensures before { IfOk result (λ before. before ≡ get K.cmp self.old.latest key) }
    {
        let before = self.latest.insert(key, now)?;
        Ok(before)
    }

    /// Sets the key's value, or that it has none. `Err` where memory runs out.
    pub fn set(&mut self, key: K, now: Option<V>) -> Result<(), AllocError>
        ensures { OnOk result ((q : K) → get K.cmp self.new.latest q ≡ (if eq_by_cmp K.cmp q key then Some now else get K.cmp self.old.latest q)) }
    {
        // What was set before is for those who ask for it.
        let _before = self.replace(key, now)?;
        Ok(())
    }
}

/// The overlay as edits of a map in chunks, ascending by key. `Err` where memory runs out.
pub fn key_edits<K: Key, V: Copy, A: Allocator + Clone>(
    alloc: &A,
    overlay: &Overlay<K, V, A>,
) -> Result<Vec<KeyEdit<K, V>, A>, AllocError>
    ensures ascend { IfOk result (λ edits. KeysAscend K.cmp edits.items) }
    ensures said { IfOk result (λ edits. Say K.cmp edits.items overlay.now.latest) }
{
    let mut edits = Vec::with_capacity(alloc.clone()?, overlay.latest.len())?;
    list_keys(&overlay.latest, &mut edits)?;
    Ok(edits)
}

fn list_keys<K: Key, V: Copy, A: Allocator + Clone>(
    latest: &BTreeMap<K, Option<V>, A>,
    edits: &mut Vec<KeyEdit<K, V>, A>,
) -> Result<(), AllocError>
    requires { edits.old.items ≡ [] }
    ensures edits { OnOk result (edits.new.items ≡ key_edits latest.now.entries) }
    ensures ordered { IsOrdered K.cmp latest.now }
{
    for (key, now) in latest {
        edits.push(KeyEdit {
            key: *key,
            value: *now,
        })?;
    }
    Ok(())
}
