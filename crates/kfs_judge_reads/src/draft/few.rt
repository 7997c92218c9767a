//! Maps and sets of which a single entry takes no memory. Most logs create one node, change one
//! directory, and write one header and one name.
ghost use Rattle.std.specs.Prelude.{◌≡◌, ℕ, ◌==◌, ◌||◌, false, pos, ◌+ℤ◌, FitsSigned, unwrap_or};
ghost use Rattle.std.specs.Prelude.{if◌then◌else◌, Some, None, [], ◌∷◌, IfSome, IfNone, OnOk};
ghost use Rattle.std.specs.Int.{w32};
ghost use Rattle.std.specs.Ordering.{nat_cmp};
ghost use Rattle.std.specs.BTreeMap.{get};
ghost use Rattle.kfs_judge_reads.specs.Draft.Few.{entries_of, found_in, PutsIn};
ghost use Rattle.kfs_judge_reads.specs.Draft.Created.{has_number, is_created};
ghost use Rattle.kfs_judge_reads.specs.Draft.Shifts.{shift_in};

use std::alloc::{AllocError, Allocator};
use std::collections::{BTreeMap, BTreeSet};

/// A map by key. Most logs write one header and one name; so an entry that is alone stands here, and not
/// in the tree.
#[derive(Drop)]
pub struct Few<K: Ord, V, A: Allocator> {
    /// The only entry. The tree doesn't count then.
    only: Option<(K, V)>,
    tree: BTreeMap<K, V, A>,
}

impl<K: Ord + Drop, V: Copy, A: Allocator + Copy> Few<K, V, A> {
    /// No entry. Takes no memory.
    pub fn new(alloc: A) -> Few<K, V, A>
        ensures { entries_of result ≡ [] }
    {
        Few {
            only: None,
            tree: BTreeMap::new(alloc),
        }
    }

    /// The value at the key is this one. `Err` where memory runs out; an entry may be lost then.
    pub fn put(&mut self, key: K, value: V) -> Result<(), AllocError>
        ensures { OnOk result (PutsIn K.cmp (entries_of self.old) (entries_of self.new) key value) }
    {
        match self.only.take() {
            Some((there, now)) => self.put_beside(there, now, key, value),
            None => self.put_alone(key, value),
        }
    }
}

impl<K: Ord + Drop, V: Copy, A: Allocator + Copy> Few<K, V, A> {
    /// The same, where no entry stands alone.
    fn put_alone(&mut self, key: K, value: V) -> Result<(), AllocError>
        requires { self.old.only ≡ None }
        ensures { OnOk result (PutsIn K.cmp self.old.tree.entries (entries_of self.new) key value) }
    {
        if self.tree.is_empty() {
            self.only = Some((key, value));
            return Ok(());
        }
        self.tree.insert(key, value)?;
        Ok(())
    }

    /// The same, where the entry of `there` stood alone.
    fn put_beside(&mut self, there: K, now: V, key: K, value: V) -> Result<(), AllocError>
        requires { self.old.only ≡ None }
        ensures { OnOk result (PutsIn K.cmp ((there, now) ∷ []) (entries_of self.new) key value) }
    {
        if key.cmp(&there).is_eq() {
            self.only = Some((there, value));
            return Ok(());
        }
        self.tree.clear();
        self.tree.insert(there, now)?;
        self.tree.insert(key, value)?;
        Ok(())
    }
}

impl<K: Ord, V: Copy, A: Allocator> Few<K, V, A> {
    /// The value at the key, or none.
    pub fn get(&self, key: &K) -> Option<V>
        ensures { result ≡ found_in K.cmp self.now key.now }
    {
        match &self.only {
            Some((there, value)) => {
                if key.cmp(there).is_eq() {
                    return Some(*value);
                }
                None
            }
            None => self.in_tree(key),
        }
    }

    /// The value at the key in the tree, or none. Most long logs write in the order of the keys: so a key behind the last
    /// one, which isn't there, is no search.
    fn in_tree(&self, key: &K) -> Option<V>
        ensures { result ≡ get K.cmp self.now.tree key.now }
    {
        let (last, _) = self.tree.last_key_value()?;
        if key.cmp(last).is_gt() {
            return None;
        }
        self.tree.get(key).copied()
    }

    /// The only entry, if it stands alone.
    pub fn only(&self) -> Option<(&K, &V)>
        ensures some { IfSome result (λ e. entries_of self.now ≡ (e.0.now, e.1.now) ∷ []) }
        ensures none { IfNone result (self.now.only ≡ None) }
    {
        let (key, value) = self.only.as_ref()?;
        Some((key, value))
    }

    /// The entries by key, if none stands alone.
    pub fn tree(&self) -> &BTreeMap<K, V, A>
        ensures { result.now ≡ self.now.tree }
    {
        &self.tree
    }
}

/// Numbers, of which most logs create one. That one takes no memory.
#[derive(Drop)]
pub struct Created<A: Allocator> {
    first: Option<u32>,
    others: BTreeSet<u32, A>,
}

impl<A: Allocator + Copy> Created<A> {
    /// No number is created. Takes no memory.
    pub fn new(alloc: A) -> Created<A>
        ensures { (n : ℕ) → is_created result n ≡ false }
    {
        Created {
            first: None,
            others: BTreeSet::new(alloc),
        }
    }

    /// The number is created. `Err` where memory runs out; nothing has changed then.
    pub fn add(&mut self, number: u32) -> Result<(), AllocError>
        ensures { OnOk result ((n : ℕ) → is_created self.new n ≡ ((number == n) || is_created self.old n)) }
    {
        match self.first {
            None => {
                self.first = Some(number);
                Ok(())
            }
            Some(_) => {
                self.others.insert(number)?;
                Ok(())
            }
        }
    }
}

impl<A: Allocator> Created<A> {
    /// Whether the number is created.
    pub fn has(&self, number: u32) -> bool
        ensures { result ≡ is_created self.now number }
    {
        is_number(self.first, number) || self.others.contains(&number)
    }
}

fn is_number(first: Option<u32>, number: u32) -> bool
    ensures { result ≡ has_number first number }
{
    match first {
        Some(first) => first == number,
        None => false,
    }
}

/// Changes by directory; those of most logs are of one, which takes no memory.
#[derive(Drop)]
pub struct Shifts<A: Allocator> {
    first: Option<(u32, i32)>,
    others: BTreeMap<u32, i32, A>,
}

impl<A: Allocator + Copy> Shifts<A> {
    /// No count has changed. Takes no memory.
    pub fn new(alloc: A) -> Shifts<A>
        ensures { (d : ℕ) → shift_in result d ≡ pos 0 }
    {
        Shifts {
            first: None,
            others: BTreeMap::new(alloc),
        }
    }

    /// The directory's count has changed by so much in all. `Err` where memory runs out; nothing has
    /// changed then.
    pub fn set(&mut self, dir: u32, by: i32) -> Result<(), AllocError>
        ensures { OnOk result ((d : ℕ) → shift_in self.new d ≡ (if d == dir then by else shift_in self.old d)) }
    {
        match self.first {
            None => {
                self.first = Some((dir, by));
                Ok(())
            }
            Some((first, _)) => {
                if first == dir {
                    self.first = Some((dir, by));
                    return Ok(());
                }
                self.others.insert(dir, by)?;
                Ok(())
            }
        }
    }
}

impl<A: Allocator> Shifts<A> {
    /// By how much the directory's count has changed.
    pub fn get(&self, dir: u32) -> i32
        ensures { result ≡ shift_in self.now dir }
    {
        match self.first {
            None => self.other(dir),
            Some((first, by)) => {
                if first == dir {
                    return by;
                }
                self.other(dir)
            }
        }
    }

    fn other(&self, dir: u32) -> i32
        ensures { result ≡ unwrap_or (get nat_cmp self.now.others dir) (pos 0) }
    {
        self.others.get(&dir).copied().unwrap_or(0)
    }
}
