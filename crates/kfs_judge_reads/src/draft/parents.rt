//! The parents that the entries of a log have written. The prover wants the type in a file of its own: its
//! ghost field imports all that the file names, and the definitions of drafts name the type.
ghost use Rattle.std.specs.Prelude.{◌≡◌, ℕ, ◌==◌, OnOk};
ghost use Rattle.std.specs.Option.{is_some};
ghost use Rattle.std.specs.List.{list_any};
ghost use Rattle.std.specs.Ordering.{nat_cmp};
ghost use Rattle.std.specs.BTreeMap.{get, IsEmpty};

use std::alloc::{AllocError, Allocator};
use std::collections::BTreeMap;

/// The parent of each directory that was written, by number.
#[derive(Drop)]
pub struct Parents<A: Allocator> {
    map: BTreeMap<u32, Option<u32>, A>,
    /// The numbers in the map, in the order in which each was first written.
    written: Vec<u32, A>,
    ghost exact: { (n : ℕ) → list_any (λ m. m == n) written.items ≡ is_some (get nat_cmp map n) },
}

impl<A: Allocator + Copy> Parents<A> {
    ghost use Rattle.kfs_judge_reads.specs.Draft.Overlay.{PutsAt};

    /// No parent is written. Takes no memory.
    pub fn new(alloc: A) -> Parents<A>
        ensures { IsEmpty result.map }
    {
        Parents {
            map: BTreeMap::new(alloc),
            written: Vec::new(alloc),
        }
    }

    /// The directory's parent is this one, or none. `Err` where memory runs out; nothing is written then.
    pub fn set(&mut self, number: u32, parent: Option<u32>) -> Result<(), AllocError>
        ensures { OnOk result (PutsAt nat_cmp self.old.map self.new.map number parent) }
    {
        self.written.reserve(1)?;
        let before = self.map.insert(number, parent)?;
        if before.is_none() {
            self.written.push(number)?;
        }
        Ok(())
    }
}

impl<A: Allocator> Parents<A> {
    /// The directory's parent, if it was written. An inner none means that it has none.
    pub fn get(&self, number: u32) -> Option<Option<u32>>
        ensures { result ≡ get nat_cmp self.now.map number }
    {
        self.map.get(&number).copied()
    }

    /// The numbers whose parent was written, in the order in which each was first written.
    pub fn written(&self) -> &[u32]
        ensures { (n : ℕ) → list_any (λ m. m == n) result.now ≡ is_some (get nat_cmp self.now.map n) }
    {
        self.written.as_slice()
    }
}
