//! The entries of a map that is being made, in the order of their keys.
ghost use Rattle.std.specs.Prelude.{◌≡◌, ◌++◌, [], T, IfOk, OnOk};
ghost use Rattle.std.specs.FinMap.Entries.{is_sorted};
ghost use Rattle.kfs_maps.specs.Chunks.Joined.{IsSized};

use crate::chunks::chunks::Chunks;
use crate::chunks::entries::{Entries, Key};
use std::alloc::{AllocError, Allocator};
use std::marker::Model;
use std::sync::Arc;

/// Chunks of entries, one behind another. A map that is made of them shares them, so each entry is
/// written once.
#[derive(Drop)]
pub struct ChunkList<K: Key, V: Copy, A: Allocator> {
    chunks: Vec<Arc<Entries<K, V, A>, A>, A>,
}

impl<K: Key, V: Copy, A: Allocator> Model for ChunkList<K, V, A> {
    ghost use Rattle.std.specs.Prelude.{List};
    ghost use Rattle.kfs_maps.specs.Chunks.Joined.{joined, AreSized};

    ghost Value = { List (K × V) };

    ghost view = { λ s. joined s.chunks.items };

    ghost invariant = { λ s. AreSized s.chunks.items };
}

impl<K: Key, V: Copy, A: Allocator + Clone> ChunkList<K, V, A> {
    /// No entries. Takes no memory.
    pub fn new(alloc: A) -> ChunkList<K, V, A>
        ensures { result ≡ [] }
    {
        ChunkList {
            chunks: Vec::new(alloc),
        }
    }

    /// Adds a chunk of these entries behind those that are there. Condition: they are 1 to 256, and
    /// their keys ascend. `Err` where memory runs out.
    pub fn push(&mut self, entries: Vec<(K, V), A>) -> Result<(), AllocError>
        requires sorted { T (is_sorted K.order.compare entries.items) }
        requires sized { IsSized entries.items }
        ensures { OnOk result (self.new ≡ self.old ++ entries.items) }
    {
        let alloc = self.chunks.allocator().clone()?;
        let chunk = Arc::new(alloc, Entries::of(entries))?;
        self.chunks.push(chunk)?;
        Ok(())
    }

    /// The map of all entries. Condition: their keys ascend, over all chunks. `Err` where memory is
    /// refused.
    pub fn map(&self) -> Result<Chunks<K, V, A>, AllocError>
        requires { T (is_sorted K.order.compare self.now) }
        ensures { IfOk result (λ map. map ≡ self.now) }
    {
        let alloc = self.chunks.allocator().clone()?;
        Chunks::of(alloc, &self.chunks)
    }
}
