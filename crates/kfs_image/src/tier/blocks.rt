//! The bytes of a tier's blocks. A block that was never written takes no memory.
ghost use Rattle.std.specs.Prelude.{◌≡◌, ◌+◌, ◌≤◌, length, slice_index, vec_len, Some, None, IsSome, IfSome, OnOk, OnErr, EachIndex};
ghost use Rattle.std.specs.Ordering.{nat_cmp};
ghost use Rattle.std.specs.BTreeMap.{get};
ghost use Rattle.std.specs.Option.{option_copied};
ghost use Rattle.kfs_model.specs.Limits.{block_size};
ghost use Rattle.kfs_model.specs.Table.{empty, insert, remove};
ghost use Rattle.kfs_image.specs.Tier.Blocks.{block_at, byte_at, HasRoomForBlock, KeepsBlocks, with_room, without_room};
ghost use Rattle.kfs_image.specs.Tier.Slots.{held_at, SetsSlot};

use kfs_types::RowList;
use std::alloc::{AllocError, Allocator};
use std::collections::BTreeMap;
use std::marker::Model;
use std::mem;

/// The blocks of a tier, by place. A block that was written has 4,096 bytes. A block that has room but
/// was never written is listed without bytes, in contracts too.
#[derive(Drop)]
pub struct TierBlocks<A: Allocator> {
    slots: BTreeMap<u32, Option<RowList<u8, A>>, A>,
}

impl<A: Allocator> Model for TierBlocks<A> {
    ghost use Rattle.kfs_image.specs.Tier.Blocks.{BlockTable, AreWhole};
    ghost use Rattle.kfs_image.specs.Tier.Slots.{blocks_of};

    ghost Value = { BlockTable };

    ghost view = { λ b. blocks_of b.slots.entries };

    ghost invariant = { λ b. AreWhole (blocks_of b.slots.entries) };
}

impl<A: Allocator> TierBlocks<A> {
    /// No block was written, none has room. Takes no memory.
    pub fn new(alloc: A) -> TierBlocks<A>
        ensures { result ≡ empty }
    {
        TierBlocks {
            slots: BTreeMap::new(alloc),
        }
    }

    /// The bytes of a block, if it was written. Takes no memory.
    #[tactic(auto, using(crate::proofs::TierLemmas::BlockTables::shown))]
    pub fn block(&self, place: u32) -> Option<&[u8]>
        ensures bytes { option_copied result ≡ block_at self.now place }
        ensures whole { IfSome result (λ bytes. length bytes.now ≡ block_size) }
    {
        Some(written(&self.slots, place)?.as_slice())
    }

    /// Fills the buffer with the block's bytes from `offset` on; they are zero where the block was
    /// never written. Condition: the buffer doesn't go past the block. Takes no memory.
    pub fn read(&self, place: u32, offset: usize, buffer: &mut [u8])
        requires { offset + length buffer.old ≤ block_size }
        ensures { EachIndex buffer.new (λ k. slice_index buffer.new k ≡ byte_at self.now place (offset + k)) }
    {
        match self.block(place) {
            Some(bytes) => buffer.copy_from_slice(&bytes[offset..offset + buffer.len()]),
            None => buffer.fill(0),
        }
    }

    /// Makes room for a block's bytes, if it has none. The blocks stay as they are. `Err` where memory
    /// is refused; all is as before then.
    pub fn reserve(&mut self, place: u32) -> Result<(), AllocError>
    where
        A: Clone,
        ensures ok { OnOk result (self.new ≡ with_room self.old place) }
        ensures err { OnErr result (self.new ≡ self.old) }
        ensures blocks { KeepsBlocks self.old self.new }
    {
        make_slot(&mut self.slots, place)
    }

    /// Gives up a block's room, if it was never written. The blocks stay as they are. Takes no memory.
    pub fn release(&mut self, place: u32)
        ensures table { self.new ≡ without_room self.old place }
        ensures blocks { KeepsBlocks self.old self.new }
    {
        remove_empty(&mut self.slots, place);
    }

    /// Writes 4,096 bytes into a block that has room, and answers those that it had, if it was written
    /// before. Takes no memory.
    #[tactic(auto, using(crate::proofs::TierLemmas::BlockTables::shown))]
    pub fn put(&mut self, place: u32, bytes: Vec<u8, A>) -> Option<RowList<u8, A>>
        requires room { HasRoomForBlock self.old place }
        requires whole { vec_len bytes ≡ block_size }
        ensures table { self.new ≡ insert self.old place (Some bytes.items) }
        ensures before { result ≡ block_at self.old place }
    {
        set_slot(&mut self.slots, place, RowList::from_vec(bytes))
    }

    /// Removes a block's bytes and its room. Takes no memory.
    pub fn forget(&mut self, place: u32)
        ensures { self.new ≡ remove self.old place }
    {
        remove_slot(&mut self.slots, place);
    }
}

/// The bytes in the place's slot, if any.
fn written<A: Allocator>(
    slots: &BTreeMap<u32, Option<RowList<u8, A>>, A>,
    place: u32,
) -> Option<&RowList<u8, A>>
    ensures { option_copied result ≡ held_at slots.now place }
{
    slots.get(&place)?.as_ref()
}

/// Makes a slot for the place, if it has none.
fn make_slot<A: Allocator + Clone>(
    slots: &mut BTreeMap<u32, Option<RowList<u8, A>>, A>,
    place: u32,
) -> Result<(), AllocError>
    ensures ok { OnOk result (SetsSlot slots.old slots.new place (Some (held_at slots.old place))) }
    ensures err { OnErr result (slots.new.entries ≡ slots.old.entries) }
{
    if slots.contains_key(&place) {
        return Ok(());
    }
    slots.insert(place, None)?;
    Ok(())
}

/// Removes the place's slot, if it has no bytes.
fn remove_empty<A: Allocator>(slots: &mut BTreeMap<u32, Option<RowList<u8, A>>, A>, place: u32)
    ensures empty { held_at slots.old place ≡ None → SetsSlot slots.old slots.new place None }
    ensures full { IfSome (held_at slots.old place) (λ _. slots.new.entries ≡ slots.old.entries) }
{
    if let Some(None) = slots.get(&place) {
        remove_slot(slots, place);
    }
}

/// Removes the place's slot.
fn remove_slot<A: Allocator>(slots: &mut BTreeMap<u32, Option<RowList<u8, A>>, A>, place: u32)
    ensures { SetsSlot slots.old slots.new place None }
{
    // What was in the slot isn't asked for any more.
    let _ = slots.remove(&place);
}

/// Sets the bytes in the place's slot, and answers those that were there. Condition: there is a slot.
fn set_slot<A: Allocator>(
    slots: &mut BTreeMap<u32, Option<RowList<u8, A>>, A>,
    place: u32,
    bytes: RowList<u8, A>,
) -> Option<RowList<u8, A>>
    requires { IsSome (get nat_cmp slots.old place) }
    ensures set { SetsSlot slots.old slots.new place (Some (Some bytes)) }
    ensures before { result ≡ held_at slots.old place }
{
    let slot = slots.get_mut(&place)?;
    mem::replace(slot, Some(bytes))
}
