//! A tier: its places and its blocks.
ghost use Rattle.std.specs.Prelude.{◌≡◌, ◌<◌, true, false, IsTrue, IfOk, OnOk, OnErr, length, replicate, slice_set, vec_len, Some};
ghost use Rattle.kfs_model.specs.Limits.{block_size};
ghost use Rattle.kfs_model.specs.Table.{empty, insert, remove};
ghost use Rattle.kfs_image.specs.Tier.Places.{is_free_in};
ghost use Rattle.kfs_image.specs.Tier.Blocks.{block_at, HasRoomForBlock, KeepsBlocks, with_room, without_room};
ghost use Rattle.kfs_image.specs.Tier.Tier.{AreInTier};

use crate::tier::blocks::TierBlocks;
use crate::tier::places::Places;
use kfs_types::RowList;
use std::alloc::{AllocError, Allocator};
use std::marker::Model;

/// A tier of blocks of 4,096 bytes. Whether a place is free has nothing to do with whether its block
/// was written.
pub struct Tier<A: Allocator> {
    places: Places<A>,
    blocks: TierBlocks<A>,
}

impl<A: Allocator> Model for Tier<A> {
    ghost use Rattle.kfs_image.specs.Tier.Tier.{TierShown, AreInTier};

    ghost Value = { TierShown };

    ghost view = { λ t. record { places = t.places; blocks = t.blocks } };

    ghost invariant = { λ t. AreInTier (record { places = t.places; blocks = t.blocks }) };
}

// Written out, so that the drop of both is proved here once and not again in each crate that drops a
// tier.
impl<A: Allocator> Drop for Tier<A> {
    fn drop(self) {
        let Tier { places, blocks } = self;
        drop(places);
        drop(blocks);
    }
}

impl<A: Allocator> Tier<A> {
    /// A tier of `size` places, all free, with no block written. `Err` where memory runs out.
    pub fn new(alloc: A, size: u32) -> Result<Tier<A>, AllocError>
    where
        A: Clone,
        ensures { IfOk result (λ tier. tier ≡ record { places = replicate size true; blocks = empty }) }
    {
        let places = Places::new(alloc.clone()?, size)?;
        Ok(Tier {
            places,
            blocks: TierBlocks::new(alloc),
        })
    }

    /// The places, for asking which are free. Takes no memory.
    pub fn places(&self) -> &Places<A>
        ensures { result.now ≡ self.now.places }
    {
        &self.places
    }

    /// The blocks, for reading. Takes no memory.
    pub fn blocks(&self) -> &TierBlocks<A>
        ensures blocks { result.now ≡ self.now.blocks }
        ensures in_tier { AreInTier self.now }
    {
        &self.blocks
    }

    /// Marks a free place as used. Takes no memory.
    pub fn take(&mut self, place: u32)
        requires { IsTrue (is_free_in self.old.places place) }
        ensures { self.new ≡ record self.old { places = slice_set self.old.places place false } }
    {
        self.places.take(place);
    }

    /// Marks a used place as free. Its block keeps its bytes. Takes no memory.
    pub fn give_back(&mut self, place: u32)
        requires in_tier { place < length self.old.places }
        requires used { is_free_in self.old.places place ≡ false }
        ensures { self.new ≡ record self.old { places = slice_set self.old.places place true } }
    {
        self.places.give_back(place);
    }

    /// Makes room for a block's bytes, if it has none. The blocks stay as they are. `Err` where memory
    /// is refused; all is as before then.
    pub fn reserve(&mut self, place: u32) -> Result<(), AllocError>
    where
        A: Clone,
        requires { place < length self.old.places }
        ensures ok { OnOk result (self.new ≡ record self.old { blocks = with_room self.old.blocks place }) }
        ensures err { OnErr result (self.new ≡ self.old) }
        ensures blocks { KeepsBlocks self.old.blocks self.new.blocks }
    {
        self.blocks.reserve(place)
    }

    /// Gives up a block's room, if it was never written. The blocks stay as they are. Takes no memory.
    pub fn release(&mut self, place: u32)
        ensures table { self.new ≡ record self.old { blocks = without_room self.old.blocks place } }
        ensures blocks { KeepsBlocks self.old.blocks self.new.blocks }
    {
        self.blocks.release(place);
    }

    /// Writes 4,096 bytes into a block that has room, and answers those that it had, if it was written
    /// before. Takes no memory.
    pub fn write(&mut self, place: u32, bytes: Vec<u8, A>) -> Option<RowList<u8, A>>
        requires room { HasRoomForBlock self.old.blocks place }
        requires whole { vec_len bytes ≡ block_size }
        ensures tier { self.new ≡ record self.old { blocks = insert self.old.blocks place (Some bytes.items) } }
        ensures before { result ≡ block_at self.old.blocks place }
    {
        self.blocks.put(place, bytes)
    }

    /// Removes a block's bytes and its room. Takes no memory.
    pub fn forget(&mut self, place: u32)
        ensures { self.new ≡ record self.old { blocks = remove self.old.blocks place } }
    {
        self.blocks.forget(place);
    }
}
