//! The three tiers of an image. A change of several places and blocks of the tiers.
ghost use Rattle.std.specs.Prelude.{◌≡◌, ◌+◌, ◌≤◌, All, length, vec_len, slice_index, IfSome, IfNone, IfOk, OnOk, OnErr, EachIndex, true, false, not};
ghost use Rattle.kfs_model.specs.Limits.{block_size};
ghost use Rattle.kfs_model.specs.Placement.{tier_size, Place as ModelPlace};
ghost use Rattle.kfs_model.specs.Device.Device.{byte_on};
ghost use Rattle.kfs_image.specs.Tier.Places.{free_count, IsNextFree, AreUsedFrom};
ghost use Rattle.kfs_image.specs.Tier.Tiers.{new_tiers, places_in, is_free_at, TiersAreSized, IsInTier, CanMove, changed, with_place, with_places, with_blocks};
ghost use Rattle.kfs_model.specs.Table.{insert};
ghost use Rattle.kfs_image.specs.Tier.TierViews.{free_of, devices_of, HasRoomAt, CanTurnPlaces};

use crate::tier::places::Place;
use crate::tier::tier::Tier;
use kfs_types::{RowList, TierSizes};
use std::alloc::{AllocError, Allocator};
use std::marker::Model;
use std::mem;

/// Three tiers: which of their places are free, and the bytes of their blocks. A block that was never
/// written takes no memory.
pub struct Tiers<A: Allocator> {
    sizes: TierSizes,
    // Three of them. A vector, since with an array each caller would have to show that the whole fits
    // in memory.
    tiers: Vec<Tier<A>, A>,
    // The memory of blocks that were written over, for blocks to come. Contracts don't see it.
    spares: Vec<Vec<u8, A>, A>,
}

impl<A: Allocator> Model for Tiers<A> {
    ghost use Rattle.kfs_image.specs.Tier.Tiers.{TiersShown, TiersAreSized};
    ghost use Rattle.kfs_image.specs.Tier.TierViews.{free_of, devices_of};

    ghost Value = { TiersShown };

    ghost view = { λ t. record { sizes = t.sizes; free = free_of t.tiers.items; devices = devices_of t.tiers.items } };

    ghost invariant = { λ t. TiersAreSized t.sizes (free_of t.tiers.items) };
}

// Written out, so that the drop of all is proved here once and not again in each crate that drops
// them.
impl<A: Allocator> Drop for Tiers<A> {
    fn drop(self) {
        let Tiers {
            sizes: _sizes,
            tiers,
            spares,
        } = self;
        drop(tiers);
        drop(spares);
    }
}

impl<A: Allocator> Tiers<A> {
    /// Tiers of these sizes, all places free, no block written. Takes one bit of memory for each place;
    /// `Err` where memory runs out.
    pub fn new(alloc: A, sizes: TierSizes) -> Result<Tiers<A>, AllocError>
    where
        A: Clone,
        ensures { IfOk result (λ tiers. tiers ≡ new_tiers sizes) }
    {
        let first = Tier::new(alloc.clone()?, sizes.size(0))?;
        let second = Tier::new(alloc.clone()?, sizes.size(1))?;
        let third = Tier::new(alloc.clone()?, sizes.size(2))?;
        let spares = Vec::new(alloc.clone()?);
        let mut tiers = Vec::new(alloc);
        tiers.push(first)?;
        tiers.push(second)?;
        tiers.push(third)?;
        Ok(Tiers {
            sizes,
            tiers,
            spares,
        })
    }

    /// How many places the tier has, 0 for a tier over 2. Takes no memory.
    pub fn size(&self, tier: u8) -> u32
        ensures size { result ≡ tier_size self.now.sizes tier }
        ensures sized { TiersAreSized self.now.sizes self.now.free }
    {
        self.sizes.size(tier)
    }

    /// How many places of the tier are free, 0 for a tier over 2. Takes no memory.
    pub fn free(&self, tier: u8) -> u32
        ensures { result ≡ free_count (places_in self.now.free tier) }
    {
        match self.tiers.get(tier as usize) {
            Some(tier) => tier.places().free(),
            None => 0,
        }
    }

    /// The tier's least free place from `from` on, or none. Takes no memory.
    pub fn next_free(&self, tier: u8, from: u32) -> Option<u32>
        ensures found { IfSome result (λ place. IsNextFree (places_in self.now.free tier) from place) }
        ensures none { IfNone result (AreUsedFrom (places_in self.now.free tier) from) }
    {
        self.tiers.get(tier as usize)?.places().next_free(from)
    }

    /// Whether the place exists and is free. Takes no memory.
    pub fn is_free(&self, place: Place) -> bool
        ensures { result ≡ is_free_at self.now.free place }
    {
        match self.tiers.get(place.tier as usize) {
            Some(tier) => tier.places().is_free(place.place),
            None => false,
        }
    }

    /// Fills the buffer with the block's bytes from `offset` on; they are zero where the block was
    /// never written. Condition: the buffer doesn't go past the block. Takes no memory.
    pub fn read(&self, place: Place, offset: usize, buffer: &mut [u8])
        requires { offset + length buffer.old ≤ block_size }
        ensures { EachIndex buffer.new (λ k. slice_index buffer.new k ≡ byte_on self.now.devices place (offset + k)) }
    {
        match self.tiers.get(place.tier as usize) {
            Some(tier) => tier.blocks().read(place.place, offset, buffer),
            None => buffer.fill(0),
        }
    }

    /// Exchanges the memory that is kept of blocks that were written over for what the list has. No
    /// contract sees it, and what it holds doesn't matter. Takes no memory.
    pub fn swap_spares(&mut self, spares: &mut Vec<Vec<u8, A>, A>)
        ensures { self.new ≡ self.old }
    {
        mem::swap(&mut self.spares, spares);
    }

    /// Makes the places in `given` free and those in `taken` used, and writes blocks, at any places of
    /// the tiers. A block keeps its bytes when its place is marked. `Err` where memory runs out; all
    /// is as before then.
    pub fn change(
        &mut self,
        given: &[Place],
        taken: &[Place],
        written: Vec<NewBlock<A>, A>,
    ) -> Result<(), AllocError>
    where
        A: Clone,
        requires places { CanMove self.old.free given.now taken.now }
        requires in_tier { All (λ b. IsInTier self.old.free b.place) written.items }
        requires whole { All (λ b. vec_len b.bytes ≡ block_size) written.items }
        ensures ok { OnOk result (self.new ≡ changed given.now taken.now written.items self.old) }
        ensures err { OnErr result (self.new ≡ self.old) }
        ensures sized { TiersAreSized self.new.sizes self.new.free }
    {
        change_all(
            self.tiers.as_mut_slice(),
            given,
            taken,
            written,
            &mut self.spares,
        )
    }
}

/// Of how many blocks that were written over the memory is kept, at most: 16 MiB. A log has as many entries at most.
const SPARES: usize = 4_096;

/// A block to be written: its place, and its 4,096 bytes.
#[derive(Debug, Drop)]
pub struct NewBlock<A: Allocator> {
    /// Where it is written.
    pub place: Place,
    /// Its bytes.
    pub bytes: Vec<u8, A>,
}

/// Makes a used place free, or a free one used.
fn turn<A: Allocator>(tiers: &mut [Tier<A>], place: Place, free: bool)
    requires in_tier { IsInTier (free_of tiers.old) place }
    requires other { is_free_at (free_of tiers.old) place ≡ not free }
    ensures free { free_of tiers.new ≡ with_place free place (free_of tiers.old) }
    ensures devices { devices_of tiers.new ≡ devices_of tiers.old }
{
    let tier = &mut tiers[place.tier as usize];
    if free {
        tier.give_back(place.place);
    } else {
        tier.take(place.place);
    }
}

/// The same for several places. Takes no memory.
pub(crate) fn turn_all<A: Allocator>(tiers: &mut [Tier<A>], places: &[Place], free: bool)
    requires { CanTurnPlaces free places.now (free_of tiers.old) }
    ensures free { free_of tiers.new ≡ with_places free places.now (free_of tiers.old) }
    ensures devices { devices_of tiers.new ≡ devices_of tiers.old }
{
    for place in places {
        turn(tiers, *place, free);
    }
}

/// Makes room for a block.
fn reserve<A: Allocator + Clone>(tiers: &mut [Tier<A>], place: Place) -> Result<(), AllocError>
    requires { IsInTier (free_of tiers.old) place }
    ensures free { free_of tiers.new ≡ free_of tiers.old }
    ensures devices { devices_of tiers.new ≡ devices_of tiers.old }
    ensures room { OnOk result (HasRoomAt tiers.new place) }
    ensures others { (other : ModelPlace) → HasRoomAt tiers.old other → HasRoomAt tiers.new other }
{
    tiers[place.tier as usize].reserve(place.place)
}

/// Makes room for each block.
fn reserve_all<A: Allocator + Clone>(
    tiers: &mut [Tier<A>],
    blocks: &[NewBlock<A>],
) -> Result<(), AllocError>
    requires { All (λ b. IsInTier (free_of tiers.old) b.place) blocks.now }
    ensures free { free_of tiers.new ≡ free_of tiers.old }
    ensures devices { devices_of tiers.new ≡ devices_of tiers.old }
    ensures room { OnOk result (All (λ b. HasRoomAt tiers.new b.place) blocks.now) }
{
    for block in blocks {
        reserve(tiers, block.place)?;
    }
    Ok(())
}

/// Gives up a block's room, if it was never written.
fn release<A: Allocator>(tiers: &mut [Tier<A>], place: Place)
    requires { IsInTier (free_of tiers.old) place }
    ensures free { free_of tiers.new ≡ free_of tiers.old }
    ensures devices { devices_of tiers.new ≡ devices_of tiers.old }
{
    tiers[place.tier as usize].release(place.place);
}

/// Gives up the room of each block that was never written.
fn release_all<A: Allocator>(tiers: &mut [Tier<A>], blocks: &[NewBlock<A>])
    requires { All (λ b. IsInTier (free_of tiers.old) b.place) blocks.now }
    ensures free { free_of tiers.new ≡ free_of tiers.old }
    ensures devices { devices_of tiers.new ≡ devices_of tiers.old }
{
    for block in blocks {
        release(tiers, block.place);
    }
}

/// Writes a block that has room, and answers the bytes that it had, if it was written before.
fn write<A: Allocator>(tiers: &mut [Tier<A>], block: NewBlock<A>) -> Option<RowList<u8, A>>
    requires in_tier { IsInTier (free_of tiers.old) block.place }
    requires room { HasRoomAt tiers.old block.place }
    requires whole { vec_len block.bytes ≡ block_size }
    ensures free { free_of tiers.new ≡ free_of tiers.old }
    ensures devices { devices_of tiers.new ≡ insert (devices_of tiers.old) (block.place.tier, block.place.place) block.bytes.items }
    ensures others { (other : ModelPlace) → HasRoomAt tiers.old other → HasRoomAt tiers.new other }
{
    let NewBlock { place, bytes } = block;
    tiers[place.tier as usize].write(place.place, bytes)
}

/// Keeps the memory of a block that was written over, where the list has room for it.
fn keep<A: Allocator>(spares: &mut Vec<Vec<u8, A>, A>, before: Option<RowList<u8, A>>) {
    if let Some(bytes) = before
        && spares.len() < spares.capacity().min(SPARES)
    {
        // It can't fail, since the list has room. If it did, the memory would be given back.
        let _ = spares.push(bytes.into_vec());
    }
}

/// Writes blocks that have room, and keeps the memory of those that they write over.
fn write_all<A: Allocator>(
    tiers: &mut [Tier<A>],
    blocks: Vec<NewBlock<A>, A>,
    spares: &mut Vec<Vec<u8, A>, A>,
)
    requires in_tier { All (λ b. IsInTier (free_of tiers.old) b.place) blocks.items }
    requires room { All (λ b. HasRoomAt tiers.old b.place) blocks.items }
    requires whole { All (λ b. vec_len b.bytes ≡ block_size) blocks.items }
    ensures free { free_of tiers.new ≡ free_of tiers.old }
    ensures devices { devices_of tiers.new ≡ with_blocks blocks.items (devices_of tiers.old) }
{
    for block in blocks {
        keep(spares, write(tiers, block));
    }
}

/// Writes the blocks, makes the places in `given` free, and those in `taken` used. All room is made
/// before the first change. The memory of blocks that are written over goes to `spares`.
pub(crate) fn change_all<A: Allocator + Clone>(
    tiers: &mut [Tier<A>],
    given: &[Place],
    taken: &[Place],
    written: Vec<NewBlock<A>, A>,
    spares: &mut Vec<Vec<u8, A>, A>,
) -> Result<(), AllocError>
    requires given { CanTurnPlaces true given.now (free_of tiers.old) }
    requires taken { CanTurnPlaces false taken.now (with_places true given.now (free_of tiers.old)) }
    requires in_tier { All (λ b. IsInTier (free_of tiers.old) b.place) written.items }
    requires whole { All (λ b. vec_len b.bytes ≡ block_size) written.items }
    ensures ok_free { OnOk result (free_of tiers.new ≡ with_places false taken.now (with_places true given.now (free_of tiers.old))) }
    ensures ok_devices { OnOk result (devices_of tiers.new ≡ with_blocks written.items (devices_of tiers.old)) }
    ensures err_free { OnErr result (free_of tiers.new ≡ free_of tiers.old) }
    ensures err_devices { OnErr result (devices_of tiers.new ≡ devices_of tiers.old) }
{
    spares.reserve(written.len().min(SPARES))?;
    if let Err(error) = reserve_all(tiers, written.as_slice()) {
        release_all(tiers, written.as_slice());
        return Err(error);
    }
    write_all(tiers, written, spares);
    turn_all(tiers, given, true);
    turn_all(tiers, taken, false);
    Ok(())
}
