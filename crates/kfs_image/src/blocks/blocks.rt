//! The blocks of files.
ghost use Rattle.std.specs.Prelude.{◌≡◌, ℕ, ◌+◌, ◌*◌, ◌≤◌, true, None, length, slice_index, IfSome, IfNone, IfOk, OnOk, OnErr, EachIndex};
ghost use Rattle.kfs_model.specs.Limits.{block_size};
ghost use Rattle.kfs_model.specs.Placement.{tier_size, IsLaid};
ghost use Rattle.kfs_model.specs.Table.{empty, get, pairs, numbers};
ghost use Rattle.kfs_model.specs.Device.Device.{AreBlocks};
ghost use Rattle.kfs_model.specs.Device.ShownTree.{file_byte};
ghost use Rattle.kfs_image.specs.Tier.Unused.{IsNextUnused, AreTakenFrom, unused_places};
ghost use Rattle.kfs_maps.specs.Chunks.Edits.{KeysAscend};
ghost use Rattle.kfs_maps.specs.Chunks.Starts.{is_from, IsNextEntry};
ghost use Rattle.kfs_maps.specs.Chunks.Tables.{table_after};
ghost use Rattle.kfs_image.specs.Blocks.Blocks.{CanChange, changed};
ghost use Rattle.kfs_image.specs.Blocks.Fill.{CanFill, filled, placement_after};

use crate::blocks::fill::{BlockEdits, BlockRow, BlockRun, Moves, copies, fill_edits, moved};
use crate::blocks::staged::ChangeTiers;
use crate::tier::{NewBlock, Place, Tiers};
use kfs_maps::{Chunks, KeyEdit, Near};
use kfs_types::TierSizes;
use std::alloc::{AllocError, Allocator};
use std::marker::Model;
use std::ops::Bound;

/// Where the blocks of files lie, and the three tiers. A place is marked free exactly where no block
/// lies. The blocks of a file are numbered from 0, and each has 4,096 bytes.
#[derive(Drop)]
pub struct FileBlocks<A: Allocator> {
    placement: Chunks<(u32, u32), Place, A>,
    tiers: Tiers<A>,
    /// Where the last block was mapped or unmapped. It only makes look-ups and changes faster.
    near: Near,
}

impl<A: Allocator> Model for FileBlocks<A> {
    ghost use Rattle.kfs_model.specs.Table.{pairs, numbers};
    ghost use Rattle.kfs_maps.specs.Chunks.Tables.{table};
    ghost use Rattle.kfs_image.specs.Blocks.Blocks.{BlocksShown, AreHeld};

    ghost Value = { BlocksShown };

    ghost view = { λ b. record { sizes = b.tiers.sizes; placement = table (pairs numbers numbers) b.placement; devices = b.tiers.devices } };

    ghost invariant = { λ b. AreHeld (table (pairs numbers numbers) b.placement) b.tiers };
}

impl<A: Allocator> FileBlocks<A> {
    /// Tiers of these sizes, with no block anywhere and none written. Takes one bit of memory for each
    /// place; `Err` where memory runs out.
    pub fn new(alloc: A, sizes: TierSizes) -> Result<FileBlocks<A>, AllocError>
    where
        A: Clone,
        ensures { IfOk result (λ blocks. blocks ≡ record { sizes = sizes; placement = empty; devices = empty }) }
    {
        let tiers = Tiers::new(alloc.clone()?, sizes)?;
        Ok(FileBlocks {
            placement: Chunks::new(alloc),
            tiers,
            near: Near::start(),
        })
    }

    /// How many places the tier has, 0 for a tier over 2. Takes no memory.
    pub fn size(&self, tier: u8) -> u32
        ensures size { result ≡ tier_size self.now.sizes tier }
        ensures laid { IsLaid self.now.sizes self.now.placement }
        ensures blocks { AreBlocks self.now.sizes self.now.devices }
    {
        self.tiers.size(tier)
    }

    /// How many places of the tier hold no block, 0 for a tier over 2. Takes no memory.
    pub fn free(&self, tier: u8) -> u32
        ensures { result ≡ length (unused_places self.now.sizes self.now.placement tier) }
    {
        self.tiers.free(tier)
    }

    /// The tier's least place from `from` on that holds no block, or none. Takes no memory.
    pub fn next_free(&self, tier: u8, from: u32) -> Option<u32>
        ensures found { IfSome result (λ place. IsNextUnused self.now.sizes self.now.placement tier from place) }
        ensures none { IfNone result (AreTakenFrom self.now.sizes self.now.placement tier from) }
    {
        self.tiers.next_free(tier, from)
    }

    /// Where block `block` of the file `number` lies, or none where it isn't mapped. Takes no memory.
    pub fn place_of(&self, number: u32, block: u32) -> Option<Place>
        ensures { result ≡ get self.now.placement (number, block) }
    {
        let mut near = self.near;
        self.place_near(&mut near, number, block)
    }

    /// The same, for blocks that are looked up one after another. A file's next block is then found without
    /// a search. `near` becomes the place behind this block.
    fn place_near(&self, near: &mut Near, number: u32, block: u32) -> Option<Place>
        ensures { result ≡ get self.now.placement (number, block) }
    {
        let key = (number, block);
        self.placement.get_near(near, &key).copied()
    }

    /// Where to begin look-ups of blocks one after another: at the last block that was mapped or unmapped.
    pub fn near(&self) -> Near {
        self.near
    }

    /// The first mapped block at the bound or behind it, as file number and block, and where it lies;
    /// or none. Takes no memory.
    pub fn next_block(&self, start: &Bound<(u32, u32)>) -> Option<((u32, u32), Place)>
        ensures found { IfSome result (λ p. IsNextEntry (pairs numbers numbers).compare start.now self.now.placement.entries p.0 p.1) }
        ensures none { IfNone result ((q : ℕ × ℕ) → is_from (pairs numbers numbers).compare start.now q ≡ true → get self.now.placement q ≡ None) }
    {
        let (block, place) = self.placement.next(start.as_ref())?;
        Some((*block, *place))
    }

    /// Fills the buffer with the block's bytes from `offset` on; they are zero where the block isn't
    /// mapped or was never written. The block is looked up behind `near`, which becomes the place behind
    /// it. Condition: the buffer doesn't go past the block. Takes no memory.
    pub fn read(&self, near: &mut Near, number: u32, block: u32, offset: usize, buffer: &mut [u8])
        requires { offset + length buffer.old ≤ block_size }
        ensures { EachIndex buffer.new (λ k. slice_index buffer.new k ≡ file_byte self.now.placement self.now.devices number (block * block_size + (offset + k))) }
    {
        match self.place_near(near, number, block) {
            Some(place) => self.tiers.read(place, offset, buffer),
            None => buffer.fill(0),
        }
    }
}

impl<A: Allocator> FileBlocks<A> {
    /// Exchanges the memory that is kept of blocks that were written over for what the list has. No
    /// contract sees it, and what it holds doesn't matter. Takes no memory.
    pub fn swap_spares(&mut self, spares: &mut Vec<Vec<u8, A>, A>)
        ensures { self.new ≡ self.old }
    {
        self.tiers.swap_spares(spares);
    }
}

impl<A: Allocator + Clone> FileBlocks<A> {
    /// Changes where blocks lie, and writes blocks, at any places of the tiers. A block that moves
    /// leaves its bytes at the old place. `Err` where memory runs out; all is as before then.
    pub fn change(
        &mut self,
        edits: &[KeyEdit<(u32, u32), Place>],
        written: Vec<NewBlock<A>, A>,
    ) -> Result<(), AllocError>
        requires { CanChange self.old edits.now written.items }
        ensures ok { OnOk result (self.new ≡ changed edits.now written.items self.old) }
        ensures err { OnErr result (self.new ≡ self.old) }
    {
        let mut near = self.near;
        let moves = Moves::of(written.allocator(), &self.placement, &mut near, edits)?;
        self.near = near;
        let mut written = written;
        let mut tiers = ChangeTiers {
            tiers: &mut self.tiers,
            moves: &moves,
            written: &mut written,
        };
        self.placement.change_near(near, edits, &mut tiers)
    }

    /// The edits that unmap the blocks in the runs; then map each row's block to its place and write a
    /// copy of its bytes there, row after row. A block that is unmapped or moves leaves its bytes at the
    /// old place.
    ///
    /// A run takes as many steps as it has mapped blocks. Nothing is changed. `Err` where memory runs
    /// out.
    pub fn copied_edits(
        &self,
        released: &[BlockRun],
        rows: &[BlockRow<A>],
    ) -> Result<BlockEdits<A>, AllocError>
        requires { CanFill self.now released.now rows.now }
        ensures can { IfOk result (λ e. CanChange self.now e.places.items e.written.items) }
        ensures fill { IfOk result (λ e. changed e.places.items e.written.items self.now ≡ filled released.now rows.now self.now) }
    {
        let places = self.place_edits(released, rows)?;
        let written = copies(places.allocator(), rows)?;
        Ok(BlockEdits { places, written })
    }

    /// The same, where the rows are given away: no byte of theirs is copied.
    pub fn moved_edits(
        &self,
        released: &[BlockRun],
        rows: Vec<BlockRow<A>, A>,
    ) -> Result<BlockEdits<A>, AllocError>
        requires { CanFill self.now released.now rows.items }
        ensures can { IfOk result (λ e. CanChange self.now e.places.items e.written.items) }
        ensures fill { IfOk result (λ e. changed e.places.items e.written.items self.now ≡ filled released.now rows.items self.now) }
    {
        let places = self.place_edits(released, rows.as_slice())?;
        let written = moved(places.allocator(), rows)?;
        Ok(BlockEdits { places, written })
    }

    /// The changes of places that a fill makes.
    fn place_edits(
        &self,
        released: &[BlockRun],
        rows: &[BlockRow<A>],
    ) -> Result<Vec<KeyEdit<(u32, u32), Place>, A>, AllocError>
        ensures ascend { IfOk result (λ places. KeysAscend (pairs numbers numbers).compare places.items) }
        ensures placed { IfOk result (λ places. table_after self.now.placement places.items ≡ placement_after released.now rows.now self.now.placement) }
    {
        fill_edits(&self.placement, released, rows)
    }
}
