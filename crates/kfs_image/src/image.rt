//! The image: nodes and names, which views share, and the blocks of files. The headers of nodes, now
//! and after rows.
ghost use Rattle.std.specs.Prelude.{◌≡◌, ◌↔◌, ℕ, ◌+◌, ◌*◌, ◌<◌, ◌≤◌, true, List, length, slice_index, option_map, Err, Some, None, IsTrue, IfSome, IfNone, IfOk, IfErr, OnOk, OnErr, EachIndex};
ghost use Rattle.std.specs.Range.Bound.{bound_map};
ghost use Rattle.kfs_model.specs.Table.{get, pairs, numbers};
ghost use Rattle.kfs_model.specs.Tree.{name_order, target};
ghost use Rattle.kfs_model.specs.Limits.{block_size};
ghost use Rattle.kfs_model.specs.Placement.{tier_size};
ghost use Rattle.kfs_model.specs.Sight.{is_directory};
ghost use Rattle.kfs_model.specs.Device.ShownTree.{IsLawful, file_byte};
ghost use Rattle.kfs_model.specs.Device.RawImage.{image_of};
ghost use Rattle.kfs_model.specs.Device.Finding.{IsWellFormed};
ghost use Rattle.kfs_image.specs.Codec.RawImages.{raw_of};
ghost use Rattle.kfs_maps.specs.Chunks.Starts.{is_from, IsNextEntry, IsNextRun};
ghost use Rattle.kfs_image.specs.Tier.Unused.{IsNextUnused, AreTakenFrom, unused_places};
ghost use Rattle.kfs_image_nodes.specs.Change.{reheaded};
ghost use Rattle.kfs_image_nodes.specs.Lent.{net_in, rows_in};
ghost use Rattle.kfs_image_nodes.specs.Look.{IsAfter, IsNext, IsNextNode};
ghost use Rattle.kfs_image.specs.Blocks.Blocks.{CanChange};
ghost use Rattle.kfs_image.specs.Edit.{CanEdit, edited_all};
ghost use Rattle.kfs_image.specs.Image.{blocks_of, changed_image, contents_of, fresh_image, place_at};
ghost use Rattle.kfs_image.specs.Net.{CanApply, applied};
ghost use Rattle.kfs_image.specs.Raw.Rows.{AreHeaders};
ghost use Rattle.kfs_image.specs.Read.{FileIsRead};
ghost use Rattle.kfs_types.specs.Views.{header_of};

use crate::blocks::{BlockEdits, ChangeBlocks, FileBlocks, Place};
use crate::codec::RawImage;
use crate::edit::{Edit, Parts};
use crate::net::Fill;
use crate::raw::{raw_blocks, raw_headers, raw_shape, tell_spelled};
use crate::read::{ReadFault, released_blocks};
use kfs_image_nodes::{
    Answer, Cell, InTurn, LentNet, NameRows, Net, NodeChanges, Shape, SortUplinks, look,
};
use kfs_maps::{Pages, key_edits};
use kfs_model::device::laws::well_formed_image_is_lawful;
use kfs_types::{BLOCK_SIZE, Header, Kind, Name, TierSizes};
use std::alloc::{AllocError, Allocator};
use std::marker::Model;
use std::ops::Bound;
use std::sync::Arc;

/// The image that the desk owns: nodes, names, and the blocks of files on three tiers.
///
/// It is always lawful. Its tree is sound and has these headers. Each block belongs to a file, begins
/// below the file's size, and has a place of its own. A place is free exactly where no block lies.
///
/// Views share the nodes and names, and keep showing what they showed when they were taken.
#[derive(Drop)]
pub struct Image<A: Allocator> {
    shape: Arc<Shape<A>, A>,
    blocks: FileBlocks<A>,
    alloc: A,
}

impl<A: Allocator> Model for Image<A> {
    ghost use Rattle.kfs_model.specs.Device.ShownTree.{DeviceImage, IsLawful};
    ghost use Rattle.kfs_image.specs.Image.{image_with};

    ghost Value = { DeviceImage };

    ghost view = { λ i. image_with i.shape.value i.blocks };

    ghost invariant = { λ i. IsLawful (image_with i.shape.value i.blocks) };
}

impl<A: Allocator + Clone> Image<A> {
    /// An image with the root directory alone, with mode 0o777, uid 0 and gid 0, over empty tiers of
    /// these sizes. Takes one bit of memory for each block of the tiers; `Err` where memory runs out.
    pub fn fresh(alloc: A, sizes: TierSizes) -> Result<Image<A>, AllocError>
        ensures { IfOk result (λ image. image ≡ fresh_image sizes) }
    {
        // Tells the prover that no tier is larger than it may be.
        let _blocks = [sizes.size(0), sizes.size(1), sizes.size(2)];
        let shape = Shape::with_root(alloc.clone()?)?;
        let shape = Arc::new(alloc.clone()?, shape)?;
        let blocks = FileBlocks::new(alloc.clone()?, sizes)?;
        Ok(Image {
            shape,
            blocks,
            alloc,
        })
    }

    /// The image that the rows of a raw image make: their nodes, names and places of blocks, with the
    /// extents' bytes. Condition: the ten rules hold of the rows.
    ///
    /// `Err` only where memory runs out; it gives back the raw image as it was. The bytes are copied
    /// once.
    pub fn from_raw(alloc: A, raw: RawImage<A>) -> Result<Image<A>, RawImage<A>>
        requires { IsWellFormed (raw_of raw) }
        ensures ok { IfOk result (λ image. image ≡ image_of (raw_of raw)) }
        ensures err { IfErr result (λ back. back ≡ raw) }
    {
        match raw_headers(&alloc, &raw) {
            Ok(headers) => Image::from_raw_with(alloc, &InTurn, raw, headers),
            // It can only be a lack of memory.
            Err(_refused) => Err(raw),
        }
    }

    /// `from_raw`, given the headers of the rows, which a check of them has made already, and who sorts uplinks.
    #[doc(hidden)]
    pub fn from_raw_with<S: SortUplinks>(
        alloc: A,
        sorter: &S,
        raw: RawImage<A>,
        headers: Pages<Header, A>,
    ) -> Result<Image<A>, RawImage<A>>
        requires can_sort { S.can_sort sorter.now }
        requires well_formed { IsWellFormed (raw_of raw) }
        requires headers { AreHeaders headers raw }
        ensures ok { IfOk result (λ image. image ≡ image_of (raw_of raw)) }
        ensures err { IfErr result (λ back. back ≡ raw) }
    {
        match Image::of_rows(alloc, sorter, &raw, headers) {
            Ok(image) => Ok(image),
            // It can only be a lack of memory.
            Err(_refused) => Err(raw),
        }
    }

    /// The image of the rows, which stay as they are.
    fn of_rows<S: SortUplinks>(
        alloc: A,
        sorter: &S,
        raw: &RawImage<A>,
        headers: Pages<Header, A>,
    ) -> Result<Image<A>, AllocError>
        requires can_sort { S.can_sort sorter.now }
        requires well_formed { IsWellFormed (raw_of raw.now) }
        requires headers { AreHeaders headers raw.now }
        ensures { IfOk result (λ image. image ≡ image_of (raw_of raw.now)) }
    {
        tell_spelled(raw);
        well_formed_image_is_lawful();
        let shape = raw_shape(&alloc, sorter, raw, headers)?;
        let shape = Arc::new(alloc.clone()?, shape)?;
        let blocks = raw_blocks(&alloc, raw)?;
        Ok(Image {
            shape,
            blocks,
            alloc,
        })
    }

    /// Makes the edits in order. Condition: places exist, written blocks have 4,096 bytes, and the
    /// image is lawful after the last edit.
    ///
    /// All memory is taken before the first change: after `Err` the image shows what it showed. Views
    /// that were taken before keep showing what they showed in any case.
    pub fn edit(&mut self, edits: &[Edit<A>]) -> Result<(), AllocError>
        requires { CanEdit edits.now self.old }
        ensures ok { OnOk result (self.new ≡ edited_all edits.now self.old) }
        ensures err { OnErr result (self.new ≡ self.old) }
    {
        let Parts {
            names,
            nodes,
            block_places,
            written,
        } = Parts::of(&self.alloc, edits)?;
        let alloc = self.alloc.clone()?;
        let nodes = NodeChanges::of(&alloc, nodes.as_slice())?;
        let places = key_edits(&alloc, &block_places)?;
        let edits = BlockEdits { places, written };
        self.change_all(&alloc, NameRows::Owned(names.as_slice()), &nodes, edits)
    }

    /// `net_apply`. Pages and chunks that a view shares are copied where they change, and the others
    /// stay shared.
    pub(crate) fn change(
        &mut self,
        alloc: &A,
        net: &Net<A>,
        fill: &Fill<A>,
    ) -> Result<(), AllocError>
        requires { CanApply net.now fill.now self.old }
        ensures ok { OnOk result (self.new ≡ applied net.now fill.now self.old) }
        ensures err { OnErr result (self.new ≡ self.old) }
    {
        let nodes = NodeChanges::of(alloc, net.nodes.as_slice())?;
        let released = released_blocks(alloc, &nodes, fill.zero.as_slice())?;
        let edits = self
            .blocks
            .copied_edits(released.as_slice(), fill.rows.as_slice())?;
        self.change_all(alloc, LentNet::Owned(net).names(), &nodes, edits)
    }

    /// The same, where the fill is given away: no byte of its blocks is copied. `nodes` are the net's.
    pub(crate) fn change_moving(
        &mut self,
        alloc: &A,
        net: LentNet<'_, '_, A>,
        nodes: &NodeChanges<'_, A>,
        fill: Fill<A>,
    ) -> Result<(), AllocError>
        requires nodes { nodes.now ≡ (net_in net).nodes.items }
        requires can { CanApply (net_in net) fill self.old }
        ensures ok { OnOk result (self.new ≡ applied (net_in net.entry) fill self.old) }
        ensures err { OnErr result (self.new ≡ self.old) }
    {
        let Fill { rows, zero } = fill;
        let released = released_blocks(alloc, nodes, zero.as_slice())?;
        let edits = self.blocks.moved_edits(released.as_slice(), rows)?;
        self.change_all(alloc, net.names(), nodes, edits)
    }

    /// Makes the changes of names, of nodes and of blocks: all of them, or none where memory runs out.
    fn change_all(
        &mut self,
        alloc: &A,
        names: NameRows<'_, '_, A>,
        nodes: &NodeChanges<'_, A>,
        edits: BlockEdits<A>,
    ) -> Result<(), AllocError>
        requires blocks { CanChange (blocks_of self.old) edits.places.items edits.written.items }
        requires lawful { IsLawful (changed_image (rows_in names) nodes.now edits self.old) }
        ensures ok { OnOk result (self.new ≡ changed_image (rows_in names.entry) nodes.now edits self.old) }
        ensures err { OnErr result (self.new ≡ self.old) }
    {
        let BlockEdits {
            places,
            mut written,
        } = edits;
        let mut then = ChangeBlocks {
            blocks: &mut self.blocks,
            edits: places.as_slice(),
            written: &mut written,
        };
        let shape = Arc::make_mut(&mut self.shape)?;
        shape.apply(alloc, names, nodes, &mut then)
    }
}

impl<A: Allocator> Image<A> {
    /// The nodes and names of now, to be shared with a view. Takes no memory.
    pub fn shape(&self) -> &Arc<Shape<A>, A>
        ensures shape { result.now.value ≡ contents_of self.now }
        ensures lawful { IsLawful self.now }
    {
        &self.shape
    }

    /// How many blocks the tier has, 0 for a tier over 2. Takes no memory.
    pub fn tier_size(&self, tier: u8) -> u32
        ensures { result ≡ tier_size self.now.sizes tier }
    {
        self.blocks.size(tier)
    }

    /// How many places of the tier hold no block of a file, 0 for a tier over 2. Takes no memory.
    pub fn free(&self, tier: u8) -> u32
        ensures { result ≡ length (unused_places self.now.sizes self.now.placement tier) }
    {
        self.blocks.free(tier)
    }

    /// The tier's least free place from `from` on, or none. Takes no memory.
    pub fn next_free(&self, tier: u8, from: u32) -> Option<u32>
        ensures found { IfSome result (λ place. IsNextUnused self.now.sizes self.now.placement tier from place) }
        ensures none { IfNone result (AreTakenFrom self.now.sizes self.now.placement tier from) }
    {
        self.blocks.next_free(tier, from)
    }

    /// Exchanges the memory that is kept of blocks that were written over for what the list has, so that
    /// new blocks can be made in it. No contract sees it, and what it holds doesn't matter. Takes no
    /// memory.
    pub fn swap_spares(&mut self, spares: &mut Vec<Vec<u8, A>, A>)
        ensures { self.new ≡ self.old }
    {
        self.blocks.swap_spares(spares);
    }

    /// Where block `block`, from 0, of the file `number` lies, as tier and place; none where it isn't
    /// mapped. Takes no memory.
    pub fn place_of(&self, number: u32, block: u32) -> Option<(u8, u32)>
        ensures { option_map place_at result ≡ get self.now.placement (number, block) }
    {
        let place = self.blocks.place_of(number, block)?;
        Some((place.tier, place.place))
    }

    /// The least number above `after` that is a node's, or none. Takes no memory.
    pub fn next_node(&self, after: u32) -> Option<u32>
        ensures found { IfSome result (IsNextNode self.now.heads after) }
        ensures none { IfNone result ((m : ℕ) → after < m → get self.now.heads m ≡ None) }
    {
        self.shape.next_node(after)
    }

    /// The least name of the directory above `after`, or of all its names where `after` is none, and
    /// the number that it leads to. None where there is no such name. Takes no memory.
    pub fn next_name(&self, dir: u32, after: Option<&Name>) -> Option<(&Name, u32)>
        ensures found { IfSome result (λ p. IsNext self.now.names dir after.entry p.0.now p.1) }
        ensures none { IfNone result ((m : List ℕ) (n : ℕ) → target self.now.names dir m ≡ Some n → IsAfter after.entry m → ⊥) }
    {
        self.shape.next_name(dir, after)
    }

    /// The next names at the bound or behind it, by directory and name, with the numbers that they lead
    /// to: those that stand side by side in memory. Empty only where there are none. Takes no memory.
    pub(crate) fn names_from(&self, start: Bound<&(u32, Name)>) -> &[((u32, Name), u32)]
        ensures { IsNextRun name_order.compare (bound_map (λ x. x.now) start.entry) self.now.names.entries result.now }
    {
        self.shape.names_from(start)
    }

    /// The first mapped block at the bound or behind it, as file number and block, and where it lies;
    /// or none. Takes no memory.
    #[doc(hidden)]
    pub fn next_block(&self, start: &Bound<(u32, u32)>) -> Option<((u32, u32), Place)>
        ensures found { IfSome result (λ p. IsNextEntry (pairs numbers numbers).compare start.now self.now.placement.entries p.0 p.1) }
        ensures none { IfNone result ((q : ℕ × ℕ) → is_from (pairs numbers numbers).compare start.now q ≡ true → get self.now.placement q ≡ None) }
    {
        self.blocks.next_block(start)
    }

    /// Fills the buffer with the bytes of a block of a file, from the block's first one on, also those
    /// past the file's end. They are zero where the block isn't mapped or was never written. Condition:
    /// the buffer is no longer than a block. Takes no memory.
    #[doc(hidden)]
    pub fn read_block(&self, number: u32, block: u32, buffer: &mut [u8])
        requires { length buffer.old ≤ block_size }
        ensures { EachIndex buffer.new (λ k. slice_index buffer.new k ≡ file_byte self.now.placement self.now.devices number (block * block_size + k)) }
    {
        self.blocks
            .read_bytes(number, u64::from(block) * BLOCK_SIZE, buffer);
    }

    /// `read_file`.
    pub(crate) fn read(
        &self,
        number: u32,
        start: u64,
        buffer: &mut [u8],
    ) -> Result<usize, ReadFault>
        ensures read { IfOk result (FileIsRead self.now number start buffer.old buffer.new) }
        ensures no_node { (result ≡ Err ReadFault.NoSuchNode) ↔ (get self.now.heads number ≡ None) }
        ensures directory { (result ≡ Err ReadFault.IsDirectory) ↔ IsTrue (is_directory (get self.now.heads number)) }
        ensures kept { OnErr result (buffer.new ≡ buffer.old) }
    {
        let header = header(self, number).ok_or(ReadFault::NoSuchNode)?;
        if header.kind == Kind::Directory {
            return Err(ReadFault::IsDirectory);
        }
        if header.size <= start {
            return Ok(0);
        }
        let left = usize::try_from(header.size - start).unwrap_or(usize::MAX);
        let count = left.min(buffer.len());
        self.blocks.read_bytes(number, start, &mut buffer[..count]);
        Ok(count)
    }
}

/// The header of the node with this number, or none. Takes no memory.
pub fn header<A: Allocator>(image: &Image<A>, number: u32) -> Option<Header>
    ensures { option_map header_of result ≡ get image.now.heads number }
{
    match look(image.shape(), &Cell::Header(number)) {
        Answer::Header(header) => header,
        // `look` answers a question for a header with a header.
        _ => unreachable!(),
    }
}

/// The header of the node with this number after the rows are made, or none. Takes no memory.
pub fn header_after<A: Allocator>(
    image: &Image<A>,
    rows: &NodeChanges<'_, A>,
    number: u32,
) -> Option<Header>
    ensures { option_map header_of result ≡ get (reheaded image.now.heads rows.now) number }
{
    rows.after(number, header(image, number))
}
