//! Single changes of an image.
ghost use Rattle.std.specs.Prelude.{◌≡◌, [], IfOk, OnOk, option_map};
ghost use Rattle.kfs_model.specs.Placement.{TierSizes};
ghost use Rattle.kfs_model.specs.Device.ShownTree.{DeviceImage};
ghost use Rattle.kfs_image.specs.Edit.{edited, WritesWholeBlocks};
ghost use Rattle.kfs_image.specs.Image.{place_at};
ghost use Rattle.kfs_image.specs.Parts.{plain, with_parts, PartsAreOf, BlocksAreWhole};

use crate::blocks::{NewBlock, Place};
use kfs_maps::Overlay;
use kfs_types::{Header, Name, NameRow, NodeRow};
use std::alloc::{AllocError, Allocator};

/// A change of one header, one name, one block's place or one place's bytes. `None` removes what is
/// there.
#[derive(Debug, Drop)]
pub enum Edit<A: Allocator> {
    /// Sets the header of the node with this number, 1 to 65,536.
    Header(u32, Option<Header>),
    /// Sets the number that a name leads to: the directory, the name, the number.
    Name(u32, Name, Option<u32>),
    /// Sets where a block of a file lies: the file's number, the block from 0, and the place as tier 0
    /// to 2 and block on the device.
    Map(u32, u32, Option<(u8, u32)>),
    /// Writes 4,096 bytes at a place: the tier, the block on its device, the bytes.
    Bytes(u8, u32, Vec<u8, A>),
}

/// What edits change: names, headers, places of blocks, bytes.
#[derive(Drop)]
pub(crate) struct Parts<A: Allocator> {
    pub(crate) names: Vec<NameRow, A>,
    pub(crate) nodes: Vec<NodeRow, A>,
    pub(crate) block_places: Overlay<(u32, u32), Place, A>,
    pub(crate) written: Vec<NewBlock<A>, A>,
}

impl<A: Allocator + Clone> Parts<A> {
    /// The changes that the edits make, in order.
    pub(crate) fn of(alloc: &A, edits: &[Edit<A>]) -> Result<Parts<A>, AllocError>
        ensures { IfOk result (PartsAreOf edits.now) }
    {
        let mut parts = Parts::empty(alloc)?;
        for edit in edits {
            parts.add(edit)?;
        }
        Ok(parts)
    }

    /// No change.
    fn empty(alloc: &A) -> Result<Parts<A>, AllocError>
        ensures { IfOk result (PartsAreOf []) }
    {
        Ok(Parts {
            names: Vec::new(alloc.clone()?),
            nodes: Vec::new(alloc.clone()?),
            block_places: Overlay::new(alloc.clone()?),
            written: Vec::new(alloc.clone()?),
        })
    }

    /// Adds the change of one more edit, made after the others.
    fn add(&mut self, edit: &Edit<A>) -> Result<(), AllocError>
        ensures made { OnOk result ((image : DeviceImage) → with_parts self.new image ≡ edited (plain edit.now) (with_parts self.old image)) }
        ensures whole { OnOk result ((sizes : TierSizes) → WritesWholeBlocks sizes edit.now → BlocksAreWhole sizes self.old.written.items → BlocksAreWhole sizes self.new.written.items) }
    {
        match edit {
            Edit::Header(number, now) => self.nodes.push(NodeRow {
                number: *number,
                now: *now,
            })?,
            Edit::Name(dir, name, number) => self.names.push(NameRow {
                dir: *dir,
                name: *name,
                number: number.unwrap_or(0),
            })?,
            Edit::Map(number, block, pair) => {
                let place = place_in(*pair);
                self.block_places.set((*number, *block), place)?
            }
            Edit::Bytes(tier, place, bytes) => self.written.push(NewBlock {
                place: Place {
                    tier: *tier,
                    place: *place,
                },
                bytes: copy_of(bytes)?,
            })?,
        }
        Ok(())
    }
}

/// A pair of tier and place, as a place.
fn place_in(pair: Option<(u8, u32)>) -> Option<Place>
    ensures { result ≡ option_map place_at pair }
{
    let (tier, place) = pair?;
    Some(Place { tier, place })
}

fn copy_of<A: Allocator + Clone>(bytes: &Vec<u8, A>) -> Result<Vec<u8, A>, AllocError>
    ensures { IfOk result (λ copy. copy.items ≡ bytes.now.items) }
{
    let mut copy = Vec::new(bytes.allocator().clone()?);
    copy.extend_from_slice(bytes.as_slice())?;
    Ok(copy)
}
