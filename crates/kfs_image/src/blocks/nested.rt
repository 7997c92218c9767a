//! A change of blocks that is made together with another change or not at all.
ghost use Rattle.std.proofs.Common.{rules};

use crate::blocks::blocks::FileBlocks;
use crate::tier::{NewBlock, Place};
use kfs_maps::KeyEdit;
use kfs_types::Change;
use std::alloc::{AllocError, Allocator};
use std::mem;

/// A change of blocks: new places of blocks, and blocks to be written. The latter are taken out of the
/// list.
#[derive(Drop)]
pub struct ChangeBlocks<'a, A: Allocator> {
    /// The blocks that are changed.
    pub blocks: &'a mut FileBlocks<A>,
    /// The new places of blocks, ascending.
    pub edits: &'a [KeyEdit<(u32, u32), Place>],
    /// The blocks to be written.
    pub written: &'a mut Vec<NewBlock<A>, A>,
}

impl<'a, A: Allocator + Clone> Change for ChangeBlocks<'a, A> {
    ghost use Rattle.kfs_types.specs.Nested.{Becomes};
    ghost use Rattle.kfs_image.specs.Blocks.Blocks.{CanChange, changed};

    ghost can_make = { λ before. CanChange before.blocks.now before.edits.now before.written.now.items };

    ghost made = { λ before after. Becomes before.blocks after.blocks (changed before.edits.now before.written.now.items before.blocks.now) };

    ghost kept = { λ before after. Becomes before.blocks after.blocks before.blocks.now };

    ghost not_tried = { λ before. Prim.search rules };

    fn make(&mut self) -> Result<(), AllocError> {
        let none = Vec::new(self.written.allocator().clone()?);
        let written = mem::replace(self.written, none);
        self.blocks.change(self.edits, written)
    }
}
