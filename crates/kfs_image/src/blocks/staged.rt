//! A change of the tiers that is made together with the change of the blocks' places.
ghost use Rattle.std.proofs.Common.{rules};

use crate::blocks::fill::Moves;
use crate::tier::{NewBlock, Tiers};
use kfs_types::Change;
use std::alloc::{AllocError, Allocator};
use std::mem;

/// A change of the tiers: places that become free, places that become used, and blocks to be written. The
/// blocks are taken out of the list.
#[derive(Drop)]
pub(crate) struct ChangeTiers<'a, A: Allocator> {
    /// The tiers that are changed.
    pub(crate) tiers: &'a mut Tiers<A>,
    /// The places.
    pub(crate) moves: &'a Moves<A>,
    /// The blocks to be written.
    pub(crate) written: &'a mut Vec<NewBlock<A>, A>,
}

impl<'a, A: Allocator + Clone> Change for ChangeTiers<'a, A> {
    ghost use Rattle.kfs_types.specs.Nested.{Becomes};
    ghost use Rattle.kfs_image.specs.Tier.Tiers.{changed};
    ghost use Rattle.kfs_image.specs.Blocks.Staged.{CanTurn};

    ghost can_make = { λ before. CanTurn before.tiers.now before.moves.now before.written.now.items };

    ghost made = { λ before after. Becomes before.tiers after.tiers (changed before.moves.now.given.items before.moves.now.taken.items before.written.now.items before.tiers.now) };

    ghost kept = { λ before after. Becomes before.tiers after.tiers before.tiers.now };

    ghost not_tried = { λ before. Prim.search rules };

    fn make(&mut self) -> Result<(), AllocError> {
        let none = Vec::new(self.written.allocator().clone()?);
        let written = mem::replace(self.written, none);
        let Moves { given, taken } = self.moves;
        self.tiers
            .change(given.as_slice(), taken.as_slice(), written)
    }
}
