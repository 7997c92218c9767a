//! Blocks of a file next to each other, at places next to each other on one tier.
ghost use Rattle.std.specs.Prelude.{◌≡◌, ◌+◌, ◌≤◌};
ghost use Rattle.kfs_model.specs.Device.Spelling.{greatest_block};
ghost use Rattle.kfs_image.specs.Encode.Runs.{is_next, last_block, run_from};

use crate::Place;

/// A run of blocks.
#[derive(Clone, Copy)]
pub(crate) struct Run {
    /// The number of the file.
    pub(crate) number: u32,
    /// The first block, from 0.
    pub(crate) block: u32,
    /// The tier.
    pub(crate) tier: u8,
    /// The first block's place on the tier.
    pub(crate) place: u32,
    /// How many blocks follow the first.
    pub(crate) more: u32,
}

impl Run {
    /// The run of one block.
    pub(crate) fn of(mapped: ((u32, u32), Place)) -> Run
        ensures { result ≡ run_from mapped }
    {
        let (block, place) = mapped;
        Run {
            number: block.0,
            block: block.1,
            tier: place.tier,
            place: place.place,
            more: 0,
        }
    }

    /// The last block, as file number and block.
    pub(crate) fn last(&self) -> (u32, u32)
        requires { self.now.block + self.now.more ≤ greatest_block }
        ensures { result ≡ last_block self.now }
    {
        (self.number, self.block + self.more)
    }

    /// Whether a block at its place goes on from the last.
    pub(crate) fn is_next(&self, mapped: ((u32, u32), Place)) -> bool
        ensures { result ≡ is_next self.now mapped }
    {
        let (block, place) = mapped;
        let count = u64::from(self.more) + 1;
        block.0 == self.number
            && u64::from(block.1) == u64::from(self.block) + count
            && place.tier == self.tier
            && u64::from(place.place) == u64::from(self.place) + count
    }
}
