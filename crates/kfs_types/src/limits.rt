//! The limits of the file system, each named once. The sizes of the tiers.
ghost use Rattle.std.specs.Prelude.{◌≡◌, ◌≤◌, IsSome, IfSome, ◌↔◌};
ghost use Rattle.kfs_model.specs.Limits.{tier_limit};
ghost use Rattle.kfs_model.specs.Placement.{tier_size};

use std::marker::Model;

/// The number of the root directory.
pub const ROOT: u32 = 1;

/// The greatest number of a node; the least is 1.
pub const GREATEST_NUMBER: u32 = 65_536;

/// The latest version of the formats of logs and plans; the first is 1.
pub const LATEST_VERSION: u8 = 2;

/// The greatest mode of a node, and in a log of version 2: the nine permission bits, and the bit that
/// POSIX calls `S_ISVTX` (`<sys/stat.h>`).
pub const GREATEST_MODE: u16 = 0o1777;

/// The greatest mode in a log of version 1, and the mode of a new root: the nine permission bits.
pub const GREATEST_MODE_OF_VERSION_1: u16 = 0o777;

/// The most bytes of a name (POSIX `NAME_MAX`).
pub const NAME_LIMIT: usize = 255;

/// The most names of a file (POSIX `LINK_MAX`).
pub const LINK_LIMIT: u16 = 1_024;

/// The most bytes of a file. It is 128 bits wide, so that it compares with any sum of offset and
/// length.
pub const SIZE_LIMIT: u128 = 1 << 32;

/// The most steps from a directory up to the root: as many as there are numbers.
pub const CLIMB_LIMIT: u32 = 65_536;

/// The bytes of a block.
pub const BLOCK_SIZE: u64 = 4_096;

/// The same, as the length of a buffer.
pub const BLOCK_LEN: usize = BLOCK_SIZE as usize;

/// The most entries of a log.
pub const ENTRY_LIMIT: u16 = 4_096;

/// The most bytes of a payload.
pub const PAYLOAD_LIMIT: u32 = 65_536;

/// The most blocks of a tier.
pub const TIER_LIMIT: u32 = 65_536;

/// How many blocks of 4,096 bytes each of the three tiers has. Tier 0 stands for non-volatile memory,
/// tier 1 for solid-state disk, tier 2 for hard disk ("Strata", SOSP 2017).
#[derive(Clone, Copy, Debug, PartialEq, Eq)]
pub struct TierSizes {
    first: u32,
    second: u32,
    third: u32,
}

impl Model for TierSizes {
    ghost use Rattle.std.specs.Prelude.{◌≤◌};
    ghost use Rattle.kfs_model.specs.Limits.{tier_limit};
    ghost use Rattle.kfs_model.specs.Placement.{TierSizes as Sizes};

    ghost Value = { Sizes };

    ghost view = { λ s. record { first = s.first; second = s.second; third = s.third } };

    ghost invariant = { λ s. (s.first ≤ tier_limit) × (s.second ≤ tier_limit) × (s.third ≤ tier_limit) };

    ghost inverse = { λ v. record { first = v.first; second = v.second; third = v.third } };
}

impl TierSizes {
    /// The sizes of tiers 0, 1 and 2 in blocks, each 0 to 65,536; none where one is larger. Takes no
    /// memory.
    pub fn new(first: u32, second: u32, third: u32) -> Option<TierSizes>
        ensures in_range { IsSome result ↔ ((first ≤ tier_limit) × (second ≤ tier_limit) × (third ≤ tier_limit)) }
        ensures value { IfSome result (λ sizes. sizes ≡ record { first = first; second = second; third = third }) }
    {
        if first > TIER_LIMIT || second > TIER_LIMIT || third > TIER_LIMIT {
            return None;
        }
        Some(TierSizes {
            first,
            second,
            third,
        })
    }
    /// How many blocks the tier has, 0 for a tier over 2. Takes no memory.
    pub fn size(&self, tier: u8) -> u32
        ensures size { result ≡ tier_size self.now tier }
        ensures in_range { result ≤ tier_limit }
    {
        match tier {
            0 => self.first,
            1 => self.second,
            2 => self.third,
            _ => 0,
        }
    }
}
