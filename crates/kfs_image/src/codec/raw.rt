//! An image as its format lists it: rows that nobody has checked yet.

use kfs_types::{Header, NameRow, TierSizes};
use std::alloc::Allocator;

/// A node's row.
#[derive(Clone, Copy, Debug, PartialEq, Eq)]
pub struct RawNode {
    /// The node's number, any of 32 bits.
    pub number: u32,
    /// Its kind, mode, uid, gid, links and size, any that fit their types.
    pub header: Header,
}

/// Blocks of a file next to each other, at places next to each other.
#[derive(Clone, Copy, Debug, PartialEq, Eq)]
pub struct Extent {
    /// The first block of the file, from 0.
    pub block: u32,
    /// The tier, 0 to 2 where it exists.
    pub tier: u8,
    /// The place of the first block on the tier's device, from 0.
    pub place: u32,
    /// How many blocks.
    pub count: u32,
}

/// The row of an extent.
#[derive(Debug, Drop)]
pub struct ExtentRow<A: Allocator> {
    /// The number of the file.
    pub number: u32,
    /// Which blocks, and where they lie.
    pub extent: Extent,
    /// The bytes of the blocks, 4,096 for each, in order.
    pub bytes: Vec<u8, A>,
}

/// An image as rows, in any order and with any numbers. A well formed image fulfills the ten rules of
/// crates/kfs_model/specs/Device/Rules.antt.
#[derive(Debug, Drop)]
pub struct RawImage<A: Allocator> {
    /// The version of its format, 1 or 2. Modes are at most 0o777 in version 1, and else at most 0o1777.
    pub version: u8,
    /// The sizes of the tiers, in blocks.
    pub sizes: TierSizes,
    /// The nodes.
    pub nodes: Vec<RawNode, A>,
    /// The names; number 0 has no meaning of its own here.
    pub names: Vec<NameRow, A>,
    /// The extents.
    pub extents: Vec<ExtentRow<A>, A>,
}
