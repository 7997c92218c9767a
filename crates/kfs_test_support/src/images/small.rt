//! Small raw images, row by row.

use kfs_shape::{Extent, ExtentRow, Header, Kind, Name, NameRow, RawImage, RawNode, TierSizes};
use std::alloc::Allocator;

/// The number of the root directory.
pub const ROOT: u32 = 1;

/// A node, with mode 0o777 or 0o644 unless a mode is given.
#[derive(Clone, Copy)]
pub enum NodeLine {
    Directory(u32),
    /// Number and size; it has one link.
    File(u32, u64),
    /// Number, kind, mode and links; its size is 0.
    Empty(u32, Kind, u16, u16),
}

/// A name: directory, name, number.
pub type NameLine = (u32, &'static [u8], u32);

/// An extent: number, block, tier, place, count, and the number of its bytes.
#[derive(Clone, Copy)]
pub struct ExtentLine(pub u32, pub u32, pub u8, pub u32, pub u32, pub usize);

/// Rows of an image with three tiers of eight blocks.
#[derive(Clone, Copy)]
pub struct SmallImage {
    pub nodes: &'static [NodeLine],
    pub names: &'static [NameLine],
    pub extents: &'static [ExtentLine],
}

fn header(kind: Kind, mode: u16, links: u16, size: u64) -> Header {
    Header {
        kind,
        mode,
        uid: 1000,
        gid: 1000,
        links,
        size,
    }
}

fn node(line: NodeLine) -> RawNode {
    match line {
        NodeLine::Directory(number) => RawNode {
            number,
            header: header(Kind::Directory, 0o777, 1, 0),
        },
        NodeLine::File(number, size) => RawNode {
            number,
            header: header(Kind::File, 0o644, 1, size),
        },
        NodeLine::Empty(number, kind, mode, links) => RawNode {
            number,
            header: header(kind, mode, links, 0),
        },
    }
}

fn name((dir, name, number): NameLine) -> Option<NameRow> {
    let name = Name::new(name)?;
    Some(NameRow { dir, name, number })
}

fn extent<A: Allocator>(alloc: A, line: ExtentLine) -> Option<ExtentRow<A>> {
    let ExtentLine(number, block, tier, place, count, len) = line;
    let bytes = vec![in alloc; b'x'; len].ok()?;
    let extent = Extent {
        block,
        tier,
        place,
        count,
    };
    Some(ExtentRow {
        number,
        extent,
        bytes,
    })
}

/// Adds the names of a part that are in the root, or those that aren't.
fn push_names<A: Allocator>(
    names: &mut Vec<NameRow, A>,
    part: &SmallImage,
    in_root: bool,
) -> Option<()> {
    for line in part.names {
        if (line.0 == ROOT) == in_root {
            names.push(name(*line)?).ok()?;
        }
    }
    Some(())
}

/// The names of all parts, those in the root first.
fn names_of<A: Allocator + Copy>(alloc: A, parts: &[SmallImage]) -> Option<Vec<NameRow, A>> {
    let mut names = Vec::new(alloc);
    for in_root in [true, false] {
        for part in parts {
            push_names(&mut names, part, in_root)?;
        }
    }
    Some(names)
}

fn nodes_of<A: Allocator + Copy>(alloc: A, parts: &[SmallImage]) -> Option<Vec<RawNode, A>> {
    let mut nodes = Vec::new(alloc);
    for part in parts {
        for line in part.nodes {
            nodes.push(node(*line)).ok()?;
        }
    }
    Some(nodes)
}

fn extents_of<A: Allocator + Copy>(alloc: A, parts: &[SmallImage]) -> Option<Vec<ExtentRow<A>, A>> {
    let mut extents = Vec::new(alloc);
    for part in parts {
        for line in part.extents {
            extents.push(extent(alloc, *line)?).ok()?;
        }
    }
    Some(extents)
}

/// An image of version 2 with the rows of all parts.
pub fn image<A: Allocator + Copy>(alloc: A, parts: &[SmallImage]) -> Option<RawImage<A>> {
    Some(RawImage {
        version: 2,
        sizes: TierSizes::new(8, 8, 8)?,
        nodes: nodes_of(alloc, parts)?,
        names: names_of(alloc, parts)?,
        extents: extents_of(alloc, parts)?,
    })
}
