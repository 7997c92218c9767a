//! Images with as many nodes as there may be: directories inside each other.

use kfs_shape::{Header, Kind, Name, NameRow, RawImage, RawNode, TierSizes};
use std::alloc::Allocator;

/// The greatest number of a node.
pub const GREATEST: u32 = 65_536;

const DIRECTORY: Header = Header {
    kind: Kind::Directory,
    mode: 0o777,
    uid: 0,
    gid: 0,
    links: 1,
    size: 0,
};

/// The rows of all nodes that there may be, as directories.
pub fn directories<A: Allocator>(alloc: A) -> Option<Vec<RawNode, A>> {
    let mut nodes = Vec::new(alloc);
    for number in 1..=GREATEST {
        let row = RawNode {
            number,
            header: DIRECTORY,
        };
        nodes.push(row).ok()?;
    }
    Some(nodes)
}

/// The names with which each directory from `first` on leads to the next one, and the last one to
/// `last`.
pub fn names<A: Allocator>(alloc: A, first: u32, last: Option<u32>) -> Option<Vec<NameRow, A>> {
    let mut names = Vec::new(alloc);
    for dir in first..GREATEST {
        let name = Name::new(b"a")?;
        let row = NameRow {
            dir,
            name,
            number: dir.checked_add(1)?,
        };
        names.push(row).ok()?;
    }
    if let Some(number) = last {
        let name = Name::new(b"a")?;
        let row = NameRow {
            dir: GREATEST,
            name,
            number,
        };
        names.push(row).ok()?;
    }
    Some(names)
}

/// The image of all directories, in which each from `first` on leads to the next one, and the last one
/// to `last`.
pub fn chain<A: Allocator + Copy>(alloc: A, first: u32, last: Option<u32>) -> Option<RawImage<A>> {
    Some(RawImage {
        version: 2,
        sizes: TierSizes::new(1, 1, 1)?,
        nodes: directories(alloc)?,
        names: names(alloc, first, last)?,
        extents: Vec::new(alloc),
    })
}
