//! What an image shows, and whether two raw images are the same.

use kfs_image::{ExtentRow, Image, RawImage, read_file};
use std::alloc::Allocator;

/// Of the image with the rows of `RIGHT` of `kfs_test_support`: the places of file 6's blocks, bytes of it
/// from one block to the next, free places of tier 2, the nodes behind the root, and the first name of
/// directory 5 with its number.
pub type Shown = (
    [Option<(u8, u32)>; 3],
    [u8; 20],
    u32,
    [Option<u32>; 4],
    Option<u32>,
);

/// What it is to show: blocks 0 and 1 of file 6 at places 3 and 4 of tier 2, each byte `x`.
pub const RIGHT_SHOWN: Shown = (
    [Some((2, 3)), Some((2, 4)), None],
    [b'x'; 20],
    6,
    [Some(5), Some(6), Some(7), None],
    Some(6),
);

fn shown_by<A: Allocator>(image: &Image<A>) -> Option<Shown> {
    let mut buffer = [7; 20];
    let count = read_file(image, 6, 4_090, &mut buffer).ok()?;
    let places = [
        image.place_of(6, 0),
        image.place_of(6, 1),
        image.place_of(6, 2),
    ];
    let nodes = [
        image.next_node(1),
        image.next_node(5),
        image.next_node(6),
        image.next_node(7),
    ];
    let (_name, number) = image.next_name(5, None)?;
    (count == 20).then_some((places, buffer, image.free(2), nodes, Some(number)))
}

/// Whether the image shows the rows of `RIGHT`.
pub fn shows_right<A: Allocator>(image: &Image<A>) -> bool {
    match shown_by(image) {
        Some(shown) => shown == RIGHT_SHOWN,
        None => false,
    }
}

fn is_same_row<A: Allocator>(one: &ExtentRow<A>, other: &ExtentRow<A>) -> bool {
    one.number == other.number
        && one.extent == other.extent
        && one.bytes.as_slice() == other.bytes.as_slice()
}

fn are_same_rows<A: Allocator>(rows: &[ExtentRow<A>], others: &[ExtentRow<A>]) -> bool {
    for (index, row) in rows.iter().enumerate() {
        match others.get(index) {
            Some(other) if is_same_row(row, other) => {}
            _ => return false,
        }
    }
    rows.len() == others.len()
}

/// Whether the two have the same version, sizes and rows.
pub fn is_same<A: Allocator>(raw: &RawImage<A>, other: &RawImage<A>) -> bool {
    raw.version == other.version
        && raw.sizes == other.sizes
        && raw.nodes.as_slice() == other.nodes.as_slice()
        && raw.names.as_slice() == other.names.as_slice()
        && are_same_rows(raw.extents.as_slice(), other.extents.as_slice())
}
