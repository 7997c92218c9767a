//! The memory of blocks that are written over: how much of it an image keeps, and hands out.

use crate::edits::write;
use kfs_image::{Image, Place, TierSizes};
use std::alloc::Global;

/// Of how many blocks the memory is kept at most.
const MOST: usize = 4_096;

fn new_image(alloc: Global) -> Option<Image<Global>> {
    Image::fresh(alloc, TierSizes::new(8, 8, 8)?).ok()
}

/// Writes a block so many times, always at one place. Answers of how many blocks memory is kept then,
/// and takes it; nothing where one has no room for a block.
fn kept_after(alloc: Global, image: &mut Image<Global>, times: usize) -> Option<usize> {
    for _ in 0..times {
        write(alloc, image, Place { tier: 1, place: 3 })?;
    }
    let mut spares = Vec::new(alloc);
    image.swap_spares(&mut spares);
    for spare in &spares {
        if spare.capacity() < 4_096 {
            return None;
        }
    }
    Some(spares.len())
}

#[test]
fn memory_of_blocks_written_over_is_kept(rt: HostRuntime) {
    let image = new_image(rt.alloc());
    assert!(rt; image.is_some());
    if let Some(mut image) = image {
        for (times, kept) in [(1, 0), (1, 1), (0, 0), (3, 3), (MOST + 6, MOST)] {
            assert_eq!(rt; kept_after(rt.alloc(), &mut image, times), Some(kept));
        }
    }
}
