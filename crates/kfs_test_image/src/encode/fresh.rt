//! A new image as bytes, with each allocation failing in turn. Which bytes these are is in the scripts of
//! `kfs_rows` and in the worked examples of `kfs_model`.

use kfs_image::{Image, TierSizes, encode_image};
use kfs_test_support::refusing::Refusing;
use std::alloc::{Allocator, Global};
use std::process::Abort;

/// More allocations than the bytes ask for.
const MANY: u64 = 100;

/// The length of a new image in bytes.
const LEN: usize = 54;

/// A new image with three tiers of eight blocks.
fn fresh(alloc: Global) -> Option<Image<Global>> {
    Image::fresh(alloc, TierSizes::new(8, 8, 8)?).ok()
}

/// The bytes of the image, if memory isn't refused.
fn encoded<B: Allocator>(alloc: B, image: &Image<Global>) -> Option<Vec<u8, B>> {
    encode_image(alloc, image).ok()
}

/// Whether the bytes are as many as those of a new image.
fn is_whole<B: Allocator>(bytes: Option<Vec<u8, B>>) -> bool {
    match bytes {
        Some(bytes) => bytes.len() == LEN,
        None => false,
    }
}

/// How many allocations the bytes ask for, each refused in turn; none where an answer is wrong.
fn growths(alloc: Global) -> Option<u64> {
    let image = fresh(alloc)?;
    for growth in 0..MANY {
        let heap = Refusing::new(alloc, growth);
        let is_encoded = is_whole(encoded(&heap, &image));
        if is_encoded == heap.has_refused() {
            return None;
        }
        if is_encoded {
            return Some(growth);
        }
        if !is_whole(encoded(&heap, &image)) {
            return None;
        }
    }
    None
}

#[test]
fn the_bytes_take_one_growth(rt: HostRuntime) {
    let count = growths(rt.alloc());
    assert!(&rt; count == Some(1), "{count:?}");
}
