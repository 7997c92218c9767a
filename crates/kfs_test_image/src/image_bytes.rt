//! Images as bytes with one allocation failing. What bytes decode to, and why they don't, is in the scripts of
//! `kfs_rows` and in the worked examples of `kfs_model`.

use kfs_image::{ImageFault, decode_image};
use kfs_test_support::refusing::Refusing;
use kfs_test_support::vectors::ROOT_IMAGE;
use std::alloc::{AllocError, Allocator, Global};
use std::process::Abort;

/// More allocations than any of these calls asks for.
const MANY: u64 = 100;

/// The length of the header in bytes.
const HEADER: usize = 29;

/// The root, file 5 of 4,098 bytes at "/a", and its two blocks in two extents.
fn file_image(alloc: Global) -> Result<Vec<u8>, AllocError> {
    let parts: [&[u8]; 6] = [
        b"KIMG\x02\0\0\0\x08\0\0\0\x08\0\0\0\x08\0\0\0\x02\0\0\0\x01\0\0\0\x02",
        &ROOT_IMAGE[HEADER..],
        b"\0\0\0\x05\0\x01\xa4\0\0\x03\xe8\0\0\x03\xe8\0\x01\0\0\0\0\0\0\x10\x02\
          \0\0\0\x01\x01a\0\0\0\x05\
          \0\0\0\x05\0\0\0\0\0\0\0\0\x02\0\0\0\x01",
        &[b'x'; 4096],
        b"\0\0\0\x05\0\0\0\x01\0\0\0\0\x03\0\0\0\x01",
        &[b'x'; 4096],
    ];
    let mut bytes = Vec::new(alloc);
    for part in parts {
        bytes.extend_from_slice(part)?;
    }
    Ok(bytes)
}

/// Why the bytes are no image, or none where they are one.
fn fault_of<A: Allocator + Copy>(alloc: A, bytes: &[u8]) -> Option<ImageFault> {
    decode_image(alloc, bytes).err()
}

/// Whether the answer is an image; or, if an allocation failed, that memory ran out.
fn is_as_due(fault: Option<ImageFault>, has_refused: bool) -> bool {
    fault.is_none() || (has_refused && fault == Some(ImageFault::OutOfMemory))
}

/// How many allocations a decoder of these bytes asks for, each refused in turn; none where an answer is
/// wrong.
fn growths(alloc: Global, bytes: &[u8]) -> Option<u64> {
    for growth in 0..MANY {
        let heap = Refusing::new(alloc, growth);
        let fault = fault_of(&heap, bytes);
        let has_refused = heap.has_refused();
        if !is_as_due(fault, has_refused) {
            return None;
        }
        if !has_refused {
            return Some(growth);
        }
        if fault_of(&heap, bytes).is_some() {
            return None;
        }
    }
    None
}

#[test]
fn each_growth_may_be_refused(rt: HostRuntime) -> Result<(), AllocError> {
    let file = file_image(rt.alloc())?;
    let count = growths(rt.alloc(), &file);
    assert!(&rt; matches!(count, Some(6..)), "{count:?}");
    Ok(())
}
