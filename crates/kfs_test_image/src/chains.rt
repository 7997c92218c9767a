//! Images with as many nodes as there may be: directories inside each other.

use kfs_shape::{ShapeFault, check_shape};
use kfs_test_support::images::many::chain;
use std::alloc::Allocator;
use std::process::Abort;

/// The finding where each directory from `first` on leads to the next one, and the last one to `last`.
fn found<A: Allocator + Copy>(
    alloc: A,
    first: u32,
    last: Option<u32>,
) -> Option<Option<(u8, u32)>> {
    let raw = chain(alloc, first, last)?;
    match check_shape(alloc, &raw) {
        Ok(()) => Some(None),
        Err(ShapeFault::Found(finding)) => Some(Some((finding.rule, finding.number))),
        Err(ShapeFault::OutOfMemory) => None,
    }
}

#[test]
fn the_deepest_chain_is_well_formed(rt: HostRuntime) {
    assert!(&rt; found(rt.alloc(), 1, None) == Some(None));
}

#[test]
fn a_circle_of_all_others_is_found_at_its_least(rt: HostRuntime) {
    assert!(&rt; found(rt.alloc(), 2, Some(2)) == Some(Some((7, 2))));
}
