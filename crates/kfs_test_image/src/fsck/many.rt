//! Images with as many nodes as there can be. The order of their names is tested in several threads, and
//! uplinks that don't ascend are sorted in several.

use kfs_fsck::{FsckFault, RawImage, fsck};
use kfs_test_support::images::many::{GREATEST, chain};
use std::alloc::Allocator;
use std::process::Abort;
use std::thread::Threads;

/// The rule and the number found in the image; an inner none where it is accepted.
fn found_in<A: Allocator + Copy>(
    rt: &(impl Threads + Sync),
    alloc: A,
    raw: RawImage<A>,
) -> Option<Option<(u8, u32)>> {
    match fsck(rt, alloc, raw) {
        Ok(_image) => Some(None),
        Err(FsckFault::Found(finding)) => Some(Some((finding.rule, finding.number))),
        Err(FsckFault::OutOfMemory(_raw)) => None,
    }
}

/// The finding where each directory from `first` on leads to the next one, and the last one to `last`.
fn found<A: Allocator + Copy>(
    rt: &(impl Threads + Sync),
    alloc: A,
    first: u32,
    last: Option<u32>,
) -> Option<Option<(u8, u32)>> {
    let raw = chain(alloc, first, last)?;
    found_in(rt, alloc, raw)
}

/// The finding in the deepest chain, where the nodes of these numbers have mode 0o2000.
fn found_with_modes<A: Allocator + Copy>(
    rt: &(impl Threads + Sync),
    alloc: A,
    numbers: [u32; 2],
) -> Option<Option<(u8, u32)>> {
    let mut raw = chain(alloc, 1, None)?;
    for number in numbers {
        let index = number.checked_sub(1)? as usize;
        raw.nodes.get_mut(index)?.header.mode = 0o2000;
    }
    found_in(rt, alloc, raw)
}

/// The finding in the deepest chain, where the name rows with these indices have these directories.
fn found_with_directories<A: Allocator + Copy>(
    rt: &(impl Threads + Sync),
    alloc: A,
    moved: [(usize, u32); 2],
) -> Option<Option<(u8, u32)>> {
    let mut raw = chain(alloc, 1, None)?;
    for (index, dir) in moved {
        raw.names.get_mut(index)?.dir = dir;
    }
    found_in(rt, alloc, raw)
}

/// The finding in the deepest chain whose numbers fall from the second node on. So its uplinks don't ascend.
fn found_in_falling_chain<A: Allocator + Copy>(
    rt: &(impl Threads + Sync),
    alloc: A,
) -> Option<Option<(u8, u32)>> {
    let mut raw = chain(alloc, 1, None)?;
    for row in raw.names.iter_mut() {
        if row.dir == 1 {
            row.number = GREATEST;
        } else {
            row.number = row.dir;
            row.dir = row.dir.checked_add(1)?;
        }
    }
    found_in(rt, alloc, raw)
}

/// The finding in the deepest chain without the name of its last directory.
fn found_without_a_name<A: Allocator + Copy>(
    rt: &(impl Threads + Sync),
    alloc: A,
) -> Option<Option<(u8, u32)>> {
    let mut raw = chain(alloc, 1, None)?;
    let _row = raw.names.pop()?;
    found_in(rt, alloc, raw)
}

#[test]
fn the_deepest_chain_is_let_in(rt: HostRuntime) {
    assert!(&rt; found(&rt, rt.alloc(), 1, None) == Some(None));
}

#[test]
fn a_chain_with_falling_numbers_is_let_in(rt: HostRuntime) {
    assert!(&rt; found_in_falling_chain(&rt, rt.alloc()) == Some(None));
}

#[test]
fn a_circle_of_all_others_is_found_at_its_least(rt: HostRuntime) {
    assert!(&rt; found(&rt, rt.alloc(), 2, Some(2)) == Some(Some((7, 2))));
}

#[test]
fn the_least_of_two_nodes_is_found(rt: HostRuntime) {
    for numbers in [[60_000, 2_000], [2_000, 60_000], [2_000, 2_001]] {
        let finding = found_with_modes(&rt, rt.alloc(), numbers);
        assert!(&rt; finding == Some(Some((3, 2_000))));
    }
}

#[test]
fn the_least_of_two_rows_out_of_order_is_found(rt: HostRuntime) {
    for moved in [[(60_000, 500), (2_000, 900)], [(2_000, 500), (60_000, 900)]] {
        let finding = found_with_directories(&rt, rt.alloc(), moved);
        assert!(&rt; finding == Some(Some((4, 500))));
    }
}

#[test]
fn the_last_row_of_all_is_tested(rt: HostRuntime) {
    let finding = found_without_a_name(&rt, rt.alloc());
    assert!(&rt; finding == Some(Some((6, GREATEST))));
}
