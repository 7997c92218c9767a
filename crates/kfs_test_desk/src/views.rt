//! A view taken before a landing, in the first and the second page of nodes.

use crate::desks::{Call, ROOT_LEASED, Shown, desk_after, is_answered, shows};
use kfs_desk::{Desk, Reply};
use kfs_image::{HeaderPage, Kind, Shape};
use std::alloc::Global;

/// Client 7 creates the files 64, named "m", and 65, named "n", in the root.
const LOG: &[u8] = b"KLOG\x01\0\0\0\x07\0\x02\x01\0\0\0\x01\x01m\0\0\0\x40\0\x01\xa4\
      \x01\0\0\0\x01\x01n\0\0\0\x41\0\x01\xa4";

/// Both names and both headers.
const PLAN: &[u8] =
    b"KPLN\x01\0\x02\0\x02\0\0\0\0\0\0\0\x01\x01m\0\0\0\x40\0\0\0\x01\x01n\0\0\0\x41\
      \0\0\0\x40\x01\x01\xa4\0\0\x03\xe8\0\0\x03\xe8\0\x01\0\0\0\0\0\0\0\0\
      \0\0\0\x41\x01\x01\xa4\0\0\x03\xe8\0\0\x03\xe8\0\x01\0\0\0\0\0\0\0\0";

const BOTH_CREATED: Call<'static> = Call::Submit(
    LOG,
    PLAN,
    Ok(Reply::Yes {
        position: 1,
        rejudged: false,
        need: 0,
    }),
);

const BEFORE: [Shown<'static>; 3] = [Shown::NoNode(64), Shown::NoNode(65), Shown::Count(1, 0)];

const AFTER: [Shown<'static>; 4] = [
    Shown::File(64),
    Shown::File(65),
    Shown::Name(1, b"m", Some(64)),
    Shown::Name(1, b"n", Some(65)),
];

/// Whether the second page has file 65; none where there is no such page.
fn has_second_page(shape: &Shape<Global>) -> Option<bool> {
    let header = shape.page(1)?.header(65);
    Some(match header {
        Some(header) => header.kind == Kind::File && header.mode == 0o644,
        None => false,
    })
}

fn nodes_behind(shape: &Shape<Global>) -> [Option<u32>; 3] {
    [1, 64, 65].map(|number| shape.next_node(number))
}

/// Whether the nodes after the landing are these.
fn has_both(shape: &Shape<Global>) -> bool {
    shows(shape, &AFTER)
        && has_second_page(shape) == Some(true)
        && nodes_behind(shape) == [Some(64), Some(65), None]
}

/// Whether the view from before goes on to show what it showed, when the desk has both files.
fn is_apart(desk: &mut Desk<Global>, before: &Shape<Global>) -> bool {
    is_answered(desk, BOTH_CREATED)
        && shows(before, &BEFORE)
        && has_second_page(before) == None
        && has_both(desk.image().shape())
}

/// The same on a desk of its own.
fn is_apart_there(alloc: Global) -> Option<bool> {
    let mut desk = desk_after(alloc, 100, &[ROOT_LEASED])?;
    let before = desk.image().shape().clone().ok()?;
    Some(is_apart(&mut desk, &before))
}

#[test]
fn a_view_from_before_a_page(rt: HostRuntime) {
    assert!(rt; is_apart_there(rt.alloc()) == Some(true));
}
