//! Who may look names up, list them, and read files, through a view. The expected values are those of
//! POSIX.1-2017, XBD 4.5: owner, else group, else others, and the bits of that class alone.
ghost use Rattle.std.specs.Prelude.{IfSome};
ghost use Rattle.kfs_mode.specs.Clients.{ClientsAreDistinct};

use crate::fsck::refused::is_right;
use NodeLine::{Directory, Empty};
use kfs_image::{Image, Kind, Shape};
use kfs_judge::AccessFault::{
    IsDirectory, NoRead, NoSearch, NoSuchNode, NotDirectory, UnknownClient,
};
use kfs_judge::{Access, AccessFault, View};
use kfs_lease::Leases;
use kfs_mode::Client;
use kfs_test_support::images::small::{NodeLine, SmallImage, image};
use std::alloc::{Allocator, Global};
use std::process::Abort;
use std::sync::Arc;

/// The root, and file 5 in it.
const ROOT_AND_FILE: SmallImage = SmallImage {
    nodes: &[Directory(1), Empty(5, Kind::File, 0o644, 1)],
    names: &[(1, b"a", 5)],
    extents: &[],
};

/// The uid, the gid and the mode of both nodes.
type Bits = (u32, u32, u16);

type Answer = Result<(), AccessFault>;

/// What is answered to finding a name, to listing, and to reading.
type Answers = [Answer; 3];

/// All is refused that asks for a bit.
const NONE: Answers = [Err(NoSearch), Err(NoRead), Err(NoRead)];

/// The bit of searching alone.
const FIND: Answers = [Ok(()), Err(NoRead), Err(NoRead)];

/// The bit of reading alone.
const READ: Answers = [Err(NoSearch), Ok(()), Ok(())];

/// Both.
const ALL: Answers = [Ok(()), Ok(()), Ok(())];

/// What client 7, with uid 1000, gid 2000 and group 3000, is answered on nodes of these bits.
static ONE_CLASS: [(Bits, Answers); 22] = [
    // the owner, who is in the group, too
    ((1000, 2000, 0o400), READ),
    ((1000, 2000, 0o200), NONE),
    ((1000, 2000, 0o100), FIND),
    ((1000, 2000, 0o500), ALL),
    ((1000, 2000, 0o277), NONE),
    // the group of the client's own
    ((1, 2000, 0o040), READ),
    ((1, 2000, 0o020), NONE),
    ((1, 2000, 0o010), FIND),
    ((1, 2000, 0o050), ALL),
    ((1, 2000, 0o727), NONE),
    // a supplementary group
    ((1, 3000, 0o040), READ),
    ((1, 3000, 0o020), NONE),
    ((1, 3000, 0o010), FIND),
    ((1, 3000, 0o050), ALL),
    ((1, 3000, 0o727), NONE),
    // others, of whom the ids are those of each other
    ((2000, 1000, 0o004), READ),
    ((2000, 1000, 0o002), NONE),
    ((2000, 1000, 0o001), FIND),
    ((2000, 1000, 0o005), ALL),
    ((2000, 1000, 0o772), NONE),
    // the sticky bit grants nothing
    ((1000, 2000, 0o1000), NONE),
    ((1, 1, 0o1000), NONE),
];

/// The same for a client that is privileged, whom no bit binds.
static PRIVILEGED: [(Bits, Answers); 4] = [
    ((1000, 2000, 0), ALL),
    ((1, 2000, 0o707), ALL),
    ((1, 1, 0o770), ALL),
    ((1, 1, 0o777), ALL),
];

/// What is asked by which client of which node, and the answer where no bit is set.
static IN_ORDER: [(Access, u32, u32, Answer); 15] = [
    // no such client comes before all else
    (Access::FindName, 8, 9, Err(UnknownClient)),
    (Access::ListNames, 8, 5, Err(UnknownClient)),
    (Access::ReadBytes, 8, 1, Err(UnknownClient)),
    // then no such node
    (Access::FindName, 7, 9, Err(NoSuchNode)),
    (Access::ListNames, 7, 0, Err(NoSuchNode)),
    (Access::ReadBytes, 7, 65_537, Err(NoSuchNode)),
    // then a node of the other kind
    (Access::FindName, 7, 5, Err(NotDirectory)),
    (Access::ListNames, 7, 5, Err(NotDirectory)),
    (Access::ReadBytes, 7, 1, Err(IsDirectory)),
    // then the bits
    (Access::FindName, 7, 1, Err(NoSearch)),
    (Access::ListNames, 7, 1, Err(NoRead)),
    (Access::ReadBytes, 7, 5, Err(NoRead)),
    // and again no such client
    (Access::FindName, 0, 1, Err(UnknownClient)),
    (Access::ListNames, 4_294_967_295, 1, Err(UnknownClient)),
    (Access::ReadBytes, 0, 5, Err(UnknownClient)),
];

/// The nodes and names of an image in which both nodes have these bits.
fn shape_with<A: Allocator + Copy>(alloc: A, bits: Bits) -> Option<Arc<Shape<A>, A>> {
    let mut raw = image(alloc, &[ROOT_AND_FILE])?;
    for node in raw.nodes.as_mut_slice() {
        node.header.uid = bits.0;
        node.header.gid = bits.1;
        node.header.mode = bits.2;
    }
    if !is_right(alloc, &raw) {
        return None;
    }
    let image = Image::from_raw(alloc, raw).ok()?;
    image.shape().clone().ok()
}

/// Client 7 alone.
fn clients<A: Allocator>(alloc: A, privileged: bool) -> Option<Vec<Client, A>>
    ensures { IfSome result (λ clients. ClientsAreDistinct clients.items) }
{
    let client = Client::new(7, 1000, 2000, &[3000], privileged, 2, 99).ok()?;
    vec![in alloc; client].ok()
}

/// What client 7 sees of such an image.
fn view_of<A: Allocator + Copy>(alloc: A, bits: Bits, privileged: bool) -> Option<View<A>> {
    let clients = Arc::new(alloc, clients(alloc, privileged)?).ok()?;
    let leases = Arc::new(alloc, Leases::new(alloc)).ok()?;
    let shape = shape_with(alloc, bits)?;
    Some(View::of(shape, leases, clients))
}

/// What is answered to finding a name in the root, to listing it, and to reading file 5.
fn answers<A: Allocator + Copy>(view: &View<A>) -> Answers {
    [
        view.may_find(7, 1),
        view.may_list(7, 1),
        view.may_read(7, 5),
    ]
}

/// What is answered to one of these, whichever of the calls asks.
fn answer<A: Allocator + Copy>(
    view: &View<A>,
    access: Access,
    client: u32,
    number: u32,
) -> [Answer; 2] {
    let by_name = match access {
        Access::FindName => view.may_find(client, number),
        Access::ListNames => view.may_list(client, number),
        Access::ReadBytes => view.may_read(client, number),
    };
    [by_name, view.may_access(access, client, number)]
}

/// Expects each row of a client that is privileged or not.
fn expect_rows(rt: &impl Abort, alloc: Global, rows: &[(Bits, Answers)], privileged: bool) {
    for row in rows {
        let said = view_of(alloc, row.0, privileged).map(|view| answers(&view));
        assert!(rt; said == Some(row.1), "{} {} {}", row.0.0, row.0.1, row.0.2);
    }
}

/// Expects each row of a view.
fn expect_in_order(rt: &impl Abort, view: &View<Global>, rows: &[(Access, u32, u32, Answer)]) {
    for row in rows {
        let said = answer(view, row.0, row.1, row.2);
        assert!(rt; said == [row.3, row.3], "{} {}", row.1, row.2);
    }
}

#[test]
fn the_bits_of_the_one_class_that_holds(rt: HostRuntime) {
    // The prover doesn't take a table by its name where its rows hold lists of answers.
    let one_class = ONE_CLASS;
    expect_rows(&rt, rt.alloc(), &one_class, false);
    let privileged = PRIVILEGED;
    expect_rows(&rt, rt.alloc(), &privileged, true);
}

#[test]
fn the_first_reason_is_answered(rt: HostRuntime) {
    let view = view_of(rt.alloc(), (1, 1, 0), false);
    assert!(rt; view.is_some());
    if let Some(view) = view {
        expect_in_order(&rt, &view, &IN_ORDER);
    }
}
