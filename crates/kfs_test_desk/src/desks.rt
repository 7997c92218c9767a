//! Calls of the desk and of the image, each in a function without clauses.

use kfs_desk::{Act, ActReply, Desk, Done, Reply, Unanswered, Why};
use kfs_image::{Answer, Cell, Header, Image, Kind, Name, Shape, TierSizes, look, read_file};
use kfs_lease::LeaseKind;
use kfs_mode::{Client, ClientFault};
use kfs_test_support::vectors::{CREATE_LOG, CREATE_PLAN};
use std::alloc::Allocator;

/// More allocations than anything here asks for.
pub const AMPLE: u64 = 1 << 40;

/// The client 7 of uid and gid 1000, which may give the numbers from 2 on.
pub fn client() -> Result<Client, ClientFault> {
    Client::new(7, 1000, 1000, &[], false, 2, 65_536)
}

/// A desk with a new image of three tiers of 8 blocks, with that client, and with a docket of at most `limit` rows.
pub fn begun<A: Allocator + Copy>(alloc: A, limit: u32) -> Option<Desk<A>> {
    let clients = vec![in alloc; client().ok()?].ok()?;
    let image = Image::fresh(alloc, TierSizes::new(8, 8, 8)?).ok()?;
    Desk::begin(alloc, image, clients, limit).ok()
}

/// A call of the desk, and its answer that is due.
#[derive(Clone, Copy)]
pub enum Call<'a> {
    Act(Act<'a>, Result<ActReply, Unanswered>),
    /// A log of client 7 and its plan.
    Submit(&'a [u8], &'a [u8], Result<Reply, Why>),
}

/// Client 7 is granted a write lease on the root, as row 0.
pub const ROOT_LEASED: Call<'static> = Call::Act(
    Act::Lease {
        client: 7,
        path: b"/",
        kind: LeaseKind::Write,
        end: 100,
    },
    Ok(ActReply {
        position: 0,
        answer: Ok(Done::Leased(1)),
    }),
);

/// Client 7 creates file 5, named `a`, in the root, as row 1.
pub const CREATED: Call<'static> = Call::Submit(
    CREATE_LOG,
    CREATE_PLAN,
    Ok(Reply::Yes {
        position: 1,
        rejudged: false,
        need: 0,
    }),
);

/// Client 7 is granted a write lease on the file `a`, as row 2.
pub const FILE_LEASED: Call<'static> = Call::Act(
    Act::Lease {
        client: 7,
        path: b"/a",
        kind: LeaseKind::Write,
        end: 100,
    },
    Ok(ActReply {
        position: 2,
        answer: Ok(Done::Leased(5)),
    }),
);

fn is_acted<A: Allocator + Copy>(
    desk: &mut Desk<A>,
    act: Act<'_>,
    due: Result<ActReply, Unanswered>,
) -> bool {
    desk.act(act) == due
}

fn is_submitted<A: Allocator + Copy>(
    desk: &mut Desk<A>,
    log: &[u8],
    plan: &[u8],
    due: Result<Reply, Why>,
) -> bool {
    desk.submit_bytes(7, log, plan) == due
}

/// Makes the call, and says whether it is answered as is due.
pub fn is_answered<A: Allocator + Copy>(desk: &mut Desk<A>, call: Call<'_>) -> bool {
    match call {
        Call::Act(act, due) => is_acted(desk, act, due),
        Call::Submit(log, plan, due) => is_submitted(desk, log, plan, due),
    }
}

/// Makes these calls in order, up to the first with another answer. Whether there is none.
pub fn are_answered<A: Allocator + Copy>(desk: &mut Desk<A>, calls: &[Call<'_>]) -> bool {
    for call in calls {
        if !is_answered(desk, *call) {
            return false;
        }
    }
    true
}

/// Such a desk after these calls, if they are answered as is due.
pub fn desk_after<A: Allocator + Copy>(
    alloc: A,
    limit: u32,
    calls: &[Call<'_>],
) -> Option<Desk<A>> {
    let mut desk = begun(alloc, limit)?;
    let is_right = are_answered(&mut desk, calls);
    is_right.then_some(desk)
}

/// Whether these calls of such a desk are answered as is due.
pub fn are_due(alloc: impl Allocator + Copy, limit: u32, calls: &[Call<'_>]) -> bool {
    match begun(alloc, limit) {
        Some(mut desk) => are_answered(&mut desk, calls),
        None => false,
    }
}

/// What an image shows of its nodes.
#[derive(Clone, Copy)]
pub enum Shown<'a> {
    /// A file of uid and gid 1000 and of mode 0o644, with one name and no bytes.
    File(u32),
    /// There is no node with this number.
    NoNode(u32),
    /// A name of a directory leads to this number, or nowhere.
    Name(u32, &'a [u8], Option<u32>),
    /// How many names a directory has.
    Count(u32, u64),
}

/// The header of such a file.
const FILE_HEADER: Header = Header {
    kind: Kind::File,
    mode: 0o644,
    uid: 1000,
    gid: 1000,
    links: 1,
    size: 0,
};

/// The cell, and what it shows.
fn cell_of(shown: Shown<'_>) -> Option<(Cell, Answer)> {
    Some(match shown {
        Shown::File(number) => (Cell::Header(number), Answer::Header(Some(FILE_HEADER))),
        Shown::NoNode(number) => (Cell::Header(number), Answer::Header(None)),
        Shown::Name(dir, name, number) => (Cell::Name(dir, Name::new(name)?), Answer::Name(number)),
        Shown::Count(number, count) => (Cell::Count(number), Answer::Count(count)),
    })
}

fn is_shown<A: Allocator>(shape: &Shape<A>, shown: Shown<'_>) -> bool {
    match cell_of(shown) {
        Some((cell, answer)) => look(shape, &cell) == answer,
        None => false,
    }
}

/// Whether the image shows all this.
pub fn shows<A: Allocator>(shape: &Shape<A>, all: &[Shown<'_>]) -> bool {
    for shown in all {
        if !is_shown(shape, *shown) {
            return false;
        }
    }
    true
}

/// There is no file 5, and no name in the root.
pub const NO_FILE: [Shown<'static>; 3] = [
    Shown::NoNode(5),
    Shown::Name(1, b"a", None),
    Shown::Count(1, 0),
];

/// File 5 of the Create, with the only name of the root.
pub const FILE: [Shown<'static>; 3] = [
    Shown::File(5),
    Shown::Name(1, b"a", Some(5)),
    Shown::Count(1, 1),
];

/// A file's number, where its first block lies, if that is asked for, and its three bytes.
pub type Block<'a> = (u32, Option<(u8, u32)>, &'a [u8]);

/// Whether a read of the file gives these three bytes and no more.
fn reads<A: Allocator>(image: &Image<A>, number: u32, bytes: &[u8]) -> bool {
    let mut buffer = [0u8; 4];
    let count = read_file(image, number, 0, &mut buffer);
    count == Ok(3) && buffer.get(..3) == Some(bytes)
}

/// Whether the image has these blocks.
pub fn has_blocks<A: Allocator>(image: &Image<A>, blocks: &[Block<'_>]) -> bool {
    for block in blocks {
        let (number, place, bytes) = *block;
        let is_placed = place.is_none() || image.place_of(number, 0) == place;
        if !is_placed || !reads(image, number, bytes) {
            return false;
        }
    }
    true
}
