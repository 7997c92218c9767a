//! A frame that has begun to come.
ghost use Rattle.std.specs.Prelude.{◌≡◌, ◌≢◌, ℕ, List, [], ◌++◌, ◌+◌, ◌<◌, ◌≤◌, length, IfSome, IsNone};
ghost use Rattle.kfs_server.specs.Frames.Frame.{head_bytes};
ghost use Rattle.kfs_server.specs.Frames.Begun.{IsBegun, IsBody, IsHead, IsInBody, IsNextFrame, IsPending};

use crate::put::put;
use arrayvec::ArrayVec;
use kfs_call::{BodyFault, Incoming};
use std::alloc::Allocator;

/// The most bytes of a body that is kept.
pub const BODY_LIMIT: usize = 16_777_216;

/// How many bytes a head has.
const HEAD_LEN: usize = 12;

/// What stands before a body.
#[derive(Clone, Copy)]
pub struct Head {
    /// How many bytes the body has.
    pub len: u32,
    pub number: u32,
    pub from: u32,
}

/// A frame that isn't whole yet.
#[derive(Drop)]
pub enum Begun<A: Allocator> {
    /// Fewer bytes than a head.
    InHead(ArrayVec<u8, HEAD_LEN>),
    /// A head, and so many bytes of its body.
    InBody {
        head: Head,
        passed: usize,
        body: Result<Vec<u8, A>, BodyFault>,
    },
}

/// What came of a piece.
#[derive(Drop)]
pub struct Taken<'a, A: Allocator> {
    /// The frame that is whole with it.
    pub whole: Option<Incoming<A>>,
    /// The frame that isn't.
    pub begun: Begun<A>,
    /// What wasn't looked at.
    pub rest: &'a [u8],
}

impl<A: Allocator> Begun<A> {
    /// No byte has come.
    pub fn none() -> Begun<A>
        ensures begun { IsBegun result }
        ensures none { IsPending result [] }
    {
        Begun::InHead(ArrayVec::new())
    }
}

impl<A: Allocator + Copy> Begun<A> {
    /// Looks at the bytes of a piece, up to the first place where a frame is whole, or where a head is.
    pub fn look_at(self, alloc: A, piece: &[u8]) -> Taken<'_, A>
        requires begun { IsBegun self }
        requires some { 0 < length piece.now }
        ensures begun { IsBegun result.begun }
        ensures fewer { length result.rest.now < length piece.entry.now }
        ensures next { (came : List ℕ) → IsPending self came → IsNextFrame (came ++ piece.entry.now) result.rest.now result.whole result.begun }
    {
        match self {
            Begun::InHead(bytes) => take_head(alloc, bytes, piece),
            Begun::InBody { head, passed, body } => take_body(head, passed, body, piece),
        }
    }
}

/// Goes on with a head.
fn take_head<A: Allocator + Copy>(
    alloc: A,
    mut bytes: ArrayVec<u8, HEAD_LEN>,
    piece: &[u8],
) -> Taken<'_, A>
    requires few { length bytes.items < 12 }
    requires some { 0 < length piece.now }
    ensures begun { IsBegun result.begun }
    ensures fewer { length result.rest.now < length piece.entry.now }
    ensures next { IsNextFrame (bytes.items ++ piece.entry.now) result.rest.now result.whole result.begun }
{
    let count = piece.len().min(HEAD_LEN - bytes.len());
    let (part, rest) = piece.split_at(count);
    put(&mut bytes, part);
    match head_of(bytes.as_slice()) {
        Some(head) => begin_body(alloc, head, rest),
        None => Taken {
            whole: None,
            begun: Begun::InHead(bytes),
            rest,
        },
    }
}

/// The head that 12 bytes are.
fn head_of(bytes: &[u8]) -> Option<Head>
    ensures none { IsNone result → length bytes.now ≢ 12 }
    ensures head { IfSome result (λ head. bytes.now ≡ head_bytes head.len head.number head.from) }
    ensures fits { IfSome result (λ head. IsHead head.len head.number head.from) }
{
    let [l0, l1, l2, l3, n0, n1, n2, n3, f0, f1, f2, f3] = *bytes else {
        return None;
    };
    Some(Head {
        len: u32::from_be_bytes([l0, l1, l2, l3]),
        number: u32::from_be_bytes([n0, n1, n2, n3]),
        from: u32::from_be_bytes([f0, f1, f2, f3]),
    })
}

/// A frame whose head has come; its body hasn't begun.
fn begin_body<A: Allocator + Copy>(alloc: A, head: Head, rest: &[u8]) -> Taken<'_, A>
    requires { IsHead head.len head.number head.from }
    ensures same { result.rest.now ≡ rest.entry.now }
    ensures begun { IsBegun result.begun }
    ensures next { IsNextFrame (head_bytes head.len head.number head.from ++ rest.entry.now) rest.entry.now result.whole result.begun }
{
    let body = if head.len as usize > BODY_LIMIT {
        Err(BodyFault::TooLong)
    } else {
        Ok(Vec::new(alloc))
    };
    went_on(head, 0, body, rest)
}

/// Goes on with a body.
fn take_body<A: Allocator>(
    head: Head,
    passed: usize,
    body: Result<Vec<u8, A>, BodyFault>,
    piece: &[u8],
) -> Taken<'_, A>
    requires some { 0 < length piece.now }
    requires more { passed < head.len }
    requires fits { IsHead head.len head.number head.from }
    ensures begun { IsBegun result.begun }
    ensures fewer { length result.rest.now < length piece.entry.now }
    ensures next { (came : List ℕ) → IsInBody head.len head.number head.from passed body came → IsNextFrame (came ++ piece.entry.now) result.rest.now result.whole result.begun }
{
    let count = piece.len().min(head.len as usize - passed);
    let (part, rest) = piece.split_at(count);
    went_on(head, passed + count, keep(body, part), rest)
}

/// The bytes with these behind them. Where memory is refused they aren't kept any more.
fn keep<A: Allocator>(
    body: Result<Vec<u8, A>, BodyFault>,
    part: &[u8],
) -> Result<Vec<u8, A>, BodyFault>
    ensures { (len : ℕ) (came : List ℕ) → IsBody len body came → IsBody len result (came ++ part.now) }
{
    let mut bytes = body?;
    match bytes.extend_from_slice(part) {
        Ok(()) => Ok(bytes),
        Err(_) => Err(BodyFault::OutOfMemory),
    }
}

/// The frame with so many bytes of its body: it is whole, or goes on.
fn went_on<A: Allocator>(
    head: Head,
    passed: usize,
    body: Result<Vec<u8, A>, BodyFault>,
    rest: &[u8],
) -> Taken<'_, A>
    requires fits { IsHead head.len head.number head.from }
    requires within { passed ≤ head.len }
    ensures same { result.rest.now ≡ rest.entry.now }
    ensures begun { IsBegun result.begun }
    ensures next { (part : List ℕ) → length part ≡ passed → IsBody head.len body part → IsNextFrame (head_bytes head.len head.number head.from ++ part ++ rest.entry.now) rest.entry.now result.whole result.begun }
{
    if passed < head.len as usize {
        let begun = Begun::InBody { head, passed, body };
        return Taken {
            whole: None,
            begun,
            rest,
        };
    }
    let incoming = Incoming {
        number: head.number,
        from: head.from,
        body,
    };
    Taken {
        whole: Some(incoming),
        begun: Begun::none(),
        rest,
    }
}
