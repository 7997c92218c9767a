//! Frames from bytes that come in pieces.
ghost use Rattle.std.specs.Prelude.{◌≡◌, ℕ, List, [], ◌++◌, ◌+◌, ◌<◌, ◌≤◌, length, vec_len, vec_capacity, MatchOption};
ghost use Rattle.kfs_server.specs.Frames.Frame.{IsPartial};
ghost use Rattle.kfs_server.specs.Frames.Begun.{AreRead, HasHead, IsBegun, IsPending, whole_ones};

use crate::frames::begun::{Begun, Taken};
use kfs_call::Incoming;
use std::alloc::Allocator;
use std::mem;

/// Frames from bytes that come in pieces, whatever pieces these are.
#[derive(Drop)]
pub struct FrameReader<A: Allocator> {
    alloc: A,
    begun: Begun<A>,
}

impl<A: Allocator + Copy> FrameReader<A> {
    /// No byte has come. Takes no memory.
    pub fn new(alloc: A) -> FrameReader<A>
        ensures begun { IsBegun result.begun }
        ensures none { IsPending result.begun [] }
    {
        FrameReader {
            alloc,
            begun: Begun::none(),
        }
    }

    /// Takes the next piece, and answers the frames that are whole with it, in order, in `out`.
    ///
    /// Conditions: `out` is empty, and has room for as many frames as the piece has bytes. Of a frame whose body is
    /// too long, or for which memory is refused, only the head is kept.
    pub fn take<B: Allocator>(&mut self, piece: &[u8], out: &mut Vec<Incoming<A>, B>)
        requires begun { IsBegun self.old.begun }
        requires none { out.old.items ≡ [] }
        requires room { length piece.now ≤ vec_capacity out.old }
        ensures begun { IsBegun self.new.begun }
        // Of a stream there is but one cut into frames: what has come of the next one is less than a whole one.
        ensures partial { (left : List ℕ) → IsPending self.new.begun left → IsPartial left }
        ensures read { (came : List ℕ) → IsPending self.old.begun came → AreRead (came ++ piece.now) out.new.items self.new.begun }
        ensures few { vec_len out.new ≤ length piece.now }
        ensures capacity { vec_capacity out.new ≡ vec_capacity out.old }
    {
        let mut rest = piece;
        'pieces: while !rest.is_empty() {
            let begun = mem::replace(&mut self.begun, Begun::none());
            let Taken {
                whole,
                begun,
                rest: behind,
            } = begun.look_at(self.alloc, rest);
            self.begun = begun;
            push_whole(out, whole);
            rest = behind;
        }
    }

    /// The number of the frame that has begun to come, if its head has.
    pub fn cut(&self) -> Option<u32>
        requires { IsBegun self.now.begun }
        ensures { (left : List ℕ) → IsPending self.now.begun left → MatchOption result (length left < 12) (λ number. HasHead left number) }
    {
        match &self.begun {
            Begun::InHead(_) => None,
            Begun::InBody { head, .. } => Some(head.number),
        }
    }
}

/// Appends the frame, where there is one. Condition: there is room for it.
fn push_whole<A: Allocator, B: Allocator>(out: &mut Vec<Incoming<A>, B>, whole: Option<Incoming<A>>)
    requires { vec_len out.old < vec_capacity out.old }
    ensures items { out.new.items ≡ out.old.items ++ whole_ones whole }
    ensures more { vec_len out.new ≤ vec_len out.old + 1 }
    ensures capacity { vec_capacity out.new ≡ vec_capacity out.old }
{
    if let Some(incoming) = whole {
        out.push_reserved(incoming);
    }
}
