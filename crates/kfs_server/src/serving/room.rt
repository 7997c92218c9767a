//! What a group takes in memory, taken once.
ghost use Rattle.std.specs.Prelude.{◌≡◌, [], ◌≤◌, IfOk};
ghost use Rattle.kfs_server.specs.Serving.Room.{IsAmple, IsAmpleSaid, IsRoom, IsUnsaid};

use crate::replies::NumberedReply;
use kfs_call::Incoming;
use std::alloc::{AllocError, Allocator};

/// How many bytes are read at once, and so how many frames a group has at most.
pub const CHUNK: usize = 65_536;

/// The most bytes of the replies to a group: 29 for each of its frames.
const TEXT: usize = 1_900_544;

/// What is said to a group: the replies, and their bytes.
#[derive(Drop)]
pub struct Said<B: Allocator> {
    pub replies: Vec<NumberedReply, B>,
    pub text: Vec<u8, B>,
}

impl<B: Allocator> Said<B> {
    /// Drops what was said, and keeps the room.
    pub fn clear(&mut self)
        requires { IsAmpleSaid self.old }
        ensures { IsUnsaid self.new }
    {
        self.replies.clear();
        self.text.clear();
    }
}

/// What a read takes: its frames, and what is said to a group of them.
#[derive(Drop)]
pub struct Room<B: Allocator> {
    pub group: Vec<Incoming<B>, B>,
    pub said: Said<B>,
}

impl<B: Allocator + Copy> Room<B> {
    /// Room for as many frames as a read brings at most. `Err` where memory is refused.
    pub fn new(alloc: B) -> Result<Room<B>, AllocError>
        ensures { IfOk result IsRoom }
    {
        Ok(Room {
            group: Vec::with_capacity(alloc, CHUNK)?,
            said: Said {
                replies: Vec::with_capacity(alloc, CHUNK)?,
                text: Vec::with_capacity(alloc, TEXT)?,
            },
        })
    }

    /// Drops what a group had, and keeps the room.
    pub fn clear(&mut self)
        requires { IsAmple self.old }
        ensures { IsRoom self.new }
    {
        self.group.clear();
        self.said.clear();
    }
}
