//! What a batch leaves.

use crate::SharedWant;
use kfs_desk::{Desk, Reply};
use kfs_plan::Submission;
use std::alloc::Allocator;

/// A submission of a batch that has no reply.
#[derive(Drop)]
pub struct Left<A: Allocator> {
    /// Its number: the index in the list that was handed in, from 0.
    pub number: u32,
    /// As it was handed in.
    pub submission: Submission<A>,
    /// The reason.
    pub why: SharedWant,
}

/// What a batch leaves. Each submission has either a reply, or stands in `left`.
#[derive(Drop)]
pub struct BatchEnd<A: Allocator> {
    /// The desk, with a row for each reply behind the rows that it had.
    pub desk: Desk<A>,
    /// The reply to each submission, by its number.
    pub replies: Vec<Option<Reply>, A>,
    /// The submissions without a reply, in the order of their numbers.
    pub left: Vec<Left<A>, A>,
}

/// Why there was no batch.
#[derive(Drop)]
pub enum BatchBack<A: Allocator> {
    /// 1: there are to be 1 to 8 workers. Nothing was done; all comes back as it was handed in.
    BadWorkers {
        desk: Desk<A>,
        submissions: Vec<Submission<A>, A>,
    },
    /// 2: memory ran out before the first turn. Nothing was done; all comes back as it was handed in.
    OutOfMemory {
        desk: Desk<A>,
        submissions: Vec<Submission<A>, A>,
    },
    /// 3: at the end a ticket was drawn whose turn wasn't passed on, or the docket hasn't as many new rows
    /// as there are replies. Nothing comes back.
    Unreturned,
}
