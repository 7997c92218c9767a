//! A run of lines, and what comes of it.

use crate::scripts::Script;
use kfs_program::run_words;
use std::alloc::Allocator;
use std::thread::Threads;

/// The exit status where the engine reaches the end of its input.
pub const DONE: u8 = 0;

/// The outcome of a run.
#[derive(Drop)]
pub struct Outcome {
    pub status: u8,
    pub written: Vec<u8>,
}

/// Runs these lines with the desk in memory of `alloc`.
pub fn run<R: AllocGlobal + Threads + Sync, A: Allocator + Copy>(
    rt: &R,
    alloc: A,
    words: &[&str],
    lines: &[u8],
) -> Outcome {
    let mut script = Script {
        bytes: lines,
        padding: 0,
        is_broken: false,
    };
    let mut written = Vec::new(rt.alloc());
    let status = run_words(rt, alloc, words, &mut script, &mut written);
    Outcome { status, written }
}
