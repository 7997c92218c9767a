//! Gates of batches.

use kfs_shared::Gate;
use std::sync::atomic::{AtomicU64, Ordering};
use std::thread;

/// A gate that stands open.
pub struct Open;

impl Gate for Open {
    fn before(&self, _number: u32) {}
}

/// A gate that notes for which submissions it is called.
#[derive(Drop)]
pub struct Noting {
    /// One digit for each call, the number and 1.
    calls: AtomicU64,
}

impl Noting {
    pub fn new() -> Noting {
        Noting {
            calls: AtomicU64::new(0),
        }
    }

    /// Whether it was called for 0, then for 1, and never again.
    pub fn has_noted_both(&self) -> bool {
        self.calls.load(Ordering::SeqCst) == 12
    }
}

impl Gate for Noting {
    fn before(&self, number: u32) {
        let calls = self.calls.load(Ordering::SeqCst);
        let noted = calls.wrapping_mul(10).wrapping_add(u64::from(number) + 1);
        self.calls.store(noted, Ordering::SeqCst);
    }
}

/// How often a worker looks for the other one.
const MOST_TURNS: u32 = 100_000_000;

/// A gate at which the submissions 0 and 1 wait for each other.
#[derive(Drop)]
pub struct Meeting {
    first: AtomicU64,
    second: AtomicU64,
    failed: AtomicU64,
}

impl Meeting {
    pub fn new() -> Meeting {
        Meeting {
            first: AtomicU64::new(0),
            second: AtomicU64::new(0),
            failed: AtomicU64::new(0),
        }
    }

    /// Whether one of them has waited in vain.
    pub fn has_failed(&self) -> bool {
        self.failed.load(Ordering::SeqCst) != 0
    }
}

/// Waits until the flag is set. Whether it was.
fn is_set(flag: &AtomicU64) -> bool {
    for _ in 0..MOST_TURNS {
        if flag.load(Ordering::SeqCst) != 0 {
            return true;
        }
        thread::yield_now();
    }
    false
}

impl Gate for Meeting {
    fn before(&self, number: u32) {
        let (mine, other) = if number == 0 {
            (&self.first, &self.second)
        } else {
            (&self.second, &self.first)
        };
        mine.store(1, Ordering::SeqCst);
        if !is_set(other) {
            self.failed.store(1, Ordering::SeqCst);
        }
    }
}
