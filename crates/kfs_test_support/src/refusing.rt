//! An allocator that refuses one allocation, or allocations for which no bytes are left, for tests of calls
//! without memory. Threads may share it. An allocation is one request for memory.

use std::alloc::{AllocError, Allocator};
use std::sync::atomic::{AtomicU64, Ordering};

/// The most that a count of bytes says. A greater number stands for a count below zero.
const ANY: u64 = u64::MAX / 2;

/// What may still be granted.
#[derive(Drop)]
struct Allowed {
    /// How many allocations come before the one that is refused.
    growths: AtomicU64,
    /// How many bytes may be held beyond those that are.
    bytes: AtomicU64,
}

/// Passes each allocation on to another allocator, except for one, and for allocations of more bytes than are
/// left. Use a `&` to it as the allocator.
pub struct Refusing<B: Allocator> {
    inner: B,
    allowed: Allowed,
}

impl<B: Allocator> Refusing<B> {
    /// Grants `left` allocations, refuses the next one, and grants all others, of any number of bytes.
    pub fn new(inner: B, left: u64) -> Refusing<B> {
        Refusing {
            inner,
            allowed: Allowed {
                growths: AtomicU64::new(left),
                bytes: AtomicU64::new(ANY),
            },
        }
    }

    /// The same from now on: grants `left` allocations, refuses the next one, and grants all others.
    pub fn refuse_after(&self, left: u64) {
        self.allowed.growths.store(left, Ordering::SeqCst);
    }

    /// From now on grants only allocations with which at most `bytes` more bytes are held at one time. A
    /// allocation that the inner allocator refuses counts as held, and so does one that is being refused.
    pub fn leave(&self, bytes: u64) {
        self.allowed.bytes.store(bytes, Ordering::SeqCst);
    }

    /// Whether the allocation that is refused has been asked for.
    pub fn has_refused(&self) -> bool {
        self.allowed.growths.load(Ordering::SeqCst) > u64::MAX / 2
    }
}

impl<B: Allocator> Drop for Refusing<B> {
    fn drop(self) {
        let Self {
            inner: _,
            allowed: _,
        } = self;
    }
}

/// Whether the next allocation, of this many bytes, is refused. If not, they are held.
fn refuses(allowed: &Allowed, size: usize) -> bool {
    let growths = allowed.growths.fetch_sub(1, Ordering::SeqCst);
    let bytes = allowed.bytes.fetch_sub(size as u64, Ordering::SeqCst);
    let refused = growths == 0 || bytes.wrapping_sub(size as u64) > ANY;
    if refused {
        give_back(allowed, size);
    }
    refused
}

/// This many bytes aren't held any more.
fn give_back(allowed: &Allowed, size: usize) {
    allowed.bytes.fetch_add(size as u64, Ordering::SeqCst);
}

unsafe impl<B: Allocator> Allocator for Refusing<B> {
    ghost dealloc_token = { λ heap ty ptr. B.dealloc_token heap.inner ty ptr };

    fn allocate(&self, size: usize, align: usize) -> Result<*mut u8, AllocError> {
        if refuses(&self.allowed, size) {
            return Err(AllocError);
        }
        self.inner.allocate(size, align)
    }

    unsafe fn deallocate(&self, ptr: *mut u8, size: usize, align: usize) {
        give_back(&self.allowed, size);
        self.inner.deallocate(ptr, size, align);
    }
}
