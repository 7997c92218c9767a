//! How many workers there are, and lists with a place for each.
ghost use Rattle.std.specs.Prelude.{◌≡◌, IfOk, None, replicate};

use std::alloc::{AllocError, Allocator};

/// How many workers a script and a session have, and a batch at most.
pub const WORKERS: usize = 8;

/// A list of `count` empty places. `Err` where memory runs out.
pub fn none_of<T: Drop, A: Allocator>(
    alloc: A,
    count: usize,
) -> Result<Vec<Option<T>, A>, AllocError>
    ensures { IfOk result (λ list. list.items ≡ replicate count None) }
{
    let mut list = Vec::new(alloc);
    for _ in 0..count {
        list.push(None)?;
    }
    Ok(list)
}
