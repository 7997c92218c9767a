//! Calls of a desk, as values.

use kfs_lease::LeaseKind;
use kfs_types::{Move, RowList};
use std::alloc::Allocator;

/// A call of a desk, with its arguments. Logs, plans and paths are read where they lie.
#[derive(Drop)]
pub enum Call<'a, A: Allocator> {
    /// A client hands in a log and a plan: `Desk::submit_bytes`.
    Submit {
        client: u32,
        log: &'a [u8],
        plan: &'a [u8],
    },
    /// A client asks for a lease on the node at the path, up to the moment `end`: `Desk::lease`.
    Lease {
        client: u32,
        kind: LeaseKind,
        end: u64,
        path: &'a [u8],
    },
    /// A client gives up its lease on the node with this number: `Desk::drop_lease`.
    Drop {
        client: u32,
        number: u32,
    },
    /// The moment goes on to this one: `Desk::tick`.
    Tick {
        moment: u64,
    },
    /// Blocks of files move: `Desk::migrate`.
    Migrate {
        moves: RowList<Move, A>,
    },
    /// A client asks for a lease on the node with this number, up to the moment `end`:
    /// `Desk::lease_at`.
    LeaseAt {
        client: u32,
        kind: LeaseKind,
        end: u64,
        number: u32,
    },
}
