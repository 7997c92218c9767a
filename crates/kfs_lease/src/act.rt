//! The calls for leases, as values.

use crate::rows::LeaseKind;

/// A call for the desk's leases, with its arguments.
#[derive(Clone, Copy)]
pub enum Act<'a> {
    /// The client asks for a lease on the node at the path. `end` is the moment at which the lease
    /// ends.
    Lease {
        client: u32,
        path: &'a [u8],
        kind: LeaseKind,
        end: u64,
    },
    /// The client gives up its lease on the node with this number.
    Drop {
        client: u32,
        number: u32,
    },
    /// The client asks for a lease on the node with this number, without a path. `end` is the moment at
    /// which the lease ends.
    LeaseAt {
        client: u32,
        number: u32,
        kind: LeaseKind,
        end: u64,
    },
    /// The moment goes on to this one.
    Tick {
        moment: u64,
    },
}
