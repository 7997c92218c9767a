//! Leases of one client alone, made for a log.
ghost use Rattle.std.specs.Prelude.{◌≡◌, IfOk, OnOk};
ghost use Rattle.kfs_lease.specs.Writer.{leases_of_writer, with_write};
ghost use Rattle.kfs_lease.specs.Rows.Rows.{table_in, IndexesAreExact};

use crate::leases::Leases;
use crate::rows::{Lease, LeaseKind, LeaseRows};
use std::alloc::{AllocError, Allocator};

impl<A: Allocator + Copy> Leases<A> {
    /// The leases of one client alone, at moment 0: one for writing on each of these nodes, which ends
    /// at moment 1. A number may stand there twice, and needn't be a node's. `Err` where memory is
    /// refused.
    #[doc(hidden)]
    pub fn of_writer(alloc: A, client: u32, numbers: &[u32]) -> Result<Leases<A>, AllocError>
        ensures { IfOk result (λ leases. leases ≡ leases_of_writer client numbers.now) }
    {
        let mut rows = LeaseRows::empty(alloc);
        for number in numbers {
            add_write(&mut rows, client, *number)?;
        }
        Ok(Leases { rows, moment: 0 })
    }
}

/// Gives the client a lease for writing on the node, which ends at moment 1, where it has none there.
fn add_write<A: Allocator + Copy>(
    rows: &mut LeaseRows<A>,
    client: u32,
    number: u32,
) -> Result<(), AllocError>
    requires indexed { IndexesAreExact rows.old }
    ensures indexed { IndexesAreExact rows.new }
    ensures table { OnOk result (table_in rows.new ≡ with_write (table_in rows.old) client number) }
{
    if rows.lease(client, number).is_some() {
        return Ok(());
    }
    let lease = Lease {
        kind: LeaseKind::Write,
        end: 1,
    };
    rows.put(client, number, None, lease)
}
