//! The rows of a table of leases, found by node and client, and their ends in order. Copies share what
//! isn't changed. Begin with `rows.rt`.
mod change;
mod rows;
mod walk;

pub use self::rows::{Lease, LeaseKind, LeaseRows};
pub(crate) use self::walk::next_row;
