//! Leases of clients on nodes ("Strata", SOSP 2017), and the paths by which clients ask for them.
//!
//! It stands on `kfs_mode` and `kfs_image_nodes`; judge and desk stand on it. Begin with `Leases::new`,
//! `Leases::grant` and `Leases::grant_at`; `rows` has the table.
#![tactic(auto)]

mod act;
#[doc(hidden)]
pub mod laws;
mod leases;
mod path;
mod rows;

pub use act::Act;
pub use leases::{LeaseFault, LeaseRow, LeaseRowFault, Leases};
pub use rows::LeaseKind;
