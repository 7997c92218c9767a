//! Clients, and what the permission bits of a node grant them (POSIX.1-2017, XBD 4.5).
//!
//! It stands on `kfs_types` and `arrayvec`; leases, judge and desk stand on it. Begin with `Client::new`
//! and `may`.
#![tactic(auto)]

mod access;
#[doc(hidden)]
pub mod access_examples;
mod class;
mod client;

pub use access::{Access, AccessFault, permission};
pub use class::{Class, Want, class_of, may};
pub use client::{Client, ClientFault, GROUP_LIMIT, find_client};
