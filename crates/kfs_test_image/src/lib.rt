//! Tests of what is below the desk: logs, plans and images as bytes, permission bits, the check of raw images, and edits of an
//! image. The expected values come from docs/FORMATS.md, docs/DEFINITIONS.md, docs/DECISIONS.md and the examples of
//! `kfs_model`, never from the program's own output. The scripts of `kfs_rows` show what a landing does to blocks.
//! `fsck` has the checker that lets images in, and images made of raw ones. `shared` has desks that threads share.
//!
//! It stands on `kfs_fsck`, `kfs_shared` and `kfs_test_support`. Begin with `codec.rt`, of edits with `edits.rt`, and of threads
//! with `shared.rt`.
//!
//! A test is proved too, and would have to carry the clauses of each call that it makes. So each call
//! is in a small function without clauses, which a test then makes for each row of a table. Whether an edit can be made is
//! found out as the test runs (`fits`).
#![tactic(auto)]

#[cfg(test)]
mod access;
#[cfg(test)]
mod chains;
#[cfg(test)]
mod codec;
#[cfg(test)]
mod edits;
#[cfg(test)]
mod encode;
#[cfg(test)]
mod filled;
#[cfg(test)]
mod fits;
#[cfg(test)]
mod fsck;
#[cfg(test)]
mod image_bytes;
#[cfg(test)]
mod landed;
#[cfg(test)]
mod modes;
#[cfg(test)]
mod refused;
#[cfg(test)]
mod rules;
#[cfg(test)]
mod shared;
#[cfg(test)]
mod spares;
