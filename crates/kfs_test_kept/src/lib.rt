//! Tests of kept desks: three groups of calls and a checkpoint in steps with a group in it, with a crash at each moment of them; the first
//! allocation of each call refused; when a checkpoint is due; and lists of clients that are taken or not. Those of the journal, and
//! of its files, are in `journal`. In `surface` are those of the public surface of all crates.
//!
//! It stands on `kfs_kept`, `kfs_journal`, `kfs_journal_files`, `kfs_call_desk` and `kfs_test_support`, and `surface` on the public crates. A test is proved too, and
//! would have to carry the clauses of each call that it makes. So the calls of `kfs_kept` are methods of `Keeper`, which say no
//! more than that the desk is kept. Begin with `keeping.rt`. Each moment and each allocation of longer runs is tried by
//! `tools/kept-crashes` and `tools/kept-memory`.
#![tactic(auto)]

#[cfg(test)]
mod admitting;
#[cfg(test)]
mod crashes;
#[cfg(test)]
mod due;
#[cfg(test)]
mod early;
#[cfg(test)]
mod journal;
#[cfg(test)]
mod keeping;
#[cfg(test)]
mod memory;
#[cfg(test)]
mod surface;
