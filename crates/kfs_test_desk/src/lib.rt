//! Tests of what only calls of the desk can show: leases by number, old views, scripts of workers, and calls with each
//! allocation failing in turn. What command lines can show is in the scripts of
//! `kfs_rows`. The expected values come from docs/FORMATS.md and from the examples of
//! `kfs_model`, never from the program's own output.
//! `serving` has a server in thirty lines, and an example of each public type of `kfs_judge`, `kfs_plan` and `kfs_desk`.
//! `plans` has the maker of plans, and `spelled` calls, answers and states as bytes.
//!
//! It stands on `kfs_workers`, `kfs_desk`, `kfs_plan_maker`, `kfs_call_desk` and `kfs_test_support`. Begin with
//! `desks.rt`, which has the calls.
//!
//! A test is proved too, and would have to carry the clauses of each call that it makes. So each call
//! is in a small function without clauses, which a test then makes for each row of a table. Who owns a desk has one way
//! out: the prover shows at each of them that the desk may be dropped.
#![tactic(auto)]

#[cfg(test)]
mod by_number;
#[cfg(test)]
mod desks;
#[cfg(test)]
mod early;
#[cfg(test)]
mod leases;
#[cfg(test)]
mod plans;
#[cfg(test)]
mod refused;
#[cfg(test)]
mod scripts;
#[cfg(test)]
mod serving;
#[cfg(test)]
mod spelled;
#[cfg(test)]
mod views;
