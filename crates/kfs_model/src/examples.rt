//! Worked examples of the definitions: logs, plans, leases and landings with literal values. Each is the
//! contract of a function that does nothing, proved by computing. The examples of the program's engine use
//! these values. Begin with `files.rt`. The clients and their leases are in `specs/Examples/Example.antt`.
pub mod access;
pub mod files;
pub mod leases;
pub mod migration;
pub mod names;
pub mod placement;
pub mod regroup;
pub mod spellings;
pub mod sticky;
