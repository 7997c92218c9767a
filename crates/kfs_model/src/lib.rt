//! The definitions that every contract of the digest desk speaks of, and the laws that hold of them.
//! They are for contracts alone: no code here runs.
//!
//! It stands on no other crate of ours, and all others stand on it. Begin with `specs/Tree.antt` (nodes
//! and names), `specs/Run.antt` (what a log does) and `specs/Machine.antt` (what a call of the desk
//! does). `laws.rt` lists what was proved of the definitions themselves. `device` has images over blocks,
//! `canonical` the laws of their one encoding, and `examples` worked examples.
#![tactic(auto)]

pub mod canonical;
pub mod device;
pub mod examples;
pub mod laws;
mod list;

pub use list::GhostList;
