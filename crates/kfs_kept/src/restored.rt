//! A desk from the bytes of a state, with the order of names tested in several threads.
//!
//! `kfs_call_desk` has what one thread does, so that what mustn't start threads can stand on that alone, as `kfs_c` does.
//! `laws` has what holds of states that are saved and restored: it stands on the lemmas of `kfs_fsck` on saved images.
#[doc(hidden)]
pub mod laws;
mod restoring;

pub use self::restoring::restore;
