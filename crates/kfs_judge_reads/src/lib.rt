//! What a judgement reads of a view, and what the entries of its log have changed so far.
//!
//! It stands on `kfs_image_nodes` and `kfs_lease`; `kfs_judge` stands on it. Begin with `view.rt`, then
//! `reads.rt` (`Recorder`), then `draft` (what the log has changed).
#![tactic(auto)]

mod climbs;
mod draft;
mod kept_read;
mod looks;
mod reads;
mod record;
mod view;

pub use climbs::Way;
pub use draft::{Draft, Few, NameKey, linked, unlinked};
pub use kept_read::KeptRead;
pub use reads::{Read, ReadAnswer, Recorder};
pub use record::{Keeping, KeptReads, Reads};
pub use view::View;
