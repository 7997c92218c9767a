//! The nodes and names of an image, in tables that views share.
//!
//! It stands on `kfs_maps`; the image, the leases and the judge stand on it.
//! Begin with `layout.rt` (`Shape`) and `cell.rt` (what can be looked up).
#![tactic(auto)]

mod cell;
mod edits;
mod header_page;
mod layout;
mod name_edits;
mod net;
mod rows;
mod sorted_rows;
mod tallies;
mod uplink_order;

pub use cell::{Answer, Cell};
pub use edits::NodeChanges;
pub use header_page::HeaderPage;
pub use kfs_maps::{NameAt, Near, Page};
pub use kfs_types::{Header, Kind, Name, TierSizes};
pub use layout::{Shape, look};
pub use net::{LentNet, NameRows, Net, kept_net, owned_net};
pub use uplink_order::{InTurn, SortUplinks};
