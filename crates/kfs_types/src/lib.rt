//! The values that several layers name: names, headers, entries, plan rows, moves of blocks, limits and
//! tier sizes.
//!
//! It stands on the definitions of `kfs_model`. Nearly all other crates use its types. Begin with
//! `entry.rt` (logs) and `plan.rt` (plans).
#![tactic(auto)]

mod borrowed_name;
mod change;
mod entry;
mod forms;
mod kept_name;
mod limits;
mod moves;
mod name;
mod plan;
mod rows;
mod sought_name;

pub use borrowed_name::BorrowedName;
pub use change::{Change, Nothing};
pub use entry::{BorrowedEntry, Entry, Header, KeptEntry, Kind, Log, Span};
pub use forms::{borrowed_entries, borrowed_rows, kept_entries, kept_rows, owned_rows};
pub use kept_name::KeptName;
pub use limits::{
    BLOCK_LEN, BLOCK_SIZE, CLIMB_LIMIT, ENTRY_LIMIT, GREATEST_MODE, GREATEST_MODE_OF_VERSION_1,
    GREATEST_NUMBER, LATEST_VERSION, LINK_LIMIT, PAYLOAD_LIMIT, ROOT, SIZE_LIMIT, TIER_LIMIT,
    TierSizes,
};
pub use moves::{Move, MoveFault};
pub use name::Name;
pub use plan::{BorrowedRow, KeptRow, NameRow, NodeRow, Piece, Plan, Source};
pub use rows::RowList;
pub use sought_name::SoughtName;
