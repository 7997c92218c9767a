//! The docket: its length is kept in memory, its rows are visible to contracts alone. Begin with
//! `docket.rt`.
pub mod answers;
mod docket;

pub use self::docket::{Docket, OneRow, RowRule};
