//! Update logs and digest plans ("Strata", SOSP 2017), as values and as bytes.
//!
//! It stands on `kfs_types` (the values); the judge and the plan checker stand on it. Begin with
//! `decode_log` and `encode_log`; `codec` has the fields and rows. docs/FORMATS.md has the formats.
#![tactic(auto)]

#[doc(hidden)]
pub mod codec;
mod decoding;
mod encoding;
mod fault;

#[doc(hidden)]
pub use codec::{ReadRow, RowsFault, SpelledRow, read_rows};
pub use decoding::{
    borrowed_log, borrowed_plan, decode_borrowed_log, decode_borrowed_plan, decode_log,
    decode_plan, kept_log, kept_plan, owned_plan,
};
pub use encoding::{encode_log, encode_plan};
pub use fault::SpellFault;
pub use kfs_types::{
    BorrowedEntry, BorrowedName, BorrowedRow, ENTRY_LIMIT, Entry, GREATEST_MODE,
    GREATEST_MODE_OF_VERSION_1, Header, KeptName, Kind, LATEST_VERSION, Log, Name, NameRow,
    NodeRow, PAYLOAD_LIMIT, Piece, Plan, RowList, Source, Span,
};
