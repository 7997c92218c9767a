//! The fields and rows of logs and plans: how each is read from bytes and written as bytes.
//!
//! A module for a field has three functions. `read` answers the value at a position of the source, and
//! the position after it, or none where no such field stands there. `write` appends the value's bytes,
//! and `len` counts them. The source is the bytes that spans point into. Numbers are big-endian.
//!
//! Begin with `table.rt`, which lists the entries, and `row.rt`.
pub mod byte;
pub mod bytes;
mod entry;
mod group;
mod header;
pub mod headers;
pub mod kind;
mod mode;
pub mod name;
mod name_row;
mod node_row;
pub mod number16;
pub mod number32;
pub mod number64;
mod payload;
mod piece;
mod row;
mod table;

pub use self::row::{ReadRow, RowsFault, SpelledRow, read_rows, rows_len, write_rows};
