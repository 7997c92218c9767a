//! The fields of calls and answers: how each is read from bytes and written as bytes. A module for a
//! field has `read` and `write`, as those of `kfs_entry::codec`. Fields of answers are written in
//! `answer_encoding`, which takes no memory. Numbers are big-endian.
pub mod answer_tag;
pub mod client_row;
pub mod fault_row;
pub mod flag;
pub mod groups;
pub mod lease_kind;
pub mod lease_row;
pub mod long;
pub mod moved;
pub mod short;
pub mod state_header;
pub mod tag;
