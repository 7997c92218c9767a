//! Entering the entries of a log one after another: each one's checks, in order, and then its change.
//! Begin with `LogJudge::enter`. Each entry has a file of its own.
mod check;
mod chmod;
mod create;
mod link;
mod log_judge;
mod net;
mod regroup;
mod rename;
mod truncate;
mod unlink;
mod write;

pub use self::log_judge::LogJudge;
