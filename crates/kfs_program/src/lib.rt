//! The program `kfs`, over any reader and writer: the words of its command line, and its exit status.
//!
//! It stands on `kfs_desk`, `kfs_plan_maker`, and on `clap`, which no other crate reads; the
//! program `kfs` stands on it. Begin with `run_words`. The order of its folders: `images` (images in
//! lines), `verdicts` (what a session's workers hold), and `sessions` (the engine: commands in, replies out). `report` has the
//! lines of the desk's answers, each by itself; docs/FORMATS.md has the texts.
#![tactic(auto)]

mod answer;
mod images;
mod input;
mod planning;
mod report;
mod run;
#[doc(hidden)]
pub mod sessions;
mod verdicts;

pub use report::{
    LONGEST_LINE, act_line, begin_line, client_line, fault_line, finding_line, image_line,
    node_line, reply_line,
};
pub use run::{run_words, status_message};
pub use sessions::{EngineFault, LINE_LIMIT, engine};
