//! Frames served by a kept desk, group by group. Begin with `serve`.
mod calling;
mod fault;
mod group;
mod looking;
mod merging;
mod onward;
mod renewal;
mod room;
mod running;
mod session;

pub use self::fault::{GroupFault, RunFault, ServeFault};
pub use self::running::{exit_status, run_admitting, run_new, run_opened};
pub use self::session::serve;
