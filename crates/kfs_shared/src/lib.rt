//! A desk that threads share: each holds a pass, and their calls take turns with the desk. And batches:
//! submissions that up to eight workers judge and land, each in a thread of its own.
//!
//! A call waits at the door while enough tickets are out. It draws a ticket and waits until that is
//! served. Then it takes the desk out of the table, makes one call of the desk, puts it back, and passes
//! the turn on. Views are judged with no turn held.
//!
//! It stands on `kfs_desk`; `kfs_workers` shows it. Begin with `Shared::land` in `land.rt`, then
//! `seats.rt`, which has the steps of a turn, and `door.rt`, which says who sleeps and who wakes. `turns` has the rule that each step keeps, `crew` the
//! workers, and `batch` the batches.
#![tactic(auto)]

mod act;
mod batch;
mod crew;
mod desk;
mod docketed;
mod door;
mod land;
mod landings;
mod pass;
mod plays;
mod rule;
mod seats;
mod shared;
mod turn;
mod turns;
mod view;
mod want;

pub use batch::{BatchBack, BatchEnd, Gate, Left, run_batch};
pub use desk::{Begun, DocketRow};
pub use docketed::Docketed;
pub use landings::Landing;
pub use pass::{Pass, Shared};
pub use want::{SharedBack, SharedWant, Unreturned};
