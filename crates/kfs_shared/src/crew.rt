//! Workers that share an object and take turns, each in a thread of its own where one can be had.
//!
//! It knows nothing of desks: what a worker does is a `Task` of its caller. Begin with `Crew::work`.
mod crew;
mod deal;
mod duty;
mod meeting;
mod task;
mod team;
mod worker;

pub use self::crew::Crew;
pub use self::task::Task;
