//! What a worker saw of a desk, and the verdicts that it makes of that. Scripts, threads and the
//! program's sessions stand on it, apart from one another. Begin with `DeskView`.
mod desk_view;
mod workers;

pub use self::desk_view::DeskView;
pub use self::workers::{WORKERS, none_of};
