//! Test scripts with the replies that are expected, read from files and compared. Begin with `case.rt`.
mod case;
mod fault;
mod script;

pub use self::case::{Case, script_names};
pub use self::fault::ScriptFault;
pub use self::script::Script;
