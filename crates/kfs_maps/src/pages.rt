//! A map from the numbers 1 to 65,536 to values, in pages that copies share. The image keeps headers
//! and directories' counts in such maps.
//!
//! Begin with `Pages`. `change.rt` shows how several maps are changed together or not at all.
mod change;
mod page;
mod pages;

pub use self::change::{EditPages, NumberEdit};
pub use self::page::Page;
pub use self::pages::Pages;
