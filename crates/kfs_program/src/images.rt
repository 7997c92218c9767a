//! Images in the lines of the program: an image's bytes as text, images that bytes decode to, and what the
//! words `fsck` and `show` write for a line. Begin with `saving.rt` and `loading.rt`.
mod loading;
mod saving;
mod showing;

pub use self::loading::load;
pub use self::saving::save_line;
pub use self::showing::{push_check, push_rows};
