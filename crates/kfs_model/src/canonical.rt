//! Laws of the one encoding of an image's state. No code here runs. Begin with `laws.rt`.
pub mod laws;
