//! Worked examples of images. Each is the contract of a function that does nothing, proved by
//! computing. The images are in `specs/Example.antt`.

pub mod canonical;
pub mod findings;
pub mod images;
pub mod spellings;
