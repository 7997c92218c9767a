//! Definitions of images over device blocks: the tree that an image shows, the rows of a raw image, the
//! ten rules for these rows, and the laws that hold of them. No code here runs. Begin with
//! `specs/Device/ShownTree.antt`, then `specs/Device/Rules.antt`.
pub mod examples;
pub mod laws;
