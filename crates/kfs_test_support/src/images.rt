//! Raw images that tests share: small ones row by row, rows that break each rule, and images with as many
//! nodes as there may be. Begin with `small.rt`.
pub mod broken;
pub mod many;
pub mod small;
