//! The checker that lets images in, and images made of raw ones. What it finds in small images, and what an image shows that
//! was let in, is in the scripts of `kfs_rows`.

mod many;
pub mod refused;
mod shown;
