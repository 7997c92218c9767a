//! Tests of images as bytes: the one allocation that they take. Begin with `fresh.rt`.
#[cfg(test)]
mod fresh;
