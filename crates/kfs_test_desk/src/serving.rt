//! The desk as a server uses it: a server in thirty lines, and examples of public types.

mod examples;
pub mod planned;
mod serving;
