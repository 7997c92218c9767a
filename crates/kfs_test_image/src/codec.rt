//! Logs and plans as bytes: what they decode to, what they encode to, and the answers without memory.

mod decoded;
mod memory;
