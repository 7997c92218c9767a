//! Calls, answers and states as bytes, and desks that are restored from them. Each call with long clauses stands once, in
//! `outcome`, and the tests compare plain values. Begin there. Desks that go on from bytes are tested by `tools/hosts` and
//! `tools/fuzz`.

mod bytes;
mod desks;
mod encodings;
mod memory;
mod missing;
mod outcome;
