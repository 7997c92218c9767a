//! Tests of a desk that threads share, and of batches. They start threads, and find the same in whatever order
//! these run. Begin with `rows.rt`, and with `batches.rt`; `side.rt` shows how threads are started over a shared
//! desk. Each call is in a small function that says no more than whose the pass is.
mod batch;
mod batches;
mod callers;
mod calls;
mod files;
mod gates;
mod refusals;
mod rows;
mod scarce;
mod setting;
mod side;
mod together;
