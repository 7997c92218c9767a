//! Tests of the public surface: each public name is brought in, and the words of the faults, and their lines. Begin
//! with `names.rt`.
mod names;
mod words;
