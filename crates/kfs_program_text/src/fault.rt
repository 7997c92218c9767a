//! Faults of readers and writers.

/// The reader failed.
#[derive(Clone, Copy, Debug, PartialEq, Eq)]
pub struct InputFault;

/// The writer failed, or took no byte.
#[derive(Clone, Copy, Debug, PartialEq, Eq)]
pub struct OutputFault;
