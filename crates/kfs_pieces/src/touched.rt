//! Runs of blocks that a piece writes. The prover wants the type in a file of its own: its ghost fields
//! import all that the file names, and the definitions of pieces name the type.
ghost use Rattle.std.specs.Prelude.{◌≤◌, ◌^◌};

/// Blocks of a file, from `first` to `last`, both included, as the definitions have them. None is empty.
#[derive(Clone, Copy)]
pub(crate) struct Touched {
    pub first: u64,
    pub last: u64,
    ghost order: { first ≤ last },
    ghost small: { last ≤ 2 ^ 20 },
}
