//! Moves of blocks to other places: which are refused, and where the blocks lie afterwards. File 5 has a
//! block at place 0 of tier 0, and file 6 one at place 1.

ghost use Rattle.std.specs.Prelude.{◌≡◌, [], ◌∷◌, Some, None};
ghost use Rattle.kfs_model.specs.Machine.{Done, MovesRefused, NotDone, next};
ghost use Rattle.kfs_model.specs.Migration.{NotMapped, OutOfRange, NotFree, Overlap, TooManyMoves, moved_by};
ghost use Rattle.kfs_model.specs.Examples.Example.MigrationCases.{place, two_at, side_by_side, move_to, fault_found, same_move, with_blocks, moves_row};

/// A move is refused if its block lies nowhere, or if its target doesn't exist or is in use.
#[tactic(auto, unfolding(crate::specs::Examples::Example::computing))]
pub fn move_refused()
    ensures not_mapped { fault_found (move_to 5 1 (place 2 3) ∷ []) ≡ Some (NotMapped 0) }
    ensures no_place { fault_found (move_to 5 0 (place 2 8) ∷ []) ≡ Some (OutOfRange 0) }
    ensures no_tier { fault_found (move_to 5 0 (place 3 0) ∷ []) ≡ Some (OutOfRange 0) }
    ensures not_free { fault_found (move_to 5 0 (place 0 1) ∷ []) ≡ Some (NotFree 0) }
    ensures own_place { fault_found (move_to 5 0 (place 0 0) ∷ []) ≡ Some (NotFree 0) }
{}

/// Two moves of one block overlap, and so do two moves to one place. A place that an earlier move leaves
/// isn't free yet.
#[tactic(auto, unfolding(crate::specs::Examples::Example::computing))]
pub fn moves_refused_together()
    ensures same_target { fault_found (move_to 5 0 (place 2 3) ∷ move_to 6 0 (place 2 3) ∷ []) ≡ Some (Overlap 1) }
    ensures same_source { fault_found (move_to 5 0 (place 2 3) ∷ move_to 5 0 (place 2 4) ∷ []) ≡ Some (Overlap 1) }
    ensures left_place { fault_found (move_to 5 0 (place 2 3) ∷ move_to 6 0 (place 0 0) ∷ []) ≡ Some (NotFree 1) }
    ensures least { fault_found (move_to 5 0 (place 2 3) ∷ move_to 5 0 (place 2 8) ∷ move_to 7 0 (place 2 3) ∷ []) ≡ Some (OutOfRange 1) }
    ensures too_many { fault_found (same_move 1025) ≡ Some TooManyMoves }
{}

/// Each block that moves lies at its target then, on another tier or on the same one.
#[tactic(auto, unfolding(crate::specs::Examples::Example::computing, crate::specs::Migration::moved_by))]
pub fn blocks_moved()
    ensures none { fault_found [] ≡ None }
    ensures alone { fault_found (move_to 5 0 (place 2 3) ∷ []) ≡ None }
    ensures one { moved_by (move_to 5 0 (place 2 3) ∷ []) side_by_side ≡ two_at (place 2 3) (place 0 1) }
    ensures together { fault_found (move_to 6 0 (place 0 7) ∷ move_to 5 0 (place 1 7) ∷ []) ≡ None }
    ensures both { moved_by (move_to 6 0 (place 0 7) ∷ move_to 5 0 (place 1 7) ∷ []) side_by_side ≡ two_at (place 1 7) (place 0 7) }
{}

/// As a call of the desk, moves without a fault are answered with their number, and change the state in
/// where blocks lie alone. Moves with a fault change nothing.
#[tactic(auto, unfolding(crate::specs::Examples::Example::computing, crate::specs::Migration::moved_by))]
pub fn moves_as_a_call()
    ensures moved { next (with_blocks side_by_side) (moves_row (move_to 5 0 (place 2 3) ∷ []) (Done 1)) ≡ Some (with_blocks (two_at (place 2 3) (place 0 1))) }
    ensures other_answer { next (with_blocks side_by_side) (moves_row (move_to 5 0 (place 2 3) ∷ []) (Done 0)) ≡ None }
    ensures refused { next (with_blocks side_by_side) (moves_row (move_to 5 0 (place 0 1) ∷ []) (NotDone (MovesRefused (NotFree 0)))) ≡ Some (with_blocks side_by_side) }
{}
