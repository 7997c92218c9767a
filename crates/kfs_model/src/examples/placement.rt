//! Where the blocks of files lie after a landing, and how many places it needs.

ghost use Rattle.std.specs.Prelude.{◌≡◌, List, [], ◌∷◌, Some, None};
ghost use Rattle.kfs_model.specs.Judgement.{Accepted, NoRoom, free_places};
ghost use Rattle.kfs_model.specs.Check.{NoLease};
ghost use Rattle.kfs_model.specs.Machine.{after, next};
ghost use Rattle.kfs_model.specs.Examples.Example.{no_plan, refused_at};
ghost use Rattle.kfs_model.specs.Examples.Example.FileCases.{write_x};
ghost use Rattle.kfs_model.specs.Examples.Example.PlacementCases.{at_10, held_to_10, tick_10, row, one_block, write_5, written_5, rewrite_6, rewritten_6, write_both, written_both, narrow, two_blocks_long, one_block_long, cut, lettered, clear, cleared, unlink_a, without_a};

/// Each written block lies at a free place of tier 0 that was chosen for it, one place a block. Place 2
/// holds a block of another file, and tier 0 ends before place 8.
#[tactic(auto, unfolding(crate::specs::Examples::Example::computing))]
pub fn block_written()
    ensures chosen { next one_block (write_5 (3 ∷ [])) ≡ Some written_5 }
    ensures not_free { next one_block (write_5 (2 ∷ [])) ≡ None }
    ensures past_the_tier { next one_block (write_5 (8 ∷ [])) ≡ None }
    ensures too_few { next one_block (write_5 []) ≡ None }
    ensures too_many { next one_block (write_5 (3 ∷ 4 ∷ [])) ≡ None }
{}

/// A rewritten block goes to a new place. Its old place is free only after the landing, so the new one
/// can't be the old one.
#[tactic(auto, unfolding(crate::specs::Examples::Example::computing))]
pub fn block_rewritten()
    ensures not_in_place { next one_block (rewrite_6 (2 ∷ [])) ≡ None }
    ensures elsewhere { next one_block (rewrite_6 (0 ∷ [])) ≡ Some rewritten_6 }
    ensures free_before { free_places one_block ≡ 0 ∷ 1 ∷ 3 ∷ 4 ∷ 5 ∷ 6 ∷ 7 ∷ [] }
    ensures free_after { free_places rewritten_6 ≡ 1 ∷ 2 ∷ 3 ∷ 4 ∷ 5 ∷ 6 ∷ 7 ∷ [] }
{}

/// Two written blocks lie at two places, in the blocks' order.
#[tactic(auto, unfolding(crate::specs::Examples::Example::computing))]
pub fn two_blocks_written()
    ensures apart { next one_block (write_both (Accepted 2) (3 ∷ 0 ∷ [])) ≡ Some written_both }
    ensures same_place { next one_block (write_both (Accepted 2) (3 ∷ 3 ∷ [])) ≡ None }
{}

/// A landing that writes two blocks needs two free places, though one block was there before. With one
/// free place there is no room, and nothing changes.
#[tactic(auto, unfolding(crate::specs::Examples::Example::computing))]
pub fn no_room_for_two()
    ensures no_room { next narrow (write_both (NoRoom 2 1) []) ≡ Some narrow }
    ensures other_answer { next narrow (write_both (Accepted 2) (0 ∷ [])) ≡ None }
{}

/// A file of 5,000 bytes that is cut to 4,096 loses its second block, and no block is written.
#[tactic(auto, unfolding(crate::specs::Examples::Example::computing))]
pub fn file_cut_to_a_block()
    ensures { next (two_blocks_long 5000) (cut 4096 []) ≡ Some (one_block_long 4096) }
{}

/// A block that becomes all zero is no longer mapped, and needs no room.
#[tactic(auto, unfolding(crate::specs::Examples::Example::computing))]
pub fn block_cleared()
    ensures { next lettered clear ≡ Some cleared }
{}

/// When a file is removed, its blocks and the leases on it are removed too.
#[tactic(auto, unfolding(crate::specs::Examples::Example::computing))]
pub fn file_that_goes()
    ensures { next lettered unlink_a ≡ Some without_a }
{}

/// A lease that has ended by the time of the landing doesn't count, though it was live when the log was
/// judged. The tick and the refusal are the docket.
#[tactic(auto, unfolding(crate::specs::Examples::Example::computing, crate::specs::Machine::after))]
pub fn lease_that_ended()
    ensures docket { after held_to_10 (tick_10 ∷ row (write_x 5) no_plan (refused_at 0 (NoLease 5)) [] ∷ []) ≡ Some at_10 }
    ensures before { next held_to_10 (row (write_x 5) no_plan (refused_at 0 (NoLease 5)) []) ≡ None }
{}
