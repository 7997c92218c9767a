//! The canonical encoding of states.

ghost use Rattle.std.specs.Prelude.{◌≡◌, List, [], ◌∷◌, ◌++◌, replicate, true, false};
ghost use Rattle.kfs_model.specs.Device.RawImage.{image_of, placement_of};
ghost use Rattle.kfs_model.specs.Device.ShownTree.{shown_tree};
ghost use Rattle.kfs_model.specs.Device.Canonical.{block_of, joined_extents, AreJoined, extents_of, canonical_rows, image_bytes};
ghost use Rattle.kfs_model.specs.Device.Example.{sizes, root_alone, in_version_1, extent, letters, root_bytes, short, block_at, in_two_extents, in_two_blocks, in_one_extent, names_across};

/// An image of version 1 is encoded in version 2: one byte differs.
#[tactic(auto, unfolding(crate::specs::Device::Example::computing))]
pub fn always_version_2()
    ensures first { image_bytes (image_of (in_version_1 (root_alone 511))) ≡ root_bytes 2 1 255 }
    ensures second { image_bytes (image_of (root_alone 511)) ≡ root_bytes 2 1 255 }
{}

/// Bytes past the file's end are zero; a block that the file fills has none.
pub fn bytes_of_a_block()
    ensures last { block_of (1 ∷ 2 ∷ []) 0 ≡ 1 ∷ 2 ∷ replicate 4094 0 }
    ensures second { block_of (letters 1 ++ 7 ∷ []) 1 ≡ 7 ∷ replicate 4095 0 }
    ensures full { block_of (letters 1 ++ 7 ∷ []) 0 ≡ letters 1 }
{}

/// Blocks next to each other at places next to each other are one extent. They aren't where the next one
/// is of another file, lies behind a hole, on another tier, before it or at a distance.
#[tactic(auto, unfolding(crate::specs::Device::Example::computing))]
pub fn extents_that_go_on()
    ensures three { joined_extents (short 5 0 0 2 1 ∷ short 5 1 0 3 2 ∷ short 5 2 0 4 3 ∷ []) ≡ extent 5 0 0 2 3 (1 ∷ 2 ∷ 3 ∷ []) ∷ [] }
    ensures other_file { joined_extents (short 5 0 0 2 1 ∷ short 7 1 0 3 2 ∷ []) ≡ short 5 0 0 2 1 ∷ short 7 1 0 3 2 ∷ [] }
    ensures hole { joined_extents (short 5 0 0 2 1 ∷ short 5 2 0 3 2 ∷ []) ≡ short 5 0 0 2 1 ∷ short 5 2 0 3 2 ∷ [] }
    ensures other_tier { joined_extents (short 5 0 0 2 1 ∷ short 5 1 1 3 2 ∷ []) ≡ short 5 0 0 2 1 ∷ short 5 1 1 3 2 ∷ [] }
    ensures before { joined_extents (short 5 0 0 2 1 ∷ short 5 1 0 1 2 ∷ []) ≡ short 5 0 0 2 1 ∷ short 5 1 0 1 2 ∷ [] }
    ensures distance { joined_extents (short 5 0 0 2 1 ∷ short 5 1 0 4 2 ∷ []) ≡ short 5 0 0 2 1 ∷ short 5 1 0 4 2 ∷ [] }
    ensures apart { AreJoined (short 5 0 0 2 1 ∷ short 5 1 0 3 2 ∷ []) → ⊥ }
{}

/// An image whose extents go on is encoded with one extent, and bytes past the file's size are zero. Names ascend by directory and name, whatever they lead to.
#[tactic(auto, unfolding(crate::specs::Device::Example::computing))]
pub fn rows_of_a_state()
    ensures joined { extents_of in_two_blocks (placement_of in_two_extents) ≡ in_one_extent.extents }
    ensures names { canonical_rows sizes (shown_tree (image_of names_across)) (placement_of names_across) ≡ names_across }
{}
