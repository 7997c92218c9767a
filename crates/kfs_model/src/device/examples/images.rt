//! Well formed images, the trees that they show, and their free runs.

ghost use Rattle.std.specs.Prelude.{◌≡◌, List, [], ◌∷◌, ◌++◌, replicate};
ghost use Rattle.kfs_model.specs.Table.{empty};
ghost use Rattle.kfs_model.specs.Device.ShownTree.{file_byte, file_bytes, shown_tree};
ghost use Rattle.kfs_model.specs.Device.FreeRuns.{free_runs};
ghost use Rattle.kfs_model.specs.Device.RawImage.{image_of, placement_of, devices_of};
ghost use Rattle.kfs_model.specs.Device.Finding.{IsWellFormed};
ghost use Rattle.kfs_model.specs.Device.Example.{sizes, root_alone, in_version_1, two_files, block_at, extent, letters, with_hole, two_blocks, shown_file, run, one_place};

/// A file whose first block isn't mapped begins with zero bytes. Bytes of its last block past its size
/// aren't shown.
#[tactic(auto, unfolding(crate::specs::Device::Example::computing))]
pub fn file_with_a_hole()
    ensures well_formed { IsWellFormed with_hole }
    ensures shown { shown_tree (image_of with_hole) ≡ shown_file (replicate 4096 0 ++ 120 ∷ 120 ∷ []) }
    ensures free { free_runs sizes (placement_of with_hole) 0 ≡ run 0 2 ∷ run 3 5 ∷ [] }
    ensures other_tier { free_runs sizes (placement_of with_hole) 1 ≡ run 0 8 ∷ [] }
    ensures no_tier { free_runs sizes (placement_of with_hole) 3 ≡ [] }
{}

/// A mapped block that was never written has zero bytes. A written block that isn't mapped isn't shown.
#[tactic(auto, unfolding(crate::specs::Device::Example::computing))]
pub fn block_never_written()
    ensures never { file_bytes one_place empty 5 3 ≡ 0 ∷ 0 ∷ 0 ∷ [] }
    ensures elsewhere { file_bytes one_place (devices_of with_hole) 5 3 ≡ 0 ∷ 0 ∷ 0 ∷ [] }
{}

/// An extent of two blocks at the end of a tier: each block has its own bytes. And images with the root
/// alone, of which one has the greatest mode, and one the greatest of version 1.
#[tactic(auto, unfolding(crate::specs::Device::Example::computing))]
pub fn blocks_side_by_side()
    ensures well_formed { IsWellFormed two_blocks }
    ensures of_the_first { file_byte (placement_of two_blocks) (devices_of two_blocks) 5 4095 ≡ 120 }
    ensures of_the_second { file_byte (placement_of two_blocks) (devices_of two_blocks) 5 4096 ≡ 121 }
    ensures free { free_runs sizes (placement_of two_blocks) 2 ≡ run 0 6 ∷ [] }
    ensures root_alone { IsWellFormed (root_alone 511) }
    ensures greatest_mode { IsWellFormed (root_alone 1023) }
    ensures greatest_mode_of_version_1 { IsWellFormed (in_version_1 (root_alone 511)) }
{}

/// Blocks of two files may lie at places with the same number on two tiers, or next to each other on
/// one.
#[tactic(auto, unfolding(crate::specs::Device::Example::computing))]
pub fn blocks_apart()
    ensures two_tiers { IsWellFormed (two_files 4 4 (block_at 5 0 3 ∷ extent 7 0 1 3 1 (letters 1) ∷ [])) }
    ensures side_by_side { IsWellFormed (two_files 4 4 (block_at 5 0 3 ∷ block_at 7 0 2 ∷ [])) }
{}
