//! Images that break one rule, or one and a later one. The finding is the least broken rule and its
//! least number.

ghost use Rattle.std.specs.Prelude.{◌≡◌, List, [], ◌∷◌, Some, None, true, false};
ghost use Rattle.kfs_model.specs.Header.{File, Directory};
ghost use Rattle.kfs_model.specs.Examples.Example.{name_row, name_a, name_b, name_x};
ghost use Rattle.kfs_model.specs.Device.Rules.{names_fit};
ghost use Rattle.kfs_model.specs.Device.Example.{Breaks, at, raw, in_version_1, node, root, directory, file, extent, letters, block_at, one_file, two_files, shared_block, ring, root_alone};

/// Two files share a device block: the lesser number is named. If the other file's mode is out of range
/// too, that lower rule is the finding.
#[tactic(auto, unfolding(crate::specs::Device::Example::computing))]
pub fn block_in_two_files()
    ensures alone { Breaks (shared_block 420) (at 10 5) [] }
    ensures lower_rule { Breaks (shared_block 1024) (at 3 7) (at 10 5 ∷ []) }
{}

/// Node rows out of order, a number listed twice, and a number out of range.
#[tactic(auto, unfolding(crate::specs::Device::Example::computing))]
pub fn rule_1()
    ensures order { Breaks (raw (root ∷ file 7 0 ∷ file 5 0 ∷ []) (name_row 1 name_a 5 ∷ name_row 1 name_b 7 ∷ []) []) (at 1 5) [] }
    ensures twice { Breaks (raw (root ∷ file 5 0 ∷ file 5 0 ∷ []) (name_row 1 name_a 5 ∷ []) []) (at 1 5) [] }
    ensures too_large { Breaks (raw (root ∷ file 65537 0 ∷ []) (name_row 1 name_a 65537 ∷ []) []) (at 1 65537) [] }
    ensures zero { Breaks (raw (file 0 0 ∷ root ∷ []) (name_row 1 name_a 0 ∷ []) []) (at 1 0) [] }
    ensures with_rule_5 { Breaks (raw (root ∷ file 65537 0 ∷ []) (name_row 1 name_a 9 ∷ name_row 1 name_b 65537 ∷ []) []) (at 1 65537) (at 5 9 ∷ []) }
{}

/// There is no node 1, or node 1 is a file.
#[tactic(auto, unfolding(crate::specs::Device::Example::computing))]
pub fn rule_2()
    ensures nothing { Breaks (raw [] [] []) (at 2 1) [] }
    ensures a_file { Breaks (raw (file 1 0 ∷ []) [] []) (at 2 1) (at 6 1 ∷ []) }
{}

/// A mode or a size out of range, and a mode that only version 2 has; a directory with two links or with
/// a size. Of two such nodes the lesser number is named.
#[tactic(auto, unfolding(crate::specs::Device::Example::computing))]
pub fn rule_3()
    ensures mode { Breaks (root_alone 1535) (at 3 1) [] }
    ensures least_mode { Breaks (root_alone 1024) (at 3 1) [] }
    ensures mode_of_version_2 { Breaks (in_version_1 (root_alone 1023)) (at 3 1) [] }
    ensures least_mode_of_version_2 { Breaks (in_version_1 (root_alone 512)) (at 3 1) [] }
    ensures size { Breaks (one_file 4294967297 []) (at 3 5) [] }
    ensures links { Breaks (raw (node 1 Directory 511 0 2 0 ∷ []) [] []) (at 3 1) [] }
    ensures directory_size { Breaks (raw (node 1 Directory 511 0 1 1 ∷ []) [] []) (at 3 1) [] }
    ensures two_nodes { Breaks (two_files 4294967297 4294967297 []) (at 3 5) [] }
{}

/// Names out of order, a name listed twice, a name in a file, and a name in a number that is no node.
#[tactic(auto, unfolding(crate::specs::Device::Example::computing))]
pub fn rule_4()
    ensures order { Breaks (raw (root ∷ file 5 0 ∷ file 7 0 ∷ []) (name_row 1 name_b 7 ∷ name_row 1 name_a 5 ∷ []) []) (at 4 1) [] }
    ensures twice { Breaks (raw (root ∷ file 5 0 ∷ []) (name_row 1 name_a 5 ∷ name_row 1 name_a 5 ∷ []) []) (at 4 1) [] }
    ensures in_a_file { Breaks (raw (root ∷ file 5 0 ∷ file 7 0 ∷ []) (name_row 1 name_a 5 ∷ name_row 5 name_x 7 ∷ []) []) (at 4 5) [] }
    ensures in_no_node { Breaks (raw (root ∷ file 7 0 ∷ []) (name_row 9 name_x 7 ∷ []) []) (at 4 9) [] }
{}

/// A name that leads to no node, and a name that leads to the root.
#[tactic(auto, unfolding(crate::specs::Device::Example::computing))]
pub fn rule_5()
    ensures no_node { Breaks (raw (root ∷ []) (name_row 1 name_a 9 ∷ []) []) (at 5 9) [] }
    ensures the_root { Breaks (raw (root ∷ []) (name_row 1 name_a 1 ∷ []) []) (at 5 1) [] }
{}

/// A file without a name, also one whose links are 0; a file whose links aren't the count of its names;
/// a directory with two names. A directory without a name breaks rule 7 too. A file may have 1,024
/// names and no more.
#[tactic(auto, unfolding(crate::specs::Device::Example::computing))]
pub fn rule_6()
    ensures no_name { Breaks (raw (root ∷ file 5 0 ∷ []) [] []) (at 6 5) [] }
    ensures no_link { Breaks (raw (root ∷ node 5 File 420 1000 0 0 ∷ []) [] []) (at 6 5) [] }
    ensures other_count { Breaks (raw (root ∷ node 5 File 420 1000 2 0 ∷ []) (name_row 1 name_a 5 ∷ []) []) (at 6 5) [] }
    ensures two_names { Breaks (raw (root ∷ directory 3 ∷ []) (name_row 1 name_a 3 ∷ name_row 1 name_b 3 ∷ []) []) (at 6 3) [] }
    ensures no_directory_name { Breaks (raw (root ∷ directory 3 ∷ []) [] []) (at 6 3) (at 7 3 ∷ []) }
    ensures most_names { names_fit File 5 1024 1024 ≡ true }
    ensures more_names { names_fit File 5 1025 1025 ≡ false }
{}

/// Two directories that hold each other, and a directory that holds itself, can't be reached from the
/// root.
#[tactic(auto, unfolding(crate::specs::Device::Example::computing))]
pub fn rule_7()
    ensures ring { Breaks ring (at 7 3) [] }
    ensures in_itself { Breaks (raw (root ∷ directory 3 ∷ []) (name_row 3 name_x 3 ∷ []) []) (at 7 3) [] }
{}

/// Extents out of order; of a directory; of no node; of a block that another extent has; of no block;
/// with too few bytes; and with a block that begins at the file's size or behind it.
#[tactic(auto, unfolding(crate::specs::Device::Example::computing))]
pub fn rule_8()
    ensures order { Breaks (two_files 4 4 (block_at 7 0 0 ∷ block_at 5 0 1 ∷ [])) (at 8 5) [] }
    ensures of_a_directory { Breaks (one_file 4 (block_at 1 0 0 ∷ [])) (at 8 1) [] }
    ensures of_no_node { Breaks (one_file 4 (block_at 9 0 0 ∷ [])) (at 8 9) [] }
    ensures block_twice { Breaks (one_file 8192 (extent 5 0 0 0 2 (letters 2) ∷ block_at 5 1 4 ∷ [])) (at 8 5) [] }
    ensures no_block { Breaks (one_file 4 (extent 5 0 0 0 0 [] ∷ [])) (at 8 5) [] }
    ensures few_bytes { Breaks (one_file 4 (extent 5 0 0 0 1 (120 ∷ []) ∷ [])) (at 8 5) [] }
    ensures past_the_size { Breaks (one_file 4096 (extent 5 0 0 0 2 (letters 2) ∷ [])) (at 8 5) [] }
    ensures with_rule_9 { Breaks (two_files 4 0 (extent 5 0 0 9 1 (letters 1) ∷ block_at 7 0 0 ∷ [])) (at 8 7) (at 9 5 ∷ []) }
{}

/// An extent on a tier over 2, and one that goes past the end of its tier.
#[tactic(auto, unfolding(crate::specs::Device::Example::computing))]
pub fn rule_9()
    ensures tier { Breaks (one_file 4 (extent 5 0 3 0 1 (letters 1) ∷ [])) (at 9 5) [] }
    ensures past_the_tier { Breaks (one_file 8192 (extent 5 0 2 7 2 (letters 2) ∷ [])) (at 9 5) [] }
{}

/// Two blocks of one file at one place, and two extents that share a place. Blocks on two tiers or next
/// to each other share none.
#[tactic(auto, unfolding(crate::specs::Device::Example::computing))]
pub fn rule_10()
    ensures of_one_file { Breaks (one_file 8192 (block_at 5 0 3 ∷ block_at 5 1 3 ∷ [])) (at 10 5) [] }
    ensures in_part { Breaks (two_files 8192 4 (extent 5 0 0 2 2 (letters 2) ∷ block_at 7 0 3 ∷ [])) (at 10 5) [] }
{}

/// A lower rule broken at a larger number is named before a later rule broken at a lesser number.
#[tactic(auto, unfolding(crate::specs::Device::Example::computing))]
pub fn lower_rule_of_a_larger_number()
    ensures { Breaks (raw (root ∷ file 5 0 ∷ file 7 0 ∷ []) (name_row 1 name_a 5 ∷ name_row 7 name_x 7 ∷ []) (block_at 5 0 0 ∷ [])) (at 4 7) (at 8 5 ∷ []) }
{}
