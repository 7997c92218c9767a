//! What logs make of the bytes of files, and which plans are right for them.

ghost use Rattle.std.specs.Prelude.{List, [], ◌∷◌};
ghost use Rattle.kfs_model.specs.Check.{NameTaken, NoWrite, TooBig};
ghost use Rattle.kfs_model.specs.FirstWrong.{Names, Nodes, Pieces};
ghost use Rattle.kfs_model.specs.Judgement.{Accepted, NoRoom, Refused, AtRow};
ghost use Rattle.kfs_model.specs.Examples.Example.{Replies, Leaves, refused_at, held_by_7, with_file, tree, root, no_plan};
ghost use Rattle.kfs_model.specs.Examples.Example.FileCases.{empty_state, file_state, create_a, create_a_plan, letters, edits, edited, first_piece, last_piece, edits_plan, edits_plan_without_node, edits_plan_with_gap, zero_again, nothing_written, passing_file, read_only_file, read_only_plan, read_only_tree, write_x, two_blocks, two_blocks_plan, with_room, write_at_limit};

/// Client 7 creates file 5 at "/a" in an empty tree, and its plan is right. The same log once more
/// finds the name taken.
#[tactic(auto, unfolding(crate::specs::Examples::Example::computing))]
pub fn create_in_the_root()
    ensures accepted { Replies empty_state 7 create_a (create_a_plan 5) (Accepted 0) }
    ensures shows { Leaves empty_state 7 create_a (create_a_plan 5) (with_file []) }
    ensures again { Replies (held_by_7 (with_file []) (1 ∷ [])) 7 create_a (create_a_plan 5) (refused_at 0 NameTaken) }
    ensures other_number { Replies empty_state 7 create_a (create_a_plan 6) (Refused (AtRow (Names 0))) }
{}

/// File 5 holds ABCDEFGHIJ. The log writes twice over one place, cuts the file to 4 bytes, lengthens it
/// to 8, and writes behind its end. The plan is wrong without its last piece, without its second piece,
/// and without its node row. It is wrong with a piece that begins before the one above it ends, and
/// with a first piece that covers the second one's byte.
#[tactic(auto, unfolding(crate::specs::Examples::Example::computing))]
pub fn overlapping_writes()
    ensures accepted { Replies (file_state letters) 7 edits (edits_plan (first_piece 1) (last_piece ∷ [])) (Accepted 1) }
    ensures shows { Leaves (file_state letters) 7 edits (edits_plan (first_piece 1) (last_piece ∷ [])) (with_file edited) }
    ensures without_last { Replies (file_state letters) 7 edits (edits_plan (first_piece 1) []) (Refused (AtRow (Pieces 3))) }
    ensures without_second { Replies (file_state letters) 7 edits edits_plan_with_gap (Refused (AtRow (Pieces 1))) }
    ensures byte_again { Replies (file_state letters) 7 edits (edits_plan (first_piece 1) zero_again) (Refused (AtRow (Pieces 3))) }
    ensures first_too_long { Replies (file_state letters) 7 edits (edits_plan (first_piece 2) (last_piece ∷ [])) (Refused (AtRow (Pieces 0))) }
    ensures without_node { Replies (file_state letters) 7 edits edits_plan_without_node (Refused (AtRow (Nodes 0))) }
{}

/// A write without bytes changes nothing, at any offset.
#[tactic(auto, unfolding(crate::specs::Examples::Example::computing))]
pub fn empty_write()
    ensures accepted { Replies (file_state letters) 7 nothing_written no_plan (Accepted 0) }
    ensures shows { Leaves (file_state letters) 7 nothing_written no_plan (with_file letters) }
{}

/// A file that one log creates, writes and removes leaves nothing.
#[tactic(auto, unfolding(crate::specs::Examples::Example::computing))]
pub fn file_that_passes()
    ensures accepted { Replies empty_state 7 passing_file no_plan (Accepted 0) }
    ensures shows { Leaves empty_state 7 passing_file no_plan (tree (root ∷ []) []) }
{}

/// The log that creates a file may write it, whatever its mode. A later log may not, if the mode
/// forbids it.
#[tactic(auto, unfolding(crate::specs::Examples::Example::computing))]
pub fn file_without_write_permission()
    ensures accepted { Replies empty_state 7 read_only_file read_only_plan (Accepted 1) }
    ensures shows { Leaves empty_state 7 read_only_file read_only_plan read_only_tree }
    ensures later { Replies (held_by_7 read_only_tree (6 ∷ [])) 7 (write_x 6) no_plan (refused_at 0 NoWrite) }
{}

/// 4,097 bytes need two blocks. There is no room for them where tier 0 has one place, and there is
/// where it has two.
#[tactic(auto, unfolding(crate::specs::Examples::Example::computing))]
pub fn room_for_two_blocks()
    ensures no_room { Replies (with_room 1) 7 two_blocks two_blocks_plan (NoRoom 2 1) }
    ensures accepted { Replies (with_room 2) 7 two_blocks two_blocks_plan (Accepted 2) }
{}

/// No file is longer than 2^32 bytes. A test makes a file of this size.
#[tactic(auto, unfolding(crate::specs::Examples::Example::computing))]
pub fn write_behind_the_limit()
    ensures { Replies (file_state []) 7 write_at_limit no_plan (refused_at 0 TooBig) }
{}
