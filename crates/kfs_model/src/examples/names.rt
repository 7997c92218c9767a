//! What logs make of names, and which moves are refused.

ghost use Rattle.std.specs.Prelude.{List, [], ◌∷◌};
ghost use Rattle.kfs_model.specs.Check.{BelowItself, NotEmpty, IsDirectory, NotDirectory, NoLease};
ghost use Rattle.kfs_model.specs.Judgement.{Accepted};
ghost use Rattle.kfs_model.specs.Examples.Example.{Replies, Leaves, refused_at, no_plan};
ghost use Rattle.kfs_model.specs.Examples.Example.NameCases.{two_names, rename_to_own_name, four_directories, moved_by_7, moved_by_8, move_7, move_8, plan_7, plan_8, removed_file, unlink_f, unlink_plan, create_f, create_plan, after_removal, after_creation, folder, unlink_p, link_directory, move_below, file_over_directory, directory_over_file, empty_folder, empty_folder_plan, emptied};
ghost use Rattle.kfs_model.specs.Examples.Example.FileCases.{write_x};
ghost use Rattle.kfs_model.specs.Header.{File, Directory};

/// File 5 has the names "a" and "b" in the root, which nobody may write, and client 7 holds no lease. A
/// Rename from one name to the other is allowed and changes nothing.
#[tactic(auto, unfolding(crate::specs::Examples::Example::computing))]
pub fn rename_to_its_own_name()
    ensures accepted { Replies two_names 7 rename_to_own_name no_plan (Accepted 0) }
    ensures shows { Leaves two_names 7 rename_to_own_name no_plan two_names.tree }
{}

/// Directory 10 ("x") is in 20 ("p"), and 11 ("y") in 21 ("q"); 12 ("c") is in 11, and 13 ("d") in 10.
/// Client 7 moves 10 into 12, client 8 moves 11 into 13. Whichever lands first, the other move would
/// put a directory below itself.
#[tactic(auto, unfolding(crate::specs::Examples::Example::computing))]
pub fn two_moves()
    ensures first_7 { Replies four_directories 7 move_7 plan_7 (Accepted 0) }
    ensures shows_7 { Leaves four_directories 7 move_7 plan_7 moved_by_7.tree }
    ensures then_8 { Replies moved_by_7 8 move_8 plan_8 (refused_at 0 BelowItself) }
    ensures first_8 { Replies four_directories 8 move_8 plan_8 (Accepted 0) }
    ensures shows_8 { Leaves four_directories 8 move_8 plan_8 moved_by_8.tree }
    ensures then_7 { Replies moved_by_8 7 move_7 plan_7 (refused_at 0 BelowItself) }
{}

/// Client 7 holds the root and its file 9 at "/f". After the file is removed and number 9 is used
/// again, the old lease is gone.
#[tactic(auto, unfolding(crate::specs::Examples::Example::computing))]
pub fn number_used_again()
    ensures removed { Replies removed_file 7 unlink_f unlink_plan (Accepted 0) }
    ensures shows_removed { Leaves removed_file 7 unlink_f unlink_plan after_removal.tree }
    ensures created { Replies after_removal 7 create_f create_plan (Accepted 0) }
    ensures shows_created { Leaves after_removal 7 create_f create_plan after_creation.tree }
    ensures no_lease { Replies after_creation 7 (write_x 9) no_plan (refused_at 0 (NoLease 9)) }
{}

/// Directory 20 at "/p" holds directory 10 ("x"), and file 5 is at "/a". All are client 7's, which
/// holds them and the root.
#[tactic(auto, unfolding(crate::specs::Examples::Example::computing))]
pub fn directories_and_files()
    ensures not_empty { Replies folder 7 (unlink_p Directory) no_plan (refused_at 0 NotEmpty) }
    ensures as_a_file { Replies folder 7 (unlink_p File) no_plan (refused_at 0 IsDirectory) }
    ensures link { Replies folder 7 link_directory no_plan (refused_at 0 IsDirectory) }
    ensures below { Replies folder 7 move_below no_plan (refused_at 0 BelowItself) }
    ensures over_directory { Replies folder 7 file_over_directory no_plan (refused_at 0 IsDirectory) }
    ensures over_file { Replies folder 7 directory_over_file no_plan (refused_at 0 NotDirectory) }
    ensures emptied_first { Replies folder 7 empty_folder empty_folder_plan (Accepted 0) }
    ensures shows { Leaves folder 7 empty_folder empty_folder_plan emptied }
{}
