//! Who may remove and move names in a sticky directory (POSIX.1-2017, XBD 4.3).
//!
//! Directory 120 ("/t") is client 8's, and all may write it. In it are file 121 ("f") of client 8, which
//! all may write, and file 6 ("g") of client 7.

ghost use Rattle.std.specs.Prelude.{[], ◌∷◌};
ghost use Rattle.kfs_model.specs.Header.{File, Directory};
ghost use Rattle.kfs_model.specs.Check.{NoLease, NotDirectory, NoWrite, Sticky};
ghost use Rattle.kfs_model.specs.Judgement.{Accepted};
ghost use Rattle.kfs_model.specs.Examples.Example.{Replies, refused_at, no_plan};
ghost use Rattle.kfs_model.specs.Examples.Example.StickyCases.{sticky_directory, sticky_held_by_7, sticky_held_by_8, plain_directory, sticky_and_privileged, two_names_of_8, below_a_closed_root, unlink_of_8, unlink_of_8_plan, unlink_of_7, unlink_of_7_plan, move_of_8, move_out, move_nowhere, move_over_8, directory_over_8, write_of_8, write_of_8_plan};

/// Client 7 holds all three. It may neither remove nor move client 8's file, nor put its own in that
/// one's place. It may write client 8's file.
#[tactic(auto, unfolding(crate::specs::Examples::Example::computing))]
pub fn names_of_another_client()
    ensures removed { Replies sticky_directory 7 (unlink_of_8 File) no_plan (refused_at 0 Sticky) }
    ensures moved { Replies sticky_directory 7 move_of_8 no_plan (refused_at 0 Sticky) }
    ensures replaced { Replies sticky_directory 7 move_over_8 no_plan (refused_at 0 Sticky) }
    ensures written { Replies sticky_directory 7 write_of_8 write_of_8_plan (Accepted 1) }
{}

/// The owner of the file may remove it, and so may the directory's owner and a privileged client. In a
/// directory that isn't sticky, any client may that may write the directory.
#[tactic(auto, unfolding(crate::specs::Examples::Example::computing))]
pub fn owners_and_privilege()
    ensures of_the_file { Replies sticky_directory 7 unlink_of_7 unlink_of_7_plan (Accepted 0) }
    ensures of_the_directory { Replies sticky_held_by_8 8 unlink_of_7 unlink_of_7_plan (Accepted 0) }
    ensures privileged { Replies sticky_and_privileged 7 (unlink_of_8 File) unlink_of_8_plan (Accepted 0) }
    ensures not_sticky { Replies plain_directory 7 (unlink_of_8 File) unlink_of_8_plan (Accepted 0) }
{}

/// An Unlink asks for the node's kind before, and for the lease on it behind. A Rename asks for the
/// directories' write bits before it asks this of the node moved, and for the leases behind. Of the node
/// replaced it asks for the kind before, and for the lease behind. A Rename from one name of a file to
/// another one of it doesn't ask at all.
#[tactic(auto, unfolding(crate::specs::Examples::Example::computing))]
pub fn place_among_the_checks()
    ensures kind_first { Replies sticky_directory 7 (unlink_of_8 Directory) no_plan (refused_at 0 NotDirectory) }
    ensures lease_behind { Replies (sticky_held_by_7 (120 ∷ [])) 7 (unlink_of_8 File) no_plan (refused_at 0 Sticky) }
    ensures leases_behind { Replies (sticky_held_by_7 []) 7 move_of_8 no_plan (refused_at 0 Sticky) }
    ensures write_first { Replies below_a_closed_root 7 move_out no_plan (refused_at 0 NoWrite) }
    ensures replaced_kind_first { Replies below_a_closed_root 7 directory_over_8 no_plan (refused_at 0 NotDirectory) }
    ensures replaced_lease_behind { Replies (sticky_held_by_7 (120 ∷ 6 ∷ [])) 7 move_over_8 no_plan (refused_at 0 Sticky) }
    ensures own_file_unleased { Replies (sticky_held_by_7 (120 ∷ [])) 7 unlink_of_7 no_plan (refused_at 0 (NoLease 6)) }
    ensures one_node { Replies two_names_of_8 7 move_nowhere no_plan (Accepted 0) }
{}
