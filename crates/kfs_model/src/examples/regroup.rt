//! Who may set the group of a node (POSIX.1-2017, chown() with `_POSIX_CHOWN_RESTRICTED`).
//!
//! File 5 is "/a" with mode 0o620. Clients 7 and 8 are in group 50 beside their own. Logs and plans are
//! of version 2.

ghost use Rattle.std.specs.Prelude.{◌≡◌, None, Some};
ghost use Rattle.kfs_model.specs.Check.{NoLease, NoSuchNode, NotInGroup, NotOwner, NoWrite, first_fault};
ghost use Rattle.kfs_model.specs.Judgement.{Accepted};
ghost use Rattle.kfs_model.specs.Examples.Example.{refused_at, no_plan};
ghost use Rattle.kfs_model.specs.Examples.Example.FileCases.{write_x};
ghost use Rattle.kfs_model.specs.Examples.Example.RegroupCases.{RepliesIn2, LeavesIn2, file_of, own_file_held, own_file_unheld, file_of_1_held, file_of_1_unheld, with_privilege, held_by_8, ungrouped, grouped, point_of_8, one_byte, regroup, regroup_of_6, regroup_and_back, regroup_plan, write_plan};

/// The owner gives its file to a supplementary group of its own: the file's group alone changes. To the
/// group that it has nothing changes, and of two Regroups the last one counts.
#[tactic(auto, unfolding(crate::specs::Examples::Example::computing))]
pub fn group_of_the_owner()
    ensures accepted { RepliesIn2 own_file_held 7 (regroup 50) (regroup_plan 1000 50) (Accepted 0) }
    ensures left { LeavesIn2 own_file_held 7 (regroup 50) (regroup_plan 1000 50) (file_of 1000 50) }
    ensures to_its_own { RepliesIn2 own_file_held 7 (regroup 1000) no_plan (Accepted 0) }
    ensures and_back { RepliesIn2 own_file_held 7 regroup_and_back no_plan (Accepted 0) }
{}

/// Another client's file, and a group that the client isn't in. A privileged client may set any group of
/// any file.
#[tactic(auto, unfolding(crate::specs::Examples::Example::computing))]
pub fn owners_groups_and_privilege()
    ensures not_owner { RepliesIn2 file_of_1_held 7 (regroup 50) no_plan (refused_at 0 NotOwner) }
    ensures not_in_group { RepliesIn2 own_file_held 7 (regroup 51) no_plan (refused_at 0 NotInGroup) }
    ensures privileged { RepliesIn2 with_privilege 7 (regroup 51) (regroup_plan 1 51) (Accepted 0) }
{}

/// First comes the node, then its owner, then the group, then the lease.
#[tactic(auto, unfolding(crate::specs::Examples::Example::computing))]
pub fn order_of_a_regroup()
    ensures node { RepliesIn2 file_of_1_unheld 7 regroup_of_6 no_plan (refused_at 0 NoSuchNode) }
    ensures owner { RepliesIn2 file_of_1_unheld 7 (regroup 51) no_plan (refused_at 0 NotOwner) }
    ensures group { RepliesIn2 own_file_unheld 7 (regroup 51) no_plan (refused_at 0 NotInGroup) }
    ensures lease { RepliesIn2 own_file_unheld 7 (regroup 50) no_plan (refused_at 0 (NoLease 5)) }
{}

/// Client 8 may write the file once client 7 has given it to group 50, and not before. So it is behind
/// that entry of a log, too. No client's own log has both entries: its owner stays in the owner's class.
#[tactic(auto, unfolding(crate::specs::Examples::Example::computing))]
pub fn bits_by_the_new_group()
    ensures before { RepliesIn2 (held_by_8 1000) 8 (write_x 5) no_plan (refused_at 0 NoWrite) }
    ensures after { RepliesIn2 (held_by_8 50) 8 (write_x 5) write_plan (Accepted 1) }
    ensures before_the_entry { first_fault (point_of_8 ungrouped) one_byte ≡ Some NoWrite }
    ensures behind_the_entry { first_fault (point_of_8 grouped) one_byte ≡ None }
{}
