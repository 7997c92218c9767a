//! Entries that permissions, grants and limits refuse.

ghost use Rattle.std.specs.Prelude.{◌≡◌, [], Some};
ghost use Rattle.kfs_model.specs.Check.{NoWrite, NotOwner, NumberTaken, NumberNotGranted, TooManyLinks, first_fault};
ghost use Rattle.kfs_model.specs.Judgement.{Accepted};
ghost use Rattle.kfs_model.specs.Examples.Example.{Replies, refused_at, no_plan};
ghost use Rattle.kfs_model.specs.Examples.Example.FileCases.{write_x, file_state};
ghost use Rattle.kfs_model.specs.Examples.Example.AccessCases.{with_mode, in_group, one_byte_plan, locked_first, both_held, create_z, chmod_root, with_many_names, one_more_name};

/// Only the bits of one class count. With mode 0o077 the owner may not write. With mode 0o602 a member
/// of the file's group may not write, and another client may. The mode that counts is the one at the
/// entry's own point of the log.
#[tactic(auto, unfolding(crate::specs::Examples::Example::computing))]
pub fn one_class_counts()
    ensures owner { Replies (with_mode 63 1000 1000) 7 (write_x 5) no_plan (refused_at 0 NoWrite) }
    ensures group { Replies (in_group 50 (with_mode 386 1 50)) 7 (write_x 5) no_plan (refused_at 0 NoWrite) }
    ensures other { Replies (with_mode 386 1 50) 7 (write_x 5) one_byte_plan (Accepted 1) }
    ensures after_chmod { Replies (file_state []) 7 locked_first no_plan (refused_at 1 NoWrite) }
{}

/// Client 7 holds the root and file 5. It may not create numbers outside its grant or numbers in use,
/// nor change the mode of the root, which it doesn't own.
#[tactic(auto, unfolding(crate::specs::Examples::Example::computing))]
pub fn grants_and_owners()
    ensures not_granted { Replies both_held 7 (create_z 200) no_plan (refused_at 0 NumberNotGranted) }
    ensures taken { Replies both_held 7 (create_z 5) no_plan (refused_at 0 NumberTaken) }
    ensures not_owner { Replies both_held 7 chmod_root no_plan (refused_at 0 NotOwner) }
{}

/// A file with 1,024 names gets no further one. Here the header says so; a test makes the tree with all
/// these names.
#[tactic(auto, unfolding(crate::specs::Examples::Example::computing))]
pub fn as_many_names_as_a_file_may_have()
    ensures { first_fault with_many_names one_more_name ≡ Some TooManyLinks }
{}
