//! Worked examples of who may look a name up, list names, and read. Each is the contract of a function that
//! does nothing, proved by computing.
ghost use Rattle.std.specs.Prelude.{◌≡◌, Ok, Err};
ghost use Rattle.kfs_model.specs.Examples.Example.AccessCases.{in_group, with_mode};
ghost use Rattle.kfs_mode.specs.Access.{permitted_by_state};
ghost use Rattle.kfs_mode.specs.AccessExamples.{privileged, with_modes};
ghost use Rattle.kfs_mode.specs.declared.access.Access.TheVariants.{FindName, ListNames, ReadBytes};
ghost use Rattle.kfs_mode.specs.declared.access.AccessFault.TheVariants.{IsDirectory, NoRead, NoSearch, NoSuchNode, NotDirectory, UnknownClient};

/// Only the bits of one class count. With mode 0o077 the owner may not read its file. With mode 0o604 a
/// member of the file's group may not, and another client may.
#[tactic(auto, unfolding(kfs_model::specs::Examples::Example::computing))]
pub fn one_class_counts()
    ensures owner { permitted_by_state (with_mode 63 1000 1000) ReadBytes 7 5 ≡ Err NoRead }
    ensures group { permitted_by_state (in_group 50 (with_mode 388 1 50)) ReadBytes 7 5 ≡ Err NoRead }
    ensures other { permitted_by_state (with_mode 388 1 50) ReadBytes 7 5 ≡ Ok tt }
{}

/// A directory with mode 0o711 has its names looked up by others, and not listed; one with mode 0o744 has
/// them listed, and not looked up. A privileged client may do all of it, whatever the mode.
#[tactic(auto, unfolding(kfs_model::specs::Examples::Example::computing))]
pub fn searched_or_read()
    ensures searched { permitted_by_state (with_modes 457) FindName 7 3 ≡ Ok tt }
    ensures not_listed { permitted_by_state (with_modes 457) ListNames 7 3 ≡ Err NoRead }
    ensures listed { permitted_by_state (with_modes 484) ListNames 7 3 ≡ Ok tt }
    ensures not_searched { permitted_by_state (with_modes 484) FindName 7 3 ≡ Err NoSearch }
    ensures privileged { permitted_by_state (privileged (with_modes 0)) FindName 7 3 ≡ Ok tt }
    ensures listed_by_privilege { permitted_by_state (privileged (with_modes 0)) ListNames 7 3 ≡ Ok tt }
    ensures read_by_privilege { permitted_by_state (privileged (with_modes 0)) ReadBytes 7 5 ≡ Ok tt }
{}

/// The reasons in their order: an unknown client, no such node, a node of the other kind, and the bits.
/// Here no bit is set.
#[tactic(auto, unfolding(kfs_model::specs::Examples::Example::computing))]
pub fn first_reason_counts()
    ensures no_client { permitted_by_state (with_modes 0) ReadBytes 9 9 ≡ Err UnknownClient }
    ensures no_node { permitted_by_state (with_modes 0) ReadBytes 7 9 ≡ Err NoSuchNode }
    ensures a_file { permitted_by_state (with_modes 0) FindName 7 5 ≡ Err NotDirectory }
    ensures a_file_again { permitted_by_state (with_modes 0) ListNames 7 5 ≡ Err NotDirectory }
    ensures a_directory { permitted_by_state (with_modes 0) ReadBytes 7 3 ≡ Err IsDirectory }
    ensures no_bit { permitted_by_state (with_modes 0) ReadBytes 7 5 ≡ Err NoRead }
{}
