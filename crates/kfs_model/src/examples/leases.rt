//! Which leases are granted and refused, one after another.

ghost use Rattle.std.specs.Prelude.{◌≡◌, [], ◌∷◌, Ok, Err, true, false};
ghost use Rattle.kfs_model.specs.Lease.{LeaseHeld, NoLeaseHeld, BadPath, NoSearch, NoSuchName, NoSuchNode, NotAllowed, NotDirectory, Past, UnknownClient, Backwards, ReadLease, WriteLease, AreCompatible, no_leases, holds, ticked};
ghost use Rattle.kfs_model.specs.Examples.Example.{leases};
ghost use Rattle.kfs_model.specs.Examples.Example.LeaseCases.{lease, lease_by_path, lease_on, lease_on_until, lease_until, written_by_7, path_to_5, drop, root_path, no_slash, no_such, below_file, read_by_7, read_by_both, read_by_8, written_by_8, at_5};

/// Clients 7 and 8 both read file 5. Client 8 may write only after 7 has dropped its lease, and holds
/// the file then.
#[tactic(auto, unfolding(crate::specs::Examples::Example::computing))]
pub fn readers_and_a_writer()
    ensures first_reader { (lease no_leases 7 ReadLease).0 ≡ Ok 5 }
    ensures second_reader { (lease read_by_7 8 ReadLease).0 ≡ Ok 5 }
    ensures conflict { (lease read_by_both 8 WriteLease).0 ≡ Err (LeaseHeld 7) }
    ensures dropped { (drop read_by_both 7).0 ≡ Ok 5 }
    ensures writer { (lease read_by_8 8 WriteLease).0 ≡ Ok 5 }
    ensures dropped_again { (drop written_by_8 7).0 ≡ Err NoLeaseHeld }
    ensures held_before { holds read_by_8 8 5 ≡ false }
    ensures held_after { holds written_by_8 8 5 ≡ true }
{}

/// Leases that are refused for their path, their end, their client or the moment.
#[tactic(auto, unfolding(crate::specs::Examples::Example::computing))]
pub fn refused_leases()
    ensures on_the_root { (lease_until no_leases 7 root_path WriteLease 100).0 ≡ Ok 1 }
    ensures bad_path { (lease_until no_leases 7 no_slash ReadLease 100).0 ≡ Err BadPath }
    ensures no_such_name { (lease_until no_leases 7 no_such ReadLease 100).0 ≡ Err (NoSuchName 0) }
    ensures not_directory { (lease_until no_leases 7 below_file ReadLease 100).0 ≡ Err (NotDirectory 1) }
    ensures past { (lease_until no_leases 7 root_path ReadLease 0).0 ≡ Err Past }
    ensures unknown { (lease_until no_leases 3 root_path ReadLease 100).0 ≡ Err UnknownClient }
    ensures goes_on { (ticked no_leases 5).0 ≡ Ok 5 }
    ensures backwards { (ticked at_5 4).0 ≡ Err Backwards }
    ensures same_moment { (ticked at_5 5).0 ≡ Ok 5 }
{}

/// By number no directory is searched. The owner may write, whatever the mode, and a client that may
/// write; who may read gets a lease for reading alone.
#[tactic(auto, unfolding(crate::specs::Examples::Example::computing))]
pub fn by_number_below_a_closed_directory()
    ensures by_path { (lease_by_path 7 path_to_5 WriteLease).0 ≡ Err (NoSearch 1) }
    ensures owner_writes { (lease_on 7 5 WriteLease).0 ≡ Ok 5 }
    ensures held { holds written_by_7 7 5 ≡ true }
    ensures owner_reads { (lease_on 7 5 ReadLease).0 ≡ Err NotAllowed }
    ensures reader { (lease_on 7 6 ReadLease).0 ≡ Ok 6 }
    ensures reader_writes { (lease_on 7 6 WriteLease).0 ≡ Err NotAllowed }
    ensures writer { (lease_on 7 9 WriteLease).0 ≡ Ok 9 }
    ensures writer_reads { (lease_on 7 9 ReadLease).0 ≡ Err NotAllowed }
    ensures privileged_reads { (lease_on 3 5 ReadLease).0 ≡ Ok 5 }
    ensures privileged_writes { (lease_on 3 6 WriteLease).0 ≡ Ok 6 }
    ensures directory { (lease_on 8 2 WriteLease).0 ≡ Ok 2 }
{}

/// The refusals of a lease by number, in their order.
#[tactic(auto, unfolding(crate::specs::Examples::Example::computing))]
pub fn refused_by_number()
    ensures unknown { (lease_on_until no_leases 4 77 ReadLease 0).0 ≡ Err UnknownClient }
    ensures no_node { (lease_on_until no_leases 7 77 ReadLease 0).0 ≡ Err NoSuchNode }
    ensures not_allowed { (lease_on_until written_by_7 8 5 WriteLease 0).0 ≡ Err NotAllowed }
    ensures past { (lease_on_until written_by_7 3 5 WriteLease 0).0 ≡ Err Past }
    ensures in_conflict { (lease_on_until written_by_7 3 5 ReadLease 100).0 ≡ Err (LeaseHeld 7) }
{}

/// Two clients with a live write lease each on file 5 are in conflict.
pub fn two_writers()
    ensures { AreCompatible (leases (5 ∷ []) (5 ∷ [])) → ⊥ }
{}
