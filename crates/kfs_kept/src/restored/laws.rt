//! Laws of states as bytes. Each is the contract of a function that has nothing to do when it is called.
ghost use Rattle.std.specs.Prelude.{◌≡◌, ℕ, List, None, Ok, All};
ghost use Rattle.kfs_model.specs.CleanStep.{IsClient};
ghost use Rattle.kfs_desk.specs.Opening.{begin_fault};
ghost use Rattle.kfs_kept.specs.Admitting.{Keeps, begun_with, with_clients};
ghost use Rattle.kfs_kept.specs.Restored.Laws.{SavedApart, SavedIsRestored, SavedOnce};
ghost use Rattle.kfs_call_desk.specs.Restore.Restored.{RestoreAnswer};
ghost use Rattle.kfs_call_desk.specs.Restore.Saved.{IsSaved};

use kfs_desk::Desk;
use kfs_mode::Client;
use std::alloc::Allocator;

/// A state that a desk can begin with is what its bytes come to, to the lease and the place. It has one encoding, and no
/// other such state has that.
pub fn a_saved_state_comes_back()
    ensures back { SavedIsRestored }
    ensures once { SavedOnce }
    ensures apart { SavedApart }
{}

/// The bytes of a desk's state come to that state. So where a desk was saved, `restore_alone` makes one that shows the same
/// state, and it can't refuse but for memory. The desk's clients are those that a desk can begin with, as
/// `begin` and `restore_alone` say of those that they were given.
pub fn a_saved_desk_is_restored<A: Allocator + Copy>(desk: &Desk<A>)
    ensures { (bytes : List ℕ) → begin_fault desk.now.state.clients ≡ None → IsSaved desk.now.state bytes → RestoreAnswer bytes (Ok desk.now.state) }
{
    // Tells the prover that the state is in order, that its leases are lawful, and that a lawful image shows it.
    let image = desk.image();
    let _shape = image.shape();
    let _leases = desk.leases();
}

/// The bytes of a desk's state with other clients come to that state, where the desk's own are among these. If they can't be
/// beside each other, that is told, and nothing else.
pub fn other_clients_are_restored<A: Allocator + Copy>(desk: &Desk<A>, clients: &[Client])
    ensures { (bytes : List ℕ) → Keeps desk.now.state.clients clients.now → IsSaved (with_clients desk.now.state clients.now) bytes
        → RestoreAnswer bytes (begun_with (with_clients desk.now.state clients.now)) }
{
    // Tells the prover that the state is in order, that its leases are lawful, and that a lawful image shows it.
    let image = desk.image();
    let _shape = image.shape();
    let _leases = desk.leases();
    tell_clients(clients);
}

/// Tells the prover that each client is in range. It goes over them once and changes nothing.
fn tell_clients(clients: &[Client])
    ensures { All IsClient clients.now }
{
    for client in clients {
        // The call says that it is.
        let _number = client.number();
    }
}
