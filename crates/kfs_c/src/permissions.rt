//! Who may look names up, list them and read, by a view. Nothing changes, and nothing takes memory.
ghost use Rattle.std.specs.Prelude.{◌≡◌, ◌↔◌, ◌≤◌, ◌<◌, ◌⊎◌, None};
ghost use Rattle.kfs_c.specs.Holding.{HoldsNoView, OnView};
ghost use Rattle.kfs_c.specs.Loose.Status as status;
ghost use Rattle.kfs_c.specs.Permissions.{IsPermitted, IsUnpermitted, access_asked, access_fault_told};

use crate::fault_codes::{
    MAY_IS_DIRECTORY, MAY_NO_READ, MAY_NO_SEARCH, MAY_NO_SUCH_NODE, MAY_NOT_DIRECTORY,
    MAY_UNKNOWN_CLIENT,
};
use crate::handle::Handle;
use crate::loose::status::{DONE, NOTHING, REFUSED};
use crate::on_view;
use crate::submission::{FaultNumbers, fault};
use kfs_desk::DeskView;
use kfs_judge::{Access, AccessFault};
use std::alloc::Global;

/// Tells whether the client may look a name up in the directory with this number (`access` is 1), list its
/// names (2), or read the file (3), by the state that the view shows (`View::may_access`). `DONE`: it may.
/// `REFUSED`: it may not, and the fault tells why. `NOTHING`: `access` is another number.
#[unsafe(no_mangle)]
pub extern "C" fn kfs_may(
    alloc: Global,
    view: &mut Handle,
    access: u32,
    client: u32,
    number: u32,
    fault: &mut FaultNumbers,
) -> u32
    ensures permitted { (result ≡ status.done) ↔ OnView view.old.value (IsPermitted access client number) }
    ensures refused { result ≡ status.refused → OnView view.old.value (IsUnpermitted access client number fault.new) }
    ensures nothing { (result ≡ status.nothing) ↔ OnView view.old.value (λ _. access_asked access ≡ None) }
    ensures silent { (result ≡ status.refused → ⊥) → fault.new ≡ fault.old }
    ensures kept { view.new.value ≡ view.old.value }
    ensures closed { (result ≡ status.closed) ↔ (view.old.value ≡ None) }
    ensures wrong { (result ≡ status.wrong_kind) ↔ HoldsNoView view.old.value }
    ensures known { result ≤ status.wrong_kind }
    ensures only { result < status.closed → (result ≡ status.done) ⊎ (result ≡ status.nothing) ⊎ (result ≡ status.refused) }
{
    on_view!(alloc, view, &seen => may(seen, access, client, number, fault))
}

fn may(
    seen: &DeskView<Global>,
    access: u32,
    client: u32,
    number: u32,
    fault: &mut FaultNumbers,
) -> u32
    ensures permitted { (result ≡ status.done) ↔ IsPermitted access client number seen.now }
    ensures refused { result ≡ status.refused → IsUnpermitted access client number fault.new seen.now }
    ensures nothing { (result ≡ status.nothing) ↔ (access_asked access ≡ None) }
    ensures silent { (result ≡ status.refused → ⊥) → fault.new ≡ fault.old }
    ensures only { (result ≡ status.done) ⊎ (result ≡ status.nothing) ⊎ (result ≡ status.refused) }
{
    let Some(access) = access_with(access) else {
        return NOTHING;
    };
    match seen.view().may_access(access, client, number) {
        Ok(()) => DONE,
        Err(why) => {
            *fault = access_fault_numbers(why);
            REFUSED
        }
    }
}

/// What is asked for by this number, if by any.
fn access_with(number: u32) -> Option<Access>
    ensures { result ≡ access_asked number }
{
    match number {
        1 => Some(Access::FindName),
        2 => Some(Access::ListNames),
        3 => Some(Access::ReadBytes),
        _ => None,
    }
}

/// Why the client may not.
fn access_fault_numbers(why: AccessFault) -> FaultNumbers
    ensures { result ≡ access_fault_told why }
{
    match why {
        AccessFault::UnknownClient => fault(MAY_UNKNOWN_CLIENT, 0, 0, 0),
        AccessFault::NoSuchNode => fault(MAY_NO_SUCH_NODE, 0, 0, 0),
        AccessFault::NotDirectory => fault(MAY_NOT_DIRECTORY, 0, 0, 0),
        AccessFault::IsDirectory => fault(MAY_IS_DIRECTORY, 0, 0, 0),
        AccessFault::NoSearch => fault(MAY_NO_SEARCH, 0, 0, 0),
        AccessFault::NoRead => fault(MAY_NO_READ, 0, 0, 0),
    }
}
