//! A desk's state, kept in a journal.
ghost use Rattle.std.specs.Prelude.{◌≡◌, ◌⊎◌, None, Ok, OnOk, IfErr, IfOk, IsErrOf, IsTrue};
ghost use Rattle.kfs_desk.specs.Opening.{begin_fault};
ghost use Rattle.kfs_journal.specs.Disk.{LeavesOnly, Only};
ghost use Rattle.kfs_journal.specs.Journal.{AreEmpty, IsSettled};
ghost use Rattle.kfs_call_desk.specs.Restore.Restored.{RestoreAnswer};
ghost use Rattle.kfs_call_desk.specs.Restore.Saved.{HasTooMany, IsSaved};
ghost use Rattle.kfs_kept.specs.Standing.{HasLongBytes, StandFor, StandForAtMost};

use crate::fault::SaveFault;
use crate::restored::laws::a_saved_desk_is_restored;
use kfs_call_desk::{EncodeFault, encode_desk};
use kfs_desk::Desk;
use kfs_journal::{Disk, Journal};
use std::alloc::Allocator;

/// The bytes of the desk's state.
pub fn state_of<A: Allocator + Copy, B: Allocator + Copy>(
    alloc: B,
    desk: &Desk<A>,
) -> Result<Vec<u8, B>, EncodeFault>
    requires beside { begin_fault desk.now.state.clients ≡ None }
    ensures state { IfOk result (λ bytes. RestoreAnswer bytes.items (Ok desk.now.state)) }
    ensures saved { IfOk result (λ bytes. IsSaved desk.now.state bytes.items) }
    ensures refused { IfErr result (λ fault. (fault ≡ EncodeFault.OutOfMemory) ⊎ ((fault ≡ EncodeFault.TooMany) × HasTooMany desk.now.state)) }
{
    a_saved_desk_is_restored(desk);
    let bytes = encode_desk(alloc, desk.image(), desk.clients(), desk.leases())?;
    Ok(bytes)
}

/// Begins a journal with the desk's state, on two empty files.
pub fn begin_journal<A: Allocator + Copy, B: Allocator + Copy, D: Disk>(
    alloc: B,
    desk: &Desk<A>,
    disk: &mut D,
) -> Result<Journal, SaveFault>
    requires beside { begin_fault desk.now.state.clients ≡ None }
    requires empty { AreEmpty (D.seen disk.old) }
    requires durable { Only (D.seen disk.old) (D.may_leave disk.old) }
    ensures settled { IfOk result (λ journal. IsSettled (D.seen disk.new) (D.may_leave disk.new) journal) }
    ensures stand { OnOk result (StandFor (D.seen disk.new) desk.now.state) }
    ensures any_moment { LeavesOnly D.moment D.left_since disk.old disk.new (StandForAtMost desk.now.state) }
    ensures open { IsErrOf result SaveFault.Closed → ⊥ }
    ensures many { IsErrOf result SaveFault.TooMany → HasTooMany desk.now.state }
    ensures full { IsErrOf result SaveFault.Full → HasLongBytes desk.now.state }
    ensures failed { IsErrOf result SaveFault.Failed → IsTrue (D.has_failed disk.new) }
    ensures same { IfErr result (λ why. (why ≡ SaveFault.Failed) ⊎ (disk.new ≡ disk.old)) }
{
    let state = state_of(alloc, desk)?;
    let journal = Journal::create(alloc, disk, &state)?;
    Ok(journal)
}
