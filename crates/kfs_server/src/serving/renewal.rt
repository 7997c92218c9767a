//! The journal begun anew, where that is due.
ghost use Rattle.std.specs.Prelude.{◌≡◌, IsTrue, OnErr, OnOk};
ghost use Rattle.kfs_journal.specs.Disk.{LeavesOnly};
ghost use Rattle.kfs_kept.specs.Keeping.{IsKept};
ghost use Rattle.kfs_kept.specs.Standing.{StandFor};

use crate::serving::fault::GroupFault;
use kfs_journal::Disk;
use kfs_kept::{Kept, SaveFault};
use std::alloc::Allocator;

/// Begins the journal anew where it has grown enough. The desk stays as it is, and what was answered stays kept.
///
/// Where memory for that is refused, all is as it was, and the next group tries again. `Err` where the disk has failed.
pub fn renew<A: Allocator + Copy, B: Allocator + Copy, D: Disk + Drop>(
    alloc: B,
    kept: &mut Kept<A, D>,
) -> Result<(), GroupFault>
    requires kept { IsKept D.seen D.may_leave kept.old }
    requires open { IsTrue kept.old.is_open }
    ensures kept { IsKept D.seen D.may_leave kept.new }
    ensures desk { kept.new.desk ≡ kept.old.desk }
    ensures open { OnOk result (IsTrue kept.new.is_open) }
    ensures failed { OnErr result (IsTrue (D.has_failed kept.new.disk)) }

    // A crash at any moment leaves the desk's state.
    ensures any_moment { LeavesOnly D.moment D.left_since kept.old.disk kept.new.disk (λ c. StandFor c kept.old.desk.state) }
{
    match kept.checkpoint_if_due(alloc) {
        Ok(_) => Ok(()),
        Err(SaveFault::Failed) => Err(GroupFault::Failed),
        // All is as it was.
        Err(_) => Ok(()),
    }
}
