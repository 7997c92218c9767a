//! A desk from the bytes of a state, in several threads.
ghost use Rattle.std.specs.Prelude.{◌≡◌, Result};
ghost use Rattle.kfs_model.specs.Judgement.{State};
ghost use Rattle.kfs_call_desk.specs.Restore.Restored as model;
ghost use Rattle.kfs_call_desk.specs.Restore.Restored.{RestoreAnswer};
ghost use Rattle.kfs_call_desk.specs.Restore.Told.{OnRestored};

use kfs_call_desk::{RestoreFault, restore_asking};
use kfs_desk::Desk;
use kfs_fsck::InParts;
use std::alloc::Allocator;
use std::thread::Threads;

/// A desk that goes on where another stood: its state is that of the bytes. The docket is empty, and will have at most
/// `limit` rows.
///
/// What is let in, and what is refused with which fault, is as for `restore_alone` of `kfs_call_desk`. The order of
/// the image's names is tested in several threads, as `fsck` tests it.
pub fn restore<A: Allocator + Copy>(
    rt: &(impl Threads + Sync),
    alloc: A,
    bytes: &[u8],
    limit: u32,
) -> Result<Desk<A>, RestoreFault>
    // Soundness: the answer is right for these bytes.
    ensures found { OnRestored limit (RestoreAnswer bytes.now) result }
    // Completeness: the right answer is given, unless memory runs out.
    ensures only { (answer : Result State model.RestoreFault) → RestoreAnswer bytes.now answer → OnRestored limit (λ given. given ≡ answer) result }
{
    restore_asking(&InParts { threads: rt }, alloc, bytes, limit)
}
