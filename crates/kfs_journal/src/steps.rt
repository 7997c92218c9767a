//! Changes of the files, each from files that are on the disk to files that are on the disk. So each moment
//! within one is a torn call on files that are known.
ghost use Rattle.std.specs.Prelude.{◌≡◌, ◌≤◌, ◌+◌, ◌<◌, ◌^◌, ◌∷◌, ◌++◌, [], length, OnOk, OnErr, IsErrOf, IsTrue};
ghost use Rattle.kfs_journal.specs.Disk.{content, In, Only, Torn, Cut, Holds, IsFront, LeavesOnly};
ghost use Rattle.kfs_journal.specs.Format.{behind_gate};
ghost use Rattle.kfs_journal.specs.Journal.{EndsClosed, IsOpened, IsOpening, IsFresh, IsLess, IsClosedHead, IsRenewed};

use crate::disk::{Disk, DiskFailed, File};
use crate::fault::JournalFault;
use crate::format::head_front;
use std::alloc::Allocator;

/// Where the gate of a head stands: behind magic and number.
pub const GATE: usize = 12;

/// The bytes of a head beside its state.
pub const HEAD: usize = 21;

/// Writes and syncs.
pub fn write_through<D: Disk>(
    disk: &mut D,
    file: File,
    at: usize,
    bytes: &[u8],
) -> Result<(), DiskFailed>
    requires at { at ≤ length (content file (D.seen disk.old)) }
    requires durable { Only (D.seen disk.old) (D.may_leave disk.old) }
    ensures written { OnOk result (In file (Holds at bytes.now) (D.seen disk.old) (D.seen disk.new)) }
    ensures durable { OnOk result (Only (D.seen disk.new) (D.may_leave disk.new)) }
    ensures any_moment { LeavesOnly D.moment D.left_since disk.old disk.new (In file (Torn at (length bytes.now)) (D.seen disk.old)) }
    ensures cause { OnErr result (IsTrue (D.has_failed disk.new)) }
{
    disk.write_at(file, at, bytes)?;
    disk.sync(file)
}

/// Writes three parts one behind another, and syncs once. So none of them is copied behind another.
pub fn write_parts<D: Disk>(
    disk: &mut D,
    file: File,
    at: usize,
    front: &[u8],
    body: &[u8],
    end: &[u8],
) -> Result<(), DiskFailed>
    requires at { at ≤ length (content file (D.seen disk.old)) }
    requires durable { Only (D.seen disk.old) (D.may_leave disk.old) }
    requires room { at + length front.now + length body.now < 2 ^ 64 }
    ensures written { OnOk result (In file (Holds at (front.now ++ (body.now ++ end.now))) (D.seen disk.old) (D.seen disk.new)) }
    ensures durable { OnOk result (Only (D.seen disk.new) (D.may_leave disk.new)) }
    ensures any_moment { LeavesOnly D.moment D.left_since disk.old disk.new
        (In file (Torn at (length (front.now ++ (body.now ++ end.now)))) (D.seen disk.old)) }
    ensures cause { OnErr result (IsTrue (D.has_failed disk.new)) }
{
    disk.write_at(file, at, front)?;
    disk.write_at(file, at + front.len(), body)?;
    disk.write_at(file, at + front.len() + body.len(), end)?;
    disk.sync(file)
}

/// Cuts and syncs.
pub fn cut_through<D: Disk>(disk: &mut D, file: File, len: usize) -> Result<(), DiskFailed>
    requires len { len ≤ length (content file (D.seen disk.old)) }
    requires durable { Only (D.seen disk.old) (D.may_leave disk.old) }
    ensures cut { OnOk result (In file (IsFront len) (D.seen disk.old) (D.seen disk.new)) }
    ensures durable { OnOk result (Only (D.seen disk.new) (D.may_leave disk.new)) }
    ensures any_moment { LeavesOnly D.moment D.left_since disk.old disk.new (In file (Cut len) (D.seen disk.old)) }
    ensures cause { OnErr result (IsTrue (D.has_failed disk.new)) }
{
    disk.cut(file, len)?;
    disk.sync(file)
}

/// Writes bytes in two parts behind the closed gate at the file's end, with a closed gate behind them, and opens the first
/// gate when they are on the disk. Neither part is copied, and no memory is taken.
pub fn add_gated<D: Disk>(
    disk: &mut D,
    file: File,
    gate: usize,
    front: &[u8],
    body: &[u8],
) -> Result<(), DiskFailed>
    requires closed { EndsClosed gate (content file (D.seen disk.old)) }
    requires durable { Only (D.seen disk.old) (D.may_leave disk.old) }
    requires room { gate + 1 + length front.now + length body.now < 2 ^ 64 }
    ensures written { OnOk result (In file (IsOpened (front.now ++ (body.now ++ 0 ∷ []))) (D.seen disk.old) (D.seen disk.new)) }
    ensures durable { OnOk result (Only (D.seen disk.new) (D.may_leave disk.new)) }
    ensures any_moment { LeavesOnly D.moment D.left_since disk.old disk.new
        (In file (IsOpening (front.now ++ (body.now ++ 0 ∷ []))) (D.seen disk.old)) }
    ensures cause { OnErr result (IsTrue (D.has_failed disk.new)) }
{
    write_parts(disk, file, gate + 1, front, body, &[0])?;
    write_through(disk, file, gate, &[1])
}

/// Gives a file the beginning of a new head, with its gate closed, and nothing behind it.
///
/// The file is cut to nothing first, and that is on the disk before the new gate is written: a change that a
/// crash cut short may have left a whole head there, with the next number behind a closed gate, and a torn
/// write of that gate would open it.
pub fn close_head<A: Allocator, D: Disk>(
    alloc: A,
    disk: &mut D,
    file: File,
    number: u64,
) -> Result<(), JournalFault>
    requires durable { Only (D.seen disk.old) (D.may_leave disk.old) }
    ensures written { OnOk result (In file (IsClosedHead number) (D.seen disk.old) (D.seen disk.new)) }
    ensures durable { OnOk result (Only (D.seen disk.new) (D.may_leave disk.new)) }
    ensures any_moment { LeavesOnly D.moment D.left_since disk.old disk.new (In file IsLess (D.seen disk.old)) }
    ensures failed { IsErrOf result JournalFault.Failed → IsTrue (D.has_failed disk.new) }
    ensures full { IsErrOf result JournalFault.Full → ⊥ }
    ensures memory { IsErrOf result JournalFault.OutOfMemory → disk.new ≡ disk.old }
{
    let front = head_front(alloc, number)?;
    cut_through(disk, file, 0)?;
    write_through(disk, file, 0, &front)?;
    Ok(())
}

/// Writes a state and the closed gate of the first record behind the closed gate of a head, and opens it when they are on
/// the disk.
fn add_state<D: Disk>(disk: &mut D, file: File, state: &[u8]) -> Result<(), DiskFailed>
    requires closed { EndsClosed 12 (content file (D.seen disk.old)) }
    requires durable { Only (D.seen disk.old) (D.may_leave disk.old) }
    requires room { length state.now < 2 ^ 60 }
    ensures written { OnOk result (In file (IsOpened (behind_gate state.now ++ 0 ∷ [])) (D.seen disk.old) (D.seen disk.new)) }
    ensures durable { OnOk result (Only (D.seen disk.new) (D.may_leave disk.new)) }
    ensures any_moment { LeavesOnly D.moment D.left_since disk.old disk.new
        (In file (IsOpening (behind_gate state.now ++ 0 ∷ [])) (D.seen disk.old)) }
    ensures cause { OnErr result (IsTrue (D.has_failed disk.new)) }
{
    let len = (state.len() as u64).to_be_bytes();
    add_gated(disk, file, GATE, &len, state)
}

/// Gives a file a new head, and no records.
pub fn write_head<A: Allocator + Copy, D: Disk>(
    alloc: A,
    disk: &mut D,
    file: File,
    number: u64,
    state: &[u8],
) -> Result<(), JournalFault>
    requires durable { Only (D.seen disk.old) (D.may_leave disk.old) }
    requires room { length state.now < 2 ^ 60 }
    ensures written { OnOk result (In file (λ old new. IsFresh number state.now new) (D.seen disk.old) (D.seen disk.new)) }
    ensures durable { OnOk result (Only (D.seen disk.new) (D.may_leave disk.new)) }
    ensures any_moment { LeavesOnly D.moment D.left_since disk.old disk.new (In file (IsRenewed number state.now) (D.seen disk.old)) }
    ensures failed { IsErrOf result JournalFault.Failed → IsTrue (D.has_failed disk.new) }
    ensures full { IsErrOf result JournalFault.Full → ⊥ }
    ensures memory { IsErrOf result JournalFault.OutOfMemory → disk.new ≡ disk.old }
{
    close_head(alloc, disk, file, number)?;
    add_state(disk, file, state)?;
    Ok(())
}

/// Brings to the disk what is there, in both files. `Err` where the disk has failed.
///
/// A process that was killed may leave more to read than is on the disk. So a disk of files that one has left
/// wants this before `Journal::open`, unless whoever opened them has synced them already.
pub fn settle<D: Disk>(disk: &mut D) -> Result<(), DiskFailed>
    ensures durable { OnOk result (Only (D.seen disk.new) (D.may_leave disk.new)) }
    ensures seen { D.seen disk.new ≡ D.seen disk.old }
    ensures any_moment { LeavesOnly D.moment D.left_since disk.old disk.new (D.may_leave disk.old) }
    ensures cause { OnErr result (IsTrue (D.has_failed disk.new)) }
{
    disk.sync(File::First)?;
    disk.sync(File::Second)
}
