//! The next file, written in parts, while the journal goes on in the one that counts.
ghost use Rattle.std.specs.Prelude.{◌≡◌, ◌⊎◌, ◌≤◌, ◌+◌, ◌^◌, ◌++◌, [], ℕ, List, IsTrue, IfOk, OnOk, OnErr, IsErrOf, Some};
ghost use Rattle.kfs_journal.specs.Disk.{LeavesOnly};
ghost use Rattle.kfs_journal.specs.Draft.{HasDraft, IsDrafted, IsWhole, IsWritten};
ghost use Rattle.kfs_journal.specs.Format.{meaning};
ghost use Rattle.kfs_journal.specs.Journal.{IsSettled, IsOneOf};

use super::{Journal, MAX_END, MAX_STATE};
use crate::disk::{Disk, DiskFailed};
use crate::fault::JournalFault;
use crate::steps::{GATE, HEAD, close_head, write_through};
use std::alloc::Allocator;

/// The next file while it is written: how many bytes its state has, and where its own bytes end. It takes no memory.
///
/// A host takes the bytes of a state, begins a draft, and adds these bytes in parts. Between two parts it puts groups.
/// Behind the state it adds the records of the groups that it has put since (`push_record`), and then finishes. What a
/// group waits for meanwhile is one part and its sync.
///
/// The gate of the draft's head is closed until `finish`. So until then the files stand for what the journal's own
/// file does, and a draft can be given up at any time: forget it.
#[derive(Clone, Copy, Debug)]
pub struct Draft {
    state_len: usize,
    end: usize,
}

impl Draft {
    /// Begins the file that doesn't count anew, for a state of so many bytes, by three syncs.
    ///
    /// `Full` where the state has 2^60 bytes or more, or the last number is used up. `OutOfMemory` where memory for
    /// the head's few bytes is refused. Both leave the disk as it was. `Failed` where it has failed.
    pub fn begin<A: Allocator, D: Disk>(
        alloc: A,
        journal: &Journal,
        disk: &mut D,
        state_len: usize,
    ) -> Result<Draft, JournalFault>
        requires { IsSettled (D.seen disk.old) (D.may_leave disk.old) journal.now }
        ensures settled { OnOk result (IsSettled (D.seen disk.new) (D.may_leave disk.new) journal.now) }
        ensures draft { IfOk result (λ draft. HasDraft (D.seen disk.new) journal.now draft [] × (draft.state_len ≡ state_len)) }
        ensures same { OnOk result (meaning (D.seen disk.new) ≡ meaning (D.seen disk.old)) }

        // A crash at any moment leaves what was there.
        ensures any_moment { LeavesOnly D.moment D.left_since disk.old disk.new (λ c. meaning c ≡ meaning (D.seen disk.old)) }

        ensures failed { IsErrOf result JournalFault.Failed → IsTrue (D.has_failed disk.new) }
        ensures full { IsErrOf result JournalFault.Full → (2 ^ 60 ≤ state_len) ⊎ (2 ^ 64 ≤ journal.now.number + 1) }
        ensures full_same { IsErrOf result JournalFault.Full → disk.new ≡ disk.old }
        ensures memory { IsErrOf result JournalFault.OutOfMemory → disk.new ≡ disk.old }
    {
        if state_len >= MAX_STATE || journal.number == u64::MAX {
            return Err(JournalFault::Full);
        }
        let file = journal.file.other();
        close_head(alloc, disk, file, journal.number + 1)?;
        let len = (state_len as u64).to_be_bytes();
        write_through(disk, file, GATE + 1, &len)?;
        Ok(Draft {
            state_len,
            end: HEAD,
        })
    }

    /// Adds bytes, by one sync.
    ///
    /// `Full` where 2^60 bytes of the file are used: nothing has changed. `Failed` where the disk has failed.
    pub fn extend<D: Disk>(
        &mut self,
        journal: &Journal,
        disk: &mut D,
        bytes: &[u8],
    ) -> Result<(), JournalFault>
        requires settled { IsSettled (D.seen disk.old) (D.may_leave disk.old) journal.now }
        requires draft { IsDrafted (D.seen disk.old) journal.now self.old }
        ensures settled { OnOk result (IsSettled (D.seen disk.new) (D.may_leave disk.new) journal.now) }
        ensures draft { (body : List ℕ) → HasDraft (D.seen disk.old) journal.now self.old body
            → OnOk result (HasDraft (D.seen disk.new) journal.now self.new (body ++ bytes.now)) }
        ensures same { OnOk result (meaning (D.seen disk.new) ≡ meaning (D.seen disk.old)) }
        ensures len { self.new.state_len ≡ self.old.state_len }

        // A crash at any moment leaves what was there.
        ensures any_moment { LeavesOnly D.moment D.left_since disk.old disk.new (λ c. meaning c ≡ meaning (D.seen disk.old)) }

        ensures failed { IsErrOf result JournalFault.Failed → IsTrue (D.has_failed disk.new) }
        ensures full { IsErrOf result JournalFault.Full → 2 ^ 60 ≤ self.old.end }
        ensures full_same { IsErrOf result JournalFault.Full → (self.new ≡ self.old) × (disk.new ≡ disk.old) }
        ensures memory { IsErrOf result JournalFault.OutOfMemory → ⊥ }
    {
        if self.end >= MAX_END {
            return Err(JournalFault::Full);
        }
        write_through(disk, journal.file.other(), self.end, bytes)?;
        self.end += bytes.len();
        Ok(())
    }

    /// Lets the draft's file count, by two syncs. From then on the journal goes on in it.
    ///
    /// Condition: the draft has its state whole, and whole records behind it. `Err` where the disk has failed: the
    /// files stand for what was or for that state and the groups of these records, and `open` tells which.
    pub fn finish<D: Disk>(self, journal: &mut Journal, disk: &mut D) -> Result<(), DiskFailed>
        requires settled { IsSettled (D.seen disk.old) (D.may_leave disk.old) journal.old }
        requires whole { IsWritten (D.seen disk.old) journal.old self }
        ensures settled { OnOk result (IsSettled (D.seen disk.new) (D.may_leave disk.new) journal.new) }
        ensures changed { (state : List ℕ) (groups : List (List ℕ)) → IsWhole (D.seen disk.old) journal.old self state groups
            → OnOk result (meaning (D.seen disk.new) ≡ Some (state, groups)) }

        // A crash at any moment leaves what was before it, or the draft's state and its groups.
        ensures any_moment { (state : List ℕ) (groups : List (List ℕ)) → IsWhole (D.seen disk.old) journal.old self state groups
            → LeavesOnly D.moment D.left_since disk.old disk.new (IsOneOf (meaning (D.seen disk.old)) (Some (state, groups))) }

        ensures failed { OnErr result (IsTrue (D.has_failed disk.new)) }
    {
        let file = journal.file.other();
        // the closed gate of the record to come
        write_through(disk, file, self.end, &[0])?;
        write_through(disk, file, GATE, &[1])?;
        journal.file = file;
        journal.number += 1;
        journal.state_len = self.state_len;
        journal.end = self.end;
        Ok(())
    }
}
