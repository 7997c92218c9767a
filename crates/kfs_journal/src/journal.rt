//! The journal: one file counts, and the other waits for the next state.
ghost use Rattle.std.specs.Prelude.{◌≡◌, ◌⊎◌, ◌≤◌, ◌<◌, ◌+◌, ◌^◌, ◌↔◌, ℕ, List, [], IsTrue, length, IfSome, IfOk, OnOk, IsErrOf, IsNone, option_map, Some, None};
ghost use Rattle.kfs_journal.specs.Disk.{Files, content, other, Only, LeavesOnly};
ghost use Rattle.kfs_journal.specs.Draft.{HasDraft};
ghost use Rattle.kfs_journal.specs.declared.journal.draft.Draft.{Draft};
ghost use Rattle.kfs_journal.specs.Format.{head_at, meaning, with_group};
ghost use Rattle.kfs_journal.specs.Journal.{IsSettled, IsBehind, IsOneOf, HasGrown, StandsOn, AreEmpty, AreForeign, opened_pair};

mod draft;

pub use self::draft::Draft;
use crate::disk::{Disk, File};
use crate::fault::JournalFault;
use crate::format::{Head, head_of, read_groups};
use crate::open_fault::OpenFault;
use crate::steps::{HEAD, add_gated, cut_through, write_head, write_through};
use std::alloc::Allocator;

/// The most bytes of a group: its length has four bytes.
const MAX_GROUP: usize = (1 << 32) - 1;

/// Where the last gate of a file may stand, that the sums of places stay within 64 bits.
const MAX_END: usize = 1 << 60;

/// The length of a state, for the same reason.
const MAX_STATE: usize = 1 << 60;

/// A change of state is due where the records have so many bytes,
const DUE_RECORDS: usize = 1 << 20;

/// and so many times those of the state. So what changes write stays below a quarter of what groups do.
const DUE_TIMES: usize = 4;

/// Where a journal stands: the file that counts, the number of its state and how many bytes it has, and where the
/// file's last gate stands. It takes no memory, and goes with one disk, which the caller keeps.
///
/// After a call with `Failed` it can't be used again: the clause `IsSettled`, which each call wants, is gone.
/// Open the files again.
#[derive(Clone, Copy, Debug)]
pub struct Journal {
    file: File,
    number: u64,
    state_len: usize,
    end: usize,
}

/// A journal that was opened, with its state and the groups since, in their order.
#[derive(Drop)]
pub struct Opened<A: Allocator> {
    pub journal: Journal,
    pub state: Vec<u8, A>,
    pub groups: Vec<Vec<u8, A>, A>,
}

impl Journal {
    /// Adds a group of at most 4,294,967,295 bytes, by two syncs. Takes no memory. At `Ok` it is acknowledged: from then
    /// on each crash leaves files that have it.
    ///
    /// `Full` where the group is longer, or 2^60 bytes of the file are used: all is as it was. `Failed` where the disk
    /// has failed: the group is kept or it isn't, and `open` tells which.
    pub fn put<D: Disk>(&mut self, disk: &mut D, group: &[u8]) -> Result<(), JournalFault>
        requires { IsSettled (D.seen disk.old) (D.may_leave disk.old) self.old }

        ensures settled { OnOk result (IsSettled (D.seen disk.new) (D.may_leave disk.new) self.new) }
        ensures acknowledged { OnOk result (meaning (D.seen disk.new) ≡ with_group (meaning (D.seen disk.old)) group.now) }

        // A draft of the next file stays as it is.
        ensures draft { (draft : Draft) (bytes : List ℕ) → HasDraft (D.seen disk.old) self.old draft bytes
            → OnOk result (HasDraft (D.seen disk.new) self.new draft bytes) }
        ensures short { OnOk result (length group.now < 2 ^ 32) }

        // A crash at any moment of the call leaves what was before it, with the new group or without.
        ensures any_moment { LeavesOnly D.moment D.left_since disk.old disk.new
            (IsOneOf (meaning (D.seen disk.old)) (with_group (meaning (D.seen disk.old)) group.now)) }

        // It doesn't give up by itself.
        ensures failed { IsErrOf result JournalFault.Failed → IsTrue (D.has_failed disk.new) }
        ensures full { IsErrOf result JournalFault.Full → (2 ^ 32 ≤ length group.now) ⊎ (2 ^ 60 ≤ self.old.end) }
        ensures full_same { IsErrOf result JournalFault.Full → (self.new ≡ self.old) × (disk.new ≡ disk.old) }
        ensures memory { IsErrOf result JournalFault.OutOfMemory → ⊥ }
    {
        if group.len() > MAX_GROUP || self.is_full() {
            return Err(JournalFault::Full);
        }
        let len = (group.len() as u32).to_be_bytes();
        add_gated(disk, self.file, self.end, &len, group)?;
        // a gate and a length, and the group
        self.end += 5 + group.len();
        Ok(())
    }

    /// Whether 2^60 bytes of the file are used. No group is put then: `change` goes on in the other file.
    pub fn is_full(&self) -> bool
        ensures { IsTrue result ↔ (2 ^ 60 ≤ self.now.end) }
    {
        self.end >= MAX_END
    }

    /// Whether the records have 2^20 bytes or more, and four times as many as the state or more. Then `change` is
    /// due: it cuts the file, and the time to open it.
    pub fn is_change_due(&self) -> bool
        ensures { (files : Files) → StandsOn files self.now → (IsTrue result ↔ HasGrown (meaning files)) }
    {
        let records = self.end.saturating_sub(HEAD).saturating_sub(self.state_len);
        records >= DUE_RECORDS && self.state_len.saturating_mul(DUE_TIMES) <= records
    }

    /// Goes on in the other file, from a new state and no groups, by four syncs. At `Ok` each crash leaves files
    /// that stand for it.
    ///
    /// `Full` where the state has 2^60 bytes or more, or the last number is used up. `OutOfMemory` where memory
    /// for the head's few bytes is refused. Both leave all as it was. `Failed` where the disk has failed: the
    /// files stand for what was or for the new state, and `open` tells which.
    pub fn change<A: Allocator + Copy, D: Disk>(
        &mut self,
        alloc: A,
        disk: &mut D,
        state: &[u8],
    ) -> Result<(), JournalFault>
        requires { IsSettled (D.seen disk.old) (D.may_leave disk.old) self.old }

        ensures settled { OnOk result (IsSettled (D.seen disk.new) (D.may_leave disk.new) self.new) }
        ensures changed { OnOk result (meaning (D.seen disk.new) ≡ Some (state.now, [])) }

        // A crash at any moment of the call leaves what was before it, or the new state and no groups.
        ensures any_moment { LeavesOnly D.moment D.left_since disk.old disk.new
            (IsOneOf (meaning (D.seen disk.old)) (Some (state.now, []))) }

        ensures failed { IsErrOf result JournalFault.Failed → IsTrue (D.has_failed disk.new) }
        ensures full { IsErrOf result JournalFault.Full → (2 ^ 60 ≤ length state.now) ⊎ (2 ^ 64 ≤ self.old.number + 1) }
        ensures full_same { IsErrOf result JournalFault.Full → (self.new ≡ self.old) × (disk.new ≡ disk.old) }
        ensures memory { IsErrOf result JournalFault.OutOfMemory → (self.new ≡ self.old) × (disk.new ≡ disk.old) }
    {
        if state.len() >= MAX_STATE || self.number == u64::MAX {
            return Err(JournalFault::Full);
        }
        let file = self.file.other();
        let number = self.number + 1;
        write_head(alloc, disk, file, number, state)?;
        self.file = file;
        self.number = number;
        self.state_len = state.len();
        self.end = HEAD + state.len();
        Ok(())
    }

    /// Begins a journal on two empty files, by four syncs.
    ///
    /// `Full` where the state has 2^60 bytes or more, `OutOfMemory` where memory is refused: the disk is as it
    /// was. `Failed` where the disk has failed. A crash within the call may leave files that `open` refuses with
    /// `NotAJournal`; nothing was acknowledged from them.
    pub fn create<A: Allocator + Copy, D: Disk>(
        alloc: A,
        disk: &mut D,
        state: &[u8],
    ) -> Result<Journal, JournalFault>
        requires empty { AreEmpty (D.seen disk.old) }
        requires durable { Only (D.seen disk.old) (D.may_leave disk.old) }

        ensures settled { IfOk result (λ journal. IsSettled (D.seen disk.new) (D.may_leave disk.new) journal) }
        ensures created { OnOk result (meaning (D.seen disk.new) ≡ Some (state.now, [])) }
        ensures any_moment { LeavesOnly D.moment D.left_since disk.old disk.new (IsOneOf None (Some (state.now, []))) }
        ensures failed { IsErrOf result JournalFault.Failed → IsTrue (D.has_failed disk.new) }
        ensures full { IsErrOf result JournalFault.Full → (2 ^ 60 ≤ length state.now) × (disk.new ≡ disk.old) }
        ensures memory { IsErrOf result JournalFault.OutOfMemory → disk.new ≡ disk.old }
    {
        if state.len() >= MAX_STATE {
            return Err(JournalFault::Full);
        }
        write_head(alloc, disk, File::First, 0, state)?;
        Ok(Journal {
            file: File::First,
            number: 0,
            state_len: state.len(),
            end: HEAD + state.len(),
        })
    }

    /// Finds what the files stand for, which a crash may have left, and repairs the end of the one that counts,
    /// by two syncs. `first` and `second` are the bytes of both. None where both are empty.
    ///
    /// Nothing that was written stays behind the last gate: while a write closes that gate, it could be torn
    /// open. A crash within the call leaves files that stand for the same.
    ///
    /// `NotAJournal` where neither file has a whole open head and they aren't both empty. `OutOfMemory` where
    /// memory is refused; state and groups are copied. Both leave the disk as it was. `Failed` where it has
    /// failed.
    pub fn open<A: Allocator + Copy, D: Disk>(
        alloc: A,
        disk: &mut D,
        first: &[u8],
        second: &[u8],
    ) -> Result<Option<Opened<A>>, OpenFault>
        requires bytes { D.seen disk.old ≡ (first.now, second.now) }
        // After a restart, what is there is what is on the disk.
        requires durable { Only (D.seen disk.old) (D.may_leave disk.old) }

        ensures found { IfOk result (λ found. option_map opened_pair found ≡ meaning (D.seen disk.old)) }
        ensures settled { IfOk result (λ found. IfSome found (λ opened. IsSettled (D.seen disk.new) (D.may_leave disk.new) opened.journal)) }
        ensures empty { IfOk result (λ found. IsNone found → AreEmpty (D.seen disk.new)) }
        ensures same { OnOk result (meaning (D.seen disk.new) ≡ meaning (D.seen disk.old)) }
        ensures durable { OnOk result (Only (D.seen disk.new) (D.may_leave disk.new)) }

        // A crash at any moment leaves what was there.
        ensures any_moment { LeavesOnly D.moment D.left_since disk.old disk.new (λ c. meaning c ≡ meaning (D.seen disk.old)) }

        ensures foreign { IsErrOf result OpenFault.NotAJournal ↔ AreForeign (D.seen disk.old) }
        ensures foreign_same { IsErrOf result OpenFault.NotAJournal → disk.new ≡ disk.old }
        ensures failed { IsErrOf result OpenFault.Failed → IsTrue (D.has_failed disk.new) }
        ensures memory { IsErrOf result OpenFault.OutOfMemory → disk.new ≡ disk.old }
    {
        match (head_of(first), head_of(second)) {
            (None, None) => {
                if first.is_empty() && second.is_empty() {
                    Ok(None)
                } else {
                    Err(OpenFault::NotAJournal)
                }
            }
            (Some(head), None) => Ok(Some(open_file(alloc, disk, File::First, first, &head)?)),
            (None, Some(head)) => Ok(Some(open_file(alloc, disk, File::Second, second, &head)?)),
            (Some(older), Some(newer)) => {
                if older.number < newer.number {
                    Ok(Some(open_file(alloc, disk, File::Second, second, &newer)?))
                } else {
                    Ok(Some(open_file(alloc, disk, File::First, first, &older)?))
                }
            }
        }
    }
}

/// Reads the groups of the file that counts, and repairs its end: cuts what stands behind the last whole
/// record, and closes the gate there.
fn open_file<A: Allocator + Copy, D: Disk>(
    alloc: A,
    disk: &mut D,
    file: File,
    bytes: &[u8],
    head: &Head<'_>,
) -> Result<Opened<A>, OpenFault>
    requires durable { Only (D.seen disk.old) (D.may_leave disk.old) }
    requires bytes { bytes.now ≡ content file (D.seen disk.old) }
    requires head { head_at bytes.now ≡ Some ((head.now.number, head.now.state.now), head.now.rest.now) }
    requires older { IsBehind file head.now.number (content (other file) (D.seen disk.old)) }

    ensures found { IfOk result (λ opened. Some (opened_pair opened) ≡ meaning (D.seen disk.old)) }
    ensures settled { IfOk result (λ opened. IsSettled (D.seen disk.new) (D.may_leave disk.new) opened.journal) }
    ensures same { OnOk result (meaning (D.seen disk.new) ≡ meaning (D.seen disk.old)) }
    ensures durable { OnOk result (Only (D.seen disk.new) (D.may_leave disk.new)) }
    ensures any_moment { LeavesOnly D.moment D.left_since disk.old disk.new (λ c. meaning c ≡ meaning (D.seen disk.old)) }
    ensures not_foreign { IsErrOf result OpenFault.NotAJournal → ⊥ }
    ensures failed { IsErrOf result OpenFault.Failed → IsTrue (D.has_failed disk.new) }
    ensures memory { IsErrOf result OpenFault.OutOfMemory → disk.new ≡ disk.old }
{
    let state = head.state.to_vec(alloc)?;
    let (groups, left) = read_groups(alloc, head.rest)?;
    let end = bytes.len() - left;
    cut_through(disk, file, end)?;
    write_through(disk, file, end, &[0])?;
    let journal = Journal {
        file,
        number: head.number,
        state_len: head.state.len(),
        end,
    };
    Ok(Opened {
        journal,
        state,
        groups,
    })
}
