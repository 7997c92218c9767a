//! Two files as the journal sees them: what is there, and what a crash may leave of both.
ghost use Rattle.std.specs.Prelude.{◌≡◌, ◌≤◌, Bool, ℕ, length, OnOk, OnErr, IsTrue};
ghost use Rattle.kfs_journal.specs.Disk.{Files, content, other, In, Torn, Cut, Follows, Holds, IsFront, Elapses};

use thiserror::Error;

/// One of the two files.
#[derive(Clone, Copy, Debug, PartialEq, Eq)]
pub enum File {
    /// That on which a journal is created. It counts where both have one number.
    First,
    /// That to which the first change of state goes.
    Second,
}

impl File {
    /// The other of the two.
    pub fn other(self) -> File
        ensures { result ≡ other self }
    {
        match self {
            File::First => File::Second,
            File::Second => File::First,
        }
    }
}

/// A call of the disk failed. What it was asked for may be done, in part or not at all.
#[derive(Clone, Copy, Debug, PartialEq, Eq, Error)]
#[error("failed")]
pub struct DiskFailed;

/// Two files. A crash hits both at one moment, so both stand behind one trait, and each call names the file.
///
/// Nothing is read here: no real file can promise that what is read is what was written. Who opens the files
/// reads them, once, and what was read then is what is there.
pub trait Disk {
    /// The bytes that are there, if nothing crashes.
    ghost seen: { Self → Files };

    /// What a crash at this moment may leave.
    ghost may_leave: { Self → Files → Type 0 };

    /// The moment, as a number that doesn't fall.
    ghost moment: { Self → ℕ };

    /// What a crash at some moment from that one on might have left, during a call or between two.
    ghost left_since: { Self → ℕ → Files → Type 0 };

    /// The disk has failed.
    ghost has_failed: { Self → Bool };

    /// Writes over what is there from byte `at` on, and past the end. Until a sync, a crash may leave any bytes
    /// in the range. `Err` where the disk has failed.
    fn write_at(&mut self, file: File, at: usize, bytes: &[u8]) -> Result<(), DiskFailed>
        requires { at ≤ length (content file (seen self.old)) }
        ensures written { OnOk result (In file (Holds at bytes.now) (seen self.old) (seen self.new)) }
        ensures crash { Follows (In file (Torn at (length bytes.now))) (may_leave self.old) (may_leave self.new) }
        ensures time { Elapses (moment self.old) (moment self.new) (left_since self.old) (left_since self.new) (may_leave self.new) }
        ensures cause { OnErr result (IsTrue (has_failed self.new)) };

    /// Cuts a file to `len` bytes. Until a sync, a crash may leave any length between. `Err` where the disk has
    /// failed.
    fn cut(&mut self, file: File, len: usize) -> Result<(), DiskFailed>
        requires { len ≤ length (content file (seen self.old)) }
        ensures cut { OnOk result (In file (IsFront len) (seen self.old) (seen self.new)) }
        ensures crash { Follows (In file (Cut len)) (may_leave self.old) (may_leave self.new) }
        ensures time { Elapses (moment self.old) (moment self.new) (left_since self.old) (left_since self.new) (may_leave self.new) }
        ensures cause { OnErr result (IsTrue (has_failed self.new)) };

    /// After `Ok`, a crash leaves of this file what is there. `Err` where the disk has failed.
    fn sync(&mut self, file: File) -> Result<(), DiskFailed>
        ensures durable { OnOk result ((c : Files) → may_leave self.new c → content file c ≡ content file (seen self.old)) }
        ensures seen { seen self.new ≡ seen self.old }
        ensures crash { (c : Files) → may_leave self.new c → may_leave self.old c }
        ensures time { Elapses (moment self.old) (moment self.new) (left_since self.old) (left_since self.new) (may_leave self.new) }
        ensures cause { OnErr result (IsTrue (has_failed self.new)) };

    /// This moment is one of those since an earlier one.
    ghost counts_now: { (disk : Self) (t : ℕ) (c : Files) → t ≤ moment disk → may_leave disk c → left_since disk t c };

    /// Since this moment there is no other.
    ghost only_now: { (disk : Self) (c : Files) → left_since disk (moment disk) c → may_leave disk c };
}
