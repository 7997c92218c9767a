//! A checkpoint that is made in steps, between which calls go on.
ghost use Rattle.std.specs.Prelude.{◌≡◌, ◌⊎◌, ◌≤◌, ◌<◌, ◌+◌, ◌-◌, ◌^◌, ◌++◌, ◌↔◌, [], drop, length, take, IfOk, IfSome, IsErrOf, IsFalse, IsTrue, OnOk, Ok};
ghost use Rattle.kfs_model.specs.Judgement.{State};
ghost use Rattle.kfs_journal.specs.Disk.{Files, LeavesOnly};
ghost use Rattle.kfs_journal.specs.Format.{meaning};
ghost use Rattle.kfs_journal.specs.Journal.{IsSettled};
ghost use Rattle.kfs_journal.specs.declared.journal.Journal.{Journal};
ghost use Rattle.kfs_call_desk.specs.Restore.Restored.{RestoreAnswer};
ghost use Rattle.kfs_kept.specs.Calls.Leads.{GroupLeads};
ghost use Rattle.kfs_kept.specs.Renewing.{IsStep, IsUnderWay, KeepsAll, StaysOrEnds, done_after, reached, whole_of};
ghost use Rattle.kfs_kept.specs.Standing.{MeanTheSame, StandFor};

use kfs_journal::{Disk, Draft, Journal, JournalFault, push_record};
use std::alloc::Allocator;

/// A checkpoint under way. It has the state's bytes and the records of the groups since, until all of them are in the next
/// file.
///
/// These are two lists: where one grows, the other isn't copied.
#[derive(Drop)]
pub struct Renewal<A: Allocator> {
    /// The next file, as far as it is written.
    draft: Draft,
    /// The bytes of the state in which the desk stood at the beginning.
    state: Vec<u8, A>,
    /// The records of the groups since.
    records: Vec<u8, A>,
    /// How many bytes of the state, and of the records behind it, are written.
    done: usize,
    /// How many bytes the records had at the last step.
    known: usize,
}

impl<A: Allocator + Copy> Renewal<A> {
    /// Begins the next file for a state with these bytes, by three syncs.
    ///
    /// `Err` is that of `Draft::begin`.
    pub fn begin<D: Disk>(
        alloc: A,
        state: Vec<u8, A>,
        journal: &Journal,
        disk: &mut D,
    ) -> Result<Renewal<A>, JournalFault>
        requires settled { IsSettled (D.seen disk.old) (D.may_leave disk.old) journal.now }
        ensures settled { OnOk result (IsSettled (D.seen disk.new) (D.may_leave disk.new) journal.now) }
        ensures under_way { (s : State) → RestoreAnswer state.items (Ok s) → IfOk result (λ r. IsUnderWay (D.seen disk.new) journal.now r s) }
        ensures begun { IfOk result (λ r. (r.state ≡ state) × (r.records.items ≡ []) × (r.done ≡ 0)) }
        ensures same { OnOk result (MeanTheSame (D.seen disk.old) (D.seen disk.new)) }
        ensures any_moment { LeavesOnly D.moment D.left_since disk.old disk.new (MeanTheSame (D.seen disk.old)) }
        ensures failed { IsErrOf result JournalFault.Failed → IsTrue (D.has_failed disk.new) }
        ensures full { IsErrOf result JournalFault.Full → (2 ^ 60 ≤ length state.items) ⊎ (2 ^ 64 ≤ journal.now.number + 1) }
        ensures full_same { IsErrOf result JournalFault.Full → disk.new ≡ disk.old }
        ensures memory { IsErrOf result JournalFault.OutOfMemory → disk.new ≡ disk.old }
    {
        let draft = Draft::begin(alloc, journal, disk, state.len())?;
        Ok(Renewal {
            draft,
            state,
            records: Vec::new(alloc),
            done: 0,
            known: 0,
        })
    }

    /// Writes the next bytes: at most `most`, and of the records those beside that have come since the last step. Where
    /// all is written then, lets the file count, and answers true.
    ///
    /// One sync; the last step makes three. `Full` where the file has 2^60 bytes: nothing has changed.
    pub fn step<D: Disk>(
        &mut self,
        journal: &mut Journal,
        disk: &mut D,
        most: usize,
    ) -> Result<bool, JournalFault>
        requires settled { IsSettled (D.seen disk.old) (D.may_leave disk.old) journal.old }
        requires under_way { (s : State) × IsUnderWay (D.seen disk.old) journal.old self.old s }
        ensures settled { OnOk result (IsSettled (D.seen disk.new) (D.may_leave disk.new) journal.new) }
        ensures stand { (s : State) → IsUnderWay (D.seen disk.old) journal.old self.old s → StandFor (D.seen disk.old) s → OnOk result (StandFor (D.seen disk.new) s) }
        ensures under_way { (s : State) → IsUnderWay (D.seen disk.old) journal.old self.old s
            → IfOk result (λ finished. IsFalse finished → IsUnderWay (D.seen disk.new) journal.new self.new s) }
        ensures goes_on { IfOk result (λ finished. IsFalse finished → IsStep most self.old self.new × (self.new.done < length (whole_of self.new))) }
        ensures finishes { IfOk result (λ finished. IsTrue finished → (done_after most self.old ≡ length (whole_of self.old)) × KeepsAll self.old (meaning (D.seen disk.new))) }
        ensures any_moment { (s : State) → IsUnderWay (D.seen disk.old) journal.old self.old s → StandFor (D.seen disk.old) s
            → LeavesOnly D.moment D.left_since disk.old disk.new (λ c. StandFor c s) }
        ensures failed { IsErrOf result JournalFault.Failed → IsTrue (D.has_failed disk.new) }
        ensures full { IsErrOf result JournalFault.Full → 2 ^ 60 ≤ self.old.draft.end }
        ensures full_same { IsErrOf result JournalFault.Full → (self.new ≡ self.old) × (journal.new ≡ journal.old) × (disk.new ≡ disk.old) }
        ensures memory { IsErrOf result JournalFault.OutOfMemory → ⊥ }
    {
        self.write(journal, disk, most)?;
        if !self.is_written() {
            return Ok(false);
        }
        self.draft.finish(journal, disk)?;
        Ok(true)
    }

    /// Writes the next bytes.
    fn write<D: Disk>(
        &mut self,
        journal: &Journal,
        disk: &mut D,
        most: usize,
    ) -> Result<(), JournalFault>
        requires settled { IsSettled (D.seen disk.old) (D.may_leave disk.old) journal.now }
        requires under_way { (s : State) × IsUnderWay (D.seen disk.old) journal.now self.old s }
        ensures settled { OnOk result (IsSettled (D.seen disk.new) (D.may_leave disk.new) journal.now) }
        ensures under_way { (s : State) → IsUnderWay (D.seen disk.old) journal.now self.old s → OnOk result (IsUnderWay (D.seen disk.new) journal.now self.new s) }
        ensures step { OnOk result (IsStep most self.old self.new) }
        ensures same { OnOk result (MeanTheSame (D.seen disk.old) (D.seen disk.new)) }
        ensures any_moment { LeavesOnly D.moment D.left_since disk.old disk.new (MeanTheSame (D.seen disk.old)) }
        ensures failed { IsErrOf result JournalFault.Failed → IsTrue (D.has_failed disk.new) }
        ensures full { IsErrOf result JournalFault.Full → 2 ^ 60 ≤ self.old.draft.end }
        ensures full_same { IsErrOf result JournalFault.Full → (self.new ≡ self.old) × (disk.new ≡ disk.old) }
        ensures memory { IsErrOf result JournalFault.OutOfMemory → ⊥ }
    {
        let known = self.records.len();
        let come = known.saturating_sub(self.known);
        let part = next_part(&self.state, &self.records, self.done, most, come);
        let len = part.len();
        self.draft.extend(journal, disk, part)?;
        self.done += len;
        self.known = known;
        Ok(())
    }

    /// Whether all is written.
    fn is_written(&self) -> bool
        ensures { IsTrue result ↔ (self.now.done ≡ length (whole_of self.now)) }
    {
        self.done == self.state.len() + self.records.len()
    }
}

/// The checkpoint under way, if there is one, with the record of a group more. None where memory is refused for that.
pub fn with_group<A: Allocator>(renewal: Option<Renewal<A>>, group: &[u8]) -> Option<Renewal<A>>
    requires { length group.now < 2 ^ 32 }
    ensures under_way { (files : Files) (journal : Journal) (s t : State) → IfSome renewal (λ r. IsUnderWay files journal r s) → GroupLeads s group.now t
        → IfSome result (λ r. IsUnderWay files journal r t) }
    ensures stays { StaysOrEnds renewal result }
{
    let mut renewal = renewal?;
    match push_record(&mut renewal.records, group) {
        Ok(()) => Some(renewal),
        Err(_) => None,
    }
}

/// The bytes of a step, where so many of the state and of the records behind it are written: at most `most` of the state, or
/// of the records, and of these `come` beside.
fn next_part<'a>(
    state: &'a [u8],
    records: &'a [u8],
    done: usize,
    most: usize,
    come: usize,
) -> &'a [u8]
    requires { done ≤ length state.now + length records.now }
    ensures parts { take (done + length result.now) (state.now ++ records.now) ≡ take done (state.now ++ records.now) ++ result.now }
    ensures within { done + length result.now ≤ length state.now + length records.now }
    ensures reached { done + length result.now ≡ reached most (most + come) done (length state.now) (length records.now) }
{
    if done < state.len() {
        part_from(state, done, most)
    } else {
        part_from(records, done - state.len(), most.saturating_add(come))
    }
}

/// At most so many bytes from this place on.
fn part_from(bytes: &[u8], from: usize, most: usize) -> &[u8]
    requires { from ≤ length bytes.now }
    ensures { result.now ≡ take most (drop from bytes.now) }
{
    let rest = &bytes[from..];
    &rest[..most.min(rest.len())]
}
