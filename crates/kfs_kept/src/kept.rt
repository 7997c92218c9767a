//! A desk, and the journal that keeps it.
ghost use Rattle.std.specs.Prelude.{◌≡◌, ◌⊎◌, ◌≤◌, ◌+◌, ◌^◌, ◌↔◌, [], None, OnOk, OnErr, IfErr, IfOk, IfSome, IsErrOf, IsFalse, IsNone, IsSome, IsSomeAnd, IsTrue, length, map};
ghost use Rattle.std.specs.List.{sum_by};
ghost use Rattle.kfs_model.specs.Judgement.{State};
ghost use Rattle.kfs_desk.specs.Machine.{opened_at};
ghost use Rattle.kfs_desk.specs.Opening.{begin_fault};
ghost use Rattle.kfs_journal.specs.Disk.{Files, LeavesOnly, Only};
ghost use Rattle.kfs_journal.specs.Format.{meaning};
ghost use Rattle.kfs_journal.specs.Journal.{AreEmpty, HasGrown};
ghost use Rattle.kfs_kept.specs.Admitting.{Admits, IsWhyNotAdmitted, StandForAdmitted, with_clients};
ghost use Rattle.kfs_kept.specs.Calls.Making.{Runs, answered};
ghost use Rattle.kfs_call_desk.specs.Restore.Saved.{HasTooMany};
ghost use Rattle.kfs_kept.specs.Faults.{IsOutside, IsWhy};
ghost use Rattle.kfs_kept.specs.Keeping.{IsKept};
ghost use Rattle.kfs_kept.specs.Renewing.{Finishes, GoesOn, IsBegun, StaysOrEnds};
ghost use Rattle.kfs_kept.specs.Standing.{HasLongBytes, MeanTheSame, StandFor, StandForAtMost, StandForBeforeOrAfter};

use crate::admitting::{admission_of, are_same};
use crate::calls::{Early, Judges, Made, judge_early, room_for};
use crate::fault::{AdmitFault, CallsFault, OpenFault, SaveFault};
use crate::opening::find;
use crate::renewal::{Renewal, with_group};
use crate::saving::{begin_journal, state_of};
use kfs_call_desk::{CallFault, Called};
use kfs_desk::Desk;
use kfs_journal::{Disk, Journal, JournalFault};
use kfs_mode::Client;
use std::alloc::Allocator;
use std::thread::Threads;

/// A desk, the journal that keeps it, and the disk that both files of the journal are on. A checkpoint may be under way.
///
/// Once the disk has failed, the desk is closed: each call is refused with `Closed`. Drop it then, and open the files
/// again. Nothing else closes it: what keeps a group takes no memory behind the group's first call.
#[derive(Drop)]
pub struct Kept<A: Allocator, D: Disk + Drop> {
    desk: Desk<A>,
    journal: Journal,
    disk: D,
    is_open: bool,
    renewal: Option<Renewal<A>>,
}

/// Why no journal is created. Desk and disk come back.
#[derive(Drop)]
pub struct CreateBack<A: Allocator, D: Disk + Drop> {
    pub desk: Desk<A>,
    pub disk: D,
    pub why: SaveFault,
}

/// Why files aren't opened. The disk comes back.
#[derive(Drop)]
pub struct OpenBack<D: Disk + Drop> {
    pub disk: D,
    pub why: OpenFault,
}

impl<A: Allocator + Copy, D: Disk + Drop> Kept<A, D> {
    /// Keeps a desk: its state is the first of a new journal on two empty files.
    ///
    /// Condition: the desk's clients can be beside each other, as those of each desk that was begun, resumed or
    /// restored. `Err` hands desk and disk back. The disk is as it was then, unless it has failed.
    pub fn create<B: Allocator + Copy>(
        alloc: B,
        desk: Desk<A>,
        mut disk: D,
    ) -> Result<Kept<A, D>, CreateBack<A, D>>
        requires beside { begin_fault desk.state.clients ≡ None }
        requires empty { AreEmpty (D.seen disk) }
        requires durable { Only (D.seen disk) (D.may_leave disk) }

        ensures kept { IfOk result (λ kept. IsKept D.seen D.may_leave kept) }
        ensures open { IfOk result (λ kept. IsTrue kept.is_open) }
        ensures desk { IfOk result (λ kept. kept.desk ≡ desk) }

        // A crash at any moment leaves nothing, or the desk's state.
        ensures any_moment { IfOk result (λ kept. LeavesOnly D.moment D.left_since disk kept.disk (StandForAtMost desk.state)) }
        ensures any_moment_err { IfErr result (λ back. LeavesOnly D.moment D.left_since disk back.disk (StandForAtMost desk.state)) }

        // It doesn't give up by itself.
        ensures back { IfErr result (λ back. back.desk ≡ desk) }
        ensures same { IfErr result (λ back. (back.why ≡ SaveFault.Failed) ⊎ (back.disk ≡ disk)) }
        ensures failed { IfErr result (λ back. back.why ≡ SaveFault.Failed → IsTrue (D.has_failed back.disk)) }
        ensures many { IfErr result (λ back. back.why ≡ SaveFault.TooMany → HasTooMany desk.state) }
        ensures full { IfErr result (λ back. back.why ≡ SaveFault.Full → HasLongBytes desk.state) }
        ensures never_closed { IfErr result (λ back. back.why ≡ SaveFault.Closed → ⊥) }
    {
        match begin_journal(alloc, &desk, &mut disk) {
            Ok(journal) => Ok(Kept {
                desk,
                journal,
                disk,
                is_open: true,
                renewal: None,
            }),
            Err(why) => Err(CreateBack { desk, disk, why }),
        }
    }

    /// Opens files that a kept desk has left, whatever a crash cut short: the state that they keep is restored, and
    /// the calls of their groups are made again, each with the answer that is kept. `first` and `second` are the
    /// bytes of both.
    ///
    /// The docket has those calls then, and will have at most `limit` rows. `Err` hands the disk back; what its
    /// files stand for is as it was.
    pub fn open(
        rt: &(impl Threads + Sync),
        alloc: A,
        mut disk: D,
        first: &[u8],
        second: &[u8],
        limit: u32,
    ) -> Result<Kept<A, D>, OpenBack<D>>
        requires bytes { D.seen disk ≡ (first.now, second.now) }
        // After a restart, what is there is what is on the disk.
        requires durable { Only (D.seen disk) (D.may_leave disk) }

        // The desk is the one that the files stand for, and is kept.
        ensures found { IfOk result (λ kept. StandFor (D.seen disk) kept.desk.state) }
        ensures only { (s : State) → StandFor (D.seen disk) s → IfOk result (λ kept. kept.desk.state ≡ s) }
        ensures kept { IfOk result (λ kept. IsKept D.seen D.may_leave kept) }
        ensures open { IfOk result (λ kept. IsTrue kept.is_open) }

        // A crash at any moment leaves files that stand for what they did.
        ensures any_moment { IfOk result (λ kept. LeavesOnly D.moment D.left_since disk kept.disk (MeanTheSame (D.seen disk))) }
        ensures any_moment_err { IfErr result (λ back. LeavesOnly D.moment D.left_since disk back.disk (MeanTheSame (D.seen disk))) }

        // Files that stand for a state are opened, but for memory, the docket's room and the disk.
        ensures due { (s : State) → StandFor (D.seen disk) s → IfErr result (λ back. IsOutside back.why) }
        ensures why { IfErr result (λ back. IsWhy (D.seen disk) (D.seen back.disk) (D.has_failed back.disk) back.why) }
    {
        match find(rt, alloc, &mut disk, first, second, limit) {
            Ok(found) => Ok(Kept {
                desk: found.desk,
                journal: found.journal,
                disk,
                is_open: true,
                renewal: None,
            }),
            Err(why) => Err(OpenBack { disk, why }),
        }
    }

    /// Goes on with other clients, which are those of the desk and new ones: `clients` takes the place of the desk's list. The
    /// journal is begun anew in the other file, with that state and no group. Image, leases and moment stay. The docket is
    /// empty then, and will have at most `limit` rows.
    ///
    /// The list has to have each client of the desk as it is, in whatever order. What a new client is granted may be numbers
    /// of nodes that are there, as where a desk is begun. False where the list is the desk's own: nothing is written then.
    ///
    /// It takes memory for the state's bytes, and for a second desk. A checkpoint that is under way is given up. `Err`
    /// leaves all as it was, unless the disk has failed.
    pub fn admit(
        &mut self,
        rt: &(impl Threads + Sync),
        alloc: A,
        clients: &[Client],
        limit: u32,
    ) -> Result<bool, AdmitFault>
        requires kept { IsKept D.seen D.may_leave self.old }
        ensures kept { IsKept D.seen D.may_leave self.new }
        ensures open { OnOk result (IsTrue self.new.is_open) }

        // The clients can be, and take the place of those that were there. Nothing else of the state changes.
        ensures admits { OnOk result (Admits self.old.desk.state.clients clients.now) }
        ensures state { OnOk result (self.new.desk.state ≡ with_clients self.old.desk.state clients.now) }
        ensures begun { IfOk result (λ made. IsTrue made → self.new.desk ≡ opened_at (with_clients self.old.desk.state clients.now) limit) }
        ensures short { IfOk result (λ made. IsTrue made → IfSome (meaning (D.seen self.new.disk)) (λ kept. kept.1 ≡ [])) }
        ensures over { IfOk result (λ made. IsTrue made → IsNone self.new.renewal) }

        // Where the list is the desk's own, nothing changes.
        ensures due { IfOk result (λ made. IsFalse made ↔ (clients.now ≡ self.old.desk.state.clients)) }
        ensures idle { IfOk result (λ made. IsFalse made → self.new ≡ self.old) }

        // A crash at any moment leaves the state with the clients that were there; or, where the list admits, that with its own.
        ensures any_moment { IsTrue self.old.is_open → LeavesOnly D.moment D.left_since self.old.disk self.new.disk
            (StandForAdmitted self.old.desk.state clients.now) }

        // It doesn't give up by itself.
        ensures closed { IsErrOf result (AdmitFault.Unsaved SaveFault.Closed) ↔ IsFalse self.old.is_open }
        ensures why { IfErr result (IsWhyNotAdmitted self.old.desk.state clients.now) }
        ensures full { IsErrOf result (AdmitFault.Unsaved SaveFault.Full) → HasLongBytes (with_clients self.old.desk.state clients.now) ⊎ (2 ^ 64 ≤ self.old.journal.number + 1) }
        ensures failed { IsErrOf result (AdmitFault.Unsaved SaveFault.Failed) → IsFalse self.new.is_open × IsTrue (D.has_failed self.new.disk) }
        ensures same { IfErr result (λ why. (why ≡ AdmitFault.Unsaved SaveFault.Failed) ⊎ (self.new ≡ self.old)) }
    {
        if !self.is_open {
            return Err(AdmitFault::Unsaved(SaveFault::Closed));
        }
        if are_same(clients, self.desk.clients()) {
            return Ok(false);
        }
        let made = admission_of(rt, alloc, &self.desk, clients, limit)?;
        match self.journal.change(alloc, &mut self.disk, &made.state) {
            Ok(()) => {
                self.desk = made.desk;
                // A checkpoint's file is the one that counts now.
                self.renewal = None;
                Ok(true)
            }
            Err(JournalFault::OutOfMemory) => Err(AdmitFault::Unsaved(SaveFault::OutOfMemory)),
            Err(JournalFault::Full) => Err(AdmitFault::Unsaved(SaveFault::Full)),
            Err(JournalFault::Failed) => {
                self.is_open = false;
                Err(AdmitFault::Unsaved(SaveFault::Failed))
            }
        }
    }

    /// Makes calls one after another, keeps those that are answered as one group, and answers all of them.
    ///
    /// At `Ok` each crash leaves files from which the desk is opened as it is now. A call that isn't answered (its
    /// bytes are no call, the docket is full, or memory is refused for it alone) is as if it hadn't been handed in. Where
    /// none is answered, nothing is written and nothing synced.
    ///
    /// `early` is `Early::none`, or what `judge_early` tells of these calls. The answers are the same.
    ///
    /// Where a checkpoint is under way, the group is one more that it has to write. Where memory is refused for that, the
    /// checkpoint is given up, and the calls are answered all the same.
    ///
    /// Call `checkpoint_if_due` behind it, once the answers are handed out, or `begin_checkpoint` and `step_checkpoint`.
    /// Whatever they answer, the calls stay kept.
    pub fn call_all<B: Allocator + Copy>(
        &mut self,
        alloc: B,
        calls: &[&[u8]],
        early: &Early<A>,
    ) -> Result<Vec<Result<Called, CallFault>, B>, CallsFault>
        requires kept { IsKept D.seen D.may_leave self.old }
        ensures kept { IsKept D.seen D.may_leave self.new }

        // The answers are the machine's, and once they are handed out, each crash leaves the state after all calls.
        ensures answers { IfOk result (λ answers. Runs self.old.desk (map (λ c. c.now) calls.now) answers.items self.new.desk) }
        ensures open { OnOk result (IsTrue self.new.is_open) }
        ensures acknowledged { OnOk result ((c : Files) → D.may_leave self.new.disk c → StandFor c self.new.desk.state) }

        // Where no call is answered, all is as it was, the disk too.
        ensures idle { IfOk result (λ answers. answered (map (λ c. c.now) calls.now) answers.items ≡ [] → self.new ≡ self.old) }

        // A checkpoint under way goes on, or is given up.
        ensures checkpoint { OnOk result (StaysOrEnds self.old.renewal self.new.renewal) }

        // At any moment: the state before all the calls or after all of them, none skipped and none in part.
        ensures any_moment { IsTrue self.old.is_open → LeavesOnly D.moment D.left_since self.old.disk self.new.disk
            (StandForBeforeOrAfter self.old.desk (map (λ c. c.now) calls.now)) }

        ensures closed { IsErrOf result CallsFault.Closed ↔ IsFalse self.old.is_open }
        ensures closed_same { IsErrOf result CallsFault.Closed → self.new ≡ self.old }
        ensures long { IsErrOf result CallsFault.TooLong → 2 ^ 32 ≤ sum_by (λ c. length c.now + 24) calls.now }
        ensures long_same { IsErrOf result CallsFault.TooLong → self.new ≡ self.old }
        ensures memory_same { IsErrOf result CallsFault.OutOfMemory → self.new ≡ self.old }
        ensures full { IsErrOf result CallsFault.Full → (2 ^ 60 ≤ self.old.journal.end) × (self.new ≡ self.old) }
        ensures failed { IsErrOf result CallsFault.Failed → IsFalse self.new.is_open × IsTrue (D.has_failed self.new.disk) }
    {
        if !self.is_open {
            return Err(CallsFault::Closed);
        }
        let Some(room) = room_for(calls) else {
            return Err(CallsFault::TooLong);
        };
        if self.journal.is_full() {
            return Err(CallsFault::Full);
        }
        let mut made = Made::with_room(alloc, calls.len(), room)?;
        // The desk is open again once the group is kept. Until then nothing takes memory but what a call may lack by itself.
        self.is_open = false;
        made.make_all(alloc, &mut self.desk, calls, early);
        if made.group.is_empty() {
            self.is_open = true;
            return Ok(made.answers);
        }
        let group = made.group.as_slice();
        match self.journal.put(&mut self.disk, group) {
            Ok(()) => {
                self.renewal = with_group(self.renewal.take(), group);
                self.is_open = true;
                Ok(made.answers)
            }
            Err(JournalFault::Failed) => Err(CallsFault::Failed),
            // It isn't full, the group is short enough, and no memory is taken.
            Err(_) => unreachable!(),
        }
    }

    /// Begins the journal anew in the other file, with the desk's state and no group. Files grow with each group,
    /// and so does the time to open them: this cuts both.
    ///
    /// The desk's state is written out in memory first. `Err` leaves all as it was, unless the disk has failed. No call is
    /// answered meanwhile: `begin_checkpoint` makes one in steps. One that is under way is given up.
    pub fn checkpoint<B: Allocator + Copy>(&mut self, alloc: B) -> Result<(), SaveFault>
        requires kept { IsKept D.seen D.may_leave self.old }
        ensures kept { IsKept D.seen D.may_leave self.new }
        ensures desk { self.new.desk ≡ self.old.desk }
        ensures open { OnOk result (IsTrue self.new.is_open) }
        ensures short { OnOk result (IfSome (meaning (D.seen self.new.disk)) (λ kept. kept.1 ≡ [])) }
        ensures over { OnOk result (IsNone self.new.renewal) }

        // A crash at any moment leaves the desk's state.
        ensures any_moment { IsTrue self.old.is_open → LeavesOnly D.moment D.left_since self.old.disk self.new.disk (λ c. StandFor c self.old.desk.state) }

        ensures closed { IsErrOf result SaveFault.Closed ↔ IsFalse self.old.is_open }
        ensures many { IsErrOf result SaveFault.TooMany → HasTooMany self.old.desk.state }
        ensures full { IsErrOf result SaveFault.Full → HasLongBytes self.old.desk.state ⊎ (2 ^ 64 ≤ self.old.journal.number + 1) }
        ensures failed { IsErrOf result SaveFault.Failed → IsFalse self.new.is_open × IsTrue (D.has_failed self.new.disk) }
        ensures same { IfErr result (λ why. (why ≡ SaveFault.Failed) ⊎ (self.new ≡ self.old)) }
    {
        if !self.is_open {
            return Err(SaveFault::Closed);
        }
        let state = state_of(alloc, &self.desk)?;
        match self.journal.change(alloc, &mut self.disk, &state) {
            Ok(()) => {
                // Its file is the one that counts now.
                self.renewal = None;
                Ok(())
            }
            Err(JournalFault::OutOfMemory) => Err(SaveFault::OutOfMemory),
            Err(JournalFault::Full) => Err(SaveFault::Full),
            Err(JournalFault::Failed) => {
                self.is_open = false;
                Err(SaveFault::Failed)
            }
        }
    }

    /// Begins a checkpoint that is made in steps, between which calls go on. `step_checkpoint` goes on with it.
    ///
    /// The desk's state is written out in memory, in the desk's own, and the other file is begun anew, by three syncs. So
    /// this call takes as long as `encode_desk`. One that is under way is given up. `Err` leaves all as it was, unless
    /// the disk has failed.
    pub fn begin_checkpoint(&mut self, alloc: A) -> Result<(), SaveFault>
        requires kept { IsKept D.seen D.may_leave self.old }
        ensures kept { IsKept D.seen D.may_leave self.new }
        ensures desk { self.new.desk ≡ self.old.desk }
        ensures open { OnOk result (IsTrue self.new.is_open) }
        ensures begun { OnOk result (IsSomeAnd self.new.renewal (IsBegun self.old.desk.state)) }

        // The files stand for the state and the groups that they stood for.
        ensures means { OnOk result (MeanTheSame (D.seen self.old.disk) (D.seen self.new.disk)) }

        // A crash at any moment leaves the desk's state.
        ensures any_moment { IsTrue self.old.is_open → LeavesOnly D.moment D.left_since self.old.disk self.new.disk (λ c. StandFor c self.old.desk.state) }

        ensures closed { IsErrOf result SaveFault.Closed ↔ IsFalse self.old.is_open }
        ensures many { IsErrOf result SaveFault.TooMany → HasTooMany self.old.desk.state }
        ensures full { IsErrOf result SaveFault.Full → HasLongBytes self.old.desk.state ⊎ (2 ^ 64 ≤ self.old.journal.number + 1) }
        ensures failed { IsErrOf result SaveFault.Failed → IsFalse self.new.is_open × IsTrue (D.has_failed self.new.disk) }
        ensures same { IfErr result (λ why. (why ≡ SaveFault.Failed) ⊎ (self.new ≡ self.old)) }
    {
        if !self.is_open {
            return Err(SaveFault::Closed);
        }
        let state = state_of(alloc, &self.desk)?;
        match Renewal::begin(alloc, state, &self.journal, &mut self.disk) {
            Ok(renewal) => {
                self.renewal = Some(renewal);
                Ok(())
            }
            Err(JournalFault::OutOfMemory) => Err(SaveFault::OutOfMemory),
            Err(JournalFault::Full) => Err(SaveFault::Full),
            Err(JournalFault::Failed) => {
                self.is_open = false;
                Err(SaveFault::Failed)
            }
        }
    }

    /// Writes the next bytes of a checkpoint under way. True where it is finished: the journal goes on in the other file
    /// then, behind the records of the groups since it was begun. True, too, where none is under way.
    ///
    /// It writes at most `most` bytes, and of those records the ones beside that have come since the last step. So it ends
    /// whatever comes meanwhile. It makes one sync, and the last step three: that is what a call waits for.
    ///
    /// `Full` where the other file has 2^60 bytes: nothing has changed.
    pub fn step_checkpoint(&mut self, most: usize) -> Result<bool, SaveFault>
        requires kept { IsKept D.seen D.may_leave self.old }
        ensures kept { IsKept D.seen D.may_leave self.new }
        ensures desk { self.new.desk ≡ self.old.desk }
        ensures open { OnOk result (IsTrue self.new.is_open) }

        // How far it comes, and that it is finished exactly where nothing is left to write.
        ensures goes_on { IfOk result (λ finished. IsFalse finished → GoesOn most self.old.renewal self.new.renewal) }
        ensures finishes { IfOk result (λ finished. IsTrue finished → Finishes most self.old.renewal (D.seen self.new.disk)) }
        ensures over { IfOk result (λ finished. IsTrue finished → IsNone self.new.renewal) }
        ensures idle { IsNone self.old.renewal → OnOk result (self.new ≡ self.old) }

        // A crash at any moment leaves the desk's state.
        ensures any_moment { IsTrue self.old.is_open → LeavesOnly D.moment D.left_since self.old.disk self.new.disk (λ c. StandFor c self.old.desk.state) }

        ensures closed { IsErrOf result SaveFault.Closed ↔ IsFalse self.old.is_open }
        ensures many { IsErrOf result SaveFault.TooMany → ⊥ }
        ensures full { IsErrOf result SaveFault.Full → IsSomeAnd self.old.renewal (λ r. 2 ^ 60 ≤ r.draft.end) }
        ensures memory { IsErrOf result SaveFault.OutOfMemory → ⊥ }
        ensures failed { IsErrOf result SaveFault.Failed → IsFalse self.new.is_open × IsTrue (D.has_failed self.new.disk) }
        ensures same { IfErr result (λ why. (why ≡ SaveFault.Failed) ⊎ (self.new ≡ self.old)) }
    {
        if !self.is_open {
            return Err(SaveFault::Closed);
        }
        let Some(renewal) = &mut self.renewal else {
            return Ok(true);
        };
        match renewal.step(&mut self.journal, &mut self.disk, most) {
            Ok(true) => {
                self.renewal = None;
                Ok(true)
            }
            Ok(false) => Ok(false),
            Err(JournalFault::OutOfMemory) => Err(SaveFault::OutOfMemory),
            Err(JournalFault::Full) => Err(SaveFault::Full),
            Err(JournalFault::Failed) => {
                self.is_open = false;
                Err(SaveFault::Failed)
            }
        }
    }

    /// Whether a checkpoint is under way: `step_checkpoint` goes on with it. A closed desk has none.
    pub fn is_checkpoint_under_way(&self) -> bool
        ensures { IsTrue result ↔ (IsTrue self.now.is_open × IsSome self.now.renewal) }
    {
        self.is_open && self.renewal.is_some()
    }

    /// Whether a checkpoint is due: the records of the groups have 2^20 bytes or more, and four times as many as the
    /// state that they stand behind or more. A record is five bytes longer than its group.
    pub fn is_checkpoint_due(&self) -> bool
        requires kept { IsKept D.seen D.may_leave self.now }
        ensures due { IsTrue result ↔ (IsTrue self.now.is_open × HasGrown (meaning (D.seen self.now.disk))) }
    {
        self.is_open && self.journal.is_change_due()
    }

    /// Makes a checkpoint where one is due, and tells whether it was.
    ///
    /// A host calls it behind each `call_all`. So the file that counts has at most five times the bytes of its state,
    /// or that state and 2^20 bytes, and one group more. `Err` is that of `checkpoint`: what was answered stays kept,
    /// and the next call tries again, unless the disk has failed.
    pub fn checkpoint_if_due<B: Allocator + Copy>(&mut self, alloc: B) -> Result<bool, SaveFault>
        requires kept { IsKept D.seen D.may_leave self.old }
        ensures kept { IsKept D.seen D.may_leave self.new }
        ensures desk { self.new.desk ≡ self.old.desk }
        ensures open { OnOk result (IsTrue self.new.is_open) }

        // It makes one exactly where it is due. Else nothing changes.
        ensures due { IfOk result (λ made. IsTrue made ↔ HasGrown (meaning (D.seen self.old.disk))) }
        ensures short { IfOk result (λ made. IsTrue made → IfSome (meaning (D.seen self.new.disk)) (λ kept. kept.1 ≡ [])) }
        ensures idle { IfOk result (λ made. IsFalse made → self.new ≡ self.old) }
        ensures undue { IfErr result (λ why. (why ≡ SaveFault.Closed) ⊎ HasGrown (meaning (D.seen self.old.disk))) }

        // A crash at any moment leaves the desk's state.
        ensures any_moment { IsTrue self.old.is_open → LeavesOnly D.moment D.left_since self.old.disk self.new.disk (λ c. StandFor c self.old.desk.state) }

        ensures closed { IsErrOf result SaveFault.Closed ↔ IsFalse self.old.is_open }
        ensures many { IsErrOf result SaveFault.TooMany → HasTooMany self.old.desk.state }
        ensures full { IsErrOf result SaveFault.Full → HasLongBytes self.old.desk.state ⊎ (2 ^ 64 ≤ self.old.journal.number + 1) }
        ensures failed { IsErrOf result SaveFault.Failed → IsFalse self.new.is_open × IsTrue (D.has_failed self.new.disk) }
        ensures same { IfErr result (λ why. (why ≡ SaveFault.Failed) ⊎ (self.new ≡ self.old)) }
    {
        if self.is_open && !self.is_checkpoint_due() {
            return Ok(false);
        }
        self.checkpoint(alloc)?;
        Ok(true)
    }

    /// The desk, to look at: what it shows is kept. None where it is closed.
    pub fn desk(&self) -> Option<&Desk<A>>
        requires kept { IsKept D.seen D.may_leave self.now }
        ensures desk { IfSome result (λ desk. desk.now ≡ self.now.desk) }
        ensures kept { IfSome result (λ desk. StandFor (D.seen self.now.disk) desk.now.state) }
        ensures closed { IsNone result ↔ IsFalse self.now.is_open }
    {
        if self.is_open { Some(&self.desk) } else { None }
    }

    /// Whether the desk answers. Once it is closed, it stays so.
    pub fn is_open(&self) -> bool
        ensures { result ≡ self.now.is_open }
    {
        self.is_open
    }

    /// The disk, to look at.
    pub fn disk(&self) -> &D
        ensures { result.now ≡ self.now.disk }
    {
        &self.disk
    }

    /// The disk, when the desk isn't needed any more.
    pub fn into_disk(self) -> D
        ensures { result ≡ self.disk }
    {
        self.disk
    }
}

impl<A: Allocator + Copy + Send + Sync, D: Disk + Drop> Kept<A, D> {
    /// Judges submissions among calls that are to be made together: against one view of the desk, in as many threads as
    /// there are judges. Hand the verdicts to `call_all` with the calls.
    ///
    /// A client's second submission is left to its turn, since its first may change what it rests on. So is one for which
    /// memory is refused. There is no verdict where fewer than two are to be judged, or there are fewer than two judges.
    pub fn judge_early<R: Threads + Sync>(
        &self,
        judges: &Judges<'_, R>,
        calls: &[&[u8]],
    ) -> Early<A> {
        judge_early(judges, &self.desk, calls)
    }
}
