//! Two files in memory, for tests: they have what they had at first and each call since. So a test can crash at
//! each moment, and see what is left.
ghost use Rattle.std.specs.Prelude.{◌≡◌, ◌⊎◌, ◌≤◌, ◌++◌, ◌∷◌, [], false, ℕ, length, take, min, IfOk, OnOk, OnErr, IsTrue};
ghost use Rattle.kfs_journal.specs.Disk.{Only};
ghost use Rattle.kfs_journal.specs.Memory.{memory_start, memory_seen, memory_may_leave, memory_left_at, memory_left_since, now_counts, no_other};
ghost use Rattle.kfs_journal.specs.Tear.{wholes, torn_files, AreReplayed};

use crate::call::Call;
use crate::disk::{Disk, DiskFailed, File};
use crate::replay::Replays;
use crate::tear::Tear;
use std::alloc::{AllocError, Global};

/// Two files in memory. Each call takes memory; where it is refused, the disk has failed.
#[derive(Drop)]
pub struct MemoryDisk {
    alloc: Global,
    first: Vec<u8>,
    second: Vec<u8>,
    calls: Vec<Call>,
    failed: bool,
}

impl MemoryDisk {
    /// Files with these bytes, all of them on the disk.
    pub fn new(alloc: Global, first: Vec<u8>, second: Vec<u8>) -> MemoryDisk
        ensures seen { memory_seen result ≡ (first.items, second.items) }
        ensures durable { Only (memory_seen result) (memory_may_leave result) }
        ensures whole { result.failed ≡ false }
    {
        MemoryDisk {
            alloc,
            first,
            second,
            calls: Vec::new(alloc),
            failed: false,
        }
    }

    /// The bytes that are there, of the first file and of the second. `Err` where memory is refused.
    pub fn contents(&self) -> Result<(Vec<u8>, Vec<u8>), AllocError>
        ensures { IfOk result (λ files. (files.0.items, files.1.items) ≡ memory_seen self.now) }
    {
        let Replays { first, second } = self.replayed(self.calls.len(), Tear::Whole)?;
        Ok((first.whole, second.whole))
    }

    /// How many calls of the disk were made.
    pub fn moment(&self) -> usize
        ensures { result ≡ length self.now.calls.items }
    {
        self.calls.len()
    }

    /// A disk with the files that a crash leaves after the first so many calls, all that was made where there
    /// are fewer. It tears in this way each call that no later sync of its file has brought to the disk. `Err`
    /// where memory is refused.
    pub fn crashed(&self, moment: usize, tear: Tear) -> Result<MemoryDisk, AllocError>
        // What it tears is an outcome that it may leave, at that moment and so since each earlier one.
        ensures left { IfOk result (λ disk. memory_left_at self.now moment (memory_seen disk)) }
        ensures since { IfOk result (λ disk. (t : ℕ) → t ≤ min moment (length self.now.calls.items) → memory_left_since self.now t (memory_seen disk)) }
        ensures durable { IfOk result (λ disk. Only (memory_seen disk) (memory_may_leave disk)) }
    {
        let Replays { first, second } = self.replayed(moment, tear)?;
        Ok(MemoryDisk::new(self.alloc, first.torn, second.torn))
    }

    /// The first so many calls, made again.
    fn replayed(&self, moment: usize, tear: Tear) -> Result<Replays, AllocError>
        ensures { IfOk result (λ replays. AreReplayed (memory_start self.now) (take moment self.now.calls.items) (wholes replays) (torn_files replays)) }
    {
        let mut replays = Replays::begin(self.alloc, &self.first, &self.second)?;
        let calls = &self.calls[..moment.min(self.calls.len())];
        for call in calls {
            replays.make(self.alloc, call, tear)?;
        }
        Ok(replays)
    }

    /// Keeps a call.
    fn add(&mut self, call: Call) -> Result<(), DiskFailed>
        ensures call { OnOk result (self.new.calls.items ≡ self.old.calls.items ++ call ∷ []) }
        ensures either { (self.new.calls.items ≡ self.old.calls.items) ⊎ (self.new.calls.items ≡ self.old.calls.items ++ call ∷ []) }
        ensures start { memory_start self.new ≡ memory_start self.old }
        ensures cause { OnErr result (IsTrue self.new.failed) }
    {
        match self.calls.push(call) {
            Ok(()) => Ok(()),
            Err(_) => Err(self.fail()),
        }
    }

    /// Memory is refused: to the journal, a disk that has failed.
    fn fail(&mut self) -> DiskFailed
        ensures failed { IsTrue self.new.failed }
        ensures start { memory_start self.new ≡ memory_start self.old }
        ensures calls { self.new.calls.items ≡ self.old.calls.items }
    {
        self.failed = true;
        DiskFailed
    }
}

impl Disk for MemoryDisk {
    ghost seen = { λ m. memory_seen m };

    ghost may_leave = { λ m c. memory_may_leave m c };

    ghost moment = { λ m. length m.calls.items };

    ghost left_since = { λ m t c. memory_left_since m t c };

    ghost has_failed = { λ m. m.failed };

    ghost counts_now = { λ m t c le now. now_counts (memory_start m) m.calls.items t c le now };

    ghost only_now = { λ m c since. no_other (memory_start m) m.calls.items c since };

    fn write_at(&mut self, file: File, at: usize, bytes: &[u8]) -> Result<(), DiskFailed> {
        match bytes.to_vec(self.alloc) {
            Ok(copy) => self.add(Call::Write(file, at, copy)),
            Err(_) => Err(self.fail()),
        }
    }

    fn cut(&mut self, file: File, len: usize) -> Result<(), DiskFailed> {
        self.add(Call::Cut(file, len))
    }

    fn sync(&mut self, file: File) -> Result<(), DiskFailed> {
        self.add(Call::Sync(file))
    }
}
