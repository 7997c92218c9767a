//! A kept desk on a disk in memory.
ghost use Rattle.std.specs.Prelude.{◌≡◌, IfOk, IfSome};
ghost use Rattle.kfs_journal.specs.Disk.{Only};
ghost use Rattle.kfs_journal.specs.Memory.{memory_may_leave, memory_seen};
ghost use Rattle.kfs_kept.specs.Keeping.{IsKept};

use crate::journal::disk_of;
use kfs_call_desk::encode_desk;
use kfs_journal::{MemoryDisk, Tear};
use kfs_kept::{AdmitFault, CallsFault, Early, Kept, OpenFault, SaveFault};
use kfs_mode::Client;
use kfs_test_support::refusing::Refusing;
use std::alloc::Global;
use std::thread::Threads;

/// More allocations than anything here asks for.
pub const AMPLE: u64 = 1 << 40;

/// How many rows a docket has room for.
pub const LIMIT: u32 = 100;

/// How many bytes a step of a checkpoint writes.
const MOST: usize = 32;

/// Where a kept desk has its memory. An allocation of it may be refused.
pub type Heap<'a> = &'a Refusing<Global>;

/// A journal's file: no group behind a state. It has client 7, who may make files 2 to 99, and an image with the root alone.
pub const FILE: &[u8] = b"KDJL\0\0\0\0\0\0\0\0\x01\0\0\0\0\0\0\0\x61\
    KDSK\x01\0\0\0\0\0\0\0\0\0\0\0\x01\0\0\0\0\
    \0\0\0\x07\0\0\x03\xe8\0\0\x03\xe8\0\0\0\0\x02\0\0\0\x63\0\
    KIMG\x01\0\0\0\x08\0\0\0\x08\0\0\0\x08\0\0\0\x01\0\0\0\0\0\0\0\0\
    \0\0\0\x01\x01\x01\xff\0\0\0\0\0\0\0\0\0\x01\0\0\0\0\0\0\0\0\0";

/// Client 7 asks for a write lease on the root up to moment 50, and then for one on `/a` up to moment 100.
pub const LEASE_ROOT: &[u8] = b"\x02\0\0\0\x07\x01\0\0\0\0\0\0\0\x32\0\x01/";

pub const LEASE_FILE: &[u8] = b"\x02\0\0\0\x07\x01\0\0\0\0\0\0\0\x64\0\x02/a";

/// The moment goes on to 49.
pub const TICK: &[u8] = b"\x04\0\0\0\0\0\0\0\x31";

/// Block 0 of file 5 moves to place 3 of tier 1.
pub const MIGRATE: &[u8] = b"\x05\0\x01\0\0\0\x05\0\0\0\0\x01\0\0\0\x03";

/// No call.
pub const BAD: &[u8] = b"\x06";

/// Client 7 creates file 5 named `a` in the root.
pub const CREATE: &[u8] = b"\x01\0\0\0\x07\
    \0\0\0\x19KLOG\x01\0\0\0\x07\0\x01\x01\0\0\0\x01\x01a\0\0\0\x05\0\x01\xa4\
    \0\0\0\x30KPLN\x01\0\x01\0\x01\0\0\0\0\0\0\0\x01\x01a\0\0\0\x05\0\0\0\x05\
    \x01\x01\xa4\0\0\x03\xe8\0\0\x03\xe8\0\x01\0\0\0\0\0\0\0\0";

/// Client 7 writes ten letters to file 5, from its first byte on.
pub const LETTERS: &[u8] = b"\x01\0\0\0\x07\
    \0\0\0\x26KLOG\x01\0\0\0\x07\0\x01\x02\0\0\0\x05\0\0\0\0\0\0\0\0\0\0\0\x0aABCDEFGHIJ\
    \0\0\0\x41KPLN\x01\0\0\0\x01\0\0\0\x01\0\0\0\x05\x01\x01\xa4\0\0\x03\xe8\0\0\x03\xe8\0\x01\
    \0\0\0\0\0\0\0\x0a\0\0\0\x05\0\0\0\0\0\0\0\0\0\0\0\0\0\0\0\x0a\x01\0\0\0\0\0\0";

/// A client that may make files of these numbers. Client 7 of the file is the one with the numbers 2 to 99.
pub fn client(number: u32, first: u32, last: u32) -> Option<Client> {
    Client::new(number, 1_000, 1_000, &[], false, first, last).ok()
}

/// A kept desk. Each call says no more of it than that it is kept: the next one asks for that alone.
#[derive(Drop)]
pub struct Keeper<'a> {
    heap: Heap<'a>,
    pub kept: Kept<Heap<'a>, MemoryDisk>,
}

impl<'a> Keeper<'a> {
    /// What both files of a disk are opened as.
    fn open(
        rt: &(impl Threads + Sync),
        heap: Heap<'a>,
        disk: MemoryDisk,
        first: &[u8],
        second: &[u8],
    ) -> Result<Keeper<'a>, OpenFault>
        requires bytes { memory_seen disk ≡ (first.now, second.now) }
        requires durable { Only (memory_seen disk) (memory_may_leave disk) }
        ensures { IfOk result (λ keeper. IsKept memory_seen memory_may_leave keeper.kept) }
    {
        match Kept::open(rt, heap, disk, first, second, LIMIT) {
            Ok(kept) => Ok(Keeper { heap, kept }),
            Err(back) => Err(back.why),
        }
    }

    /// A desk that has answered nothing yet.
    pub fn begin(rt: &(impl Threads + Sync), alloc: Global, heap: Heap<'a>) -> Option<Keeper<'a>>
        ensures { IfSome result (λ keeper. IsKept memory_seen memory_may_leave keeper.kept) }
    {
        let disk = disk_of(alloc, FILE, &[])?;
        match Keeper::open(rt, heap, disk, FILE, &[]) {
            Ok(keeper) => Some(keeper),
            Err(_) => None,
        }
    }

    /// What the files are opened as that a crash leaves at that moment. `Err(None)` where a copy of them finds no memory.
    pub fn after_crash(
        rt: &(impl Threads + Sync),
        heap: Heap<'a>,
        disk: &MemoryDisk,
        moment: usize,
        tear: Tear,
    ) -> Result<Keeper<'a>, Option<OpenFault>>
        ensures { IfOk result (λ keeper. IsKept memory_seen memory_may_leave keeper.kept) }
    {
        let Ok(left) = disk.crashed(moment, tear) else {
            return Err(None);
        };
        let Ok((first, second)) = left.contents() else {
            return Err(None);
        };
        match Keeper::open(rt, heap, left, &first, &second) {
            Ok(keeper) => Ok(keeper),
            Err(why) => Err(Some(why)),
        }
    }

    /// Makes calls, and counts the answers, and the calls that are made.
    pub fn call(&mut self, calls: &[&[u8]]) -> Result<(usize, usize), CallsFault>
        requires { IsKept memory_seen memory_may_leave self.old.kept }
        ensures { IsKept memory_seen memory_may_leave self.new.kept }
    {
        let answers = self
            .kept
            .call_all(self.heap, calls, &Early::none(self.heap))?;
        let mut made = 0usize;
        for answer in &answers {
            if answer.is_ok() {
                made = made.saturating_add(1);
            }
        }
        Ok((answers.len(), made))
    }

    /// Goes on with these clients.
    pub fn admit(
        &mut self,
        rt: &(impl Threads + Sync),
        clients: &[Client],
    ) -> Result<bool, AdmitFault>
        requires { IsKept memory_seen memory_may_leave self.old.kept }
        ensures { IsKept memory_seen memory_may_leave self.new.kept }
    {
        self.kept.admit(rt, self.heap, clients, LIMIT)
    }

    pub fn checkpoint(&mut self) -> Result<(), SaveFault>
        requires { IsKept memory_seen memory_may_leave self.old.kept }
        ensures { IsKept memory_seen memory_may_leave self.new.kept }
    {
        self.kept.checkpoint(self.heap)
    }

    pub fn begin_checkpoint(&mut self) -> Result<(), SaveFault>
        requires { IsKept memory_seen memory_may_leave self.old.kept }
        ensures { IsKept memory_seen memory_may_leave self.new.kept }
    {
        self.kept.begin_checkpoint(self.heap)
    }

    /// Makes a checkpoint where one is due.
    pub fn save_if_due(&mut self) -> Result<bool, SaveFault>
        requires { IsKept memory_seen memory_may_leave self.old.kept }
        ensures { IsKept memory_seen memory_may_leave self.new.kept }
    {
        self.kept.checkpoint_if_due(self.heap)
    }

    fn step(&mut self) -> Result<bool, SaveFault>
        requires { IsKept memory_seen memory_may_leave self.old.kept }
        ensures { IsKept memory_seen memory_may_leave self.new.kept }
    {
        self.kept.step_checkpoint(MOST)
    }

    /// Makes up to so many steps of a checkpoint, and says whether it is finished then. None where one isn't made.
    pub fn make_steps(&mut self, count: usize) -> Option<bool>
        requires { IsKept memory_seen memory_may_leave self.old.kept }
        ensures { IsKept memory_seen memory_may_leave self.new.kept }
    {
        'steps: for _ in 0..count {
            if self.step().ok()? {
                return Some(true);
            }
        }
        Some(false)
    }

    pub fn is_due(&self) -> bool
        requires { IsKept memory_seen memory_may_leave self.now.kept }
    {
        self.kept.is_checkpoint_due()
    }

    /// Whether a checkpoint is under way.
    pub fn is_under_way(&self) -> bool {
        self.kept.is_checkpoint_under_way()
    }

    pub fn is_open(&self) -> bool {
        self.kept.is_open()
    }

    /// The state as bytes that an open desk shows.
    pub fn saved(&self) -> Option<Vec<u8, Heap<'a>>>
        requires { IsKept memory_seen memory_may_leave self.now.kept }
    {
        let desk = self.kept.desk()?;
        encode_desk(self.heap, desk.image(), desk.clients(), desk.leases()).ok()
    }

    pub fn disk(&self) -> &MemoryDisk {
        self.kept.disk()
    }

    /// How many calls of its disk were made.
    pub fn moment(&self) -> usize {
        self.kept.disk().moment()
    }
}
