//! Calls made again: what is there after them, and what a crash leaves.
ghost use Rattle.std.specs.Prelude.{◌≡◌, OnOk, IfOk};
ghost use Rattle.kfs_journal.specs.Memory.{changed, made};
ghost use Rattle.kfs_journal.specs.Tear.{Tears, TearsOne, wholes, torn_files};

use crate::call::Call;
use crate::disk::File;
use crate::tear::{Tear, torn_cut, torn_write, written};
use std::alloc::{AllocError, Global};

/// A file as the calls so far leave it, and as a crash after them does.
#[derive(Drop)]
pub struct Replay {
    pub whole: Vec<u8>,
    pub torn: Vec<u8>,
}

impl Replay {
    fn begin(alloc: Global, bytes: &[u8]) -> Result<Replay, AllocError>
        ensures { IfOk result (λ replay. (replay.whole.items ≡ bytes.now) × (replay.torn.items ≡ bytes.now)) }
    {
        Ok(Replay {
            whole: bytes.to_vec(alloc)?,
            torn: bytes.to_vec(alloc)?,
        })
    }

    /// Makes a call for this file. After a sync the file is what was there.
    fn make(&mut self, alloc: Global, call: &Call, tear: Tear) -> Result<(), AllocError>
        ensures whole { OnOk result (self.new.whole.items ≡ changed call.now self.old.whole.items) }
        ensures torn { OnOk result (Tears call.now self.old.whole.items self.old.torn.items self.new.torn.items) }
    {
        match call {
            Call::Write(_, at, bytes) => {
                self.whole = written(alloc, &self.whole, *at, bytes)?;
                self.torn = torn_write(alloc, &self.torn, *at, bytes, tear)?;
            }
            Call::Cut(_, len) => {
                self.whole.truncate(*len);
                self.torn = torn_cut(alloc, &self.torn, *len, tear)?;
            }
            Call::Sync(_) => self.torn = self.whole.to_vec(alloc)?,
        }
        Ok(())
    }
}

/// Both files.
#[derive(Drop)]
pub struct Replays {
    pub first: Replay,
    pub second: Replay,
}

impl Replays {
    /// Before the first call.
    pub fn begin(alloc: Global, first: &[u8], second: &[u8]) -> Result<Replays, AllocError>
        ensures whole { IfOk result (λ replays. wholes replays ≡ (first.now, second.now)) }
        ensures torn { IfOk result (λ replays. torn_files replays ≡ (first.now, second.now)) }
    {
        Ok(Replays {
            first: Replay::begin(alloc, first)?,
            second: Replay::begin(alloc, second)?,
        })
    }

    /// Makes a call. The crash tears it in this way, unless a sync follows.
    pub fn make(&mut self, alloc: Global, call: &Call, tear: Tear) -> Result<(), AllocError>
        ensures whole { OnOk result (wholes self.new ≡ made call.now (wholes self.old)) }
        ensures torn { OnOk result (TearsOne call.now (wholes self.old) (torn_files self.old) (torn_files self.new)) }
    {
        match call.file() {
            File::First => self.first.make(alloc, call, tear),
            File::Second => self.second.make(alloc, call, tear),
        }
    }
}
