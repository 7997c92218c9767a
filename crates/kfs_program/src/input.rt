//! The lines of an input, taken one after another.
ghost use Rattle.std.specs.Prelude.{◌≡◌, ◌<◌, [], ◌++◌, false, length, IfErr, IfOk};
ghost use Rattle.kfs_program.specs.Lines.{IsBegun, IsKept, IsLineHeld, ReadsOn, TakesNext};

use crate::sessions::{EngineFault, LINE_LIMIT};
use kfs_program_text::{first_line, read_some};
use std::alloc::Allocator;
use std::io::Read;
use std::mem;

/// After how many reads a reader counts as one that never ends.
const MOST_READS: u64 = 1 << 32;

/// How many bytes are read at once.
const CHUNK: usize = 65_536;

/// What is read of an input behind the lines that were taken from it.
#[derive(Drop)]
pub(crate) struct Unread<A: Allocator> {
    bytes: Vec<u8, A>,
    /// Whether the reader has come to its end, and no byte is left.
    is_ended: bool,
}

impl<A: Allocator + Copy> Unread<A> {
    /// Nothing is read yet.
    pub(crate) fn new(alloc: A) -> Unread<A>
        ensures bytes { result.bytes.items ≡ [] }
        ensures goes_on { result.is_ended ≡ false }
    {
        Unread {
            bytes: Vec::new(alloc),
            is_ended: false,
        }
    }

    /// Takes the next line: `line` becomes that line without its end. It may lack one where the input
    /// ends, and is empty where no line is left. Nothing is read where the line is there already, and
    /// no more behind the read that brings its end.
    pub(crate) fn take_line<I: Read>(
        &mut self,
        alloc: A,
        reader: &mut I,
        line: &mut Vec<u8, A>,
    ) -> Result<(), EngineFault>
        ensures { TakesNext (I.remaining reader.old) (I.remaining reader.new) self.old line.new.items result self.new }
    {
        line.clear();
        if self.is_ended {
            return Ok(());
        }
        let bytes = mem::replace(&mut self.bytes, Vec::new(alloc));
        if hold_line(line, &bytes, &mut self.bytes)? {
            return Ok(());
        }
        let mut chunk = new_chunk(alloc)?;
        let has_end = read_by_chunks(reader, &mut chunk, line, &mut self.bytes)?;
        self.is_ended = !has_end;
        Ok(())
    }
}

fn new_chunk<A: Allocator>(alloc: A) -> Result<Vec<u8, A>, EngineFault>
    ensures length { IfOk result (λ chunk. 0 < length chunk.items) }
    ensures fault { IfErr result (λ fault. fault ≡ EngineFault.OutOfMemory) }
{
    Ok(vec![in alloc; 0u8; CHUNK]?)
}

/// Reads chunk by chunk until the line that is begun has its end, or the input ends. Answers whether it
/// has. What is read behind it becomes `left`.
fn read_by_chunks<A: Allocator, I: Read>(
    reader: &mut I,
    chunk: &mut [u8],
    line: &mut Vec<u8, A>,
    left: &mut Vec<u8, A>,
) -> Result<bool, EngineFault>
    requires room { 0 < length chunk.old }
    requires begun { IsBegun line.old.items left.old.items }
    ensures { ReadsOn (I.remaining reader.old) (I.remaining reader.new) line.old.items line.new.items left.new.items result }
{
    'reads: for _ in 0..MOST_READS {
        let Some(count) = read_some(reader, chunk)? else {
            continue;
        };
        if count == 0 {
            return Ok(false);
        }
        if hold_line(line, &chunk[..count], left)? {
            return Ok(true);
        }
    }
    Err(EngineFault::ReadFault)
}

/// Holds the bytes up to the first line's end, or all of them. Answers whether the end is there. What is
/// behind it becomes `left`.
fn hold_line<A: Allocator>(
    line: &mut Vec<u8, A>,
    bytes: &[u8],
    left: &mut Vec<u8, A>,
) -> Result<bool, EngineFault>
    requires { IsBegun line.old.items left.old.items }
    ensures { IsLineHeld (line.old.items ++ bytes.now) line.new.items left.new.items result }
{
    match first_line(bytes) {
        Some((part, behind)) => {
            keep(line, part)?;
            left.extend_from_slice(behind)?;
            Ok(true)
        }
        None => {
            keep(line, bytes)?;
            Ok(false)
        }
    }
}

/// Appends the part, if the line isn't too long with it.
fn keep<A: Allocator>(line: &mut Vec<u8, A>, part: &[u8]) -> Result<(), EngineFault>
    ensures { IsKept line.old.items part.now line.new.items result }
{
    if line.len().saturating_add(part.len()) > LINE_LIMIT {
        return Err(EngineFault::LongLine);
    }
    line.extend_from_slice(part)?;
    Ok(())
}
