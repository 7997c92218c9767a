//! The engine: reads command lines, and writes the desk's replies. Begin with `engine`, then
//! `session.rt`.
ghost use Rattle.std.specs.Prelude.{◌≡◌, ◌<◌, length, IfErr, IfOk, OnOk};
ghost use Rattle.std.specs.Io.KnownBytes.{IsAtEnd};
ghost use Rattle.kfs_program.specs.Engine.Transcript.{Converses};
ghost use Rattle.kfs_program_text.specs.HeldOutput.{contents_with};

mod bytes;
pub mod examples;
mod fault;
mod listing;
mod opening;
mod plan_text;
mod plans;
mod session;
mod session_loop;
mod verdicts;

pub use self::fault::EngineFault;
#[doc(hidden)]
pub use self::plan_text::plan_line;
pub use self::session_loop::LINE_LIMIT;
use self::session_loop::SessionLoop;
use kfs_program_text::{HeldBack, read_some};
use std::alloc::{AllocError, Allocator};
use std::io::{Read, Write};
use std::thread::Threads;

/// After how many reads a reader counts as one that never ends.
const MOST_READS: u64 = 1 << 32;

/// How many bytes are read at once.
const CHUNK: usize = 65_536;

/// Reads command lines from `reader` to its end, and writes a reply to each to `writer`. The replies to
/// all lines of one read are written together, before the next read. The input is never kept whole.
///
/// Stops early with `ReadFault`, `WriteFault`, `LongLine`, or `OutOfMemory` for a line's memory. The
/// lines before were answered then; after `WriteFault` only a first part of the replies is written. A
/// command for which memory runs out is answered `memory`, and the engine goes on.
pub fn engine<R, A, I, O>(
    rt: &R,
    alloc: A,
    reader: &mut I,
    writer: &mut O,
) -> Result<(), EngineFault>
where
    R: Threads + Sync,
    A: Allocator + Copy,
    I: Read,
    O: Write,
    ensures session { Converses (I.remaining reader.old) (I.remaining reader.new) (O.contents writer.old) (O.contents writer.new) result }
    ensures end { OnOk result (IsAtEnd (I.remaining reader.new)) }
{
    let mut chunk = new_chunk(alloc)?;
    let (written, ended) = answer_together(rt, alloc, reader, &mut chunk, writer);
    // Takes back the writer that was lent. Only then does the prover know what was written to it.
    let _writer = written;
    ended
}

fn new_chunk<A: Allocator>(alloc: A) -> Result<Vec<u8, A>, EngineFault>
    ensures length { IfOk result (λ chunk. 0 < length chunk.items) }
    ensures fault { IfErr result (λ fault. fault ≡ EngineFault.OutOfMemory) }
{
    Ok(vec![in alloc; 0u8; CHUNK]?)
}

/// Reads and answers all input, with the replies held back, and answers the writer too.
fn answer_together<'w, R, A, I, O>(
    rt: &R,
    alloc: A,
    reader: &mut I,
    chunk: &mut [u8],
    writer: &'w mut O,
) -> (&'w mut O, Result<(), EngineFault>)
where
    R: Threads + Sync,
    A: Allocator + Copy,
    I: Read,
    O: Write,
    requires { 0 < length chunk.old }
    ensures session { Converses (I.remaining reader.old) (I.remaining reader.new) (O.contents writer.old) (O.contents result.0.now) result.1 }
    ensures reference { result.0.ghost_name ≡ writer.entry.ghost_name }
    ensures end { OnOk result.1 (IsAtEnd (I.remaining reader.new)) }
{
    let mut held = HeldBack::new(alloc, writer);
    let ended = answer_all(rt, alloc, reader, chunk, &mut held);
    let (writer, closed) = held.close();
    match closed {
        Ok(()) => (writer, ended),
        Err(_) => (writer, Err(EngineFault::WriteFault)),
    }
}

/// Reads the input chunk by chunk, answers each line, and flushes the writer before the next chunk.
fn answer_all<R, A, I, O>(
    rt: &R,
    alloc: A,
    reader: &mut I,
    chunk: &mut [u8],
    writer: &mut HeldBack<'_, O, A>,
) -> Result<(), EngineFault>
where
    R: Threads + Sync,
    A: Allocator + Copy,
    I: Read,
    O: Write,
    requires { 0 < length chunk.old }
    ensures session { Converses (I.remaining reader.old) (I.remaining reader.new) (contents_with O.contents writer.old) (contents_with O.contents writer.new) result }
    ensures first { writer.new.first ≡ writer.old.first }
    ensures end { OnOk result (IsAtEnd (I.remaining reader.new)) }
{
    let mut session_loop = SessionLoop::new(alloc);
    'reads: for _ in 0..MOST_READS {
        let Some(count) = read_some(reader, chunk)? else {
            continue;
        };
        if count == 0 {
            return session_loop.finish(rt, writer);
        }
        session_loop.take(rt, &chunk[..count], writer)?;
        writer.flush()?;
    }
    Err(EngineFault::ReadFault)
}
