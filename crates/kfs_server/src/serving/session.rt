//! The input read, and its frames answered.
ghost use Rattle.std.specs.Prelude.{◌≡◌, ℕ, List, length, IsErrOf, IsTrue, IfOk, OnOk};
ghost use Rattle.std.specs.Io.KnownBytes.{IsAtEnd};
ghost use Rattle.kfs_kept.specs.Keeping.{IsKept};
ghost use Rattle.kfs_program_text.specs.Streams.{Exchanges, Writes};
ghost use Rattle.kfs_server.specs.Frames.Begun.{IsBegun, IsPending};
ghost use Rattle.kfs_server.specs.Serving.Onward.{AreAnswered};
ghost use Rattle.kfs_server.specs.Serving.Room.{HasRoom, IsAmple, IsRoom};
ghost use Rattle.kfs_server.specs.Serving.Transcript.{IsSession, IsTailWritten};
ghost use Rattle.kfs_server.specs.declared.serving.fault.GroupFault.TheVariants as groups;
ghost use Rattle.kfs_server.specs.declared.serving.fault.ServeFault.TheVariants as faults;

use crate::frames::FrameReader;
use crate::replies::{NumberedReply, Refusal, Reply, spell_reply};
use crate::serving::fault::ServeFault;
use crate::serving::onward::answer_frames;
use crate::serving::renewal::renew;
use crate::serving::room::{CHUNK, Room};
use kfs_journal::Disk;
use kfs_kept::{Judges, Kept};
use kfs_program_text::{OutputFault, flush, read_some, write_whole};
use std::alloc::{AllocError, Allocator};
use std::io::{Read, Write};
use std::thread::Threads;

/// Serves frames from `reader` to its end, and writes the replies to `writer`. All frames that are whole with one
/// read are answered together. Calls that stand behind one another there are one group: they are kept together, and
/// then all of their replies are written. A look-up between them is answered from the desk. Behind the frames of a read
/// the journal is begun anew where that is due (`Kept::checkpoint_if_due`).
///
/// Where `judges` are two or more, the submissions of a group that don't wait for one another are judged beside each other
/// before its calls are made. The replies are the same.
///
/// Condition: the desk is open. At `Ok` the input has ended, the desk is open, and each crash leaves its state. At
/// `Err` serving has stopped: what was answered is kept. Memory for reading and writing is taken before the first
/// read.
pub fn serve<R, A, B, D, I, O>(
    judges: &Judges<'_, R>,
    alloc: B,
    kept: &mut Kept<A, D>,
    reader: &mut I,
    writer: &mut O,
) -> Result<(), ServeFault>
where
    R: Threads + Sync,
    A: Allocator + Copy + Send + Sync,
    B: Allocator + Copy,
    D: Disk + Drop,
    I: Read,
    O: Write,
    requires kept { IsKept D.seen D.may_leave kept.old }
    requires open { IsTrue kept.old.is_open }
    ensures kept { IsKept D.seen D.may_leave kept.new }
    ensures session { Exchanges (I.remaining reader.old) (I.remaining reader.new) (O.contents writer.old) (O.contents writer.new) (IsSession D.may_leave D.moment D.left_since result kept.old kept.new) }
    ensures open { OnOk result (IsTrue kept.new.is_open) }
    ensures failed { IsErrOf result (faults.Group groups.Failed) → IsTrue (D.has_failed kept.new.disk) }
    ensures end { OnOk result (IsAtEnd (I.remaining reader.new)) }
{
    let mut chunk = new_chunk(alloc)?;
    let mut room = Room::new(alloc)?;
    serve_by_chunks(judges, alloc, kept, reader, &mut chunk, &mut room, writer)
}

fn new_chunk<B: Allocator>(alloc: B) -> Result<Vec<u8, B>, AllocError>
    ensures { IfOk result (λ chunk. length chunk.items ≡ 65536) }
{
    vec![in alloc; 0u8; CHUNK]
}

/// Reads chunk by chunk, and answers the frames that are whole with each.
fn serve_by_chunks<R, A, B, D, I, O>(
    judges: &Judges<'_, R>,
    alloc: B,
    kept: &mut Kept<A, D>,
    reader: &mut I,
    chunk: &mut [u8],
    room: &mut Room<B>,
    writer: &mut O,
) -> Result<(), ServeFault>
where
    R: Threads + Sync,
    A: Allocator + Copy + Send + Sync,
    B: Allocator + Copy,
    D: Disk + Drop,
    I: Read,
    O: Write,
    requires kept { IsKept D.seen D.may_leave kept.old }
    requires open { IsTrue kept.old.is_open }
    requires chunk { length chunk.old ≡ 65536 }
    requires room { IsRoom room.old }
    ensures kept { IsKept D.seen D.may_leave kept.new }
    ensures session { Exchanges (I.remaining reader.old) (I.remaining reader.new) (O.contents writer.old) (O.contents writer.new) (IsSession D.may_leave D.moment D.left_since result kept.old kept.new) }
    ensures open { OnOk result (IsTrue kept.new.is_open) }
    ensures failed { IsErrOf result (faults.Group groups.Failed) → IsTrue (D.has_failed kept.new.disk) }
    ensures end { OnOk result (IsAtEnd (I.remaining reader.new)) }
{
    let mut frames = FrameReader::new(alloc);
    'reads: for _ in 0..u64::MAX {
        let Some(count) = read_some(reader, chunk)? else {
            continue;
        };
        if count == 0 {
            end(&frames, writer)?;
            return Ok(());
        }
        frames.take(&chunk[..count], &mut room.group);
        answer_read(judges, alloc, kept, room, writer)?;
        room.clear();
    }
    Err(ServeFault::ReadFault)
}

/// Answers the frames that are whole with one read, and begins the journal anew where that is due.
fn answer_read<R, A, B, D, O>(
    judges: &Judges<'_, R>,
    alloc: B,
    kept: &mut Kept<A, D>,
    room: &mut Room<B>,
    writer: &mut O,
) -> Result<(), ServeFault>
where
    R: Threads + Sync,
    A: Allocator + Copy + Send + Sync,
    B: Allocator + Copy,
    D: Disk + Drop,
    O: Write,
    requires kept { IsKept D.seen D.may_leave kept.old }
    requires open { IsTrue kept.old.is_open }
    requires room { HasRoom room.old }
    ensures kept { IsKept D.seen D.may_leave kept.new }
    ensures open { OnOk result (IsTrue kept.new.is_open) }
    ensures failed { IsErrOf result (faults.Group groups.Failed) → IsTrue (D.has_failed kept.new.disk) }
    ensures room { IsAmple room.new }
    ensures served { AreAnswered D.may_leave D.moment D.left_since result (O.contents writer.old) (O.contents writer.new) kept.old kept.new room.old.group.items }
{
    if room.group.is_empty() {
        return Ok(());
    }
    answer_frames(judges, alloc, kept, &room.group, &mut room.said, writer)?;
    renew(alloc, kept)?;
    Ok(())
}

/// What is said where the input ends: that a frame is cut, if its head has come.
fn end<B: Allocator + Copy, O: Write>(
    frames: &FrameReader<B>,
    writer: &mut O,
) -> Result<(), OutputFault>
    requires { IsBegun frames.now.begun }
    ensures { (rest : List ℕ) → IsPending frames.now.begun rest → Writes (O.contents writer.old) (O.contents writer.new) (IsTailWritten result rest) }
{
    let Some(number) = frames.cut() else {
        return Ok(());
    };
    let reply = NumberedReply {
        number,
        reply: Reply::Refused(Refusal::CutShort),
    };
    let bytes = spell_reply(&reply);
    write_whole(writer, bytes.as_slice())?;
    flush(writer)?;
    Ok(())
}
