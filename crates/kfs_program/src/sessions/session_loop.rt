//! Cuts the input into lines, and writes the reply to each.
ghost use Rattle.std.specs.Prelude.{◌≡◌, ◌++◌, [], codes, IsErrOf, OnOk};
ghost use Rattle.kfs_program_text.specs.Command.{asked_by};
ghost use Rattle.kfs_program.specs.Engine.Progress.{Ends, IsAnsweredIfShort, IsHeldAnswered, LineIsKept, IsLineAnswered, HasAnsweredSoFar, Takes, reply_written};
ghost use Rattle.kfs_program.specs.Engine.Session.{AnswersLine};
ghost use Rattle.kfs_program.specs.Engine.Views.{IsUndone, stage_of};
ghost use Rattle.kfs_program_text.specs.HeldOutput.{contents_with};
ghost use Rattle.kfs_program_text.specs.Parts.{line_of};
ghost use Rattle.kfs_program_text.specs.Streams.{Writes};

use crate::report::LONGEST_LINE;
use crate::sessions::fault::EngineFault;
use crate::sessions::session::Session;
use kfs_program_text::{HeldBack, Refusal, first_line};
use std::alloc::Allocator;
use std::io::Write;
use std::thread::Threads;

/// The most bytes of a line, without its end.
pub const LINE_LIMIT: usize = 16_777_216;

/// A session, and the beginning of a line whose end isn't read yet.
#[derive(Drop)]
pub struct SessionLoop<A: Allocator> {
    session: Session<A>,
    line: Vec<u8, A>,
    /// What `Command::read` puts bytes into. It lasts, as `reply` does, so that a short line takes no memory for them.
    room: Vec<u8, A>,
    reply: Vec<u8, A>,
}

impl<A: Allocator + Copy> SessionLoop<A> {
    /// At the start of a session, with no line begun. Takes no memory.
    pub fn new(alloc: A) -> SessionLoop<A>
        ensures { HasAnsweredSoFar result [] [] [] }
    {
        SessionLoop {
            session: Session::new(alloc),
            line: Vec::new(alloc),
            room: Vec::new(alloc),
            reply: Vec::new(alloc),
        }
    }

    /// Answers each line that ends in `bytes`, and keeps the bytes after the last line's end.
    pub fn take<W: Write>(
        &mut self,
        rt: &(impl Threads + Sync),
        bytes: &[u8],
        writer: &mut HeldBack<'_, W, A>,
    ) -> Result<(), EngineFault>
        ensures session { Writes (contents_with W.contents writer.old) (contents_with W.contents writer.new) (Takes self.old bytes.now result self.new) }
        ensures first { writer.new.first ≡ writer.old.first }
    {
        let mut rest = bytes;
        'lines: while let Some((line, behind)) = first_line(rest) {
            self.end_line(rt, line, writer)?;
            rest = behind;
        }
        self.keep(rest)
    }

    /// Answers the last line, if it has no end.
    pub fn finish<W: Write>(
        &mut self,
        rt: &(impl Threads + Sync),
        writer: &mut HeldBack<'_, W, A>,
    ) -> Result<(), EngineFault>
        ensures session { Writes (contents_with W.contents writer.old) (contents_with W.contents writer.new) (Ends self.old result) }
        ensures first { writer.new.first ≡ writer.old.first }
    {
        if self.line.is_empty() {
            return Ok(writer.flush()?);
        }
        self.answer(rt, writer)?;
        Ok(writer.flush()?)
    }

    /// Answers the line that ends with `part`. One that has no other part is read where it lies.
    fn end_line<W: Write>(
        &mut self,
        rt: &(impl Threads + Sync),
        part: &[u8],
        writer: &mut HeldBack<'_, W, A>,
    ) -> Result<(), EngineFault>
        ensures session { Writes (contents_with W.contents writer.old) (contents_with W.contents writer.new) (IsLineAnswered result self.old (self.old.line.items ++ part.now) self.new) }
        ensures first { writer.new.first ≡ writer.old.first }
        ensures cleared { OnOk result (self.new.line.items ≡ []) }
    {
        if self.line.is_empty() && part.len() <= LINE_LIMIT {
            let (room, reply) = (&mut self.room, &mut self.reply);
            return answer_line(&mut self.session, room, reply, rt, part, writer);
        }
        self.keep(part)?;
        self.answer(rt, writer)
    }

    fn keep(&mut self, part: &[u8]) -> Result<(), EngineFault>
        ensures line { LineIsKept result (stage_of self.old.session) (self.old.line.items ++ part.now) self.new.line.items }
        ensures session { self.new.session ≡ self.old.session }
    {
        if self.line.len().saturating_add(part.len()) > LINE_LIMIT {
            return Err(EngineFault::LongLine);
        }
        self.line.extend_from_slice(part)?;
        Ok(())
    }

    /// Answers the line that is held, and holds none then.
    fn answer<W: Write>(
        &mut self,
        rt: &(impl Threads + Sync),
        writer: &mut HeldBack<'_, W, A>,
    ) -> Result<(), EngineFault>
        ensures session { Writes (contents_with W.contents writer.old) (contents_with W.contents writer.new) (IsHeldAnswered result self.old self.new) }
        ensures first { writer.new.first ≡ writer.old.first }
        ensures cleared { self.new.line.items ≡ [] }
    {
        let (room, reply) = (&mut self.room, &mut self.reply);
        let answered = answer_line(&mut self.session, room, reply, rt, &self.line, writer);
        self.line.clear();
        answered
    }
}

/// Answers a line, and writes the reply, which is made in `reply`.
fn answer_line<W: Write, A: Allocator + Copy>(
    session: &mut Session<A>,
    room: &mut Vec<u8, A>,
    reply: &mut Vec<u8, A>,
    rt: &(impl Threads + Sync),
    line: &[u8],
    writer: &mut HeldBack<'_, W, A>,
) -> Result<(), EngineFault>
    ensures session { Writes (contents_with W.contents writer.old) (contents_with W.contents writer.new) (IsAnsweredIfShort result (stage_of session.old) line.now (stage_of session.new)) }
    ensures first { writer.new.first ≡ writer.old.first }
{
    let replied = reply_to(session, room, reply, rt, line);
    writer.write(text_of(replied, reply))?;
    Ok(())
}

/// Answers a line. Where memory runs out, the verdict that it asks to land is given up.
fn reply_to<A: Allocator + Copy>(
    session: &mut Session<A>,
    room: &mut Vec<u8, A>,
    reply: &mut Vec<u8, A>,
    rt: &(impl Threads + Sync),
    line: &[u8],
) -> Result<(), Refusal>
    ensures { AnswersLine (stage_of session.old) line.now (reply_written result reply.new.items, stage_of session.new) }
{
    match reply_in_room(session, room, reply, rt, line) {
        Ok(()) => Ok(()),
        Err(Refusal::BadLine) => Err(Refusal::BadLine),
        Err(Refusal::OutOfMemory) => {
            session.give_up(line);
            Err(Refusal::OutOfMemory)
        }
    }
}

/// Answers a line, with room for the reply made before anything changes.
fn reply_in_room<A: Allocator + Copy>(
    session: &mut Session<A>,
    room: &mut Vec<u8, A>,
    reply: &mut Vec<u8, A>,
    rt: &(impl Threads + Sync),
    line: &[u8],
) -> Result<(), Refusal>
    ensures ok { OnOk result (AnswersLine (stage_of session.old) line.now (reply.new.items, stage_of session.new)) }
    ensures bad { IsErrOf result Refusal.BadLine → AnswersLine (stage_of session.old) line.now (line_of (codes "bad line"), stage_of session.new) }
    ensures memory { IsErrOf result Refusal.OutOfMemory → IsUndone (asked_by line.now) (stage_of session.old) (stage_of session.new) }
{
    reply.clear();
    reply.try_reserve(LONGEST_LINE)?;
    session.answer(rt, line, room, reply)
}

/// What is written for a reply: the reply itself, or a refusal's line.
fn text_of(replied: Result<(), Refusal>, reply: &[u8]) -> &[u8]
    ensures { result.now ≡ reply_written replied reply.now }
{
    match replied {
        Ok(()) => reply,
        Err(Refusal::BadLine) => b"bad line\n",
        Err(Refusal::OutOfMemory) => b"memory\n",
    }
}
