//! The words that take a few lines of input: what each of them writes for its lines.
ghost use Rattle.std.specs.Prelude.{◌≡◌, [], IfErr};
ghost use Rattle.kfs_program_text.specs.Streams.{IsWritten, Writes};
ghost use Rattle.kfs_program.specs.Answer.{Answers, Tells};
ghost use Rattle.kfs_program.specs.declared.answer.LineWord.TheVariants.{Fsck, Plan, Show};

use crate::images::{push_check, push_rows};
use crate::input::Unread;
use crate::planning::tell_plan;
use crate::sessions::EngineFault;
use kfs_program_text::{flush, write_whole};
use std::alloc::Allocator;
use std::io::{Read, Write};
use std::thread::Threads;

/// A word that takes a few lines of input.
#[derive(Clone, Copy, Debug, PartialEq, Eq)]
pub(crate) enum LineWord {
    /// `fsck`: checks the image of one line.
    Fsck,
    /// `show`: shows the nodes and names of the image of one line.
    Show,
    /// `plan`: says the plan of a log, from an image, a client and a log in three lines.
    Plan,
}

/// Takes the lines that the word wants, and writes what it says for them. Answers whether all of them
/// are accepted. Before that nothing is written, and no further line is read. The text is written as a
/// whole: where memory runs out, none of it is.
pub(crate) fn answer_lines<R, A, I, O>(
    rt: &R,
    alloc: A,
    word: LineWord,
    reader: &mut I,
    writer: &mut O,
) -> Result<bool, EngineFault>
where
    R: Threads + Sync,
    A: Allocator + Copy,
    I: Read,
    O: Write,
    ensures { Answers A word (I.remaining reader.old) (I.remaining reader.new) (O.contents writer.old) (O.contents writer.new) result }
{
    let mut text = Vec::new(alloc);
    let is_done = tell(rt, alloc, word, reader, &mut text)?;
    write_text(writer, &text)?;
    Ok(is_done)
}

/// Appends what the word says for its lines. Answers whether all of them are accepted.
fn tell<R, A, I>(
    rt: &R,
    alloc: A,
    word: LineWord,
    reader: &mut I,
    text: &mut Vec<u8, A>,
) -> Result<bool, EngineFault>
where
    R: Threads + Sync,
    A: Allocator + Copy,
    I: Read,
    requires { text.old.items ≡ [] }
    ensures { Tells A word (I.remaining reader.old) (I.remaining reader.new) text.new.items result }
{
    match word {
        LineWord::Fsck => tell_check(rt, alloc, reader, text),
        LineWord::Show => tell_rows(alloc, reader, text),
        LineWord::Plan => tell_plan(rt, alloc, reader, text),
    }
}

/// Whether the image that a line says is accepted: `ok`, or why it isn't.
fn tell_check<R, A, I>(
    rt: &R,
    alloc: A,
    reader: &mut I,
    text: &mut Vec<u8, A>,
) -> Result<bool, EngineFault>
where
    R: Threads + Sync,
    A: Allocator + Copy,
    I: Read,
    requires { text.old.items ≡ [] }
    ensures { Tells A Fsck (I.remaining reader.old) (I.remaining reader.new) text.new.items result }
{
    let mut line = Vec::new(alloc);
    Unread::new(alloc).take_line(alloc, reader, &mut line)?;
    Ok(push_check(rt, alloc, &line, text)?)
}

/// The nodes and the names of the image that a line says, or why it isn't let in.
fn tell_rows<A, I>(alloc: A, reader: &mut I, text: &mut Vec<u8, A>) -> Result<bool, EngineFault>
where
    A: Allocator + Copy,
    I: Read,
    requires { text.old.items ≡ [] }
    ensures { Tells A Show (I.remaining reader.old) (I.remaining reader.new) text.new.items result }
{
    let mut line = Vec::new(alloc);
    Unread::new(alloc).take_line(alloc, reader, &mut line)?;
    Ok(push_rows(alloc, &line, text)?)
}

/// Writes the text, and flushes the writer.
fn write_text<O: Write>(writer: &mut O, text: &[u8]) -> Result<(), EngineFault>
    ensures text { Writes (O.contents writer.old) (O.contents writer.new) (IsWritten result text.now) }
    ensures fault { IfErr result (λ fault. fault ≡ EngineFault.WriteFault) }
{
    write_whole(writer, text)?;
    flush(writer)?;
    Ok(())
}
