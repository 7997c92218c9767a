//! The word `plan`: an image, a client and a log, and the plan of that log.
ghost use Rattle.std.specs.Prelude.{◌≡◌, [], Err, IfErr, IfOk, IsErrOf, MatchOption, None, Ok, Some, bytes_eq, codes};
ghost use Rattle.kfs_program_text.specs.Command.{Load, Row, Setup, asked_by};
ghost use Rattle.kfs_program_text.specs.Views.{opening_of};
ghost use Rattle.kfs_program_text.specs.Decimals.{hexadecimal};
ghost use Rattle.kfs_program_text.specs.Reading.{ReadsAs, only, words_left};
ghost use Rattle.kfs_program.specs.Answer.{Tells};
ghost use Rattle.kfs_program.specs.Planning.{RefusesClient, RefusesImage, SaysForLog, TakesClient, TakesImage, bad_line, log_said};
ghost use Rattle.kfs_program.specs.declared.answer.LineWord.TheVariants.{Plan};

use crate::images::load;
use crate::input::Unread;
use crate::report::client_line;
use crate::sessions::{EngineFault, plan_line};
use kfs_image::Image;
use kfs_mode::{Client, ClientFault};
use kfs_program_text::{Command, OpeningCommand, Refusal, Words};
use std::alloc::{AllocError, Allocator};
use std::io::Read;
use std::thread::Threads;

/// The plan of the log in the third line, for the image in the first one and the client in the second. Or
/// why a line is refused: then no further line is read.
pub(crate) fn tell_plan<R, A, I>(
    rt: &R,
    alloc: A,
    reader: &mut I,
    text: &mut Vec<u8, A>,
) -> Result<bool, EngineFault>
where
    R: Threads + Sync,
    A: Allocator + Copy,
    I: Read,
    requires { text.old.items ≡ [] }
    ensures { Tells A Plan (I.remaining reader.old) (I.remaining reader.new) text.new.items result }
{
    let mut unread = Unread::new(alloc);
    let mut line = Vec::new(alloc);
    unread.take_line(alloc, reader, &mut line)?;
    let Some(image) = image_in(rt, alloc, &line, text)? else {
        return Ok(false);
    };
    unread.take_line(alloc, reader, &mut line)?;
    let Some(client) = client_in(alloc, &line, text)? else {
        return Ok(false);
    };
    unread.take_line(alloc, reader, &mut line)?;
    Ok(tell_log(alloc, &image, &client, &line, text)?)
}

/// The image of a line `image HEX`. Where there is none, the text says why, or that it is another line.
fn image_in<A: Allocator + Copy>(
    rt: &(impl Threads + Sync),
    alloc: A,
    line: &[u8],
    text: &mut Vec<u8, A>,
) -> Result<Option<Image<A>>, AllocError>
    requires { text.old.items ≡ [] }
    ensures { IfOk result (λ image. TakesImage (asked_by line.now) image text.new.items) }
{
    let Some(bytes) = unless_bad(image_bytes(alloc, line))? else {
        return refuse(text);
    };
    load_alone(rt, alloc, bytes.as_slice(), text)
}

/// The image that the bytes decode to. Where there is none, the text says why.
#[tactic(auto, using(crate::proofs::Planned::loaded, crate::proofs::Planned::unloaded))]
fn load_alone<A: Allocator + Copy>(
    rt: &(impl Threads + Sync),
    alloc: A,
    bytes: &[u8],
    text: &mut Vec<u8, A>,
) -> Result<Option<Image<A>>, AllocError>
    requires { text.old.items ≡ [] }
    ensures { IfOk result (λ image. TakesImage (Some (Load bytes.now)) image text.new.items) }
{
    let loaded = load(rt, alloc, bytes, text)?;
    match loaded {
        Some(image) => {
            text.clear();
            Ok(Some(image))
        }
        None => Ok(None),
    }
}

/// The bytes of a line `image HEX`. Another line is bad.
fn image_bytes<A: Allocator + Copy>(alloc: A, line: &[u8]) -> Result<Vec<u8, A>, Refusal>
    ensures ok { IfOk result (λ bytes. asked_by line.now ≡ Some (Load bytes.items)) }
    ensures bad { IsErrOf result Refusal.BadLine → RefusesImage (asked_by line.now) bad_line }
{
    let mut room = Vec::new(alloc);
    match Command::read(alloc, &mut room, line)? {
        Command::Image(bytes) => Ok(bytes),
        Command::Opening(_) => Err(Refusal::BadLine),
        Command::Desk(_) => Err(Refusal::BadLine),
    }
}

/// The client of a `client` line. Where there is none, the text says why, or that it is another line.
fn client_in<A: Allocator + Copy>(
    alloc: A,
    line: &[u8],
    text: &mut Vec<u8, A>,
) -> Result<Option<Client>, AllocError>
    requires { text.old.items ≡ [] }
    ensures { IfOk result (λ client. TakesClient (asked_by line.now) client text.new.items) }
{
    match unless_bad(client_row(alloc, line))? {
        Some(Ok(client)) => Ok(Some(client)),
        Some(Err(fault)) => {
            client_line(text, fault)?;
            Ok(None)
        }
        None => refuse(text),
    }
}

/// The client of a `client` line, or why it is refused. Another line is bad.
fn client_row<A: Allocator + Copy>(
    alloc: A,
    line: &[u8],
) -> Result<Result<Client, ClientFault>, Refusal>
    ensures ok { IfOk result (λ row. asked_by line.now ≡ Some (Setup (Row row))) }
    ensures bad { IsErrOf result Refusal.BadLine → RefusesClient (asked_by line.now) bad_line }
{
    let mut room = Vec::new(alloc);
    match Command::read(alloc, &mut room, line)? {
        Command::Opening(command) => row_of(command),
        Command::Image(_) => Err(Refusal::BadLine),
        Command::Desk(_) => Err(Refusal::BadLine),
    }
}

/// The client that the command has, or why it is refused. Another command is a bad line.
fn row_of(command: OpeningCommand) -> Result<Result<Client, ClientFault>, Refusal>
    ensures ok { IfOk result (λ row. opening_of command ≡ Row row) }
    ensures bad { IfErr result (λ why. RefusesClient (Some (Setup (opening_of command))) bad_line) }
{
    match command {
        OpeningCommand::Client(row) => Ok(row),
        OpeningCommand::New(_) => Err(Refusal::BadLine),
        OpeningCommand::Begin(_) => Err(Refusal::BadLine),
    }
}

/// Appends the plan of the log in a line `log HEX`, or that there is none; for another line `bad line`.
/// Answers whether the line has a log.
fn tell_log<A: Allocator + Copy>(
    alloc: A,
    image: &Image<A>,
    client: &Client,
    line: &[u8],
    text: &mut Vec<u8, A>,
) -> Result<bool, AllocError>
    requires { text.old.items ≡ [] }
    ensures { IfOk result (λ is_log. SaysForLog image.now client.now (log_said line.now) is_log text.new.items) }
{
    let Some(log) = unless_bad(log_of(alloc, line))? else {
        text.extend_from_slice(b"bad line\n")?;
        return Ok(false);
    };
    plan_line(alloc, text, image, client, log.as_slice())?;
    Ok(true)
}

/// The bytes of a line `log HEX`. Another line is bad.
fn log_of<A: Allocator + Copy>(alloc: A, line: &[u8]) -> Result<Vec<u8, A>, Refusal>
    ensures { ReadsAs (λ bytes. bytes.items) (log_said line.now) result }
{
    let mut words = Words::new(line);
    let word = words.word()?;
    if is_log(word) {
        only_bytes(alloc, &mut words)
    } else {
        Err(Refusal::BadLine)
    }
}

fn is_log(word: &[u8]) -> bool
    ensures { result ≡ bytes_eq word.now (codes "log") }
{
    word == b"log".as_slice()
}

/// The only word left, as bytes in hexadecimal.
fn only_bytes<A: Allocator>(alloc: A, words: &mut Words<'_>) -> Result<Vec<u8, A>, Refusal>
    ensures { ReadsAs (λ bytes. bytes.items) (only hexadecimal (words_left words.old)) result }
{
    let bytes = words.bytes(alloc)?;
    words.end()?;
    Ok(bytes)
}

/// What is read, none for a bad line.
fn unless_bad<T: Drop>(read: Result<T, Refusal>) -> Result<Option<T>, AllocError>
    ensures { IfOk result (λ said. MatchOption said (read ≡ Err Refusal.BadLine) (λ x. read ≡ Ok x)) }
{
    match read {
        Ok(said) => Ok(Some(said)),
        Err(Refusal::BadLine) => Ok(None),
        Err(Refusal::OutOfMemory) => Err(AllocError),
    }
}

/// The text of a line that isn't the one wanted, and nothing in its place.
fn refuse<A: Allocator, T: Drop>(text: &mut Vec<u8, A>) -> Result<Option<T>, AllocError>
    requires { text.old.items ≡ [] }
    ensures { IfOk result (λ none. (none ≡ None) × (text.new.items ≡ bad_line)) }
{
    text.extend_from_slice(b"bad line\n")?;
    Ok(None)
}
