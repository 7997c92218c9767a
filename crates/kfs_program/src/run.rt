//! The words of the command line, and the exit status.
ghost use Rattle.std.specs.Prelude.{◌≡◌, IfOk, MatchOption, None, Some};
ghost use Rattle.kfs_program.specs.Exit.{Exits, IsAskedFor, answer_status_of, fault_status_of, message_of, status_of};

use crate::answer::{LineWord, answer_lines};
use crate::sessions::{EngineFault, engine};
use clap::Command;
use clap::error::ErrorKind;
use std::alloc::{Allocator, Global};
use std::io::{Read, Write};
use std::thread::Threads;

/// What the words ask for.
#[derive(Clone, Copy, Debug, PartialEq, Eq)]
enum Subcommand {
    /// `run`, or no word: answers command lines.
    Run,
    /// A word that takes a few lines.
    Lines(LineWord),
}

/// Why the words ask for nothing.
#[derive(Clone, Copy, Debug, PartialEq, Eq)]
enum WordsFault {
    /// There are other words, or more of them. A request for help counts as that.
    Refused,
    /// Memory was refused.
    OutOfMemory,
}

/// Does what the words ask for, over `reader` and `writer`. The first word is the program's name. The
/// words are looked at before any input is read.
///
/// Answers the exit status:
/// - 0: done;
/// - 1: a line that `fsck`, `show` or `plan` takes isn't let in, and the text says why;
/// - 2: the words were refused, and nothing was read or written;
/// - 3: a read or a write failed, or a line was too long;
/// - 4: memory for the words or for a line of the input was refused, or for what `fsck`, `show` or `plan`
///   makes of it.
pub fn run_words<R, A, I, O>(rt: &R, alloc: A, words: &[&str], reader: &mut I, writer: &mut O) -> u8
where
    R: AllocGlobal + Threads + Sync,
    A: Allocator + Copy,
    I: Read,
    O: Write,
    ensures { Exits A (I.remaining reader.old) (I.remaining reader.new) (O.contents writer.old) (O.contents writer.new) words.now result }
{
    match asked_of(rt.alloc(), words) {
        Ok(Subcommand::Run) => exit_status(engine(rt, alloc, reader, writer)),
        Ok(Subcommand::Lines(word)) => {
            answer_status(answer_lines(rt, alloc, word, reader, writer))
        }
        Err(WordsFault::Refused) => 2,
        Err(WordsFault::OutOfMemory) => 4,
    }
}

/// What an exit status means, in words for a person; none for 0.
pub fn status_message(status: u8) -> Option<&'static str>
    ensures { MatchOption result (message_of status ≡ None) (λ message. message_of status ≡ Some message.now) }
{
    match status {
        2 => Some("usage: kfs [run | fsck | show | plan]"),
        3 => Some("the input or the output failed, or a line was too long"),
        4 => Some("out of memory"),
        _ => None,
    }
}

/// The status of `run`.
fn exit_status(ended: Result<(), EngineFault>) -> u8
    ensures { result ≡ status_of ended }
{
    match ended {
        Ok(()) => 0,
        Err(fault) => fault_status(fault),
    }
}

/// The status of a word that takes a few lines: whether all of them were let in.
fn answer_status(ended: Result<bool, EngineFault>) -> u8
    ensures { result ≡ answer_status_of ended }
{
    match ended {
        Ok(true) => 0,
        Ok(false) => 1,
        Err(fault) => fault_status(fault),
    }
}

fn fault_status(fault: EngineFault) -> u8
    ensures { result ≡ fault_status_of fault }
{
    match fault {
        EngineFault::OutOfMemory => 4,
        _ => 3,
    }
}

/// What the words ask for. `clap` skips some words, such as `--`, so they are looked at, too.
fn asked_of(alloc: Global, words: &[&str]) -> Result<Subcommand, WordsFault>
    ensures { IfOk result (λ asked. IsAskedFor words.now asked) }
{
    take_words(alloc, words)?;
    subcommand_in(words)
}

/// Whether `clap` takes the words.
fn take_words(alloc: Global, words: &[&str]) -> Result<(), WordsFault> {
    match parse(alloc, words) {
        Ok(()) => Ok(()),
        Err(error) if error.kind() == ErrorKind::OutOfMemory => Err(WordsFault::OutOfMemory),
        Err(_) => Err(WordsFault::Refused),
    }
}

fn parse(alloc: Global, words: &[&str]) -> Result<(), clap::Error> {
    let run = Command::new(alloc, "run");
    let command = Command::new(alloc, "kfs").subcommand(run)?;
    let fsck = Command::new(alloc, "fsck");
    let command = command.subcommand(fsck)?;
    let show = Command::new(alloc, "show");
    let command = command.subcommand(show)?;
    let plan = Command::new(alloc, "plan");
    let command = command.subcommand(plan)?;
    // What was matched is read from the words by `subcommand_in`, of which there is a clause.
    let _matches = command.try_get_matches_from(words)?;
    Ok(())
}

/// The subcommand that the words name. The first one is the program's name.
fn subcommand_in(words: &[&str]) -> Result<Subcommand, WordsFault>
    ensures { IfOk result (λ asked. IsAskedFor words.now asked) }
{
    match *words {
        [] | [_] => Ok(Subcommand::Run),
        [_, "run"] => Ok(Subcommand::Run),
        [_, "fsck"] => Ok(Subcommand::Lines(LineWord::Fsck)),
        [_, "show"] => Ok(Subcommand::Lines(LineWord::Show)),
        [_, "plan"] => Ok(Subcommand::Lines(LineWord::Plan)),
        _ => Err(WordsFault::Refused),
    }
}
