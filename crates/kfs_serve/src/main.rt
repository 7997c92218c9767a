//! The program `kfs_serve`: a desk on the files of a folder, which answers the frames of standard input on standard output.
//!
//! It stands on `kfs_server` and `kfs_journal_files`. docs/PROTOCOL.md has its words, frames, replies and exit statuses. Begin
//! with `run` in `starting.rt`.
#![tactic(auto)]

mod clients;
mod fault;
mod starting;
mod words;

use fault::{ProgramFault, status_of};
use starting::run;
use std::io::{Read, Write};
use std::process::ExitCode;
use std::thread::Threads;
use std::{env, io};

fn main(rt: HostRuntime) -> ExitCode {
    match served(&rt, &rt, &mut rt.stdin(), &mut rt.stdout()) {
        Ok(()) => ExitCode::from(0),
        Err(fault) => {
            // the status says it, too, where standard error can't be written
            let _ = eprintln!(rt; "kfs_serve: {fault}");
            ExitCode::from(status_of(&fault))
        }
    }
}

/// Does what the words of the command line ask for.
fn served<T: Threads + Sync, I: Read, O: Write>(
    rt: &HostRuntime,
    threads: &T,
    reader: &mut I,
    writer: &mut O,
) -> Result<(), ProgramFault> {
    let words = match words_of(rt) {
        Ok(words) => words,
        Err(error) if error.kind() == io::ErrorKind::OutOfMemory => {
            return Err(ProgramFault::OutOfMemory);
        }
        Err(_) => return Err(ProgramFault::Usage),
    };
    let Ok(words) = words.iter().map(|word| word.as_str()).collect(rt.alloc()) else {
        return Err(ProgramFault::OutOfMemory);
    };
    let words: Vec<&str> = words;
    run(rt, threads, &words, reader, writer)
}

/// The words of the command line; the program's name is the first.
fn words_of(rt: &HostRuntime) -> io::Result<Vec<String>> {
    Ok(env::args(rt)?.collect(rt.alloc())?)
}
