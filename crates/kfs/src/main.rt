//! The program `kfs`: hands the words of the command line to `kfs_program`, with standard input and
//! output.
//!
//! It stands on `kfs_program` alone. Begin with `run_words` there.
#![tactic(auto)]

use kfs_program::{run_words, status_message};
use std::io::{Read, Write};
use std::process::ExitCode;
use std::thread::Threads;
use std::{env, io};

fn main(rt: HostRuntime) -> ExitCode {
    let status = match words(&rt) {
        Ok(words) => run(&rt, &words, &mut rt.stdin(), &mut rt.stdout()),
        Err(error) if error.kind() == io::ErrorKind::OutOfMemory => 4,
        Err(_) => 2,
    };
    if let Some(message) = status_message(status) {
        // the status says it, too, where standard error can't be written
        let _ = eprintln!(rt; "kfs: {message}");
    }
    ExitCode::from(status)
}

/// The words of the command line; the program's name is the first.
fn words(rt: &HostRuntime) -> io::Result<Vec<String>> {
    Ok(env::args(rt)?.collect(rt.alloc())?)
}

/// The exit status; 4 also where memory for the words was refused.
fn run<R, I, O>(rt: &R, words: &[String], reader: &mut I, writer: &mut O) -> u8
where
    R: AllocGlobal + Threads + Sync,
    I: Read,
    O: Write,
{
    let Ok(words) = words.iter().map(|word| word.as_str()).collect(rt.alloc()) else {
        return 4;
    };
    let words: Vec<&str> = words;
    run_words(rt, rt.alloc(), &words, reader, writer)
}
