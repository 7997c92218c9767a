//! A test program. It runs the scripts of its folder data/ through `run_words`, and compares output and
//! exit status with what is expected, byte by byte; some of them in little memory, too, and with reads and
//! writes that fail.
//!
//! It stands on `kfs_program`. docs/EXAMPLES.md tells what the scripts try. Begin with `main`.
#![tactic(auto)]

mod memory;
mod runs;
mod scripts;
mod streams;

use kfs_program::run_words;
use memory::run_in_little_memory;
use scripts::{Case, ScriptFault, script_names};
use std::io;
use std::process::ExitCode;
use std::rt::Files;
use std::thread::Threads;
use streams::run_with_failures;

fn main(rt: HostRuntime) -> io::Result<ExitCode> {
    let names = script_names(&rt, ".")?;
    let mut failed = 0u64;
    for name in names.iter() {
        match run_script(&rt, name.as_str()) {
            Ok(()) => println!(rt; "{name}: as expected")?,
            Err(fault) => {
                failed = failed.saturating_add(1);
                println!(rt; "{name}: {fault}")?;
            }
        }
    }
    let count = names.len();
    println!(rt; "{count} scripts, {failed} failed")?;
    Ok(ExitCode::from(u8::from(failed != 0)))
}

/// Runs one script with its words, and compares its replies and its status.
fn run_script<R: Files + AllocGlobal + Threads + Sync>(
    rt: &R,
    name: &str,
) -> Result<(), ScriptFault> {
    let case = Case::read(rt, name)?;
    let words = case.words(rt.alloc())?;
    let mut script = case.script();
    let mut written = Vec::new(rt.alloc());
    let status = run_words(rt, rt.alloc(), &words, &mut script, &mut written);
    case.compare(status, &written)?;
    run_in_little_memory(rt, &case, &words)?;
    run_with_failures(rt, &case, &words)
}
