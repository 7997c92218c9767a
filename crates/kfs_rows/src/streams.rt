//! Scripts whose input or output fails: at each read in turn, and at each write. A write fails, or it takes no byte.

use crate::runs::run;
use crate::scripts::{Case, ScriptFault};
use kfs_program::run_words;
use std::io;
use std::io::{ErrorKind, Read, Write};
use std::thread::Threads;

/// More reads and more writes than any script asks for.
const MANY: u64 = 1 << 20;

/// Replies of at most so many bytes are held back until they can be one write.
const MANY_BYTES: usize = 4_096;

/// The exit status where reading or writing fails.
const FAILED: u8 = 3;

/// How many calls are granted. The next one fails, and so does each one behind it.
#[derive(Drop)]
struct Granted {
    left: u64,
    has_failed: bool,
}

impl Granted {
    /// One call more, or why it fails.
    fn call(&mut self) -> io::Result<()> {
        match self.left.checked_sub(1) {
            Some(left) => {
                self.left = left;
                Ok(())
            }
            None => {
                self.has_failed = true;
                Err(io::Error::from(ErrorKind::BrokenPipe))
            }
        }
    }
}

/// The half of so many bytes, and at least one of them.
fn half(count: usize) -> usize {
    count.div_ceil(2)
}

/// The lines as the reader gives them: half of what is left of a line at each read.
#[derive(Drop)]
struct Lines<'a> {
    bytes: &'a [u8],
    granted: Granted,
}

impl Read for Lines<'_> {
    fn read(&mut self, buf: &mut [u8]) -> io::Result<usize> {
        self.granted.call()?;
        let mut lines = self.bytes.split_inclusive(|byte| *byte == b'\n');
        let line = lines.next().unwrap_or(&[]);
        let mut given = line.get(..half(line.len())).unwrap_or(line);
        let count = given.read(buf)?;
        self.bytes = self.bytes.get(count..).unwrap_or(&[]);
        Ok(count)
    }
}

/// What a writer answers to a write that isn't granted.
#[derive(Clone, Copy)]
enum Refusal {
    Fails,
    /// It took no byte, and nothing failed.
    TakesNothing,
}

impl Refusal {
    /// Why a script isn't answered as it is due where the write of this index is refused.
    fn fault(self, index: u64) -> ScriptFault {
        match self {
            Refusal::Fails => ScriptFault::Write(index),
            Refusal::TakesNothing => ScriptFault::NothingTaken(index),
        }
    }
}

/// The text as the writer takes it: half of what it is handed at each write.
#[derive(Drop)]
struct Taken {
    text: Vec<u8>,
    granted: Granted,
    refusal: Refusal,
}

impl Write for Taken {
    fn write(&mut self, buf: &[u8]) -> io::Result<usize> {
        match (self.granted.call(), self.refusal) {
            (Ok(()), _) => self.text.write(buf.get(..half(buf.len())).unwrap_or(buf)),
            (Err(why), Refusal::Fails) => Err(why),
            (Err(_), Refusal::TakesNothing) => Ok(0),
        }
    }

    fn flush(&mut self) -> io::Result<()> {
        Ok(())
    }
}

/// The whole lines among these bytes.
fn whole_lines(bytes: &[u8]) -> &[u8] {
    let end = bytes.iter().rposition(|byte| *byte == b'\n');
    let count = end.map_or(0, |end| end.saturating_add(1));
    bytes.get(..count).unwrap_or(bytes)
}

/// Whether these are the first of the expected replies, and those of the whole lines among these bytes.
fn are_due<R: AllocGlobal + Threads + Sync>(
    rt: &R,
    case: &Case,
    words: &[&str],
    read: &[u8],
    text: &[u8],
) -> bool {
    let due = run(rt, rt.alloc(), words, whole_lines(read));
    case.replies().starts_with(text) && due.written.as_slice() == text
}

/// Fails each read of the script in turn: the whole lines before it are answered.
fn fail_reads<R: AllocGlobal + Threads + Sync>(
    rt: &R,
    case: &Case,
    words: &[&str],
) -> Result<(), ScriptFault> {
    for left in 0..MANY {
        let mut lines = Lines {
            bytes: case.lines(),
            granted: Granted {
                left,
                has_failed: false,
            },
        };
        let mut text = Vec::new(rt.alloc());
        let status = run_words(rt, rt.alloc(), words, &mut lines, &mut text);
        if !lines.granted.has_failed {
            return case.compare(status, &text);
        }
        let count = case.lines().len().saturating_sub(lines.bytes.len());
        let read = case.lines().get(..count).unwrap_or(&[]);
        if status != FAILED || !are_due(rt, case, words, read, &text) {
            return Err(ScriptFault::Read(left));
        }
    }
    Err(ScriptFault::Read(MANY))
}

/// Refuses each write of the script in turn: the first of the replies are written, or a part of them.
fn refuse_writes<R: AllocGlobal + Threads + Sync>(
    rt: &R,
    case: &Case,
    words: &[&str],
    refusal: Refusal,
) -> Result<(), ScriptFault> {
    for left in 0..MANY {
        let mut lines = Lines {
            bytes: case.lines(),
            granted: Granted {
                left: MANY,
                has_failed: false,
            },
        };
        let mut taken = Taken {
            text: Vec::new(rt.alloc()),
            granted: Granted {
                left,
                has_failed: false,
            },
            refusal,
        };
        let status = run_words(rt, rt.alloc(), words, &mut lines, &mut taken);
        if !taken.granted.has_failed {
            return case.compare(status, &taken.text);
        }
        if status != FAILED || !case.replies().starts_with(&taken.text) {
            return Err(refusal.fault(left));
        }
    }
    Err(refusal.fault(MANY))
}

/// A writer that takes all, and counts the writes.
#[derive(Drop)]
struct Counting {
    writes: u64,
}

impl Write for Counting {
    fn write(&mut self, buf: &[u8]) -> io::Result<usize> {
        self.writes = self.writes.saturating_add(1);
        Ok(buf.len())
    }

    fn flush(&mut self) -> io::Result<()> {
        Ok(())
    }
}

/// Whether the replies to one read are one write. A last line without its end is answered by itself.
fn write_once<R: AllocGlobal + Threads + Sync>(
    rt: &R,
    case: &Case,
    words: &[&str],
) -> Result<(), ScriptFault> {
    let mut script = case.script();
    let mut counting = Counting { writes: 0 };
    // How it ends was compared before.
    run_words(rt, rt.alloc(), words, &mut script, &mut counting);
    let is_ended = case.lines().ends_with(b"\n");
    if !is_ended || case.replies().len() > MANY_BYTES || counting.writes <= 1 {
        Ok(())
    } else {
        Err(ScriptFault::Writes(counting.writes))
    }
}

/// Runs a small script with each write failing in turn, with each taking no byte, and once with its writes counted. If
/// it is a session, each read fails in turn, too.
pub fn run_with_failures<R: AllocGlobal + Threads + Sync>(
    rt: &R,
    case: &Case,
    words: &[&str],
) -> Result<(), ScriptFault> {
    if case.is_small_session() {
        fail_reads(rt, case, words)?;
    }
    if case.is_small() {
        refuse_writes(rt, case, words, Refusal::Fails)?;
        refuse_writes(rt, case, words, Refusal::TakesNothing)?;
        write_once(rt, case, words)?;
    }
    Ok(())
}
