//! Scripts in little memory: with each allocation failing in turn, and with few bytes.

use crate::runs::{DONE, Outcome, run};
use crate::scripts::{Case, ScriptFault};
use kfs_test_support::refusing::Refusing;
use std::alloc::{AllocError, Global};
use std::thread::Threads;

/// More allocations than any script asks for.
const AMPLE: u64 = 1 << 40;

/// The most allocations of a script that are refused in turn.
const MANY: u64 = 1 << 20;

/// The reply to a line for which memory runs out.
const REFUSED: &[u8] = b"memory";

/// The exit status where the engine ends because memory runs out.
const ENDED: u8 = 4;

/// The line with this index, without its end.
fn line_at(text: &[u8], index: usize) -> Option<&[u8]> {
    let mut lines = text.split(|byte| *byte == b'\n');
    lines.nth(index)
}

/// The index of the line that was answered that memory ran out.
fn refused_line(written: &[u8]) -> Option<usize> {
    let mut lines = written.split(|byte| *byte == b'\n');
    lines.position(|line| line == REFUSED)
}

/// The index of the line that made the verdict which the line with this index lands, if it lands one.
fn verdict_line(lines: &[u8], written: &[u8], index: usize) -> Option<usize> {
    let landing = line_at(lines, index)?;
    let worker = landing.strip_prefix(b"land ")?;
    let mut judged = None;
    for at in 0..index {
        if line_at(lines, at) == Some(landing) {
            judged = None;
        } else if line_at(written, at)?.strip_prefix(b"judged ") == Some(worker) {
            judged = Some(at);
        }
    }
    judged
}

/// The text without the line with this index.
fn without_line(alloc: Global, text: &[u8], index: usize) -> Result<Vec<u8>, AllocError> {
    let mut left = Vec::new(alloc);
    let lines = text.split_inclusive(|byte| *byte == b'\n');
    for (at, line) in lines.enumerate() {
        if at != index {
            left.extend_from_slice(line)?;
        }
    }
    Ok(left)
}

/// The text with this line, with its end, before the line with this index.
fn with_line(alloc: Global, text: &[u8], index: usize, line: &[u8]) -> Result<Vec<u8>, AllocError> {
    let mut all = Vec::new(alloc);
    let lines = text.split_inclusive(|byte| *byte == b'\n');
    for (at, here) in lines.enumerate() {
        if at == index {
            all.extend_from_slice(line)?;
            all.push(b'\n')?;
        }
        all.extend_from_slice(here)?;
    }
    Ok(all)
}

/// Lines with their replies.
#[derive(Drop)]
struct Transcript {
    lines: Vec<u8>,
    replies: Vec<u8>,
}

impl Transcript {
    /// The lines and replies without those of this index.
    fn without(
        alloc: Global,
        lines: &[u8],
        replies: &[u8],
        index: usize,
    ) -> Result<Transcript, AllocError> {
        Ok(Transcript {
            lines: without_line(alloc, lines, index)?,
            replies: without_line(alloc, replies, index)?,
        })
    }

    /// Whether these are the replies that are given with enough memory.
    fn is_due<R: AllocGlobal + Threads + Sync>(&self, rt: &R, words: &[&str]) -> bool {
        let due = run(rt, rt.alloc(), words, &self.lines);
        due.status == DONE && due.written.as_slice() == self.replies.as_slice()
    }
}

/// Whether the other lines are answered as if the line with this index, for which memory ran out,
/// weren't there. If it lands a verdict, they are answered as if that verdict had never been made.
fn is_due_without<R: AllocGlobal + Threads + Sync>(
    rt: &R,
    lines: &[u8],
    words: &[&str],
    written: &[u8],
    index: usize,
) -> Result<bool, AllocError> {
    let mut left = Transcript::without(rt.alloc(), lines, written, index)?;
    if let Some(judged) = verdict_line(lines, written, index) {
        left = Transcript::without(rt.alloc(), &left.lines, &left.replies, judged)?;
    }
    Ok(left.is_due(rt, words))
}

/// Whether a run in which an allocation failed ended rightly: as with memory; or early, with the first
/// replies; or with one line for which memory ran out.
fn is_due<R: AllocGlobal + Threads + Sync>(
    rt: &R,
    case: &Case,
    words: &[&str],
    given: &Outcome,
) -> Result<bool, AllocError> {
    if given.status == ENDED {
        return Ok(case.replies().starts_with(&given.written));
    }
    match refused_line(&given.written) {
        Some(index) if given.status == DONE => {
            is_due_without(rt, case.lines(), words, &given.written, index)
        }
        _ => Ok(case.compare(given.status, &given.written).is_ok()),
    }
}

/// The number of this growth where the line with this index has its end. The last line of a script may have
/// none: it is kept till the input ends, which takes one growth more than a line that is read where it lies.
fn growth_of_ended(lines: &[u8], index: usize, growth: u64) -> u64 {
    let mut ended = lines.split_inclusive(|byte| *byte == b'\n');
    match ended.nth(index) {
        Some(line) if !line.ends_with(b"\n") => growth.saturating_sub(1),
        _ => growth,
    }
}

/// Whether the line for which memory ran out has its reply when it comes again. That of a verdict
/// can't come again: the verdict is given up.
fn is_due_again<R: AllocGlobal + Threads + Sync>(
    rt: &R,
    case: &Case,
    words: &[&str],
    given: &Outcome,
    growth: u64,
) -> Result<(), ScriptFault> {
    let Some(index) = refused_line(&given.written) else {
        return Ok(());
    };
    if verdict_line(case.lines(), &given.written, index).is_some() {
        return Ok(());
    }
    let line = line_at(case.lines(), index).ok_or(ScriptFault::Again(index))?;
    let lines = with_line(rt.alloc(), case.lines(), index, line)?;
    let replies = with_line(rt.alloc(), case.replies(), index, REFUSED)?;
    let heap = Refusing::new(rt.alloc(), growth_of_ended(case.lines(), index, growth));
    let again = run(rt, &heap, words, &lines);
    if again.status == DONE && again.written == replies {
        Ok(())
    } else {
        Err(ScriptFault::Again(index))
    }
}

/// Refuses each allocation of the script in turn, and answers how many there are.
fn growths<R: AllocGlobal + Threads + Sync>(
    rt: &R,
    case: &Case,
    words: &[&str],
) -> Result<u64, ScriptFault> {
    for growth in 0..MANY {
        let heap = Refusing::new(rt.alloc(), growth);
        let given = run(rt, &heap, words, case.lines());
        if !is_due(rt, case, words, &given)? {
            return Err(ScriptFault::Growth(growth));
        }
        is_due_again(rt, case, words, &given, growth)?;
        if !heap.has_refused() {
            return Ok(growth);
        }
    }
    Err(ScriptFault::Growth(MANY))
}

/// Runs the script with at most this many bytes held at one time.
fn run_within<R: AllocGlobal + Threads + Sync>(
    rt: &R,
    case: &Case,
    words: &[&str],
    bytes: u64,
) -> Outcome {
    let heap = Refusing::new(rt.alloc(), AMPLE);
    heap.leave(bytes);
    run(rt, &heap, words, case.lines())
}

/// Runs the script with this many bytes, and with none, where it must end early.
fn run_in_room<R: AllocGlobal + Threads + Sync>(
    rt: &R,
    case: &Case,
    words: &[&str],
    bytes: u64,
) -> Result<(), ScriptFault> {
    let given = run_within(rt, case, words, bytes);
    let none = run_within(rt, case, words, 0);
    let is_due = case.compare(given.status, &given.written).is_ok();
    if is_due && none.status == ENDED && none.written.is_empty() {
        Ok(())
    } else {
        Err(ScriptFault::Room(bytes))
    }
}

/// Runs the script in little memory, if its files ask for that.
pub fn run_in_little_memory<R: AllocGlobal + Threads + Sync>(
    rt: &R,
    case: &Case,
    words: &[&str],
) -> Result<(), ScriptFault> {
    if let Some(bytes) = case.room() {
        run_in_room(rt, case, words, bytes)?;
    }
    let Some(least) = case.growths() else {
        return Ok(());
    };
    let made = growths(rt, case, words)?;
    if made < least {
        return Err(ScriptFault::FewGrowths { made, least });
    }
    Ok(())
}
