//! Submissions of a group, judged in threads before its calls are made.
ghost use Rattle.std.specs.Prelude.{◌≤◌, ◌<◌};

use kfs_call::{Call, decode_call};
use kfs_desk::Desk;
use kfs_judge::View;
use kfs_plan::{Judged, Submission, judge};
use std::alloc::{AllocError, Allocator};
use std::marker::Model;
use std::mem;
use std::thread::{Threads, for_each_mut};

/// Who judges submissions before their turn: threads, and the leave to start them.
#[derive(Clone, Copy, Debug)]
pub struct Judges<'a, R> {
    pub threads: &'a R,
    /// How many threads judge at most. None is judged before its turn where there are fewer than two.
    pub count: usize,
}

/// What is known of a call before its turn.
#[derive(Drop)]
enum Known<A: Allocator> {
    Nothing,
    /// It is a submission, and is to be judged.
    Waiting(Submission<A>),
    /// The verdict on it.
    Judged(Judged<A>),
}

impl<A: Allocator + Copy> Known<A> {
    /// Judges a submission that waits. Where memory is refused, nothing is known of it.
    fn judge(&mut self, alloc: A, view: &View<A>) {
        match mem::replace(self, Known::Nothing) {
            Known::Waiting(submission) => {
                if let Ok(judged) = judge(alloc, view, submission) {
                    *self = Known::Judged(judged);
                }
            }
            known => *self = known,
        }
    }
}

/// Verdicts on calls from before their turn. Contracts see nothing of them: no answer depends on one.
#[derive(Drop)]
pub struct Early<A: Allocator> {
    known: Vec<Known<A>, A>,
}

impl<A: Allocator> Model for Early<A> {
    ghost Value = { Unit {0} };

    ghost view = { λ _. tt };
}

impl<A: Allocator> Early<A> {
    /// No verdict. Takes no memory.
    pub fn none(alloc: A) -> Early<A> {
        Early {
            known: Vec::new(alloc),
        }
    }

    /// The verdict on the call at this place, where there is one.
    pub fn verdict(&self, place: usize) -> Option<&Judged<A>> {
        match self.known.get(place)? {
            Known::Judged(judged) => Some(judged),
            Known::Nothing | Known::Waiting(_) => None,
        }
    }
}

/// What is told by `Kept::judge_early`.
pub fn judge_early<R: Threads + Sync, A: Allocator + Copy + Send + Sync>(
    judges: &Judges<'_, R>,
    desk: &Desk<A>,
    calls: &[&[u8]],
) -> Early<A> {
    let alloc = desk.allocator();
    if judges.count < 2 {
        return Early::none(alloc);
    }
    match judge_all(judges, alloc, desk, calls) {
        Ok(known) => Early { known },
        Err(AllocError) => Early::none(alloc),
    }
}

/// The same for two judges or more. `Err` where memory for the view or the list is refused.
fn judge_all<R: Threads + Sync, A: Allocator + Copy + Send + Sync>(
    judges: &Judges<'_, R>,
    alloc: A,
    desk: &Desk<A>,
    calls: &[&[u8]],
) -> Result<Vec<Known<A>, A>, AllocError>
    requires { 2 ≤ judges.now.count }
{
    let (mut known, clients) = waiting(alloc, calls)?;
    if clients < 2 {
        return Ok(Vec::new(alloc));
    }
    let view = desk.view()?;
    judge_waiting(judges.threads, judges.count, alloc, &view, &mut known);
    Ok(known)
}

/// The calls, each client's first submission to be judged; and how many these are.
fn waiting<A: Allocator + Copy>(
    alloc: A,
    calls: &[&[u8]],
) -> Result<(Vec<Known<A>, A>, usize), AllocError> {
    let mut known = Vec::with_capacity(alloc, calls.len())?;
    let mut clients = Vec::new(alloc);
    for bytes in calls {
        known.push(first_of_client(alloc, bytes, &mut clients)?)?;
    }
    Ok((known, clients.len()))
}

/// The call, to be judged where it is a submission whose client isn't among these. The client is then added.
fn first_of_client<A: Allocator + Copy>(
    alloc: A,
    bytes: &[u8],
    clients: &mut Vec<u32, A>,
) -> Result<Known<A>, AllocError> {
    match decode_call(alloc, bytes) {
        Ok(Call::Submit { client, log, plan }) if !clients.contains(&client) => {
            clients.push(client)?;
            Ok(Known::Waiting(Submission {
                client,
                log: Vec::from_slice(alloc, log)?,
                plan: Vec::from_slice(alloc, plan)?,
            }))
        }
        _ => Ok(Known::Nothing),
    }
}

/// Judges all that waits, in at most so many threads. What no thread can be had for is judged in one that has work already.
fn judge_waiting<R: Threads + Sync, A: Allocator + Copy + Send + Sync>(
    rt: &R,
    count: usize,
    alloc: A,
    view: &View<A>,
    known: &mut [Known<A>],
)
    requires { 0 < count }
{
    for_each_mut(
        rt,
        known,
        count,
        &|_place: usize, one: &mut Known<A>| { one.judge(alloc, view) },
    );
}
