//! Batches of creations by client 7.

use crate::shared::files::File;
use crate::shared::setting::submission;
use kfs_desk::Desk;
use kfs_plan::Submission;
use kfs_shared::{BatchBack, BatchEnd, Gate, run_batch};
use std::alloc::Allocator;
use std::sync::Wait;
use std::thread::Threads;

/// How a batch ends.
pub type Ending<A> = Result<BatchEnd<A>, BatchBack<A>>;

/// Appends the creations of the files. Whether there was memory.
// (apart from the list's owner, so that no way out of the loop drops a list)
fn push_creates<A: Allocator + Copy>(
    submissions: &mut Vec<Submission<A>, A>,
    alloc: A,
    files: &[File],
) -> Option<()> {
    for file in files {
        let create = submission(alloc, file.log, file.plan)?;
        submissions.push(create).ok()?;
    }
    Some(())
}

/// The creations of the files.
pub fn creates<A: Allocator + Copy>(alloc: A, files: &[File]) -> Option<Vec<Submission<A>, A>> {
    let mut submissions = Vec::new(alloc);
    push_creates(&mut submissions, alloc, files)?;
    Some(submissions)
}

/// Whether these are the creations of the files.
pub fn are_creates<A: Allocator>(submissions: &[Submission<A>], files: &[File]) -> bool {
    submissions.len() == files.len()
        && submissions
            .iter()
            .zip(files)
            .all(|(submission, file)| is_create(submission, file))
}

/// Whether it is the creation of the file.
pub fn is_create<A: Allocator>(submission: &Submission<A>, file: &File) -> bool {
    submission.client == 7
        && submission.log.as_slice() == file.log
        && submission.plan.as_slice() == file.plan
}

/// A batch of at most 100 submissions.
pub fn batch<A: Allocator + Copy + Send + Sync, G: Gate + Sync, R: Threads + Wait + Sync>(
    rt: &R,
    alloc: A,
    gate: &G,
    desk: Desk<A>,
    submissions: Vec<Submission<A>, A>,
    workers: usize,
) -> Option<Ending<A>> {
    if submissions.len() > 100 {
        return None;
    }
    Some(run_batch(rt, alloc, gate, desk, submissions, workers))
}
