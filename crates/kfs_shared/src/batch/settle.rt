//! Jobs made of submissions, and what is taken from them in the end.
ghost use Rattle.std.specs.Prelude.{◌≡◌, ◌^◌, ◌<◌, ◌≤◌, [], ◌∷◌, ◌++◌, length, map, vec_capacity};
ghost use Rattle.std.specs.List.{flat_map};
ghost use Rattle.kfs_shared.specs.Batch.Settled.{left_in, numbered, reply_in};

use crate::SharedBack;
use crate::batch::end::Left;
use crate::batch::job::{Hand, Job};
use kfs_desk::Reply;
use kfs_plan::Submission;
use std::alloc::Allocator;

/// A job for each submission, numbered from 0 on.
pub fn jobs_of<'g, A: Allocator + Copy, G>(
    alloc: A,
    gate: &'g G,
    submissions: Vec<Submission<A>, A>,
    room: Vec<Job<'g, A, G>, A>,
) -> Vec<Job<'g, A, G>, A>
    requires few { length submissions.items < 2 ^ 32 }
    requires room { (room.items ≡ []) × (length submissions.items ≤ vec_capacity room) }
    ensures jobs { map (λ job. (job.number, job.hand)) result.items ≡ numbered 0 submissions.items }
    ensures capacity { vec_capacity result ≡ vec_capacity room.entry }
{
    let mut jobs = room;
    let mut number = 0;
    for submission in submissions {
        let hand = Hand::Waiting(submission);
        jobs.push_reserved(Job {
            alloc,
            gate,
            number,
            hand,
        });
        number += 1;
    }
    jobs
}

/// Takes from a job its reply, or what is left of it.
fn settle_one<A: Allocator, G>(
    job: Job<'_, A, G>,
    replies: &mut Vec<Option<Reply>, A>,
    left: &mut Vec<Left<A>, A>,
)
    requires replies { length replies.old.items < vec_capacity replies.old }
    requires left { length left.old.items < vec_capacity left.old }
    ensures replies { replies.new.items ≡ replies.old.items ++ reply_in job.entry.hand ∷ [] }
    ensures left { left.new.items ≡ left.old.items ++ left_in job.entry.number job.entry.hand }
    ensures capacity { (vec_capacity replies.new ≡ vec_capacity replies.old) × (vec_capacity left.new ≡ vec_capacity left.old) }
{
    let Job { number, hand, .. } = job;
    match hand {
        Hand::Replied(reply) => replies.push_reserved(Some(reply)),
        Hand::Back(SharedBack { submission, why }) => {
            left.push_reserved(Left {
                number,
                submission,
                why,
            });
            replies.push_reserved(None);
        }
        Hand::Waiting(_) | Hand::Taken | Hand::Judged(_) => replies.push_reserved(None),
    }
}

/// The reply to each job, and what is left of those that have none.
pub fn settle<A: Allocator, G>(
    jobs: Vec<Job<'_, A, G>, A>,
    replies: &mut Vec<Option<Reply>, A>,
    left: &mut Vec<Left<A>, A>,
)
    requires replies { (replies.old.items ≡ []) × (length jobs.items ≤ vec_capacity replies.old) }
    requires left { (left.old.items ≡ []) × (length jobs.items ≤ vec_capacity left.old) }
    ensures replies { replies.new.items ≡ map (λ job. reply_in job.hand) jobs.entry.items }
    ensures left { left.new.items ≡ flat_map (λ job. left_in job.number job.hand) jobs.entry.items }
{
    for job in jobs {
        settle_one(job, replies, left);
    }
}
