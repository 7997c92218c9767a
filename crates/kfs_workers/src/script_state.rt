//! The state of a script: the desk, the submissions that wait, what the workers hold, and the replies
//! so far.
ghost use Rattle.std.specs.Prelude.{◌≡◌, ◌≤◌, ◌<◌, [], IfErr, IfOk, IsTrue, ◌↔◌, None, Some, get_or, length, map, option_map, replicate, set};
ghost use Rattle.std.specs.List.{slice_get};
ghost use Rattle.kfs_plan.specs.Judging.{submission_of};
ghost use Rattle.kfs_types.specs.Room.{spare_of};
ghost use Rattle.kfs_workers.specs.Holding.{held_of};
ghost use Rattle.kfs_model.specs.Machine.{Migrate};
ghost use Rattle.kfs_desk.specs.declared.history.answers.Done.TheVariants.{Moved};
ghost use Rattle.kfs_desk.specs.Machine.{call_of, done_by};
ghost use Rattle.kfs_workers.specs.Script.{DoesCall, DoesStep, DoesJudge, DoesLand, DoesLook, all_returned, begun, returned};

use crate::script::{ScriptBack, ScriptEnd, Step};
use kfs_desk::history::answers::Reply;
use kfs_desk::{Desk, DeskView, WORKERS, none_of};
use kfs_lease::Act;
use kfs_plan::{Judged, Submission};
use kfs_types::Move;
use std::alloc::{AllocError, Allocator};
use std::marker::Model;

/// What a worker holds. The ticket is that of the submission.
#[derive(Drop)]
pub enum Holding<A: Allocator> {
    /// A submission, and the view of the desk that the worker took with it.
    Taken {
        ticket: usize,
        submission: Submission<A>,
        view: DeskView<A>,
    },
    /// The verdict on the submission.
    Decided {
        ticket: usize,
        judged: Judged<A>,
    },
}

/// The state of a script. `waiting` and `replies` go by ticket, `hands` by worker.
#[derive(Drop)]
pub struct ScriptState<A: Allocator> {
    alloc: A,
    desk: Desk<A>,
    waiting: Vec<Option<Submission<A>>, A>,
    hands: Vec<Option<Holding<A>>, A>,
    replies: Vec<Option<Reply>, A>,
}

impl<A: Allocator> Model for ScriptState<A> {
    ghost use Rattle.std.specs.Prelude.{map, option_map};
    ghost use Rattle.kfs_plan.specs.Judging.{submission_of};
    ghost use Rattle.kfs_workers.specs.Holding.{held_of};
    ghost use Rattle.kfs_workers.specs.Script.{ScriptState as SceneShown};

    ghost Value = { SceneShown };

    ghost view = { λ s. record { desk = s.desk; waiting = map (option_map submission_of) s.waiting.items; hands = map (option_map held_of) s.hands.items; replies = s.replies.items } };
}

impl<A: Allocator + Copy> ScriptState<A> {
    /// The start of a script: all submissions wait. Takes the memory for all lists; `Err` where it is
    /// refused.
    pub fn begin(
        alloc: A,
        desk: Desk<A>,
        submissions: Vec<Submission<A>, A>,
    ) -> Result<ScriptState<A>, ScriptBack<A>>
        ensures ok { IfOk result (λ state. state ≡ begun desk (map submission_of submissions.items)) }
        ensures back { IfErr result (λ back. (back.desk ≡ desk) × (back.submissions ≡ submissions)) }
    {
        let Ok(room) = Room::new(alloc, submissions.len()) else {
            return Err(ScriptBack { desk, submissions });
        };
        let Room {
            waiting,
            hands,
            replies,
        } = room;
        let waiting = all_waiting(submissions, waiting);
        Ok(ScriptState {
            alloc,
            desk,
            waiting,
            hands,
            replies,
        })
    }

    /// Makes one step.
    pub fn make(&mut self, step: &Step<'_>)
        ensures { DoesStep self.old step.now self.new }
    {
        match *step {
            Step::Look { worker, ticket } => self.look(worker, ticket),
            Step::Judge { worker } => self.judge(worker),
            Step::Land { worker } => self.land(worker),
            Step::Act(act) => self.ask(act),
            Step::Migrate { moves } => self.migrate(moves),
        }
    }

    /// The end of a script. Submissions that workers still hold are left.
    pub fn end(self) -> ScriptEnd<A>
        ensures desk { result.desk ≡ self.desk }
        ensures replies { result.replies.items ≡ self.replies }
        ensures left { map (option_map submission_of) result.left.items ≡ all_returned self.hands self.waiting }
    {
        let ScriptState {
            alloc: _,
            desk,
            waiting,
            hands,
            replies,
        } = self;
        let mut left = waiting;
        for hand in hands {
            put_back(&mut left, hand);
        }
        ScriptEnd {
            desk,
            replies,
            left,
        }
    }

    /// The worker takes the ticket's submission and a view, if it holds nothing and the submission
    /// waits.
    fn look(&mut self, worker: usize, ticket: usize)
        ensures { DoesLook self.old worker ticket (slice_get self.old.hands worker) (get_or self.old.waiting ticket None) self.new }
    {
        if !self.is_free(worker) {
            return;
        }
        let Ok(view) = DeskView::at(&self.desk) else {
            return;
        };
        if let Some(submission) = take_at(&mut self.waiting, ticket) {
            let held = Holding::Taken {
                ticket,
                submission,
                view,
            };
            put_at(&mut self.hands, worker, held);
        }
    }

    /// The worker judges the submission that it took.
    fn judge(&mut self, worker: usize)
        ensures { DoesJudge self.old worker (get_or self.old.hands worker None) self.new }
    {
        match take_at(&mut self.hands, worker) {
            Some(
                Holding::Taken {
                    ticket,
                    submission,
                    view,
                },
            ) => match view.judge(self.alloc, submission) {
                Ok(judged) => put_at(&mut self.hands, worker, Holding::Decided { ticket, judged }),
                Err(back) => put_at(&mut self.waiting, ticket, back.submission),
            },
            Some(Holding::Decided { ticket, judged }) => {
                put_at(&mut self.hands, worker, Holding::Decided { ticket, judged });
            }
            None => (),
        }
    }

    /// The worker lands its verdict.
    fn land(&mut self, worker: usize)
        ensures { DoesLand self.old worker (get_or self.old.hands worker None) self.new }
    {
        match take_at(&mut self.hands, worker) {
            Some(Holding::Decided { ticket, judged }) => match self.desk.land(judged) {
                Ok(reply) => put_at(&mut self.replies, ticket, reply),
                Err(back) => put_at(&mut self.waiting, ticket, back.submission),
            },
            Some(
                Holding::Taken {
                    ticket,
                    submission,
                    view,
                },
            ) => {
                let held = Holding::Taken {
                    ticket,
                    submission,
                    view,
                };
                put_at(&mut self.hands, worker, held);
            }
            None => (),
        }
    }

    /// Makes a call for leases. Its answer is only in the docket.
    fn ask(&mut self, act: Act<'_>)
        ensures { DoesCall self.old (call_of act.entry) (done_by act.entry) self.new }
    {
        // A step has no reply, so that nobody is told an answer.
        let _answer = self.desk.act(act);
    }

    /// Moves blocks. The answer is only in the docket.
    fn migrate(&mut self, moves: &[Move])
        ensures { DoesCall self.old (Migrate moves.now) Moved self.new }
    {
        // As in `ask`.
        let _answer = self.desk.migrate(moves);
    }

    /// Whether the number is a worker's who holds nothing.
    fn is_free(&self, worker: usize) -> bool
        ensures { IsTrue result ↔ (worker < length self.now.hands) × (get_or self.now.hands worker None ≡ None) }
    {
        worker < self.hands.len() && self.hands[worker].is_none()
    }
}

/// The lists that a script needs: for all tickets, and for eight workers who hold nothing.
#[derive(Drop)]
struct Room<A: Allocator> {
    waiting: Vec<Option<Submission<A>>, A>,
    hands: Vec<Option<Holding<A>>, A>,
    replies: Vec<Option<Reply>, A>,
}

impl<A: Allocator + Copy> Room<A> {
    fn new(alloc: A, tickets: usize) -> Result<Room<A>, AllocError>
        ensures empty { IfOk result (λ room. room.waiting.items ≡ []) }
        ensures spare { IfOk result (λ room. tickets ≤ spare_of room.waiting) }
        ensures hands { IfOk result (λ room. room.hands.items ≡ replicate 8 None) }
        ensures replies { IfOk result (λ room. room.replies.items ≡ replicate tickets None) }
    {
        Ok(Room {
            waiting: Vec::with_capacity(alloc, tickets)?,
            hands: none_of(alloc, WORKERS)?,
            replies: none_of(alloc, tickets)?,
        })
    }
}

/// Fills the list, which has room for them, with the submissions.
fn all_waiting<T: Drop, A: Allocator>(
    submissions: Vec<T, A>,
    room: Vec<Option<T>, A>,
) -> Vec<Option<T>, A>
    requires empty { room.items ≡ [] }
    requires room { length submissions.items ≤ spare_of room }
    ensures { result.items ≡ map Some submissions.items }
{
    let mut waiting = room;
    for submission in submissions {
        waiting.push_reserved(Some(submission));
    }
    waiting
}

/// Removes and answers what is at this index, if anything.
fn take_at<T: Drop, A: Allocator>(list: &mut Vec<Option<T>, A>, at: usize) -> Option<T>
    ensures taken { result ≡ get_or list.old.items at None }
    ensures left { list.new.items ≡ set list.old.items at None }
{
    match list.get_mut(at) {
        Some(place) => place.take(),
        None => None,
    }
}

/// Puts the value at this index, if the list is long enough.
fn put_at<T: Drop, A: Allocator>(list: &mut Vec<Option<T>, A>, at: usize, value: T)
    ensures { list.new.items ≡ set list.old.items at (Some value) }
{
    if let Some(place) = list.get_mut(at) {
        *place = Some(value);
    }
}

/// Puts the submission that a worker holds back under its ticket.
fn put_back<A: Allocator>(waiting: &mut Vec<Option<Submission<A>>, A>, hand: Option<Holding<A>>)
    ensures { map (option_map submission_of) waiting.new.items ≡ returned (option_map held_of hand) (map (option_map submission_of) waiting.old.items) }
{
    match hand {
        Some(
            Holding::Taken {
                ticket,
                submission,
                ..
            },
        ) => put_at(waiting, ticket, submission),
        Some(Holding::Decided { ticket, judged }) => {
            let (submission, _outcome) = judged.into_parts();
            put_at(waiting, ticket, submission);
        }
        None => (),
    }
}
