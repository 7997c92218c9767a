//! The desk: it owns the image and the leases, and lands what was judged right.
ghost use Rattle.std.specs.Prelude.{◌≡◌, ◌↔◌, ◌⊎◌, false, ◌+◌, ◌≤◌, ◌<◌, ◌++◌, ◌∷◌, [], IfOk, IfErr, OnErr, OnOk, IsErrOf, IsFalse, IsTrue, Ok, Err, None, Some, is_some, length, option_map};
ghost use Rattle.kfs_model.specs.Order.{IsInOrder};
ghost use Rattle.kfs_model.specs.Machine as machine;
ghost use Rattle.kfs_model.specs.Machine.{opening};
ghost use Rattle.kfs_model.specs.Means.{DiffersInPlacement};
ghost use Rattle.kfs_model.specs.Table.{empty, get};
ghost use Rattle.kfs_model.specs.Tree.{headers};
ghost use Rattle.kfs_types.specs.Views.{header_of};
ghost use Rattle.kfs_desk.specs.History.Legal.{IsLegalDocket};
ghost use Rattle.kfs_mode.specs.Clients.{ClientsAreDistinct};
ghost use Rattle.kfs_lease.specs.Faults as refusals;
ghost use Rattle.kfs_lease.specs.LeaseLists.{AreLawful, HasLawfulLeases};
ghost use Rattle.kfs_lease.specs.Rows.Rows.{kind_of};
ghost use Rattle.kfs_image_nodes.specs.Contents.{sight_of};
ghost use Rattle.kfs_model.specs.Device.ShownTree.{IsLawful, shown_tree};
ghost use Rattle.kfs_image.specs.Image as images;
ghost use Rattle.kfs_judge.specs.Views.{clients_of, contents_of, leases_of};
ghost use Rattle.kfs_plan.specs.Judging.{IsVerdict, submission_of, submission_with};
ghost use Rattle.kfs_desk.specs.Again.{latest};
ghost use Rattle.kfs_desk.specs.Found.{found_in};
ghost use Rattle.kfs_desk.specs.Landing.{AnswersOutcome, CanLand, leases_left};
ghost use Rattle.kfs_desk.specs.Machine.{AreShown, IsAnswered, IsBackFor, IsCallOf, IsChangeOf, IsCurrent, IsImageOf, IsMigrated, IsViewOf, RunsThrough, SeeTheSame, call_of, done_by, number_of, opened_at, outcome_at, state_at};
ghost use Rattle.kfs_desk.specs.Docket.{is_rejudged};
ghost use Rattle.kfs_desk.specs.HandedIn.{handed_in};
ghost use Rattle.kfs_desk.specs.Opening.{begin_fault};

use crate::back::{BeginBack, ResumeBack};
use crate::docket::{HandedIn, add_act, add_answer, add_moves};
use crate::fill::LogBytes;
use crate::first_fault::first_fault;
use crate::found::Found;
use crate::history::Docket;
use crate::history::answers::{
    Act, ActFault, ActReply, BeginFault, Done, Reply, SubmissionsBack, Unanswered,
};
use crate::state_change::{ShownState, change_state};
use kfs_image::{Answer, Cell, Header, Image, Shape, look};
use kfs_judge::View;
use kfs_lease::{LeaseFault, LeaseKind, Leases};
use kfs_migrate::{Move, MoveFault, apply_moves, check_moves};
use kfs_mode::Client;
use kfs_plan::{Back, Judged, KeptOutcome, Outcome, Submission, Why, judge_bytes, kept_outcome};
use kfs_types::BorrowedName;
use std::alloc::{AllocError, Allocator};
use std::marker::Model;
use std::sync::Arc;

/// A commit server for one image. It owns the image, the clients and their leases, and a docket with a
/// row for each call that was answered, refusals included.
///
/// Its state is always in order. Replaying the docket's rows from the opening state gives the state
/// now, and a well formed image shows each state on the way.
#[derive(Drop)]
pub struct Desk<A: Allocator> {
    alloc: A,
    image: Image<A>,
    clients: Arc<Vec<Client, A>, A>,
    leases: Arc<Leases<A>, A>,
    opening: ShownState<A>,
    docket: Docket,
    limit: u32,
}

impl<A: Allocator> Model for Desk<A> {
    ghost use Rattle.kfs_desk.specs.Machine.{Desk as DeskShown, IsDesk, shown};

    ghost Value = { DeskShown };

    ghost view = { λ d. shown (record { image = d.image; clients = d.clients.value.items; leases = d.leases.value; opening = d.opening; docket = d.docket; limit = d.limit }) };

    ghost invariant = { λ d. IsDesk (record { image = d.image; clients = d.clients.value.items; leases = d.leases.value; opening = d.opening; docket = d.docket; limit = d.limit }) };
}

/// The answer to a verdict that its caller keeps.
#[doc(hidden)]
#[derive(Drop)]
pub struct Landed<A: Allocator> {
    /// The answer.
    pub reply: Reply,
    /// What was found of the submission, if it was judged again. It is for the caller to drop.
    pub again: Option<KeptOutcome<A>>,
}

impl<A: Allocator + Copy> Desk<A> {
    /// Begins a desk with an image and its clients: no lease, moment 0, and a docket that will have at
    /// most `limit` rows. Each image is lawful: a new one, and each that `kfs_fsck` let in. So what a
    /// desk promises holds for every opening image.
    ///
    /// Refused, at the least client, with `ClientTwice` or `GrantOverlap`, or with `OutOfMemory`. Image
    /// and clients come back then.
    pub fn begin(
        alloc: A,
        image: Image<A>,
        clients: Vec<Client, A>,
        limit: u32,
    ) -> Result<Desk<A>, BeginBack<A>>
        ensures ok { IfOk result (λ desk. desk ≡ opened_at (opening clients.items image.sizes (shown_tree image) image.placement) limit) }
        ensures back { IfErr result (λ back. (back.image ≡ image) × (back.clients ≡ clients)) }
        ensures fit { OnOk result (begin_fault clients.items ≡ None) }

        // The clients' fault; or memory ran out, which may be so with any clients.
        ensures why { IfErr result (λ back. (back.why ≡ BeginFault.OutOfMemory) ⊎ (begin_fault clients.items ≡ Some back.why)) }
    {
        let none = Leases::new(alloc);
        match Desk::resume(alloc, image, clients, none, limit) {
            Ok(desk) => Ok(desk),
            Err(back) => Err(BeginBack {
                image: back.image,
                clients: back.clients,
                why: back.why,
            }),
        }
    }

    /// Begins a desk that goes on where another one stood: with an image, its clients, and the leases that
    /// they hold at a moment. The docket is empty, and will have at most `limit` rows.
    ///
    /// Refused as `begin` is. Image, clients and leases come back then. Condition: each lease is of one
    /// of the clients, on a node of the image and live, and no two conflict. Such leases are what
    /// `Leases::from_rows` answers, and what a desk has.
    pub fn resume(
        alloc: A,
        image: Image<A>,
        clients: Vec<Client, A>,
        leases: Leases<A>,
        limit: u32,
    ) -> Result<Desk<A>, ResumeBack<A>>
        requires lawful { AreLawful clients.items (get image.heads) leases }
        ensures ok { IfOk result (λ desk. desk ≡ opened_at (state_at image clients.items leases) limit) }
        ensures back { IfErr result (λ back. (back.image ≡ image) × (back.clients ≡ clients) × (back.leases ≡ leases)) }
        ensures fit { OnOk result (begin_fault clients.items ≡ None) }

        // The clients' fault; or memory ran out, which may be so with any clients.
        ensures why { IfErr result (λ back. (back.why ≡ BeginFault.OutOfMemory) ⊎ (begin_fault clients.items ≡ Some back.why)) }
    {
        // Tells the prover that the image is lawful.
        let _shape = image.shape();
        match first_fault(alloc, &clients) {
            Ok(None) => (),
            Ok(Some(why)) => return Err(ResumeBack::of(image, clients, leases, why)),
            Err(_) => {
                let why = BeginFault::OutOfMemory;
                return Err(ResumeBack::of(image, clients, leases, why));
            }
        }
        // A copy goes into the `Arc`: what is in one doesn't come back.
        let Ok(shared) = shared_copy(alloc, &leases) else {
            let why = BeginFault::OutOfMemory;
            return Err(ResumeBack::of(image, clients, leases, why));
        };
        match Arc::new(alloc, clients) {
            Ok(clients) => Ok(Desk {
                alloc,
                opening: ShownState::of(&image, &clients, &shared),
                image,
                clients,
                leases: shared,
                docket: Docket::new(),
                limit,
            }),
            Err(refused) => {
                let why = BeginFault::OutOfMemory;
                Err(ResumeBack::of(image, refused.value, leases, why))
            }
        }
    }

    /// The docket, of at most `limit` rows. It leads from the opening state to the state now, and a well
    /// formed image shows each state on the way. Takes no memory.
    pub fn docket(&self) -> &Docket
        ensures shown { result.now ≡ self.now.docket }
        ensures within { length self.now.docket ≤ self.now.limit }
        ensures legal { IsLegalDocket self.now.opening self.now.docket self.now.state }
        ensures images { AreShown self.now.opening self.now.docket }
    {
        &self.docket
    }

    /// The image now. Takes no memory.
    pub fn image(&self) -> &Image<A>
        ensures shown { IsImageOf result.now self.now.state }
        ensures in_order { IsInOrder self.now.state }
    {
        &self.image
    }

    /// The clients, as they were handed in. Takes no memory.
    pub fn clients(&self) -> &[Client]
        ensures shown { result.now ≡ self.now.state.clients }
    {
        &self.clients
    }

    /// The leases and the moment now. Takes no memory.
    pub fn leases(&self) -> &Leases<A>
        ensures shown { result.now ≡ self.now.state.leases }
        ensures lawful { HasLawfulLeases self.now.state }
    {
        &self.leases
    }

    /// The header of a node now, or none where there is no such node. Takes no memory.
    pub fn header(&self, number: u32) -> Option<Header>
        ensures { option_map header_of result ≡ get (headers self.now.state.tree) number }
    {
        match look(self.image().shape(), &Cell::Header(number)) {
            Answer::Header(header) => header,
            _ => None,
        }
    }

    /// Gives the client a lease on the node at the path, up to the moment `end`. The answer, a grant or
    /// a refusal, is a row of the docket. `Err` where the docket is full or memory runs out; nothing
    /// has changed then.
    pub fn lease(
        &mut self,
        client: u32,
        path: &[u8],
        kind: LeaseKind,
        end: u64,
    ) -> Result<ActReply, Unanswered>
        ensures { IsCallOf self.old (machine.Lease client path.now (kind_of kind) end) Done.Leased result self.new }
    {
        self.act(Act::Lease {
            client,
            path,
            kind,
            end,
        })
    }

    /// Gives the client a lease on the node with this number, up to the moment `end`. No path is walked,
    /// so no search is asked; in place of it the client must have permission on the node itself
    /// (`Leases::grant_at`). Row and `Err` as for `lease`.
    pub fn lease_at(
        &mut self,
        client: u32,
        number: u32,
        kind: LeaseKind,
        end: u64,
    ) -> Result<ActReply, Unanswered>
        ensures { IsCallOf self.old (machine.LeaseAt client number (kind_of kind) end) Done.Leased result self.new }
    {
        self.act(Act::LeaseAt {
            client,
            number,
            kind,
            end,
        })
    }

    /// Ends the client's lease on the node with this number. Row and `Err` as for `lease`.
    pub fn drop_lease(&mut self, client: u32, number: u32) -> Result<ActReply, Unanswered>
        ensures { IsCallOf self.old (machine.Drop client number) Done.Dropped result self.new }
    {
        self.act(Act::Drop { client, number })
    }

    /// Goes to a moment, a number that the caller counts, and ends the leases that are no longer live.
    /// Row and `Err` as for `lease`.
    pub fn tick(&mut self, moment: u64) -> Result<ActReply, Unanswered>
        ensures { IsCallOf self.old (machine.Tick moment) Done.Ticked result self.new }
    {
        self.act(Act::Tick { moment })
    }

    /// Makes a call for leases: `lease`, `lease_at`, `drop_lease` or `tick`, given as a value.
    pub fn act(&mut self, act: Act<'_>) -> Result<ActReply, Unanswered>
        ensures { IsCallOf self.old (call_of act.entry) (done_by act.entry) result self.new }
    {
        let position = self.next_row()?;
        let before = ShownState::of(&self.image, &self.clients, &self.leases);
        let shape = self.image.shape();
        let clients = &self.clients;
        let answer = change(&mut self.leases, shape, clients, act)?;
        let after = ShownState::of(&self.image, &self.clients, &self.leases);
        add_act(&mut self.docket, &before, &act, &answer, &after);
        Ok(ActReply { position, answer })
    }

    /// Moves blocks of files to other places, all at once. Where blocks lie changes, and nothing else
    /// does. So the tree stays as it is, and a verdict from before lands as it was judged.
    ///
    /// The answer is a row of the docket: `Moved` with the number of moves, or the refusal of
    /// `check_moves` of `kfs_migrate`. `Err` as for `lease`.
    #[tactic(auto, using(crate::proofs::Calls::unmoved, crate::proofs::Calls::seen_unmoved))]
    pub fn migrate(&mut self, moves: &[Move]) -> Result<ActReply, Unanswered>
        ensures called { IsCallOf self.old (machine.Migrate moves.now) Done.Moved result self.new }
        ensures rest { DiffersInPlacement self.old.state self.new.state }
        ensures tree { self.new.state.tree ≡ self.old.state.tree }

        // Each client sees the same then. So a verdict from before lands as it was judged.
        ensures seen { SeeTheSame self.old.state self.new.state }
    {
        let position = self.next_row()?;
        let before = ShownState::of(&self.image, &self.clients, &self.leases);
        let answer = make_moves(self.alloc, &mut self.image, moves)?;
        let after = ShownState::of(&self.image, &self.clients, &self.leases);
        add_moves(&mut self.docket, &before, moves, &answer, &after);
        Ok(ActReply { position, answer })
    }

    /// Judges a submission against the state now and lands it: `view`, `judge` and `land` in one call.
    ///
    /// The tree changes only with the answer `Yes`. Every answer is a row of the docket. Where the
    /// docket is full or memory runs out, the submission comes back, and nothing has changed.
    pub fn submit(&mut self, submission: Submission<A>) -> Result<Reply, Back<A>>
        ensures full { IsBackFor result Why.DocketFull ↔ (length self.old.docket ≡ self.old.limit) }
        ensures answered { IfOk result (λ reply. IsAnswered self.old (submission_of submission) false reply self.new) }
        ensures back { IfErr result (λ back. (back.submission ≡ submission) × (self.new ≡ self.old)) }

        // The docket is legal, whatever the answer.
        ensures legal { IsLegalDocket self.new.opening self.new.docket self.new.state }
    {
        let (log, plan) = (submission.log.as_slice(), submission.plan.as_slice());
        match self.submit_bytes(submission.client, log, plan) {
            Ok(reply) => Ok(reply),
            Err(why) => Err(Back { submission, why }),
        }
    }

    /// The same for a log and a plan that the caller keeps: their bytes are read where they lie. The
    /// blocks that a landing writes have copies of theirs. `Err` where the docket is full or memory is
    /// refused; nothing has changed then.
    pub fn submit_bytes<'b>(
        &mut self,
        client: u32,
        log: &'b [u8],
        plan: &'b [u8],
    ) -> Result<Reply, Why>
        ensures full { IsErrOf result Why.DocketFull ↔ (length self.old.docket ≡ self.old.limit) }
        ensures answered { IfOk result (λ reply. IsAnswered self.old (submission_with client log.now plan.now) false reply self.new) }
        ensures err { OnErr result (self.new ≡ self.old) }

        // The docket is legal, whatever the answer.
        ensures legal { IsLegalDocket self.new.opening self.new.docket self.new.state }
    {
        if self.is_full() {
            return Err(Why::DocketFull);
        }
        let outcome = outcome(
            self.alloc,
            &self.image,
            &self.leases,
            &self.clients,
            client,
            log,
            plan,
        )?;
        let handed_in = HandedIn { client, log, plan };
        self.answer(&handed_in, false, Found::Borrowed(&outcome))
    }

    /// The same for a submission that was judged before, against whatever view. The verdict serves where it is up to
    /// date: the state now has its client, and answers each read as recorded. Else the submission is judged anew.
    ///
    /// The answer is that of `submit_bytes`, and doesn't tell which it was. So early judging is a matter of speed alone.
    /// The verdict stays the caller's.
    pub fn submit_judged(&mut self, judged: &Judged<A>) -> Result<Reply, Why>
        ensures full { IsErrOf result Why.DocketFull ↔ (length self.old.docket ≡ self.old.limit) }
        ensures answered { IfOk result (λ reply. IsAnswered self.old (submission_of judged.now.submission) false reply self.new) }
        ensures err { OnErr result (self.new ≡ self.old) }

        // The docket is legal, whatever the answer.
        ensures legal { IsLegalDocket self.new.opening self.new.docket self.new.state }
    {
        if self.is_full() {
            return Err(Why::DocketFull);
        }
        let again = found_again(self.alloc, &self.image, &self.leases, &self.clients, judged)?;
        let submitted = HandedIn::of(judged.submission());
        self.answer(&submitted, false, Found::Kept(latest(judged, &again)))
    }

    /// The allocator that the desk takes its memory from.
    pub fn allocator(&self) -> A {
        self.alloc
    }

    /// A view of the state now, to be judged against. It shares the desk's tables and copies none of
    /// them, and it doesn't change when the desk goes on. `Err` where memory runs out.
    pub fn view(&self) -> Result<View<A>, AllocError>
        ensures { IfOk result (λ view. IsViewOf view self.now.state) }
    {
        view_of(&self.image, &self.leases, &self.clients)
    }

    /// Lands a verdict, from whatever view it was made. If the client or a read that it rests on is
    /// different now, the submission is revalidated, and `rejudged` says so. Then comes the answer:
    /// `No` where a fault was found, `NoRoom` where `need` exceeds the free places of tier 0, else
    /// `Yes`.
    ///
    /// The tree changes only with `Yes`, and leases on nodes that the log removes end then. Every
    /// answer is a row of the docket. Where the docket is full or memory runs out, the submission
    /// comes back, and nothing has changed.
    pub fn land(&mut self, judged: Judged<A>) -> Result<Reply, Back<A>>
        ensures full { IsBackFor result Why.DocketFull ↔ (length self.old.docket ≡ self.old.limit) }
        ensures answered { IfOk result (λ reply. IsAnswered self.old (submission_of judged.submission) (is_rejudged reply) reply self.new) }
        ensures rejudged { IfOk result (λ reply. IsFalse (is_rejudged reply) ↔ IsCurrent self.old.state judged) }
        ensures back { IfErr result (λ back. (back.submission ≡ judged.submission) × (self.new ≡ self.old)) }

        // The docket is legal, whatever the answer.
        ensures legal { IsLegalDocket self.new.opening self.new.docket self.new.state }
    {
        match self.land_keeping(&judged) {
            Ok(landed) => Ok(landed.reply),
            Err(why) => {
                let (submission, _outcome) = judged.into_parts();
                Err(Back { submission, why })
            }
        }
    }

    /// The same for a verdict that the caller keeps. Nothing of it is given back to the allocator here. So
    /// a caller for whom others wait can let them go on first. `Err` where the docket is full or memory is
    /// refused; nothing has changed then.
    #[doc(hidden)]
    pub fn land_keeping(&mut self, judged: &Judged<A>) -> Result<Landed<A>, Why>
        ensures full { IsErrOf result Why.DocketFull ↔ (length self.old.docket ≡ self.old.limit) }
        ensures answered { IfOk result (λ landed. IsAnswered self.old (submission_of judged.now.submission) (is_rejudged landed.reply) landed.reply self.new) }
        ensures rejudged { IfOk result (λ landed. IsFalse (is_rejudged landed.reply) ↔ IsCurrent self.old.state judged.now) }
        ensures err { OnErr result (self.new ≡ self.old) }

        // The docket is legal, whatever the answer.
        ensures legal { IsLegalDocket self.new.opening self.new.docket self.new.state }
    {
        if self.is_full() {
            return Err(Why::DocketFull);
        }
        let again = found_again(self.alloc, &self.image, &self.leases, &self.clients, judged)?;
        let rejudged = again.is_some();
        let handed_in = HandedIn::of(judged.submission());
        let found = Found::Kept(latest(judged, &again));
        let reply = self.answer(&handed_in, rejudged, found)?;
        Ok(Landed { reply, again })
    }

    /// Answers what was found of a log and a plan in the state now: lands the log where it is a Yes with room, and adds
    /// the row. The answer says that it was judged again where `rejudged` does. Condition: the docket has room.
    fn answer(
        &mut self,
        submitted: &HandedIn<'_>,
        rejudged: bool,
        found: Found<'_, '_, A>,
    ) -> Result<Reply, Why>
        requires room { length self.old.docket < self.old.limit }
        requires verdict { IsVerdict self.old.state (handed_in submitted.now) (found_in found) }
        ensures answered { IfOk result (λ reply. IsAnswered self.old (handed_in submitted.now) rejudged reply self.new) }
        ensures memory { IfErr result (λ why. why ≡ Why.OutOfMemory) }
        ensures err { OnErr result (self.new ≡ self.old) }
        ensures legal { IsLegalDocket self.new.opening self.new.docket self.new.state }
    {
        // Tells the prover that the image is lawful.
        let _shape = self.image.shape();
        let position = self.docket.len();
        let before = ShownState::of(&self.image, &self.clients, &self.leases);
        let reply = land(
            self.alloc,
            &mut self.image,
            &mut self.leases,
            position,
            rejudged,
            submitted.log,
            found,
        )?;
        let after = ShownState::of(&self.image, &self.clients, &self.leases);
        add_answer(&mut self.docket, &before, submitted, &reply, &after);
        Ok(reply)
    }

    /// Hands in submissions one after another, and answers each in its place: with a reply, or with the
    /// submission that comes back. Where there is no memory for the list of answers, all submissions
    /// come back, and nothing has changed.
    pub fn submit_all(
        &mut self,
        submissions: Vec<Submission<A>, A>,
    ) -> Result<Vec<Result<Reply, Back<A>>, A>, SubmissionsBack<A>>
        ensures answers { IfOk result (λ answers. RunsThrough self.old submissions.items answers.items self.new) }
        ensures back { IfErr result (λ back. (back.submissions ≡ submissions) × (self.new ≡ self.old)) }
        ensures opening { self.new.opening ≡ self.old.opening }
        ensures limit { self.new.limit ≡ self.old.limit }

        // The docket is legal, whatever the answers.
        ensures legal { IsLegalDocket self.new.opening self.new.docket self.new.state }
    {
        let Ok(mut answers) = Vec::with_capacity(self.alloc, submissions.len()) else {
            return Err(SubmissionsBack { submissions });
        };
        for submission in submissions {
            let answer = self.submit(submission);
            answers.push_reserved(answer);
        }
        Ok(answers)
    }

    /// The position of the docket's next row, if there is one.
    fn next_row(&self) -> Result<u32, Unanswered>
        ensures full { IsErrOf result Unanswered.DocketFull ↔ (length self.now.docket ≡ self.now.limit) }
        ensures row { IfOk result (λ row. (row ≡ length self.now.docket) × row < self.now.limit) }
        ensures only { IfErr result (λ why. why ≡ Unanswered.DocketFull) }
    {
        if self.is_full() {
            return Err(Unanswered::DocketFull);
        }
        Ok(self.docket.len())
    }

    /// Whether the docket has as many rows as its limit allows. No call is answered then. Takes no memory.
    pub fn is_full(&self) -> bool
        ensures full { IsTrue result ↔ (length self.now.docket ≡ self.now.limit) }
        ensures room { IsFalse result → length self.now.docket < self.now.limit }
    {
        self.docket.len() == self.limit
    }
}

/// A copy of the leases, which shares their rows, to be shared with views.
fn shared_copy<A: Allocator + Copy>(
    alloc: A,
    leases: &Leases<A>,
) -> Result<Arc<Leases<A>, A>, AllocError>
    ensures { IfOk result (λ shared. shared.value ≡ leases.now) }
{
    match Arc::new(alloc, leases.copy()?) {
        Ok(shared) => Ok(shared),
        Err(_) => Err(AllocError),
    }
}

/// What is found of a log and a plan in the state now. The view is dropped here, so that landing finds
/// nothing shared.
fn outcome<'b, A: Allocator + Copy>(
    alloc: A,
    image: &Image<A>,
    leases: &Arc<Leases<A>, A>,
    clients: &Arc<Vec<Client, A>, A>,
    client: u32,
    log: &'b [u8],
    plan: &'b [u8],
) -> Result<Outcome<A, BorrowedName<'b>>, Why>
    requires distinct { ClientsAreDistinct clients.now.value.items }
    ensures verdict { IfOk result (λ outcome. IsVerdict (state_at image.now clients.now.value.items leases.now.value) (submission_with client log.now plan.now) outcome) }
    ensures memory { IfErr result (λ why. why ≡ Why.OutOfMemory) }
    ensures lawful { IsLawful image.now }
{
    let view = view_of(image, leases, clients)?;
    judge_bytes(alloc, &view, client, log, plan)
}

/// What is found of the verdict's submission in the state now, if the verdict doesn't hold there. The
/// view is dropped here, so that landing finds nothing shared.
fn found_again<A: Allocator + Copy>(
    alloc: A,
    image: &Image<A>,
    leases: &Arc<Leases<A>, A>,
    clients: &Arc<Vec<Client, A>, A>,
    judged: &Judged<A>,
) -> Result<Option<KeptOutcome<A>>, Why>
    requires distinct { ClientsAreDistinct clients.now.value.items }
    ensures verdict { IfOk result (λ again. IsVerdict (state_at image.now clients.now.value.items leases.now.value) (submission_of judged.now.submission) (latest judged.now.outcome again)) }
    ensures again { IfOk result (λ again. IsFalse (is_some again) ↔ IsCurrent (state_at image.now clients.now.value.items leases.now.value) judged.now) }
    ensures memory { IfErr result (λ why. why ≡ Why.OutOfMemory) }
    ensures lawful { IsLawful image.now }
{
    let view = view_of(image, leases, clients)?;
    if judged.holds_in(&view) {
        return Ok(None);
    }
    let submission = judged.submission();
    let outcome = outcome(
        alloc,
        image,
        leases,
        clients,
        submission.client,
        submission.log.as_slice(),
        submission.plan.as_slice(),
    )?;
    let kept = kept_outcome(alloc, outcome)?;
    Ok(Some(kept))
}

/// The outcome that was found again, or else that of the verdict.
fn latest<'a, A: Allocator>(
    judged: &'a Judged<A>,
    again: &'a Option<KeptOutcome<A>>,
) -> &'a KeptOutcome<A>
    ensures { result.now ≡ latest judged.now.outcome again.now }
{
    match again {
        Some(outcome) => outcome,
        None => judged.outcome(),
    }
}

/// A view of these.
fn view_of<A: Allocator + Copy>(
    image: &Image<A>,
    leases: &Arc<Leases<A>, A>,
    clients: &Arc<Vec<Client, A>, A>,
) -> Result<View<A>, AllocError>
    requires distinct { ClientsAreDistinct clients.now.value.items }
    ensures contents { IfOk result (λ view. contents_of view ≡ images.contents_of image.now) }
    ensures leases { IfOk result (λ view. leases_of view ≡ leases.now.value) }
    ensures clients { IfOk result (λ view. clients_of view ≡ clients.now.value.items) }
    ensures lawful { IsLawful image.now }
{
    let shape = image.shape().clone()?;
    Ok(View::of(shape, leases.clone()?, clients.clone()?))
}

/// Makes the call's change of the leases. Where a view shares them, a copy is made first, which shares
/// their rows.
fn change<A: Allocator + Copy>(
    leases: &mut Arc<Leases<A>, A>,
    shape: &Shape<A>,
    clients: &[Client],
    act: Act<'_>,
) -> Result<Result<Done, ActFault>, Unanswered>
    requires distinct { ClientsAreDistinct clients.now }
    ensures ok { IfOk result (λ answer. IsChangeOf leases.old.value (sight_of shape.now) clients.now act.entry answer leases.new.value) }
    ensures err { OnErr result (leases.new.value ≡ leases.old.value) }
    ensures not_full { IfErr result (λ why. why ≡ Unanswered.OutOfMemory) }
{
    let leases = Arc::make_mut(leases)?;
    match made(leases, shape, clients, act) {
        Ok(done) => Ok(Ok(done)),
        Err(LeaseFault::OutOfMemory) => Err(Unanswered::OutOfMemory),
        Err(fault) => Ok(Err(ActFault::Lease(fault))),
    }
}

/// Makes the call's change of the leases.
fn made<A: Allocator + Copy>(
    leases: &mut Leases<A>,
    shape: &Shape<A>,
    clients: &[Client],
    act: Act<'_>,
) -> Result<Done, LeaseFault>
    requires distinct { ClientsAreDistinct clients.now }
    ensures ok { IfOk result (λ done. outcome_at leases.old (sight_of shape.now) clients.now act.entry ≡ (Ok (number_of done), leases.new)) }
    ensures words { IfOk result (λ done. done ≡ done_by act.entry (number_of done)) }
    ensures err { IfErr result (λ fault. refusals.Refuses (outcome_at leases.old (sight_of shape.now) clients.now act.entry) fault leases.new) }
    ensures unchanged { IsErrOf result LeaseFault.OutOfMemory → leases.new ≡ leases.old }
{
    match act {
        Act::Lease {
            client,
            path,
            kind,
            end,
        } => {
            let number = leases.grant(shape, clients, client, path, kind, end)?;
            Ok(Done::Leased(number))
        }
        Act::LeaseAt {
            client,
            number,
            kind,
            end,
        } => {
            let leased = leases.grant_at(shape, clients, client, number, kind, end)?;
            Ok(Done::Leased(leased))
        }
        Act::Drop { client, number } => {
            leases.drop_lease(clients, client, number)?;
            Ok(Done::Dropped(number))
        }
        Act::Tick { moment } => {
            leases.tick(moment)?;
            Ok(Done::Ticked(moment))
        }
    }
}

/// Makes the moves, or answers why they are refused.
#[tactic(auto, using(crate::proofs::Calls::few_moves, crate::proofs::Calls::moves_refused))]
fn make_moves<A: Allocator + Copy>(
    alloc: A,
    image: &mut Image<A>,
    moves: &[Move],
) -> Result<Result<Done, ActFault>, Unanswered>
    ensures ok { IfOk result (λ answer. IsMigrated image.old moves.now answer image.new) }
    ensures err { OnErr result (image.new ≡ image.old) }
    ensures not_full { IfErr result (λ why. why ≡ Unanswered.OutOfMemory) }
{
    match check_moves(alloc, image, moves) {
        Ok(()) => {
            apply_moves(alloc, image, moves)?;
            Ok(Ok(Done::Moved(moves.len() as u32)))
        }
        Err(MoveFault::OutOfMemory) => Err(Unanswered::OutOfMemory),
        Err(fault) => Ok(Err(ActFault::Move(fault))),
    }
}

/// Answers what was found of a log with these bytes, and lands it where it is a Yes with room. Leases
/// on nodes that go end.
fn land<A: Allocator + Copy>(
    alloc: A,
    image: &mut Image<A>,
    leases: &mut Arc<Leases<A>, A>,
    position: u32,
    rejudged: bool,
    source: &[u8],
    found: Found<'_, '_, A>,
) -> Result<Reply, Why>
    requires { CanLand image.old source.now (found_in found) }
    ensures answer { IfOk result (λ reply. AnswersOutcome image.old source.now position rejudged (found_in found.entry) reply image.new) }
    ensures leases { IfOk result (λ reply. leases.new.value ≡ leases_left leases.old.value (found_in found.entry) reply) }
    ensures memory { IfErr result (λ why. why ≡ Why.OutOfMemory) }
    ensures err { OnErr result ((image.new ≡ image.old) × (leases.new.value ≡ leases.old.value)) }
{
    let parts = match found.parts() {
        Ok(parts) => parts,
        Err(fault) => {
            return Ok(Reply::No {
                position,
                rejudged,
                fault,
            });
        }
    };
    let need = parts.need;
    let free = image.free(0);
    if u64::from(free) < need {
        return Ok(Reply::NoRoom {
            position,
            rejudged,
            need,
            free,
        });
    }
    let bytes = LogBytes {
        source,
        entries: parts.entries,
        pieces: parts.pieces,
    };
    change_state(alloc, image, leases, &bytes, &parts.net)?;
    Ok(Reply::Yes {
        position,
        rejudged,
        need,
    })
}
