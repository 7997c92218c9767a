//! A session: what each command does, and its reply.
ghost use Rattle.std.specs.Prelude.{◌≡◌, ◌≤◌, ◌++◌, codes, Some, IfErr, OnErr, OnOk, IsErrOf};
ghost use Rattle.kfs_model.specs.Machine as machine;
ghost use Rattle.kfs_plan.specs.Judging.{submission_with};
ghost use Rattle.kfs_desk.specs.declared.history.answers.Done.TheVariants.{Moved};
ghost use Rattle.kfs_desk.specs.Machine.{call_of, done_by};
ghost use Rattle.kfs_program_text.specs.Command as commands;
ghost use Rattle.kfs_program.specs.Engine.Session.{After, AnswersLine, IsCallAnswered, IsNodeShown, IsReplied, IsSubmissionAnswered, DeskAnswers, docket_line, fresh, left_without_memory, names_line};
ghost use Rattle.kfs_program_text.specs.Views.{asked_of_desk, opening_of};
ghost use Rattle.kfs_program.specs.Images.Saving.{save_text};
ghost use Rattle.kfs_program.specs.Engine.Views.{CommandIsDone, IsOutOfPlace, IsUndone, stage_of};
ghost use Rattle.kfs_program_text.specs.Parts.{line_of};
ghost use Rattle.kfs_types.specs.Room.{spare_of};

use crate::images::save_line;
use crate::report::{act_line, node_line, reply_line};
use crate::sessions::bytes::bytes_line;
use crate::sessions::listing::list_line;
use crate::sessions::opening::Opening;
use crate::sessions::plans::answer_plan;
use crate::sessions::verdicts::{judge_for, land_for};
use crate::verdicts::HeldVerdicts;
use kfs_desk::history::answers::{Act, Unanswered};
use kfs_desk::{Desk, Move};
use kfs_image_nodes::Kind;
use kfs_plan::Why;
use kfs_program_text::parts::{number, text};
use kfs_program_text::{Command, DeskCommand, OpeningCommand, Refusal, worker_to_land};
use std::alloc::Allocator;
use std::thread::Threads;

/// A session: first what the desk will be begun with, then the desk and the verdicts that workers hold.
#[derive(Drop)]
pub struct Session<A: Allocator> {
    alloc: A,
    stage: Stage<A>,
}

#[derive(Drop)]
enum Stage<A: Allocator> {
    Before(Opening<A>),
    After(Desk<A>, HeldVerdicts<A>),
}

impl<A: Allocator + Copy> Session<A> {
    /// A session without an image and clients.
    pub fn new(alloc: A) -> Session<A>
        ensures { stage_of result ≡ fresh }
    {
        Session {
            alloc,
            stage: Stage::Before(Opening::new(alloc)),
        }
    }

    /// Answers a line: appends its reply. Condition: the reply has room for 128 bytes. `room` is what `Command::read` takes.
    ///
    /// A refusal leaves the state as it was, with one exception: where memory runs out for a landing,
    /// the verdict may be given up already. `give_up` makes that sure.
    pub fn answer(
        &mut self,
        rt: &(impl Threads + Sync),
        line: &[u8],
        room: &mut Vec<u8, A>,
        reply: &mut Vec<u8, A>,
    ) -> Result<(), Refusal>
        requires { 128 ≤ spare_of reply.old }
        ensures ok { OnOk result (IsReplied (AnswersLine (stage_of self.old) line.now) reply.old.items reply.new.items (stage_of self.new)) }
        ensures bad { IsErrOf result Refusal.BadLine → AnswersLine (stage_of self.old) line.now (line_of (codes "bad line"), stage_of self.new) }
        ensures memory { IsErrOf result Refusal.OutOfMemory → IsUndone (commands.asked_by line.now) (stage_of self.old) (stage_of self.new) }
    {
        match Command::read(self.alloc, room, line)? {
            Command::Opening(command) => self.answer_before(command, reply),
            Command::Image(bytes) => self.load(rt, bytes.as_slice(), reply),
            Command::Desk(command) => self.answer_after(command, reply),
        }
    }

    /// Gives up the verdict that the line asks to land, if it asks for that.
    pub fn give_up(&mut self, line: &[u8])
        ensures { stage_of self.new ≡ left_without_memory (commands.landing_worker (commands.asked_by line.now)) (stage_of self.old) }
    {
        let Some(worker) = worker_to_land(line) else {
            return;
        };
        match &mut self.stage {
            Stage::Before(_) => (),
            Stage::After(_, hands) => hands.give_up(worker),
        }
    }

    /// Answers a command that comes before the desk is begun. Later it is a bad line.
    fn answer_before(
        &mut self,
        command: OpeningCommand,
        reply: &mut Vec<u8, A>,
    ) -> Result<(), Refusal>
        requires { 128 ≤ spare_of reply.old }
        ensures ok { OnOk result (CommandIsDone self.old (commands.Setup (opening_of command)) reply.old.items reply.new.items self.new) }
        ensures bad { IsErrOf result Refusal.BadLine → IsOutOfPlace self.old (commands.Setup (opening_of command)) self.new }
        ensures memory { IsErrOf result Refusal.OutOfMemory → stage_of self.new ≡ stage_of self.old }
    {
        match &mut self.stage {
            Stage::Before(opening) => {
                let hands = HeldVerdicts::new(self.alloc)?;
                if let Some(desk) = opening.answer(command, reply)? {
                    self.stage = Stage::After(desk, hands);
                }
                Ok(())
            }
            Stage::After(_, _) => Err(Refusal::BadLine),
        }
    }

    /// Takes in an image that bytes decode to. Once the desk is begun it is a bad line.
    fn load(
        &mut self,
        rt: &(impl Threads + Sync),
        bytes: &[u8],
        reply: &mut Vec<u8, A>,
    ) -> Result<(), Refusal>
        ensures ok { OnOk result (CommandIsDone self.old (commands.Load bytes.now) reply.old.items reply.new.items self.new) }
        ensures bad { IsErrOf result Refusal.BadLine → IsOutOfPlace self.old (commands.Load bytes.now) self.new }
        ensures memory { IsErrOf result Refusal.OutOfMemory → stage_of self.new ≡ stage_of self.old }
    {
        let Stage::Before(opening) = &mut self.stage else {
            return Err(Refusal::BadLine);
        };
        opening.load(rt, bytes, reply)
    }

    /// Answers a command to the desk. Before the desk is begun it is a bad line.
    fn answer_after(
        &mut self,
        command: DeskCommand<'_, A>,
        reply: &mut Vec<u8, A>,
    ) -> Result<(), Refusal>
        requires { 128 ≤ spare_of reply.old }
        ensures ok { OnOk result (CommandIsDone self.old (commands.Request (asked_of_desk command.entry)) reply.old.items reply.new.items self.new) }
        ensures bad { IsErrOf result Refusal.BadLine → IsOutOfPlace self.old (commands.Request (asked_of_desk command.entry)) self.new }
        ensures memory { IsErrOf result Refusal.OutOfMemory → IsUndone (Some (commands.Request (asked_of_desk command.entry))) (stage_of self.old) (stage_of self.new) }
    {
        match &mut self.stage {
            Stage::Before(_) => Err(Refusal::BadLine),
            Stage::After(desk, hands) => answer_due(self.alloc, desk, hands, command, reply),
        }
    }
}

/// Answers a command to the desk, once it is begun.
fn answer_due<A: Allocator + Copy>(
    alloc: A,
    desk: &mut Desk<A>,
    hands: &mut HeldVerdicts<A>,
    command: DeskCommand<'_, A>,
    reply: &mut Vec<u8, A>,
) -> Result<(), Refusal>
    requires { 128 ≤ spare_of reply.old }
    ensures ok { OnOk result (IsReplied (DeskAnswers desk.old hands.old (asked_of_desk command.entry)) reply.old.items reply.new.items (After desk.new hands.new)) }
    ensures bad { IsErrOf result Refusal.BadLine → DeskAnswers desk.old hands.old (asked_of_desk command.entry) (line_of (codes "bad line"), After desk.new hands.new) }
    ensures memory { IsErrOf result Refusal.OutOfMemory → IsUndone (Some (commands.Request (asked_of_desk command.entry))) (After desk.old hands.old) (After desk.new hands.new) }
{
    match command {
        DeskCommand::Act(act) => make_call(desk, act, reply),
        DeskCommand::Submit { client, log, plan } => hand_in(desk, client, log, plan, reply),
        DeskCommand::Node(number) => show_node(desk, number, reply),
        DeskCommand::List(number) => show_names(alloc, desk, number, reply),
        DeskCommand::Read {
            number,
            start,
            count,
        } => Ok(bytes_line(alloc, reply, desk.image(), number, start, count)?),
        DeskCommand::Docket => {
            show_docket(desk, reply);
            Ok(())
        }
        DeskCommand::Judge { worker, submission } => {
            judge_for(alloc, desk, hands, worker, submission, reply)
        }
        DeskCommand::Land { worker } => land_for(desk, hands, worker, reply),
        DeskCommand::Save => show_image(alloc, desk, reply),
        DeskCommand::Move(moves) => move_blocks(desk, moves.as_slice(), reply),
        DeskCommand::Plan { client, log } => {
            answer_plan(alloc, desk, client, log.as_slice(), reply)
        }
    }
}

/// Moves blocks of files to other places.
fn move_blocks<A: Allocator + Copy>(
    desk: &mut Desk<A>,
    moves: &[Move],
    reply: &mut Vec<u8, A>,
) -> Result<(), Refusal>
    requires { 128 ≤ spare_of reply.old }
    ensures ok { OnOk result (IsReplied (IsCallAnswered desk.old (machine.Migrate moves.now) Moved) reply.old.items reply.new.items desk.new) }
    ensures err { IfErr result (λ why. (why ≡ Refusal.OutOfMemory) × (desk.new ≡ desk.old)) }
{
    match desk.migrate(moves) {
        Ok(answer) => Ok(act_line(reply, &answer)?),
        Err(Unanswered::DocketFull) => Ok(text(reply, b"full\n")),
        Err(Unanswered::OutOfMemory) => Err(Refusal::OutOfMemory),
    }
}

/// Makes a call for leases.
fn make_call<A: Allocator + Copy>(
    desk: &mut Desk<A>,
    act: Act<'_>,
    reply: &mut Vec<u8, A>,
) -> Result<(), Refusal>
    requires { 128 ≤ spare_of reply.old }
    ensures ok { OnOk result (IsReplied (IsCallAnswered desk.old (call_of act.entry) (done_by act.entry)) reply.old.items reply.new.items desk.new) }
    ensures err { IfErr result (λ why. (why ≡ Refusal.OutOfMemory) × (desk.new ≡ desk.old)) }
{
    match desk.act(act) {
        Ok(answer) => Ok(act_line(reply, &answer)?),
        Err(Unanswered::DocketFull) => Ok(text(reply, b"full\n")),
        Err(Unanswered::OutOfMemory) => Err(Refusal::OutOfMemory),
    }
}

/// Hands in a log and its plan.
fn hand_in<A: Allocator + Copy>(
    desk: &mut Desk<A>,
    client: u32,
    log: &[u8],
    plan: &[u8],
    reply: &mut Vec<u8, A>,
) -> Result<(), Refusal>
    requires { 128 ≤ spare_of reply.old }
    ensures ok { OnOk result (IsReplied (IsSubmissionAnswered desk.old (submission_with client log.now plan.now)) reply.old.items reply.new.items desk.new) }
    ensures err { IfErr result (λ why. (why ≡ Refusal.OutOfMemory) × (desk.new ≡ desk.old)) }
{
    match desk.submit_bytes(client, log, plan) {
        Ok(answer) => Ok(reply_line(reply, &answer)?),
        Err(Why::DocketFull) => Ok(text(reply, b"full\n")),
        Err(Why::OutOfMemory) => Err(Refusal::OutOfMemory),
    }
}

/// Appends the node's line, or `none` where there is no such node.
fn show_node<A: Allocator + Copy>(
    desk: &Desk<A>,
    number: u32,
    reply: &mut Vec<u8, A>,
) -> Result<(), Refusal>
    requires { 128 ≤ spare_of reply.old }
    ensures ok { OnOk result (IsReplied (IsNodeShown desk.now number) reply.old.items reply.new.items desk.now) }
    ensures err { OnErr result ⊥ }
{
    match desk.header(number) {
        Some(header) => node_line(reply, number, &header)?,
        None => text(reply, b"none\n"),
    }
    Ok(())
}

/// Appends the number of the docket's rows.
fn show_docket<A: Allocator + Copy>(desk: &Desk<A>, reply: &mut Vec<u8, A>)
    requires { 128 ≤ spare_of reply.old }
    ensures { reply.new.items ≡ reply.old.items ++ line_of (docket_line desk.now) }
{
    text(reply, b"docket ");
    number(reply, u64::from(desk.docket().len()));
    text(reply, b"\n");
}

/// Appends the image as bytes.
#[tactic(auto, using(crate::proofs::EngineLemmas::Held::saved_line))]
fn show_image<A: Allocator + Copy>(
    alloc: A,
    desk: &Desk<A>,
    reply: &mut Vec<u8, A>,
) -> Result<(), Refusal>
    ensures ok { OnOk result (reply.new.items ≡ reply.old.items ++ line_of (save_text desk.now.state.sizes desk.now.state.tree desk.now.state.placement)) }
    ensures err { IfErr result (λ why. why ≡ Refusal.OutOfMemory) }
{
    Ok(save_line(alloc, reply, desk.image())?)
}

/// Appends the names of a directory, or `none` where there is no such directory.
fn show_names<A: Allocator + Copy>(
    alloc: A,
    desk: &Desk<A>,
    number: u32,
    reply: &mut Vec<u8, A>,
) -> Result<(), Refusal>
    requires { 128 ≤ spare_of reply.old }
    ensures ok { OnOk result (reply.new.items ≡ reply.old.items ++ line_of (names_line desk.now number)) }
    ensures err { IfErr result (λ why. why ≡ Refusal.OutOfMemory) }
{
    match desk.header(number) {
        Some(header) if header.kind == Kind::Directory => {
            list_line(alloc, reply, desk.image(), number)?;
        }
        _ => text(reply, b"none\n"),
    }
    Ok(())
}
