//! The commands of a session.
ghost use Rattle.std.specs.Prelude.{◌≡◌, ℕ, List, true, false, IfOk, IsErrOf, None, Some, option_map, ◌≤◌};
ghost use Rattle.kfs_lease.specs.Rows.Rows.{kind_of};
ghost use Rattle.kfs_plan.specs.Judging.{submission_of};
ghost use Rattle.kfs_program_text.specs.Command.{Land as LandLine, Listing as ListingLine, Load, Node as NodeLine, Request, Setup, asked_by, client_of, drop_of, judge_of, kind_named, landing_worker, last_worker, lease_of, load_of, move_of, moves_in, new_of, plan_of, read_of, submission_in, submit_of};
ghost use Rattle.kfs_program_text.specs.CommandReading.{begin_of, command_named, docket_of, first_move, land_of, listing_of, named_by, node_of, save_of, tick_of};
ghost use Rattle.kfs_program_text.specs.Views.{act_of, asked_of, asked_of_desk, opening_of};
ghost use Rattle.kfs_program_text.specs.Decimals.{decimal_within};
ghost use Rattle.kfs_program_text.specs.Reading.{ReadsAs, ReadsExactly, checked, first_by, words_left};

use crate::worker::{LAST_WORKER, Worker};
use crate::{Refusal, Words};
use kfs_image_nodes::TierSizes;
use kfs_lease::{Act, LeaseKind};
use kfs_mode::{Client, ClientFault};
use kfs_plan::Submission;
use kfs_types::Move;
use std::alloc::Allocator;

/// The most bytes that a `read` line may ask for.
const READ_LIMIT: u64 = 65_536;

/// The greatest number of a tier in a line.
const LAST_TIER: u64 = 255;

/// A command, with its words read.
#[derive(Drop)]
pub enum Command<'a, A: Allocator> {
    /// It comes before the desk is begun.
    Opening(OpeningCommand),
    /// `image HEX`: the image that these bytes decode to. It comes before the desk is begun.
    Image(Vec<u8, A>),
    /// It is for the desk.
    Desk(DeskCommand<'a, A>),
}

/// A command that comes before the desk is begun.
#[derive(Drop)]
pub enum OpeningCommand {
    /// `new A B C`: a fresh image over tiers of these sizes.
    New(TierSizes),
    /// `client N UID GID PRIV FIRST LAST [GROUP ..]`: one more client, or why it is refused.
    Client(Result<Client, ClientFault>),
    /// `begin LIMIT`: a desk whose docket has at most this many rows.
    Begin(u32),
}

/// A command to the desk.
#[derive(Drop)]
pub enum DeskCommand<'a, A: Allocator> {
    /// `lease N PATH K END`, `drop N NUMBER` or `tick M`: a call for leases.
    Act(Act<'a>),
    /// `submit N LOG PLAN`: a log and its plan.
    Submit {
        client: u32,
        log: &'a [u8],
        plan: &'a [u8],
    },
    /// `node N`: the header of a node.
    Node(u32),
    /// `list N`: the names of a directory.
    List(u32),
    /// `read N START LEN`: bytes of a file, at most LEN of them, from START on. LEN is at most 65,536.
    Read {
        number: u32,
        start: u64,
        count: u32,
    },
    /// `docket`: how many rows the docket has.
    Docket,
    /// `judge W N LOG PLAN`: a log and its plan, to be judged; worker W holds the verdict.
    Judge {
        worker: Worker,
        submission: Submission<A>,
    },
    /// `land W`: lands the verdict that worker W holds.
    Land {
        worker: Worker,
    },
    /// `save`: the image as bytes.
    Save,
    /// `move NUMBER BLOCK TIER PLACE [NUMBER BLOCK TIER PLACE ..]`: blocks of files move to other places.
    Move(Vec<Move, A>),
    /// `plan N LOG`: the plan of a log of this client.
    Plan {
        client: u32,
        log: Vec<u8, A>,
    },
}

impl<'a, A: Allocator + Copy> Command<'a, A> {
    /// Reads a line without its end. Refused with `BadLine` where it isn't a command or has a number
    /// out of range, and with `OutOfMemory`.
    ///
    /// What a `submit` line hands in is put into `room`. A caller with many lines gives it again, so that most of them
    /// take no memory.
    pub fn read(
        alloc: A,
        room: &'a mut Vec<u8, A>,
        line: &'a [u8],
    ) -> Result<Command<'a, A>, Refusal>
        ensures ok { IfOk result (λ command. asked_by line.now ≡ Some (asked_of command)) }
        ensures bad { IsErrOf result Refusal.BadLine → asked_by line.now ≡ None }
    {
        let mut words = Words::new(line);
        let name = name_in(words.word()?);
        Command::named(alloc, room, name, &mut words)
    }

    /// The command with this name, and with the words after it.
    #[tactic(auto, using(crate::proofs::Readings::nameless))]
    fn named(
        alloc: A,
        room: &'a mut Vec<u8, A>,
        name: Option<Keyword>,
        words: &mut Words<'a>,
    ) -> Result<Command<'a, A>, Refusal>
        ensures { ReadsAs asked_of (checked (command_named name) (words_left words.old)) result }
    {
        match name.ok_or(Refusal::BadLine)? {
            Keyword::New => Ok(Command::Opening(read_new(words)?)),
            Keyword::Client => Ok(Command::Opening(read_client(words)?)),
            Keyword::Begin => Ok(Command::Opening(read_begin(words)?)),
            Keyword::Lease => Ok(Command::Desk(DeskCommand::Act(read_lease(words)?))),
            Keyword::Drop => Ok(Command::Desk(DeskCommand::Act(read_drop(words)?))),
            Keyword::Tick => Ok(Command::Desk(DeskCommand::Act(read_tick(words)?))),
            Keyword::Submit => Ok(Command::Desk(read_submit(alloc, room, words)?)),
            Keyword::Node => Ok(Command::Desk(DeskCommand::Node(read_node(words)?))),
            Keyword::List => Ok(Command::Desk(DeskCommand::List(read_list(words)?))),
            Keyword::Read => Ok(Command::Desk(read_bytes(words)?)),
            Keyword::Docket => Ok(Command::Desk(read_docket(words)?)),
            Keyword::Judge => Ok(Command::Desk(read_judge(alloc, words)?)),
            Keyword::Land => Ok(Command::Desk(read_land(words)?)),
            Keyword::Image => Ok(Command::Image(read_image(alloc, words)?)),
            Keyword::Save => Ok(Command::Desk(read_save(words)?)),
            Keyword::Move => Ok(Command::Desk(read_moves(alloc, words)?)),
            Keyword::Plan => Ok(Command::Desk(read_plan(alloc, words)?)),
        }
    }
}

/// The worker whose verdict the line asks to land, if it asks for that. Takes no memory.
pub fn worker_to_land(line: &[u8]) -> Option<Worker>
    ensures { option_map (λ worker. worker.number) result ≡ landing_worker (asked_by line.now) }
{
    let mut words = Words::new(line);
    let Ok(word) = words.word() else {
        return None;
    };
    let Some(name) = name_in(word) else {
        return None;
    };
    match name {
        Keyword::Land => only_worker(&mut words),
        _ => None,
    }
}

/// The names of the commands.
#[derive(Clone, Copy)]
enum Keyword {
    New,
    Client,
    Begin,
    Lease,
    Drop,
    Tick,
    Submit,
    Node,
    List,
    Read,
    Docket,
    Judge,
    Land,
    Image,
    Save,
    Move,
    Plan,
}

/// The command that a word names.
fn name_in(word: &[u8]) -> Option<Keyword>
    ensures { result ≡ named_by word.now }
{
    // What most lines are comes first.
    if word == b"submit".as_slice() {
        Some(Keyword::Submit)
    } else if word == b"lease".as_slice() {
        Some(Keyword::Lease)
    } else if word == b"new".as_slice() {
        Some(Keyword::New)
    } else if word == b"client".as_slice() {
        Some(Keyword::Client)
    } else if word == b"begin".as_slice() {
        Some(Keyword::Begin)
    } else if word == b"drop".as_slice() {
        Some(Keyword::Drop)
    } else if word == b"tick".as_slice() {
        Some(Keyword::Tick)
    } else if word == b"node".as_slice() {
        Some(Keyword::Node)
    } else if word == b"list".as_slice() {
        Some(Keyword::List)
    } else if word == b"read".as_slice() {
        Some(Keyword::Read)
    } else if word == b"docket".as_slice() {
        Some(Keyword::Docket)
    } else if word == b"judge".as_slice() {
        Some(Keyword::Judge)
    } else if word == b"land".as_slice() {
        Some(Keyword::Land)
    } else if word == b"image".as_slice() {
        Some(Keyword::Image)
    } else if word == b"save".as_slice() {
        Some(Keyword::Save)
    } else if word == b"move".as_slice() {
        Some(Keyword::Move)
    } else if word == b"plan".as_slice() {
        Some(Keyword::Plan)
    } else {
        None
    }
}

#[tactic(auto, using(crate::proofs::Readings::begin_steps))]
fn read_begin(words: &mut Words<'_>) -> Result<OpeningCommand, Refusal>
    ensures { ReadsAs (λ command. Setup (opening_of command)) (checked begin_of (words_left words.old)) result }
{
    Ok(OpeningCommand::Begin(words.only_number32()?))
}

#[tactic(auto, using(crate::proofs::Readings::tick_steps))]
fn read_tick<'a>(words: &mut Words<'_>) -> Result<Act<'a>, Refusal>
    ensures { ReadsAs (λ act. Request (act_of act)) (checked tick_of (words_left words.old)) result }
{
    let moment = words.only_number64()?;
    Ok(Act::Tick { moment })
}

#[tactic(auto, using(crate::proofs::Readings::new_steps))]
fn read_new(words: &mut Words<'_>) -> Result<OpeningCommand, Refusal>
    ensures { ReadsAs (λ command. Setup (opening_of command)) (checked new_of (words_left words.old)) result }
{
    let first = words.number32()?;
    let second = words.number32()?;
    let third = words.number32()?;
    words.end()?;
    let sizes = TierSizes::new(first, second, third).ok_or(Refusal::BadLine)?;
    Ok(OpeningCommand::New(sizes))
}

#[tactic(auto, using(crate::proofs::Readings::client_steps))]
fn read_client(words: &mut Words<'_>) -> Result<OpeningCommand, Refusal>
    ensures { ReadsAs (λ command. Setup (opening_of command)) (checked client_of (words_left words.old)) result }
{
    let number = words.number32()?;
    let uid = words.number32()?;
    let gid = words.number32()?;
    let privileged = words.number(1)? == 1;
    let first = words.number32()?;
    let last = words.number32()?;
    // One more than a client may have, so that too many are noticed.
    let groups = words.numbers::<17>()?;
    let client = Client::new(number, uid, gid, groups.as_slice(), privileged, first, last);
    Ok(OpeningCommand::Client(client))
}

#[tactic(auto, using(crate::proofs::Readings::lease_steps))]
fn read_lease<'a>(words: &mut Words<'a>) -> Result<Act<'a>, Refusal>
    ensures { ReadsAs (λ act. Request (act_of act)) (checked lease_of (words_left words.old)) result }
{
    let client = words.number32()?;
    let path = words.word()?;
    let kind = lease_kind(words)?;
    let end = words.number64()?;
    words.end()?;
    Ok(Act::Lease {
        client,
        path,
        kind,
        end,
    })
}

#[tactic(auto, unfolding(crate::specs::Reading::first_by))]
fn lease_kind(words: &mut Words<'_>) -> Result<LeaseKind, Refusal>
    ensures { ReadsAs (λ kind. (kind_of kind, words_left words.new)) (first_by kind_named (words_left words.old)) result }
{
    match words.word()? {
        b"r" => Ok(LeaseKind::Read),
        b"w" => Ok(LeaseKind::Write),
        _ => Err(Refusal::BadLine),
    }
}

#[tactic(auto, using(crate::proofs::Readings::drop_steps))]
fn read_drop<'a>(words: &mut Words<'_>) -> Result<Act<'a>, Refusal>
    ensures { ReadsAs (λ act. Request (act_of act)) (checked drop_of (words_left words.old)) result }
{
    let client = words.number32()?;
    let number = words.number32()?;
    words.end()?;
    Ok(Act::Drop { client, number })
}

#[tactic(auto, using(crate::proofs::Readings::node_steps))]
fn read_node(words: &mut Words<'_>) -> Result<u32, Refusal>
    ensures { ReadsAs (λ number. Request (NodeLine number)) (checked node_of (words_left words.old)) result }
{
    words.only_number32()
}

#[tactic(auto, using(crate::proofs::Readings::listing_steps))]
fn read_list(words: &mut Words<'_>) -> Result<u32, Refusal>
    ensures { ReadsAs (λ directory. Request (ListingLine directory)) (checked listing_of (words_left words.old)) result }
{
    words.only_number32()
}

#[tactic(auto, using(crate::proofs::Readings::read_steps))]
fn read_bytes<A: Allocator>(words: &mut Words<'_>) -> Result<DeskCommand<'static, A>, Refusal>
    ensures { ReadsAs (λ command. Request (asked_of_desk command)) (checked read_of (words_left words.old)) result }
{
    let number = words.number32()?;
    let start = words.number64()?;
    let count = words.number(READ_LIMIT)? as u32;
    words.end()?;
    Ok(DeskCommand::Read {
        number,
        start,
        count,
    })
}

#[tactic(auto, using(crate::proofs::Readings::docket_steps))]
fn read_docket<A: Allocator>(words: &mut Words<'_>) -> Result<DeskCommand<'static, A>, Refusal>
    ensures { ReadsAs (λ command. Request (asked_of_desk command)) (checked docket_of (words_left words.old)) result }
{
    words.end()?;
    Ok(DeskCommand::Docket)
}

#[tactic(auto, using(crate::proofs::Readings::save_steps))]
fn read_save<A: Allocator>(words: &mut Words<'_>) -> Result<DeskCommand<'static, A>, Refusal>
    ensures { ReadsAs (λ command. Request (asked_of_desk command)) (checked save_of (words_left words.old)) result }
{
    words.end()?;
    Ok(DeskCommand::Save)
}

#[tactic(auto, using(crate::proofs::Readings::load_steps))]
fn read_image<A: Allocator + Copy>(alloc: A, words: &mut Words<'_>) -> Result<Vec<u8, A>, Refusal>
    ensures { ReadsAs (λ bytes. Load bytes.items) (checked load_of (words_left words.old)) result }
{
    let bytes = words.bytes(alloc)?;
    words.end()?;
    Ok(bytes)
}

#[tactic(auto, using(crate::proofs::Readings::submit_steps))]
fn read_submit<'a, A: Allocator + Copy>(
    alloc: A,
    room: &'a mut Vec<u8, A>,
    words: &mut Words<'_>,
) -> Result<DeskCommand<'a, A>, Refusal>
    ensures { ReadsAs (λ command. Request (asked_of_desk command)) (checked submit_of (words_left words.old)) result }
{
    let client = words.number32()?;
    let (log, plan) = words.last_bytes(alloc, room)?;
    Ok(DeskCommand::Submit { client, log, plan })
}

/// A client's number, a log and a plan.
#[tactic(auto, using(crate::proofs::Readings::submission_steps))]
fn read_submission<A: Allocator + Copy>(
    alloc: A,
    words: &mut Words<'_>,
) -> Result<Submission<A>, Refusal>
    ensures { ReadsAs submission_of (checked submission_in (words_left words.old)) result }
{
    let client = words.number32()?;
    let log = words.bytes(alloc)?;
    let plan = words.bytes(alloc)?;
    words.end()?;
    Ok(Submission { client, log, plan })
}

/// A client's number and a log.
#[tactic(auto, using(crate::proofs::Readings::plan_steps))]
fn read_plan<A: Allocator + Copy>(
    alloc: A,
    words: &mut Words<'_>,
) -> Result<DeskCommand<'static, A>, Refusal>
    ensures { ReadsAs (λ command. Request (asked_of_desk command)) (checked plan_of (words_left words.old)) result }
{
    let client = words.number32()?;
    let log = words.bytes(alloc)?;
    words.end()?;
    Ok(DeskCommand::Plan { client, log })
}

/// The number of a worker.
fn read_worker(words: &mut Words<'_>) -> Result<Worker, Refusal>
    ensures { ReadsExactly (λ worker. (worker.number, words_left words.new)) (first_by (decimal_within last_worker) (words_left words.old)) result }
{
    let number = words.number(LAST_WORKER)?;
    Ok(Worker::of(number as u8))
}

#[tactic(auto, using(crate::proofs::Readings::judge_steps))]
fn read_judge<A: Allocator + Copy>(
    alloc: A,
    words: &mut Words<'_>,
) -> Result<DeskCommand<'static, A>, Refusal>
    ensures { ReadsAs (λ command. Request (asked_of_desk command)) (checked judge_of (words_left words.old)) result }
{
    let worker = read_worker(words)?;
    let submission = read_submission(alloc, words)?;
    Ok(DeskCommand::Judge { worker, submission })
}

/// The number of a worker, and no other word.
#[tactic(auto, using(crate::proofs::Readings::land_steps))]
fn only_worker(words: &mut Words<'_>) -> Option<Worker>
    ensures { checked land_of (words_left words.old) ≡ option_map (λ worker. Request (LandLine worker.number)) result }
{
    let Ok(worker) = read_worker(words) else {
        return None;
    };
    match words.end() {
        Ok(()) => Some(worker),
        Err(_) => None,
    }
}

fn read_land<A: Allocator>(words: &mut Words<'_>) -> Result<DeskCommand<'static, A>, Refusal>
    ensures { ReadsAs (λ command. Request (asked_of_desk command)) (checked land_of (words_left words.old)) result }
{
    match only_worker(words) {
        Some(worker) => Ok(DeskCommand::Land { worker }),
        None => Err(Refusal::BadLine),
    }
}

/// One move or more.
#[tactic(auto, using(crate::proofs::MovesRead::move_steps, crate::proofs::MovesRead::no_moves))]
fn read_moves<A: Allocator>(
    alloc: A,
    words: &mut Words<'_>,
) -> Result<DeskCommand<'static, A>, Refusal>
    ensures { ReadsAs (λ command. Request (asked_of_desk command)) (checked move_of (words_left words.old)) result }
{
    match words.end() {
        Ok(()) => Err(Refusal::BadLine),
        Err(_) => Ok(DeskCommand::Move(moves_left(alloc, words)?)),
    }
}

/// The moves in all words that are left.
fn moves_left<A: Allocator>(alloc: A, words: &mut Words<'_>) -> Result<Vec<Move, A>, Refusal>
    ensures { ReadsAs (λ moves. moves.items) (checked moves_in (words_left words.old)) result }
{
    let mut moves = Vec::new(alloc);
    while words.end().is_err() {
        moves.push(read_move(words)?)?;
    }
    Ok(moves)
}

/// A file's number, a block, a tier and a place.
fn read_move(words: &mut Words<'_>) -> Result<Move, Refusal>
    ensures { ReadsAs (λ m. (m, words_left words.new)) (first_move (words_left words.old)) result }
{
    let number = words.number32()?;
    let block = words.number32()?;
    let tier = words.number(LAST_TIER)? as u8;
    let place = words.number32()?;
    Ok(Move {
        number,
        block,
        tier,
        place,
    })
}
