//! Look-ups answered from the desk.
ghost use Rattle.std.specs.Prelude.{◌≡◌, ◌↔◌, ℕ, [], IfOk, IfSome, IsErrOf, IsFalse, IsTrue, OnErr, OnOk};
ghost use Rattle.kfs_journal.specs.Disk.{LeavesOnly};
ghost use Rattle.kfs_journal.specs.Format.{meaning};
ghost use Rattle.kfs_kept.specs.Keeping.{IsKept};
ghost use Rattle.kfs_kept.specs.Standing.{StandFor};
ghost use Rattle.kfs_program_text.specs.Streams.{IsWritten, Writes};
ghost use Rattle.kfs_server.specs.Frames.Begun.{IsFrameOf};
ghost use Rattle.kfs_server.specs.Frames.Frame.{Frame};
ghost use Rattle.kfs_server.specs.LookUps.LookUp as asked;
ghost use Rattle.kfs_server.specs.LookUps.LookUp.{AsksLookUp};
ghost use Rattle.kfs_server.specs.LookUps.Views.{IsWithin, found_shown, look_up_shown};
ghost use Rattle.kfs_server.specs.Replies.Reply as spelled;
ghost use Rattle.kfs_server.specs.Replies.Reply.{reply_bytes};
ghost use Rattle.kfs_server.specs.Serving.Looking.{IsLookedUp, IsSought, looked_up_bytes};
ghost use Rattle.kfs_server.specs.Serving.Onward.{IsAnswered};
ghost use Rattle.kfs_server.specs.declared.serving.fault.GroupFault.TheVariants as groups;
ghost use Rattle.kfs_server.specs.declared.serving.fault.ServeFault.TheVariants as faults;

use crate::look_ups::{
    Found, LookUp, figures_now, found_bytes, found_leases, found_names, found_number, found_plan,
    found_tail, may_ask, spell_found_head, tier_now,
};
use crate::replies::{NumberedReply, Refusal, Reply, spell_reply};
use crate::serving::fault::{GroupFault, ServeFault};
use kfs_call::Incoming;
use kfs_desk::Desk;
use kfs_journal::Disk;
use kfs_kept::{Kept, SaveFault};
use kfs_program_text::{OutputFault, flush, write_whole};
use std::alloc::Allocator;
use std::io::Write;

/// Answers a frame that asks for a look-up. Condition: the desk is open.
pub fn answer_look_up<A, B, C, D, O>(
    alloc: B,
    kept: &mut Kept<A, D>,
    incoming: &Incoming<C>,
    look_up: &LookUp<'_>,
    writer: &mut O,
) -> Result<(), ServeFault>
where
    A: Allocator + Copy,
    B: Allocator + Copy,
    C: Allocator,
    D: Disk + Drop,
    O: Write,
    requires kept { IsKept D.seen D.may_leave kept.old }
    requires open { IsTrue kept.old.is_open }
    requires asks { (f : Frame) → IsFrameOf incoming.now f → AsksLookUp f (look_up_shown look_up.now) }
    ensures kept { IsKept D.seen D.may_leave kept.new }
    ensures open { OnOk result (IsTrue kept.new.is_open) }
    ensures failed { IsErrOf result (faults.Group groups.Failed) → IsTrue (D.has_failed kept.new.disk) }
    ensures served { IsAnswered D.may_leave D.moment D.left_since result (O.contents writer.old) (O.contents writer.new) kept.old kept.new incoming.now }
{
    let found = look(alloc, kept, incoming.from, look_up)?;
    say(incoming.number, &found, writer)?;
    Ok(())
}

/// Writes what was found, or why nothing was looked up. Condition: what was found has at most 65,536 bytes behind its
/// fixed part.
fn say<B: Allocator, O: Write>(
    number: u32,
    found: &Result<Found<B>, Refusal>,
    writer: &mut O,
) -> Result<(), OutputFault>
    requires { IfOk found.now IsWithin }
    ensures { Writes (O.contents writer.old) (O.contents writer.new) (IsWritten result (looked_up_bytes number found.now)) }
{
    match found {
        Ok(found) => say_found(number, found, writer),
        Err(refusal) => {
            let bytes = spell_reply(&NumberedReply {
                number,
                reply: Reply::Refused(*refusal),
            });
            write_out(bytes.as_slice(), writer)
        }
    }
}

/// Writes what was found. Condition as for `say`.
fn say_found<B: Allocator, O: Write>(
    number: u32,
    found: &Found<B>,
    writer: &mut O,
) -> Result<(), OutputFault>
    requires { IsWithin found.now }
    ensures { Writes (O.contents writer.old) (O.contents writer.new) (IsWritten result (reply_bytes number (spelled.Found (found_shown found.now)))) }
{
    let head = spell_found_head(number, found);
    write_whole(writer, head.as_slice())?;
    write_out(found_tail(found), writer)
}

/// Writes bytes, and hands them on.
fn write_out<O: Write>(bytes: &[u8], writer: &mut O) -> Result<(), OutputFault>
    ensures { Writes (O.contents writer.old) (O.contents writer.new) (IsWritten result bytes.now) }
{
    write_whole(writer, bytes)?;
    flush(writer)?;
    Ok(())
}

/// Looks up for whom it may be looked up. Condition: the desk is open. `Err` where the disk has failed.
fn look<A: Allocator + Copy, B: Allocator + Copy, D: Disk + Drop>(
    alloc: B,
    kept: &mut Kept<A, D>,
    from: u32,
    look_up: &LookUp<'_>,
) -> Result<Result<Found<B>, Refusal>, GroupFault>
    requires kept { IsKept D.seen D.may_leave kept.old }
    requires open { IsTrue kept.old.is_open }
    ensures kept { IsKept D.seen D.may_leave kept.new }
    ensures desk { kept.new.desk ≡ kept.old.desk }
    ensures open { OnOk result (IsTrue kept.new.is_open) }
    ensures failed { OnErr result (IsTrue (D.has_failed kept.new.disk)) }
    ensures found { IfOk result (IsLookedUp kept.old.desk from (look_up_shown look_up.now)) }
    ensures any_moment { LeavesOnly D.moment D.left_since kept.old.disk kept.new.disk (λ c. StandFor c kept.old.desk.state) }
{
    if let Err(why) = may_ask(alloc, look_up, from) {
        return Ok(Err(why));
    }
    match look_up {
        LookUp::Checkpoint => begin_anew(alloc, kept),
        _ => Ok(look_at(alloc, open_desk(kept), from, look_up)),
    }
}

/// Looks up at a desk. A checkpoint is none of it.
fn look_at<A: Allocator + Copy, B: Allocator + Copy>(
    alloc: B,
    desk: &Desk<A>,
    from: u32,
    look_up: &LookUp<'_>,
) -> Result<Found<B>, Refusal>
    ensures { IsSought desk.now from (look_up_shown look_up.now) result }
{
    match look_up {
        LookUp::Node { number } => Ok(Found::NodeIs(desk.header(*number))),
        LookUp::State => Ok(Found::StateIs(figures_now(desk))),
        LookUp::Checkpoint => Ok(Found::Renewed),
        LookUp::Find { directory, name } => found_number(desk, from, *directory, name),
        LookUp::Names {
            directory,
            limit,
            after,
        } => found_names(alloc, desk, from, *directory, *limit, after),
        LookUp::Read { file, start, count } => found_bytes(
            alloc, desk, from, *file, *start, *count,
        ),
        LookUp::Places => Ok(Found::PlacesAre(
            tier_now(desk, 0),
            tier_now(desk, 1),
            tier_now(desk, 2),
        )),
        LookUp::Leases { first, limit } => found_leases(alloc, desk, from, *first, *limit),
        LookUp::Plan { log } => found_plan(alloc, desk, from, log),
    }
}

/// Begins the journal anew. Where it isn't, all is as it was: memory was refused, or the state has too many rows or
/// bytes for the file.
fn begin_anew<A: Allocator + Copy, B: Allocator + Copy, D: Disk + Drop>(
    alloc: B,
    kept: &mut Kept<A, D>,
) -> Result<Result<Found<B>, Refusal>, GroupFault>
    requires kept { IsKept D.seen D.may_leave kept.old }
    requires open { IsTrue kept.old.is_open }
    ensures kept { IsKept D.seen D.may_leave kept.new }
    ensures desk { kept.new.desk ≡ kept.old.desk }
    ensures open { OnOk result (IsTrue kept.new.is_open) }
    ensures failed { OnErr result (IsTrue (D.has_failed kept.new.disk)) }
    ensures found { IfOk result (λ found. (from : ℕ) → IsSought kept.old.desk from asked.Checkpoint found) }
    // The journal has no group then.
    ensures anew { IfOk result (λ found. OnOk found (IfSome (meaning (D.seen kept.new.disk)) (λ is. is.1 ≡ []))) }
    ensures any_moment { LeavesOnly D.moment D.left_since kept.old.disk kept.new.disk (λ c. StandFor c kept.old.desk.state) }
{
    match kept.checkpoint(alloc) {
        Ok(()) => Ok(Ok(Found::Renewed)),
        Err(SaveFault::Failed) => Err(GroupFault::Failed),
        Err(_) => Ok(Err(Refusal::OutOfMemory)),
    }
}

/// The desk of now. Condition: it is open.
fn open_desk<A: Allocator + Copy, D: Disk + Drop>(kept: &Kept<A, D>) -> &Desk<A>
    requires kept { IsKept D.seen D.may_leave kept.now }
    requires open { IsTrue kept.now.is_open }
    ensures { result.now ≡ kept.now.desk }
{
    match kept.desk() {
        Some(desk) => desk,
        // The condition says that it is open.
        None => unreachable!(),
    }
}
