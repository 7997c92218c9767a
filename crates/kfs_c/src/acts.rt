//! Calls that are no submissions: leases, moments, moves of blocks.
ghost use Rattle.std.specs.Prelude.{◌≡◌, ◌↔◌, ◌≤◌, ◌<◌, None, map, IfOk, OnErr, IsErrOf};
ghost use Rattle.kfs_lease.specs.Rows.Rows.{kind_of};
ghost use Rattle.kfs_c.specs.Calls.{AreMoved, IsDropped, IsLeased, IsLeasedAt, IsTicked, kind_of_lease, move_of};
ghost use Rattle.kfs_c.specs.Holding.{HoldsNoDesk, OnDesk, OnDesks};
ghost use Rattle.kfs_c.specs.Loose.Status as status;
ghost use Rattle.kfs_c.specs.Submission.Submission.{IsFull};
ghost use Rattle.kfs_c.specs.Told.{act_told};

use crate::handle::Handle;
use crate::loose::status::{DONE, FULL, NO_MEMORY};
use crate::numbers::{ActNumbers, MoveRow};
use crate::on_desk;
use crate::told::act_numbers;
use kfs_desk::history::answers::{ActReply, Done, Unanswered};
use kfs_desk::{Desk, Move};
use kfs_lease::LeaseKind;
use std::alloc::{AllocError, Global};

/// Gives the client a lease on the node at the path, up to the moment `end` (`Desk::lease`). `write`
/// asks for a write lease, else it is one for reading.
#[unsafe(no_mangle)]
pub extern "C" fn kfs_lease(
    alloc: Global,
    handle: &mut Handle,
    client: u32,
    path: &[u8],
    write: bool,
    end: u64,
    reply: &mut ActNumbers,
) -> u32
    ensures answered { result ≡ status.done → OnDesks handle.old.value handle.new.value (IsLeased client path.now write end reply.new) }
    ensures unanswered { 1 ≤ result → (handle.new.value ≡ handle.old.value) × (reply.new ≡ reply.old) }
    ensures full { (result ≡ status.full) ↔ OnDesk handle.old.value IsFull }
    ensures closed { (result ≡ status.closed) ↔ (handle.old.value ≡ None) }
    ensures wrong { (result ≡ status.wrong_kind) ↔ HoldsNoDesk handle.old.value }
    ensures known { result ≤ status.wrong_kind }
    ensures range { result < status.closed → result ≤ status.full }
{
    on_desk!(alloc, handle, &mut desk => lease(desk, client, path, write, end, reply))
}

#[tactic(auto, using(crate::proofs::Acted::called, crate::proofs::Acted::uncalled, crate::proofs::Acted::full_told))]
fn lease(
    desk: &mut Desk<Global>,
    client: u32,
    path: &[u8],
    write: bool,
    end: u64,
    reply: &mut ActNumbers,
) -> u32
    ensures answered { result ≡ status.done → IsLeased client path.now write end reply.new desk.old desk.new }
    ensures unanswered { 1 ≤ result → (desk.new ≡ desk.old) × (reply.new ≡ reply.old) }
    ensures full { (result ≡ status.full) ↔ IsFull desk.old }
    ensures range { result ≤ status.full }
{
    tell(desk.lease(client, path, kind_asked(write), end), reply)
}

/// The kind of lease that is asked for.
pub(crate) fn kind_asked(write: bool) -> LeaseKind
    ensures { kind_of result ≡ kind_of_lease write }
{
    if write {
        LeaseKind::Write
    } else {
        LeaseKind::Read
    }
}

/// Gives the client a lease on the node with this number, up to the moment `end`, without a path
/// (`Desk::lease_at`). `write` asks for a write lease, else it is one for reading.
#[unsafe(no_mangle)]
pub extern "C" fn kfs_lease_at(
    alloc: Global,
    handle: &mut Handle,
    client: u32,
    number: u32,
    write: bool,
    end: u64,
    reply: &mut ActNumbers,
) -> u32
    ensures answered { result ≡ status.done → OnDesks handle.old.value handle.new.value (IsLeasedAt client number write end reply.new) }
    ensures unanswered { 1 ≤ result → (handle.new.value ≡ handle.old.value) × (reply.new ≡ reply.old) }
    ensures full { (result ≡ status.full) ↔ OnDesk handle.old.value IsFull }
    ensures closed { (result ≡ status.closed) ↔ (handle.old.value ≡ None) }
    ensures wrong { (result ≡ status.wrong_kind) ↔ HoldsNoDesk handle.old.value }
    ensures known { result ≤ status.wrong_kind }
    ensures range { result < status.closed → result ≤ status.full }
{
    on_desk!(alloc, handle, &mut desk => lease_at(desk, client, number, write, end, reply))
}

#[tactic(auto, using(crate::proofs::Acted::called, crate::proofs::Acted::uncalled, crate::proofs::Acted::full_told))]
fn lease_at(
    desk: &mut Desk<Global>,
    client: u32,
    number: u32,
    write: bool,
    end: u64,
    reply: &mut ActNumbers,
) -> u32
    ensures answered { result ≡ status.done → IsLeasedAt client number write end reply.new desk.old desk.new }
    ensures unanswered { 1 ≤ result → (desk.new ≡ desk.old) × (reply.new ≡ reply.old) }
    ensures full { (result ≡ status.full) ↔ IsFull desk.old }
    ensures range { result ≤ status.full }
{
    tell(desk.lease_at(client, number, kind_asked(write), end), reply)
}

/// Ends the client's lease on the node with this number (`Desk::drop_lease`).
#[unsafe(no_mangle)]
pub extern "C" fn kfs_drop(
    alloc: Global,
    handle: &mut Handle,
    client: u32,
    number: u32,
    reply: &mut ActNumbers,
) -> u32
    ensures answered { result ≡ status.done → OnDesks handle.old.value handle.new.value (IsDropped client number reply.new) }
    ensures unanswered { 1 ≤ result → (handle.new.value ≡ handle.old.value) × (reply.new ≡ reply.old) }
    ensures full { (result ≡ status.full) ↔ OnDesk handle.old.value IsFull }
    ensures closed { (result ≡ status.closed) ↔ (handle.old.value ≡ None) }
    ensures wrong { (result ≡ status.wrong_kind) ↔ HoldsNoDesk handle.old.value }
    ensures known { result ≤ status.wrong_kind }
    ensures range { result < status.closed → result ≤ status.full }
{
    on_desk!(alloc, handle, &mut desk => drop_lease(desk, client, number, reply))
}

#[tactic(auto, using(crate::proofs::Acted::called, crate::proofs::Acted::uncalled, crate::proofs::Acted::full_told))]
fn drop_lease(desk: &mut Desk<Global>, client: u32, number: u32, reply: &mut ActNumbers) -> u32
    ensures answered { result ≡ status.done → IsDropped client number reply.new desk.old desk.new }
    ensures unanswered { 1 ≤ result → (desk.new ≡ desk.old) × (reply.new ≡ reply.old) }
    ensures full { (result ≡ status.full) ↔ IsFull desk.old }
    ensures range { result ≤ status.full }
{
    tell(desk.drop_lease(client, number), reply)
}

/// Goes to a moment, and ends the leases that are no longer live (`Desk::tick`).
#[unsafe(no_mangle)]
pub extern "C" fn kfs_tick(
    alloc: Global,
    handle: &mut Handle,
    moment: u64,
    reply: &mut ActNumbers,
) -> u32
    ensures answered { result ≡ status.done → OnDesks handle.old.value handle.new.value (IsTicked moment reply.new) }
    ensures unanswered { 1 ≤ result → (handle.new.value ≡ handle.old.value) × (reply.new ≡ reply.old) }
    ensures full { (result ≡ status.full) ↔ OnDesk handle.old.value IsFull }
    ensures closed { (result ≡ status.closed) ↔ (handle.old.value ≡ None) }
    ensures wrong { (result ≡ status.wrong_kind) ↔ HoldsNoDesk handle.old.value }
    ensures known { result ≤ status.wrong_kind }
    ensures range { result < status.closed → result ≤ status.full }
{
    on_desk!(alloc, handle, &mut desk => tick(desk, moment, reply))
}

#[tactic(auto, using(crate::proofs::Acted::called, crate::proofs::Acted::uncalled, crate::proofs::Acted::full_told))]
fn tick(desk: &mut Desk<Global>, moment: u64, reply: &mut ActNumbers) -> u32
    ensures answered { result ≡ status.done → IsTicked moment reply.new desk.old desk.new }
    ensures unanswered { 1 ≤ result → (desk.new ≡ desk.old) × (reply.new ≡ reply.old) }
    ensures full { (result ≡ status.full) ↔ IsFull desk.old }
    ensures range { result ≤ status.full }
{
    tell(desk.tick(moment), reply)
}

/// Moves blocks of files to other places, all at once (`Desk::migrate`).
#[unsafe(no_mangle)]
pub extern "C" fn kfs_migrate(
    alloc: Global,
    handle: &mut Handle,
    moves: &[MoveRow],
    reply: &mut ActNumbers,
) -> u32
    ensures answered { result ≡ status.done → OnDesks handle.old.value handle.new.value (AreMoved moves.now reply.new) }
    ensures unanswered { 1 ≤ result → (handle.new.value ≡ handle.old.value) × (reply.new ≡ reply.old) }
    ensures full { (result ≡ status.full) ↔ OnDesk handle.old.value IsFull }
    ensures closed { (result ≡ status.closed) ↔ (handle.old.value ≡ None) }
    ensures wrong { (result ≡ status.wrong_kind) ↔ HoldsNoDesk handle.old.value }
    ensures known { result ≤ status.wrong_kind }
    ensures range { result < status.closed → result ≤ status.full }
{
    on_desk!(alloc, handle, &mut desk => migrate(alloc, desk, moves, reply))
}

#[tactic(auto, using(crate::proofs::Acted::called, crate::proofs::Acted::uncalled, crate::proofs::Acted::full_told))]
fn migrate(alloc: Global, desk: &mut Desk<Global>, moves: &[MoveRow], reply: &mut ActNumbers) -> u32
    ensures answered { result ≡ status.done → AreMoved moves.now reply.new desk.old desk.new }
    ensures unanswered { 1 ≤ result → (desk.new ≡ desk.old) × (reply.new ≡ reply.old) }
    ensures full { (result ≡ status.full) ↔ IsFull desk.old }
    ensures range { result ≤ status.full }
{
    if desk.is_full() {
        return FULL;
    }
    let Ok(moves) = moves_from(alloc, moves) else {
        return NO_MEMORY;
    };
    tell(desk.migrate(moves.as_slice()), reply)
}

/// The moves that the rows say.
fn moves_from(alloc: Global, rows: &[MoveRow]) -> Result<Vec<Move, Global>, AllocError>
    ensures { IfOk result (λ moves. moves.items ≡ map move_of rows.now) }
{
    let mut moves = Vec::new(alloc);
    for row in rows {
        moves.push(Move {
            number: row.number,
            block: row.block,
            tier: row.tier,
            place: row.place,
        })?;
    }
    Ok(moves)
}

/// Tells the answer, and whether there is one.
fn tell(answer: Result<ActReply, Unanswered>, reply: &mut ActNumbers) -> u32
    ensures told { IfOk answer (λ said. (result ≡ status.done) × (reply.new ≡ act_told said)) }
    ensures silent { OnErr answer ((1 ≤ result) × (reply.new ≡ reply.old)) }
    ensures full { (result ≡ status.full) ↔ IsErrOf answer Unanswered.DocketFull }
    ensures range { result ≤ status.full }
{
    match answer {
        Ok(answer) => {
            *reply = act_numbers(answer);
            DONE
        }
        Err(Unanswered::OutOfMemory) => NO_MEMORY,
        Err(Unanswered::DocketFull) => FULL,
    }
}
