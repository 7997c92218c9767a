//! Bytes that go into a host's buffer: of files, of the image, of plans.
ghost use Rattle.std.specs.Prelude.{◌≡◌, ◌↔◌, ◌≤◌, ◌<◌, ◌⊎◌, None, Err, length, IfOk, IsErrOf, OnErr};
ghost use Rattle.kfs_model.specs.Lease.{row_of};
ghost use Rattle.kfs_plan_maker.specs.PlanMade.{IsPlanMade};
ghost use Rattle.kfs_c.specs.Holding.{HoldsNoDesk, OnDesk};
ghost use Rattle.kfs_c.specs.Reading.{AreLonger, BeginsWith, HasNoNode, HasNoPlanFor, IsDirectoryAt, IsPlanFor, IsPlanLonger, IsPlanned, IsRead, LacksPlan, saved_bytes};
ghost use Rattle.kfs_c.specs.Loose.Status as status;

use crate::handle::Handle;
use crate::loose::status::{DIRECTORY, DONE, NO_MEMORY, NOTHING, REFUSED, SHORT};
use crate::on_desk;
use kfs_desk::Desk;
use kfs_image::{ReadFault, encode_image, read_file};
use kfs_mode::Client;
use kfs_plan_maker::make_plan;
use std::alloc::{AllocError, Global};

/// Why no plan is made.
#[derive(Clone, Copy)]
pub(crate) enum Unplanned {
    /// Memory was refused.
    NoMemory,
    /// The desk has no such client.
    NoClient,
    /// The log has a fault.
    NoPlan,
}

/// Reads bytes of a file into the front of the buffer, from position `start` on (POSIX `pread`).
/// `count` tells how many. `NOTHING` where there is no such node, `DIRECTORY` where it is one.
#[unsafe(no_mangle)]
pub extern "C" fn kfs_read(
    alloc: Global,
    handle: &mut Handle,
    number: u32,
    start: u64,
    buffer: &mut [u8],
    count: &mut usize,
) -> u32
    ensures read { result ≡ status.done → OnDesk handle.old.value (IsRead number start buffer.old buffer.new count.new) }
    ensures nothing { (result ≡ status.nothing) ↔ OnDesk handle.old.value (HasNoNode number) }
    ensures directory { (result ≡ status.directory) ↔ OnDesk handle.old.value (IsDirectoryAt number) }
    ensures silent { 1 ≤ result → (buffer.new ≡ buffer.old) × (count.new ≡ count.old) }
    ensures kept { handle.new.value ≡ handle.old.value }
    ensures closed { (result ≡ status.closed) ↔ (handle.old.value ≡ None) }
    ensures wrong { (result ≡ status.wrong_kind) ↔ HoldsNoDesk handle.old.value }
    ensures known { result ≤ status.directory }
    ensures only { result < status.closed → (result ≡ status.done) ⊎ (result ≡ status.nothing) }
{
    on_desk!(alloc, handle, &desk => read(desk, number, start, buffer, count))
}

fn read(desk: &Desk<Global>, number: u32, start: u64, buffer: &mut [u8], count: &mut usize) -> u32
    ensures read { result ≡ status.done → IsRead number start buffer.old buffer.new count.new desk.now }
    ensures nothing { (result ≡ status.nothing) ↔ HasNoNode number desk.now }
    ensures directory { (result ≡ status.directory) ↔ IsDirectoryAt number desk.now }
    ensures silent { 1 ≤ result → (buffer.new ≡ buffer.old) × (count.new ≡ count.old) }
    ensures only { (result ≡ status.done) ⊎ (result ≡ status.nothing) ⊎ (result ≡ status.directory) }
{
    match read_node(desk, number, start, buffer) {
        Ok(many) => {
            *count = many;
            DONE
        }
        Err(ReadFault::NoSuchNode) => NOTHING,
        Err(ReadFault::IsDirectory) => DIRECTORY,
    }
}

/// Reads bytes of the desk's file.
#[tactic(auto, using(crate::proofs::Images::read, crate::proofs::Images::no_node, crate::proofs::Images::directory))]
fn read_node(
    desk: &Desk<Global>,
    number: u32,
    start: u64,
    buffer: &mut [u8],
) -> Result<usize, ReadFault>
    ensures read { IfOk result (λ count. IsRead number start buffer.old buffer.new count desk.now) }
    ensures no_node { (result ≡ Err ReadFault.NoSuchNode) ↔ HasNoNode number desk.now }
    ensures directory { (result ≡ Err ReadFault.IsDirectory) ↔ IsDirectoryAt number desk.now }
    ensures kept { OnErr result (buffer.new ≡ buffer.old) }
{
    let image = desk.image();
    // Tells the prover that the image is lawful.
    let _shape = image.shape();
    read_file(image, number, start, buffer)
}

/// Writes the image's bytes into the front of the buffer. `len` tells how many there are, also where
/// the buffer is too short for them (`SHORT`).
#[unsafe(no_mangle)]
pub extern "C" fn kfs_save(
    alloc: Global,
    handle: &mut Handle,
    buffer: &mut [u8],
    len: &mut usize,
) -> u32
    ensures saved { result ≡ status.done → OnDesk handle.old.value (λ desk. BeginsWith (saved_bytes desk) buffer.old buffer.new len.new) }
    ensures short { result ≡ status.short → OnDesk handle.old.value (λ desk. AreLonger (saved_bytes desk) buffer.old len.new) }
    ensures silent { 1 ≤ result → buffer.new ≡ buffer.old }
    ensures kept { handle.new.value ≡ handle.old.value }
    ensures closed { (result ≡ status.closed) ↔ (handle.old.value ≡ None) }
    ensures wrong { (result ≡ status.wrong_kind) ↔ HoldsNoDesk handle.old.value }
    ensures known { result ≤ status.wrong_kind }
    ensures only { result < status.closed → (result ≡ status.done) ⊎ (result ≡ status.no_memory) ⊎ (result ≡ status.short) }
{
    on_desk!(alloc, handle, &desk => save(alloc, desk, buffer, len))
}

fn save(alloc: Global, desk: &Desk<Global>, buffer: &mut [u8], len: &mut usize) -> u32
    ensures saved { result ≡ status.done → BeginsWith (saved_bytes desk.now) buffer.old buffer.new len.new }
    ensures short { result ≡ status.short → AreLonger (saved_bytes desk.now) buffer.old len.new }
    ensures silent { 1 ≤ result → buffer.new ≡ buffer.old }
    ensures only { (result ≡ status.done) ⊎ (result ≡ status.no_memory) ⊎ (result ≡ status.short) }
{
    match encode_desk(alloc, desk) {
        Ok(bytes) => hand_out(bytes.as_slice(), buffer, len),
        Err(_) => NO_MEMORY,
    }
}

/// The bytes of the desk's image.
#[tactic(auto, using(crate::proofs::Images::saved))]
fn encode_desk(alloc: Global, desk: &Desk<Global>) -> Result<Vec<u8, Global>, AllocError>
    ensures { IfOk result (λ bytes. bytes.items ≡ saved_bytes desk.now) }
{
    encode_image(alloc, desk.image())
}

/// Makes the plan of a client's log against the state now, and writes its bytes into the front of the
/// buffer. `len` is as for `kfs_save`. `NOTHING` where there is no plan, since the log has a fault;
/// `REFUSED` where the desk has no such client.
#[unsafe(no_mangle)]
pub extern "C" fn kfs_plan(
    alloc: Global,
    handle: &mut Handle,
    client: u32,
    log: &[u8],
    buffer: &mut [u8],
    len: &mut usize,
) -> u32
    ensures planned { result ≡ status.done → OnDesk handle.old.value (IsPlanned client log.now buffer.old buffer.new len.new) }
    ensures short { result ≡ status.short → OnDesk handle.old.value (IsPlanLonger client log.now buffer.old len.new) }
    ensures nothing { result ≡ status.nothing → OnDesk handle.old.value (HasNoPlanFor client log.now) }
    ensures unknown { result ≡ status.refused → OnDesk handle.old.value (λ desk. row_of desk.state.clients client ≡ None) }
    ensures silent { 1 ≤ result → buffer.new ≡ buffer.old }
    ensures kept { handle.new.value ≡ handle.old.value }
    ensures closed { (result ≡ status.closed) ↔ (handle.old.value ≡ None) }
    ensures wrong { (result ≡ status.wrong_kind) ↔ HoldsNoDesk handle.old.value }
    ensures known { result ≤ status.wrong_kind }
    ensures not_full { (result ≡ status.full) → ⊥ }
{
    on_desk!(alloc, handle, &desk => plan(alloc, desk, client, log, buffer, len))
}

fn plan(
    alloc: Global,
    desk: &Desk<Global>,
    client: u32,
    log: &[u8],
    buffer: &mut [u8],
    len: &mut usize,
) -> u32
    ensures planned { result ≡ status.done → IsPlanned client log.now buffer.old buffer.new len.new desk.now }
    ensures short { result ≡ status.short → IsPlanLonger client log.now buffer.old len.new desk.now }
    ensures nothing { result ≡ status.nothing → HasNoPlanFor client log.now desk.now }
    ensures unknown { result ≡ status.refused → row_of desk.now.state.clients client ≡ None }
    ensures silent { 1 ≤ result → buffer.new ≡ buffer.old }
    ensures range { result ≤ status.short }
    ensures not_full { (result ≡ status.full) → ⊥ }
{
    match plan_for(alloc, desk, client, log) {
        Ok(bytes) => hand_out(bytes.as_slice(), buffer, len),
        Err(Unplanned::NoMemory) => NO_MEMORY,
        Err(Unplanned::NoClient) => REFUSED,
        Err(Unplanned::NoPlan) => NOTHING,
    }
}

/// The plan of the log of the client with this number. The view is dropped here, so that a landing
/// finds nothing shared.
pub(crate) fn plan_for(
    alloc: Global,
    desk: &Desk<Global>,
    number: u32,
    log: &[u8],
) -> Result<Vec<u8, Global>, Unplanned>
    ensures made { IfOk result (λ bytes. IsPlanFor number log.now bytes.items desk.now) }
    ensures none { IsErrOf result Unplanned.NoPlan → HasNoPlanFor number log.now desk.now }
    ensures unknown { IsErrOf result Unplanned.NoClient → row_of desk.now.state.clients number ≡ None }
{
    let Ok(view) = desk.view() else {
        return Err(Unplanned::NoMemory);
    };
    match view.client(number) {
        Some(client) => plan_of_client(alloc, desk, client, log),
        None => Err(Unplanned::NoClient),
    }
}

/// The plan of the client's log.
fn plan_of_client(
    alloc: Global,
    desk: &Desk<Global>,
    client: &Client,
    log: &[u8],
) -> Result<Vec<u8, Global>, Unplanned>
    ensures made { IfOk result (λ bytes. IsPlanMade client.now desk.now.state.tree log.now bytes.items) }
    ensures none { IsErrOf result Unplanned.NoPlan → LacksPlan client.now log.now desk.now }
    ensures known { IsErrOf result Unplanned.NoClient → ⊥ }
{
    match make_plan(alloc, desk.image(), client, log) {
        Ok(Some(bytes)) => Ok(bytes),
        Ok(None) => Err(Unplanned::NoPlan),
        Err(_) => Err(Unplanned::NoMemory),
    }
}

/// Writes the bytes into the front of the buffer, if it has room for them, and tells their length.
pub(crate) fn hand_out(bytes: &[u8], buffer: &mut [u8], len: &mut usize) -> u32
    ensures handed { result ≡ status.done → BeginsWith bytes.now buffer.old buffer.new len.new }
    ensures short { result ≡ status.short → AreLonger bytes.now buffer.old len.new }
    ensures silent { 1 ≤ result → buffer.new ≡ buffer.old }
    ensures only { (result ≡ status.done) ⊎ (result ≡ status.short) }
{
    *len = bytes.len();
    if buffer.len() < bytes.len() {
        return SHORT;
    }
    buffer[..bytes.len()].copy_from_slice(bytes);
    DONE
}
