//! The command `plan`: the plan of a client's log, for the image now.
ghost use Rattle.std.specs.Prelude.{◌≡◌, IfErr, IsErrOf, None, OnOk};
ghost use Rattle.kfs_model.specs.Lease.{row_of};
ghost use Rattle.kfs_program.specs.Engine.Session.{IsPlanAnswered, IsReplied};
ghost use Rattle.kfs_program.specs.Engine.PlanLine.{AppendsPlan};

use crate::sessions::plan_text::plan_line;
use kfs_desk::Desk;
use kfs_mode::Client;
use kfs_program_text::Refusal;
use std::alloc::Allocator;

/// Appends the plan of a log of the client with this number, or `plan none` where there is none. For a
/// number without a client it is a bad line. The view is dropped here, so that a landing finds nothing
/// shared.
pub fn answer_plan<A: Allocator + Copy>(
    alloc: A,
    desk: &Desk<A>,
    number: u32,
    log: &[u8],
    reply: &mut Vec<u8, A>,
) -> Result<(), Refusal>
    ensures ok { OnOk result (IsReplied (IsPlanAnswered desk.now (row_of desk.now.state.clients number) log.now) reply.old.items reply.new.items desk.now) }
    ensures bad { IsErrOf result Refusal.BadLine → row_of desk.now.state.clients number ≡ None }
{
    let view = desk.view()?;
    match view.client(number) {
        Some(client) => show_plan(alloc, desk, client, log, reply),
        None => Err(Refusal::BadLine),
    }
}

/// Appends the plan of a log of this client, or `plan none`.
fn show_plan<A: Allocator + Copy>(
    alloc: A,
    desk: &Desk<A>,
    client: &Client,
    log: &[u8],
    reply: &mut Vec<u8, A>,
) -> Result<(), Refusal>
    ensures ok { OnOk result (AppendsPlan client.now desk.now.state.tree log.now reply.old.items reply.new.items) }
    ensures err { IfErr result (λ why. why ≡ Refusal.OutOfMemory) }
{
    Ok(plan_line(alloc, reply, desk.image(), client, log)?)
}
