//! A desk that goes on with an image, clients and leases that a host gives.
ghost use Rattle.std.specs.Prelude.{◌≡◌, ◌≤◌, ◌⊎◌, All, IfErr, IfOk, None, Some, map};
ghost use Rattle.kfs_lease.specs.LeaseLists.{AreLawful, fault_of_rows, listed_leases};
ghost use Rattle.kfs_lease.specs.ShownLists.{row_shown, rows_shown};
ghost use Rattle.kfs_desk.specs.Opening.{begin_fault};
ghost use Rattle.kfs_model.specs.Table.{get};
ghost use Rattle.kfs_c.specs.Holding.{OnDesk};
ghost use Rattle.kfs_c.specs.Loose.Status as status;
ghost use Rattle.kfs_c.specs.Opening.{AreClientsRefused, IsRefusedAs, IsRowRight, client_of};
ghost use Rattle.kfs_c.specs.Resuming.{AreHoldersRefused, AreLeasesRefused, AreLeasesRight, IsResumed, IsResumedOn, IsResumedWith, IsUnresumed, IsUnresumedWith, lease_of};

use crate::acts::kind_asked;
use crate::handle::Handle;
use crate::held::Held;
use crate::loose::status::DONE;
use crate::numbers::{ClientRow, LeaseNumbers};
use crate::opening::{Unopened, boxed, clients_from, load, tell, unbegun};
use crate::slot::put_in;
use crate::states::unleased;
use crate::submission::FaultNumbers;
use kfs_desk::Desk;
use kfs_image::{Image, Shape};
use kfs_lease::{LeaseRow, Leases};
use kfs_mode::Client;
use std::alloc::{AllocError, Global};

/// Has the handle hold a desk that goes on with the image that the bytes decode to, these clients, and
/// the leases that they hold at this moment, ascending by node and then by client. What it held is freed
/// then; where no desk is resumed, it is kept. The docket is empty, and will have at most `limit` rows.
///
/// `REFUSED` with the first of these: a fault of code `OPEN_IMAGE` for bytes that are no image,
/// `OPEN_RULE` for one that breaks a rule, `OPEN_CLIENT` for a client that can't be, `OPEN_LEASE` for a
/// lease that can't be, `OPEN_CLIENTS` for clients that can't be together.
#[unsafe(no_mangle)]
pub extern "C" fn kfs_resume(
    alloc: Global,
    handle: &mut Handle,
    bytes: &[u8],
    clients: &[ClientRow],
    groups: &[u32],
    leases: &[LeaseNumbers],
    moment: u64,
    limit: u32,
    fault: &mut FaultNumbers,
) -> u32
    ensures resumed { result ≡ status.done → OnDesk handle.new.value (IsResumedWith bytes.now groups.now clients.now leases.now moment limit) }
    // No row of a client is wrong then. Where one is, the first of them is told.
    ensures rows { result ≡ status.done → All (IsRowRight groups.now) clients.now }
    // Nor is a client wrong beside an earlier one.
    ensures together { result ≡ status.done → begin_fault (map (client_of groups.now) clients.now) ≡ None }
    ensures refused { result ≡ status.refused → IsUnresumed bytes.now groups.now clients.now leases.now moment fault.new }
    ensures unopened { 1 ≤ result → handle.new.value ≡ handle.old.value }
    ensures silent { result ≤ status.no_memory → fault.new ≡ fault.old }
    ensures only { (result ≡ status.done) ⊎ (result ≡ status.no_memory) ⊎ (result ≡ status.refused) }
{
    match resume(alloc, bytes, clients, groups, leases, moment, limit) {
        Ok(held) => {
            put_in(alloc, handle, held);
            DONE
        }
        Err(why) => tell(why, fault),
    }
}

/// A desk with the image that the bytes decode to, and the clients and leases of these rows.
fn resume(
    alloc: Global,
    bytes: &[u8],
    clients: &[ClientRow],
    groups: &[u32],
    leases: &[LeaseNumbers],
    moment: u64,
    limit: u32,
) -> Result<Box<Held, Global>, Unopened>
    ensures resumed { IfOk result (λ held. OnDesk (Some held.value) (IsResumedWith bytes.now groups.now clients.now leases.now moment limit)) }
    ensures rows { IfOk result (λ _. All (IsRowRight groups.now) clients.now) }
    ensures together { IfOk result (λ _. begin_fault (map (client_of groups.now) clients.now) ≡ None) }
    ensures refused { IfErr result (IsRefusedAs (IsUnresumed bytes.now groups.now clients.now leases.now moment)) }
{
    let image = load(alloc, bytes)?;
    resume_image(alloc, image, clients, groups, leases, moment, limit)
}

/// A desk with this image, and the clients and leases of these rows.
fn resume_image(
    alloc: Global,
    image: Image<Global>,
    clients: &[ClientRow],
    groups: &[u32],
    leases: &[LeaseNumbers],
    moment: u64,
    limit: u32,
) -> Result<Box<Held, Global>, Unopened>
    ensures resumed { IfOk result (λ held. OnDesk (Some held.value) (IsResumedOn image groups.now clients.now leases.now moment limit)) }
    ensures right { IfOk result (λ _. AreLeasesRight image groups.now clients.now leases.now moment) }
    ensures rows { IfOk result (λ _. All (IsRowRight groups.now) clients.now) }
    ensures together { IfOk result (λ _. begin_fault (map (client_of groups.now) clients.now) ≡ None) }
    ensures refused { IfErr result (IsRefusedAs (IsUnresumedWith image groups.now clients.now leases.now moment)) }
{
    let clients = clients_from(alloc, clients, groups)?;
    resume_clients(alloc, image, clients, leases, moment, limit)
}

/// A desk with this image, these clients, and the leases of these rows.
fn resume_clients(
    alloc: Global,
    image: Image<Global>,
    clients: Vec<Client, Global>,
    leases: &[LeaseNumbers],
    moment: u64,
    limit: u32,
) -> Result<Box<Held, Global>, Unopened>
    ensures resumed { IfOk result (λ held. OnDesk (Some held.value) (IsResumed image clients.items (listed_leases moment (map lease_of leases.now)) limit)) }
    ensures right { IfOk result (λ _. fault_of_rows clients.items (get image.heads) moment (map lease_of leases.now) ≡ None) }
    ensures together { IfOk result (λ _. begin_fault clients.items ≡ None) }
    ensures refused { IfErr result (IsRefusedAs (AreHoldersRefused clients.items (get image.heads) moment (map lease_of leases.now))) }
{
    let leases = leases_from(alloc, &image, clients.as_slice(), leases, moment)?;
    resume_with(alloc, image, clients, leases, limit)
}

/// The leases of the rows, at this moment.
fn leases_from(
    alloc: Global,
    image: &Image<Global>,
    clients: &[Client],
    rows: &[LeaseNumbers],
    moment: u64,
) -> Result<Leases<Global>, Unopened>
    ensures made { IfOk result (λ leases. leases ≡ listed_leases moment (map lease_of rows.now)) }
    ensures lawful { IfOk result (λ leases. AreLawful clients.now (get image.now.heads) leases) }
    ensures faultless { IfOk result (λ _. fault_of_rows clients.now (get image.now.heads) moment (map lease_of rows.now) ≡ None) }
    ensures refused { IfErr result (IsRefusedAs (AreLeasesRefused clients.now (get image.now.heads) moment (map lease_of rows.now))) }
{
    let Ok(rows) = lease_rows(alloc, rows) else {
        return Err(Unopened::NoMemory);
    };
    listed(alloc, image.shape(), clients, rows.as_slice(), moment)
}

/// The leases that are listed, at this moment.
#[tactic(auto, using(crate::proofs::ResumedDesks::unleased))]
fn listed(
    alloc: Global,
    shape: &Shape<Global>,
    clients: &[Client],
    rows: &[LeaseRow],
    moment: u64,
) -> Result<Leases<Global>, Unopened>
    ensures made { IfOk result (λ leases. leases ≡ listed_leases moment (rows_shown rows.now)) }
    ensures lawful { IfOk result (λ leases. AreLawful clients.now (get shape.now.heads) leases) }
    ensures faultless { IfOk result (λ _. fault_of_rows clients.now (get shape.now.heads) moment (rows_shown rows.now) ≡ None) }
    ensures refused { IfErr result (IsRefusedAs (AreLeasesRefused clients.now (get shape.now.heads) moment (rows_shown rows.now))) }
{
    match Leases::from_rows(alloc, shape, clients, rows, moment) {
        Ok(leases) => Ok(leases),
        Err(found) => Err(unleased(found)),
    }
}

/// The leases that the rows say.
fn lease_rows(alloc: Global, rows: &[LeaseNumbers]) -> Result<Vec<LeaseRow, Global>, AllocError>
    ensures { IfOk result (λ made. rows_shown made.items ≡ map lease_of rows.now) }
{
    let mut made = Vec::new(alloc);
    for row in rows {
        made.push(lease_from(row))?;
    }
    Ok(made)
}

/// The lease that a row says.
fn lease_from(row: &LeaseNumbers) -> LeaseRow
    ensures { row_shown result ≡ lease_of row.now }
{
    LeaseRow {
        number: row.number,
        client: row.client,
        kind: kind_asked(row.write),
        end: row.end,
    }
}

/// A desk with this image, these clients and these leases.
#[tactic(auto, using(crate::proofs::Refusals::unbegun))]
fn resume_with(
    alloc: Global,
    image: Image<Global>,
    clients: Vec<Client, Global>,
    leases: Leases<Global>,
    limit: u32,
) -> Result<Box<Held, Global>, Unopened>
    requires lawful { AreLawful clients.items (get image.heads) leases }
    ensures resumed { IfOk result (λ held. OnDesk (Some held.value) (IsResumed image clients.items leases limit)) }
    ensures together { IfOk result (λ _. begin_fault clients.items ≡ None) }
    ensures refused { IfErr result (IsRefusedAs (AreClientsRefused clients.items)) }
{
    match Desk::resume(alloc, image, clients, leases, limit) {
        Ok(desk) => boxed(alloc, desk),
        Err(back) => Err(unbegun(back.why)),
    }
}
