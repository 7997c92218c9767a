//! Clients and leases as the rows of a state's bytes, and back.
ghost use Rattle.std.specs.Prelude.{◌≡◌, ◌⊎◌, ◌<◌, ◌^◌, All, List, None, IfErr, IfNone, IfOk, IfSome, IsTrue, length, map, nat_lt};
ghost use Rattle.kfs_model.specs.Limits.{group_limit};
ghost use Rattle.kfs_lease.specs.ShownLists.{row_shown};
ghost use Rattle.kfs_call.specs.StateRows.{IsClientRow, IsLeaseRow};
ghost use Rattle.kfs_call.specs.StateViews.{client_shown, lease_shown};
ghost use Rattle.kfs_call_desk.specs.Restore.Saved.{HasManyGroups, lease_of_row, spelled_lease};
ghost use Rattle.kfs_call_desk.specs.Restore.Restored.{clients_refusal};
ghost use Rattle.kfs_call_desk.specs.Restore.Told.{IsRefusedAs, IsRefusedFor};

use crate::restore::fault::{EncodeFault, RestoreFault};
use arrayvec::ArrayVec;
use kfs_call::{ClientRow, LeaseRow};
use kfs_lease::LeaseRow as ListedLease;
use kfs_mode::{Client, ClientFault};
use std::alloc::{AllocError, Allocator};

/// The number as it is, with what its type says of it.
fn in_range(number: u32) -> u32
    ensures same { result ≡ number }
    ensures fits { number < 2 ^ 32 }
{
    number
}

/// The moment as it is, with what its type says of it.
pub fn moment_in_range(moment: u64) -> u64
    ensures same { result ≡ moment }
    ensures fits { moment < 2 ^ 64 }
{
    moment
}

/// Tells the prover that each number fits 32 bits. It goes over them once and changes nothing.
fn tell_numbers(numbers: &[u32])
    ensures { All (λ number. number < 2 ^ 32) numbers.now }
{
    for number in numbers {
        // The call says that it does.
        let _number = in_range(*number);
    }
}

/// The client as a row of a state; none where it has more groups than a client may have.
fn client_row(client: &Client) -> Option<ClientRow>
    ensures row { IfSome result (λ row. client_shown row ≡ client.now) }
    ensures fits { IfSome result (λ row. IsClientRow client.now) }
    ensures none { IfNone result (IsTrue (nat_lt group_limit (length client.now.groups))) }
{
    let groups = client.groups();
    tell_numbers(groups);
    let Ok(groups) = ArrayVec::try_from(groups) else {
        return None;
    };
    let (first, last) = client.grant();
    Some(ClientRow {
        number: in_range(client.number()),
        uid: client.uid(),
        gid: client.gid(),
        groups,
        privileged: client.is_privileged(),
        first: in_range(first),
        last: in_range(last),
    })
}

/// The clients as rows of a state.
pub fn client_rows<A: Allocator>(
    alloc: A,
    clients: &[Client],
) -> Result<Vec<ClientRow, A>, EncodeFault>
    ensures rows { IfOk result (λ rows. map client_shown rows.items ≡ clients.now) }
    ensures fit { IfOk result (λ rows. All IsClientRow clients.now) }
    ensures err { IfErr result (λ fault. (fault ≡ EncodeFault.OutOfMemory) ⊎ ((fault ≡ EncodeFault.TooMany) × HasManyGroups clients.now)) }
{
    let mut rows = Vec::with_capacity(alloc, clients.len())?;
    for client in clients {
        let Some(row) = client_row(client) else {
            return Err(EncodeFault::TooMany);
        };
        rows.push(row)?;
    }
    Ok(rows)
}

/// The lease as a row of a state.
fn lease_row(lease: &ListedLease) -> LeaseRow
    ensures row { lease_shown result ≡ spelled_lease (row_shown lease.now) }
    ensures fits { IsLeaseRow (lease_shown result) }
{
    let lease = *lease;
    LeaseRow {
        node: in_range(lease.number),
        client: in_range(lease.client),
        kind: lease.kind,
        end: moment_in_range(lease.end),
    }
}

/// The leases as rows of a state. `Err` where memory is refused.
pub fn lease_rows<A: Allocator>(
    alloc: A,
    leases: &[ListedLease],
) -> Result<Vec<LeaseRow, A>, AllocError>
    ensures rows { IfOk result (λ rows. map lease_shown rows.items ≡ map (λ lease. spelled_lease (row_shown lease)) leases.now) }
    ensures fit { IfOk result (λ rows. All (λ row. IsLeaseRow (lease_shown row)) rows.items) }
{
    let mut rows = Vec::with_capacity(alloc, leases.len())?;
    for lease in leases {
        rows.push(lease_row(lease))?;
    }
    Ok(rows)
}

/// The client of a row, or why there is none.
fn client_of(row: &ClientRow) -> Result<Client, ClientFault>
    ensures client { IfOk result (λ client. client ≡ client_shown row.now) }
    ensures refusal { IsRefusedAs result (client_shown row.now) }
{
    Client::new(
        row.number,
        row.uid,
        row.gid,
        row.groups.as_slice(),
        row.privileged,
        row.first,
        row.last,
    )
}

/// The clients of the rows, or the first that can't be one.
pub fn clients_of<A: Allocator>(
    alloc: A,
    rows: &[ClientRow],
) -> Result<Vec<Client, A>, RestoreFault>
    ensures clients { IfOk result (λ clients. clients.items ≡ map client_shown rows.now) }
    ensures fit { IfOk result (λ clients. clients_refusal (map client_shown rows.now) ≡ None) }
    ensures err { IfErr result (IsRefusedFor (clients_refusal (map client_shown rows.now))) }
{
    let mut clients = Vec::with_capacity(alloc, rows.len())?;
    for (index, row) in rows.iter().enumerate() {
        match client_of(row) {
            Ok(client) => clients.push(client)?,
            Err(fault) => return Err(RestoreFault::BadClient(index, fault)),
        }
    }
    Ok(clients)
}

/// The lease of a row.
fn lease_of(row: &LeaseRow) -> ListedLease
    ensures { row_shown result ≡ lease_of_row (lease_shown row.now) }
{
    ListedLease {
        number: row.node,
        client: row.client,
        kind: row.kind,
        end: row.end,
    }
}

/// The leases of the rows. `Err` where memory is refused.
pub fn leases_of<A: Allocator>(
    alloc: A,
    rows: &[LeaseRow],
) -> Result<Vec<ListedLease, A>, AllocError>
    ensures { IfOk result (λ leases. map row_shown leases.items ≡ map (λ row. lease_of_row (lease_shown row)) rows.now) }
{
    let mut leases = Vec::with_capacity(alloc, rows.len())?;
    for row in rows {
        leases.push(lease_of(row))?;
    }
    Ok(leases)
}
