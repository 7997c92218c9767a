//! Opening and closing.
ghost use Rattle.std.specs.Prelude.{◌≡◌, ◌≤◌, ◌⊎◌, ◌++◌, ◌∷◌, [], All, None, IfErr, IfOk, OnOk, Ok, Some, map};
ghost use Rattle.kfs_image.specs.Codec.RawImages.{raw_of};
ghost use Rattle.kfs_model.specs.Device.Spelling.{ImageAnswer};
ghost use Rattle.kfs_desk.specs.Opening.{begin_fault};
ghost use Rattle.kfs_c.specs.Holding.{OnDesk};
ghost use Rattle.kfs_c.specs.Opening.{AreClientsRefused, AreRowsRefused, IsBegun, IsBegunWith, IsImageRefused, IsLoaded, IsLoadedWith, IsNoImage, IsOpenedWith, IsOpeningRefused, IsRowRefused, IsRowRight, IsUnloaded, IsUnopened, IsRefusedAs, broken_as, client_of, misfit_told, sizes_of, sizes_told, stray_told, unbegun_as, unread_as};
ghost use Rattle.kfs_c.specs.Loose.Status as status;

use crate::fault_codes::{
    BAD_GRANT, CLIENT_TWICE, GRANT_OVERLAP, GROUPS_OUTSIDE, IMAGE_HEADER, IMAGE_ROW,
    IMAGE_TRAILING, OPEN_CLIENT, OPEN_CLIENTS, OPEN_IMAGE, OPEN_RULE, OPEN_SIZES, TOO_MANY_GROUPS,
};
use crate::handle::Handle;
use crate::held::Held;
use crate::loose::status::{DONE, NO_MEMORY, REFUSED};
use crate::numbers::ClientRow;
use crate::slot::{put_in, take_out};
use crate::submission::{FaultNumbers, fault};
use kfs_desk::{BeginFault, Desk};
use kfs_image::{Image, ImageFault, InTurn, RawImage, TierSizes, decode_image};
use kfs_mode::{Client, ClientFault};
use kfs_shape::{ShapeFault, check_keeping};
use std::alloc::Global;

/// Why no desk is opened.
pub(crate) enum Unopened {
    /// Memory was refused.
    NoMemory,
    /// This is the fault.
    Refused(FaultNumbers),
}

/// Frees what the handle holds, if it holds something.
#[unsafe(no_mangle)]
pub extern "C" fn kfs_close(alloc: Global, handle: &mut Handle)
    ensures { handle.new.value ≡ None }
{
    let_go(alloc, handle);
}

/// Frees what the handle holds, if it holds something.
pub(crate) fn let_go(alloc: Global, handle: &mut Handle)
    ensures { handle.new.value ≡ None }
{
    if let Some(held) = take_out(alloc, handle) {
        drop(Box::into_inner(held));
    }
}

/// Has the handle hold a desk with a new image of these tier sizes, in blocks, and these clients. What
/// it held is freed then; where no desk is opened, it is kept. The docket will have at most `limit` rows.
///
/// `REFUSED` with a fault of code `OPEN_SIZES` where a tier is larger than 65,536 blocks, `OPEN_CLIENT` for
/// a client that can't be, `OPEN_CLIENTS` for clients that can't be together.
#[unsafe(no_mangle)]
pub extern "C" fn kfs_open(
    alloc: Global,
    handle: &mut Handle,
    first: u32,
    second: u32,
    third: u32,
    clients: &[ClientRow],
    groups: &[u32],
    limit: u32,
    fault: &mut FaultNumbers,
) -> u32
    ensures opened { result ≡ status.done → OnDesk handle.new.value (IsOpenedWith (sizes_of first second third) groups.now clients.now limit) }
    // No row is wrong then. Where one is, the first of them is told.
    ensures rows { result ≡ status.done → All (IsRowRight groups.now) clients.now }
    // Nor is a client wrong beside an earlier one.
    ensures together { result ≡ status.done → begin_fault (map (client_of groups.now) clients.now) ≡ None }
    ensures refused { result ≡ status.refused → IsUnopened (sizes_of first second third) groups.now clients.now fault.new }
    ensures unopened { 1 ≤ result → handle.new.value ≡ handle.old.value }
    ensures silent { result ≤ status.no_memory → fault.new ≡ fault.old }
    ensures only { (result ≡ status.done) ⊎ (result ≡ status.no_memory) ⊎ (result ≡ status.refused) }
{
    let Some(sizes) = TierSizes::new(first, second, third) else {
        *fault = bad_sizes();
        return REFUSED;
    };
    let Ok(image) = Image::fresh(alloc, sizes) else {
        return NO_MEMORY;
    };
    open(alloc, handle, image, clients, groups, limit, fault)
}

/// The fault of tiers that are too large.
fn bad_sizes() -> FaultNumbers
    ensures { result ≡ sizes_told }
{
    fault(OPEN_SIZES, 0, 0, 0)
}

/// Has the handle hold a desk with the image that the bytes decode to, and these clients. As `kfs_open`
/// otherwise; `REFUSED` also with a fault of code `OPEN_IMAGE` for bytes that are no
/// image, and of code `OPEN_RULE` for an image that breaks a rule.
#[unsafe(no_mangle)]
pub extern "C" fn kfs_load(
    alloc: Global,
    handle: &mut Handle,
    bytes: &[u8],
    clients: &[ClientRow],
    groups: &[u32],
    limit: u32,
    fault: &mut FaultNumbers,
) -> u32
    ensures opened { result ≡ status.done → OnDesk handle.new.value (IsLoadedWith bytes.now groups.now clients.now limit) }
    // No row is wrong then. Where one is, the first of them is told.
    ensures rows { result ≡ status.done → All (IsRowRight groups.now) clients.now }
    // Nor is a client wrong beside an earlier one.
    ensures together { result ≡ status.done → begin_fault (map (client_of groups.now) clients.now) ≡ None }
    ensures refused { result ≡ status.refused → IsUnloaded bytes.now groups.now clients.now fault.new }
    ensures unopened { 1 ≤ result → handle.new.value ≡ handle.old.value }
    ensures silent { result ≤ status.no_memory → fault.new ≡ fault.old }
    ensures only { (result ≡ status.done) ⊎ (result ≡ status.no_memory) ⊎ (result ≡ status.refused) }
{
    match load(alloc, bytes) {
        Ok(image) => open(alloc, handle, image, clients, groups, limit, fault),
        Err(why) => tell(why, fault),
    }
}

/// Tells why no desk is opened.
pub(crate) fn tell(why: Unopened, fault: &mut FaultNumbers) -> u32
    ensures refused { result ≡ status.refused → why ≡ Unopened.Refused fault.new }
    ensures silent { result ≡ status.no_memory → fault.new ≡ fault.old }
    ensures only { (result ≡ status.no_memory) ⊎ (result ≡ status.refused) }
{
    match why {
        Unopened::NoMemory => NO_MEMORY,
        Unopened::Refused(found) => {
            *fault = found;
            REFUSED
        }
    }
}

/// The image that the bytes decode to, if it breaks no rule.
pub(crate) fn load(alloc: Global, bytes: &[u8]) -> Result<Image<Global>, Unopened>
    ensures loaded { IfOk result (IsLoaded bytes.now) }
    ensures refused { IfErr result (IsRefusedAs (IsImageRefused bytes.now)) }
{
    let raw = read_rows(alloc, bytes)?;
    match check_keeping(alloc, &raw, &InTurn) {
        Ok(headers) => match Image::from_raw_with(alloc, &InTurn, raw, headers) {
            Ok(image) => Ok(image),
            Err(_) => Err(Unopened::NoMemory),
        },
        Err(found) => Err(broken(found)),
    }
}

/// The rows that the bytes decode to.
#[tactic(auto, using(crate::proofs::Refusals::unread))]
fn read_rows(alloc: Global, bytes: &[u8]) -> Result<RawImage<Global>, Unopened>
    ensures read { IfOk result (λ raw. ImageAnswer bytes.now (Ok (raw_of raw))) }
    ensures refused { IfErr result (IsRefusedAs (IsNoImage bytes.now)) }
{
    match decode_image(alloc, bytes) {
        Ok(raw) => Ok(raw),
        Err(found) => Err(unread(found)),
    }
}

/// Why bytes are no image.
pub(crate) fn unread(found: ImageFault) -> Unopened
    ensures { result ≡ unread_as found }
{
    match found {
        ImageFault::BadImageHeader => Unopened::Refused(fault(OPEN_IMAGE, IMAGE_HEADER, 0, 0)),
        ImageFault::BadImageRow(row) => Unopened::Refused(fault(OPEN_IMAGE, IMAGE_ROW, row, 0)),
        ImageFault::ImageTrailing => Unopened::Refused(fault(OPEN_IMAGE, IMAGE_TRAILING, 0, 0)),
        ImageFault::OutOfMemory => Unopened::NoMemory,
    }
}

/// Which rule an image breaks.
pub(crate) fn broken(found: ShapeFault) -> Unopened
    ensures { result ≡ broken_as found }
{
    match found {
        ShapeFault::Found(finding) => Unopened::Refused(fault(
            OPEN_RULE,
            u32::from(finding.rule),
            u64::from(finding.number),
            0,
        )),
        ShapeFault::OutOfMemory => Unopened::NoMemory,
    }
}

/// Has the handle hold a desk with this image and these clients. What it held is freed then.
fn open(
    alloc: Global,
    handle: &mut Handle,
    image: Image<Global>,
    clients: &[ClientRow],
    groups: &[u32],
    limit: u32,
    fault: &mut FaultNumbers,
) -> u32
    ensures opened { result ≡ status.done → OnDesk handle.new.value (IsBegunWith image groups.now clients.now limit) }
    ensures rows { result ≡ status.done → All (IsRowRight groups.now) clients.now }
    ensures together { result ≡ status.done → begin_fault (map (client_of groups.now) clients.now) ≡ None }
    ensures refused { result ≡ status.refused → IsOpeningRefused groups.now clients.now fault.new }
    ensures unopened { 1 ≤ result → handle.new.value ≡ handle.old.value }
    ensures silent { result ≤ status.no_memory → fault.new ≡ fault.old }
    ensures only { (result ≡ status.done) ⊎ (result ≡ status.no_memory) ⊎ (result ≡ status.refused) }
{
    match begin_with(alloc, image, clients, groups, limit) {
        Ok(held) => {
            put_in(alloc, handle, held);
            DONE
        }
        Err(why) => tell(why, fault),
    }
}

/// A desk with this image and the clients that the rows say.
fn begin_with(
    alloc: Global,
    image: Image<Global>,
    clients: &[ClientRow],
    groups: &[u32],
    limit: u32,
) -> Result<Box<Held, Global>, Unopened>
    ensures begun { IfOk result (λ held. OnDesk (Some held.value) (IsBegunWith image groups.now clients.now limit)) }
    ensures rows { IfOk result (λ _. All (IsRowRight groups.now) clients.now) }
    ensures together { IfOk result (λ _. begin_fault (map (client_of groups.now) clients.now) ≡ None) }
    ensures refused { IfErr result (IsRefusedAs (IsOpeningRefused groups.now clients.now)) }
{
    let clients = clients_from(alloc, clients, groups)?;
    begin(alloc, image, clients, limit)
}

/// A desk with this image and these clients.
#[tactic(auto, using(crate::proofs::Refusals::unbegun))]
fn begin(
    alloc: Global,
    image: Image<Global>,
    clients: Vec<Client, Global>,
    limit: u32,
) -> Result<Box<Held, Global>, Unopened>
    ensures begun { IfOk result (λ held. OnDesk (Some held.value) (IsBegun image clients.items limit)) }
    ensures together { IfOk result (λ _. begin_fault clients.items ≡ None) }
    ensures refused { IfErr result (IsRefusedAs (AreClientsRefused clients.items)) }
{
    match Desk::begin(alloc, image, clients, limit) {
        Ok(desk) => boxed(alloc, desk),
        Err(back) => Err(unbegun(back.why)),
    }
}

/// The desk in a box.
pub(crate) fn boxed(alloc: Global, desk: Desk<Global>) -> Result<Box<Held, Global>, Unopened>
    ensures held { IfOk result (λ held. held.value ≡ Held.Desk desk) }
    ensures memory { IfErr result (λ why. why ≡ Unopened.NoMemory) }
{
    match Box::new(alloc, Held::Desk(desk)) {
        Ok(held) => Ok(held),
        Err(_) => Err(Unopened::NoMemory),
    }
}

/// Why a desk can't be begun.
pub(crate) fn unbegun(why: BeginFault) -> Unopened
    ensures { result ≡ unbegun_as why }
{
    match why {
        BeginFault::ClientTwice(index) => Unopened::Refused(fault(
            OPEN_CLIENTS,
            CLIENT_TWICE,
            index as u64,
            0,
        )),
        BeginFault::GrantOverlap(index) => Unopened::Refused(fault(
            OPEN_CLIENTS,
            GRANT_OVERLAP,
            index as u64,
            0,
        )),
        BeginFault::OutOfMemory => Unopened::NoMemory,
    }
}

/// The clients that the rows say.
pub(crate) fn clients_from(
    alloc: Global,
    rows: &[ClientRow],
    groups: &[u32],
) -> Result<Vec<Client, Global>, Unopened>
    ensures made { IfOk result (λ clients. clients.items ≡ map (client_of groups.now) rows.now) }
    ensures right { IfOk result (λ _. All (IsRowRight groups.now) rows.now) }
    ensures refused { IfErr result (IsRefusedAs (AreRowsRefused groups.now rows.now)) }
{
    let mut clients = Vec::new(alloc);
    for (index, row) in rows.iter().enumerate() {
        let client = client_from(row, groups, index)?;
        add(&mut clients, client)?;
    }
    Ok(clients)
}

/// Adds a client.
fn add(clients: &mut Vec<Client, Global>, client: Client) -> Result<(), Unopened>
    ensures added { OnOk result (clients.new.items ≡ clients.old.items ++ client ∷ []) }
    ensures memory { IfErr result (λ why. why ≡ Unopened.NoMemory) }
{
    match clients.push(client) {
        Ok(()) => Ok(()),
        Err(_) => Err(Unopened::NoMemory),
    }
}

/// The client that a row says, which is the one with this index.
fn client_from(row: &ClientRow, groups: &[u32], index: usize) -> Result<Client, Unopened>
    ensures made { IfOk result (λ client. client ≡ client_of groups.now row.now) }
    ensures right { IfOk result (λ _. IsRowRight groups.now row.now) }
    ensures refused { IfErr result (IsRefusedAs (IsRowRefused groups.now row.now index)) }
{
    let start = row.groups_start as usize;
    let end = start + row.groups_count as usize;
    if end > groups.len() {
        return Err(Unopened::Refused(stray(index)));
    }
    let made = Client::new(
        row.number,
        row.uid,
        row.gid,
        &groups[start..end],
        row.privileged,
        row.first,
        row.last,
    );
    match made {
        Ok(client) => Ok(client),
        Err(why) => Err(Unopened::Refused(misfit(index, why))),
    }
}

/// The fault of a client whose groups reach out of the list.
fn stray(index: usize) -> FaultNumbers
    ensures { result ≡ stray_told index }
{
    fault(OPEN_CLIENT, GROUPS_OUTSIDE, index as u64, 0)
}

/// The fault of a client that can't be.
pub(crate) fn misfit(index: usize, why: ClientFault) -> FaultNumbers
    ensures { result ≡ misfit_told index why }
{
    match why {
        ClientFault::TooManyGroups => fault(OPEN_CLIENT, TOO_MANY_GROUPS, index as u64, 0),
        ClientFault::BadGrant => fault(OPEN_CLIENT, BAD_GRANT, index as u64, 0),
    }
}
