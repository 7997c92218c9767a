//! What a host looks up in the desk's state now. Nothing changes, and nothing takes memory.
ghost use Rattle.std.specs.Prelude.{◌≡◌, ◌↔◌, ◌≤◌, ◌<◌, ◌⊎◌, None, length};
ghost use Rattle.kfs_model.specs.Spelling.{IsName};
ghost use Rattle.kfs_c.specs.Holding.{HoldsNoDesk, OnDesk};
ghost use Rattle.kfs_c.specs.Reading.{HasNoNode, IsNode, IsPlaced, IsUnplaced, LacksName, LeadsTo, free_places};
ghost use Rattle.kfs_c.specs.Loose.Status as status;

use crate::handle::Handle;
use crate::loose::status::{DONE, NOTHING, REFUSED};
use crate::numbers::NodeNumbers;
use crate::on_desk;
use crate::told::node_numbers;
use kfs_desk::Desk;
use kfs_image::Name;
use std::alloc::Global;

/// Tells the header of the node with this number. `NOTHING` where there is no such node.
#[unsafe(no_mangle)]
pub extern "C" fn kfs_node(
    alloc: Global,
    handle: &mut Handle,
    number: u32,
    node: &mut NodeNumbers,
) -> u32
    ensures found { result ≡ status.done → OnDesk handle.old.value (IsNode number node.new) }
    ensures nothing { (result ≡ status.nothing) ↔ OnDesk handle.old.value (HasNoNode number) }
    ensures silent { 1 ≤ result → node.new ≡ node.old }
    ensures kept { handle.new.value ≡ handle.old.value }
    ensures closed { (result ≡ status.closed) ↔ (handle.old.value ≡ None) }
    ensures wrong { (result ≡ status.wrong_kind) ↔ HoldsNoDesk handle.old.value }
    ensures known { result ≤ status.wrong_kind }
    ensures only { result < status.closed → (result ≡ status.done) ⊎ (result ≡ status.nothing) }
{
    on_desk!(alloc, handle, &desk => find_node(desk, number, node))
}

fn find_node(desk: &Desk<Global>, number: u32, node: &mut NodeNumbers) -> u32
    ensures found { result ≡ status.done → IsNode number node.new desk.now }
    ensures nothing { (result ≡ status.nothing) ↔ HasNoNode number desk.now }
    ensures silent { 1 ≤ result → node.new ≡ node.old }
    ensures only { (result ≡ status.done) ⊎ (result ≡ status.nothing) }
{
    let Some(header) = desk.header(number) else {
        return NOTHING;
    };
    *node = node_numbers(header);
    DONE
}

/// Tells the number to which a name of the directory leads. `NOTHING` where it has no such name, or where it
/// is no directory; `REFUSED` where the bytes are no name. Who asks isn't checked (`kfs_may`).
#[unsafe(no_mangle)]
pub extern "C" fn kfs_find(
    alloc: Global,
    handle: &mut Handle,
    directory: u32,
    name: &[u8],
    number: &mut u32,
) -> u32
    ensures found { result ≡ status.done → OnDesk handle.old.value (LeadsTo directory name.now number.new) }
    ensures nothing { (result ≡ status.nothing) ↔ OnDesk handle.old.value (LacksName directory name.now) }
    ensures refused { (result ≡ status.refused) ↔ OnDesk handle.old.value (λ _. IsName name.now → ⊥) }
    ensures silent { 1 ≤ result → number.new ≡ number.old }
    ensures kept { handle.new.value ≡ handle.old.value }
    ensures closed { (result ≡ status.closed) ↔ (handle.old.value ≡ None) }
    ensures wrong { (result ≡ status.wrong_kind) ↔ HoldsNoDesk handle.old.value }
    ensures known { result ≤ status.wrong_kind }
    ensures only { result < status.closed → (result ≡ status.done) ⊎ (result ≡ status.nothing) ⊎ (result ≡ status.refused) }
{
    on_desk!(alloc, handle, &desk => find_number(desk, directory, name, number))
}

fn find_number(desk: &Desk<Global>, directory: u32, name: &[u8], number: &mut u32) -> u32
    ensures found { result ≡ status.done → LeadsTo directory name.now number.new desk.now }
    ensures nothing { (result ≡ status.nothing) ↔ LacksName directory name.now desk.now }
    ensures refused { (result ≡ status.refused) ↔ (IsName name.now → ⊥) }
    ensures silent { 1 ≤ result → number.new ≡ number.old }
    ensures only { (result ≡ status.done) ⊎ (result ≡ status.nothing) ⊎ (result ≡ status.refused) }
{
    let Some(name) = Name::new(name) else {
        return REFUSED;
    };
    let Some(leads) = desk.image().shape().target(&(directory, name)) else {
        return NOTHING;
    };
    *number = leads;
    DONE
}

/// Tells where a block of a file lies. `NOTHING` where it isn't mapped.
#[unsafe(no_mangle)]
pub extern "C" fn kfs_place(
    alloc: Global,
    handle: &mut Handle,
    number: u32,
    block: u32,
    tier: &mut u8,
    place: &mut u32,
) -> u32
    ensures found { result ≡ status.done → OnDesk handle.old.value (IsPlaced number block tier.new place.new) }
    ensures nothing { (result ≡ status.nothing) ↔ OnDesk handle.old.value (IsUnplaced number block) }
    ensures silent { 1 ≤ result → (tier.new ≡ tier.old) × (place.new ≡ place.old) }
    ensures kept { handle.new.value ≡ handle.old.value }
    ensures closed { (result ≡ status.closed) ↔ (handle.old.value ≡ None) }
    ensures wrong { (result ≡ status.wrong_kind) ↔ HoldsNoDesk handle.old.value }
    ensures known { result ≤ status.wrong_kind }
    ensures only { result < status.closed → (result ≡ status.done) ⊎ (result ≡ status.nothing) }
{
    on_desk!(alloc, handle, &desk => find_place(desk, number, block, tier, place))
}

fn find_place(desk: &Desk<Global>, number: u32, block: u32, tier: &mut u8, place: &mut u32) -> u32
    ensures found { result ≡ status.done → IsPlaced number block tier.new place.new desk.now }
    ensures nothing { (result ≡ status.nothing) ↔ IsUnplaced number block desk.now }
    ensures silent { 1 ≤ result → (tier.new ≡ tier.old) × (place.new ≡ place.old) }
    ensures only { (result ≡ status.done) ⊎ (result ≡ status.nothing) }
{
    let Some((on_tier, at_place)) = desk.image().place_of(number, block) else {
        return NOTHING;
    };
    *tier = on_tier;
    *place = at_place;
    DONE
}

/// Tells how many places of the tier hold no block, 0 for a tier over 2.
#[unsafe(no_mangle)]
pub extern "C" fn kfs_free(alloc: Global, handle: &mut Handle, tier: u8, count: &mut u32) -> u32
    ensures counted { result ≡ status.done → OnDesk handle.old.value (λ desk. count.new ≡ free_places tier desk) }
    ensures silent { 1 ≤ result → count.new ≡ count.old }
    ensures kept { handle.new.value ≡ handle.old.value }
    ensures closed { (result ≡ status.closed) ↔ (handle.old.value ≡ None) }
    ensures wrong { (result ≡ status.wrong_kind) ↔ HoldsNoDesk handle.old.value }
    ensures known { result ≤ status.wrong_kind }
    ensures only { result < status.closed → result ≡ status.done }
{
    on_desk!(alloc, handle, &desk => {
        *count = desk.image().free(tier);
        DONE
    })
}

/// Tells how many rows the docket has.
#[unsafe(no_mangle)]
pub extern "C" fn kfs_docket_len(alloc: Global, handle: &mut Handle, count: &mut u32) -> u32
    ensures counted { result ≡ status.done → OnDesk handle.old.value (λ desk. count.new ≡ length desk.docket) }
    ensures silent { 1 ≤ result → count.new ≡ count.old }
    ensures kept { handle.new.value ≡ handle.old.value }
    ensures closed { (result ≡ status.closed) ↔ (handle.old.value ≡ None) }
    ensures wrong { (result ≡ status.wrong_kind) ↔ HoldsNoDesk handle.old.value }
    ensures known { result ≤ status.wrong_kind }
    ensures only { result < status.closed → result ≡ status.done }
{
    on_desk!(alloc, handle, &desk => {
        *count = desk.docket().len();
        DONE
    })
}
