//! The names of a directory, one after another.
ghost use Rattle.std.specs.Prelude.{◌≡◌, ◌↔◌, ◌≤◌, ◌<◌, ◌⊎◌, None, IfNone, IfSome, IsTrue};
ghost use Rattle.kfs_c.specs.Holding.{HoldsNoDesk, OnDesk};
ghost use Rattle.kfs_c.specs.Reading.{HasNoLater, HasNoNameAfter, IsListed, IsNameLonger, IsNextName, IsStart};
ghost use Rattle.kfs_c.specs.Loose.Status as status;

use crate::bytes::hand_out;
use crate::handle::Handle;
use crate::loose::status::{DONE, NOTHING, REFUSED};
use crate::on_desk;
use kfs_desk::Desk;
use kfs_image::{Image, Name};
use std::alloc::Global;

/// Tells the least name of the directory above `after`, or the least of all where `after` has no bytes,
/// and the number that it leads to. `NOTHING` where there is none, `REFUSED` where `after` is no name,
/// `SHORT` where the buffer is too short for it.
#[unsafe(no_mangle)]
pub extern "C" fn kfs_name(
    alloc: Global,
    handle: &mut Handle,
    directory: u32,
    after: &[u8],
    buffer: &mut [u8],
    len: &mut usize,
    number: &mut u32,
) -> u32
    ensures found { result ≡ status.done → OnDesk handle.old.value (IsListed directory after.now buffer.old buffer.new len.new number.new) }
    ensures short { result ≡ status.short → OnDesk handle.old.value (IsNameLonger directory after.now buffer.old len.new) }
    ensures nothing { result ≡ status.nothing → OnDesk handle.old.value (HasNoLater directory after.now) }
    ensures refused { (result ≡ status.refused) ↔ OnDesk handle.old.value (λ _. IsStart after.now → ⊥) }
    ensures silent { 1 ≤ result → (buffer.new ≡ buffer.old) × (number.new ≡ number.old) }
    ensures kept { handle.new.value ≡ handle.old.value }
    ensures closed { (result ≡ status.closed) ↔ (handle.old.value ≡ None) }
    ensures wrong { (result ≡ status.wrong_kind) ↔ HoldsNoDesk handle.old.value }
    ensures known { result ≤ status.wrong_kind }
    ensures only { result < status.closed → (result ≡ status.done) ⊎ (status.nothing ≤ result) }
{
    on_desk!(alloc, handle, &desk => find_name(desk, directory, after, buffer, len, number))
}

fn find_name(
    desk: &Desk<Global>,
    directory: u32,
    after: &[u8],
    buffer: &mut [u8],
    len: &mut usize,
    number: &mut u32,
) -> u32
    ensures found { result ≡ status.done → IsListed directory after.now buffer.old buffer.new len.new number.new desk.now }
    ensures short { result ≡ status.short → IsNameLonger directory after.now buffer.old len.new desk.now }
    ensures nothing { result ≡ status.nothing → HasNoLater directory after.now desk.now }
    ensures refused { (result ≡ status.refused) ↔ (IsStart after.now → ⊥) }
    ensures silent { 1 ≤ result → (buffer.new ≡ buffer.old) × (number.new ≡ number.old) }
    ensures range { result ≤ status.short }
    ensures only { (result ≡ status.done) ⊎ (status.nothing ≤ result) }
{
    if !is_start(after) {
        return REFUSED;
    }
    let Some((name, leads)) = next_name(desk.image(), directory, after) else {
        return NOTHING;
    };
    let status = hand_out(name.as_bytes(), buffer, len);
    if status == DONE {
        *number = leads;
    }
    status
}

/// Whether the bytes are none, or a name.
fn is_start(after: &[u8]) -> bool
    ensures { IsTrue result ↔ IsStart after.now }
{
    after.is_empty() || Name::is_name(after)
}

/// The least name of the directory above `after`, which is a name or has no bytes.
#[tactic(auto, using(crate::proofs::Names::later, crate::proofs::Names::none_first, crate::proofs::Names::none_later))]
fn next_name<'a>(image: &'a Image<Global>, directory: u32, after: &[u8]) -> Option<(&'a Name, u32)>
    requires { IsStart after.now }
    ensures found { IfSome result (λ p. IsNextName image.now.names directory after.now p.0.now p.1) }
    ensures none { IfNone result (HasNoNameAfter image.now.names directory after.now) }
{
    // Tells the prover that the image is lawful.
    let _shape = image.shape();
    match Name::new(after) {
        Some(after) => image.next_name(directory, Some(&after)),
        None => image.next_name(directory, None),
    }
}
