//! States from bytes.
ghost use Rattle.std.specs.Prelude.{◌≡◌, ◌≤◌, length, drop, Result, IfOk, IfErr};
ghost use Rattle.kfs_entry.specs.Codec.RowList.{AreRead};
ghost use Rattle.kfs_call.specs.StateRows as spelled;
ghost use Rattle.kfs_call.specs.StateRows.{StateAnswer};
ghost use Rattle.kfs_call.specs.StateViews.{OnStateAnswer, RowsMissing, state_shown};

use crate::codec::state_header;
use crate::state::{ClientRow, LeaseRow, StateRows};
use crate::state_fault::StateFault;
use kfs_entry::{ReadRow, RowsFault, read_rows};
use kfs_types::RowList;
use std::alloc::Allocator;

/// Reads the rows of one part.
fn part<'s, R: ReadRow<'s>, A: Allocator>(
    alloc: A,
    source: &'s [u8],
    at: usize,
    count: u32,
    number: u8,
) -> Result<(Vec<R, A>, usize), StateFault>
    requires { at ≤ length source.now }
    ensures found { IfOk result (λ x. AreRead (R.fits 1 source.now) (R.spelling source.now) source.now at count x.0.items x.1) }
    ensures missing { IfErr result (RowsMissing (R.fits 1 source.now) (R.spelling source.now) (R.begins 1) count number (drop at source.now)) }
{
    match read_rows(alloc, 1, source, at, count) {
        Ok(read) => Ok(read),
        Err(RowsFault::BadRow(k)) => Err(StateFault::BadRow(number, k)),
        Err(RowsFault::OutOfMemory) => Err(StateFault::OutOfMemory),
    }
}

/// The bytes from position `at` on.
fn behind(source: &[u8], at: usize) -> &[u8]
    requires { at ≤ length source.now }
    ensures { result.now ≡ drop at source.now }
{
    &source[at..]
}

/// `decode_state`, with the first of its clauses.
fn state_in<A: Allocator + Clone>(alloc: A, source: &[u8]) -> Result<StateRows<'_, A>, StateFault>
    ensures { OnStateAnswer state_shown (StateAnswer source.now) result }
{
    let Some((header, at)) = state_header::read(source) else {
        return Err(StateFault::BadHeader);
    };
    let first = alloc.clone()?;
    let (clients, at) = part::<ClientRow, A>(first, source, at, header.clients, 0)?;
    let (leases, end) = part::<LeaseRow, A>(alloc, source, at, header.leases, 1)?;
    Ok(StateRows {
        moment: header.moment,
        clients: RowList::from_vec(clients),
        leases: RowList::from_vec(leases),
        image: behind(source, end),
    })
}

/// Reads a state from bytes, as rows that nobody has checked. What follows the rows is the image.
///
/// The two lists grow from `alloc` as rows are read, and no count reserves anything. The image is a slice
/// of `source`. Refused with `BadHeader` or `BadRow(part, k)` where the bytes leave the format, and with
/// `OutOfMemory` where memory runs out; nothing is kept then.
pub fn decode_state<A: Allocator + Clone>(
    alloc: A,
    source: &[u8],
) -> Result<StateRows<'_, A>, StateFault>
    // Soundness: the answer is right for these bytes.
    ensures found { OnStateAnswer state_shown (StateAnswer source.now) result }
    // Completeness: the right answer is given, unless memory runs out.
    ensures only { (answer : Result spelled.StateRows spelled.StateFault) → StateAnswer source.now answer → OnStateAnswer state_shown (λ given. given ≡ answer) result }
{
    state_in(alloc, source)
}
