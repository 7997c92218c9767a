//! The header with which a state begins: 21 bytes.
ghost use Rattle.std.specs.Prelude.{◌≡◌, ◌≤◌, ◌++◌, length, drop, IfSome, IfNone, OnOk};
ghost use Rattle.kfs_model.specs.Spelling.{BeginsWithNo};
ghost use Rattle.kfs_entry.specs.Codec.Reading.{StandsIn, seen};
ghost use Rattle.kfs_call.specs.StateRows.{IsStateHeader, state_header};
ghost use Rattle.kfs_call.specs.StateReaders.{state_header_read};
ghost use Rattle.kfs_call.specs.StateViews.{header_shown};

use kfs_entry::codec::headers::read_mark;
use kfs_entry::codec::{number32, number64};
use std::alloc::{AllocError, Allocator};

/// What a state begins with: KDSK, and the version.
const MARK: &[u8] = b"KDSK\x01";

/// The length of the header in bytes.
pub const LEN: usize = 21;

/// The moment of a state, and how many rows each part has.
#[derive(Clone, Copy)]
pub struct StateHeader {
    /// The moment.
    pub moment: u64,
    /// How many clients.
    pub clients: u32,
    /// How many leases.
    pub leases: u32,
}

#[tactic(auto, unfolding(crate::specs::StateReaders::state_header_read))]
fn header_of_state(source: &[u8]) -> Option<(StateHeader, usize)>
    ensures value { seen header_shown source.now result ≡ state_header_read (drop 0 source.now) }
    ensures within { IfSome result (λ x. x.1 ≤ length source.now) }
{
    let at = read_mark(source, 0, MARK)?;
    let (moment, at) = number64::read(source, at)?;
    let (clients, at) = number32::read(source, at)?;
    let (leases, at) = number32::read(source, at)?;
    let header = StateHeader {
        moment,
        clients,
        leases,
    };
    Some((header, at))
}

/// The header of a state, and the position after it; none where the source doesn't begin with one.
pub fn read(source: &[u8]) -> Option<(StateHeader, usize)>
    ensures found { IfSome result (λ x. IsStateHeader (header_shown x.0) × StandsIn source.now 0 x.1 (state_header (header_shown x.0))) }
    ensures none { IfNone result (BeginsWithNo IsStateHeader state_header source.now) }
{
    header_of_state(source)
}

/// Appends a state's header, 21 bytes. `Err` where memory runs out.
pub fn write<A: Allocator>(out: &mut Vec<u8, A>, header: StateHeader) -> Result<(), AllocError>
    ensures { OnOk result (out.new.items ≡ out.old.items ++ state_header (header_shown header)) }
{
    out.extend_from_slice(MARK)?;
    number64::write(out, &[], &header.moment)?;
    number32::write(out, &[], &header.clients)?;
    number32::write(out, &[], &header.leases)
}
