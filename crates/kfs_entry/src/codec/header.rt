//! A header in a plan: a byte that is 0 where the node is gone, 1 for a file and 2 for a directory;
//! after 1 or 2 the other fields follow.
ghost use Rattle.std.specs.Prelude.{◌≡◌, ◌≤◌, ◌++◌, length, drop, Some, IfSome, OnOk};
ghost use Rattle.std.specs.Option.{option_map};
ghost use Rattle.kfs_model.specs.Spelling.{header_bytes};
ghost use Rattle.kfs_types.specs.Views.{kind_of, header_of};
ghost use Rattle.kfs_model.proofs.Reading.{present_read, header_read};
ghost use Rattle.kfs_entry.specs.Codec.Reading.{seen};

use crate::codec::{byte, number16, number32, number64};
use kfs_types::{Header, Kind};
use std::alloc::{AllocError, Allocator};

/// The fields behind the first byte.
fn read_present(source: &[u8], at: usize, kind: Kind) -> Option<(Header, usize)>
    requires { at ≤ length source.now }
    ensures value { seen (λ h. Some (header_of h)) source.now result ≡ present_read (kind_of kind) (drop at source.now) }
    ensures within { IfSome result (λ x. x.1 ≤ length source.now) }
{
    let (mode, at) = number16::read(source, at)?;
    let (uid, at) = number32::read(source, at)?;
    let (gid, at) = number32::read(source, at)?;
    let (links, at) = number16::read(source, at)?;
    let (size, at) = number64::read(source, at)?;
    let header = Header {
        kind,
        mode,
        uid,
        gid,
        links,
        size,
    };
    Some((header, at))
}

/// The field at position `at`, and the position after it; none where no such field is there.
#[tactic(auto, unfolding(kfs_model::proofs::Reading::header_read))]
pub fn read(source: &[u8], at: usize) -> Option<(Option<Header>, usize)>
    requires { at ≤ length source.now }
    ensures value { seen (option_map header_of) source.now result ≡ header_read (drop at source.now) }
    ensures within { IfSome result (λ x. x.1 ≤ length source.now) }
{
    let (state, at) = byte::read(source, at)?;
    let kind = match state {
        0 => return Some((None, at)),
        1 => Kind::File,
        2 => Kind::Directory,
        _ => return None,
    };
    let (header, at) = read_present(source, at, kind)?;
    Some((Some(header), at))
}

/// Appends the bytes of the value. `Err` where memory runs out.
pub fn write<A: Allocator>(
    out: &mut Vec<u8, A>,
    source: &[u8],
    header: &Option<Header>,
) -> Result<(), AllocError>
    ensures { OnOk result (out.new.items ≡ out.old.items ++ header_bytes (option_map header_of header.now)) }
{
    let Some(header) = header else {
        out.push(0)?;
        return Ok(());
    };
    let state = match header.kind {
        Kind::File => 1,
        Kind::Directory => 2,
    };
    out.push(state)?;
    number16::write(out, source, &header.mode)?;
    number32::write(out, source, &header.uid)?;
    number32::write(out, source, &header.gid)?;
    number16::write(out, source, &header.links)?;
    number64::write(out, source, &header.size)
}

/// How many bytes the value has.
#[tactic(auto, unfolding(kfs_model::specs::Spelling::number16, kfs_model::specs::Spelling::number32, kfs_model::specs::Spelling::number64))]
pub fn len(_source: &[u8], header: &Option<Header>) -> usize
    ensures { result ≡ length (header_bytes (option_map header_of header.now)) }
{
    match header {
        None => 1,
        Some(_) => 21,
    }
}
