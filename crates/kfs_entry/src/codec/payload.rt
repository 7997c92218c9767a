//! A payload: four bytes with its length, at most 65,536, then its bytes. It is held as a span of the
//! source.
ghost use Rattle.std.specs.Prelude.{◌≡◌, ◌≤◌, ◌++◌, length, drop, IfSome, OnOk};
ghost use Rattle.kfs_model.specs.Spelling.{IsPayload, payload_bytes};
ghost use Rattle.kfs_types.specs.Views.{span_bytes};
ghost use Rattle.kfs_model.proofs.Reading.{payload_read};
ghost use Rattle.kfs_entry.specs.Codec.Reading.{seen};

use crate::codec::{bytes, number32};
use kfs_types::{PAYLOAD_LIMIT, Span};
use std::alloc::{AllocError, Allocator};

/// The field at position `at`, and the position after it; none where no such field is there.
#[tactic(auto, unfolding(kfs_model::proofs::Reading::payload_read))]
pub fn read(source: &[u8], at: usize) -> Option<(Span, usize)>
    requires { at ≤ length source.now }
    ensures value { seen (span_bytes source.now) source.now result ≡ payload_read (drop at source.now) }
    ensures within { IfSome result (λ x. (x.0.start ≤ x.0.end) × (x.0.end ≤ x.1) × (x.1 ≤ length source.now)) }
{
    let (len, start) = number32::read(source, at)?;
    if len > PAYLOAD_LIMIT {
        return None;
    }
    let (_, end) = bytes::run(source, start, len as usize)?;
    Some((Span { start, end }, end))
}

/// Appends the bytes of the value. `Err` where memory runs out.
pub fn write<A: Allocator>(
    out: &mut Vec<u8, A>,
    source: &[u8],
    value: &Span,
) -> Result<(), AllocError>
    requires within { (value.now.start ≤ value.now.end) × (value.now.end ≤ length source.now) }
    requires range { IsPayload (span_bytes source.now value.now) }
    ensures { OnOk result (out.new.items ≡ out.old.items ++ payload_bytes (span_bytes source.now value.now)) }
{
    let bytes = &source[value.start..value.end];
    number32::write(out, source, &(bytes.len() as u32))?;
    out.extend_from_slice(bytes)
}

/// How many bytes the value has.
#[tactic(auto, unfolding(kfs_model::specs::Spelling::number32))]
pub fn len(source: &[u8], value: &Span) -> usize
    requires { (value.now.start ≤ value.now.end) × (value.now.end ≤ length source.now) }
    ensures { result ≡ length (payload_bytes (span_bytes source.now value.now)) }
{
    4 + source[value.start..value.end].len()
}
