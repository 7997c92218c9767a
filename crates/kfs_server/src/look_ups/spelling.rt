//! What look-ups find, as bytes.
ghost use Rattle.std.specs.Prelude.{◌≡◌, [], ◌∷◌, ◌++◌, ◌+◌, ◌≤◌, length, option_map, Some};
ghost use Rattle.kfs_model.specs.Spelling.{header_bytes, number32, number64, state_bytes};
ghost use Rattle.kfs_types.specs.Views.{header_of, kind_of};
ghost use Rattle.arrayvec.specs.ArrayVec.{array_vec_len};
ghost use Rattle.kfs_server.specs.LookUps.Found.{denial_code, figures_bytes, found_bytes, more_byte, number_bytes, tier_bytes};
ghost use Rattle.kfs_server.specs.LookUps.Views.{IsWithin, figures_shown, found_shown, tail_of, tier_shown};
ghost use Rattle.kfs_server.specs.Replies.Reply as spelled;
ghost use Rattle.kfs_server.specs.Replies.Reply.{reply_bytes};

use crate::look_ups::found::{Figures, Found, TierFigures};
use crate::put::put;
use arrayvec::ArrayVec;
use kfs_mode::AccessFault;
use kfs_types::{Header, Kind};
use std::alloc::Allocator;

/// The most bytes of what is found with its tag, but for the tail.
const FINDING_LIMIT: usize = 25;

/// The most bytes of a reply that says what was found, with its head, but for the tail.
pub const FOUND_HEAD_LIMIT: usize = 34;

/// The tag of a reply that says what was found.
const FOUND_TAG: u8 = 3;

/// The reply to a look-up as bytes, under the frame's number, but for its tail. Takes no memory. Condition: the tail has
/// at most 65,536 bytes.
#[tactic(auto, unfolding(kfs_model::specs::Spelling::number32))]
pub fn spell_found_head<B: Allocator>(
    number: u32,
    found: &Found<B>,
) -> ArrayVec<u8, FOUND_HEAD_LIMIT>
    requires { IsWithin found.now }
    ensures { result.items ++ tail_of found.now ≡ reply_bytes number (spelled.Found (found_shown found.now)) }
{
    let finding = finding(found);
    let len = (1 + finding.len() + found_tail(found).len()) as u32;
    let mut out = ArrayVec::new();
    put(&mut out, &len.to_be_bytes());
    put(&mut out, &number.to_be_bytes());
    out.push(FOUND_TAG);
    put(&mut out, finding.as_slice());
    out
}

/// The bytes of a file, of names, of leases or of a plan. Of else nothing.
pub fn found_tail<B: Allocator>(found: &Found<B>) -> &[u8]
    ensures { result.now ≡ tail_of found.now }
{
    match found {
        Found::NamesAre { bytes, .. }
        | Found::BytesAre(bytes)
        | Found::LeasesAre { bytes, .. }
        | Found::PlanIs(bytes) => bytes,
        _ => &[],
    }
}

/// What was found, as bytes, but for the tail.
fn finding<B: Allocator>(found: &Found<B>) -> ArrayVec<u8, FINDING_LIMIT>
    ensures { result.items ++ tail_of found.now ≡ found_bytes (found_shown found.now) }
{
    match found {
        Found::NodeIs(header) => header_finding(*header),
        Found::StateIs(figures) => figures_finding(figures),
        Found::Renewed => tagged(3),
        Found::Denied(why) => tagged_byte(4, denial(*why)),
        Found::LeadsTo(number) => number_finding(*number),
        Found::NamesAre { more, .. } => tagged_byte(6, flag(*more)),
        Found::BytesAre(_) => tagged(7),
        Found::PlacesAre(first, second, third) => places_finding(first, second, third),
        Found::LeasesAre { more, .. } => tagged_byte(9, flag(*more)),
        Found::PlanIs(_) => tagged_byte(10, 1),
        Found::NoPlan => tagged_byte(10, 0),
        Found::PlanTooLong => tagged_byte(10, 2),
    }
}

/// A tag alone.
fn tagged(tag: u8) -> ArrayVec<u8, FINDING_LIMIT>
    ensures { result.items ≡ tag ∷ [] }
{
    let mut out = ArrayVec::new();
    out.push(tag);
    out
}

/// A tag and a byte.
fn tagged_byte(tag: u8, byte: u8) -> ArrayVec<u8, FINDING_LIMIT>
    ensures { result.items ≡ tag ∷ byte ∷ [] }
{
    let mut out = ArrayVec::new();
    out.push(tag);
    out.push(byte);
    out
}

fn header_finding(header: Option<Header>) -> ArrayVec<u8, FINDING_LIMIT>
    ensures { result.items ≡ 1 ∷ header_bytes (option_map header_of header) }
{
    let mut out = tagged(1);
    put_header(&mut out, header);
    out
}

fn figures_finding(figures: &Figures) -> ArrayVec<u8, FINDING_LIMIT>
    ensures { result.items ≡ 2 ∷ figures_bytes (figures_shown figures.now) }
{
    let mut out = tagged(2);
    put_figures(&mut out, figures);
    out
}

fn number_finding(number: Option<u32>) -> ArrayVec<u8, FINDING_LIMIT>
    ensures { result.items ≡ 5 ∷ number_bytes number }
{
    let mut out = tagged(5);
    put_number(&mut out, number);
    out
}

fn places_finding(
    first: &TierFigures,
    second: &TierFigures,
    third: &TierFigures,
) -> ArrayVec<u8, FINDING_LIMIT>
    ensures { result.items ≡ 8 ∷ (tier_bytes (tier_shown first.now) ++ tier_bytes (tier_shown second.now) ++ tier_bytes (tier_shown third.now)) }
{
    let mut out = tagged(8);
    put_tier(&mut out, first);
    put_tier(&mut out, second);
    put_tier(&mut out, third);
    out
}

/// The number of why a client may not ask.
fn denial(why: AccessFault) -> u8
    ensures { result ≡ denial_code why }
{
    match why {
        AccessFault::UnknownClient => 1,
        AccessFault::NoSuchNode => 2,
        AccessFault::NotDirectory => 3,
        AccessFault::IsDirectory => 4,
        AccessFault::NoSearch => 5,
        AccessFault::NoRead => 6,
    }
}

/// The byte that says whether there is more.
fn flag(more: bool) -> u8
    ensures { result ≡ more_byte more }
{
    if more { 1 } else { 0 }
}

/// Appends a number, or that there is none. Condition: there is room for 5 bytes.
#[tactic(auto, unfolding(kfs_model::specs::Spelling::number32))]
fn put_number(out: &mut ArrayVec<u8, FINDING_LIMIT>, number: Option<u32>)
    requires { array_vec_len out.old + 5 ≤ 25 }
    ensures { out.new.items ≡ out.old.items ++ number_bytes number }
{
    match number {
        Some(number) => {
            out.push(1);
            put(out, &number.to_be_bytes());
        }
        None => out.push(0),
    }
}

/// Appends the places of a tier. Condition: there is room for 8 bytes.
#[tactic(auto, unfolding(kfs_model::specs::Spelling::number32))]
fn put_tier(out: &mut ArrayVec<u8, FINDING_LIMIT>, tier: &TierFigures)
    requires { array_vec_len out.old + 8 ≤ 25 }
    ensures items { out.new.items ≡ out.old.items ++ tier_bytes (tier_shown tier.now) }
    ensures len { array_vec_len out.new ≡ array_vec_len out.old + 8 }
{
    put(out, &tier.size.to_be_bytes());
    put(out, &tier.free.to_be_bytes());
}

/// Appends the header of a node, or that there is none. Condition: there is room for 21 bytes.
fn put_header(out: &mut ArrayVec<u8, FINDING_LIMIT>, header: Option<Header>)
    requires { array_vec_len out.old + 21 ≤ 25 }
    ensures { out.new.items ≡ out.old.items ++ header_bytes (option_map header_of header) }
{
    match header {
        Some(header) => put_fields(out, header),
        None => out.push(0),
    }
}

/// Appends the fields of a header. Condition: there is room for 21 bytes.
#[tactic(auto, unfolding(kfs_model::specs::Spelling::number16, kfs_model::specs::Spelling::number32, kfs_model::specs::Spelling::number64))]
fn put_fields(out: &mut ArrayVec<u8, FINDING_LIMIT>, header: Header)
    requires { array_vec_len out.old + 21 ≤ 25 }
    ensures { out.new.items ≡ out.old.items ++ header_bytes (Some (header_of header)) }
{
    put_kind(out, header.kind);
    put(out, &header.mode.to_be_bytes());
    put(out, &header.uid.to_be_bytes());
    put(out, &header.gid.to_be_bytes());
    put(out, &header.links.to_be_bytes());
    put(out, &header.size.to_be_bytes());
}

/// Appends the byte of a node's kind. Condition: there is room for it.
fn put_kind(out: &mut ArrayVec<u8, FINDING_LIMIT>, kind: Kind)
    requires { array_vec_len out.old + 1 ≤ 25 }
    ensures items { out.new.items ≡ out.old.items ++ state_bytes (kind_of kind) }
    ensures len { array_vec_len out.new ≡ array_vec_len out.old + 1 }
{
    match kind {
        Kind::File => out.push(1),
        Kind::Directory => out.push(2),
    }
}

/// Appends figures. Condition: there is room for 24 bytes.
#[tactic(auto, unfolding(kfs_model::specs::Spelling::number32, kfs_model::specs::Spelling::number64))]
fn put_figures(out: &mut ArrayVec<u8, FINDING_LIMIT>, figures: &Figures)
    requires { array_vec_len out.old + 24 ≤ 25 }
    ensures { out.new.items ≡ out.old.items ++ number64 figures.now.moment ++ number32 figures.now.rows ++ number32 figures.now.first ++ number32 figures.now.second ++ number32 figures.now.third }
{
    put(out, &figures.moment.to_be_bytes());
    put(out, &figures.rows.to_be_bytes());
    put(out, &figures.first.to_be_bytes());
    put(out, &figures.second.to_be_bytes());
    put(out, &figures.third.to_be_bytes());
}
