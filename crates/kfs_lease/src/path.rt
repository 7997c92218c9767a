//! Paths from the root to a node (POSIX.1-2017, XBD 4.13, without links).
ghost use Rattle.std.specs.Prelude.{◌≡◌, ◌+◌, ◌==◌, ◌≤◌, ◌∷◌, ℕ, List, length, false, option_map, IsTrue, IsSomeAnd, IfSome, IfNone, IfOk, IfErr, Some, Ok, Err};
ghost use Rattle.std.specs.Option.{option_map_or};
ghost use Rattle.std.specs.List.{list_all, position};
ghost use Rattle.std.specs.Iterator.{at_most, YieldsFirstBy};
ghost use Rattle.kfs_model.specs.Lease as model;
ghost use Rattle.kfs_model.specs.Spelling as spelling;
ghost use Rattle.kfs_image_nodes.specs.Contents.{sight_of};
ghost use Rattle.kfs_model.specs.Table.{get};
ghost use Rattle.kfs_model.specs.Tree.{target};
ghost use Rattle.kfs_model.specs.Sight.{is_directory};
ghost use Rattle.kfs_types.specs.Views.{header_of as header_shown};
ghost use Rattle.kfs_lease.specs.Paths.{left_of, parts_left, walked_along, WalkGoesOn, WalkStops};
ghost use Rattle.kfs_lease.specs.Faults.{fault_of};

use crate::leases::LeaseFault;
use kfs_image_nodes::{Answer, Cell, Header, Kind, Name, Shape, look};
use kfs_mode::{Client, Want, may};
use kfs_types::ROOT;
use std::alloc::Allocator;

/// The parts of a path between its slashes, in order.
#[derive(Clone, Copy)]
pub(crate) struct Parts<'a> {
    /// The bytes that are left, if parts are left.
    rest: Option<&'a [u8]>,
}

impl<'a> Iterator for Parts<'a> {
    type Item = &'a [u8];

    ghost next_gives = { YieldsFirstBy (λ part. part.now) parts_left };

    ghost remaining = { λ parts. at_most (option_map_or (λ rest. length rest.now + 1) parts.rest 0) };

    fn next(&mut self) -> Option<&'a [u8]> {
        let (part, rest) = split_part(self.rest?);
        self.rest = rest;
        Some(part)
    }
}

/// The bytes before the first slash, and those after it, if there is a slash.
fn split_part(bytes: &[u8]) -> (&[u8], Option<&[u8]>)
    ensures parts { model.parts_of bytes.now ≡ result.0.now ∷ left_of result.1 }
    ensures shorter { option_map_or (λ rest. length rest.now + 1) result.1 0 ≤ length bytes.now }
{
    match slash_in(bytes) {
        Some(place) => (&bytes[..place], Some(&bytes[place + 1..])),
        None => (bytes, None),
    }
}

/// The index of the first slash.
fn slash_in(bytes: &[u8]) -> Option<usize>
    ensures { result ≡ position (λ byte. byte == spelling.slash) bytes.now }
{
    bytes.iter().position(|byte| *byte == b'/')
}

/// The names of a path, in order; none where it is neither `/` nor names with one `/` before each.
pub(crate) fn names_of(path: &[u8]) -> Option<Parts<'_>>
    ensures { option_map parts_left result ≡ model.names_of path.now }
{
    let parts = match path {
        [b'/'] => Parts { rest: None },
        [b'/', rest @ ..] => Parts { rest: Some(rest) },
        _ => return None,
    };
    if are_names(parts) { Some(parts) } else { None }
}

fn are_names(parts: Parts<'_>) -> bool
    ensures { result ≡ list_all spelling.is_name (parts_left parts.entry) }
{
    for part in parts {
        if !is_name(part) {
            return false;
        }
    }
    true
}

fn is_name(bytes: &[u8]) -> bool
    ensures { result ≡ spelling.is_name bytes.now }
{
    Name::is_name(bytes)
}

/// The number of the node to which the names lead from the root. Refused at the least component that
/// fails; there the order is `NotDirectory`, `NoSearch`, `NoSuchName`.
pub(crate) fn walk<A: Allocator>(
    shape: &Shape<A>,
    client: &Client,
    names: Parts<'_>,
) -> Result<u32, LeaseFault>
    requires { IsTrue (list_all spelling.is_name (parts_left names)) }
    ensures ok { IfOk result (λ number. walked_along (sight_of shape.now) client.now names.entry ≡ Ok number) }
    ensures err { IfErr result (λ fault. IsSomeAnd (fault_of fault) (λ f. walked_along (sight_of shape.now) client.now names.entry ≡ Err f)) }
{
    let mut number = ROOT;
    for (index, name) in names.enumerate() {
        number = step(shape, client, number, name, index)?;
    }
    Ok(number)
}

/// Goes from a directory to the node that its name leads to.
fn step<A: Allocator>(
    shape: &Shape<A>,
    client: &Client,
    dir: u32,
    component: &[u8],
    index: usize,
) -> Result<u32, LeaseFault>
    requires { IsTrue (spelling.is_name component.now) }
    ensures ok { IfOk result (λ next. WalkGoesOn (sight_of shape.now) client.now dir index component.now next) }
    ensures err { IfErr result (λ fault. WalkStops (sight_of shape.now) client.now dir index component.now fault) }
{
    let Some(header) = directory(shape, dir) else {
        return Err(LeaseFault::NotDirectory(index));
    };
    if !may(client, header.uid, header.gid, header.mode, Want::Search) {
        return Err(LeaseFault::NoSearch(index));
    }
    match target_of(shape, dir, component) {
        Some(number) => Ok(number),
        None => Err(LeaseFault::NoSuchName(index)),
    }
}

/// The header of a directory; none where the number isn't a directory's.
fn directory<A: Allocator>(shape: &Shape<A>, number: u32) -> Option<Header>
    ensures header { IfSome result (λ header. get shape.now.heads number ≡ Some (header_shown header)) }
    ensures kind { IfSome result (λ header. IsTrue (is_directory (Some (header_shown header)))) }
    ensures none { IfNone result (is_directory (get shape.now.heads number) ≡ false) }
{
    match look(shape, &Cell::Header(number)) {
        Answer::Header(Some(header)) => match header.kind {
            Kind::Directory => Some(header),
            Kind::File => None,
        },
        _ => None,
    }
}

/// The number that a directory's name leads to, or none.
#[tactic(auto, using(kfs_model::proofs::NameTest::is_name_sound))]
fn target_of<A: Allocator>(shape: &Shape<A>, dir: u32, name: &[u8]) -> Option<u32>
    requires { IsTrue (spelling.is_name name.now) }
    ensures { result ≡ target shape.now.names dir name.now }
{
    shape.target(&(dir, Name::new(name)?))
}
