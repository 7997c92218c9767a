//! Look-ups from bytes.
ghost use Rattle.std.specs.Prelude.{◌≡◌, ◌≤◌, length, drop, option_map};
ghost use Rattle.kfs_server.specs.LookUps.Reading.{after_read, at_end, find_read, leases_read, look_up_read, name_of, names_read, node_read, plan_read, read_read, tagged_read};
ghost use Rattle.kfs_server.specs.LookUps.LookUp as asked;
ghost use Rattle.kfs_server.specs.LookUps.Views.{look_up_shown};

use crate::look_ups::look_up::LookUp;
use kfs_entry::codec::{byte, number32, number64};
use kfs_types::Name;

/// The look-up that these bytes are, if they are one.
pub(crate) fn read_look_up(body: &[u8]) -> Option<LookUp<'_>>
    ensures { option_map look_up_shown result ≡ look_up_read body.entry.now }
{
    let (tag, at) = byte::read(body, 0)?;
    read_tagged(tag, body, at)
}

/// The look-up with this tag, whose fields begin there.
fn read_tagged(tag: u8, body: &[u8], at: usize) -> Option<LookUp<'_>>
    requires { at ≤ length body.now }
    ensures { option_map look_up_shown result ≡ tagged_read tag (drop at body.entry.now) }
{
    match tag {
        0x40 => read_node(body, at),
        0x41 => {
            ends(body, at)?;
            Some(LookUp::State)
        }
        0x42 => {
            ends(body, at)?;
            Some(LookUp::Checkpoint)
        }
        0x43 => read_find(body, at),
        0x44 => read_names(body, at),
        0x45 => read_read(body, at),
        0x46 => {
            ends(body, at)?;
            Some(LookUp::Places)
        }
        0x47 => read_leases(body, at),
        0x48 => Some(LookUp::Plan { log: &body[at..] }),
        _ => None,
    }
}

/// Whether nothing stands behind it.
fn ends(body: &[u8], at: usize) -> Option<()>
    requires { at ≤ length body.now }
    ensures { result ≡ at_end (drop at body.now) }
{
    if at == body.len() { Some(()) } else { None }
}

fn read_node(body: &[u8], at: usize) -> Option<LookUp<'_>>
    requires { at ≤ length body.now }
    ensures { option_map look_up_shown result ≡ node_read (drop at body.entry.now) }
{
    let (number, at) = number32::read(body, at)?;
    ends(body, at)?;
    Some(LookUp::Node { number })
}

fn read_find(body: &[u8], at: usize) -> Option<LookUp<'_>>
    requires { at ≤ length body.now }
    ensures { option_map look_up_shown result ≡ find_read (drop at body.entry.now) }
{
    let (directory, at) = number32::read(body, at)?;
    let name = name_in(&body[at..])?;
    Some(LookUp::Find { directory, name })
}

/// A name.
#[tactic(auto, using(kfs_model::proofs::NameTest::name_tests))]
fn name_in(bytes: &[u8]) -> Option<Name>
    ensures { result ≡ name_of bytes.now }
{
    let name = Name::new(bytes)?;
    Some(name)
}

fn read_names(body: &[u8], at: usize) -> Option<LookUp<'_>>
    requires { at ≤ length body.now }
    ensures { option_map look_up_shown result ≡ names_read (drop at body.entry.now) }
{
    let (directory, at) = number32::read(body, at)?;
    let (limit, at) = number32::read(body, at)?;
    let after = read_after(&body[at..])?;
    Some(LookUp::Names {
        directory,
        limit,
        after,
    })
}

/// No bytes, or a name.
#[tactic(auto, using(kfs_model::proofs::NameTest::name_tests))]
fn read_after(bytes: &[u8]) -> Option<Option<Name>>
    ensures { result ≡ after_read bytes.now }
{
    if bytes.is_empty() {
        return Some(None);
    }
    let name = Name::new(bytes)?;
    Some(Some(name))
}

fn read_read(body: &[u8], at: usize) -> Option<LookUp<'_>>
    requires { at ≤ length body.now }
    ensures { option_map look_up_shown result ≡ read_read (drop at body.entry.now) }
{
    let (file, at) = number32::read(body, at)?;
    let (start, at) = number64::read(body, at)?;
    let (count, at) = number32::read(body, at)?;
    ends(body, at)?;
    Some(LookUp::Read { file, start, count })
}

fn read_leases(body: &[u8], at: usize) -> Option<LookUp<'_>>
    requires { at ≤ length body.now }
    ensures { option_map look_up_shown result ≡ leases_read (drop at body.entry.now) }
{
    let (first, at) = number32::read(body, at)?;
    let (limit, at) = number32::read(body, at)?;
    ends(body, at)?;
    Some(LookUp::Leases { first, limit })
}
