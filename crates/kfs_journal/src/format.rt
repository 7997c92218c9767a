//! Heads and records as bytes: how they are read, and what is written. The crate's head has the format.
ghost use Rattle.std.specs.Prelude.{◌≡◌, ◌<◌, ◌^◌, [], ◌∷◌, ◌++◌, length, option_map, IfOk, OnOk};
ghost use Rattle.std.specs.Int.{w32, w64, to_be_bytes};
ghost use Rattle.kfs_journal.specs.Format.{sized, group_at, head_at, magic, record_bytes, Splits};
ghost use Rattle.kfs_journal.specs.Journal.{groups_of};

use std::alloc::{AllocError, Allocator};

/// The first four bytes of a file: KDJL.
const MAGIC: u32 = 0x4b44_4a4c;

/// An open head, and what stands behind it.
#[derive(Clone, Copy)]
pub struct Head<'a> {
    /// The number of the state: it goes up by one with each change of files.
    pub number: u64,
    pub state: &'a [u8],
    /// The records, and an end that isn't one.
    pub rest: &'a [u8],
}

/// The head of a file, and what stands behind it. None where the file has no whole open one.
#[tactic(auto, unfolding(crate::specs::Format::head_at), using(crate::proofs::Heads::head_short))]
pub fn head_of(file: &[u8]) -> Option<Head<'_>>
    ensures { option_map (λ head. ((head.number, head.state.now), head.rest.now)) result ≡ head_at file.now }
{
    // magic, number and gate
    if file.len() < 13 {
        return None;
    }
    let (front, rest) = file.split_at(13);
    if u32::from_be_bytes([front[0], front[1], front[2], front[3]]) != MAGIC || front[12] != 1 {
        return None;
    }
    let number = u64::from_be_bytes([
        front[4], front[5], front[6], front[7], front[8], front[9], front[10], front[11],
    ]);
    let (state, rest) = sized_64(rest)?;
    Some(Head {
        number,
        state,
        rest,
    })
}

/// The group of an open record, and what stands behind it. None where the bytes don't begin with a whole one.
#[tactic(auto, unfolding(crate::specs::Format::group_at))]
pub fn group_of(bytes: &[u8]) -> Option<(&[u8], &[u8])>
    ensures { option_map (λ x. (x.0.now, x.1.now)) result ≡ group_at bytes.now }
{
    match bytes {
        [1, rest @ ..] => sized_32(rest),
        _ => None,
    }
}

/// A length in four bytes, and so many bytes: these, and what stands behind them.
#[tactic(auto, unfolding(crate::specs::Format::sized))]
fn sized_32(bytes: &[u8]) -> Option<(&[u8], &[u8])>
    ensures { option_map (λ x. (x.0.now, x.1.now)) result ≡ sized w32 bytes.now }
{
    if bytes.len() < 4 {
        return None;
    }
    let (front, rest) = bytes.split_at(4);
    let len = u32::from_be_bytes([front[0], front[1], front[2], front[3]]) as usize;
    if rest.len() < len {
        return None;
    }
    Some(rest.split_at(len))
}

/// The same with a length in eight bytes.
#[tactic(auto, unfolding(crate::specs::Format::sized))]
fn sized_64(bytes: &[u8]) -> Option<(&[u8], &[u8])>
    ensures { option_map (λ x. (x.0.now, x.1.now)) result ≡ sized w64 bytes.now }
{
    if bytes.len() < 8 {
        return None;
    }
    let (front, rest) = bytes.split_at(8);
    let len = u64::from_be_bytes([
        front[0], front[1], front[2], front[3], front[4], front[5], front[6], front[7],
    ]) as usize;
    if rest.len() < len {
        return None;
    }
    Some(rest.split_at(len))
}

/// The groups of the whole records, copied, and how many bytes stand behind them.
pub fn read_groups<A: Allocator + Copy>(
    alloc: A,
    bytes: &[u8],
) -> Result<(Vec<Vec<u8, A>, A>, usize), AllocError>
    ensures { IfOk result (λ read. Splits bytes.now (groups_of read.0.items) read.1) }
{
    let mut groups = Vec::new(alloc);
    let mut rest = bytes;
    'records: while let Some((group, after)) = group_of(rest) {
        groups.push(group.to_vec(alloc)?)?;
        rest = after;
    }
    Ok((groups, rest.len()))
}

/// The beginning of a head, with its gate closed.
pub fn head_front<A: Allocator>(alloc: A, number: u64) -> Result<Vec<u8, A>, AllocError>
    ensures { IfOk result (λ bytes. bytes.items ≡ to_be_bytes w32 magic ++ to_be_bytes w64 number ++ 0 ∷ []) }
{
    let mut bytes = Vec::with_capacity(alloc, 13)?;
    bytes.extend_from_slice(&MAGIC.to_be_bytes())?;
    bytes.extend_from_slice(&number.to_be_bytes())?;
    bytes.push(0)?;
    Ok(bytes)
}

/// Appends a group's record, with its gate open. `Err` where memory is refused: a part of it may be there then.
pub fn push_record<A: Allocator>(records: &mut Vec<u8, A>, group: &[u8]) -> Result<(), AllocError>
    requires { length group.now < 2 ^ 32 }
    ensures { OnOk result (records.new.items ≡ records.old.items ++ record_bytes group.now) }
{
    records.push(1)?;
    records.extend_from_slice(&(group.len() as u32).to_be_bytes())?;
    records.extend_from_slice(group)
}
