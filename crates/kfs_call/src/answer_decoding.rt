//! Answers from bytes.
ghost use Rattle.std.specs.Prelude.{◌≡◌, ◌≤◌, length, drop, Ok, IfOk};
ghost use Rattle.kfs_call.specs.AnswerRow as spelled;
ghost use Rattle.kfs_call.specs.AnswerRow.{DecodedAnswer, IsAnswerRow, answer_bytes};
ghost use Rattle.kfs_call.specs.Reading.{IsSeen, OnAnswer};
ghost use Rattle.kfs_call.specs.AnswerViews.{told_shown, answer_shown};
ghost use Rattle.kfs_call.specs.AnswerReaders.{yes_read, no_read, no_room_read, leased_read, dropped_read, ticked_read, moved_read, lease_refused_read, moves_refused_read, told_read, answer_read};

use crate::answer::{AnswerRow, Told};
use crate::codec::answer_tag::AnswerTag;
use crate::codec::{answer_tag, fault_row, flag};
use crate::fault::FieldFault;
use kfs_entry::codec::{number32, number64};

fn read_yes(source: &[u8], at: usize) -> Result<(Told, usize), FieldFault>
    requires { at ≤ length source.now }
    ensures value { IsSeen told_shown source.now result (yes_read (drop at source.now)) }
    ensures within { IfOk result (λ x. x.1 ≤ length source.now) }
{
    let Some((rejudged, at)) = flag::read(source, at) else {
        return Err(FieldFault::BadField(2));
    };
    let Some((need, at)) = number64::read(source, at) else {
        return Err(FieldFault::BadField(3));
    };
    Ok((Told::Yes { rejudged, need }, at))
}

fn read_no(source: &[u8], at: usize) -> Result<(Told, usize), FieldFault>
    requires { at ≤ length source.now }
    ensures value { IsSeen told_shown source.now result (no_read (drop at source.now)) }
    ensures within { IfOk result (λ x. x.1 ≤ length source.now) }
{
    let Some((rejudged, at)) = flag::read(source, at) else {
        return Err(FieldFault::BadField(2));
    };
    let Some((fault, at)) = fault_row::read(source, at) else {
        return Err(FieldFault::BadField(3));
    };
    Ok((Told::No { rejudged, fault }, at))
}

fn read_no_room(source: &[u8], at: usize) -> Result<(Told, usize), FieldFault>
    requires { at ≤ length source.now }
    ensures value { IsSeen told_shown source.now result (no_room_read (drop at source.now)) }
    ensures within { IfOk result (λ x. x.1 ≤ length source.now) }
{
    let Some((rejudged, at)) = flag::read(source, at) else {
        return Err(FieldFault::BadField(2));
    };
    let Some((need, at)) = number64::read(source, at) else {
        return Err(FieldFault::BadField(3));
    };
    let Some((free, at)) = number32::read(source, at) else {
        return Err(FieldFault::BadField(4));
    };
    Ok((
        Told::NoRoom {
            rejudged,
            need,
            free,
        },
        at,
    ))
}

fn read_leased(source: &[u8], at: usize) -> Result<(Told, usize), FieldFault>
    requires { at ≤ length source.now }
    ensures value { IsSeen told_shown source.now result (leased_read (drop at source.now)) }
    ensures within { IfOk result (λ x. x.1 ≤ length source.now) }
{
    let Some((number, at)) = number32::read(source, at) else {
        return Err(FieldFault::BadField(2));
    };
    Ok((Told::Leased(number), at))
}

fn read_dropped(source: &[u8], at: usize) -> Result<(Told, usize), FieldFault>
    requires { at ≤ length source.now }
    ensures value { IsSeen told_shown source.now result (dropped_read (drop at source.now)) }
    ensures within { IfOk result (λ x. x.1 ≤ length source.now) }
{
    let Some((number, at)) = number32::read(source, at) else {
        return Err(FieldFault::BadField(2));
    };
    Ok((Told::Dropped(number), at))
}

fn read_ticked(source: &[u8], at: usize) -> Result<(Told, usize), FieldFault>
    requires { at ≤ length source.now }
    ensures value { IsSeen told_shown source.now result (ticked_read (drop at source.now)) }
    ensures within { IfOk result (λ x. x.1 ≤ length source.now) }
{
    let Some((number, at)) = number64::read(source, at) else {
        return Err(FieldFault::BadField(2));
    };
    Ok((Told::Ticked(number), at))
}

fn read_moved(source: &[u8], at: usize) -> Result<(Told, usize), FieldFault>
    requires { at ≤ length source.now }
    ensures value { IsSeen told_shown source.now result (moved_read (drop at source.now)) }
    ensures within { IfOk result (λ x. x.1 ≤ length source.now) }
{
    let Some((number, at)) = number32::read(source, at) else {
        return Err(FieldFault::BadField(2));
    };
    Ok((Told::Moved(number), at))
}

fn read_lease_refused(source: &[u8], at: usize) -> Result<(Told, usize), FieldFault>
    requires { at ≤ length source.now }
    ensures value { IsSeen told_shown source.now result (lease_refused_read (drop at source.now)) }
    ensures within { IfOk result (λ x. x.1 ≤ length source.now) }
{
    let Some((fault, at)) = fault_row::read(source, at) else {
        return Err(FieldFault::BadField(2));
    };
    Ok((Told::LeaseRefused(fault), at))
}

fn read_moves_refused(source: &[u8], at: usize) -> Result<(Told, usize), FieldFault>
    requires { at ≤ length source.now }
    ensures value { IsSeen told_shown source.now result (moves_refused_read (drop at source.now)) }
    ensures within { IfOk result (λ x. x.1 ≤ length source.now) }
{
    let Some((fault, at)) = fault_row::read(source, at) else {
        return Err(FieldFault::BadField(2));
    };
    Ok((Told::MovesRefused(fault), at))
}

/// What the tag says, and the position after it.
fn read_told(tag: AnswerTag, source: &[u8], at: usize) -> Result<(Told, usize), FieldFault>
    requires { at ≤ length source.now }
    ensures value { IsSeen told_shown source.now result (told_read tag (drop at source.now)) }
    ensures within { IfOk result (λ x. x.1 ≤ length source.now) }
{
    match tag {
        AnswerTag::Yes => read_yes(source, at),
        AnswerTag::No => read_no(source, at),
        AnswerTag::NoRoom => read_no_room(source, at),
        AnswerTag::Leased => read_leased(source, at),
        AnswerTag::Dropped => read_dropped(source, at),
        AnswerTag::Ticked => read_ticked(source, at),
        AnswerTag::Moved => read_moved(source, at),
        AnswerTag::LeaseRefused => read_lease_refused(source, at),
        AnswerTag::MovesRefused => read_moves_refused(source, at),
    }
}

/// An answer at the front, and the position after it.
#[tactic(auto, unfolding(crate::specs::AnswerReaders::answer_read))]
fn read_answer(source: &[u8]) -> Result<(AnswerRow, usize), FieldFault>
    ensures value { IsSeen answer_shown source.now result (answer_read (drop 0 source.now)) }
    ensures within { IfOk result (λ x. x.1 ≤ length source.now) }
{
    let Some((position, at)) = number32::read(source, 0) else {
        return Err(FieldFault::BadField(0));
    };
    let Some((tag, at)) = answer_tag::read(source, at) else {
        return Err(FieldFault::BadField(1));
    };
    match read_told(tag, source, at) {
        Ok((told, at)) => Ok((AnswerRow { position, told }, at)),
        Err(fault) => Err(fault),
    }
}

/// Reads an answer from bytes. All of `source` must be the answer. Refused with `BadField(k)` or
/// `Trailing` where the bytes leave the format. Takes no memory.
pub fn decode_answer(source: &[u8]) -> Result<AnswerRow, FieldFault>
    // Soundness: the answer is right for these bytes.
    ensures found { OnAnswer answer_shown (DecodedAnswer source.now) result }
    // Completeness: the bytes of an answer are that answer.
    ensures only { (answer : spelled.AnswerRow) → IsAnswerRow answer → source.now ≡ answer_bytes answer → OnAnswer answer_shown (λ given. given ≡ Ok answer) result }
{
    let (answer, end) = read_answer(source)?;
    if end < source.len() {
        return Err(FieldFault::Trailing);
    }
    Ok(answer)
}
