//! The words of a command line: names, decimal numbers, hexadecimal text. Where a byte stands.
ghost use Rattle.std.specs.Prelude.{◌≡◌, ◌==◌, ◌<◌, ◌≤◌, [], ◌∷◌, ◌++◌, ◌/◌, length, None, Some, option_map, position, take, IfErr, IfOk, OnOk, IsTrue, IsFalse};
ghost use Rattle.kfs_program_text.specs.Cut.{cut, space};
ghost use Rattle.kfs_program_text.specs.Decimals.{both_of, decimal32, decimal64, decimal_within, decimals32, hexadecimal};
ghost use Rattle.kfs_program_text.specs.Reading.{ReadsAs, ReadsExactly, both_hexadecimal, ended, first_by, only, words_left};

use crate::digits::decode_into;
use arrayvec::ArrayVec;
use memchr::memchr;
use std::alloc::{AllocError, AllocFailed, Allocator};

/// Why a line isn't answered otherwise. The state is as it was before the line.
#[derive(Clone, Copy, Debug, PartialEq, Eq)]
pub enum Refusal {
    /// The line isn't a command, comes at the wrong time, or has a number out of range.
    BadLine,
    /// Memory was refused.
    OutOfMemory,
}

impl From<AllocError> for Refusal {
    ghost use Rattle.kfs_program_text.specs.declared.words.Refusal.TheVariants.{OutOfMemory};
    ghost use Rattle.std.specs.Prelude.{◌≡◌};

    ghost from_gives = { λ _ refusal. refusal ≡ OutOfMemory };

    fn from(_error: AllocError) -> Refusal {
        Refusal::OutOfMemory
    }
}

impl<T: Drop> From<AllocFailed<T>> for Refusal {
    ghost use Rattle.kfs_program_text.specs.declared.words.Refusal.TheVariants.{OutOfMemory};
    ghost use Rattle.std.specs.Prelude.{◌≡◌};

    ghost from_gives = { λ _ refusal. refusal ≡ OutOfMemory };

    fn from(_error: AllocFailed<T>) -> Refusal {
        Refusal::OutOfMemory
    }
}

/// The words of a line that aren't read yet. A word has at least one byte, and one space is between two
/// words.
#[derive(Clone, Copy, Debug)]
pub struct Words<'a> {
    rest: Option<&'a [u8]>,
}

impl<'a> Words<'a> {
    /// All words of `line`, which has no line's end.
    pub fn new(line: &'a [u8]) -> Words<'a>
        ensures { words_left result ≡ cut space line.now }
    {
        Words { rest: Some(line) }
    }

    /// The next word.
    #[tactic(auto, unfolding(crate::specs::Reading::first_by))]
    pub fn word(&mut self) -> Result<&'a [u8], Refusal>
        ensures { ReadsExactly (λ word. (word.now, words_left self.new)) (first_by (λ word. Some word) (words_left self.old)) result }
    {
        let rest = self.rest.ok_or(Refusal::BadLine)?;
        let end = near_space(rest);
        self.take_word(rest, end)
    }

    /// The next word, which is long.
    #[tactic(auto, unfolding(crate::specs::Reading::first_by))]
    fn long_word(&mut self) -> Result<&'a [u8], Refusal>
        ensures { ReadsExactly (λ word. (word.now, words_left self.new)) (first_by (λ word. Some word) (words_left self.old)) result }
    {
        let rest = self.rest.ok_or(Refusal::BadLine)?;
        let end = first_space(rest);
        self.take_word(rest, end)
    }

    /// The word at the beginning of the bytes that are left. `end` is the place of their first space.
    #[tactic(auto, unfolding(crate::specs::Reading::first_by))]
    fn take_word(&mut self, rest: &'a [u8], end: Option<usize>) -> Result<&'a [u8], Refusal>
        requires rest { words_left self.old ≡ cut space rest.now }
        requires end { end ≡ position (λ byte. byte == space) rest.now }
        ensures { ReadsExactly (λ word. (word.now, words_left self.new)) (first_by (λ word. Some word) (words_left self.old)) result }
    {
        let (word, behind) = parts_at(rest, end);
        self.rest = behind;
        if word.is_empty() {
            return Err(Refusal::BadLine);
        }
        Ok(word)
    }

    /// The next word, as a decimal number of at most `most`. Leading zeros are allowed, signs aren't.
    #[tactic(auto, unfolding(crate::specs::Reading::first_by))]
    pub fn number(&mut self, most: u64) -> Result<u64, Refusal>
        ensures range { IfOk result (λ n. n ≤ most) }
        ensures read { ReadsExactly (λ n. (n, words_left self.new)) (first_by (decimal_within most) (words_left self.old)) result }
    {
        number_in(self.word()?, most).ok_or(Refusal::BadLine)
    }

    /// The next word, as a decimal number of 32 bits.
    pub fn number32(&mut self) -> Result<u32, Refusal>
        ensures { ReadsAs (λ n. (n, words_left self.new)) (first_by decimal32 (words_left self.old)) result }
    {
        Ok(self.number(u64::from(u32::MAX))? as u32)
    }

    /// The next word, as a decimal number of 64 bits.
    pub fn number64(&mut self) -> Result<u64, Refusal>
        ensures { ReadsAs (λ n. (n, words_left self.new)) (first_by decimal64 (words_left self.old)) result }
    {
        self.number(u64::MAX)
    }

    /// The only word left, as a decimal number of 32 bits.
    pub fn only_number32(&mut self) -> Result<u32, Refusal>
        ensures { ReadsAs (λ n. n) (only decimal32 (words_left self.old)) result }
    {
        let number = self.number32()?;
        self.end()?;
        Ok(number)
    }

    /// The only word left, as a decimal number of 64 bits.
    pub fn only_number64(&mut self) -> Result<u64, Refusal>
        ensures { ReadsAs (λ n. n) (only decimal64 (words_left self.old)) result }
    {
        let number = self.number64()?;
        self.end()?;
        Ok(number)
    }

    /// All words left, as decimal numbers of 32 bits. Only the first `N` are kept.
    pub fn numbers<const N: usize>(&mut self) -> Result<ArrayVec<u32, N>, Refusal>
        ensures { ReadsAs (λ numbers. numbers.items) (option_map (λ ns. take N ns) (decimals32 (words_left self.old))) result }
    {
        let mut numbers = ArrayVec::new();
        while self.rest.is_some() {
            keep(&mut numbers, self.number32()?);
        }
        Ok(numbers)
    }

    /// The next word, as bytes in hexadecimal, in either case; `-` is no bytes.
    #[tactic(auto, unfolding(crate::specs::Reading::first_by))]
    pub fn bytes<A: Allocator>(&mut self, alloc: A) -> Result<Vec<u8, A>, Refusal>
        ensures { ReadsAs (λ bytes. (bytes.items, words_left self.new)) (first_by hexadecimal (words_left self.old)) result }
    {
        bytes_in(alloc, self.long_word()?)
    }

    /// The only two words left, as bytes in hexadecimal, in either case; `-` is no bytes. They are put into `room`, which
    /// takes memory only where it is too short: so a caller with many lines gives it again.
    pub fn last_bytes<'r, A: Allocator>(
        mut self,
        alloc: A,
        room: &'r mut Vec<u8, A>,
    ) -> Result<(&'r [u8], &'r [u8]), Refusal>
        ensures { ReadsAs (λ pair. (pair.0.now, pair.1.now)) (both_hexadecimal (words_left self.entry)) result }
    {
        let front = self.long_word()?;
        let back = self.all_left()?;
        both_in(alloc, front, back, room)
    }

    /// All that is left of the line. It is the last word, unless it has a space.
    #[tactic(auto, unfolding(crate::specs::Reading::first_by, crate::specs::Cut::cut))]
    fn all_left(&self) -> Result<&'a [u8], Refusal>
        ensures ok { IfOk result (λ text. (words_left self.now ≡ cut space text.now) × (0 < length text.now)) }
        ensures bad { IfErr result (λ refusal. (refusal ≡ Refusal.BadLine) × (first_by (λ word. Some word) (words_left self.now) ≡ None)) }
    {
        let rest = self.rest.ok_or(Refusal::BadLine)?;
        if rest.is_empty() {
            return Err(Refusal::BadLine);
        }
        Ok(rest)
    }

    /// Refuses the line, if a word is left.
    #[tactic(auto, using(crate::proofs::WordsCut::cut_not_ended), unfolding(crate::specs::Reading::ended))]
    pub fn end(&self) -> Result<(), Refusal>
        ensures { ReadsExactly (λ done. done) (ended (words_left self.now)) result }
    {
        match self.rest {
            Some(_) => Err(Refusal::BadLine),
            None => Ok(()),
        }
    }
}

/// The text before its first space, which is at `end`, and the text after it, if there is a space.
fn parts_at(text: &[u8], end: Option<usize>) -> (&[u8], Option<&[u8]>)
    requires { end ≡ position (λ byte. byte == space) text.now }
    ensures { cut space text.now ≡ result.0.now ∷ words_left (record { rest = result.1 }) }
{
    match end {
        Some(place) => (&text[..place], Some(&text[place + 1..])),
        None => (text, None),
    }
}

fn first_space(text: &[u8]) -> Option<usize>
    ensures { result ≡ position (λ byte. byte == space) text.now }
{
    first_place(b' ', text)
}

/// So many bytes are looked at one by one: a word is mostly shorter than what many at once would take.
const NEAR: usize = 8;

/// The same as `first_space`, and faster where the space is near.
fn near_space(text: &[u8]) -> Option<usize>
    ensures { result ≡ position (λ byte. byte == space) text.now }
{
    let (near, far) = text.split_at(text.len().min(NEAR));
    if let Some(place) = space_one_by_one(near) {
        return Some(place);
    }
    let place = first_space(far)?;
    Some(near.len() + place)
}

fn space_one_by_one(text: &[u8]) -> Option<usize>
    ensures { result ≡ position (λ byte. byte == space) text.now }
{
    text.iter().position(|byte| *byte == b' ')
}

/// The word as a decimal number of at most `most`; none where it isn't one.
fn number_in(word: &[u8], most: u64) -> Option<u64>
    ensures { result ≡ decimal_within most word.now }
{
    if word.is_empty() {
        return None;
    }
    let mut number: u64 = 0;
    for byte in word {
        if !byte.is_ascii_digit() {
            return None;
        }
        let tens = number.checked_mul(10)?;
        number = tens.checked_add(u64::from(*byte - b'0'))?;
    }
    if number > most { None } else { Some(number) }
}

/// Appends the number, if there is room.
fn keep<const N: usize>(numbers: &mut ArrayVec<u32, N>, number: u32)
    ensures { numbers.new.items ≡ take N (numbers.old.items ++ number ∷ []) }
{
    // Where the list is full, the number is left out, as the clause says. So the refusal is dropped.
    let _ = numbers.try_push(number);
}

/// The word as bytes in hexadecimal, in either case; `-` is no bytes.
fn bytes_in<A: Allocator>(alloc: A, word: &[u8]) -> Result<Vec<u8, A>, Refusal>
    ensures { ReadsAs (λ bytes. bytes.items) (hexadecimal word.now) result }
{
    let mut bytes = vec![in alloc; 0u8; word.len() / 2]?;
    if !decode_word(word, bytes.as_mut_slice()) {
        return Err(Refusal::BadLine);
    }
    Ok(bytes)
}

/// How long a list for words as bytes is at least, so that the next lines find room.
const LEAST_ROOM: usize = 4_096;

/// Two words as bytes, which are put into `room`.
fn both_in<'r, A: Allocator>(
    alloc: A,
    front: &[u8],
    back: &[u8],
    room: &'r mut Vec<u8, A>,
) -> Result<(&'r [u8], &'r [u8]), Refusal>
    ensures { ReadsAs (λ pair. (pair.0.now, pair.1.now)) (both_of front.now back.now) result }
{
    let (front_len, back_len) = (front.len() / 2, back.len() / 2);
    make_room(alloc, room, front_len + back_len)?;
    let (front_room, others) = room.as_mut_slice().split_at_mut(front_len);
    let back_room = &mut others[..back_len];
    if !decode_word(front, front_room) || !decode_word(back, back_room) {
        return Err(Refusal::BadLine);
    }
    Ok((front_room, back_room))
}

/// Makes the list at least as long as `len`. What it holds doesn't matter.
fn make_room<A: Allocator>(alloc: A, room: &mut Vec<u8, A>, len: usize) -> Result<(), AllocError>
    ensures { OnOk result (len ≤ length room.new.items) }
{
    if room.len() < len {
        *room = vec![in alloc; 0u8; len.max(LEAST_ROOM)]?;
    }
    Ok(())
}

/// Puts the bytes that the word stands for into the slice, which has one for two digits. Answers whether the word is
/// hexadecimal text.
fn decode_word(word: &[u8], out: &mut [u8]) -> bool
    requires { length out.old ≡ length word.now / 2 }
    ensures yes { IsTrue result → hexadecimal word.now ≡ Some out.new }
    ensures no { IsFalse result → hexadecimal word.now ≡ None }
{
    if word == b"-".as_slice() {
        return true;
    }
    if word.len() % 2 != 0 {
        return false;
    }
    decode_into(word, out)
}

/// The place of the first such byte, or none. Many bytes are compared at once.
pub(crate) fn first_place(byte: u8, bytes: &[u8]) -> Option<usize>
    ensures { result ≡ position (λ other. other == byte) bytes.now }
{
    memchr(byte, bytes)
}
