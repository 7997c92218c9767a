//! A writer in front of another one. It holds texts back, so that several are written at once. Writing
//! whole texts.
ghost use Rattle.std.specs.Prelude.{◌≡◌, ◌++◌, ℕ, List, [], IsFalse, IsTrue, OnOk, OnErr, ◌≤◌, length, take, IfOk};
ghost use Rattle.std.specs.Io.KnownBytes.{Keeps, append_known, Appends, WriteAppends};
ghost use Rattle.kfs_program_text.specs.HeldOutput.{HasGrown, contents_with};
ghost use Rattle.kfs_program_text.specs.Streams.{IsWritten, Writes};

use crate::fault::OutputFault;
use std::alloc::Allocator;
use std::io::{ErrorKind, Write};
use std::marker::Model;
use std::snapshot::Snapshot;

/// The most bytes that are held back.
const MOST_HELD: usize = 65_536;

/// Holds back what is written, up to 65,536 bytes, until it is flushed or closed.
#[derive(Drop)]
pub struct HeldBack<'w, W: Write, A: Allocator> {
    inner: &'w mut W,
    held: Vec<u8, A>,
    /// How many of the held bytes the inner writer took before it failed.
    taken: usize,
    first: Snapshot<&'w mut W>,
}

impl<'w, W: Write, A: Allocator> Model for HeldBack<'w, W, A> {
    ghost use Rattle.std.specs.Prelude.{◌≡◌, ◌≤◌, length, drop};
    ghost use Rattle.kfs_program_text.specs.HeldOutput.{HasGrown, HeldOutput};

    ghost Value = { HeldOutput W };

    ghost view = { λ h. record { first = h.first.value; inner = h.inner; held = drop h.taken h.held.items } };

    ghost invariant = { λ h. HasGrown (W.contents h.first.value.now) (W.contents h.inner.now) × (h.taken ≤ length h.held.items) × (h.inner.ghost_name ≡ h.first.value.ghost_name) };
}

impl<'w, W: Write, A: Allocator> HeldBack<'w, W, A> {
    /// A writer in front of this one. Takes no memory yet.
    pub fn new(alloc: A, inner: &'w mut W) -> HeldBack<'w, W, A>
        ensures first { result.first.now ≡ inner.old }
        ensures reference { result.first.ghost_name ≡ inner.entry.ghost_name }
        ensures contents { Keeps (W.contents inner.old) (contents_with W.contents result) }
    {
        let first = Snapshot::of(&inner);
        HeldBack {
            inner,
            held: Vec::new(alloc),
            taken: 0,
            first,
        }
    }

    /// Writes the text after all that was written before, or holds it back. After `Err`, where the
    /// inner writer failed, only a first part of all is written or held.
    pub fn write(&mut self, text: &[u8]) -> Result<(), OutputFault>
        ensures text { Writes (contents_with W.contents self.old) (contents_with W.contents self.new) (IsWritten result text.now) }
        ensures first { self.new.first ≡ self.old.first }
    {
        if self.hold(text) {
            return Ok(());
        }
        self.write_held()?;
        write_whole(self.inner, text)
    }

    /// Writes what is held, and flushes the inner writer.
    pub fn flush(&mut self) -> Result<(), OutputFault>
        ensures bytes { Keeps (contents_with W.contents self.old) (contents_with W.contents self.new) }
        ensures first { self.new.first ≡ self.old.first }
    {
        self.write_held()?;
        flush(self.inner)
    }

    /// Writes what is held, and answers the inner writer. After `Err` only a first part of all is
    /// written.
    pub fn close(self) -> (&'w mut W, Result<(), OutputFault>)
        ensures reference { result.0.ghost_name ≡ self.entry.first.ghost_name }
        ensures grown { HasGrown (W.contents self.entry.first.now) (W.contents result.0.now) }
        ensures all { OnOk result.1 (Keeps (contents_with W.contents self.entry) (W.contents result.0.now)) }
        ensures part { OnErr result.1 ((rest : List ℕ) × Keeps (contents_with W.contents self.entry) (append_known (W.contents result.0.now) rest)) }
    {
        let HeldBack {
            inner,
            held,
            taken,
            first: _,
        } = self;
        let (_count, ended) = write_out(inner, &held[taken..]);
        (inner, ended)
    }

    /// Holds the text back, if it fits and memory isn't refused. Answers whether it did.
    fn hold(&mut self, text: &[u8]) -> bool
        ensures held { IsTrue result → (self.new.held ≡ self.old.held ++ text.now) × (self.new.inner ≡ self.old.inner) }
        ensures kept { IsFalse result → self.new ≡ self.old }
        ensures first { self.new.first ≡ self.old.first }
    {
        let len = self.held.len().saturating_add(text.len());
        if len > MOST_HELD {
            return false;
        }
        self.held.extend_from_slice(text).is_ok()
    }

    /// Writes what is held. What can't be written stays held.
    fn write_held(&mut self) -> Result<(), OutputFault>
        ensures bytes { Keeps (contents_with W.contents self.old) (contents_with W.contents self.new) }
        ensures first { self.new.first ≡ self.old.first }
        ensures empty { OnOk result (self.new.held ≡ []) }
    {
        let (count, ended) = write_out(self.inner, &self.held[self.taken..]);
        self.taken += count;
        ended?;
        self.held.clear();
        self.taken = 0;
        Ok(())
    }
}

/// After how many writes a writer counts as one that never takes all.
const MOST_WRITES: u64 = 1 << 32;

/// Writes all bytes. After `Err` only a first part of them is written.
pub fn write_whole<W: Write>(writer: &mut W, bytes: &[u8]) -> Result<(), OutputFault>
    ensures { Writes (W.contents writer.old) (W.contents writer.new) (IsWritten result bytes.now) }
{
    let (_count, ended) = write_out(writer, bytes);
    ended
}

/// Writes all bytes, and answers how many of them the writer took: all, unless it failed.
pub(crate) fn write_out<W: Write>(writer: &mut W, bytes: &[u8]) -> (usize, Result<(), OutputFault>)
    ensures bound { result.0 ≤ length bytes.now }
    ensures all { OnOk result.1 (result.0 ≡ length bytes.now) }
    ensures text { Appends (W.contents writer.old) (W.contents writer.new) (take result.0 bytes.now) }
{
    let mut count = 0;
    'writes: for _ in 0..MOST_WRITES {
        if count == bytes.len() {
            return (count, Ok(()));
        }
        match write_some(writer, &bytes[count..]) {
            Ok(more) => count += more,
            Err(fault) => return (count, Err(fault)),
        }
    }
    (count, Err(OutputFault))
}

/// Flushes the writer. Nothing is written by that.
pub fn flush<W: Write>(writer: &mut W) -> Result<(), OutputFault>
    ensures { Keeps (W.contents writer.old) (W.contents writer.new) }
{
    writer.flush().map_err(|_| OutputFault)
}

/// How many bytes one write took; 0 where it was interrupted.
fn write_some<W: Write>(writer: &mut W, bytes: &[u8]) -> Result<usize, OutputFault>
    ensures count { IfOk result (λ count. count ≤ length bytes.now) }
    ensures text { WriteAppends (W.contents writer.old) (W.contents writer.new) result bytes.now }
{
    match writer.write(bytes) {
        Ok(0) => Err(OutputFault),
        Ok(count) => Ok(count),
        Err(error) if error.kind() == ErrorKind::Interrupted => Ok(0),
        Err(_) => Err(OutputFault),
    }
}
