//! The entry Write.
ghost use Rattle.std.specs.Prelude.{◌≡◌, ◌<◌, ◌^◌, ℕ, List, length, ◌+◌, None, Ok, IfOk, OnOk, ◌++◌};
ghost use Rattle.std.specs.Option.{option_map};
ghost use Rattle.kfs_types.specs.Views.{header_of};
ghost use Rattle.kfs_model.specs.Check.{checks_of, payload_fits};
ghost use Rattle.kfs_model.specs.Entry as entry;
ghost use Rattle.kfs_model.specs.SeenAfter as seen;
ghost use Rattle.kfs_judge.specs.Step.Entered.{IsEntered};
ghost use Rattle.kfs_judge.specs.Step.Written.{IsWrittenAt};
ghost use Rattle.kfs_judge_reads.specs.Draft.Overlay.{has_created, ShiftsBy};
ghost use Rattle.kfs_judge.specs.Check.Checks.{AnswersEntry, JudgesAll};

use crate::check::{EntryJudge, Reason};
use crate::step::check::check;
use crate::step::log_judge::LogJudge;
use kfs_image_nodes::Header;
use kfs_judge_reads::Recorder;
use std::alloc::{AllocError, Allocator};

/// Why `len` bytes can't be put into the file `number` from `offset` on; none if it can.
#[tactic(auto, unfolding(kfs_model::specs::Check::checks_of))]
fn write_fault<'e, 's, A: Allocator + Copy>(
    judge: &EntryJudge<'_, 'e, 's, A>,
    recorder: &mut Recorder<'_, 'e, 's, A>,
    number: u32,
    offset: u64,
    len: usize,
) -> Result<Option<Reason>, AllocError>
    ensures { (p : List ℕ) → length p ≡ len → AnswersEntry judge.now recorder.old recorder.new result (entry.Write number offset p) }
{
    check!(judge, recorder;
        Exists(number),
        IsAFile(number),
        MayWrite(number),
        IsLeased(number),
    );
    let rest = end_fault(judge, recorder, offset, len)?;
    Ok(rest)
}

/// Why no file can have `len` bytes from `offset` on; none if one can. A length of 0 fits at any
/// offset.
fn end_fault<'e, 's, A: Allocator + Copy>(
    judge: &EntryJudge<'_, 'e, 's, A>,
    recorder: &mut Recorder<'_, 'e, 's, A>,
    offset: u64,
    len: usize,
) -> Result<Option<Reason>, AllocError>
    ensures { (p : List ℕ) → length p ≡ len → JudgesAll judge.now recorder.old recorder.new result (λ _. payload_fits offset p) }
{
    if len == 0 {
        return Ok(None);
    }
    let end = u128::from(offset) + len as u128;
    check!(judge, recorder; EndIsInRange(end));
    Ok(None)
}

impl<A: Allocator + Copy> LogJudge<'_, '_, '_, A> {
    /// Puts `len` bytes into the file `number` from `offset` on, or answers the reason why not. Their
    /// values don't matter here.
    pub fn write(
        &mut self,
        number: u32,
        offset: u64,
        len: usize,
    ) -> Result<Option<Reason>, AllocError>
        ensures { (p : List ℕ) → length p ≡ len → IsEntered self.old self.new (entry.Write number offset p) result }
    {
        let judge = EntryJudge {
            client: self.client,
            draft: &self.draft,
        };
        let fault = write_fault(&judge, &mut self.recorder, number, offset, len)?;
        if let Some(reason) = fault {
            return Ok(Some(reason));
        }
        let header = judge.header(&mut self.recorder, number)?;
        self.draft.set_header(number, written(header, offset, len))?;
        Ok(None)
    }
}

/// A file's header after `len` bytes are put into it from `offset` on.
fn written(header: Option<Header>, offset: u64, len: usize) -> Option<Header>
    ensures { (p : List ℕ) → length p ≡ len → IsWrittenAt offset p (option_map header_of header) (option_map header_of result) }
{
    match header {
        Some(header) => Some(Header {
            size: written_size(header.size, offset, len),
            ..header
        }),
        None => None,
    }
}

/// A file's size after `len` bytes are put into it from `offset` on.
fn written_size(size: u64, offset: u64, len: usize) -> u64
    ensures { (p : List ℕ) → length p ≡ len → offset + len < 2 ^ 64 → result ≡ seen.written_size offset p size }
{
    if len == 0 {
        return size;
    }
    size.max(offset.saturating_add(len as u64))
}
