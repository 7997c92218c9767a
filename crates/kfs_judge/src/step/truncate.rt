//! The entry Truncate.
ghost use Rattle.std.specs.Prelude.{◌≡◌, ℕ, ◌+◌, None, Ok, IfOk, OnOk, ◌++◌};
ghost use Rattle.std.specs.Option.{option_map};
ghost use Rattle.kfs_types.specs.Views.{header_of};
ghost use Rattle.kfs_model.specs.Check.{checks_of};
ghost use Rattle.kfs_model.specs.Entry as entry;
ghost use Rattle.kfs_model.specs.Header.{Header as HeaderShown};
ghost use Rattle.kfs_judge.specs.Step.Entered.{IsEntered};
ghost use Rattle.kfs_judge_reads.specs.Draft.Overlay.{has_created, ShiftsBy};
ghost use Rattle.kfs_judge.specs.Check.Checks.{AnswersEntry};

use crate::check::{EntryJudge, Reason};
use crate::step::check::check;
use crate::step::log_judge::LogJudge;
use kfs_image_nodes::Header;
use kfs_judge_reads::Recorder;
use std::alloc::{AllocError, Allocator};

/// Why the file `number` can't have this size; none if it can.
#[tactic(auto, unfolding(kfs_model::specs::Check::checks_of))]
fn truncate_fault<'e, 's, A: Allocator + Copy>(
    judge: &EntryJudge<'_, 'e, 's, A>,
    recorder: &mut Recorder<'_, 'e, 's, A>,
    number: u32,
    size: u64,
) -> Result<Option<Reason>, AllocError>
    ensures { AnswersEntry judge.now recorder.old recorder.new result (entry.Truncate number size) }
{
    let end = u128::from(size);
    check!(judge, recorder;
        Exists(number),
        IsAFile(number),
        MayWrite(number),
        IsLeased(number),
        EndIsInRange(end),
    );
    Ok(None)
}

impl<A: Allocator + Copy> LogJudge<'_, '_, '_, A> {
    /// Sets the size of the file `number` in bytes, or answers the reason why not.
    pub fn truncate(&mut self, number: u32, size: u64) -> Result<Option<Reason>, AllocError>
        ensures { IsEntered self.old self.new (entry.Truncate number size) result }
    {
        let judge = EntryJudge {
            client: self.client,
            draft: &self.draft,
        };
        let fault = truncate_fault(&judge, &mut self.recorder, number, size)?;
        if let Some(reason) = fault {
            return Ok(Some(reason));
        }
        let header = judge.header(&mut self.recorder, number)?;
        self.draft.set_header(number, with_size(header, size))?;
        Ok(None)
    }
}

/// The header with this size.
fn with_size(header: Option<Header>, size: u64) -> Option<Header>
    ensures { option_map header_of result ≡ option_map (λ (h : HeaderShown). record h { size = size }) (option_map header_of header) }
{
    header.map(|header| Header { size, ..header })
}
