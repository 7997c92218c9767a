//! The entry Chmod.
ghost use Rattle.std.specs.Prelude.{◌≡◌, ℕ, ◌+◌, None, Ok, IfOk, OnOk, ◌++◌};
ghost use Rattle.std.specs.Option.{option_map};
ghost use Rattle.kfs_types.specs.Views.{header_of};
ghost use Rattle.kfs_model.specs.Check.{checks_of};
ghost use Rattle.kfs_model.specs.Entry as entry;
ghost use Rattle.kfs_model.specs.Header.{Header as HeaderShown};
ghost use Rattle.kfs_judge.specs.Step.Entered.{IsEntered};
ghost use Rattle.kfs_judge_reads.specs.Draft.Overlay.{has_created, ShiftsBy};
ghost use Rattle.kfs_judge.specs.Check.Checks.{AnswersEntry};

use crate::check::{EntryJudge, Reason};
use crate::step::check::check;
use crate::step::log_judge::LogJudge;
use kfs_image_nodes::Header;
use kfs_judge_reads::Recorder;
use std::alloc::{AllocError, Allocator};

/// Why the mode of node `number` can't be changed; none if it can.
#[tactic(auto, unfolding(kfs_model::specs::Check::checks_of))]
fn chmod_fault<'e, 's, A: Allocator + Copy>(
    judge: &EntryJudge<'_, 'e, 's, A>,
    recorder: &mut Recorder<'_, 'e, 's, A>,
    number: u32,
) -> Result<Option<Reason>, AllocError>
    ensures { (mode : ℕ) → AnswersEntry judge.now recorder.old recorder.new result (entry.Chmod number mode) }
{
    check!(judge, recorder;
        Exists(number),
        IsOwned(number),
        IsLeased(number),
    );
    Ok(None)
}

impl<A: Allocator + Copy> LogJudge<'_, '_, '_, A> {
    /// Sets the permission bits of node `number`, or answers the reason why not.
    pub fn chmod(&mut self, number: u32, mode: u16) -> Result<Option<Reason>, AllocError>
        ensures { IsEntered self.old self.new (entry.Chmod number mode) result }
    {
        let judge = EntryJudge {
            client: self.client,
            draft: &self.draft,
        };
        let fault = chmod_fault(&judge, &mut self.recorder, number)?;
        if let Some(reason) = fault {
            return Ok(Some(reason));
        }
        let header = judge.header(&mut self.recorder, number)?;
        self.draft.set_header(number, with_mode(header, mode))?;
        Ok(None)
    }
}

/// The header with this mode.
fn with_mode(header: Option<Header>, mode: u16) -> Option<Header>
    ensures { option_map header_of result ≡ option_map (λ (h : HeaderShown). record h { mode = mode }) (option_map header_of header) }
{
    header.map(|header| Header { mode, ..header })
}
