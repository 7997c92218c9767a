//! The entry Regroup.
ghost use Rattle.std.specs.Prelude.{◌≡◌, ℕ, ◌+◌, None, Ok, IfOk, OnOk, ◌++◌};
ghost use Rattle.std.specs.Option.{option_map};
ghost use Rattle.kfs_types.specs.Views.{header_of};
ghost use Rattle.kfs_model.specs.Check.{checks_of};
ghost use Rattle.kfs_model.specs.Entry as entry;
ghost use Rattle.kfs_model.specs.Header.{Header as HeaderShown};
ghost use Rattle.kfs_judge.specs.Step.Entered.{IsEntered};
ghost use Rattle.kfs_judge_reads.specs.Draft.Overlay.{has_created, ShiftsBy};
ghost use Rattle.kfs_judge.specs.Check.Checks.{AnswersEntry};

use crate::check::{EntryJudge, Reason};
use crate::step::check::check;
use crate::step::log_judge::LogJudge;
use kfs_image_nodes::Header;
use kfs_judge_reads::Recorder;
use std::alloc::{AllocError, Allocator};

/// Why this can't become the group of node `number`; none if it can.
#[tactic(auto, unfolding(kfs_model::specs::Check::checks_of))]
fn regroup_fault<'e, 's, A: Allocator + Copy>(
    judge: &EntryJudge<'_, 'e, 's, A>,
    recorder: &mut Recorder<'_, 'e, 's, A>,
    number: u32,
    group: u32,
) -> Result<Option<Reason>, AllocError>
    ensures { AnswersEntry judge.now recorder.old recorder.new result (entry.Regroup number group) }
{
    check!(judge, recorder;
        Exists(number),
        IsOwned(number),
        MaySetGroup(group),
        IsLeased(number),
    );
    Ok(None)
}

impl<A: Allocator + Copy> LogJudge<'_, '_, '_, A> {
    /// Sets the group of node `number`, or answers the reason why not.
    pub fn regroup(&mut self, number: u32, group: u32) -> Result<Option<Reason>, AllocError>
        ensures { IsEntered self.old self.new (entry.Regroup number group) result }
    {
        let judge = EntryJudge {
            client: self.client,
            draft: &self.draft,
        };
        let fault = regroup_fault(&judge, &mut self.recorder, number, group)?;
        if let Some(reason) = fault {
            return Ok(Some(reason));
        }
        let header = judge.header(&mut self.recorder, number)?;
        self.draft.set_header(number, with_group(header, group))?;
        Ok(None)
    }
}

/// The header with this group.
fn with_group(header: Option<Header>, group: u32) -> Option<Header>
    ensures { option_map header_of result ≡ option_map (λ (h : HeaderShown). record h { gid = group }) (option_map header_of header) }
{
    header.map(|header| Header {
        gid: group,
        ..header
    })
}
