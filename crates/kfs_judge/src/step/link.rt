//! The entry Link.
ghost use Rattle.std.specs.Prelude.{◌≡◌, ℕ, ◌+◌, None, Ok, IfOk, OnOk};
ghost use Rattle.kfs_model.specs.Check.{checks_of};
ghost use Rattle.kfs_model.specs.Entry as entry;
ghost use Rattle.kfs_judge.specs.Check.Checks.{AnswersEntry};
ghost use Rattle.kfs_judge.specs.Step.Entered.{IsEntered};
ghost use Rattle.kfs_judge_reads.specs.Draft.Overlay.{has_created, HasRoom, ShiftsBy};

use crate::check::{EntryJudge, Reason};
use crate::step::check::check;
use crate::step::log_judge::LogJudge;
use kfs_judge_reads::{NameKey, Recorder, linked};
use kfs_types::BorrowedName;
use std::alloc::{AllocError, Allocator};

/// Why node `number` can't get the name `name` in `dir`; none if it can.
#[tactic(auto, unfolding(kfs_model::specs::Check::checks_of))]
fn link_fault<'e, 's, A: Allocator + Copy>(
    judge: &EntryJudge<'_, 'e, 's, A>,
    recorder: &mut Recorder<'_, 'e, 's, A>,
    number: u32,
    dir: u32,
    name: &'e BorrowedName<'s>,
) -> Result<Option<Reason>, AllocError>
    ensures { AnswersEntry judge.now recorder.old recorder.new result (entry.Link number dir name.now) }
{
    let key = NameKey { dir, name };
    check!(judge, recorder;
        Exists(number),
        IsAFile(number),
        Exists(dir),
        IsADirectory(dir),
        MaySearch(dir),
        MayWrite(dir),
        IsLeased(dir),
        IsLeased(number),
        NameIsFree(&key),
        HasRoomForLink(number),
    );
    Ok(None)
}

impl<'e, 's, A: Allocator + Copy> LogJudge<'_, 'e, 's, A> {
    /// Gives the file `number` one more name, `name` in `dir`, or answers the reason why not.
    pub fn link(
        &mut self,
        number: u32,
        dir: u32,
        name: &'e BorrowedName<'s>,
    ) -> Result<Option<Reason>, AllocError>
        requires { HasRoom 3 self.old.draft }
        ensures { IsEntered self.old self.new (entry.Link number dir name.now) result }
    {
        let key = NameKey { dir, name };
        let judge = EntryJudge {
            client: self.client,
            draft: &self.draft,
        };
        let fault = link_fault(&judge, &mut self.recorder, number, dir, name)?;
        if let Some(reason) = fault {
            return Ok(Some(reason));
        }
        let header = judge.header(&mut self.recorder, number)?;
        self.draft.add_name(&key, number, linked(header))?;
        Ok(None)
    }
}
