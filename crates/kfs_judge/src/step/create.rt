//! The entry Create.
ghost use Rattle.std.specs.Prelude.{◌≡◌, ℕ, ◌+◌, ◌==◌, ◌||◌, None, Ok, IfOk, OnOk, ◌++◌};
ghost use Rattle.std.specs.Option.{option_map};
ghost use Rattle.kfs_types.specs.Views.{kind_of};
ghost use Rattle.kfs_model.specs.Check.{checks_of};
ghost use Rattle.kfs_model.specs.Header.{Kind as KindShown};
ghost use Rattle.kfs_model.specs.Entry as entry;
ghost use Rattle.kfs_model.specs.SeenAfter.{seen_after};
ghost use Rattle.kfs_model.specs.Sight.{Sight};
ghost use Rattle.kfs_judge.specs.Step.Entered.{IsEntered};
ghost use Rattle.kfs_judge_reads.specs.Draft.Overlay.{has_created, over, ShiftsBy, HasRoom};
ghost use Rattle.kfs_judge.specs.Check.Checks.{AnswersEntry};

use crate::check::{EntryJudge, Reason};
use crate::step::check::check;
use crate::step::log_judge::LogJudge;
use kfs_image_nodes::{Header, Kind};
use kfs_judge_reads::{NameKey, Recorder};
use kfs_types::BorrowedName;
use std::alloc::{AllocError, Allocator};

/// Why node `number` can't be made with the name `name` in `dir`; none if it can.
#[tactic(auto, unfolding(kfs_model::specs::Check::checks_of))]
fn create_fault<'e, 's, A: Allocator + Copy>(
    judge: &EntryJudge<'_, 'e, 's, A>,
    recorder: &mut Recorder<'_, 'e, 's, A>,
    dir: u32,
    name: &'e BorrowedName<'s>,
    number: u32,
) -> Result<Option<Reason>, AllocError>
    ensures { (kind : KindShown) (mode : ℕ) → AnswersEntry judge.now recorder.old recorder.new result (entry.Create dir name.now number kind mode) }
{
    let key = NameKey { dir, name };
    check!(judge, recorder;
        Exists(dir),
        IsADirectory(dir),
        MaySearch(dir),
        MayWrite(dir),
        IsLeased(dir),
        NameIsFree(&key),
        NumberIsGranted(number),
        NumberIsFree(number),
    );
    Ok(None)
}

impl<'e, 's, A: Allocator + Copy> LogJudge<'_, 'e, 's, A> {
    /// Makes the empty node `number` with the name `name` in `dir` and the client's uid and gid, or
    /// answers the reason why not.
    pub fn create(
        &mut self,
        dir: u32,
        name: &'e BorrowedName<'s>,
        number: u32,
        kind: Kind,
        mode: u16,
    ) -> Result<Option<Reason>, AllocError>
        requires { HasRoom 3 self.old.draft }
        ensures { IsEntered self.old self.new (entry.Create dir name.now number (kind_of kind) mode) result }
    {
        let key = NameKey { dir, name };
        let judge = EntryJudge {
            client: self.client,
            draft: &self.draft,
        };
        let fault = create_fault(&judge, &mut self.recorder, dir, name, number)?;
        if let Some(reason) = fault {
            return Ok(Some(reason));
        }
        let header = Header {
            kind,
            mode,
            uid: self.client.uid(),
            gid: self.client.gid(),
            links: 1,
            size: 0,
        };
        self.draft.add_node(&key, number, header)?;
        Ok(None)
    }
}
