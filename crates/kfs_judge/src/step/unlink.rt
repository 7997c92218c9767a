//! The entry Unlink.
ghost use Rattle.std.specs.Prelude.{◌≡◌, ℕ, ◌+◌, None, Ok, IfOk, OnOk};
ghost use Rattle.kfs_model.specs.Check.{checks_of, may_go};
ghost use Rattle.kfs_model.specs.Entry as entry;
ghost use Rattle.kfs_judge.specs.Check.Checks.{AnswersEntry, JudgesAll};
ghost use Rattle.kfs_judge.specs.Step.Entered.{IsEntered, headers_unlinked, ShowsUnlink, WritesUnlink};
ghost use Rattle.kfs_judge_reads.specs.Draft.Overlay.{HasRoom, KeepsCreated, KeepsHeaders, ShiftsFurther};
ghost use Rattle.kfs_judge_reads.specs.Recorders.{GoesOn, ReadsAt};
ghost use Rattle.kfs_types.specs.Views.{kind_of};

use crate::check::{EntryJudge, Reason};
use crate::step::check::check;
use crate::step::log_judge::LogJudge;
use kfs_image_nodes::Kind;
use kfs_judge_reads::{NameKey, Recorder, unlinked};
use kfs_types::BorrowedName;
use std::alloc::{AllocError, Allocator};

/// Why the name `name` in `dir`, of a node of this kind, can't be removed; none if it can.
#[tactic(auto, unfolding(kfs_model::specs::Check::checks_of))]
fn unlink_fault<'e, 's, A: Allocator + Copy>(
    judge: &EntryJudge<'_, 'e, 's, A>,
    recorder: &mut Recorder<'_, 'e, 's, A>,
    dir: u32,
    name: &'e BorrowedName<'s>,
    kind: Kind,
) -> Result<Option<Reason>, AllocError>
    ensures { AnswersEntry judge.now recorder.old recorder.new result (entry.Unlink dir name.now (kind_of kind)) }
{
    let key = NameKey { dir, name };
    check!(judge, recorder;
        Exists(dir),
        IsADirectory(dir),
        MaySearch(dir),
        MayWrite(dir),
        IsLeased(dir),
    );
    let Some(number) = judge.target(recorder, &key)? else {
        return Ok(Some(Reason::NoSuchName));
    };
    let rest = going_fault(judge, recorder, kind, dir, number)?;
    Ok(rest)
}

/// Why node `number`, which should be of this kind, can't lose a name in `dir`; none if it can.
pub fn going_fault<'e, 's, A: Allocator + Copy>(
    judge: &EntryJudge<'_, 'e, 's, A>,
    recorder: &mut Recorder<'_, 'e, 's, A>,
    kind: Kind,
    dir: u32,
    number: u32,
) -> Result<Option<Reason>, AllocError>
    ensures { JudgesAll judge.now recorder.old recorder.new result (λ _. may_go (kind_of kind) dir number) }
{
    match kind {
        Kind::File => {
            check!(judge, recorder; IsAFile(number), MayRemove { dir, number }, IsLeased(number));
        }
        Kind::Directory => {
            check!(judge, recorder;
                IsADirectory(number),
                MayRemove { dir, number },
                IsLeased(number),
                HasNoNames(number),
            );
        }
    }
    Ok(None)
}

impl<'e, 's, A: Allocator + Copy> LogJudge<'_, 'e, 's, A> {
    /// Removes the name `name` from `dir`, or answers the reason why not.
    pub fn unlink(
        &mut self,
        dir: u32,
        name: &'e BorrowedName<'s>,
        kind: Kind,
    ) -> Result<Option<Reason>, AllocError>
        requires { HasRoom 3 self.old.draft }
        ensures { IsEntered self.old self.new (entry.Unlink dir name.now (kind_of kind)) result }
    {
        let key = NameKey { dir, name };
        let judge = EntryJudge {
            client: self.client,
            draft: &self.draft,
        };
        let fault = unlink_fault(&judge, &mut self.recorder, dir, name, kind)?;
        if let Some(reason) = fault {
            return Ok(Some(reason));
        }
        let there = judge.target(&mut self.recorder, &key)?;
        self.remove_name(&key, there)?;
        Ok(None)
    }

    /// Removes the name `key`, which leads to `there`. The node goes with its last name.
    pub fn remove_name(
        &mut self,
        key: &NameKey<'e, 's>,
        there: Option<u32>,
    ) -> Result<(), AllocError>
        requires { HasRoom 1 self.old.draft }
        ensures goes { GoesOn self.old.recorder self.new.recorder }
        ensures client { self.new.client.now ≡ self.old.client.now }
        ensures among { OnOk result (ReadsAt self.old.recorder self.new.recorder (headers_unlinked there)) }
        ensures shown { OnOk result (ShowsUnlink self.old self.new key.now.0 key.now.1 there) }
        ensures written { OnOk result (WritesUnlink self.old self.new key.now.0 key.now.1 there) }
        ensures created { OnOk result (KeepsCreated self.old.draft self.new.draft) }
        ensures kept { OnOk result (KeepsHeaders self.old.draft self.new.draft) }
        ensures shifts { OnOk result (ShiftsFurther 1 self.old.draft self.new.draft) }
    {
        let Some(number) = there else {
            return Ok(());
        };
        let judge = EntryJudge {
            client: self.client,
            draft: &self.draft,
        };
        let header = judge.header(&mut self.recorder, number)?;
        self.draft.remove_name(key, number, unlinked(header))?;
        Ok(())
    }
}
