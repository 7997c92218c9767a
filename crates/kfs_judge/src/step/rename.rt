//! The entry Rename.
ghost use Rattle.std.specs.Prelude.{◌≡◌, true, false, ℕ, ◌+◌, Some, None, Ok, OnOk};
ghost use Rattle.kfs_model.specs.Check.{checks_of, arrival_checks, may_go, on_number, rename_checks};
ghost use Rattle.kfs_model.specs.Entry as entry;
ghost use Rattle.kfs_judge.specs.Check.Checks.{AnswersEntry, JudgesAll};
ghost use Rattle.kfs_judge.specs.Step.Entered.{IsEntered, headers_renamed, ShowsRename, WritesRename};
ghost use Rattle.kfs_judge_reads.specs.Draft.Overlay.{HasRoom, KeepsCreated, KeepsHeaders, ShiftsFurther};
ghost use Rattle.kfs_judge_reads.specs.Recorders.{GoesOn, ReadsAt};
ghost use Rattle.kfs_types.specs.Views.{kind_of};

use crate::check::{EntryJudge, Reason};
use crate::step::check::check;
use crate::step::log_judge::LogJudge;
use crate::step::unlink::going_fault;
use kfs_image_nodes::Kind;
use kfs_judge_reads::{NameKey, Recorder};
use kfs_types::BorrowedName;
use std::alloc::{AllocError, Allocator};

/// Why the name `name` in `dir` can't become `new_name` in `new_dir`; none if it can.
#[tactic(auto, unfolding(kfs_model::specs::Check::checks_of))]
fn rename_fault<'e, 's, A: Allocator + Copy>(
    judge: &EntryJudge<'_, 'e, 's, A>,
    recorder: &mut Recorder<'_, 'e, 's, A>,
    dir: u32,
    name: &'e BorrowedName<'s>,
    new_dir: u32,
    new_name: &'e BorrowedName<'s>,
) -> Result<Option<Reason>, AllocError>
    ensures { AnswersEntry judge.now recorder.old recorder.new result (entry.Rename dir name.now new_dir new_name.now) }
{
    let key = NameKey { dir, name };
    let new_key = NameKey {
        dir: new_dir,
        name: new_name,
    };
    check!(judge, recorder;
        Exists(dir),
        IsADirectory(dir),
        Exists(new_dir),
        IsADirectory(new_dir),
        MaySearch(dir),
        MaySearch(new_dir),
    );
    let Some(moved) = judge.target(recorder, &key)? else {
        return Ok(Some(Reason::NoSuchName));
    };
    let there = judge.target(recorder, &new_key)?;
    let rest = move_fault(judge, recorder, dir, new_dir, moved, there)?;
    Ok(rest)
}

/// Why node `moved` can't go from `dir` to `new_dir`, in place of `there`; none if it can.
fn move_fault<'e, 's, A: Allocator + Copy>(
    judge: &EntryJudge<'_, 'e, 's, A>,
    recorder: &mut Recorder<'_, 'e, 's, A>,
    dir: u32,
    new_dir: u32,
    moved: u32,
    there: Option<u32>,
) -> Result<Option<Reason>, AllocError>
    ensures { JudgesAll judge.now recorder.old recorder.new result (λ p. rename_checks p dir new_dir (Some moved) there) }
{
    if leads_to(there, moved) {
        return Ok(None);
    }
    check!(judge, recorder;
        MayWrite(dir),
        MayWrite(new_dir),
        MayRemove { dir, number: moved },
        IsLeased(dir),
        IsLeased(new_dir),
        IsLeased(moved),
    );
    let kind = judge.kind(recorder, moved)?;
    let rest = arrival_fault(judge, recorder, kind, moved, new_dir, there)?;
    Ok(rest)
}

fn leads_to(target: Option<u32>, number: u32) -> bool
    ensures yes { result ≡ true → target ≡ Some number }
    ensures no { result ≡ false → target ≡ Some number → ⊥ }
{
    target == Some(number)
}

/// Why node `moved`, of this kind, can't come to `new_dir`, in place of `there`; none if it can.
fn arrival_fault<'e, 's, A: Allocator + Copy>(
    judge: &EntryJudge<'_, 'e, 's, A>,
    recorder: &mut Recorder<'_, 'e, 's, A>,
    kind: Kind,
    moved: u32,
    new_dir: u32,
    there: Option<u32>,
) -> Result<Option<Reason>, AllocError>
    ensures { JudgesAll judge.now recorder.old recorder.new result (λ _. arrival_checks (kind_of kind) moved new_dir there) }
{
    if let Some(reason) = place_fault(judge, recorder, kind, moved, new_dir)? {
        return Ok(Some(reason));
    }
    let rest = replaced_fault(judge, recorder, kind, new_dir, there)?;
    Ok(rest)
}

/// Why node `moved`, of this kind, can't be in `new_dir`; none if it can. A directory may not be put
/// below itself.
#[tactic(auto, unfolding(kfs_model::specs::Check::first_failing))]
fn place_fault<'e, 's, A: Allocator + Copy>(
    judge: &EntryJudge<'_, 'e, 's, A>,
    recorder: &mut Recorder<'_, 'e, 's, A>,
    kind: Kind,
    moved: u32,
    new_dir: u32,
) -> Result<Option<Reason>, AllocError>
    ensures { JudgesAll judge.now recorder.old recorder.new result (λ _. arrival_checks (kind_of kind) moved new_dir None) }
{
    match kind {
        Kind::File => Ok(None),
        Kind::Directory => {
            check!(judge, recorder; IsNotAbove { node: moved, dir: new_dir });
            Ok(None)
        }
    }
}

/// Why `there` can't be replaced in `new_dir` by a node of this kind; none if it can.
#[tactic(auto, unfolding(kfs_model::specs::Check::first_failing))]
fn replaced_fault<'e, 's, A: Allocator + Copy>(
    judge: &EntryJudge<'_, 'e, 's, A>,
    recorder: &mut Recorder<'_, 'e, 's, A>,
    kind: Kind,
    new_dir: u32,
    there: Option<u32>,
) -> Result<Option<Reason>, AllocError>
    ensures { JudgesAll judge.now recorder.old recorder.new result (λ _. on_number there (may_go (kind_of kind) new_dir)) }
{
    match there {
        Some(replaced) => {
            let rest = going_fault(judge, recorder, kind, new_dir, replaced)?;
            Ok(rest)
        }
        None => Ok(None),
    }
}

impl<'e, 's, A: Allocator + Copy> LogJudge<'_, 'e, 's, A> {
    /// Moves the name `name` in `dir` to `new_name` in `new_dir`, or answers the reason why not.
    pub fn rename(
        &mut self,
        dir: u32,
        name: &'e BorrowedName<'s>,
        new_dir: u32,
        new_name: &'e BorrowedName<'s>,
    ) -> Result<Option<Reason>, AllocError>
        requires { HasRoom 3 self.old.draft }
        ensures { IsEntered self.old self.new (entry.Rename dir name.now new_dir new_name.now) result }
    {
        let key = NameKey { dir, name };
        let new_key = NameKey {
            dir: new_dir,
            name: new_name,
        };
        let judge = EntryJudge {
            client: self.client,
            draft: &self.draft,
        };
        let fault = rename_fault(&judge, &mut self.recorder, dir, name, new_dir, new_name)?;
        if let Some(reason) = fault {
            return Ok(Some(reason));
        }
        let from = judge.target(&mut self.recorder, &key)?;
        let to = judge.target(&mut self.recorder, &new_key)?;
        self.move_name(&key, &new_key, from, to)?;
        Ok(None)
    }

    /// Makes `new_key` lead to `from` and removes `key`. A node that `new_key` led to loses that name.
    /// Nothing changes where both names lead to one node.
    fn move_name(
        &mut self,
        key: &NameKey<'e, 's>,
        new_key: &NameKey<'e, 's>,
        from: Option<u32>,
        to: Option<u32>,
    ) -> Result<(), AllocError>
        requires { HasRoom 3 self.old.draft }
        ensures goes { GoesOn self.old.recorder self.new.recorder }
        ensures client { self.new.client.now ≡ self.old.client.now }
        ensures among { OnOk result (ReadsAt self.old.recorder self.new.recorder (headers_renamed from to)) }
        ensures shown { OnOk result (ShowsRename self.old self.new key.now.0 key.now.1 new_key.now.0 new_key.now.1 from to) }
        ensures written { OnOk result (WritesRename self.old self.new key.now.0 key.now.1 new_key.now.0 new_key.now.1 from to) }
        ensures created { OnOk result (KeepsCreated self.old.draft self.new.draft) }
        ensures kept { OnOk result (KeepsHeaders self.old.draft self.new.draft) }
        ensures shifts { OnOk result (ShiftsFurther 3 self.old.draft self.new.draft) }
    {
        let Some(moved) = from else {
            return Ok(());
        };
        if leads_to(to, moved) {
            return Ok(());
        }
        let judge = EntryJudge {
            client: self.client,
            draft: &self.draft,
        };
        let kind = judge.kind(&mut self.recorder, moved)?;
        self.remove_name(new_key, to)?;
        self.draft.move_name(key, new_key, moved, kind)?;
        Ok(())
    }
}
