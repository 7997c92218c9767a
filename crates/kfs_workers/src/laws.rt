//! A law of scripts. It is the contract of a function that has nothing to do when it is called.
ghost use Rattle.std.specs.Prelude.{List};
ghost use Rattle.std.specs.List.{AllByRecursion};
ghost use Rattle.kfs_workers.specs.Claims.{HaveSameVerdicts, LandsNothing};
ghost use Rattle.kfs_workers.specs.Script.{DoesSteps, ScriptState};
ghost use Rattle.kfs_workers.specs.declared.script.Step.{Step};

/// Looks, judgements and moves of blocks leave what a verdict rests on: it is up to date after them
/// exactly where it was before. So a verdict that was made before the moves lands as it was judged.
pub fn moves_leave_verdicts()
    ensures { (state last : ScriptState) (script : List Step) → AllByRecursion LandsNothing script → DoesSteps state script last → HaveSameVerdicts state last }
{}
