//! Laws that the judgement of a log rests on. Each is the contract of a function that has nothing to do
//! when it is called; `kfs_model::laws` has the same laws, from which they follow.

ghost use Rattle.std.specs.Prelude.{◌≡◌};
ghost use Rattle.kfs_model.specs.MarkedRuns.{HaveSameNewMarks, MarksEnd};
ghost use Rattle.kfs_model.specs.Laws.{CellsDecide, CleanIsAllowed, EachTwoTrees, KeepsSound, MarksGiveBytes};
ghost use Rattle.kfs_model.specs.Looked.{TreesEndInAgreement, TreesHaveSameNet};
ghost use Rattle.kfs_model.specs.Placement.{need};
ghost use Rattle.kfs_model.specs.Run.{over_bytes, over_marks};

use kfs_model::laws;

/// An entry without a failed check is allowed to its client by mode bits and leases. Where it is in range,
/// it leaves a sound tree sound, of bytes and of marks. This holds for all eight kinds of entry.
pub fn clean_is_allowed()
    ensures allowed { CleanIsAllowed }
    ensures sound { KeepsSound over_bytes }
    ensures sound_marks { KeepsSound over_marks }
{
    laws::clean_is_allowed();
    laws::clean_entry_keeps_tree_sound();
}

/// A run over bytes and a run over marks agree. They stop at the same entry for the same reason, or
/// each mark, looked up in the old tree and the payloads, is the byte.
pub fn marks_give_bytes()
    ensures { MarksGiveBytes }
{
    laws::marks_give_bytes();
}

/// The cells that a log looks at decide its run. Two states that give the same answers there have the
/// same first fault, or none and the same changes of names and headers. For two sound trees, the same is
/// said of the runs over them. The log also changes the same bytes and needs the same room.
pub fn cells_decide()
    ensures decides { CellsDecide }
    ensures of_trees { EachTwoTrees TreesEndInAgreement }
    ensures net { EachTwoTrees TreesHaveSameNet }
    ensures marks { EachTwoTrees (MarksEnd HaveSameNewMarks) }
    ensures need { EachTwoTrees (MarksEnd (λ after other_after. need after ≡ need other_after)) }
{
    laws::looked_cells_decide();
}
