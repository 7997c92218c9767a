//! Laws of the definitions. Each is the contract of a function that has nothing to do when it is
//! called.

ghost use Rattle.std.specs.Prelude.{◌≡◌, ℕ, List, [], Option, Some, None, Result, IfOk, true};
ghost use Rattle.kfs_model.specs.Tree.{Tree};
ghost use Rattle.kfs_model.specs.Entry.{Log};
ghost use Rattle.kfs_model.specs.Header.{Header};
ghost use Rattle.kfs_model.specs.Run.{Mark, marks_after, run, over_bytes, over_marks};
ghost use Rattle.kfs_model.specs.PlanRow.{Plan};
ghost use Rattle.kfs_model.specs.Plan.{IsRight, OldBytesStay};
ghost use Rattle.kfs_model.specs.PlanCut.{SaySame, IsCutAnew};
ghost use Rattle.kfs_model.specs.FirstWrong.{first_wrong_row};
ghost use Rattle.kfs_model.specs.Judgement.{State};
ghost use Rattle.kfs_model.specs.Machine.{OneByOne, Row, IsRead, next, after};
ghost use Rattle.kfs_model.specs.Placement.{TierSizes, IsLaid, IsPlacement, need};
ghost use Rattle.kfs_model.specs.Lease.{KeepsCompatible, dropped, ticked};
ghost use Rattle.kfs_model.specs.Means.{Means};
ghost use Rattle.kfs_model.specs.Order.{IsInOrder};
ghost use Rattle.std.specs.List.{AllByRecursion};
ghost use Rattle.kfs_model.specs.Sight.{sight};
ghost use Rattle.kfs_model.specs.LastCover.{LastEntryDecides};
ghost use Rattle.kfs_model.specs.Access.{Client, ClientsAreDistinct};
ghost use Rattle.kfs_model.specs.Looked.{TreesEndInAgreement, TreesHaveSameNet};
ghost use Rattle.kfs_model.specs.MarkedRuns.{HaveSameNewMarks, MarksEnd};
ghost use Rattle.kfs_model.specs.Soundness.{IsSound};
ghost use Rattle.kfs_model.specs.Fresh.{fresh_tree};
ghost use Rattle.kfs_model.specs.Spelling.{IsName, is_name, IsBytes, SpellingFault, LogAnswer, PlanAnswer};
ghost use Rattle.kfs_model.specs.CleanStep.{IsClient, Fits, IsSeenInCells};
ghost use Rattle.kfs_model.specs.Laws.{CellsDecide, CleanIsAllowed, EachGrant, EachGrantByNumber, EachMoves, EachRun, EachTwoTrees, KeepsOrder, KeepsSound, MarksGiveBytes, opening_of_new};

/// An entry without a failed check is allowed to its client by mode bits and leases. This holds for all
/// eight kinds of entry.
pub fn clean_is_allowed()
    ensures { CleanIsAllowed }
{}

/// A run over bytes and a run over marks agree. They stop at the same entry for the same reason, or
/// each mark, looked up in the old tree and the payloads, is the byte.
pub fn marks_give_bytes()
    ensures { MarksGiveBytes }
{}

/// After a run, a byte from before the log is in the file, and at the place, where it was before.
pub fn old_bytes_keep_their_place()
    ensures { EachRun (λ client before tree entries. IfOk (marks_after client before tree entries) OldBytesStay) }
{}

/// After a log without a fault, each byte of a file has the mark of the last entry that covers it.
/// Where no entry does, it keeps its own mark, or is zero behind the file's old end.
pub fn last_entry_decides()
    ensures { EachRun (λ client before tree entries. before.sight ≡ sight tree → IfOk (marks_after client before tree entries) (LastEntryDecides tree entries)) }
{}

/// A plan is right exactly where the search for a wrong row finds none.
pub fn right_plan_has_no_wrong_row()
    ensures only { (before : Tree ℕ) (after : Tree Mark) (plan : Plan) → first_wrong_row before after plan ≡ None → IsRight before after plan }
    ensures found { (before : Tree ℕ) (after : Tree Mark) (plan : Plan) → IsRight before after plan → first_wrong_row before after plan ≡ None }
{}

/// Two right plans of one run say the same of each name, node and byte. And a plan that says the same
/// as a right one, in pieces that are in order, is right too.
pub fn right_plans_differ_in_their_cut()
    ensures same { (before : Tree ℕ) (after : Tree Mark) (plan other : Plan) → IsRight before after plan → IsRight before after other → SaySame plan other }
    ensures cut_anew { (before : Tree ℕ) (after : Tree Mark) (plan other : Plan) → IsRight before after plan → IsCutAnew plan other → IsRight before after other }
{}

/// Where a run has no fault, its tree results from the entries in turn, each one allowed at its point
/// of the log.
pub fn accepted_entries_one_by_one()
    ensures { EachRun (λ client before tree entries. IfOk (run over_bytes client before tree entries) (OneByOne client before 0 [] tree entries)) }
{}

/// The tree of a new image is sound.
pub fn fresh_tree_is_sound()
    ensures { IsSound (fresh_tree {B = ℕ}) }
{}

/// At a sound tree, an entry in range without a failed check leaves a sound tree, and its cells are
/// those that the effect on cells gives. This holds for trees of bytes and of marks.
pub fn clean_entry_keeps_tree_sound()
    ensures of_bytes { KeepsSound over_bytes }
    ensures of_marks { KeepsSound over_marks }
{}

/// From a sound tree, a run of entries in range and the run over its cells alone end alike: with the
/// same first fault, or with a sound tree and its cells.
pub fn run_is_seen_in_cells()
    ensures seen { EachRun (λ client before tree entries. Fits client tree entries → IsSeenInCells client before tree entries) }
    ensures sound { EachRun (λ client before tree entries. Fits client tree entries → IfOk (run over_bytes client before tree entries) IsSound) }
{}

/// The cells that a log looks at decide its run. If two states give one client the same answers there,
/// the log has the same first fault in both, or none and the same changes of names and headers. It
/// looks at the same cells in both.
///
/// For two sound trees, whatever bytes they hold, the same is said of the runs over them. The log also
/// changes the same bytes and needs the same room.
pub fn looked_cells_decide()
    ensures decides { CellsDecide }
    ensures of_trees { EachTwoTrees TreesEndInAgreement }
    ensures net { EachTwoTrees TreesHaveSameNet }
    ensures marks { EachTwoTrees (MarksEnd HaveSameNewMarks) }
    ensures need { EachTwoTrees (MarksEnd (λ after other_after. need after ≡ need other_after)) }
{}

/// The test of bytes says whether they are a name.
pub fn name_test_is_exact()
    ensures found { (name : List ℕ) → is_name name ≡ true → IsName name }
    ensures only { (name : List ℕ) → IsName name → is_name name ≡ true }
{}

/// If no two live leases conflict, none do after a grant, by a path or by number, a drop or a tick.
pub fn leases_stay_compatible()
    ensures granted { EachGrant KeepsCompatible }
    ensures granted_by_number { EachGrantByNumber KeepsCompatible }
    ensures dropped { (clients : List Client) (client number : ℕ) → KeepsCompatible (λ leases. dropped leases clients client number) }
    ensures ticked { (moment : ℕ) → KeepsCompatible (λ leases. ticked leases moment) }
{}

/// A step of the machine from a state in order leads to a state in order, if the row's log and plan are
/// what its bytes decode to. The same holds of a docket of such rows.
pub fn a_step_keeps_order()
    ensures step { (row : Row) → IsRead row → KeepsOrder (λ s. next s row) }
    ensures docket { (docket : List Row) → AllByRecursion IsRead docket → KeepsOrder (λ opened. after opened docket) }
{}

/// A new image with clients in range, no two with the same number, opens in a state in order.
pub fn new_image_opens_in_order()
    ensures { (clients : List Client) (sizes : TierSizes) → ClientsAreDistinct clients → AllByRecursion IsClient clients → IsInOrder (opening_of_new clients sizes) }
{}

/// Any bytes have exactly one reading as a log and exactly one as a plan: the answer of the decoder.
pub fn bytes_have_one_reading()
    ensures log_exists { (bytes : List ℕ) → IsBytes bytes → (answer : Result Log SpellingFault) × LogAnswer bytes answer }
    ensures log_is_one { (bytes : List ℕ) → IsBytes bytes → (one other : Result Log SpellingFault) → LogAnswer bytes one → LogAnswer bytes other → one ≡ other }
    ensures plan_exists { (bytes : List ℕ) → IsBytes bytes → (answer : Result Plan SpellingFault) × PlanAnswer bytes answer }
    ensures plan_is_one { (bytes : List ℕ) → IsBytes bytes → (one other : Result Plan SpellingFault) → PlanAnswer bytes one → PlanAnswer bytes other → one ≡ other }
{}

/// What a row says, if its log and plan are what its bytes decode to and it fits the state. After a Yes
/// the tree results from the log's entries in turn, each one allowed. Any other answer to a submission
/// changes nothing. A lease call changes leases only. A call that moves blocks changes where they lie,
/// and so leaves the tree; where it is refused, it changes nothing. A state in order stays in order.
pub fn what_a_row_means()
    ensures meaning { (s t : State) (row : Row) → IsRead row → next s row ≡ Some t → Means s row t }
    ensures order { (s t : State) (row : Row) → IsInOrder s → IsRead row → next s row ≡ Some t → IsInOrder t }
{}

/// Moves without a fault leave each block of a file in a place of its own, within its tier.
pub fn moves_keep_blocks_apart()
    ensures laid { EachMoves (λ sizes before after. IsLaid sizes before → IsLaid sizes after) }
    ensures of_files { EachMoves (λ sizes before after. (head : ℕ → Option Header) → IsPlacement sizes head before → IsPlacement sizes head after) }
{}
