//! Logs and plans with the bytes that encode them.

ghost use Rattle.std.specs.Prelude.{[], ◌∷◌, ◌++◌, take, Ok, Err};
ghost use Rattle.kfs_model.specs.Spelling.{BadEntry, BadHeader, BadRow, LogAnswer, PlanAnswer, Trailing};
ghost use Rattle.kfs_model.specs.Examples.Example.{no_plan};
ghost use Rattle.kfs_model.specs.Examples.Example.FileCases.{create_a, create_a_plan, edits, edits_plan, first_piece, last_piece};
ghost use Rattle.kfs_model.specs.Examples.Example.NameCases.{move_7, plan_7};
ghost use Rattle.kfs_model.specs.Examples.Example.SpellingCases.{cut_log, cut_plan, in_version, log_in_2, log_of_7, plan_in_2, set_group, set_group_bytes, set_mode, set_mode_bytes, create_a_log_bytes, create_a_plan_bytes, edits_log_bytes, edits_plan_bytes, move_7_log_bytes, plan_7_bytes, empty_log_bytes, empty_plan_bytes};

/// Client 7 creates file 5 named "a" in the root: 25 bytes of log, 48 bytes of plan.
#[tactic(auto, unfolding(crate::specs::Spelling::number16, crate::specs::Spelling::number32, crate::specs::Spelling::number64))]
pub fn create_in_the_root()
    ensures log { LogAnswer create_a_log_bytes (Ok (log_of_7 create_a)) }
    ensures plan { PlanAnswer create_a_plan_bytes (Ok (create_a_plan 5)) }
{}

/// Three writes and two truncations of file 5: 94 bytes of log, 140 bytes of plan with four pieces.
#[tactic(auto, unfolding(crate::specs::Spelling::number16, crate::specs::Spelling::number32, crate::specs::Spelling::number64))]
pub fn overlapping_writes()
    ensures log { LogAnswer edits_log_bytes (Ok (log_of_7 edits)) }
    ensures plan { PlanAnswer edits_plan_bytes (Ok (edits_plan (first_piece 1) (last_piece ∷ []))) }
{}

/// Client 7 moves the name "x" of directory 20 into directory 12: 24 bytes of log, 33 bytes of plan.
#[tactic(auto, unfolding(crate::specs::Spelling::number16, crate::specs::Spelling::number32, crate::specs::Spelling::number64))]
pub fn move_into_another_directory()
    ensures log { LogAnswer move_7_log_bytes (Ok (log_of_7 move_7)) }
    ensures plan { PlanAnswer plan_7_bytes (Ok plan_7) }
{}

/// A log without entries has 11 bytes, a plan without rows 13.
#[tactic(auto, unfolding(crate::specs::Spelling::number16, crate::specs::Spelling::number32, crate::specs::Spelling::number64))]
pub fn nothing()
    ensures log { LogAnswer empty_log_bytes (Ok (log_of_7 [])) }
    ensures plan { PlanAnswer empty_plan_bytes (Ok no_plan) }
{}

/// The same log and plan in version 2: one byte differs.
#[tactic(auto, unfolding(crate::specs::Spelling::number16, crate::specs::Spelling::number32, crate::specs::Spelling::number64))]
pub fn create_in_version_2()
    ensures log { LogAnswer (in_version 2 create_a_log_bytes) (Ok (log_in_2 (log_of_7 create_a))) }
    ensures plan { PlanAnswer (in_version 2 create_a_plan_bytes) (Ok (plan_in_2 (create_a_plan 5))) }
{}

/// The greatest modes: 0o777 of version 1, and 0o1777 of version 2.
#[tactic(auto, unfolding(crate::specs::Spelling::number16, crate::specs::Spelling::number32, crate::specs::Spelling::number64))]
pub fn greatest_modes()
    ensures first { LogAnswer (set_mode_bytes 1 255) (Ok (log_of_7 (set_mode 511))) }
    ensures second { LogAnswer (in_version 2 (set_mode_bytes 3 255)) (Ok (log_in_2 (log_of_7 (set_mode 1023)))) }
{}

/// Client 7 makes 50 the group of file 5. Only a log of version 2 can say so.
#[tactic(auto, unfolding(crate::specs::Spelling::number16, crate::specs::Spelling::number32, crate::specs::Spelling::number64))]
pub fn group_in_version_2()
    ensures { LogAnswer (in_version 2 set_group_bytes) (Ok (log_in_2 (log_of_7 set_group))) }
{}

/// Bytes that are no log: too few for a header, a version that there isn't, the last one missing, a mode
/// out of the version's range, a group in version 1, one byte too many.
pub fn no_logs()
    ensures header { LogAnswer (cut_log 10) (Err BadHeader) }
    ensures version_0 { LogAnswer (in_version 0 create_a_log_bytes) (Err BadHeader) }
    ensures version_3 { LogAnswer (in_version 3 create_a_log_bytes) (Err BadHeader) }
    ensures first_mode { LogAnswer (set_mode_bytes 3 255) (Err (BadEntry 0)) }
    ensures second_mode { LogAnswer (in_version 2 (set_mode_bytes 4 0)) (Err (BadEntry 0)) }
    ensures group { LogAnswer set_group_bytes (Err (BadEntry 0)) }
    ensures entry { LogAnswer (cut_log 24) (Err (BadEntry 0)) }
    ensures trailing { LogAnswer (create_a_log_bytes ++ 0 ∷ []) (Err Trailing) }
{}

/// Bytes that are no plan: too few for a header, a version that there isn't, cut in the name row, cut in
/// the node row, one too many, and four pieces cut in the last one.
pub fn no_plans()
    ensures header { PlanAnswer (cut_plan 12) (Err BadHeader) }
    ensures version_0 { PlanAnswer (in_version 0 create_a_plan_bytes) (Err BadHeader) }
    ensures version_3 { PlanAnswer (in_version 3 create_a_plan_bytes) (Err BadHeader) }
    ensures name_row { PlanAnswer (cut_plan 22) (Err (BadRow 0 0)) }
    ensures node_row { PlanAnswer (cut_plan 47) (Err (BadRow 1 0)) }
    ensures piece { PlanAnswer (take 139 edits_plan_bytes) (Err (BadRow 2 3)) }
    ensures trailing { PlanAnswer (create_a_plan_bytes ++ 0 ∷ []) (Err Trailing) }
{}
