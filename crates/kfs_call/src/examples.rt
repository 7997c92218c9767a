//! Worked examples, byte by byte, as docs/FORMATS.md has them. They are for contracts alone.
ghost use Rattle.std.specs.Prelude.{[], ◌∷◌, Ok};
ghost use Rattle.kfs_call.specs.Call.{CallAnswer};
ghost use Rattle.kfs_call.specs.AnswerRow.{DecodedAnswer};
ghost use Rattle.kfs_call.specs.StateRows.{StateAnswer};
ghost use Rattle.kfs_call.specs.Examples.{lease_call, lease_call_bytes, lease_at_call, lease_at_call_bytes, submit_call, submit_call_bytes, migrate_call, migrate_call_bytes, leased_answer, leased_answer_bytes, no_answer, no_answer_bytes, state_of_7, state_of_7_bytes};

/// Client 7 asks for a write lease on the root: 17 bytes. It hands in a log and a plan. A block moves.
/// Client 7 asks for a write lease on node 258 by its number: 18 bytes.
#[tactic(auto, unfolding(kfs_model::specs::Spelling::number16, kfs_model::specs::Spelling::number32, kfs_model::specs::Spelling::number64))]
pub fn calls()
    ensures lease { CallAnswer lease_call_bytes (Ok lease_call) }
    ensures submit { CallAnswer submit_call_bytes (Ok submit_call) }
    ensures migrate { CallAnswer migrate_call_bytes (Ok migrate_call) }
    ensures lease_at { CallAnswer lease_at_call_bytes (Ok lease_at_call) }
{}

/// Client 7 has its lease: 9 bytes. An entry is refused: 20 bytes.
#[tactic(auto, unfolding(kfs_model::specs::Spelling::number16, kfs_model::specs::Spelling::number32, kfs_model::specs::Spelling::number64))]
pub fn answers()
    ensures leased { DecodedAnswer leased_answer_bytes (Ok leased_answer) }
    ensures no { DecodedAnswer no_answer_bytes (Ok no_answer) }
{}

/// Client 7 with its lease: 60 bytes before an image, here of two bytes that are none.
#[tactic(auto, unfolding(kfs_model::specs::Spelling::number16, kfs_model::specs::Spelling::number32, kfs_model::specs::Spelling::number64))]
pub fn states()
    ensures { StateAnswer (state_of_7_bytes (1 ∷ 2 ∷ [])) (Ok (state_of_7 (1 ∷ 2 ∷ []))) }
{}
