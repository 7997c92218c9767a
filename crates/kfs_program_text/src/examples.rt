//! Lines with what they ask for. Each is the contract of a function that does nothing, proved by
//! computing.

ghost use Rattle.std.specs.Prelude.{◌≡◌, [], ◌∷◌, codes, None, Some, Ok, Err};
ghost use Rattle.kfs_model.specs.Lease.{WriteLease};
ghost use Rattle.kfs_mode.specs.declared.client.ClientFault.TheVariants.{BadGrant};
ghost use Rattle.kfs_plan.specs.Judging.{submission_with};
ghost use Rattle.kfs_program_text.specs.Command.{Begin, Bytes, DocketLength, Drop, Judge, Land, Lease, Listing, Load, Move, New, Node, Plan, Request, Row, Save, Setup, Submit, Tick, asked_by, move_to};
ghost use Rattle.kfs_program_text.specs.Example.{client_twice_in_group_4};

/// One line of each command.
#[tactic(auto, unfolding(crate::specs::Cut::cut, crate::specs::Decimals::decimals32, hex::specs::Hex::decode_pairs))]
pub fn commands()
    ensures new { asked_by (codes "new 8 08 65536") ≡ Some (Setup (New (record { first = 8; second = 8; third = 65536 }))) }
    ensures client { asked_by (codes "client 7 1000 100 0 2 99 4 4") ≡ Some (Setup (Row (Ok client_twice_in_group_4))) }
    ensures bad_grant { asked_by (codes "client 7 1000 100 0 0 99") ≡ Some (Setup (Row (Err BadGrant))) }
    ensures begin { asked_by (codes "begin 100") ≡ Some (Setup (Begin 100)) }
    ensures lease { asked_by (codes "lease 7 /a/b w 100") ≡ Some (Request (Lease 7 (codes "/a/b") WriteLease 100)) }
    ensures drop { asked_by (codes "drop 7 5") ≡ Some (Request (Drop 7 5)) }
    ensures tick { asked_by (codes "tick 18446744073709551615") ≡ Some (Request (Tick 18446744073709551615)) }
    ensures submit { asked_by (codes "submit 7 0aFf -") ≡ Some (Request (Submit (submission_with 7 (10 ∷ 255 ∷ []) []))) }
    ensures node { asked_by (codes "node 5") ≡ Some (Request (Node 5)) }
    ensures list { asked_by (codes "list 1") ≡ Some (Request (Listing 1)) }
    ensures read { asked_by (codes "read 5 0 65536") ≡ Some (Request (Bytes 5 0 65536)) }
    ensures docket { asked_by (codes "docket") ≡ Some (Request DocketLength) }
    ensures judge { asked_by (codes "judge 7 8 0aFf -") ≡ Some (Request (Judge 7 (submission_with 8 (10 ∷ 255 ∷ []) []))) }
    ensures land { asked_by (codes "land 00") ≡ Some (Request (Land 0)) }
    ensures image { asked_by (codes "image 4bfF") ≡ Some (Load (75 ∷ 255 ∷ [])) }
    ensures no_image { asked_by (codes "image -") ≡ Some (Load []) }
    ensures save { asked_by (codes "save") ≡ Some (Request Save) }
    ensures plan { asked_by (codes "plan 7 0aFf") ≡ Some (Request (Plan 7 (10 ∷ 255 ∷ []))) }
    ensures one_move { asked_by (codes "move 5 0 2 3") ≡ Some (Request (Move (move_to 5 0 2 3 ∷ []))) }
    ensures two_moves { asked_by (codes "move 5 0 255 3 6 1 0 4294967295") ≡ Some (Request (Move (move_to 5 0 255 3 ∷ move_to 6 1 0 4294967295 ∷ []))) }
{}

/// Lines that aren't commands: an empty word, a word too many or too few, a number out of range or with
/// a sign, text that isn't hexadecimal, and any other name.
#[tactic(auto, unfolding(crate::specs::Cut::cut, crate::specs::Decimals::decimals32, hex::specs::Hex::decode_pairs))]
pub fn bad_lines()
    ensures empty { asked_by [] ≡ None }
    ensures empty_word { asked_by (codes "node  5") ≡ None }
    ensures word_too_many { asked_by (codes "node 5 6") ≡ None }
    ensures word_too_few { asked_by (codes "drop 7") ≡ None }
    ensures too_large { asked_by (codes "node 4294967296") ≡ None }
    ensures sign { asked_by (codes "tick +1") ≡ None }
    ensures tier_too_large { asked_by (codes "new 8 8 65537") ≡ None }
    ensures privilege { asked_by (codes "client 7 1000 100 2 2 99") ≡ None }
    ensures group { asked_by (codes "client 7 1000 100 0 2 99 x") ≡ None }
    ensures kind { asked_by (codes "lease 7 / x 100") ≡ None }
    ensures odd { asked_by (codes "submit 7 0 -") ≡ None }
    ensures name { asked_by (codes "nodes 5") ≡ None }
    ensures read_too_long { asked_by (codes "read 5 0 65537") ≡ None }
    ensures no_such_worker { asked_by (codes "land 8") ≡ None }
    ensures judge_without_a_worker { asked_by (codes "judge 7 - -") ≡ None }
    ensures image_of_odd_digits { asked_by (codes "image 4b4") ≡ None }
    ensures image_of_two_words { asked_by (codes "image 4b 49") ≡ None }
    ensures save_to_somewhere { asked_by (codes "save 1") ≡ None }
    ensures plan_without_a_log { asked_by (codes "plan 7") ≡ None }
    ensures move_of_nothing { asked_by (codes "move") ≡ None }
    ensures move_without_a_place { asked_by (codes "move 5 0 2") ≡ None }
    ensures tier_out_of_range { asked_by (codes "move 5 0 256 3") ≡ None }
{}
