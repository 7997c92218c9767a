//! Inputs cut into lines, and sessions line by line. Each is the contract of a function that does
//! nothing, proved by computing.

ghost use Rattle.std.specs.Prelude.{◌≡◌, [], ◌∷◌, codes, None, Err};
ghost use Rattle.kfs_model.specs.Examples.Example.{client_7, client_8};
ghost use Rattle.kfs_mode.specs.declared.client.ClientFault.TheVariants.{TooManyGroups};
ghost use Rattle.kfs_program_text.specs.Command.{Begin, New, Row};
ghost use Rattle.kfs_program.specs.Engine.Transcript.{BreaksOff};
ghost use Rattle.kfs_program.specs.Engine.Example.{desk_of_7, desk_with, eight_blocks_each, full_docket, held_by_3, names_of_two_directories, opening_with, root_leased};
ghost use Rattle.kfs_program.specs.Verdicts.HeldVerdicts.{no_verdict};
ghost use Rattle.kfs_program.specs.Engine.Listing.{list_text};
ghost use Rattle.kfs_program.specs.Engine.Session.{After, Before, AnswersLines, fresh, opened};
ghost use Rattle.kfs_program_text.specs.Cut.{lines_of};

/// The lines of an input. A last line without an end counts; an input that ends with a line's end has
/// no further line.
#[tactic(auto, unfolding(kfs_program_text::specs::Cut::cut))]
pub fn lines_of_an_input()
    ensures ended { lines_of (codes "tick 1\nnode 5\n") ≡ codes "tick 1" ∷ codes "node 5" ∷ [] }
    ensures unended { lines_of (codes "tick 1\nnode 5") ≡ codes "tick 1" ∷ codes "node 5" ∷ [] }
    ensures empty_line { lines_of (codes "\n") ≡ [] ∷ [] }
    ensures no_line { lines_of [] ≡ [] }
{}

/// A session before the desk is begun: an image, a client that is refused, clients two of which have
/// the first one's number, and then a desk.
pub fn openings()
    ensures image { opened (record { image = None; clients = [] }) (New eight_blocks_each) ≡ (codes "ok\n", Before (opening_with [])) }
    ensures without_image { opened (record { image = None; clients = [] }) (Begin 100) ≡ (codes "bad line\n", fresh) }
    ensures refused { opened (record { image = None; clients = [] }) (Row (Err TooManyGroups)) ≡ (codes "client TooManyGroups\n", fresh) }
    ensures twice { opened (opening_with (client_7 ∷ client_8 ∷ client_7 ∷ client_7 ∷ [])) (Begin 3) ≡ (codes "begin ClientTwice(2)\n", Before (opening_with [])) }
    ensures begun { opened (opening_with []) (Begin 3) ≡ (codes "ok\n", After (desk_with [] 3) no_verdict) }
{}

/// The names of the root, and those of a directory without names.
pub fn lists()
    ensures of_root { list_text 1 names_of_two_directories ≡ codes "list 1 61:5 62:9" }
    ensures of_another { list_text 6 (record { entries = ((1, codes "a"), 5) ∷ []; sorted = tt }) ≡ codes "list 6" }
{}

/// A lease on the root, and the root's line after it: a directory has 1 link and size 0.
pub fn node_after_a_lease()
    ensures { AnswersLines (After desk_of_7 no_verdict) (codes "lease 7 / w 100" ∷ codes "node 1" ∷ []) (codes "0 leased 1\nnode 1 dir 0777 0 0 1 0\n") (After root_leased no_verdict) }
{}

/// Where the docket is full, a verdict isn't landed, and the worker holds none afterwards.
pub fn verdict_at_a_full_docket()
    ensures { AnswersLines (After full_docket held_by_3) (codes "land 3" ∷ codes "land 3" ∷ []) (codes "full\nbad line\n") (After full_docket no_verdict) }
{}

/// Where memory runs out at the landing of a verdict, the worker holds none afterwards.
pub fn verdict_without_memory()
    ensures { AnswersLines (After full_docket held_by_3) (codes "land 3" ∷ codes "land 3" ∷ []) (codes "memory\nbad line\n") (After full_docket no_verdict) }
{}

/// The writer failed after the reply to one line. The line has its end, or the reader has come to its
/// own. A part of a line has no reply while the reader may still give more of it.
pub fn write_broken_off()
    ensures whole { BreaksOff ⊥ (codes "x\n") (codes "bad line\n") }
    ensures at_end { BreaksOff (Unit {0}) (codes "x") (codes "bad line\n") }
    ensures part { BreaksOff ⊥ (codes "x") (codes "bad line\n") → ⊥ }
{}
