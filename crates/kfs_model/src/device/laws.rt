//! Laws of the definitions. Each is the contract of a function that has nothing to do when it is
//! called.

ghost use Rattle.std.specs.Prelude.{◌≡◌, ℕ, not, true, false, List, map, Some, Result};
ghost use Rattle.std.specs.List.{list_any, AllByRecursion};
ghost use Rattle.kfs_model.specs.Tree.{headers};
ghost use Rattle.kfs_model.specs.Sight.{sight, sight_over};
ghost use Rattle.kfs_model.specs.Soundness.{Climbs};
ghost use Rattle.kfs_model.specs.Placement.{TierSizes, Place, Placement, is_free};
ghost use Rattle.kfs_model.specs.Device.Device.{Devices};
ghost use Rattle.kfs_model.specs.Device.ShownTree.{DeviceImage, IsLawful, shown_tree};
ghost use Rattle.kfs_model.specs.Device.FreeRuns.{AreApart, free_runs};
ghost use Rattle.kfs_model.specs.Plan.{keyed_name};
ghost use Rattle.kfs_model.specs.Spelling.{IsBytes};
ghost use Rattle.kfs_model.specs.Device.Spelling.{IsRawImage, ImageSpellingFault, ImageAnswer};
ghost use Rattle.kfs_model.specs.Device.Canonical.{joined_extents, AreJoined};
ghost use Rattle.kfs_model.specs.Device.RawImage.{ExtentRow, RawImage, IsSpelled, node_entry, heads_of, names_of, placement_of, image_of, has_place, IsLaidOut};
ghost use Rattle.kfs_model.specs.Device.Rules.{parent_of, reaches_root};
ghost use Rattle.kfs_model.specs.Device.Finding.{Finding, finding_of, is_broken_at, IsLeastBroken, IsWellFormed};
ghost use Rattle.kfs_model.specs.Device.Listed.{rows_of, AreRowsOfImage};
ghost use Rattle.kfs_model.specs.Device.Laws.{IsFreeInRuns, AreBytesOfBlocks};

/// A file has as many bytes as its size. Each is the byte at its block's place, or 0 where the block
/// isn't mapped.
pub fn bytes_are_those_of_blocks()
    ensures { (placement : Placement) (devices : Devices) (number size : ℕ) → AreBytesOfBlocks placement devices number size }
{}

/// A well formed image shows a sound tree with the headers of its rows, and its extents place whole
/// blocks on the devices.
pub fn well_formed_image_is_lawful()
    ensures { (raw : RawImage) → IsSpelled raw → IsWellFormed raw → IsLawful (image_of raw) }
{}

/// Each lawful image can be written as well formed rows, with one extent for each block. These rows
/// give its tables and its tree again. So the ten rules refuse no lawful image.
pub fn lawful_image_has_rows()
    ensures { (image : DeviceImage) → IsLawful image → AreRowsOfImage image (rows_of image) }
{}

/// The node rows of a well formed image are the headers of its tree, and its name rows are the names.
/// So its cells show what the rows say, with counts and parents.
pub fn rows_are_headers_and_names()
    ensures nodes { (raw : RawImage) → IsWellFormed raw → (headers (shown_tree (image_of raw))).entries ≡ map node_entry raw.nodes }
    ensures names { (raw : RawImage) → IsWellFormed raw → (shown_tree (image_of raw)).names.entries ≡ map keyed_name raw.names }
    ensures cells { (raw : RawImage) → IsWellFormed raw → sight (shown_tree (image_of raw)) ≡ sight_over (heads_of raw) (names_of raw) }
{}

/// Each block of an extent of a well formed image lies where the extent says, with the extent's bytes.
pub fn extents_lie_as_they_say()
    ensures { (raw : RawImage) → IsWellFormed raw → AllByRecursion (IsLaidOut raw) raw.extents }
{}

/// A place is in a free run exactly where no block lies there, and runs don't touch each other. In a
/// well formed image these are the places of no extent.
pub fn free_runs_are_the_unused_places()
    ensures unused { (sizes : TierSizes) (placement : Placement) (place : Place) → IsFreeInRuns sizes placement place }
    ensures apart { (sizes : TierSizes) (placement : Placement) (tier : ℕ) → AreApart (free_runs sizes placement tier) }
    ensures in_no_extent { (raw : RawImage) → IsWellFormed raw → (place : Place) → is_free (placement_of raw) place ≡ not (list_any (has_place place) raw.extents) }
{}

/// The finding is the least number of the least broken rule, and there is only one. There is none
/// exactly where no rule is broken.
pub fn finding_is_the_least()
    ensures least { (raw : RawImage) (finding : Finding) → finding_of raw ≡ Some finding → IsLeastBroken raw finding }
    ensures found { (raw : RawImage) (finding : Finding) → IsLeastBroken raw finding → finding_of raw ≡ Some finding }
    ensures one { (raw : RawImage) (finding other : Finding) → IsLeastBroken raw finding → IsLeastBroken raw other → finding ≡ other }
    ensures unbroken { (raw : RawImage) → IsWellFormed raw → (rule number : ℕ) → is_broken_at raw rule number ≡ false }
    ensures well_formed { (raw : RawImage) → ((rule number : ℕ) → is_broken_at raw rule number ≡ false) → IsWellFormed raw }
{}

/// The test of whether a directory's parents lead to the root finds each climb that does, of any
/// length, and no other.
pub fn climb_test_is_exact()
    ensures found { (raw : RawImage) (number : ℕ) → reaches_root raw number ≡ true → (steps : ℕ) × Climbs (parent_of raw) steps number 1 }
    ensures only { (raw : RawImage) (number steps : ℕ) → Climbs (parent_of raw) steps number 1 → reaches_root raw number ≡ true }
{}

/// Any bytes have exactly one reading as a raw image: the answer of the decoder. What is read fulfills the
/// premise on names, uids and gids.
pub fn bytes_have_one_reading()
    ensures exists { (bytes : List ℕ) → IsBytes bytes → (answer : Result RawImage ImageSpellingFault) × ImageAnswer bytes answer }
    ensures is_one { (bytes : List ℕ) → IsBytes bytes → (one other : Result RawImage ImageSpellingFault) → ImageAnswer bytes one → ImageAnswer bytes other → one ≡ other }
    ensures spelled { (raw : RawImage) → IsRawImage raw → IsSpelled raw }
{}

/// Extents that were joined are as long as can be: none goes on from the one before it.
pub fn joined_extents_are_joined()
    ensures { (rows : List ExtentRow) → AreJoined (joined_extents rows) }
{}
