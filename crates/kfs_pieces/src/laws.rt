//! Laws of right pieces and of the lists of blocks. Each is the contract of a function that has nothing to do when it is
//! called.

ghost use Rattle.std.specs.Prelude.{◌≡◌, ℕ, List, flat_map};
ghost use Rattle.kfs_model.specs.Placement.{need, written_blocks};
ghost use Rattle.kfs_model.specs.Plan.{ArePieces};
ghost use Rattle.kfs_model.specs.PlanRow.{Piece};
ghost use Rattle.kfs_model.specs.Run.{Mark};
ghost use Rattle.kfs_model.specs.Tree.{Tree};
ghost use Rattle.kfs_model.specs.FirstWrong.{first_wrong_piece};
ghost use Rattle.kfs_pieces.specs.BlockLists.{IsClearedInRanges, node_written};
ghost use Rattle.kfs_pieces.specs.PiecesApart.{first_apart};
ghost use Rattle.kfs_pieces.specs.TouchedBlocks.{counted_files};

/// The first wrong piece is found by comparing the plan's pieces with any right pieces, however those
/// are cut.
pub fn pieces_are_followed()
    ensures { (after : Tree Mark) (right pieces : List Piece) → ArePieces after right → first_wrong_piece after pieces ≡ first_apart 0 pieces right }
{}

/// The room that a landing takes can be counted over right pieces, file by file, however they are cut.
/// No byte is looked at.
pub fn need_is_counted_over_pieces()
    ensures { (after : Tree Mark) (right : List Piece) → ArePieces after right → need after ≡ counted_files right after.nodes.entries }
{}

/// The blocks that a log writes are those listed from right pieces, file by file, however the pieces
/// are cut.
pub fn written_blocks_are_listed()
    ensures { (after : Tree Mark) (pieces : List Piece) → ArePieces after pieces → written_blocks after ≡ flat_map (node_written pieces) after.nodes.entries }
{}

/// The blocks of a file that a log makes all zero are those in the ranges from right pieces, however
/// the pieces are cut.
pub fn cleared_blocks_are_in_ranges()
    ensures { (after : Tree Mark) (pieces : List Piece) → ArePieces after pieces → (number : ℕ) → IsClearedInRanges after pieces number }
{}
