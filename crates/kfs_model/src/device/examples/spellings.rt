//! Raw images with the bytes that encode them, and bytes that are no raw image.

ghost use Rattle.std.specs.Prelude.{[], ◌∷◌, ◌++◌, drop, take, Ok, Err};
ghost use Rattle.kfs_model.specs.Device.Spelling.{BadImageHeader, BadImageRow, ImageAnswer, ImageTrailing};
ghost use Rattle.kfs_model.specs.Device.Example.{root_alone, in_version_1, one_file, block_at, extent, letters, header_bytes, root_row_bytes, root_bytes, file_row_bytes, name_a_bytes, extent_5_bytes, file_bytes_with, boastful_bytes, large_tier_bytes};

/// The root alone over three tiers of eight blocks: 54 bytes. The format bounds no mode; rule 3 does.
#[tactic(auto, unfolding(crate::specs::Spelling::number16, crate::specs::Spelling::number32, crate::specs::Spelling::number64))]
pub fn root_alone()
    ensures first { ImageAnswer (root_bytes 1 1 255) (Ok (in_version_1 (root_alone 511))) }
    ensures second { ImageAnswer (root_bytes 2 1 255) (Ok (root_alone 511)) }
    ensures any_mode { ImageAnswer (root_bytes 1 255 255) (Ok (in_version_1 (root_alone 65535))) }
{}

/// A file of four bytes in one block at place 2 of tier 0: its extent has 4,096 bytes.
#[tactic(auto, unfolding(crate::specs::Spelling::number16, crate::specs::Spelling::number32, crate::specs::Spelling::number64))]
pub fn file_in_a_block()
    ensures { ImageAnswer (file_bytes_with (extent_5_bytes 0 1 (letters 1))) (Ok (one_file 4 (block_at 5 0 2 ∷ []))) }
{}

/// Bytes without a header: too few, another first byte, a version that there isn't, a tier that is too
/// large. And one byte too many behind the last row.
pub fn no_images()
    ensures few { ImageAnswer (take 28 (root_bytes 1 1 255)) (Err BadImageHeader) }
    ensures first_byte { ImageAnswer (76 ∷ drop 1 (root_bytes 1 1 255)) (Err BadImageHeader) }
    ensures version_0 { ImageAnswer (root_bytes 0 1 255) (Err BadImageHeader) }
    ensures version_3 { ImageAnswer (root_bytes 3 1 255) (Err BadImageHeader) }
    ensures large_tier { ImageAnswer large_tier_bytes (Err BadImageHeader) }
    ensures trailing { ImageAnswer (root_bytes 1 1 255 ++ 0 ∷ []) (Err ImageTrailing) }
{}

/// Bytes in which a row is missing, named by its index among all rows: a cut node, a node without a
/// kind, a cut name, an extent with a byte too few, on a tier that there isn't, or without a block. And a
/// header alone that counts as many rows as it can.
pub fn no_rows()
    ensures node { ImageAnswer (take 53 (root_bytes 1 1 255)) (Err (BadImageRow 0)) }
    ensures kind { ImageAnswer (header_bytes 1 2 0 0 ++ root_row_bytes 1 255 ++ 0 ∷ 0 ∷ 0 ∷ 5 ∷ 2 ∷ drop 5 file_row_bytes) (Err (BadImageRow 1)) }
    ensures name { ImageAnswer (header_bytes 1 2 1 0 ++ root_row_bytes 1 255 ++ file_row_bytes ++ take 9 name_a_bytes) (Err (BadImageRow 2)) }
    ensures byte_too_few { ImageAnswer (file_bytes_with (extent_5_bytes 0 1 (take 4095 (letters 1)))) (Err (BadImageRow 3)) }
    ensures tier { ImageAnswer (file_bytes_with (extent_5_bytes 3 1 (letters 1))) (Err (BadImageRow 3)) }
    ensures no_block { ImageAnswer (file_bytes_with (extent_5_bytes 0 0 [])) (Err (BadImageRow 3)) }
    ensures counts_alone { ImageAnswer boastful_bytes (Err (BadImageRow 0)) }
{}
