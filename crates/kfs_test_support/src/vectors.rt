//! Logs and plans beside the bytes that encode them, from the description of the formats.

/// Client 7 creates file 5 named "a" in the root, with mode 0o644.
pub const CREATE_LOG: &[u8] = b"KLOG\x01\0\0\0\x07\0\x01\x01\0\0\0\x01\x01a\0\0\0\x05\0\x01\xa4";

/// The name "a" leads to 5, and the header of 5.
pub const CREATE_PLAN: &[u8] = b"KPLN\x01\0\x01\0\x01\0\0\0\0\0\0\0\x01\x01a\0\0\0\x05\0\0\0\x05\
      \x01\x01\xa4\0\0\x03\xe8\0\0\x03\xe8\0\x01\0\0\0\0\0\0\0\0";

/// Client 7 writes ten letters to file 5, from its first byte on.
pub const LETTERS_LOG: &[u8] = b"KLOG\x01\0\0\0\x07\0\x01\x02\0\0\0\x05\0\0\0\0\0\0\0\0\
      \0\0\0\x0aABCDEFGHIJ";

/// The header of 5, and one piece.
pub const LETTERS_PLAN: &[u8] = b"KPLN\x01\0\0\0\x01\0\0\0\x01\0\0\0\x05\x01\x01\xa4\0\0\x03\
      \xe8\0\0\x03\xe8\0\x01\0\0\0\0\0\0\0\x0a\0\0\0\x05\0\0\0\0\0\0\0\0\0\0\0\0\0\
      \0\0\x0a\x01\0\0\0\0\0\0";

/// Client 7 writes "xy" at 2 and "QRS" at 3 of file 5, cuts it to 4 bytes, lengthens it to 8, writes "Z" at 12.
pub const EDITS_LOG: &[u8] = b"KLOG\x01\0\0\0\x07\0\x05\x02\0\0\0\x05\0\0\0\0\0\0\0\x02\0\0\0\
      \x02xy\x02\0\0\0\x05\0\0\0\0\0\0\0\x03\0\0\0\x03QRS\x03\0\0\0\
      \x05\0\0\0\0\0\0\0\x04\x03\0\0\0\x05\0\0\0\0\0\0\0\x08\x02\0\0\0\
      \x05\0\0\0\0\0\0\0\x0c\0\0\0\x01Z";

/// The header of 5, and four pieces of its bytes.
pub const EDITS_PLAN: &[u8] = b"KPLN\x01\0\0\0\x01\0\0\0\x04\0\0\0\x05\x01\x01\xa4\0\0\x03\xe8\0\
      \0\x03\xe8\0\x01\0\0\0\0\0\0\0\x0d\0\0\0\x05\0\0\0\0\0\0\0\x02\0\
      \0\0\0\0\0\0\x01\x01\0\0\0\0\0\0\0\0\0\x05\0\0\0\0\0\0\0\x03\0\0\
      \0\0\0\0\0\x01\x01\0\x01\0\0\0\0\0\0\0\x05\0\0\0\0\0\0\0\x04\0\0\
      \0\0\0\0\0\x08\0\0\0\0\x05\0\0\0\0\0\0\0\x0c\0\0\0\0\0\0\0\x01\
      \x01\0\x04\0\0\0\0";

/// Client 7 moves "x" of directory 20 into directory 12.
pub const MOVE_LOG: &[u8] = b"KLOG\x01\0\0\0\x07\0\x01\x06\0\0\0\x14\x01x\0\0\0\x0c\x01x";

/// "x" of 12 leads to 10, and "x" of 20 to none.
pub const MOVE_PLAN: &[u8] = b"KPLN\x01\0\x02\0\0\0\0\0\0\0\0\0\x0c\x01x\0\0\0\x0a\0\0\0\x14\
      \x01x\0\0\0\0";

/// Client 9 links node 5 as "bb" in the root, takes the directory "c" from there, and opens 5 to all.
pub const OTHERS_LOG: &[u8] = b"KLOG\x01\0\0\0\x09\0\x03\x04\0\0\0\x05\0\0\0\x01\x02bb\
      \x05\0\0\0\x01\x01c\x01\x07\0\0\0\x05\x01\xff";

/// Client 7 makes 50 the group of file 5, in version 2.
pub const REGROUP_LOG: &[u8] = b"KLOG\x02\0\0\0\x07\0\x01\x08\0\0\0\x05\0\0\0\x32";

/// The header of 5 with group 50, in version 2.
pub const REGROUP_PLAN: &[u8] = b"KPLN\x02\0\0\0\x01\0\0\0\0\0\0\0\x05\x01\x01\xa4\0\0\x03\
      \xe8\0\0\0\x32\0\x01\0\0\0\0\0\0\0\0";

/// Node 20 is gone.
pub const GONE_PLAN: &[u8] = b"KPLN\x01\0\0\0\x01\0\0\0\0\0\0\0\x14\0";

/// No entry of client 7.
pub const EMPTY_LOG: &[u8] = b"KLOG\x01\0\0\0\x07\0\0";

/// No row.
pub const EMPTY_PLAN: &[u8] = b"KPLN\x01\0\0\0\0\0\0\0\0";

/// An image of version 1 over three tiers of eight blocks, with the root alone.
pub const ROOT_IMAGE: &[u8] = b"KIMG\x01\0\0\0\x08\0\0\0\x08\0\0\0\x08\0\0\0\x01\0\0\0\0\0\0\0\0\
    \0\0\0\x01\x01\x01\xff\0\0\0\0\0\0\0\0\0\x01\0\0\0\0\0\0\0\0";
