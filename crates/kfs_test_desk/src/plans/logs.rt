//! Logs of client 7 as bytes, beside those of `kfs_test_support::vectors`.

use std::alloc::{AllocError, Global};

/// A Write without bytes at 100 of file 5.
pub const NO_BYTES: &[u8] = b"KLOG\x01\0\0\0\x07\0\x01\x02\0\0\0\x05\0\0\0\0\0\0\0\x64\0\0\0\0";

/// Creates file 6 named "b" in the root, writes "hi" and unlinks it.
pub const CREATE_AND_UNLINK: &[u8] = b"KLOG\x01\0\0\0\x07\0\x03\
      \x01\0\0\0\x01\x01b\0\0\0\x06\0\x01\xa4\
      \x02\0\0\0\x06\0\0\0\0\0\0\0\0\0\0\0\x02hi\
      \x05\0\0\0\x01\x01b\0";

/// Creates file 6 named "r" in the root, which its owner may only read, and writes "hi".
pub const READ_ONLY: &[u8] = b"KLOG\x01\0\0\0\x07\0\x02\
      \x01\0\0\0\x01\x01r\0\0\0\x06\0\x01\x24\
      \x02\0\0\0\x06\0\0\0\0\0\0\0\0\0\0\0\x02hi";

/// Lengthens file 5 to 2^32 bytes and writes "x" to the last one.
pub const LAST_BYTE: &[u8] = b"KLOG\x01\0\0\0\x07\0\x02\
      \x03\0\0\0\x05\0\0\0\x01\0\0\0\0\
      \x02\0\0\0\x05\0\0\0\0\xff\xff\xff\xff\0\0\0\x01x";

/// Creates directory 20 named "p" in the root, and in it directory 10 named "x".
pub const NESTED: &[u8] = b"KLOG\x01\0\0\0\x07\0\x02\
      \x01\0\0\0\x01\x01p\0\0\0\x14\x01\x01\xff\
      \x01\0\0\0\x14\x01x\0\0\0\x0a\x01\x01\xff";

/// Removes directory 10 and then directory 20.
pub const REMOVE_NESTED: &[u8] = b"KLOG\x01\0\0\0\x07\0\x02\
      \x05\0\0\0\x14\x01x\x01\
      \x05\0\0\0\x01\x01p\x01";

/// Creates the sticky directory 21 named "t" in the root, with mode 0o1777. It is of version 2.
pub const STICKY: &[u8] = b"KLOG\x02\0\0\0\x07\0\x01\
      \x01\0\0\0\x01\x01t\0\0\0\x15\x01\x03\xff";

/// Creates file 6 named "b" in directory 21, moves it to the root and unlinks it there.
pub const OUT_OF_STICKY: &[u8] = b"KLOG\x01\0\0\0\x07\0\x03\
      \x01\0\0\0\x15\x01b\0\0\0\x06\0\x01\xa4\
      \x06\0\0\0\x15\x01b\0\0\0\x01\x01c\
      \x05\0\0\0\x01\x01c\0";

/// Sets the group of file 5 to 50. It is of version 2.
pub const REGROUP: &[u8] = b"KLOG\x02\0\0\0\x07\0\x01\x08\0\0\0\x05\0\0\0\x32";

/// Replaces file 5, which is named "a", by a new one, and links and moves that. A later name leads to what an earlier
/// entry named.
pub const RENAMES: &[u8] = b"KLOG\x01\0\0\0\x07\0\x05\
      \x01\0\0\0\x01\x01n\0\0\0\x06\0\x01\xa4\
      \x04\0\0\0\x06\0\0\0\x01\x01m\
      \x06\0\0\0\x01\x01n\0\0\0\x01\x01a\
      \x05\0\0\0\x01\x01m\0\
      \x07\0\0\0\x06\x01\x80";

/// Writes "x" to file 77, which isn't there.
pub const NO_NODE: &[u8] = b"KLOG\x01\0\0\0\x07\0\x01\x02\0\0\0\x4d\0\0\0\0\0\0\0\0\0\0\0\x01x";

/// How many Writes there are in `interleaved`.
const COUNT: u16 = 4_096;

/// Adds a Write of "x" to file 5.
fn push_write(log: &mut Vec<u8, Global>, offset: u64) -> Result<(), AllocError> {
    log.extend_from_slice(b"\x02\0\0\0\x05")?;
    log.extend_from_slice(&offset.to_be_bytes())?;
    log.extend_from_slice(b"\0\0\0\x01x")
}

/// Adds Writes at every second byte, from the first one on or from the last one back.
fn push_writes(log: &mut Vec<u8, Global>, is_backward: bool) -> Result<(), AllocError> {
    for entry in 0..COUNT {
        let place = if is_backward {
            COUNT - 1 - entry
        } else {
            entry
        };
        push_write(log, u64::from(place) * 2)?;
    }
    Ok(())
}

/// 4,096 Writes of "x" at every second byte of file 5, in this order or in the reverse one.
pub fn interleaved(alloc: Global, is_backward: bool) -> Option<Vec<u8, Global>> {
    let mut log = Vec::new(alloc);
    log.extend_from_slice(b"KLOG\x01\0\0\0\x07").ok()?;
    log.extend_from_slice(&COUNT.to_be_bytes()).ok()?;
    push_writes(&mut log, is_backward).ok()?;
    Some(log)
}
