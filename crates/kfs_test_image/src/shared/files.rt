//! Logs of client 7 with their right plans, from the description of the formats.

use kfs_test_support::vectors::{CREATE_LOG, CREATE_PLAN};

/// A log that creates one file in the root, its plan, and the file's number.
#[derive(Clone, Copy)]
pub struct File {
    pub log: &'static [u8],
    pub plan: &'static [u8],
    pub number: u32,
}

/// `a`, with the number 5.
pub static FILE_A: File = File {
    log: CREATE_LOG,
    plan: CREATE_PLAN,
    number: 5,
};

/// `p0` to `p3`, with the numbers 10 to 13.
pub static FILES_P: [File; 4] = [
    File {
        log: b"KLOG\x01\0\0\0\x07\0\x01\x01\0\0\0\x01\x02p0\0\0\0\x0a\0\x01\xa4",
        plan: b"KPLN\x01\0\x01\0\x01\0\0\0\0\0\0\0\x01\x02p0\0\0\0\x0a\0\0\0\x0a\x01\x01\xa4\0\
            \0\x03\xe8\0\0\x03\xe8\0\x01\0\0\0\0\0\0\0\0",
        number: 10,
    },
    File {
        log: b"KLOG\x01\0\0\0\x07\0\x01\x01\0\0\0\x01\x02p1\0\0\0\x0b\0\x01\xa4",
        plan: b"KPLN\x01\0\x01\0\x01\0\0\0\0\0\0\0\x01\x02p1\0\0\0\x0b\0\0\0\x0b\x01\x01\xa4\0\
            \0\x03\xe8\0\0\x03\xe8\0\x01\0\0\0\0\0\0\0\0",
        number: 11,
    },
    File {
        log: b"KLOG\x01\0\0\0\x07\0\x01\x01\0\0\0\x01\x02p2\0\0\0\x0c\0\x01\xa4",
        plan: b"KPLN\x01\0\x01\0\x01\0\0\0\0\0\0\0\x01\x02p2\0\0\0\x0c\0\0\0\x0c\x01\x01\xa4\0\
            \0\x03\xe8\0\0\x03\xe8\0\x01\0\0\0\0\0\0\0\0",
        number: 12,
    },
    File {
        log: b"KLOG\x01\0\0\0\x07\0\x01\x01\0\0\0\x01\x02p3\0\0\0\x0d\0\x01\xa4",
        plan: b"KPLN\x01\0\x01\0\x01\0\0\0\0\0\0\0\x01\x02p3\0\0\0\x0d\0\0\0\x0d\x01\x01\xa4\0\
            \0\x03\xe8\0\0\x03\xe8\0\x01\0\0\0\0\0\0\0\0",
        number: 13,
    },
];

/// `q0` to `q3`, with the numbers 14 to 17.
pub static FILES_Q: [File; 4] = [
    File {
        log: b"KLOG\x01\0\0\0\x07\0\x01\x01\0\0\0\x01\x02q0\0\0\0\x0e\0\x01\xa4",
        plan: b"KPLN\x01\0\x01\0\x01\0\0\0\0\0\0\0\x01\x02q0\0\0\0\x0e\0\0\0\x0e\x01\x01\xa4\0\
            \0\x03\xe8\0\0\x03\xe8\0\x01\0\0\0\0\0\0\0\0",
        number: 14,
    },
    File {
        log: b"KLOG\x01\0\0\0\x07\0\x01\x01\0\0\0\x01\x02q1\0\0\0\x0f\0\x01\xa4",
        plan: b"KPLN\x01\0\x01\0\x01\0\0\0\0\0\0\0\x01\x02q1\0\0\0\x0f\0\0\0\x0f\x01\x01\xa4\0\
            \0\x03\xe8\0\0\x03\xe8\0\x01\0\0\0\0\0\0\0\0",
        number: 15,
    },
    File {
        log: b"KLOG\x01\0\0\0\x07\0\x01\x01\0\0\0\x01\x02q2\0\0\0\x10\0\x01\xa4",
        plan: b"KPLN\x01\0\x01\0\x01\0\0\0\0\0\0\0\x01\x02q2\0\0\0\x10\0\0\0\x10\x01\x01\xa4\0\
            \0\x03\xe8\0\0\x03\xe8\0\x01\0\0\0\0\0\0\0\0",
        number: 16,
    },
    File {
        log: b"KLOG\x01\0\0\0\x07\0\x01\x01\0\0\0\x01\x02q3\0\0\0\x11\0\x01\xa4",
        plan: b"KPLN\x01\0\x01\0\x01\0\0\0\0\0\0\0\x01\x02q3\0\0\0\x11\0\0\0\x11\x01\x01\xa4\0\
            \0\x03\xe8\0\0\x03\xe8\0\x01\0\0\0\0\0\0\0\0",
        number: 17,
    },
];

/// Client 7 writes "x" to file 5, at its first byte.
pub static WRITE_LOG: &[u8] = b"KLOG\x01\0\0\0\x07\0\x01\x02\0\0\0\x05\0\0\0\0\0\0\0\0\0\0\0\x01x";

/// The same by client 8.
pub static WRITE_LOG_OF_8: &[u8] =
    b"KLOG\x01\0\0\0\x08\0\x01\x02\0\0\0\x05\0\0\0\0\0\0\0\0\0\0\0\x01x";

/// The header of 5, and one piece.
pub static WRITE_PLAN: &[u8] =
    b"KPLN\x01\0\0\0\x01\0\0\0\x01\0\0\0\x05\x01\x01\xa4\0\0\x03\xe8\0\0\x03\xe8\0\
      \x01\0\0\0\0\0\0\0\x01\0\0\0\x05\0\0\0\0\0\0\0\0\0\0\0\0\0\0\0\x01\x01\0\0\0\0\
      \0\0";
