//! Calls and states as bytes. `tools/fuzz` and hosts/c/states.c have what such calls are answered.

/// Client 7 hands in a log of one byte and a plan of two.
pub const SUBMIT: &[u8] = b"\x01\0\0\0\x07\0\0\0\x01\x09\0\0\0\x02\x08\x07";

/// Client 7 asks for a write lease on the root up to moment 100.
pub const LEASE: &[u8] = b"\x02\0\0\0\x07\x01\0\0\0\0\0\0\0\x64\0\x01/";

/// Client 7 gives up its lease on node 258.
pub const DROP: &[u8] = b"\x03\0\0\0\x07\0\0\x01\x02";

/// The moment goes on to 90.
pub const TICK: &[u8] = b"\x04\0\0\0\0\0\0\0\x5a";

/// Block 1 of file 5 moves to place 258 of tier 2, and block 0 of file 6 to place 0 of tier 1.
pub const MIGRATE: &[u8] =
    b"\x05\0\x02\0\0\0\x05\0\0\0\x01\x02\0\0\x01\x02\0\0\0\x06\0\0\0\0\x01\0\0\0\0";

/// Client 7 asks for a write lease on node 258, by its number, up to moment 100.
pub const LEASE_AT: &[u8] = b"\x06\0\0\0\x07\x01\0\0\0\0\0\0\0\x64\0\0\x01\x02";

/// Moment 5, client 7 with group 50, its lease on node 1, and an image of three bytes that are none.
pub const STATE: &[u8] = b"KDSK\x01\0\0\0\0\0\0\0\x05\0\0\0\x01\0\0\0\x01\
      \0\0\0\x07\0\0\x03\xe8\0\0\x03\xe9\x01\0\0\0\x02\0\0\0\x63\x01\0\0\0\x32\
      \0\0\0\x01\0\0\0\x07\x01\0\0\0\0\0\0\0\x64\x04\x05\x06";

/// How many of its bytes come before the image.
pub const BEFORE_IMAGE: usize = 64;

/// The header of a state at moment 5, with as many clients and leases as can be counted, and no row.
pub const NO_ROWS: &[u8] = b"KDSK\x01\0\0\0\0\0\0\0\x05\xff\xff\xff\xff\xff\xff\xff\xff";
