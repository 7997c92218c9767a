//! Rows that break each rule of an image alone, and rows that break none.

use crate::images::small::{ExtentLine, NodeLine, SmallImage};
use NodeLine::{Directory, Empty, File};
use kfs_shape::Kind;

/// How many rules there are.
pub const RULES: usize = 10;

const NO_ROWS: SmallImage = SmallImage {
    nodes: &[],
    names: &[],
    extents: &[],
};

const ROOT_ALONE: SmallImage = SmallImage {
    nodes: &[Directory(1)],
    names: &[],
    extents: &[],
};

/// For each rule a number, and rows that, next to a root directory, break this rule alone, at this
/// number. Rule 2 has no rows, since a missing root directory breaks it.
const BREAKS: [(u32, SmallImage); RULES] = [
    (
        11,
        SmallImage {
            nodes: &[File(12, 0), File(11, 0)],
            names: &[(1, b"1a", 11), (1, b"1b", 12)],
            extents: &[],
        },
    ),
    (1, NO_ROWS),
    (
        31,
        SmallImage {
            nodes: &[File(31, 4_294_967_297)],
            names: &[(1, b"3a", 31)],
            extents: &[],
        },
    ),
    (
        41,
        SmallImage {
            nodes: &[File(41, 0), File(42, 0)],
            names: &[(1, b"4a", 41), (41, b"a", 42)],
            extents: &[],
        },
    ),
    (
        51,
        SmallImage {
            nodes: &[],
            names: &[(1, b"5a", 51)],
            extents: &[],
        },
    ),
    (
        61,
        SmallImage {
            nodes: &[File(61, 0)],
            names: &[],
            extents: &[],
        },
    ),
    (
        71,
        SmallImage {
            nodes: &[Directory(71), Directory(72)],
            names: &[(71, b"a", 72), (72, b"a", 71)],
            extents: &[],
        },
    ),
    (
        81,
        SmallImage {
            nodes: &[File(81, 4096)],
            names: &[(1, b"8a", 81)],
            extents: &[ExtentLine(81, 1, 0, 0, 1, 4096)],
        },
    ),
    (
        91,
        SmallImage {
            nodes: &[File(91, 4096)],
            names: &[(1, b"9a", 91)],
            extents: &[ExtentLine(91, 0, 0, 8, 1, 4096)],
        },
    ),
    (
        101,
        SmallImage {
            nodes: &[File(101, 4096), File(102, 4096)],
            names: &[(1, b"Aa", 101), (1, b"Ab", 102)],
            extents: &[
                ExtentLine(101, 0, 1, 0, 1, 4096),
                ExtentLine(102, 0, 1, 0, 1, 4096),
            ],
        },
    ),
];

/// The rows that break the rule with this index.
fn breaking(index: usize) -> SmallImage {
    match BREAKS.get(index) {
        Some((_, rows)) => *rows,
        None => NO_ROWS,
    }
}

/// Rows that break the rules of both indexes, or the one if they are the same.
pub fn broken(first: usize, second: usize) -> [SmallImage; 3] {
    let has_root = first != 1 && second != 1;
    let root = if has_root { ROOT_ALONE } else { NO_ROWS };
    let is_alone = first == second;
    let others = if is_alone { NO_ROWS } else { breaking(second) };
    [root, breaking(first), others]
}

/// The finding of the rule with this index.
pub fn due(index: usize) -> Option<(u8, u32)> {
    let (number, _) = BREAKS.get(index)?;
    let rule = u8::try_from(index).ok()?.checked_add(1)?;
    Some((rule, *number))
}

/// A file of two blocks, in a directory.
pub const RIGHT: SmallImage = SmallImage {
    nodes: &[
        Directory(1),
        Directory(5),
        File(6, 8192),
        Empty(7, Kind::File, 0o777, 1),
    ],
    names: &[(1, b"a", 5), (5, b"a", 6), (5, b"b", 7)],
    extents: &[ExtentLine(6, 0, 2, 3, 2, 8192)],
};
