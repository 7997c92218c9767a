//! Rules 1 and 3: the node rows by themselves.
ghost use Rattle.std.specs.Prelude.{◌≡◌};
ghost use Rattle.std.specs.Option.{option_copied, option_map};
ghost use Rattle.kfs_model.specs.Spelling.{greatest_mode_of};
ghost use Rattle.kfs_model.specs.Device.Rules.{number_test, header_test, rule_1, rule_3};
ghost use Rattle.kfs_model.specs.Device.Finding.{least_failed};
ghost use Rattle.kfs_image.specs.Codec.RawImages.{raw_node_of, raw_of};

use crate::least::{noted, previous};
use crate::node_test::{AskRows, NodeTest};
use kfs_image::{RawImage, RawNode};
use kfs_types::{GREATEST_MODE, GREATEST_MODE_OF_VERSION_1, GREATEST_NUMBER, Kind, SIZE_LIMIT};
use std::alloc::Allocator;

/// Whether the number is 1 to 65,536 and above that of the row before.
fn is_in_order(before: Option<&RawNode>, row: &RawNode) -> bool
    ensures { result ≡ (number_test (option_map raw_node_of (option_copied before.entry), raw_node_of row.now)).holds }
{
    let is_above = match before {
        None => true,
        Some(other) => other.number < row.number,
    };
    is_above && row.number >= 1 && row.number <= GREATEST_NUMBER
}

/// Rule 1: the least number of a node row that is out of range or isn't above the row before. None if
/// there is no such row. Takes no memory.
pub(crate) fn least_out_of_order<A: Allocator>(raw: &RawImage<A>) -> Option<u32>
    ensures { result ≡ least_failed (rule_1 (raw_of raw.now)) }
{
    let rows = raw.nodes.as_slice();
    let mut least = None;
    for (index, row) in rows.iter().enumerate() {
        let holds = is_in_order(previous(rows, index), row);
        least = noted(least, holds, row.number);
    }
    least
}

/// The greatest mode of a node in an image of this version.
fn greatest_mode(version: u8) -> u16
    ensures { result ≡ greatest_mode_of version }
{
    if version == 1 {
        GREATEST_MODE_OF_VERSION_1
    } else {
        GREATEST_MODE
    }
}

/// Whether mode and size are in the range of an image of this version, and a directory has 1 link and
/// size 0.
pub(crate) fn is_header_in_range(version: u8, row: &RawNode) -> bool
    ensures { result ≡ (header_test version (raw_node_of row.now)).holds }
{
    let header = row.header;
    let fits = match header.kind {
        Kind::File => true,
        Kind::Directory => header.links == 1 && header.size == 0,
    };
    header.mode <= greatest_mode(version) && u128::from(header.size) <= SIZE_LIMIT && fits
}

/// Rule 3: the least number of a node whose mode is over 0o1777 (over 0o777 in version 1) or whose size
/// is over 2^32, or of a directory with other links than 1 or another size than 0. None if there is no
/// such node.
pub(crate) fn least_bad_header<A: Allocator, T: AskRows>(raw: &RawImage<A>, ask: &T) -> Option<u32>
    requires { T.can_ask ask.now }
    ensures { result ≡ least_failed (rule_3 (raw_of raw.now)) }
{
    ask.least_failed(NodeTest::Header(raw.version), raw.nodes.as_slice())
}
