//! Rules 4 to 6: the name rows.
ghost use Rattle.std.specs.Prelude.{◌≡◌, ◌+◌, ◌<◌, ◌^◌, IfOk, None, length, map};
ghost use Rattle.std.specs.Option.{option_copied, option_map};
ghost use Rattle.kfs_model.specs.Tree.{name_order};
ghost use Rattle.kfs_types.specs.Views.{kind_of, name_row_of};
ghost use Rattle.kfs_model.specs.Device.Rules.{is_above, names_fit, rule_4, rule_5, rule_6};
ghost use Rattle.kfs_model.specs.Device.Finding.{least_failed};
ghost use Rattle.kfs_shape.specs.Links.{aim_test, inside_test, AreLinks};
ghost use Rattle.kfs_shape.specs.Names.{least_unordered};
ghost use Rattle.kfs_image.specs.Codec.RawImages.{raw_node_of, raw_of};
ghost use Rattle.kfs_shape.specs.NameCounts.{CountsLeads, CountsNames, CountsOne, count_in, counted_test};
ghost use Rattle.kfs_shape.specs.Heads.{head_at, ShowsHeads};

use crate::counts::span;
use crate::heads::{has_directory, has_node};
use crate::least::{lesser, noted, previous};
use crate::links::Link;
use crate::node_test::{AskRows, NodeTest};
use kfs_image::{RawImage, RawNode};
use kfs_maps::Pages;
use kfs_types::{Header, Kind, LINK_LIMIT, NameRow, ROOT};
use std::alloc::{AllocError, Allocator};

/// Whether the row's directory and name are above those of the row before.
fn is_in_order(before: Option<&NameRow>, row: &NameRow) -> bool
    ensures { result ≡ is_above name_order (λ r. (r.directory, r.name)) (option_map name_row_of (option_copied before.entry), name_row_of row.now) }
{
    match before {
        None => true,
        Some(other) => {
            let by_directory = other.dir.cmp(&row.dir);
            by_directory.then(other.name.cmp(&row.name)).is_lt()
        }
    }
}

/// The least directory number of a row that isn't above the row before. None if there is no such row. Takes
/// no memory.
pub fn least_unordered(rows: &[NameRow]) -> Option<u32>
    ensures { result ≡ least_unordered (map name_row_of rows.now) }
{
    let mut least = None;
    for (index, row) in rows.iter().enumerate() {
        least = noted(least, is_in_order(previous(rows, index), row), row.dir);
    }
    least
}

/// The least number that a name has as its directory's though it is none's. None if there is no such name.
fn least_outside<A: Allocator>(links: &[Link], headers: &Pages<Header, A>) -> Option<u32>
    ensures { result ≡ least_failed (map (inside_test (head_at headers.now)) links.now) }
{
    let mut least = None;
    for link in links.iter() {
        least = noted(least, has_directory(headers, link.dir), link.dir);
    }
    least
}

/// The least number that a name leads to though it is no node's, or is 1. None if there is no such name.
fn least_lost<A: Allocator>(links: &[Link], headers: &Pages<Header, A>) -> Option<u32>
    ensures { result ≡ least_failed (map (aim_test (head_at headers.now)) links.now) }
{
    let mut least = None;
    for link in links.iter() {
        let holds = has_node(headers, link.number) && link.number != ROOT;
        least = noted(least, holds, link.number);
    }
    least
}

/// Rule 4: the least directory number of a name row that isn't above the row before, or whose directory
/// isn't one. None if there is no such row. Takes no memory.
pub(crate) fn least_out_of_order<A: Allocator, T: AskRows>(
    raw: &RawImage<A>,
    links: &[Link],
    headers: &Pages<Header, A>,
    ask: &T,
) -> Option<u32>
    requires can_ask { T.can_ask ask.now }
    requires shown { ShowsHeads headers.now raw.now }
    requires links { AreLinks links.now (raw_of raw.now) }
    ensures { result ≡ least_failed (rule_4 (raw_of raw.now)) }
{
    let unordered = ask.least_unordered(raw.names.as_slice());
    lesser(unordered, least_outside(links, headers))
}

/// Rule 5: the least number that a name leads to though it is no node's, or is 1. None if there is no
/// such name. Takes no memory.
pub(crate) fn least_lost_target<A: Allocator>(
    raw: &RawImage<A>,
    links: &[Link],
    headers: &Pages<Header, A>,
) -> Option<u32>
    requires shown { ShowsHeads headers.now raw.now }
    requires links { AreLinks links.now (raw_of raw.now) }
    ensures { result ≡ least_failed (rule_5 (raw_of raw.now)) }
{
    least_lost(links, headers)
}

/// How many names lead to each number below `many`. `Err` where memory runs out.
fn name_counts<A: Allocator + Copy>(
    alloc: A,
    many: usize,
    links: &[Link],
) -> Result<Vec<u64, A>, AllocError>
    ensures { IfOk result (λ counts. CountsLeads many counts.items links.now) }
{
    let mut counts = vec![in alloc; 0u64; many]?;
    for link in links.iter() {
        count_one(&mut counts, link.number);
    }
    Ok(counts)
}

/// Counts the number once more, if the list has it.
fn count_one(counts: &mut [u64], number: u32)
    requires { number < length counts.old → count_in counts.old number + 1 < 2 ^ 64 }
    ensures { CountsOne counts.old counts.new number }
{
    let at = number as usize;
    if at < counts.len() {
        counts[at] += 1;
    }
}

/// How often the list has counted the number.
fn count_in(counts: &[u64], number: u32) -> u64
    ensures { result ≡ count_in counts.now number }
{
    match counts.get(number as usize) {
        Some(count) => *count,
        None => 0,
    }
}

/// Whether the node may have this many names.
fn may_have_names(row: &RawNode, names: u64) -> bool
    ensures { result ≡ names_fit (kind_of row.now.header.kind) row.now.number row.now.header.links names }
{
    let header = row.header;
    match header.kind {
        Kind::File => {
            names >= 1 && names <= u64::from(LINK_LIMIT) && u64::from(header.links) == names
        }
        Kind::Directory => row.number == ROOT || names == 1,
    }
}

/// Whether the node has as many names as it should, given how many lead to each number.
pub(crate) fn has_right_names(counts: &[u64], row: &RawNode) -> bool
    ensures { result ≡ (counted_test counts.now (raw_node_of row.now)).holds }
{
    may_have_names(row, count_in(counts, row.number))
}

/// Rule 6: the least number of a file that doesn't have 1 to 1,024 names, or not as many as its links,
/// or of a directory other than 1 that doesn't have exactly one name. None if there is no such node.
/// `Err` where memory runs out.
pub(crate) fn least_miscounted<A: Allocator + Copy, T: AskRows>(
    alloc: A,
    raw: &RawImage<A>,
    links: &[Link],
    ask: &T,
) -> Result<Option<u32>, AllocError>
    requires can_ask { T.can_ask ask.now }
    requires links { AreLinks links.now (raw_of raw.now) }
    requires ascend { least_failed (rule_4 (raw_of raw.now)) ≡ None }
    ensures { IfOk result (λ least. least ≡ least_failed (rule_6 (raw_of raw.now))) }
{
    let counts = count_names(alloc, raw, links)?;
    Ok(ask.least_failed(NodeTest::Names(counts.as_slice()), raw.nodes.as_slice()))
}

/// How many names lead to each node, by its number, in an image whose name rows ascend. `Err` where memory
/// is refused.
fn count_names<A: Allocator + Copy>(
    alloc: A,
    raw: &RawImage<A>,
    links: &[Link],
) -> Result<Vec<u64, A>, AllocError>
    requires links { AreLinks links.now (raw_of raw.now) }
    requires ascend { least_failed (rule_4 (raw_of raw.now)) ≡ None }
    ensures { IfOk result (λ counts. CountsNames counts.items (raw_of raw.now)) }
{
    let many = span(raw.nodes.as_slice());
    name_counts(alloc, many, links)
}
