//! Rule 7: from each directory a climb along the parents reaches the root.
ghost use Rattle.std.specs.Prelude.{◌≡◌, ◌||◌, ◌<◌, ◌≤◌, ℕ, IfOk, IsTrue, None, length, map, Some, true};
ghost use Rattle.kfs_model.specs.Sight.{is_directory, is_file};
ghost use Rattle.kfs_model.specs.Device.Rules.{rule_1, rule_4, rule_7, reaches_root};
ghost use Rattle.kfs_model.specs.Device.Finding.{least_failed};
ghost use Rattle.kfs_shape.specs.Climbs.{ancestor_at, ancestor_from, is_root, not_elsewhere, top_test, EndAtRoot, LeadsFirst, ParentsOf};
ghost use Rattle.kfs_shape.specs.Heads.{head_at, ShowsHeads};
ghost use Rattle.kfs_shape.specs.Links.{AreLinks};
ghost use Rattle.kfs_image.specs.Codec.RawImages.{raw_node_of, raw_of};

use crate::counts::span;
use crate::heads::has_directory;
use crate::links::Link;
use crate::node_test::{AskRows, NodeTest};
use kfs_image::{RawImage, RawNode};
use kfs_maps::Pages;
use kfs_types::{Header, Kind, ROOT};
use std::alloc::{AllocError, Allocator};

/// 2 to the power of this is more steps than any climb without a circle takes.
const DOUBLINGS: u32 = 17;

/// Where the list leads from the number.
fn ancestor_at(ancestors: &[Option<u32>], number: u32) -> Option<u32>
    ensures { result ≡ ancestor_at ancestors.now number }
{
    match ancestors.get(number as usize) {
        Some(up) => *up,
        None => None,
    }
}

/// Makes the number lead to `up`, if it leads nowhere yet.
fn lead_first(ancestors: &mut [Option<u32>], number: u32, up: u32)
    ensures { LeadsFirst ancestors.old ancestors.new true number up }
{
    if let Some(None) = ancestors.get(number as usize) {
        ancestors[number as usize] = Some(up);
    }
}

/// Makes the number that a name leads to lead to the name's directory, if it is a directory's number and
/// leads nowhere yet.
fn lead_by_name<A: Allocator>(ancestors: &mut [Option<u32>], headers: &Pages<Header, A>, link: Link)
    ensures { LeadsFirst ancestors.old ancestors.new (is_directory (head_at headers.now link.number)) link.number link.dir }
{
    if has_directory(headers, link.number) {
        lead_first(ancestors, link.number, link.dir);
    }
}

/// For each directory the directory of its first name, and for the root itself. `Err` where memory is
/// refused.
fn parents<A: Allocator + Copy>(
    alloc: A,
    raw: &RawImage<A>,
    links: &[Link],
    headers: &Pages<Header, A>,
) -> Result<Vec<Option<u32>, A>, AllocError>
    requires shown { ShowsHeads headers.now raw.now }
    requires links { AreLinks links.now (raw_of raw.now) }
    requires in_range { least_failed (rule_1 (raw_of raw.now)) ≡ None }
    requires ascend { least_failed (rule_4 (raw_of raw.now)) ≡ None }
    ensures { IfOk result (λ ancestors. ParentsOf ancestors.items (raw_of raw.now)) }
{
    let many = span(raw.nodes.as_slice());
    let mut ancestors = vec![in alloc; None; many]?;
    lead_first(&mut ancestors, ROOT, ROOT);
    for link in links.iter() {
        lead_by_name(&mut ancestors, headers, *link);
    }
    Ok(ancestors)
}

/// Where the list leads from there, if anywhere.
fn ancestor_from(ancestors: &[Option<u32>], number: Option<u32>) -> Option<u32>
    ensures { result ≡ ancestor_from ancestors.now number }
{
    match number {
        Some(number) => ancestor_at(ancestors, number),
        None => None,
    }
}

/// The list in which each number leads as far as two steps of this one. `Err` where memory runs out.
fn doubled<A: Allocator>(
    alloc: A,
    ancestors: &[Option<u32>],
) -> Result<Vec<Option<u32>, A>, AllocError>
    ensures { IfOk result (λ twice. (number : ℕ) → ancestor_at twice.items number ≡ ancestor_from ancestors.now (ancestor_at ancestors.now number)) }
{
    let mut twice = Vec::with_capacity(alloc, ancestors.len())?;
    for up in ancestors.iter() {
        twice.push(ancestor_from(ancestors, *up))?;
    }
    Ok(twice)
}

/// The list in which each number from which a climb reaches the root leads to the root. `Err` where
/// memory runs out.
fn tops<A: Allocator + Copy>(
    alloc: A,
    raw: &RawImage<A>,
    links: &[Link],
    headers: &Pages<Header, A>,
) -> Result<Vec<Option<u32>, A>, AllocError>
    requires shown { ShowsHeads headers.now raw.now }
    requires links { AreLinks links.now (raw_of raw.now) }
    requires in_range { least_failed (rule_1 (raw_of raw.now)) ≡ None }
    requires ascend { least_failed (rule_4 (raw_of raw.now)) ≡ None }
    ensures { IfOk result (λ tops. (number : ℕ) → is_root (ancestor_at tops.items number) ≡ reaches_root (raw_of raw.now) number) }
{
    let mut ancestors = parents(alloc, raw, links, headers)?;
    for _ in 0..DOUBLINGS {
        if end_at_root(&ancestors) {
            return Ok(ancestors);
        }
        ancestors = doubled(alloc, &ancestors)?;
    }
    Ok(ancestors)
}

/// Whether the list leads no number elsewhere than to the root. Then it leads none any further.
fn end_at_root(ancestors: &[Option<u32>]) -> bool
    ensures { IsTrue result → EndAtRoot ancestors.now }
{
    for up in ancestors {
        if !is_at_root(*up) {
            return false;
        }
    }
    true
}

/// Whether this leads nowhere, or to the root.
fn is_at_root(up: Option<u32>) -> bool
    ensures { result ≡ not_elsewhere up }
{
    match up {
        Some(number) => number == ROOT,
        None => true,
    }
}

/// Whether the node is a file, or leads to the root.
pub(crate) fn is_below_root(tops: &[Option<u32>], row: &RawNode) -> bool
    ensures { result ≡ (top_test tops.now (raw_node_of row.now)).holds }
{
    row.header.kind == Kind::File || ancestor_at(tops, row.number) == Some(ROOT)
}

/// Rule 7: the least number of a directory from which a climb doesn't reach the root, if there is one.
/// `Err` where memory runs out.
pub(crate) fn least_unrooted<A: Allocator + Copy, T: AskRows>(
    alloc: A,
    raw: &RawImage<A>,
    links: &[Link],
    headers: &Pages<Header, A>,
    ask: &T,
) -> Result<Option<u32>, AllocError>
    requires can_ask { T.can_ask ask.now }
    requires shown { ShowsHeads headers.now raw.now }
    requires links { AreLinks links.now (raw_of raw.now) }
    requires in_range { least_failed (rule_1 (raw_of raw.now)) ≡ None }
    requires ascend { least_failed (rule_4 (raw_of raw.now)) ≡ None }
    ensures { IfOk result (λ least. least ≡ least_failed (rule_7 (raw_of raw.now))) }
{
    let tops = tops(alloc, raw, links, headers)?;
    Ok(ask.least_failed(NodeTest::Climb(tops.as_slice()), raw.nodes.as_slice()))
}
