//! The check of an image by all ten rules, in order.
ghost use Rattle.std.specs.Prelude.{◌≡◌, None, IfOk};
ghost use Rattle.kfs_model.specs.Device.Rules.{rule_1};
ghost use Rattle.kfs_model.specs.Device.Finding.{finding_from, finding_of, least_failed};
ghost use Rattle.kfs_shape.specs.Findings.{found_at, node_rules, name_rules, extent_rules, FindsNoneWhere};
ghost use Rattle.kfs_shape.specs.Heads.{ShowsHeads};
ghost use Rattle.kfs_image.specs.Codec.RawImages.{raw_of};
ghost use Rattle.kfs_image.specs.Raw.Rows.{AreHeaders};

use crate::climbs::least_unrooted;
use crate::extents::{least_misplaced, least_past_tier};
use crate::fault::{Finding, ShapeFault};
use crate::heads::{headers, least_missing_root};
use crate::links::links_of;
use crate::names::{least_lost_target, least_miscounted};
use crate::node_test::AskRows;
use crate::places::least_shared;
use crate::{names, nodes};
use kfs_image::{InTurn, RawImage};
use kfs_maps::Pages;
use kfs_types::Header;
use std::alloc::Allocator;

/// A finding, if there is a number at which the rule is broken.
fn no_failure(rule: u8, least: Option<u32>) -> Result<(), ShapeFault>
    ensures { FindsNoneWhere result (found_at rule least) }
{
    match least {
        Some(number) => Err(ShapeFault::Found(Finding { rule, number })),
        None => Ok(()),
    }
}

/// Checks rules 1 to 3, and answers the headers by number.
fn check_nodes<A: Allocator + Copy, T: AskRows>(
    alloc: A,
    raw: &RawImage<A>,
    ask: &T,
) -> Result<Pages<Header, A>, ShapeFault>
    requires { T.can_ask ask.now }
    ensures headers { IfOk result (λ headers. AreHeaders headers raw.now) }
    ensures shown { IfOk result (λ headers. ShowsHeads headers raw.now) }
    ensures told { FindsNoneWhere result (finding_from (raw_of raw.now) node_rules) }
{
    no_failure(1, nodes::least_out_of_order(raw))?;
    let headers = headers(alloc, raw)?;
    no_failure(2, least_missing_root(raw, &headers))?;
    no_failure(3, nodes::least_bad_header(raw, ask))?;
    Ok(headers)
}

/// Checks rules 4 to 7 of an image whose node rows ascend.
fn check_names<A: Allocator + Copy, T: AskRows>(
    alloc: A,
    raw: &RawImage<A>,
    headers: &Pages<Header, A>,
    ask: &T,
) -> Result<(), ShapeFault>
    requires can_ask { T.can_ask ask.now }
    requires shown { ShowsHeads headers.now raw.now }
    requires in_range { least_failed (rule_1 (raw_of raw.now)) ≡ None }
    ensures { FindsNoneWhere result (finding_from (raw_of raw.now) name_rules) }
{
    let made = links_of(alloc, raw)?;
    let links = made.as_slice();
    no_failure(4, names::least_out_of_order(raw, links, headers, ask))?;
    no_failure(5, least_lost_target(raw, links, headers))?;
    no_failure(6, least_miscounted(alloc, raw, links, ask)?)?;
    no_failure(7, least_unrooted(alloc, raw, links, headers, ask)?)
}

/// Checks rules 8 to 10. The image isn't changed.
fn check_extents<A: Allocator + Copy>(
    alloc: A,
    raw: &RawImage<A>,
    headers: &Pages<Header, A>,
) -> Result<(), ShapeFault>
    requires { ShowsHeads headers.now raw.now }
    ensures { FindsNoneWhere result (finding_from (raw_of raw.now) extent_rules) }
{
    no_failure(8, least_misplaced(raw, headers))?;
    no_failure(9, least_past_tier(raw))?;
    no_failure(10, least_shared(alloc, raw)?)
}

/// `check_shape`, where the tests of many rows are asked by `ask`. Where no rule is broken it answers the
/// headers by number, so that an image can be made with them.
#[doc(hidden)]
pub fn check_keeping<A: Allocator + Copy, T: AskRows>(
    alloc: A,
    raw: &RawImage<A>,
    ask: &T,
) -> Result<Pages<Header, A>, ShapeFault>
    requires { T.can_ask ask.now }
    ensures headers { IfOk result (λ headers. AreHeaders headers raw.now) }
    ensures told { FindsNoneWhere result (finding_of (raw_of raw.now)) }
{
    let headers = check_nodes(alloc, raw, ask)?;
    check_names(alloc, raw, &headers, ask)?;
    check_extents(alloc, raw, &headers)?;
    Ok(headers)
}

/// Checks whether an image is well formed. crates/kfs_model/specs/Device/Rules.antt has the ten rules.
///
/// Refused with `Found`, the least rule that is broken and the least number at which it is, or with
/// `OutOfMemory` where memory runs out. The image isn't changed.
pub fn check_shape<A: Allocator + Copy>(alloc: A, raw: &RawImage<A>) -> Result<(), ShapeFault>
    ensures { FindsNoneWhere result (finding_of (raw_of raw.now)) }
{
    match check_keeping(alloc, raw, &InTurn) {
        Ok(_headers) => Ok(()),
        Err(fault) => Err(fault),
    }
}
