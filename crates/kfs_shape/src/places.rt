//! Rule 10: no device block is in two extents.
ghost use Rattle.std.specs.Prelude.{◌≡◌, ◌+◌, ◌<◌, ◌^◌, ℕ, IfOk, None, count_by, if◌then◌else◌};
ghost use Rattle.kfs_model.specs.Device.Rules.{rule_8, rule_9, rule_10};
ghost use Rattle.kfs_model.specs.Device.Finding.{least_failed};
ghost use Rattle.kfs_shape.specs.Counts.{count_at};
ghost use Rattle.kfs_shape.specs.Places.{first_position, has_position, lies_at, TellsWhetherAlone};
ghost use Rattle.kfs_image.specs.Codec.RawImages.{extent_row_of, raw_of};

use crate::counts::{count_more, count_of};
use crate::least::noted;
use kfs_image::{ExtentRow, RawImage};
use kfs_types::TIER_LIMIT;
use std::alloc::{AllocError, Allocator};
use std::collections::BTreeMap;

/// The distance from a tier's first place to the next tier's, when places are numbered over all tiers.
/// No extent reaches so far.
const TIER_SPAN: u64 = 8_589_934_592;

/// The place of the extent's block with this index, as one number over all tiers.
fn position<A: Allocator>(row: &ExtentRow<A>, index: u32) -> u64
    ensures { result ≡ first_position (extent_row_of row.now) + index }
{
    let (tier, place) = (row.extent.tier, row.extent.place);
    u64::from(tier) * TIER_SPAN + u64::from(place) + u64::from(index)
}

/// Counts each place of the extent once more.
fn count_places<A: Allocator + Clone>(
    uses: &mut BTreeMap<u64, u64, A>,
    row: &ExtentRow<A>,
) -> Result<(), AllocError>
    requires { (n : ℕ) → count_at uses.old n + 1 < 2 ^ 64 }
    ensures { IfOk result (λ done. (n : ℕ) → count_at uses.new n ≡ count_at uses.old n + (if has_position n (extent_row_of row.now) then 1 else 0)) }
{
    for index in 0..row.extent.count {
        count_more(uses, position(row, index))?;
    }
    Ok(())
}

/// How many extents have each place. `Err` where memory runs out.
fn place_counts<A: Allocator + Copy>(
    alloc: A,
    rows: &[ExtentRow<A>],
) -> Result<BTreeMap<u64, u64, A>, AllocError>
    ensures { IfOk result (λ uses. (n : ℕ) → count_at uses n ≡ count_by (lies_at n) rows.now) }
{
    let mut uses = BTreeMap::new(alloc);
    for row in rows.iter() {
        count_places(&mut uses, row)?;
    }
    Ok(uses)
}

/// Whether each place of the extent was counted once only.
fn is_alone<A: Allocator>(uses: &BTreeMap<u64, u64, A>, row: &ExtentRow<A>) -> bool
    ensures { TellsWhetherAlone uses.now (extent_row_of row.now) result }
{
    for index in 0..row.extent.count {
        if count_of(uses, position(row, index)) > 1 {
            return false;
        }
    }
    true
}

/// Rule 10: the least file number of an extent that shares a device block with another. None if there
/// is no such extent. `Err` where memory runs out.
pub(crate) fn least_shared<A: Allocator + Copy>(
    alloc: A,
    raw: &RawImage<A>,
) -> Result<Option<u32>, AllocError>
    requires full { least_failed (rule_8 (raw_of raw.now)) ≡ None }
    requires in_tiers { least_failed (rule_9 (raw_of raw.now)) ≡ None }
    ensures { IfOk result (λ least. least ≡ least_failed (rule_10 (raw_of raw.now))) }
{
    let sizes = raw.sizes;
    prove!(sizes.size(0) <= TIER_LIMIT);
    prove!(sizes.size(1) <= TIER_LIMIT);
    prove!(sizes.size(2) <= TIER_LIMIT);
    let rows = raw.extents.as_slice();
    let uses = place_counts(alloc, rows)?;
    let mut least = None;
    for row in rows.iter() {
        least = noted(least, is_alone(&uses, row), row.number);
    }
    Ok(least)
}
