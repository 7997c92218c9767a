//! Rules 8 and 9: the extent rows.
ghost use Rattle.std.specs.Prelude.{◌≡◌};
ghost use Rattle.std.specs.Option.{option_copied, option_map};
ghost use Rattle.kfs_model.specs.Table.{numbers, pairs};
ghost use Rattle.kfs_model.specs.Device.Rules.{is_above, ends_in_file, tier_test, rule_8, rule_9};
ghost use Rattle.kfs_model.specs.Device.Finding.{least_failed};
ghost use Rattle.kfs_shape.specs.Heads.{head_at, ShowsHeads};
ghost use Rattle.kfs_shape.specs.Extents.{is_behind, is_full, is_in_place};
ghost use Rattle.kfs_image.specs.Codec.RawImages.{extent_row_of, raw_of};

use crate::least::{noted, previous};
use kfs_image::{ExtentRow, RawImage};
use kfs_maps::Pages;
use kfs_types::{BLOCK_SIZE, Header, Kind, TierSizes};
use std::alloc::Allocator;

/// Whether the extent's file number and block are above those of the row before.
fn is_in_order<A: Allocator>(before: Option<&ExtentRow<A>>, row: &ExtentRow<A>) -> bool
    ensures { result ≡ is_above (pairs numbers numbers) (λ r. (r.number, r.block)) (option_map extent_row_of (option_copied before.entry), extent_row_of row.now) }
{
    match before {
        None => true,
        Some(other) => {
            let by_number = other.number.cmp(&row.number);
            by_number
                .then(other.extent.block.cmp(&row.extent.block))
                .is_lt()
        }
    }
}

/// Whether the extent begins where the row before ends, or later, or is of another file.
fn is_behind<A: Allocator>(before: Option<&ExtentRow<A>>, row: &ExtentRow<A>) -> bool
    ensures { result ≡ is_behind (option_map extent_row_of (option_copied before.entry)) (extent_row_of row.now) }
{
    match before {
        None => true,
        Some(other) => {
            let end = u64::from(other.extent.block) + u64::from(other.extent.count);
            other.number != row.number || end <= u64::from(row.extent.block)
        }
    }
}

/// Whether the extent is of a file, and its last block begins below the file's size.
fn ends_in_file<A: Allocator>(headers: &Pages<Header, A>, row: &ExtentRow<A>) -> bool
    ensures { result ≡ ends_in_file (head_at headers.now row.now.number) (extent_row_of row.now) }
{
    let end = u64::from(row.extent.block) + u64::from(row.extent.count);
    let last = end.saturating_sub(1) * BLOCK_SIZE;
    match headers.get(row.number) {
        None => false,
        Some(header) => header.kind == Kind::File && last < header.size,
    }
}

/// Whether the extent has blocks, and 4,096 bytes for each.
fn is_full<A: Allocator>(row: &ExtentRow<A>) -> bool
    ensures { result ≡ is_full (extent_row_of row.now) }
{
    row.extent.count >= 1 && row.bytes.len() as u64 == u64::from(row.extent.count) * BLOCK_SIZE
}

/// Whether the extent is of blocks of a file, and comes after the row before without sharing a block.
fn is_in_place<A: Allocator>(
    headers: &Pages<Header, A>,
    before: Option<&ExtentRow<A>>,
    row: &ExtentRow<A>,
) -> bool
    ensures { result ≡ is_in_place (head_at headers.now row.now.number) (option_map extent_row_of (option_copied before.entry), extent_row_of row.now) }
{
    let is_above = is_in_order(before, row);
    let ends_in_file = ends_in_file(headers, row);
    is_above && ends_in_file && is_full(row) && is_behind(before, row)
}

/// Rule 8: the least file number of an extent that isn't above the row before, isn't of blocks of a
/// file, has no block or too few bytes, or shares a block with another extent. None if there is no such
/// extent. Takes no memory.
pub(crate) fn least_misplaced<A: Allocator>(
    raw: &RawImage<A>,
    headers: &Pages<Header, A>,
) -> Option<u32>
    requires { ShowsHeads headers.now raw.now }
    ensures { result ≡ least_failed (rule_8 (raw_of raw.now)) }
{
    let rows = raw.extents.as_slice();
    let mut least = None;
    for (index, row) in rows.iter().enumerate() {
        let holds = is_in_place(headers, previous(rows, index), row);
        least = noted(least, holds, row.number);
    }
    least
}

/// Whether the extent is on a tier from 0 to 2 and ends within it.
fn is_in_tier<A: Allocator>(sizes: TierSizes, row: &ExtentRow<A>) -> bool
    ensures { result ≡ (tier_test sizes (extent_row_of row.now)).holds }
{
    let end = u64::from(row.extent.place) + u64::from(row.extent.count);
    row.extent.tier <= 2 && end <= u64::from(sizes.size(row.extent.tier))
}

/// Rule 9: the least file number of an extent that is on no tier, or goes past its end. None if there
/// is no such extent. Takes no memory.
pub(crate) fn least_past_tier<A: Allocator>(raw: &RawImage<A>) -> Option<u32>
    ensures { result ≡ least_failed (rule_9 (raw_of raw.now)) }
{
    let rows = raw.extents.as_slice();
    let mut least = None;
    for row in rows.iter() {
        least = noted(least, is_in_tier(raw.sizes, row), row.number);
    }
    least
}
