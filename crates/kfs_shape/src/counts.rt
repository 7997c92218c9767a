//! Counts of numbers.
ghost use Rattle.std.specs.Prelude.{◌≡◌, ◌+◌, ◌≤◌, ◌<◌, ◌^◌, ℕ, All, IfOk, if◌then◌else◌};
ghost use Rattle.std.specs.Ordering.{eq_by_cmp, nat_cmp};
ghost use Rattle.kfs_shape.specs.Counts.{count_at};

use kfs_image::RawNode;
use std::alloc::{AllocError, Allocator};
use std::collections::BTreeMap;

/// One more than the greatest number of a node row, and at least 2. So a list of so many elements has one
/// for each node, and for the root.
pub(crate) fn span(rows: &[RawNode]) -> usize
    ensures root { 2 ≤ result }
    ensures rows { All (λ row. row.number < result) rows.now }
{
    let mut span = 2;
    for row in rows {
        span = span.max(row.number as usize + 1);
    }
    span
}

/// Counts the number once more.
pub(crate) fn count_more<A: Allocator + Clone>(
    counts: &mut BTreeMap<u64, u64, A>,
    number: u64,
) -> Result<(), AllocError>
    requires { count_at counts.old number + 1 < 2 ^ 64 }
    ensures { IfOk result (λ done. (n : ℕ) → count_at counts.new n ≡ count_at counts.old n + (if eq_by_cmp nat_cmp n number then 1 else 0)) }
{
    let more = count_of(counts, number) + 1;
    counts.insert(number, more)?;
    Ok(())
}

/// How often the number was counted.
pub(crate) fn count_of<A: Allocator>(counts: &BTreeMap<u64, u64, A>, number: u64) -> u64
    ensures { result ≡ count_at counts.now number }
{
    counts.get(&number).copied().unwrap_or(0)
}
