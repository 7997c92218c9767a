//! The order of name rows, tested in several threads: a part is a row and the one before it. The least number of
//! all rows is the least of those of the parts. Uplinks are sorted in several threads, too. Node rows are tested one after another, since threads take longer
//! for them (docs/DECISIONS.md).
ghost use Rattle.std.specs.Prelude.{◌≡◌, ℕ, ⊤, List, None, Option, fold, map};
ghost use Rattle.kfs_shape.specs.Least.{merged};
ghost use Rattle.kfs_shape.specs.Names.{least_unordered};
ghost use Rattle.kfs_types.specs.Views.{name_row_of};

use kfs_image::{RawNode, SortUplinks};
use kfs_shape::{AskRows, NameRow, NodeTest, least_unordered, lesser};
use rayon::prelude::*;
use std::thread::Threads;

/// Tests the order of name rows and sorts uplinks in several threads, and tests node rows one after another.
#[derive(Drop)]
pub struct InParts<'a, R: Threads + Sync> {
    /// The leave to start threads.
    pub threads: &'a R,
}

impl<'a, R: Threads + Sync> AskRows for InParts<'a, R> {
    ghost use Rattle.std.specs.Thread.{IsSync};

    // A trait's method doesn't see its type's bound `Sync`.
    ghost can_ask = { λ parts. IsSync R.row };

    fn least_failed(&self, test: NodeTest, rows: &[RawNode]) -> Option<u32> {
        test.least_failed(rows)
    }

    fn least_unordered(&self, rows: &[NameRow]) -> Option<u32> {
        least_of_pairs(self.threads, rows)
    }
}

impl<'a, R: Threads + Sync> SortUplinks for InParts<'a, R> {
    ghost use Rattle.std.specs.Thread.{IsSync};

    ghost can_sort = { λ parts. IsSync R.row };

    fn sort(&self, uplinks: &mut [(u32, u32)]) {
        par_sort_unstable(self.threads, uplinks);
    }
}

/// The least directory number of a name row that isn't above the row before.
fn least_of_pairs(rt: &(impl Threads + Sync), rows: &[NameRow]) -> Option<u32>
    ensures { result ≡ least_unordered (map name_row_of rows.now) }
{
    least_of(
        rt,
        rows.par_windows(2).map(
            |pair: &[NameRow]| -> Option<u32>
                ensures { result ≡ least_unordered (map name_row_of pair.now) }
            { least_unordered(pair) },
        ),
    )
}

/// The least of the numbers that several threads find.
fn least_of<P: ParallelIterator<Item = Option<u32>>>(
    rt: &(impl Threads + Sync),
    numbers: P,
) -> Option<u32>
    requires { P.each numbers (λ _. ⊤) }
    ensures { (found : List (Option ℕ)) × P.gives numbers found × (result ≡ fold merged None found) }
{
    numbers.reduce(
        rt,
        || -> Option<u32>
            ensures { result ≡ None }
        { None },
        |one: Option<u32>, other: Option<u32>| -> Option<u32>
            ensures { result ≡ merged one other }
        { lesser(one, other) },
    )
}
