//! The docket: rows that contracts see, and their number. A docket row, visible to contracts only; it
//! takes no memory.
ghost use Rattle.std.specs.Prelude.{◌≡◌, ◌+◌, ◌<◌, ◌^◌, [], ◌∷◌, ◌++◌, length};
ghost use Rattle.kfs_model.specs.Machine.{Row};
ghost use Rattle.std.specs.Borrow.{ftrue};

use kfs_model::GhostList;
use std::marker::Model;

/// A desk's docket. It has one row for each call that was answered, in order. Only the number of rows
/// is kept; the rows take no memory and are visible to contracts alone.
#[derive(Drop)]
pub struct Docket {
    rows: GhostList<OneRow>,
    len: u32,
}

impl Model for Docket {
    ghost use Rattle.std.specs.Prelude.{◌≡◌, List, length, map};
    ghost use Rattle.kfs_model.specs.Machine.{Row};

    ghost Value = { List Row };

    ghost view = { λ d. map (λ r. r.row) d.rows.items };

    ghost invariant = { λ d. d.len ≡ length d.rows.items };
}

impl Docket {
    /// A docket without rows. Takes no memory.
    pub fn new() -> Docket
        ensures { result ≡ [] }
    {
        Docket {
            rows: GhostList::none(),
            len: 0,
        }
    }

    /// How many rows it has, at most 2^32 - 1. A row's position counts from 0. Takes no memory.
    pub fn len(&self) -> u32
        ensures { result ≡ length self.now }
    {
        self.len
    }

    /// Adds a row at the end. Condition: the docket has fewer than 2^32 - 1 rows. Takes no memory.
    pub fn push(&mut self, row: OneRow)
        requires { length self.old + 1 < 2 ^ 32 }
        ensures { self.new ≡ self.old ++ row.row ∷ [] }
    {
        self.rows = self.rows.and(&row);
        self.len += 1;
    }
}

/// The property that a row must have, given values that a call has at hand.
pub trait RowRule {
    ghost is_row: { Self → Row → Type 0 };
}

/// A docket row. It takes no memory.
#[derive(Drop)]
pub struct OneRow {
    pub ghost row: { Row },
}

impl Model for OneRow {
    ghost also_owns = { λ _. ftrue };
}

impl OneRow {
    /// A row with the property. The caller proves that such a row exists; at run time this is nothing.
    pub fn of<R: RowRule>(rule: &R) -> OneRow
        requires { (row : Row) × R.is_row rule.now row }
        ensures { R.is_row rule.now result.row }
    {
        OneRow {}
    }
}
