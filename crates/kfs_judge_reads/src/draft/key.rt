//! Names in directories where they stand in a log.
ghost use Rattle.std.specs.Prelude.{◌≡◌, Some, refl};
ghost use Rattle.std.specs.Ordering.{eq_by_cmp};
ghost use Rattle.std.specs.Cmp.{eq_by_cmp_equiv, partial_equiv_from_equiv, partial_order_from_total};
ghost use Rattle.kfs_model.specs.Tree.{name_order};

use kfs_types::BorrowedName;
use std::cmp::Ordering;
use std::marker::Model;

/// A name in a directory: the directory's number, and the name where it lies in the log's bytes. So a key
/// has no copy of the name, which is long. Keys are ordered by number, and then by name.
#[derive(Drop)]
pub struct NameKey<'e, 's> {
    pub dir: u32,
    pub name: &'e BorrowedName<'s>,
}

impl<'e, 's> Model for NameKey<'e, 's> {
    ghost use Rattle.std.specs.Prelude.{ℕ, List};

    ghost Value = { ℕ × List ℕ };

    ghost view = { λ key. (key.dir, key.name.now) };
}

impl<'e, 's> PartialEq for NameKey<'e, 's> {
    ghost eq = { eq_by_cmp name_order.compare };

    ghost laws = { partial_equiv_from_equiv (eq_by_cmp_equiv name_order.total) };

    fn eq(&self, other: &Self) -> bool {
        self.cmp(other).is_eq()
    }
}

impl<'e, 's> Eq for NameKey<'e, 's> {
    ghost laws = { eq_by_cmp_equiv name_order.total };
}

impl<'e, 's> PartialOrd for NameKey<'e, 's> {
    ghost partial_cmp = { λ a b. Some (name_order.compare a b) };

    ghost laws = { partial_order_from_total name_order.total };

    fn partial_cmp(&self, other: &Self) -> Option<Ordering> {
        Some(self.cmp(other))
    }
}

impl<'e, 's> Ord for NameKey<'e, 's> {
    ghost cmp = { name_order.compare };

    ghost total = { name_order.total };

    ghost matches_partial_cmp = { λ a b. refl };

    ghost matches_eq = { λ a b. refl };

    fn cmp(&self, other: &Self) -> Ordering {
        self.dir.cmp(&other.dir).then(self.name.cmp(other.name))
    }
}

impl<'e, 's> NameKey<'e, 's> {
    /// The directory's number.
    pub fn dir(&self) -> u32
        ensures { result ≡ self.now.0 }
    {
        self.dir
    }

    /// The name.
    pub fn name(&self) -> &'e BorrowedName<'s>
        ensures { result.now ≡ self.now.1 }
    {
        self.name
    }

    /// The same key once more.
    pub fn again(&self) -> NameKey<'e, 's>
        ensures { result ≡ self.now }
    {
        NameKey {
            dir: self.dir,
            name: self.name,
        }
    }
}
