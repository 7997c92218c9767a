//! A list of rows that contracts compare by its rows alone.
ghost use Rattle.std.specs.Prelude.{◌≡◌};

use std::alloc::Allocator;
use std::marker::Model;
use std::ops::DerefSlice;

/// Rows in order, in a vector. For contracts two lists are equal where their rows are, whatever the
/// capacity and the place in memory.
#[derive(Debug, Drop)]
pub struct RowList<T, A: Allocator> {
    items: Vec<T, A>,
}

impl<T, A: Allocator> Model for RowList<T, A> {
    ghost use Rattle.std.specs.Prelude.{List};
    ghost use Rattle.std.specs.Coded.{coded_list};

    ghost Value = { List T };

    ghost coded = { coded_list T.code };

    ghost view = { λ rows. rows.items.items };
}

impl<T, A: Allocator> RowList<T, A> {
    /// The list of a vector's rows. Takes no memory.
    pub fn from_vec(items: Vec<T, A>) -> Self
        ensures { result ≡ items.items }
    {
        RowList { items }
    }

    /// The vector of the list's rows. Takes no memory.
    pub fn into_vec(self) -> Vec<T, A>
        ensures { result.items ≡ self }
    {
        let RowList { items } = self;
        items
    }

    /// The rows in order. Takes no memory.
    pub fn as_slice(&self) -> &[T]
        ensures { result.now ≡ self.now }
    {
        self.items.as_slice()
    }
}

impl<T, A: Allocator> DerefSlice for RowList<T, A> {
    type Elem = T;

    ghost deref_gives = { λ rows items. items ≡ rows };

    fn deref(&self) -> &[T] {
        self.as_slice()
    }
}
