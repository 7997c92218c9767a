//! Lists that contracts alone see: they take no memory.
ghost use Rattle.std.specs.Prelude.{◌≡◌, List, [], ◌∷◌, ◌++◌};
ghost use Rattle.std.specs.Borrow.{ftrue};

use std::marker::{Model, PhantomData};

/// Items in order. They take no memory.
#[derive(Drop)]
pub struct GhostList<T> {
    marker: PhantomData<T>,
    pub ghost items: { List T },
}

impl<T> Model for GhostList<T> {
    ghost also_owns = { λ _. ftrue };
}

impl<T> GhostList<T> {
    /// No item.
    pub fn none() -> GhostList<T>
        ensures { result.items ≡ [] }
    {
        GhostList {
            marker: PhantomData,
        }
    }

    /// These items and one more. At run time this is nothing.
    pub fn and(&self, item: &T) -> GhostList<T>
        ensures { result.items ≡ self.now.items ++ item.now ∷ [] }
    {
        let _ = item;
        GhostList {
            marker: PhantomData,
        }
    }
}
