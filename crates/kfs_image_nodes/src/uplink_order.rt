//! Who sorts the uplinks of an image that is made: the calling thread, or several.
ghost use Rattle.std.specs.Prelude.{◌≡◌, length};
ghost use Rattle.std.specs.List.Sorted.{IsPermutation, IsSorted};
ghost use Rattle.kfs_image_nodes.specs.Indexes.{by_node};

/// Who sorts uplinks. An uplink is a node's number, and that of a directory with a name of the node.
pub trait SortUplinks {
    /// What must hold before a call.
    ghost can_sort: { Self → Type 0 };

    /// Sorts uplinks by the node's number, and then by the directory's. Takes no memory.
    fn sort(&self, uplinks: &mut [(u32, u32)])
        requires { can_sort self.now }
        ensures permutation { IsPermutation uplinks.old uplinks.new }
        ensures len { length uplinks.new ≡ length uplinks.old }
        ensures sorted { IsSorted by_node.compare uplinks.new };
}

/// Does in the calling thread, one row after another, what several threads could do.
#[derive(Clone, Copy)]
pub struct InTurn;

impl SortUplinks for InTurn {
    ghost use Rattle.std.specs.Prelude.{⊤};

    ghost can_sort = { λ turn. ⊤ };

    fn sort(&self, uplinks: &mut [(u32, u32)]) {
        uplinks.sort_unstable();
    }
}

/// Sorts uplinks, unless they ascend. Takes no memory.
// (no thread is begun for those that ascend, as in a tree that was made name by name)
pub(crate) fn put_in_order<S: SortUplinks>(sorter: &S, uplinks: &mut [(u32, u32)])
    requires { S.can_sort sorter.now }
    ensures permutation { IsPermutation uplinks.old uplinks.new }
    ensures len { length uplinks.new ≡ length uplinks.old }
    ensures sorted { IsSorted by_node.compare uplinks.new }
{
    if !uplinks.is_sorted() {
        sorter.sort(uplinks);
    }
}
