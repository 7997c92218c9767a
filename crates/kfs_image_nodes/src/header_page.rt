//! The headers of a page of nodes.
ghost use Rattle.std.specs.Prelude.{◌≡◌, option_map};
ghost use Rattle.kfs_types.specs.Views.{header_of};
ghost use Rattle.kfs_model.specs.Table.{get};

use kfs_maps::Page;
use kfs_types::Header;
use std::alloc::Allocator;

/// What a page of nodes shows of its 64 numbers.
pub trait HeaderPage {
    /// The header of the node with this number; none where there is no such node, or where the number
    /// isn't in this page. Takes no memory.
    fn header(&self, number: u32) -> Option<Header>;
}

impl<A: Allocator> HeaderPage for Page<Header, A> {
    fn header(&self, number: u32) -> Option<Header>
        ensures { option_map header_of result ≡ option_map header_of (get self.now.values number) }
    {
        self.get(number).copied()
    }
}
