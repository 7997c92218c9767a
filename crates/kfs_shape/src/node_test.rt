//! The tests of single node rows, and how one of them, or the order of name rows, is asked of many rows.
ghost use Rattle.std.specs.Prelude.{◌≡◌, map};
ghost use Rattle.kfs_model.specs.Device.Finding.{least_failed};
ghost use Rattle.kfs_shape.specs.NodeTests.{test_of};
ghost use Rattle.kfs_image.specs.Codec.RawImages.{raw_node_of};
ghost use Rattle.kfs_types.specs.Views.{name_row_of};
ghost use Rattle.kfs_shape.specs.Names.{least_unordered};

use crate::climbs::is_below_root;
use crate::least::noted;
use crate::names::{has_right_names, least_unordered};
use crate::nodes::is_header_in_range;
use kfs_image::{InTurn, RawNode};
use kfs_types::NameRow;

/// A test of a node row by itself.
#[derive(Clone, Copy)]
pub enum NodeTest<'a> {
    /// Rule 3: the header is in the range of an image of this version.
    Header(u8),
    /// Rule 6: the node has as many names as it should, by these counts.
    Names(&'a [u64]),
    /// Rule 7: the node is a file, or this list leads it to the root.
    Climb(&'a [Option<u32>]),
}

impl<'a> NodeTest<'a> {
    /// Whether the row passes.
    fn holds(self, row: &RawNode) -> bool
        ensures { result ≡ (test_of self.entry (raw_node_of row.now)).holds }
    {
        match self {
            NodeTest::Header(version) => is_header_in_range(version, row),
            NodeTest::Names(counts) => has_right_names(counts, row),
            NodeTest::Climb(tops) => is_below_root(tops, row),
        }
    }

    /// The least number of a row that fails. None if there is no such row. Takes no memory.
    pub fn least_failed(self, rows: &[RawNode]) -> Option<u32>
        ensures { result ≡ least_failed (map (test_of self.entry) (map raw_node_of rows.now)) }
    {
        let mut least = None;
        for row in rows.iter() {
            least = noted(least, self.holds(row), row.number);
        }
        least
    }
}

/// Who asks tests of many rows.
pub trait AskRows {
    /// What must hold before a call.
    ghost can_ask: { Self → Type 0 };

    /// The least number of a row that fails the test. None if there is no such row.
    fn least_failed(&self, test: NodeTest, rows: &[RawNode]) -> Option<u32>
        requires { can_ask self.now }
        ensures { result ≡ least_failed (map (test_of test.entry) (map raw_node_of rows.now)) };

    /// The least directory number of a name row that isn't above the row before. None if there is no such row.
    fn least_unordered(&self, rows: &[NameRow]) -> Option<u32>
        requires { can_ask self.now }
        ensures { result ≡ least_unordered (map name_row_of rows.now) };
}

impl AskRows for InTurn {
    ghost use Rattle.std.specs.Prelude.{⊤};

    ghost can_ask = { λ turn. ⊤ };

    fn least_failed(&self, test: NodeTest, rows: &[RawNode]) -> Option<u32> {
        test.least_failed(rows)
    }

    fn least_unordered(&self, rows: &[NameRow]) -> Option<u32> {
        least_unordered(rows)
    }
}
