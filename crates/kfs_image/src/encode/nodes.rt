//! The node rows of an image.
ghost use Rattle.std.specs.Prelude.{◌≡◌, ◌++◌, [], ◌∷◌, length, IfSome, IfNone, IfOk, OnOk};
ghost use Rattle.std.specs.List.{flat_map};
ghost use Rattle.std.specs.declared.ops.Bound.TheVariants.{Excluded};
ghost use Rattle.kfs_model.specs.Device.ShownTree.{IsLawful};
ghost use Rattle.kfs_image.specs.Encode.Rows.{entries_from, node_entry_of, node_spelling};

use crate::encode::counts::Rows;
use crate::{Image, RawNode, header};
use kfs_entry::SpelledRow;
use std::alloc::{AllocError, Allocator};

/// The bytes of a node's row.
const LEN: usize = 25;

/// The node with the least number above `after`, or none.
fn node_after<A: Allocator>(image: &Image<A>, after: u32) -> Option<RawNode>
    ensures found { IfSome result (λ row. entries_from (Excluded after) image.now.heads ≡ node_entry_of row ∷ entries_from (Excluded row.number) image.now.heads) }
    ensures none { IfNone result (entries_from (Excluded after) image.now.heads ≡ []) }
{
    let number = image.next_node(after)?;
    let header = header(image, number)?;
    Some(RawNode { number, header })
}

/// How many nodes there are, and the bytes of their rows.
pub(crate) fn count_nodes<A: Allocator>(image: &Image<A>) -> Result<Rows, AllocError>
    requires { IsLawful image.now }
    ensures { IfOk result (λ rows. rows.count ≡ length image.now.heads.entries) }
{
    let mut rows = Rows::none();
    let mut after = 0;
    while let Some(row) = node_after(image, after) {
        rows = rows.and_one(LEN)?;
        after = row.number;
    }
    Ok(rows)
}

/// Appends the rows of the nodes, ascending by number. `Err` where memory runs out.
pub(crate) fn write_nodes<A: Allocator, B: Allocator>(
    out: &mut Vec<u8, B>,
    image: &Image<A>,
) -> Result<(), AllocError>
    requires { IsLawful image.now }
    ensures { OnOk result (out.new.items ≡ out.old.items ++ flat_map node_spelling image.now.heads.entries) }
{
    let mut after = 0;
    while let Some(row) = node_after(image, after) {
        row.write(out, &[])?;
        after = row.number;
    }
    Ok(())
}
