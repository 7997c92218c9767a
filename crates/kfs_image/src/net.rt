//! The change that a landing makes to an image.
ghost use Rattle.std.specs.Prelude.{◌≡◌, [], IfOk, OnOk, OnErr};
ghost use Rattle.kfs_image_nodes.specs.Lent.{net_in};
ghost use Rattle.kfs_image.specs.Net.{CanApply, applied};

use crate::blocks::{BlockRow, BlockRun};
use crate::image::Image;
use kfs_image_nodes::{LentNet, Net, NodeChanges};
use std::alloc::{AllocError, Allocator};

/// The change of a landing to the blocks of files.
#[derive(Debug, Drop)]
pub struct Fill<A: Allocator> {
    /// The blocks that it writes, with their places and their bytes.
    pub rows: Vec<BlockRow<A>, A>,
    /// Runs of blocks whose bytes become all zero. They are unmapped, since an unmapped block reads as
    /// zero.
    pub zero: Vec<BlockRun, A>,
}

impl<A: Allocator + Clone> Fill<A> {
    /// No block. `Err` where the allocator can't be cloned.
    pub fn empty(alloc: &A) -> Result<Fill<A>, AllocError>
        ensures { IfOk result (λ fill. (fill.rows.items ≡ []) × (fill.zero.items ≡ [])) }
    {
        Ok(Fill {
            rows: Vec::new(alloc.clone()?),
            zero: Vec::new(alloc.clone()?),
        })
    }
}

/// Makes the change of a landing: the names and headers of the net; blocks that become zero, or are no
/// longer blocks of a file, are unmapped; the rows' blocks are mapped and written.
///
/// Condition: the rows' places exist, their blocks have 4,096 bytes, and the image is lawful after the
/// change. `Err` where memory runs out: all memory is taken before the first change, so the image
/// shows what it showed. Views that were taken before keep showing what they showed in any case.
pub fn net_apply<A: Allocator + Clone>(
    alloc: A,
    image: &mut Image<A>,
    net: &Net<A>,
    fill: &Fill<A>,
) -> Result<(), AllocError>
    requires { CanApply net.now fill.now image.old }
    ensures ok { OnOk result (image.new ≡ applied net.now fill.now image.old) }
    ensures err { OnErr result (image.new ≡ image.old) }
{
    image.change(&alloc, net, fill)
}

/// `net_apply`, where the fill is given away: no byte of its blocks is copied. The new headers of the
/// net's rows are made already, and its names may lie in a log's bytes.
pub fn net_apply_moving<A: Allocator + Clone>(
    alloc: A,
    image: &mut Image<A>,
    net: LentNet<'_, '_, A>,
    nodes: &NodeChanges<'_, A>,
    fill: Fill<A>,
) -> Result<(), AllocError>
    requires nodes { nodes.now ≡ (net_in net).nodes.items }
    requires can { CanApply (net_in net) fill image.old }
    ensures ok { OnOk result (image.new ≡ applied (net_in net.entry) fill image.old) }
    ensures err { OnErr result (image.new ≡ image.old) }
{
    image.change_moving(&alloc, net, nodes, fill)
}
