//! The numbers of name rows without the names. Most rules of names ask for nothing else, and a list of
//! numbers takes a thirtieth of the memory that has to be gone over.
ghost use Rattle.std.specs.Prelude.{IfOk};
ghost use Rattle.kfs_shape.specs.Links.{AreLinks};
ghost use Rattle.kfs_image.specs.Codec.RawImages.{raw_of};

use kfs_image::RawImage;
use std::alloc::{AllocError, Allocator};

/// A name's directory, and the node that the name leads to.
#[derive(Clone, Copy)]
pub(crate) struct Link {
    /// The number of the name's directory.
    pub(crate) dir: u32,
    /// The number of the node that the name leads to.
    pub(crate) number: u32,
}

/// The links of an image's name rows, in their order. `Err` where memory runs out.
pub(crate) fn links_of<A: Allocator>(
    alloc: A,
    raw: &RawImage<A>,
) -> Result<Vec<Link, A>, AllocError>
    ensures { IfOk result (λ links. AreLinks links.items (raw_of raw.now)) }
{
    let rows = raw.names.as_slice();
    let mut links = Vec::with_capacity(alloc, rows.len())?;
    for row in rows {
        links.push(Link {
            dir: row.dir,
            number: row.number,
        })?;
    }
    Ok(links)
}
