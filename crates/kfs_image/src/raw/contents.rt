//! The nodes and names that the rows of a raw image make.
ghost use Rattle.std.specs.Prelude.{◌≡◌, None, map, IfOk};
ghost use Rattle.kfs_model.specs.Device.RawImage.{IsSpelled};
ghost use Rattle.kfs_model.specs.Device.Rules.{rule_1};
ghost use Rattle.kfs_model.specs.Device.Finding.{least_failed, IsWellFormed};
ghost use Rattle.kfs_image.specs.Codec.RawImages.{raw_of};
ghost use Rattle.kfs_image.specs.Raw.Rows.{header_edit, contents_of_raw, AreHeaders};

use crate::codec::{RawImage, RawNode};
use kfs_image_nodes::{Header, Shape, SortUplinks};
use kfs_maps::{NumberEdit, Pages};
use kfs_types::Nothing;
use std::alloc::{AllocError, Allocator};

/// The nodes and names of a raw image's rows, given their headers. `sorter` sorts uplinks. `Err` where memory runs out.
pub fn raw_shape<A: Allocator + Clone, S: SortUplinks>(
    alloc: &A,
    sorter: &S,
    raw: &RawImage<A>,
    headers: Pages<Header, A>,
) -> Result<Shape<A>, AllocError>
    requires can_sort { S.can_sort sorter.now }
    requires spelled { IsSpelled (raw_of raw.now) }
    requires well_formed { IsWellFormed (raw_of raw.now) }
    requires headers { AreHeaders headers raw.now }
    ensures { IfOk result (λ shape. shape ≡ contents_of_raw (raw_of raw.now)) }
{
    let shape = Shape::of_rows(alloc, sorter, headers, raw.names.as_slice())?;
    Ok(shape)
}

/// The headers of a raw image's node rows, by number. Condition: the rows ascend, and their numbers are
/// 1 to 65,536. `Err` where memory runs out.
pub fn raw_headers<A: Allocator + Clone>(
    alloc: &A,
    raw: &RawImage<A>,
) -> Result<Pages<Header, A>, AllocError>
    requires { least_failed (rule_1 (raw_of raw.now)) ≡ None }
    ensures { IfOk result (λ headers. AreHeaders headers raw.now) }
{
    let edits = edits_of(alloc, raw.nodes.as_slice())?;
    let mut headers = Pages::new(alloc.clone()?)?;
    headers.change_then(edits.as_slice(), &mut Nothing)?;
    Ok(headers)
}

/// The rows as edits that give each number its header.
fn edits_of<A: Allocator + Clone>(
    alloc: &A,
    rows: &[RawNode],
) -> Result<Vec<NumberEdit<Header>, A>, AllocError>
    ensures { IfOk result (λ edits. edits.items ≡ map header_edit rows.now) }
{
    let mut edits = Vec::with_capacity(alloc.clone()?, rows.len())?;
    for row in rows {
        edits.push(NumberEdit {
            number: row.number,
            value: Some(row.header),
        })?;
    }
    Ok(edits)
}
