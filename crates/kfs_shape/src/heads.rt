//! The headers by number, and rule 2: number 1 is a directory.
ghost use Rattle.std.specs.Prelude.{◌≡◌, IfOk, None, is_some};
ghost use Rattle.kfs_model.specs.Sight.{is_directory};
ghost use Rattle.kfs_model.specs.Device.Rules.{rule_1, rule_2};
ghost use Rattle.kfs_model.specs.Device.Finding.{least_failed};
ghost use Rattle.kfs_image.specs.Codec.RawImages.{raw_of};
ghost use Rattle.kfs_image.specs.Raw.Rows.{AreHeaders};
ghost use Rattle.kfs_shape.specs.Heads.{head_at, ShowsHeads};

use crate::least::noted;
use kfs_image::{RawImage, raw_headers};
use kfs_maps::Pages;
use kfs_types::{Header, Kind, ROOT};
use std::alloc::{AllocError, Allocator};

/// The header of each node row, by number. Condition: the rows ascend, and their numbers are 1 to
/// 65,536. `Err` where memory runs out.
pub(crate) fn headers<A: Allocator + Copy>(
    alloc: A,
    raw: &RawImage<A>,
) -> Result<Pages<Header, A>, AllocError>
    requires { least_failed (rule_1 (raw_of raw.now)) ≡ None }
    ensures headers { IfOk result (λ headers. AreHeaders headers raw.now) }
    ensures shown { IfOk result (λ headers. ShowsHeads headers raw.now) }
{
    let headers = raw_headers(&alloc, raw)?;
    Ok(headers)
}

/// Whether the number is a directory's.
pub(crate) fn has_directory<A: Allocator>(headers: &Pages<Header, A>, number: u32) -> bool
    ensures { result ≡ is_directory (head_at headers.now number) }
{
    match headers.get(number) {
        Some(header) => header.kind == Kind::Directory,
        None => false,
    }
}

/// Whether the number is a node's.
pub(crate) fn has_node<A: Allocator>(headers: &Pages<Header, A>, number: u32) -> bool
    ensures { result ≡ is_some (head_at headers.now number) }
{
    headers.get(number).is_some()
}

/// Rule 2: the number 1, if it isn't a directory's. Takes no memory.
pub(crate) fn least_missing_root<A: Allocator>(
    raw: &RawImage<A>,
    headers: &Pages<Header, A>,
) -> Option<u32>
    requires { ShowsHeads headers.now raw.now }
    ensures { result ≡ least_failed (rule_2 (raw_of raw.now)) }
{
    noted(None, has_directory(headers, ROOT), ROOT)
}
