//! The names of a directory, one behind another.
ghost use Rattle.std.specs.Prelude.{◌≡◌, ◌++◌, ◌+◌, ◌≤◌, IfNone, IfOk, IfSome, OnOk, length, vec_len};
ghost use Rattle.kfs_server.specs.LookUps.LookUp as asked;
ghost use Rattle.kfs_server.specs.LookUps.Found.{HasNoName, IsFound, IsListedIn, IsNextName, listed_bytes};
ghost use Rattle.kfs_server.specs.Serving.Looking.{IsSought};

use crate::look_ups::found::{FOUND_LIMIT, Found, Listing};
use crate::look_ups::permission::permission_of;
use crate::replies::Refusal;
use kfs_desk::Desk;
use kfs_image::Image;
use kfs_mode::Access;
use kfs_types::Name;
use std::alloc::{AllocError, Allocator};

/// The names of a directory behind `after`, or from the first one on: as many as `limit` bytes hold, and
/// `FOUND_LIMIT`. `Err` where memory is refused.
pub fn found_names<A: Allocator + Copy, B: Allocator>(
    alloc: B,
    desk: &Desk<A>,
    from: u32,
    directory: u32,
    limit: u32,
    after: &Option<Name>,
) -> Result<Found<B>, Refusal>
    ensures { IsSought desk.now from (asked.Names directory limit after.now) result }
{
    match permission_of(desk, Access::ListNames, from, directory)? {
        Ok(()) => {
            let room = (limit as usize).min(FOUND_LIMIT);
            let listing = names_behind(alloc, desk.image(), directory, room, *after)?;
            Ok(Found::NamesAre {
                more: listing.more,
                bytes: listing.bytes,
            })
        }
        Err(why) => Ok(Found::Denied(why)),
    }
}

/// The names behind `after`, as many as so many bytes hold.
fn names_behind<A: Allocator, B: Allocator>(
    alloc: B,
    image: &Image<A>,
    directory: u32,
    room: usize,
    after: Option<Name>,
) -> Result<Listing<B>, AllocError>
    ensures listing { IfOk result (λ it. IsListedIn image.now.names directory room after it.more it.bytes.items) }
    ensures within { IfOk result (λ it. vec_len it.bytes ≤ room) }
{
    let mut bytes = Vec::new(alloc);
    let mut last = after;
    'names: while let Some((name, number)) = next_behind(image, directory, &last) {
        if room - bytes.len() < 5 + name.as_bytes().len() {
            return Ok(Listing { more: true, bytes });
        }
        push_name(&mut bytes, name, number)?;
        last = Some(*name);
    }
    Ok(Listing { more: false, bytes })
}

/// The least name behind `after`, or of all, and the number that it leads to.
fn next_behind<'a, A: Allocator>(
    image: &'a Image<A>,
    directory: u32,
    after: &Option<Name>,
) -> Option<(&'a Name, u32)>
    ensures found { IfSome result (λ p. IsNextName image.now.names directory after.now p.0.now p.1) }
    ensures none { IfNone result (HasNoName image.now.names directory after.now) }
{
    match after {
        Some(after) => image.next_name(directory, Some(after)),
        None => image.next_name(directory, None),
    }
}

/// Appends a name and the number that it leads to.
#[tactic(auto, unfolding(kfs_model::specs::Spelling::number32))]
fn push_name<B: Allocator>(
    bytes: &mut Vec<u8, B>,
    name: &Name,
    number: u32,
) -> Result<(), AllocError>
    ensures { OnOk result (bytes.new.items ≡ bytes.old.items ++ listed_bytes name.now number) }
{
    let name = name.as_bytes();
    bytes.extend_from_slice(&number.to_be_bytes())?;
    bytes.push(name.len() as u8)?;
    bytes.extend_from_slice(name)?;
    Ok(())
}
