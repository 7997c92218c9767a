//! A name of a directory, and bytes of a file.
ghost use Rattle.std.specs.Prelude.{◌≡◌, ◌≤◌, IfOk, OnErr, length, take, drop, min};
ghost use Rattle.kfs_mode.specs.declared.access.Access.TheVariants as accesses;
ghost use Rattle.kfs_mode.specs.Access.{permitted_by_state};
ghost use Rattle.kfs_image.specs.Read.{bytes_from};
ghost use Rattle.kfs_model.specs.Table.{get};
ghost use Rattle.kfs_model.specs.Tree.{content_of};
ghost use Rattle.kfs_server.specs.LookUps.LookUp as asked;
ghost use Rattle.kfs_server.specs.LookUps.Found.{IsFound, found_limit};
ghost use Rattle.kfs_server.specs.Serving.Looking.{IsSought};

use crate::look_ups::found::{FOUND_LIMIT, Found};
use crate::look_ups::permission::permission_of;
use crate::replies::Refusal;
use kfs_desk::Desk;
use kfs_image::{Image, ReadFault, read_file};
use kfs_mode::Access;
use kfs_types::Name;
use std::alloc::{AllocError, Allocator};

/// Where a name of the directory leads. `Err` where memory is refused.
pub fn found_number<A: Allocator + Copy, B: Allocator>(
    desk: &Desk<A>,
    from: u32,
    directory: u32,
    name: &Name,
) -> Result<Found<B>, Refusal>
    ensures { IsSought desk.now from (asked.Find directory name.now) result }
{
    match permission_of(desk, Access::FindName, from, directory)? {
        Ok(()) => {
            let number = desk.image().shape().target(&(directory, *name));
            Ok(Found::LeadsTo(number))
        }
        Err(why) => Ok(Found::Denied(why)),
    }
}

/// Bytes of a file: at most `count` and at most `FOUND_LIMIT`, from position `start` on. `Err` where memory is refused.
pub fn found_bytes<A: Allocator + Copy, B: Allocator>(
    alloc: B,
    desk: &Desk<A>,
    from: u32,
    file: u32,
    start: u64,
    count: u32,
) -> Result<Found<B>, Refusal>
    ensures { IsSought desk.now from (asked.Read file start count) result }
{
    match permission_of(desk, Access::ReadBytes, from, file)? {
        Ok(()) => {
            let bytes = bytes_of(alloc, desk, file, start, (count as usize).min(FOUND_LIMIT))?;
            Ok(Found::BytesAre(bytes))
        }
        Err(why) => Ok(Found::Denied(why)),
    }
}

/// Bytes of a file, or none of what is no file: at most so many, from position `start` on.
#[tactic(auto, using(crate::proofs::LookUpsLemmas::Contents::bytes_of_state))]
fn bytes_of<A: Allocator + Copy, B: Allocator>(
    alloc: B,
    desk: &Desk<A>,
    file: u32,
    start: u64,
    most: usize,
) -> Result<Vec<u8, B>, AllocError>
    ensures { IfOk result (λ bytes. bytes.items ≡ take most (drop start (content_of (get desk.now.state.tree.nodes file)))) }
{
    let mut bytes = vec![in alloc; 0u8; most]?;
    let count = read_into(desk.image(), file, start, &mut bytes);
    bytes.truncate(count);
    Ok(bytes)
}

/// Reads bytes of a file, or none of what is no file, to the front of the buffer. Answers how many.
#[tactic(auto, using(crate::proofs::LookUpsLemmas::Contents::bytes_read, crate::proofs::LookUpsLemmas::Contents::bytes_without_node, crate::proofs::LookUpsLemmas::Contents::bytes_of_directory))]
fn read_into<A: Allocator>(image: &Image<A>, file: u32, start: u64, buffer: &mut [u8]) -> usize
    ensures { take result buffer.new ≡ bytes_from image.now file start (length buffer.old) }
{
    match read_file(image, file, start, buffer) {
        Ok(count) => count,
        Err(ReadFault::NoSuchNode) => 0,
        Err(ReadFault::IsDirectory) => 0,
    }
}
