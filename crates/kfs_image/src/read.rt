//! Reading the bytes of files. The blocks that a landing unmaps.
ghost use Rattle.std.specs.Prelude.{◌≡◌, ◌↔◌, Err, None, IsTrue, IfOk, OnErr, ◌-◌, ◌^◌, map, min, option_map};
ghost use Rattle.kfs_model.specs.Table.{get};
ghost use Rattle.kfs_model.specs.Sight.{is_directory};
ghost use Rattle.kfs_image.specs.Read.{FileIsRead};
ghost use Rattle.kfs_types.specs.Views.{header_of};
ghost use Rattle.kfs_image.specs.Released.{AreReleased, behind};
ghost use Rattle.kfs_image.specs.Net.{blocks_in};

use crate::blocks::BlockRun;
use crate::image::Image;
use kfs_image_nodes::NodeChanges;
use kfs_maps::NumberEdit;
use kfs_types::{BLOCK_SIZE, Header, Kind};
use std::alloc::{AllocError, Allocator};
use thiserror::Error;

/// Why a file isn't read.
#[derive(Clone, Copy, Debug, PartialEq, Eq, Error)]
pub enum ReadFault {
    /// 1: no node has this number.
    #[error("NoSuchNode")]
    NoSuchNode,
    /// 2: the node is a directory.
    #[error("IsDirectory")]
    IsDirectory,
}

/// Reads bytes of the file `number`, from position `start` on, into the front of the buffer (POSIX
/// `pread`). Answers how many: as many as the buffer takes and the file has, 0 where `start` isn't
/// below the file's size.
///
/// The rest of the buffer stays as it is, and so does all of it where the answer is `NoSuchNode` or
/// `IsDirectory`. Takes no memory.
pub fn read_file<A: Allocator>(
    image: &Image<A>,
    number: u32,
    start: u64,
    buffer: &mut [u8],
) -> Result<usize, ReadFault>
    ensures read { IfOk result (FileIsRead image.now number start buffer.old buffer.new) }
    ensures no_node { (result ≡ Err ReadFault.NoSuchNode) ↔ (get image.now.heads number ≡ None) }
    ensures directory { (result ≡ Err ReadFault.IsDirectory) ↔ IsTrue (is_directory (get image.now.heads number)) }
    ensures kept { OnErr result (buffer.new ≡ buffer.old) }
{
    image.read(number, start, buffer)
}

/// The runs of blocks to be unmapped: of each node that changes, those behind the file's end, or all if
/// it is no longer a file; and the runs that become zero.
pub(crate) fn released_blocks<A: Allocator + Clone>(
    alloc: &A,
    nodes: &NodeChanges<'_, A>,
    zero: &[BlockRun],
) -> Result<Vec<BlockRun, A>, AllocError>
    ensures { IfOk result (λ released. AreReleased nodes.now zero.now released.items) }
{
    let mut released = blocks_behind(alloc, nodes.headers())?;
    released.extend_from_slice(zero)?;
    Ok(released)
}

/// The blocks behind the end of each file that changes.
fn blocks_behind<A: Allocator + Clone>(
    alloc: &A,
    edits: &[NumberEdit<Header>],
) -> Result<Vec<BlockRun, A>, AllocError>
    ensures { IfOk result (λ runs. runs.items ≡ map behind edits.now) }
{
    let mut runs = Vec::with_capacity(alloc.clone()?, edits.len())?;
    for edit in edits {
        runs.push(BlockRun {
            number: edit.number,
            first: block_count(edit.value),
            end: u32::MAX,
        })?;
    }
    Ok(runs)
}

/// How many blocks the file has, at most 2^32 - 1; 0 where there is no file.
fn block_count(header: Option<Header>) -> u32
    ensures { result ≡ min (blocks_in (option_map header_of header)) (2 ^ 32 - 1) }
{
    match header {
        Some(header) if header.kind == Kind::File => {
            u32::try_from(header.size.div_ceil(BLOCK_SIZE)).unwrap_or(u32::MAX)
        }
        _ => 0,
    }
}
