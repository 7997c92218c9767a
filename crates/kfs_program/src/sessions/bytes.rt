//! The reply to `read`, which may be long.
ghost use Rattle.std.specs.Prelude.{◌≡◌, ◌++◌, OnOk, IfOk, codes};
ghost use Rattle.kfs_model.specs.Device.ShownTree.{shown_tree};
ghost use Rattle.kfs_program.specs.Engine.Bytes.{answer_text, fault_text, hex_text, read_text};
ghost use Rattle.kfs_program_text.specs.Parts.{line_of};

use kfs_image::{Image, ReadFault, read_file};
use std::alloc::{AllocError, Allocator};

/// Appends `bytes HEX`, for at most `count` bytes of the file from position `start` on, or `read NAME`
/// where the number isn't a file's. After `Err`, where memory runs out, part of the line may be
/// appended.
pub fn bytes_line<A: Allocator + Copy>(
    alloc: A,
    out: &mut Vec<u8, A>,
    image: &Image<A>,
    number: u32,
    start: u64,
    count: u32,
) -> Result<(), AllocError>
    ensures { OnOk result (out.new.items ≡ out.old.items ++ line_of (read_text (shown_tree image.now) number start count)) }
{
    match bytes_read(alloc, image, number, start, count)? {
        Ok(bytes) => push_bytes(alloc, out, &bytes)?,
        Err(fault) => push_fault(out, fault)?,
    }
    out.extend_from_slice(b"\n")
}

/// At most `count` bytes of the file from position `start` on, or why there are none.
fn bytes_read<A: Allocator + Copy>(
    alloc: A,
    image: &Image<A>,
    number: u32,
    start: u64,
    count: u32,
) -> Result<Result<Vec<u8, A>, ReadFault>, AllocError>
    ensures { IfOk result (λ read. answer_text read ≡ read_text (shown_tree image.now) number start count) }
{
    // Tells the prover that the image is lawful.
    let _shape = image.shape();
    let mut bytes = Vec::new(alloc);
    bytes.resize(count as usize, 0)?;
    match read_file(image, number, start, bytes.as_mut_slice()) {
        Ok(len) => {
            bytes.truncate(len);
            Ok(Ok(bytes))
        }
        Err(fault) => Ok(Err(fault)),
    }
}

/// Appends the bytes in hexadecimal.
fn push_bytes<A: Allocator + Copy>(
    alloc: A,
    out: &mut Vec<u8, A>,
    bytes: &[u8],
) -> Result<(), AllocError>
    ensures { OnOk result (out.new.items ≡ out.old.items ++ (codes "bytes " ++ hex_text bytes.now)) }
{
    out.extend_from_slice(b"bytes ")?;
    if bytes.is_empty() {
        return out.extend_from_slice(b"-");
    }
    let digits = hex::encode(alloc, bytes)?;
    out.extend_from_slice(digits.as_bytes())
}

/// Appends why nothing is read.
fn push_fault<A: Allocator>(out: &mut Vec<u8, A>, fault: ReadFault) -> Result<(), AllocError>
    ensures { OnOk result (out.new.items ≡ out.old.items ++ fault_text fault) }
{
    match fault {
        ReadFault::NoSuchNode => out.extend_from_slice(b"read NoSuchNode"),
        ReadFault::IsDirectory => out.extend_from_slice(b"read IsDirectory"),
    }
}
