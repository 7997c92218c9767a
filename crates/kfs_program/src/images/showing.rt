//! What the words `fsck` and `show` write for a line that says an image.
ghost use Rattle.std.specs.Prelude.{◌≡◌, ◌++◌, false, codes, option_map, IfOk, OnOk};
ghost use Rattle.std.specs.List.{flat_map};
ghost use Rattle.kfs_program.specs.Images.Showing.{AppendsAnswer, Passes, Shows, bytes_said, name_row_line, node_row_line, show_text};
ghost use Rattle.kfs_program_text.specs.Parts.{line_of};
ghost use Rattle.kfs_program_text.specs.Reading.{ReadsAs};

use crate::images::loading::{load, sound_rows};
use crate::report::{LONGEST_LINE, node_line};
use kfs_image::{NameRow, RawImage, RawNode};
use kfs_program_text::parts::{field, text};
use kfs_program_text::{Refusal, Words};
use std::alloc::{AllocError, Allocator};
use std::thread::Threads;

/// Appends what `fsck` writes for a line: `ok`, or why the line's bytes make no image, or `bad line`
/// where it says no bytes. Answers whether they make one. After `Err`, where memory runs out, part of
/// it may be appended.
pub fn push_check<A: Allocator + Copy>(
    rt: &(impl Threads + Sync),
    alloc: A,
    line: &[u8],
    out: &mut Vec<u8, A>,
) -> Result<bool, AllocError>
    ensures { IfOk result (λ is_image. AppendsAnswer Passes line.now out.old.items out.new.items is_image) }
{
    let Some(bytes) = bytes_of(alloc, line)? else {
        return bad_line(out);
    };
    let image = load(rt, alloc, &bytes, out)?;
    Ok(image.is_some())
}

/// Appends what `show` writes for a line: a line for each node of its image and one for each name, else
/// what `fsck` writes. Answers whether the line's bytes make an image. After `Err`, where memory is
/// refused, part of it may be appended.
pub fn push_rows<A: Allocator + Copy>(
    alloc: A,
    line: &[u8],
    out: &mut Vec<u8, A>,
) -> Result<bool, AllocError>
    ensures { IfOk result (λ is_image. AppendsAnswer (Shows A) line.now out.old.items out.new.items is_image) }
{
    let Some(bytes) = bytes_of(alloc, line)? else {
        return bad_line(out);
    };
    let Some(raw) = sound_rows(alloc, &bytes, out)? else {
        return Ok(false);
    };
    push_nodes_and_names(alloc, &raw, out)?;
    Ok(true)
}

/// The bytes that the line says, if it says some.
fn bytes_of<A: Allocator + Copy>(alloc: A, line: &[u8]) -> Result<Option<Vec<u8, A>>, AllocError>
    ensures { IfOk result (λ bytes. option_map (λ b. b.items) bytes ≡ bytes_said line.now) }
{
    match bytes_in(alloc, line) {
        Ok(bytes) => Ok(Some(bytes)),
        Err(Refusal::BadLine) => Ok(None),
        Err(Refusal::OutOfMemory) => Err(AllocError),
    }
}

/// The bytes that the line says.
fn bytes_in<A: Allocator + Copy>(alloc: A, line: &[u8]) -> Result<Vec<u8, A>, Refusal>
    ensures { ReadsAs (λ bytes. bytes.items) (bytes_said line.now) result }
{
    let mut words = Words::new(line);
    let bytes = words.bytes(alloc)?;
    words.end()?;
    Ok(bytes)
}

/// Appends `bad line`.
fn bad_line<A: Allocator>(out: &mut Vec<u8, A>) -> Result<bool, AllocError>
    ensures { IfOk result (λ is_image. (is_image ≡ false) × (out.new.items ≡ out.old.items ++ line_of (codes "bad line"))) }
{
    out.extend_from_slice(b"bad line\n")?;
    Ok(false)
}

/// Appends a line for each node and one for each name, in the order of the rows.
fn push_nodes_and_names<A: Allocator + Copy>(
    alloc: A,
    raw: &RawImage<A>,
    out: &mut Vec<u8, A>,
) -> Result<(), AllocError>
    ensures { OnOk result (out.new.items ≡ out.old.items ++ show_text raw.now) }
{
    push_nodes(raw.nodes.as_slice(), out)?;
    push_names(alloc, raw.names.as_slice(), out)
}

/// Appends a line for each node.
fn push_nodes<A: Allocator>(rows: &[RawNode], out: &mut Vec<u8, A>) -> Result<(), AllocError>
    ensures { OnOk result (out.new.items ≡ out.old.items ++ flat_map node_row_line rows.now) }
{
    for row in rows.iter() {
        node_line(out, row.number, &row.header)?;
    }
    Ok(())
}

/// Appends a line for each name.
fn push_names<A: Allocator + Copy>(
    alloc: A,
    rows: &[NameRow],
    out: &mut Vec<u8, A>,
) -> Result<(), AllocError>
    ensures { OnOk result (out.new.items ≡ out.old.items ++ flat_map name_row_line rows.now) }
{
    for row in rows.iter() {
        push_name(alloc, row, out)?;
    }
    Ok(())
}

/// Appends the line of a name: `name DIR HEXNAME NUMBER`.
fn push_name<A: Allocator + Copy>(
    alloc: A,
    row: &NameRow,
    out: &mut Vec<u8, A>,
) -> Result<(), AllocError>
    ensures { OnOk result (out.new.items ≡ out.old.items ++ name_row_line row.now) }
{
    let digits = hex::encode(alloc, row.name.as_bytes())?;
    out.try_reserve(LONGEST_LINE)?;
    text(out, b"name");
    field(out, u64::from(row.dir));
    text(out, b" ");
    out.extend_from_slice(digits.as_bytes())?;
    out.try_reserve(LONGEST_LINE)?;
    field(out, u64::from(row.number));
    text(out, b"\n");
    Ok(())
}
