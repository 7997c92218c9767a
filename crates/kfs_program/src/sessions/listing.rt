//! The reply to `list`, which may be long.
ghost use Rattle.std.specs.Prelude.{◌≡◌, ◌++◌, OnOk, codes, decimal};
ghost use Rattle.hex.specs.Hex.{encode_lower};
ghost use Rattle.kfs_program.specs.Engine.Listing.{list_text, names_in, names_text};
ghost use Rattle.kfs_program_text.specs.Parts.{line_of};

use crate::report::LONGEST_LINE;
use kfs_image::{Image, Name};
use kfs_program_text::parts::{field, number, text};
use std::alloc::{AllocError, Allocator};

/// Appends `list N`, and then for each name of the directory, in order, a space and `HEXNAME:NUMBER`.
/// After `Err`, where memory runs out, part of the line may be appended.
pub fn list_line<A: Allocator + Copy>(
    alloc: A,
    out: &mut Vec<u8, A>,
    image: &Image<A>,
    dir: u32,
) -> Result<(), AllocError>
    ensures { OnOk result (out.new.items ≡ out.old.items ++ line_of (list_text dir image.now.names)) }
{
    out.try_reserve(LONGEST_LINE)?;
    text(out, b"list");
    field(out, u64::from(dir));
    push_names(alloc, out, image, dir)?;
    out.extend_from_slice(b"\n")
}

/// Appends the names of the directory.
fn push_names<A: Allocator + Copy>(
    alloc: A,
    out: &mut Vec<u8, A>,
    image: &Image<A>,
    dir: u32,
) -> Result<(), AllocError>
    ensures { OnOk result (out.new.items ≡ out.old.items ++ names_text (names_in image.now.names dir)) }
{
    let mut after = None;
    while let Some((name, node)) = image.next_name(dir, after) {
        push_name(alloc, out, name, node)?;
        after = Some(name);
    }
    Ok(())
}

/// Appends one name, and the number that it leads to.
fn push_name<A: Allocator + Copy>(
    alloc: A,
    out: &mut Vec<u8, A>,
    name: &Name,
    node: u32,
) -> Result<(), AllocError>
    ensures { OnOk result (out.new.items ≡ out.old.items ++ (codes " " ++ (encode_lower name.now ++ (codes ":" ++ decimal node)))) }
{
    let digits = hex::encode(alloc, name.as_bytes())?;
    out.extend_from_slice(b" ")?;
    out.extend_from_slice(digits.as_bytes())?;
    out.try_reserve(LONGEST_LINE)?;
    text(out, b":");
    number(out, u64::from(node));
    Ok(())
}
