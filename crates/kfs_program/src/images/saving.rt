//! The reply to `save`, which may be long.
ghost use Rattle.std.specs.Prelude.{◌≡◌, ◌+◌, ◌*◌, ◌++◌, length, IfOk, OnOk};
ghost use Rattle.hex.specs.Hex.{encode_lower};
ghost use Rattle.kfs_model.specs.Device.ShownTree.{shown_tree};
ghost use Rattle.kfs_program_text.specs.Parts.{line_of};
ghost use Rattle.kfs_program.specs.Images.Saving.{save_text};

use kfs_image::{Image, encode_image};
use std::alloc::{AllocError, Allocator};

/// Appends `image HEX`: the image's bytes in lower case hexadecimal. Beside the image, its bytes and
/// their text are held, once each. After `Err`, where memory runs out, part of the line may be
/// appended.
pub fn save_line<A: Allocator, B: Allocator>(
    alloc: B,
    out: &mut Vec<u8, B>,
    image: &Image<A>,
) -> Result<(), AllocError>
    ensures { OnOk result (out.new.items ≡ out.old.items ++ line_of (save_text image.now.sizes (shown_tree image.now) image.now.placement)) }
{
    let bytes = encode_image(alloc, image)?;
    out.extend_from_slice(b"image ")?;
    push_digits(out, bytes.as_slice())?;
    out.extend_from_slice(b"\n")
}

/// Appends the bytes in hexadecimal. They are written where they are to stand. `Err` where memory is
/// refused, or where the text is longer than any memory.
fn push_digits<A: Allocator>(out: &mut Vec<u8, A>, bytes: &[u8]) -> Result<(), AllocError>
    ensures { OnOk result (out.new.items ≡ out.old.items ++ encode_lower bytes.now) }
{
    let len = out.len();
    let end = end_of(len, bytes.len())?;
    // one more for the line's end
    out.reserve_exact(end - len + 1)?;
    out.resize(end, 0)?;
    write_digits(&mut out[len..], bytes);
    Ok(())
}

/// Where the text of so many bytes ends that is appended at `len`. `Err` where no memory is so long.
fn end_of(len: usize, count: usize) -> Result<usize, AllocError>
    ensures { IfOk result (λ end. end ≡ len + 2 * count) }
{
    let digits = count.checked_mul(2).ok_or(AllocError)?;
    len.checked_add(digits).ok_or(AllocError)
}

/// Writes the digits of the bytes over a text of their length.
fn write_digits(text: &mut [u8], bytes: &[u8])
    requires { length text.old ≡ 2 * length bytes.now }
    ensures { text.new ≡ encode_lower bytes.now }
{
    hex::encode_to_slice(bytes, text).unwrap();
}
