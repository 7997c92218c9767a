//! Reading one chunk at a time. Cutting bytes into lines.
ghost use Rattle.std.specs.Prelude.{◌≡◌, ◌≤◌, ◌<◌, length, IfOk, IfSome, [], ◌∷◌, MatchOption};
ghost use Rattle.std.specs.Io.KnownBytes.{IsAtEnd};
ghost use Rattle.kfs_program_text.specs.Streams.{IsChunkRead};
ghost use Rattle.kfs_program_text.specs.Cut.{cut, line_end};

use crate::fault::InputFault;
use crate::words::first_place;
use std::io::{ErrorKind, Read};

/// How many bytes one read gave, 0 at the end of the input; none where the read was interrupted.
pub fn read_some<I: Read>(reader: &mut I, chunk: &mut [u8]) -> Result<Option<usize>, InputFault>
    requires { 0 < length chunk.old }
    ensures bytes { IsChunkRead result chunk.new (I.remaining reader.old) (I.remaining reader.new) }
    ensures count { IfOk result (λ read. IfSome read (λ count. count ≤ length chunk.old)) }
    ensures end { IfOk result (λ read. IfSome read (λ count. count ≡ 0 → IsAtEnd (I.remaining reader.new))) }
{
    match reader.read(chunk) {
        Ok(count) => Ok(Some(count)),
        Err(error) if error.kind() == ErrorKind::Interrupted => Ok(None),
        Err(_) => Err(InputFault),
    }
}

/// The bytes before the first line's end, and those after it; none where there is no line's end.
pub fn first_line(bytes: &[u8]) -> Option<(&[u8], &[u8])>
    ensures cut { MatchOption result (cut line_end bytes.now ≡ bytes.now ∷ []) (λ parts. cut line_end bytes.now ≡ parts.0.now ∷ cut line_end parts.1.now) }
    ensures shorter { IfSome result (λ parts. length parts.1.now < length bytes.now) }
{
    let place = first_place(b'\n', bytes)?;
    Some((&bytes[..place], &bytes[place + 1..]))
}
