//! What a crash makes of a call that no sync has brought to the disk.
ghost use Rattle.std.specs.Prelude.{◌≡◌, length, IfOk};
ghost use Rattle.kfs_journal.specs.Disk.{Torn, Cut};
ghost use Rattle.kfs_journal.specs.Memory.{written};

use std::alloc::{AllocError, Global};

/// What a crash leaves of a write or a cut.
#[derive(Clone, Copy, Debug, PartialEq, Eq)]
pub enum Tear {
    /// Nothing of it is done.
    Lost,
    /// All of it is done.
    Whole,
    /// The first half of the bytes is written, or the file is cut halfway.
    Half,
    /// The written range is full of ones, which are open gates. The file is cut.
    Ones,
    /// The written range is full of zeros. The file isn't cut.
    Zeros,
}

/// The file with the bytes written over those from `at` on, and past its end; as it is where it is shorter.
pub fn written(alloc: Global, file: &[u8], at: usize, bytes: &[u8]) -> Result<Vec<u8>, AllocError>
    ensures { IfOk result (λ new. new.items ≡ written at bytes.now file.now) }
{
    if file.len() < at {
        return file.to_vec(alloc);
    }
    let mut new = file[..at].to_vec(alloc)?;
    new.extend_from_slice(bytes)?;
    if bytes.len() < file.len() - at {
        new.extend_from_slice(&file[at + bytes.len()..])?;
    }
    Ok(new)
}

/// The file after a write that a crash has torn.
pub fn torn_write(
    alloc: Global,
    file: &[u8],
    at: usize,
    bytes: &[u8],
    tear: Tear,
) -> Result<Vec<u8>, AllocError>
    ensures { IfOk result (λ new. Torn at (length bytes.now) file.now new.items) }
{
    match tear {
        Tear::Lost => file.to_vec(alloc),
        Tear::Whole => written(alloc, file, at, bytes),
        Tear::Half => written(alloc, file, at, &bytes[..bytes.len() / 2]),
        Tear::Ones => written(alloc, file, at, &vec![in alloc; 1u8; bytes.len()]?),
        Tear::Zeros => written(alloc, file, at, &vec![in alloc; 0u8; bytes.len()]?),
    }
}

/// The file after a cut that a crash has torn.
pub fn torn_cut(alloc: Global, file: &[u8], len: usize, tear: Tear) -> Result<Vec<u8>, AllocError>
    ensures { IfOk result (λ new. Cut len file.now new.items) }
{
    if file.len() <= len {
        return file.to_vec(alloc);
    }
    match tear {
        Tear::Lost | Tear::Zeros => file.to_vec(alloc),
        Tear::Whole | Tear::Ones => file[..len].to_vec(alloc),
        Tear::Half => file[..len + (file.len() - len) / 2].to_vec(alloc),
    }
}
