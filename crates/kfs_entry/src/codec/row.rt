//! The rows of a format: the entries of a log, and the rows of a plan's three parts.
ghost use Rattle.std.specs.Prelude.{◌≡◌, ℕ, ◌<◌, ◌≤◌, List, ◌++◌, length, drop, IfSome, IfNone, IfOk, IfErr, OnOk, All};
ghost use Rattle.std.specs.List.{flat_map};
ghost use Rattle.kfs_entry.specs.Codec.Reading.{StandsIn};
ghost use Rattle.kfs_entry.specs.Codec.RowList.{AreRead, RowMissing};

use std::alloc::{AllocError, AllocFailed, Allocator};

/// A row of a format that can be written. The source is the bytes that the row's spans point into.
pub trait SpelledRow: Drop {
    ghost use Rattle.std.specs.Prelude.{ℕ, List};

    /// The bytes that encode the row.
    ghost spelling: { List ℕ → Self → List ℕ };

    /// What `write` requires of a row. It is nothing where any value of the fields' types can be
    /// written.
    ghost can_write: { List ℕ → Self → Type 0 };

    /// Appends the row's bytes. `Err` where memory runs out.
    fn write<A: Allocator>(&self, out: &mut Vec<u8, A>, source: &[u8]) -> Result<(), AllocError>
        requires { can_write source.now self.now }
        ensures { OnOk result (out.new.items ≡ out.old.items ++ spelling source.now self.now) };

    /// The length of the row's encoding in bytes.
    fn len(&self, source: &[u8]) -> usize
        requires { can_write source.now self.now }
        ensures { result ≡ length (spelling source.now self.now) };
}

/// A row of a format that can be read. Its borrowed names lie in the source.
pub trait ReadRow<'s>: SpelledRow {
    ghost use Rattle.std.specs.Prelude.{ℕ, List};

    /// The row has an encoding in this version of its format, and its spans lie in the source.
    ghost fits: { ℕ → List ℕ → Self → Type 0 };

    /// The bytes begin with a row of this version.
    ghost begins: { ℕ → List ℕ → Type 0 };

    /// The row of this version at position `at`, and the position after it; none where no such row
    /// stands there.
    fn read(version: u8, source: &'s [u8], at: usize) -> Option<(Self, usize)>
        requires { at ≤ length source.now }
        ensures found { IfSome result (λ x. fits version source.now x.0 × StandsIn source.now at x.1 (Self.spelling source.now x.0)) }
        ensures none { IfNone result (begins version (drop at source.now) → ⊥) };
}

/// Why rows were not read.
#[derive(Clone, Copy, Debug, PartialEq, Eq)]
pub enum RowsFault {
    /// This many rows were read, fewer than the count, and no row follows.
    BadRow(u32),
    /// An allocation failed.
    OutOfMemory,
}

impl From<AllocError> for RowsFault {
    ghost use Rattle.std.specs.Prelude.{◌≡◌};
    ghost use Rattle.kfs_entry.specs.declared.codec.row.RowsFault.TheVariants.{OutOfMemory};

    ghost from_gives = { λ _ fault. fault ≡ OutOfMemory };

    fn from(_error: AllocError) -> RowsFault {
        RowsFault::OutOfMemory
    }
}

impl<T: Drop> From<AllocFailed<T>> for RowsFault {
    ghost use Rattle.std.specs.Prelude.{◌≡◌};
    ghost use Rattle.kfs_entry.specs.declared.codec.row.RowsFault.TheVariants.{OutOfMemory};

    ghost from_gives = { λ _ fault. fault ≡ OutOfMemory };

    fn from(_error: AllocFailed<T>) -> RowsFault {
        RowsFault::OutOfMemory
    }
}

/// Reads `count` rows of this version from position `at` on, and answers them with the position after
/// the last. The list grows as rows are read: `count` comes from the input and reserves nothing. Behind
/// the first row there is room for four at most, and for no more than the count.
pub fn read_rows<'s, R: ReadRow<'s>, A: Allocator>(
    alloc: A,
    version: u8,
    source: &'s [u8],
    at: usize,
    count: u32,
) -> Result<(Vec<R, A>, usize), RowsFault>
    requires { at ≤ length source.now }
    ensures found { IfOk result (λ x. AreRead (R.fits version source.now) (R.spelling source.now) source.now at count x.0.items x.1) }
    ensures missing { IfErr result (RowMissing (R.fits version source.now) (R.spelling source.now) (R.begins version) count (drop at source.now)) }
{
    let mut rows = Vec::new(alloc);
    let mut end = at;
    for k in 0..count {
        let Some((row, after)) = R::read(version, source, end) else {
            return Err(RowsFault::BadRow(k));
        };
        if k == 0 {
            rows.reserve_exact(count.min(4) as usize)?;
        }
        if rows.push(row).is_err() {
            return Err(RowsFault::OutOfMemory);
        }
        end = after;
    }
    Ok((rows, end))
}

/// Appends the bytes of the rows, one after another. `Err` where memory runs out; what was appended
/// until then stays.
pub fn write_rows<R: SpelledRow, A: Allocator>(
    out: &mut Vec<u8, A>,
    source: &[u8],
    rows: &[R],
) -> Result<(), AllocError>
    requires { All (R.can_write source.now) rows.now }
    ensures { OnOk result (out.new.items ≡ out.old.items ++ flat_map (R.spelling source.now) rows.now) }
{
    for row in rows {
        row.write(out, source)?;
    }
    Ok(())
}

/// The length of all the encodings in bytes, or `usize::MAX` where it is greater.
pub fn rows_len<R: SpelledRow>(source: &[u8], rows: &[R]) -> usize
    requires { All (R.can_write source.now) rows.now }
{
    let mut len = 0usize;
    for row in rows {
        len = len.saturating_add(row.len(source));
    }
    len
}
