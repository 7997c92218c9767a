//! The name rows of an image.
ghost use Rattle.std.specs.Prelude.{◌≡◌, ◌+◌, ◌≤◌, ◌++◌, [], length, IfOk, IfSome, IfNone, OnOk};
ghost use Rattle.std.specs.List.{flat_map};
ghost use Rattle.std.specs.Range.Bound.{bound_map};
ghost use Rattle.std.specs.declared.ops.Bound.TheVariants.{Excluded};
ghost use Rattle.kfs_image.specs.Encode.Rows.{entries_from, name_spelling};

use crate::encode::counts::Rows;
use crate::{Image, Name};
use kfs_entry::codec::{name, number32};
use std::alloc::{AllocError, Allocator};
use std::ops::Bound;

/// The bytes of a name's row, apart from the name's encoding.
const LEN: usize = 8;

/// A directory and a name in it, with the number that the name leads to.
type NameEntry = ((u32, Name), u32);

/// Names of an image that stand side by side in memory.
#[derive(Clone, Copy)]
struct NameRun<'a> {
    /// At least one, ascending by directory and name.
    names: &'a [NameEntry],
    /// The last one's directory and name.
    last: &'a (u32, Name),
}

/// The next names at the bound or behind it, or none.
fn next_run<'a, A: Allocator>(
    image: &'a Image<A>,
    start: Bound<&(u32, Name)>,
) -> Option<NameRun<'a>>
    ensures some { IfSome result (λ run. 1 ≤ length run.names.now) }
    ensures next { IfSome result (λ run. entries_from (bound_map (λ x. x.now) start.entry) image.now.names ≡ run.names.now ++ entries_from (Excluded run.last.now) image.now.names) }
    ensures none { IfNone result (entries_from (bound_map (λ x. x.now) start.entry) image.now.names ≡ []) }
{
    let names = image.names_from(start);
    let (last, _) = names.last()?;
    Some(NameRun { names, last })
}

/// How many names there are, and the bytes of their rows.
pub(crate) fn count_names<A: Allocator>(image: &Image<A>) -> Result<Rows, AllocError>
    ensures { IfOk result (λ rows. rows.count ≡ length image.now.names.entries) }
{
    let mut rows = Rows::none();
    let mut start = Bound::Unbounded;
    while let Some(run) = next_run(image, start) {
        rows = count_run(run.names, rows)?;
        start = Bound::Excluded(run.last);
    }
    Ok(rows)
}

/// Counts these names, too.
fn count_run(names: &[NameEntry], earlier: Rows) -> Result<Rows, AllocError>
    ensures { IfOk result (λ rows. rows.count ≡ earlier.count + length names.now) }
{
    let mut rows = earlier;
    for ((_, name), _) in names {
        rows = rows.and_one(LEN + name::len(&[], &name.borrowed()))?;
    }
    Ok(rows)
}

/// Appends the rows of the names, ascending by directory and name. `Err` where memory runs out.
pub(crate) fn write_names<A: Allocator, B: Allocator>(
    out: &mut Vec<u8, B>,
    image: &Image<A>,
) -> Result<(), AllocError>
    ensures { OnOk result (out.new.items ≡ out.old.items ++ flat_map name_spelling image.now.names.entries) }
{
    let mut start = Bound::Unbounded;
    while let Some(run) = next_run(image, start) {
        write_run(out, run.names)?;
        start = Bound::Excluded(run.last);
    }
    Ok(())
}

/// Appends the rows of these names.
fn write_run<B: Allocator>(out: &mut Vec<u8, B>, names: &[NameEntry]) -> Result<(), AllocError>
    ensures { OnOk result (out.new.items ≡ out.old.items ++ flat_map name_spelling names.now) }
{
    for ((dir, name), number) in names {
        write_name(out, *dir, name, *number)?;
    }
    Ok(())
}

/// Appends the row of a name.
fn write_name<B: Allocator>(
    out: &mut Vec<u8, B>,
    dir: u32,
    name: &Name,
    number: u32,
) -> Result<(), AllocError>
    ensures { OnOk result (out.new.items ≡ out.old.items ++ name_spelling ((dir, name.now), number)) }
{
    number32::write(out, &[], &dir)?;
    name::write(out, &[], &name.borrowed())?;
    number32::write(out, &[], &number)
}
