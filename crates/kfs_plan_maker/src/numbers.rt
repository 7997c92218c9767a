//! The nodes of which a log may ask leases.
ghost use Rattle.std.specs.Prelude.{◌≡◌, ◌++◌, ◌∷◌, [], IfOk, OnOk};
ghost use Rattle.std.specs.List.{flat_map};
ghost use Rattle.kfs_model.specs.Tree.{target};
ghost use Rattle.kfs_plan_maker.specs.AskedLeases.{listed, named_in};

use kfs_entry::{Entry, Name, Span};
use kfs_image_nodes::Shape;
use std::alloc::{AllocError, Allocator};

/// The numbers that the entries name, and those to which the names lead that an Unlink or a Rename
/// takes out, before the log. They stand in the order of the entries, some of them several times.
/// `Err` where memory runs out.
pub fn numbers_named<A: Allocator + Copy>(
    alloc: A,
    shape: &Shape<A>,
    entries: &[Entry<Span>],
) -> Result<Vec<u32, A>, AllocError>
    ensures { IfOk result (λ numbers. numbers.items ≡ flat_map (named_in (target shape.now.names)) entries.now) }
{
    let mut numbers = Vec::new(alloc);
    for entry in entries {
        push_named(&mut numbers, shape, entry)?;
    }
    Ok(numbers)
}

/// Appends the numbers of one entry.
fn push_named<A: Allocator + Copy>(
    numbers: &mut Vec<u32, A>,
    shape: &Shape<A>,
    entry: &Entry<Span>,
) -> Result<(), AllocError>
    ensures { OnOk result (numbers.new.items ≡ numbers.old.items ++ named_in (target shape.now.names) entry.now) }
{
    match entry {
        Entry::Create { dir, number, .. } => push_both(numbers, *dir, *number),
        Entry::Write { number, .. } => push_one(numbers, *number),
        Entry::Truncate { number, .. } => push_one(numbers, *number),
        Entry::Link { number, dir, .. } => push_both(numbers, *number, *dir),
        Entry::Unlink { dir, name, .. } => {
            push_one(numbers, *dir)?;
            push_target(numbers, shape, *dir, name)
        }
        Entry::Rename {
            dir,
            name,
            new_dir,
            new_name,
        } => {
            push_both(numbers, *dir, *new_dir)?;
            push_target(numbers, shape, *dir, name)?;
            push_target(numbers, shape, *new_dir, new_name)
        }
        Entry::Chmod { number, .. } => push_one(numbers, *number),
        Entry::Regroup { number, .. } => push_one(numbers, *number),
    }
}

fn push_one<A: Allocator>(numbers: &mut Vec<u32, A>, number: u32) -> Result<(), AllocError>
    ensures { OnOk result (numbers.new.items ≡ numbers.old.items ++ (number ∷ [])) }
{
    numbers.push(number)?;
    Ok(())
}

fn push_both<A: Allocator>(
    numbers: &mut Vec<u32, A>,
    first: u32,
    second: u32,
) -> Result<(), AllocError>
    ensures { OnOk result (numbers.new.items ≡ numbers.old.items ++ (first ∷ second ∷ [])) }
{
    numbers.push(first)?;
    numbers.push(second)?;
    Ok(())
}

/// Appends the number to which the name leads, if it leads to one.
fn push_target<A: Allocator + Copy>(
    numbers: &mut Vec<u32, A>,
    shape: &Shape<A>,
    dir: u32,
    name: &Name,
) -> Result<(), AllocError>
    ensures { OnOk result (numbers.new.items ≡ numbers.old.items ++ listed (target shape.now.names dir name.now)) }
{
    let key = (dir, copied(name)?);
    match shape.target(&key) {
        Some(number) => push_one(numbers, number),
        None => Ok(()),
    }
}

/// A copy of a name.
fn copied(name: &Name) -> Result<Name, AllocError>
    ensures { IfOk result (λ copy. copy ≡ name.now) }
{
    name.clone()
}
