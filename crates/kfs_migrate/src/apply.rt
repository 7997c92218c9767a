//! The change that moves make to an image.
ghost use Rattle.std.specs.Prelude.{◌≡◌, None, IfOk, OnOk, OnErr};
ghost use Rattle.kfs_model.specs.Migration.{fault_of_moves};
ghost use Rattle.kfs_model.specs.Device.ShownTree.{shown_tree};
ghost use Rattle.kfs_migrate.specs.Applied.{AreApplied, AreBytesOf, AreEditsOf, AddsEdits};

use kfs_image::{Edit, Image};
use kfs_types::{BLOCK_LEN, Move};
use std::alloc::{AllocError, Allocator};

/// Makes the moves, all at once: each block lies at its target then, with its bytes. Nothing else
/// changes, and the image shows the same tree. Condition: `check_moves` answers `Ok`.
///
/// Each block's bytes are copied, and stay at the old place too, which is free then. `Err` where memory
/// is refused: all memory is taken before the first change, so the image is as it was.
pub fn apply_moves<A: Allocator + Clone>(
    alloc: A,
    image: &mut Image<A>,
    moves: &[Move],
) -> Result<(), AllocError>
    requires { fault_of_moves image.old.sizes image.old.placement moves.now ≡ None }
    ensures ok { OnOk result (AreApplied moves.now image.old image.new) }
    ensures shown { OnOk result (shown_tree image.new ≡ shown_tree image.old) }
    ensures err { OnErr result (image.new ≡ image.old) }
{
    // Tells the prover that the image is lawful.
    let _shape = image.shape();
    let edits = edits_of(&alloc, image, moves)?;
    image.edit(edits.as_slice())
}

/// The edits that put each block at its target, with its bytes.
fn edits_of<A: Allocator + Clone>(
    alloc: &A,
    image: &Image<A>,
    moves: &[Move],
) -> Result<Vec<Edit<A>, A>, AllocError>
    requires { fault_of_moves image.now.sizes image.now.placement moves.now ≡ None }
    ensures { IfOk result (λ edits. AreEditsOf image.now moves.now edits.items) }
{
    // Tells the prover that the image is lawful.
    let _shape = image.shape();
    let mut edits = Vec::new(alloc.clone()?);
    for m in moves {
        add_edits(&mut edits, image, *m)?;
    }
    Ok(edits)
}

/// Adds the edits for one move.
fn add_edits<A: Allocator + Clone>(
    edits: &mut Vec<Edit<A>, A>,
    image: &Image<A>,
    m: Move,
) -> Result<(), AllocError>
    ensures { OnOk result (AddsEdits image.now m edits.old.items edits.new.items) }
{
    let bytes = bytes_of(edits.allocator().clone()?, image, m)?;
    edits.push(Edit::Map(m.number, m.block, Some((m.tier, m.place))))?;
    edits.push(Edit::Bytes(m.tier, m.place, bytes))?;
    Ok(())
}

/// The bytes of the block that moves.
fn bytes_of<A: Allocator>(alloc: A, image: &Image<A>, m: Move) -> Result<Vec<u8, A>, AllocError>
    ensures { IfOk result (λ bytes. AreBytesOf image.now m bytes.items) }
{
    let mut bytes = vec![in alloc; 0u8; BLOCK_LEN]?;
    image.read_block(m.number, m.block, &mut bytes);
    Ok(bytes)
}
