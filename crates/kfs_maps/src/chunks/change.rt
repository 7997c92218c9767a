//! A change of a map within its present chunks: memory is taken while the calls go inwards, values are
//! set while they return. A change of chunks that is made together with another one or not at all.
//! Entries that are cut into chunks, and chunks into parts.
ghost use Rattle.std.specs.Prelude.{◌≡◌, ◌++◌, T, Ok, true, false, OnErr, ◌≤◌, OnOk};
ghost use Rattle.std.specs.FinMap.Entries.{is_sorted};
ghost use Rattle.std.specs.declared.ops.Bound.TheVariants.{Included};
ghost use Rattle.kfs_maps.specs.Chunks.Edits.{entered_all, KeysAscend};
ghost use Rattle.kfs_maps.specs.Chunks.Joined.{joined, were_made, if_made, IsSized, IsNotEmpty, AreSized, AreFilled};
ghost use Rattle.std.proofs.Common.{rules};

use crate::chunks::chunks::Chunks;
use crate::chunks::entries::{Entries, Key, KeyEdit};
use crate::chunks::part::{MOST_CHUNKS, Near, Part};
use crate::chunks::run::{edits_of, place_near};
use kfs_types::Change;
use std::alloc::{AllocError, Allocator};
use std::ops::Bound;
use std::sync::Arc;

/// Makes the edits and the other change, if each chunk has room for its own edits. Answers whether that
/// is so; if not, nothing was tried. All memory is taken before the other change is made, and that
/// comes before the first edit.
///
/// Each edit is made inside the calls for those before it, since a chunk is held while the next is
/// prepared. The callers give `MOST_IN_PLACE` edits at most, which bounds the depth.
#[cycle(change_chunks)]
pub(crate) fn change_parts<K: Key, V: Copy, A: Allocator + Clone, C: Change>(
    parts: &mut [Arc<Part<K, V, A>, A>],
    near: Near,
    edits: &[KeyEdit<K, V>],
    then: &mut C,
) -> Result<bool, AllocError>
    requires ascend { KeysAscend K.cmp edits.now }
    requires sorted { T (is_sorted K.cmp (joined parts.old)) }
    requires filled { AreFilled parts.old }
    requires then { C.can_make then.old }
    ensures filled { AreFilled parts.new }
    ensures joined { joined parts.new ≡ if_made result (entered_all K.cmp (joined parts.old) edits.now) (joined parts.old) }
    ensures made { were_made result ≡ true → C.made then.old then.new }
    ensures not_tried { result ≡ Ok false → then.new ≡ then.old }
    ensures kept { OnErr result (C.kept then.old then.new) }
{
    let Some(edit) = edits.first() else {
        then.make()?;
        return Ok(true);
    };
    let last = parts.len().saturating_sub(1);
    let index = place_near(parts, &Bound::Included(&edit.key), near.part).min(last);
    let (_, rest) = parts.split_at_mut(index);
    let Some((part, rest)) = rest.split_first_mut() else {
        return Ok(false);
    };
    let (mine, later) = edits.split_at(edits_of(edits, part, rest));
    change_from_part(part, rest, near, mine, later, then)
}

/// The same for a part, followed by the parts behind it.
#[cycle(change_chunks)]
fn change_from_part<K: Key, V: Copy, A: Allocator + Clone, C: Change>(
    part: &mut Arc<Part<K, V, A>, A>,
    rest: &mut [Arc<Part<K, V, A>, A>],
    near: Near,
    mine: &[KeyEdit<K, V>],
    later: &[KeyEdit<K, V>],
    then: &mut C,
) -> Result<bool, AllocError>
    requires mine { KeysAscend K.cmp mine.now }
    requires later { KeysAscend K.cmp later.now }
    requires sorted { T (is_sorted K.cmp (joined rest.old)) }
    requires part { IsNotEmpty part.old.value.pairs }
    requires filled { AreFilled rest.old }
    requires then { C.can_make then.old }
    ensures part_filled { IsNotEmpty part.new.value.pairs }
    ensures filled { AreFilled rest.new }
    ensures part { part.new.value.pairs ≡ if_made result (entered_all K.cmp part.old.value.pairs mine.now) part.old.value.pairs }
    ensures rest { joined rest.new ≡ if_made result (entered_all K.cmp (joined rest.old) later.now) (joined rest.old) }
    ensures made { were_made result ≡ true → C.made then.old then.new }
    ensures not_tried { result ≡ Ok false → then.new ≡ then.old }
    ensures kept { OnErr result (C.kept then.old then.new) }
{
    // The part may be shared, and copied here: not where the first chunk has no room.
    if !part.takes_first(near.chunk, mine) {
        return Ok(false);
    }
    let part = Arc::make_mut(part)?;
    change_chunks(part.chunks.as_mut_slice(), near, mine, rest, later, then)
}

/// The same for chunks, followed by the parts behind them.
#[cycle(change_chunks)]
fn change_chunks<K: Key, V: Copy, A: Allocator + Clone, C: Change>(
    chunks: &mut [Arc<Entries<K, V, A>, A>],
    near: Near,
    edits: &[KeyEdit<K, V>],
    parts: &mut [Arc<Part<K, V, A>, A>],
    behind: &[KeyEdit<K, V>],
    then: &mut C,
) -> Result<bool, AllocError>
    requires ascend { KeysAscend K.cmp edits.now }
    requires sorted { T (is_sorted K.cmp (joined chunks.old)) }
    requires sized { AreSized chunks.old }
    requires behind { KeysAscend K.cmp behind.now }
    requires parts { T (is_sorted K.cmp (joined parts.old)) }
    requires filled { AreFilled parts.old }
    requires then { C.can_make then.old }
    ensures sized { AreSized chunks.new }
    ensures joined { joined chunks.new ≡ if_made result (entered_all K.cmp (joined chunks.old) edits.now) (joined chunks.old) }
    ensures filled { AreFilled parts.new }
    ensures parts { joined parts.new ≡ if_made result (entered_all K.cmp (joined parts.old) behind.now) (joined parts.old) }
    ensures made { were_made result ≡ true → C.made then.old then.new }
    ensures not_tried { result ≡ Ok false → then.new ≡ then.old }
    ensures kept { OnErr result (C.kept then.old then.new) }
{
    let Some(edit) = edits.first() else {
        return change_parts(parts, Near::start(), behind, then);
    };
    let last = chunks.len().saturating_sub(1);
    let index = place_near(chunks, &Bound::Included(&edit.key), near.chunk).min(last);
    let (_, rest) = chunks.split_at_mut(index);
    let Some((chunk, rest)) = rest.split_first_mut() else {
        return Ok(false);
    };
    let (mine, later) = edits.split_at(edits_of(edits, chunk, rest));
    change_from(chunk, rest, near.entry, mine, later, parts, behind, then)
}

/// The same for a chunk, followed by the chunks and parts behind it.
#[cycle(change_chunks)]
fn change_from<K: Key, V: Copy, A: Allocator + Clone, C: Change>(
    chunk: &mut Arc<Entries<K, V, A>, A>,
    rest: &mut [Arc<Entries<K, V, A>, A>],
    near: usize,
    mine: &[KeyEdit<K, V>],
    later: &[KeyEdit<K, V>],
    parts: &mut [Arc<Part<K, V, A>, A>],
    behind: &[KeyEdit<K, V>],
    then: &mut C,
) -> Result<bool, AllocError>
    requires mine { KeysAscend K.cmp mine.now }
    requires ascend { KeysAscend K.cmp later.now }
    requires chunk { T (is_sorted K.cmp chunk.old.value.pairs) }
    requires sorted { T (is_sorted K.cmp (joined rest.old)) }
    requires size { IsSized chunk.old.value.pairs }
    requires sized { AreSized rest.old }
    requires behind { KeysAscend K.cmp behind.now }
    requires parts { T (is_sorted K.cmp (joined parts.old)) }
    requires filled { AreFilled parts.old }
    requires then { C.can_make then.old }
    ensures size { IsSized chunk.new.value.pairs }
    ensures sized { AreSized rest.new }
    ensures chunk { chunk.new.value.pairs ≡ if_made result (entered_all K.cmp chunk.old.value.pairs mine.now) chunk.old.value.pairs }
    ensures rest { joined rest.new ≡ if_made result (entered_all K.cmp (joined rest.old) later.now) (joined rest.old) }
    ensures filled { AreFilled parts.new }
    ensures parts { joined parts.new ≡ if_made result (entered_all K.cmp (joined parts.old) behind.now) (joined parts.old) }
    ensures made { were_made result ≡ true → C.made then.old then.new }
    ensures not_tried { result ≡ Ok false → then.new ≡ then.old }
    ensures kept { OnErr result (C.kept then.old then.new) }
{
    if !chunk.takes(mine.len()) {
        return Ok(false);
    }
    let chunk = Arc::make_mut(chunk)?;
    chunk.reserve(mine.len())?;
    let done = change_chunks(rest, Near::start(), later, parts, behind, then);
    if let Ok(true) = done {
        chunk.write(near, mine);
    }
    done
}

/// Edits of a map in chunks, and the change to be made together with them.
#[derive(Drop)]
pub struct EditChunks<'a, K: Key, V: Copy, A: Allocator, T> {
    /// The map that is changed.
    pub chunks: &'a mut Chunks<K, V, A>,
    /// Where the first edit's key is looked for first.
    pub near: Near,
    /// Its edits, ascending by key.
    pub edits: &'a [KeyEdit<K, V>],
    /// The change made with them.
    pub then: T,
}

impl<'a, K: Key, V: Copy, A: Allocator + Clone, T: Change> Change for EditChunks<'a, K, V, A, T> {
    ghost use Rattle.kfs_types.specs.Nested.{Becomes};
    ghost use Rattle.kfs_maps.specs.Chunks.Edits.{rewritten, KeysAscend};

    ghost can_make = { λ before. KeysAscend K.order.compare before.edits.now × T.can_make before.then };

    ghost made = { λ before after. Becomes before.chunks after.chunks (rewritten K.order before.chunks.now before.edits.now) × T.made before.then after.then };

    ghost kept = { λ before after. Becomes before.chunks after.chunks before.chunks.now × T.kept before.then after.then };

    ghost not_tried = { λ before. Prim.search rules };

    fn make(&mut self) -> Result<(), AllocError> {
        let near = self.near;
        self.chunks.change_near(near, self.edits, &mut self.then)
    }
}

/// Appends the entries: as a chunk if they fit in one and don't take twice the memory they need, else
/// cut into chunks.
pub(crate) fn append<K: Key, V: Copy, A: Allocator + Clone>(
    new: &mut Vec<Arc<Entries<K, V, A>, A>, A>,
    entries: Entries<K, V, A>,
) -> Result<(), AllocError>
    requires sized { AreSized new.old.items }
    ensures joined { OnOk result (joined new.new.items ≡ joined new.old.items ++ entries.pairs) }
    ensures sized { OnOk result (AreSized new.new.items) }
{
    let len = entries.len();
    if len == 0 || len > K::most_entries() || entries.room() > len {
        return cut(new, &entries);
    }
    let chunk = Arc::new(new.allocator().clone()?, entries)?;
    new.push(chunk)?;
    Ok(())
}

/// Appends the entries, cut into chunks of one size; only the last may be smaller.
fn cut<K: Key, V: Copy, A: Allocator + Clone>(
    new: &mut Vec<Arc<Entries<K, V, A>, A>, A>,
    entries: &Entries<K, V, A>,
) -> Result<(), AllocError>
    requires sized { AreSized new.old.items }
    ensures joined { OnOk result (joined new.new.items ≡ joined new.old.items ++ entries.now.pairs) }
    ensures sized { OnOk result (AreSized new.new.items) }
{
    let size = size_for(entries.len(), K::most_entries());
    let mut from = 0;
    while from < entries.len() {
        let count = size.min(entries.len() - from);
        let chunk = entries.part(from, count)?;
        new.push(Arc::new(new.allocator().clone()?, chunk)?)?;
        from += count;
    }
    Ok(())
}

/// How many entries each new chunk gets, where a chunk takes `most`: all if they fit in one, half if
/// two chunks suffice, else three quarters of `most`, so that each can grow.
pub(crate) fn size_for(len: usize, most: usize) -> usize
    requires fits_two { 2 ≤ most }
    requires most { most ≤ 256 }
    ensures least { 1 ≤ result }
    ensures most { result ≤ most }
{
    if len <= most {
        most
    } else if len <= 2 * most {
        len - len / 2
    } else {
        most - most / 4
    }
}

/// Appends the chunks, cut into parts of one size; only the last may be smaller.
pub(crate) fn cut_parts<K: Key, V: Copy, A: Allocator + Clone>(
    new: &mut Vec<Arc<Part<K, V, A>, A>, A>,
    chunks: &[Arc<Entries<K, V, A>, A>],
) -> Result<(), AllocError>
    requires sorted { T (is_sorted K.cmp (joined chunks.now)) }
    requires sized { AreSized chunks.now }
    requires filled { AreFilled new.old.items }
    ensures joined { OnOk result (joined new.new.items ≡ joined new.old.items ++ joined chunks.now) }
    ensures filled { OnOk result (AreFilled new.new.items) }
{
    let size = size_for(chunks.len(), MOST_CHUNKS);
    let mut left = chunks;
    while !left.is_empty() {
        let (mine, rest) = left.split_at(size.min(left.len()));
        let part = Part::of(new.allocator().clone()?, mine)?;
        new.push(Arc::new(new.allocator().clone()?, part)?)?;
        left = rest;
    }
    Ok(())
}
