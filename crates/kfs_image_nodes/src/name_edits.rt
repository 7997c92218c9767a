//! The changes that name rows make to the names, to the counts of directories' names, and to the
//! uplinks. An overlay of numbers as edits of a map in pages.
ghost use Rattle.std.specs.Prelude.{◌≡◌, [], OnOk, IfOk, IfSome};
ghost use Rattle.std.specs.FinMap.Entries.{find};
ghost use Rattle.kfs_model.specs.Table.{get, changed};
ghost use Rattle.kfs_model.specs.Tree.{name_order};
ghost use Rattle.kfs_maps.specs.Pages.Edits.{AreEdits};
ghost use Rattle.kfs_maps.specs.Chunks.Edits.{KeysAscend};
ghost use Rattle.kfs_maps.specs.Chunks.Tables.{table, table_after};
ghost use Rattle.kfs_model.specs.Spelling.{IsName};
ghost use Rattle.kfs_image_nodes.specs.Indexes.{AreNames, IsCounted, by_node};
ghost use Rattle.kfs_image_nodes.specs.Lent.{rows_in};
ghost use Rattle.kfs_image_nodes.specs.NameEdits.{names_seen, counts_seen, ways_seen, IsCountedOver, AreCountEdits, AreEditsOf, AreRowsInOrder};
ghost use Rattle.std.specs.Ordering.{nat_cmp};
ghost use Rattle.std.specs.BTreeMap.{IsOrdered};
ghost use Rattle.kfs_image_nodes.specs.NodeEdits.{edits_from};
ghost use Rattle.kfs_image_nodes.specs.Overlays.{SayOfNumbers};

use crate::net::NameRows;
use crate::tallies::{CountEdits, Tallies, edits_of_one};
use kfs_maps::{Chunks, KeyEdit, Near, NumberEdit, Overlay, Pages, key_edits, push_above};
use kfs_types::{GREATEST_NUMBER, Name};
use std::alloc::{AllocError, Allocator};
use std::collections::BTreeMap;

/// Where the last name and the last uplink were changed. It only makes look-ups and changes faster.
#[derive(Clone, Copy)]
pub(crate) struct LastPlaces {
    pub(crate) name: Near,
    pub(crate) uplink: Near,
}

impl LastPlaces {
    /// None was changed yet.
    pub(crate) fn none() -> LastPlaces {
        LastPlaces {
            name: Near::start(),
            uplink: Near::start(),
        }
    }
}

/// New names, new counts of each directory's names, and new counts of uplinks: how many names of a
/// directory lead to a node. Each list ascends.
#[derive(Drop)]
pub(crate) struct NameEdits<A: Allocator> {
    pub(crate) names: Vec<KeyEdit<(u32, Name), u32>, A>,
    pub(crate) counts: Vec<NumberEdit<u64>, A>,
    pub(crate) uplinks: Vec<KeyEdit<(u32, u32), u64>, A>,
    /// Where the first name and the first uplink are looked for first.
    pub(crate) places: LastPlaces,
}

/// The changes that the rows make, row after row. The maps themselves stay as they are. Counts for
/// numbers that no node can have are left out.
pub(crate) fn name_edits<A: Allocator + Clone>(
    alloc: &A,
    names: &Chunks<(u32, Name), u32, A>,
    counts: &Pages<u64, A>,
    uplinks: &Chunks<(u32, u32), u64, A>,
    last: &mut LastPlaces,
    rows: NameRows<'_, '_, A>,
) -> Result<NameEdits<A>, AllocError>
    requires { IsCounted (table name_order names.now) counts.now (table by_node uplinks.now) }
    ensures { IfOk result (AreEditsOf names.now counts.now uplinks.now (rows_in rows.entry)) }
{
    let Some(edits) = rows_in_order(alloc, rows)? else {
        return edits_of_all(alloc, names, counts, uplinks, rows);
    };
    let CountEdits { counts, uplinks } = count_edits(alloc, names, counts, uplinks, last, &edits)?;
    let places = *last;
    last.name = places.name.behind(puts_first(&edits));
    Ok(NameEdits {
        names: edits,
        counts,
        uplinks,
        places,
    })
}

/// Whether a name has an entry after the first edit.
fn puts_first(edits: &[KeyEdit<(u32, Name), u32>]) -> bool {
    match edits.first() {
        Some(edit) => edit.value.is_some(),
        None => false,
    }
}

/// The rows as edits of the names, or none where their keys don't ascend.
fn rows_in_order<A: Allocator + Clone>(
    alloc: &A,
    rows: NameRows<'_, '_, A>,
) -> Result<Option<Vec<KeyEdit<(u32, Name), u32>, A>>, AllocError>
    ensures { IfOk result (λ made. IfSome made (λ edits. AreRowsInOrder (rows_in rows.entry) edits.items)) }
{
    let count = rows.len();
    let mut edits = Vec::with_capacity(alloc.clone()?, count)?;
    for index in 0..count {
        let edit = rows.edit(index);
        if !push_above(&mut edits, edit.key, edit.value)? {
            return Ok(None);
        }
    }
    Ok(Some(edits))
}

/// The changes of the counts that these edits of the names make. Most logs change one name.
fn count_edits<A: Allocator + Clone>(
    alloc: &A,
    names: &Chunks<(u32, Name), u32, A>,
    counts: &Pages<u64, A>,
    uplinks: &Chunks<(u32, u32), u64, A>,
    last: &mut LastPlaces,
    edits: &[KeyEdit<(u32, Name), u32>],
) -> Result<CountEdits<A>, AllocError>
    requires counted { IsCounted (table name_order names.now) counts.now (table by_node uplinks.now) }
    requires ascend { KeysAscend name_order.compare edits.now }
    ensures { IfOk result (AreCountEdits names.now counts.now uplinks.now edits.now) }
{
    if let [edit] = edits {
        let from = names.get_near(&mut last.name, &edit.key).copied();
        last.name = last.name.at_key(from.is_some());
        let dir = edit.key.0;
        let made = edits_of_one(
            alloc,
            counts,
            uplinks,
            &mut last.uplink,
            dir,
            from,
            edit.value,
        )?;
        if let Some(made) = made {
            return Ok(made);
        }
    }
    let tallies = recounted(alloc, names, counts, uplinks, last, edits)?;
    Ok(CountEdits {
        counts: number_edits(alloc, &tallies.counts)?,
        uplinks: key_edits(alloc, &tallies.uplinks)?,
    })
}

/// The counts after these edits of the names. Each name comes once, so that it leads where the map has it
/// until its own edit.
fn recounted<A: Allocator + Clone>(
    alloc: &A,
    names: &Chunks<(u32, Name), u32, A>,
    counts: &Pages<u64, A>,
    uplinks: &Chunks<(u32, u32), u64, A>,
    last: &mut LastPlaces,
    edits: &[KeyEdit<(u32, Name), u32>],
) -> Result<Tallies<A>, AllocError>
    requires counted { IsCounted (table name_order names.now) counts.now (table by_node uplinks.now) }
    requires ascend { KeysAscend name_order.compare edits.now }
    ensures { IfOk result (λ tallies. IsCounted (table_after (table name_order names.now) edits.now) (counts_seen tallies counts.now) (ways_seen tallies uplinks.now)) }
{
    let mut tallies = Tallies::new(alloc, last.uplink)?;
    let mut walk = NameWalk {
        first: None,
        near: last.name,
    };
    for edit in edits {
        let from = walk.target(names, &edit.key);
        tallies.recount(counts, uplinks, edit.key.0, from, edit.value)?;
    }
    last.name = walk.first.unwrap_or(walk.near);
    last.uplink = tallies.near;
    Ok(tallies)
}

/// Where the names of a log's edits are looked for, one after another.
#[derive(Clone, Copy)]
struct NameWalk {
    /// The place of the first of them.
    first: Option<Near>,
    /// Where the next one is looked for first.
    near: Near,
}

impl NameWalk {
    /// The number that the next name leads to, or none.
    fn target<A: Allocator>(
        &mut self,
        names: &Chunks<(u32, Name), u32, A>,
        key: &(u32, Name),
    ) -> Option<u32>
        ensures { result ≡ find name_order.compare key.now names.now }
    {
        let number = names.get_near(&mut self.near, key).copied();
        let here = self.near.at_key(number.is_some());
        self.first = Some(self.first.unwrap_or(here));
        number
    }
}

/// The changes that any rows make. A name may come more than once.
fn edits_of_all<A: Allocator + Clone>(
    alloc: &A,
    names: &Chunks<(u32, Name), u32, A>,
    counts: &Pages<u64, A>,
    uplinks: &Chunks<(u32, u32), u64, A>,
    rows: NameRows<'_, '_, A>,
) -> Result<NameEdits<A>, AllocError>
    requires { IsCounted (table name_order names.now) counts.now (table by_node uplinks.now) }
    ensures { IfOk result (AreEditsOf names.now counts.now uplinks.now (rows_in rows.entry)) }
{
    let mut overlays = Overlays::new(alloc)?;
    for index in 0..rows.len() {
        overlays.rename(names, counts, uplinks, rows.edit(index))?;
    }
    Ok(NameEdits {
        names: key_edits(alloc, &overlays.names)?,
        counts: number_edits(alloc, &overlays.tallies.counts)?,
        uplinks: key_edits(alloc, &overlays.tallies.uplinks)?,
        places: LastPlaces::none(),
    })
}

/// New names, laid over the map, and the counts with them.
#[derive(Drop)]
pub(crate) struct Overlays<A: Allocator> {
    names: Overlay<(u32, Name), u32, A>,
    tallies: Tallies<A>,
}

impl<A: Allocator + Clone> Overlays<A> {
    fn new(alloc: &A) -> Result<Overlays<A>, AllocError>
        ensures names { IfOk result (λ overlays. overlays.names.latest.entries ≡ []) }
        ensures counts { IfOk result (λ overlays. overlays.tallies.counts.latest.entries ≡ []) }
        ensures uplinks { IfOk result (λ overlays. overlays.tallies.uplinks.latest.entries ≡ []) }
    {
        Ok(Overlays {
            names: Overlay::new(alloc.clone()?),
            tallies: Tallies::new(alloc, Near::start())?,
        })
    }

    /// The number that a name leads to, or none.
    fn target(&self, names: &Chunks<(u32, Name), u32, A>, key: &(u32, Name)) -> Option<u32>
        ensures { result ≡ get (names_seen self.now names.now) key.now }
    {
        self.names.get_or(key, names.get(key).copied())
    }

    /// Sets where the edit's name leads, and changes the counts with it.
    fn rename(
        &mut self,
        names: &Chunks<(u32, Name), u32, A>,
        counts: &Pages<u64, A>,
        uplinks: &Chunks<(u32, u32), u64, A>,
        edit: KeyEdit<(u32, Name), u32>,
    ) -> Result<(), AllocError>
        requires counted { IsCountedOver names.now counts.now uplinks.now self.old }
        requires name { IsName edit.key.1 }
        ensures names { OnOk result (names_seen self.new names.now ≡ changed (names_seen self.old names.now) edit.key edit.value) }
        ensures named { OnOk result (AreNames (names_seen self.old names.now) → AreNames (names_seen self.new names.now)) }
        ensures counted { OnOk result (IsCountedOver names.now counts.now uplinks.now self.new) }
    {
        let from = self.target(names, &edit.key);
        self.tallies
            .recount(counts, uplinks, edit.key.0, from, edit.value)?;
        self.names.set(edit.key, edit.value)?;
        Ok(())
    }
}

/// The overlay as edits, ascending by number. Numbers that pages don't have are left out.
pub(crate) fn number_edits<V: Copy, A: Allocator + Clone>(
    alloc: &A,
    overlay: &Overlay<u32, V, A>,
) -> Result<Vec<NumberEdit<V>, A>, AllocError>
    ensures edits { IfOk result (λ edits. AreEdits edits.items) }
    ensures said { IfOk result (λ edits. SayOfNumbers edits.items overlay.now.latest) }
{
    let mut edits = Vec::with_capacity(alloc.clone()?, overlay.latest.len())?;
    list_numbers(&overlay.latest, &mut edits)?;
    Ok(edits)
}

fn list_numbers<V: Copy, A: Allocator + Clone>(
    latest: &BTreeMap<u32, Option<V>, A>,
    edits: &mut Vec<NumberEdit<V>, A>,
) -> Result<(), AllocError>
    requires { edits.old.items ≡ [] }
    ensures edits { OnOk result (edits.new.items ≡ edits_from latest.now.entries) }
    ensures ordered { IsOrdered nat_cmp latest.now }
{
    for (number, now) in latest {
        if 1 <= *number && *number <= GREATEST_NUMBER {
            edits.push(NumberEdit {
                number: *number,
                value: *now,
            })?;
        }
    }
    Ok(())
}
