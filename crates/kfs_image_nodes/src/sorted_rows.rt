//! The tables of name rows that ascend: each row is written once, and no table is searched for its name.
ghost use Rattle.std.specs.Prelude.{◌≡◌, ℕ, T, All, IfOk, count_by, map};
ghost use Rattle.std.specs.FinMap.Entries.{is_sorted};
ghost use Rattle.std.specs.List.Sorted.{IsSorted};
ghost use Rattle.std.specs.Ordering.{eq_by_cmp, nat_cmp};
ghost use Rattle.kfs_model.specs.Table.{numbers};
ghost use Rattle.kfs_model.specs.Tree.{name_order};
ghost use Rattle.kfs_model.specs.Spelling.{IsName};
ghost use Rattle.kfs_maps.specs.Chunks.Edits.{KeysAscend};
ghost use Rattle.kfs_maps.specs.Chunks.Tables.{table};
ghost use Rattle.kfs_image_nodes.specs.Indexes.{by_node, IsCounted};
ghost use Rattle.kfs_image_nodes.specs.NodeEdits.{IsNumber};
ghost use Rattle.kfs_image_nodes.specs.SortedRows.{name_entry, name_entries, dir_of, uplink_of, tallied_at, goes_on, SayHowOften};

use crate::name_edits::number_edits;
use crate::rows::name_key;
use crate::tallies::add;
use crate::uplink_order::{SortUplinks, put_in_order};
use kfs_maps::{ChunkList, Chunks, Key, KeyEdit, Overlay, Pages, push_above};
use kfs_types::{Name, NameRow, Nothing};
use std::alloc::{AllocError, Allocator};

/// The map of the rows' names.
pub(crate) fn names_of<A: Allocator + Clone>(
    alloc: &A,
    rows: &[NameRow],
) -> Result<Chunks<(u32, Name), u32, A>, AllocError>
    requires { T (is_sorted name_order.compare (name_entries rows.now)) }
    ensures { IfOk result (λ names. names ≡ name_entries rows.now) }
{
    let size = <(u32, Name) as Key>::most_entries() / 2;
    let mut list = ChunkList::new(alloc.clone()?);
    let mut left = rows;
    while !left.is_empty() {
        let (some, rest) = left.split_at(size.min(left.len()));
        list.push(entries_of(alloc, some)?)?;
        left = rest;
    }
    list.map()
}

/// The rows as entries of such a map.
fn entries_of<A: Allocator + Clone>(
    alloc: &A,
    rows: &[NameRow],
) -> Result<Vec<((u32, Name), u32), A>, AllocError>
    ensures { IfOk result (λ made. made.items ≡ name_entries rows.now) }
{
    let mut made = Vec::with_capacity(alloc.clone()?, rows.len())?;
    for row in rows {
        made.push((name_key(row.dir, &row.name), row.number))?;
    }
    Ok(made)
}

/// Counts of names, and of uplinks.
#[derive(Drop)]
pub(crate) struct NameCounts<A: Allocator> {
    /// How many names each directory has.
    pub(crate) counts: Pages<u64, A>,
    /// How many names of a directory lead to a node, by the node's number and then the directory's.
    pub(crate) uplinks: Chunks<(u32, u32), u64, A>,
}

/// The counts of the rows' names.
pub(crate) fn counts_of<A: Allocator + Clone, S: SortUplinks>(
    alloc: &A,
    sorter: &S,
    rows: &[NameRow],
) -> Result<NameCounts<A>, AllocError>
    requires can_sort { S.can_sort sorter.now }
    requires sorted { T (is_sorted name_order.compare (name_entries rows.now)) }
    requires numbered { All (λ row. IsNumber row.dir) rows.now }
    ensures { IfOk result (λ made. IsCounted (table name_order (name_entries rows.now)) made.counts (table by_node made.uplinks)) }
{
    let mut counts = Pages::new(alloc.clone()?)?;
    let mut uplinks = Chunks::new(alloc.clone()?);
    // Both counts are of this list, since it takes a thirtieth of the memory of the rows.
    let listed = uplinks_of(alloc, rows)?;
    let tally = directory_counts(alloc, listed.as_slice())?;
    let count_edits = number_edits(alloc, &tally)?;
    let uplink_edits = uplink_counts(alloc, sorter, listed)?;
    counts.change_then(count_edits.as_slice(), &mut Nothing)?;
    uplinks.change_then(uplink_edits.as_slice(), &mut Nothing)?;
    Ok(NameCounts { counts, uplinks })
}

/// The uplinks of the rows' names, each as its node's number and its directory's.
fn uplinks_of<A: Allocator + Clone>(
    alloc: &A,
    rows: &[NameRow],
) -> Result<Vec<(u32, u32), A>, AllocError>
    ensures { IfOk result (λ made. made.items ≡ map uplink_of rows.now) }
{
    let mut made = Vec::with_capacity(alloc.clone()?, rows.len())?;
    for row in rows {
        made.push((row.number, row.dir))?;
    }
    Ok(made)
}

/// How many names each directory has, by the names' uplinks. A directory is looked up once for each run
/// of its uplinks.
fn directory_counts<A: Allocator + Clone>(
    alloc: &A,
    uplinks: &[(u32, u32)],
) -> Result<Overlay<u32, u64, A>, AllocError>
    ensures { IfOk result (λ tally. (d : ℕ) → tallied_at tally.latest.entries d ≡ count_by (λ k. eq_by_cmp nat_cmp d k) (map dir_of uplinks.now)) }
{
    // Tells the prover that a count of names fits 64 bits.
    let _many = uplinks.len();
    let mut tally = Overlay::new(alloc.clone()?);
    let mut run = 0;
    let mut left = uplinks;
    while let Some((uplink, rest)) = left.split_first() {
        run += 1;
        if !is_in_run(uplink, rest) {
            add(&mut tally, uplink.1, run)?;
            run = 0;
        }
        left = rest;
    }
    Ok(tally)
}

/// Whether the first of the later uplinks is of the same directory.
fn is_in_run(uplink: &(u32, u32), later: &[(u32, u32)]) -> bool
    ensures { result ≡ goes_on numbers uplink.now.1 (map dir_of later.now) }
{
    match later.first() {
        Some(next) => next.1.cmp(&uplink.1).is_eq(),
        None => false,
    }
}

/// How many names of each directory lead to each node, by the names' uplinks, as edits that make an empty
/// map say so. The list is sorted, where a map would be searched for each.
fn uplink_counts<A: Allocator + Clone, S: SortUplinks>(
    alloc: &A,
    sorter: &S,
    mut uplinks: Vec<(u32, u32), A>,
) -> Result<Vec<KeyEdit<(u32, u32), u64>, A>, AllocError>
    requires { S.can_sort sorter.now }
    ensures ascend { IfOk result (λ edits. KeysAscend by_node.compare edits.items) }
    ensures said { IfOk result (λ edits. SayHowOften by_node uplinks.items edits.items) }
{
    put_in_order(sorter, uplinks.as_mut_slice());
    let edits = how_often(alloc, uplinks.as_slice())?;
    Ok(edits)
}

/// How often each uplink stands in the list, which ascends.
fn how_often<A: Allocator + Clone>(
    alloc: &A,
    uplinks: &[(u32, u32)],
) -> Result<Vec<KeyEdit<(u32, u32), u64>, A>, AllocError>
    requires { IsSorted by_node.compare uplinks.now }
    ensures ascend { IfOk result (λ edits. KeysAscend by_node.compare edits.items) }
    ensures said { IfOk result (λ edits. SayHowOften by_node uplinks.now edits.items) }
{
    let mut edits = Vec::with_capacity(alloc.clone()?, uplinks.len())?;
    let mut run = 0;
    let mut left = uplinks;
    while let Some((uplink, rest)) = left.split_first() {
        run += 1;
        if !is_same_first(uplink, rest) {
            // It is above the others, since the list ascends.
            let _above = push_above(&mut edits, *uplink, Some(run))?;
            run = 0;
        }
        left = rest;
    }
    Ok(edits)
}

/// Whether the first of the later uplinks is the same.
fn is_same_first(uplink: &(u32, u32), later: &[(u32, u32)]) -> bool
    ensures { result ≡ goes_on by_node uplink.now later.now }
{
    match later.first() {
        Some(next) => next.cmp(uplink).is_eq(),
        None => false,
    }
}
