//! The maps that hold the nodes and names of a shape, with counts of the names. A change that a caller
//! lends, to be made together with a change of the tables.
ghost use Rattle.std.specs.Prelude.{◌≡◌, ℕ, ◌≤◌, ◌<◌, T, All, true, option_map, IfOk, IfSome, IfNone, OnOk, OnErr, Some, None, List, [], ◌∷◌};
ghost use Rattle.std.specs.FinMap.Entries.{is_sorted};
ghost use Rattle.std.specs.Range.Bound.{bound_map};
ghost use Rattle.kfs_types.specs.Views.{header_of};
ghost use Rattle.kfs_model.specs.Spelling.{IsName};
ghost use Rattle.kfs_model.specs.Table.{get, empty, changed};
ghost use Rattle.kfs_model.specs.Tree.{entry_count, name_order, target};
ghost use Rattle.kfs_model.specs.Sight.{holder};
ghost use Rattle.kfs_maps.specs.Pages.Edits.{rewritten, AreEdits};
ghost use Rattle.kfs_maps.specs.Chunks.Edits as keyed;
ghost use Rattle.kfs_maps.specs.Chunks.Starts.{is_from, IsNextRun};
ghost use Rattle.kfs_image_nodes.specs.Change.{renamed, reheaded};
ghost use Rattle.kfs_image_nodes.specs.Indexes.{by_node};
ghost use Rattle.kfs_image_nodes.specs.Lent.{rows_in};
ghost use Rattle.kfs_image_nodes.specs.Look.{IsAfter, IsNext, IsNextNode};
ghost use Rattle.kfs_image_nodes.specs.NodeEdits.{IsNumber};
ghost use Rattle.kfs_image_nodes.specs.Rows.{heads_in, names_in, CountsAreExact, FitPages};
ghost use Rattle.kfs_image_nodes.specs.SortedRows.{name_entries};

use crate::edits::NodeChanges;
use crate::name_edits::{LastPlaces, NameEdits, name_edits};
use crate::net::NameRows;
use crate::sorted_rows::{NameCounts, counts_of, names_of};
use crate::uplink_order::SortUplinks;
use kfs_maps::{Chunks, EditChunks, EditPages, NameAt, Near, NumberEdit, Pages};
use kfs_types::{Change, Header, Name, NameRow, Nothing};
use std::alloc::{AllocError, Allocator};
use std::ops::Bound;

/// Nodes by number, names by directory and name, and counts of the names. Copies share pages and chunks
/// of all four maps.
pub(crate) struct NodeTables<A: Allocator> {
    /// The header of each node.
    pub(crate) headers: Pages<Header, A>,
    /// The number that each name leads to, by directory and name.
    names: Chunks<(u32, Name), u32, A>,
    /// How many names each directory has.
    counts: Pages<u64, A>,
    /// How many names of a directory lead to a node, by the node's number and then the directory's.
    uplinks: Chunks<(u32, u32), u64, A>,
}

// Written out, so that the drop of the maps is proved here once and not again in each crate that drops
// a shape.
impl<A: Allocator> Drop for NodeTables<A> {
    fn drop(self) {
        let NodeTables {
            headers,
            names,
            counts,
            uplinks,
        } = self;
        drop(headers);
        drop(names);
        drop(counts);
        drop(uplinks);
    }
}

impl<A: Allocator + Clone> Clone for NodeTables<A> {
    ghost is_clone = { λ rows copy. copy ≡ rows };

    fn clone(&self) -> Result<NodeTables<A>, AllocError> {
        Ok(NodeTables {
            headers: self.headers.clone()?,
            names: self.names.clone()?,
            counts: self.counts.clone()?,
            uplinks: self.uplinks.clone()?,
        })
    }
}

impl<A: Allocator> NodeTables<A> {
    pub(crate) fn header(&self, number: u32) -> Option<Header>
        ensures { option_map header_of result ≡ get (heads_in self.now) number }
    {
        self.headers.get(number).copied()
    }

    pub(crate) fn target(&self, key: &(u32, Name)) -> Option<u32>
        ensures { result ≡ get (names_in self.now) key.now }
    {
        self.names.get(key).copied()
    }

    pub(crate) fn target_near(&self, near: &mut Near, key: &NameAt<'_>) -> Option<u32>
        ensures { result ≡ get (names_in self.now) key.now }
    {
        self.names.get_near(near, key).copied()
    }

    pub(crate) fn count(&self, dir: u32) -> u64
        requires { CountsAreExact self.now }
        ensures { result ≡ entry_count (names_in self.now) dir }
    {
        self.counts.get(dir).copied().unwrap_or(0)
    }

    /// The least directory with a name that leads to the node.
    pub(crate) fn holder(&self, number: u32) -> Option<u32>
        requires { CountsAreExact self.now }
        ensures { result ≡ holder (names_in self.now) number }
    {
        let (key, _) = self.uplinks.next(Bound::Included(&(number, 0)))?;
        if key.0 == number { Some(key.1) } else { None }
    }

    /// The least number above `after` that is a node's, or none.
    pub(crate) fn next_node(&self, after: u32) -> Option<u32>
        ensures found { IfSome result (IsNextNode (heads_in self.now) after) }
        ensures none { IfNone result ((m : ℕ) → after < m → get (heads_in self.now) m ≡ None) }
    {
        let (number, _) = self.headers.next(after)?;
        Some(number)
    }

    /// The least name of the directory above `after`, or of all its names where `after` is none, and
    /// where it leads.
    pub(crate) fn next_name(&self, dir: u32, after: Option<&Name>) -> Option<(&Name, u32)>
        requires { CountsAreExact self.now }
        ensures found { IfSome result (λ p. IsNext (names_in self.now) dir after.entry p.0.now p.1) }
        ensures none { IfNone result ((m : List ℕ) (n : ℕ) → target (names_in self.now) dir m ≡ Some n → IsAfter after.entry m → ⊥) }
    {
        let start = start_after(dir, after);
        let (key, number) = self.names.next(start.as_ref())?;
        if key.0 == dir {
            Some((&key.1, *number))
        } else {
            None
        }
    }

    /// The next names at the bound or behind it, by directory and name, and where they lead: those that
    /// stand in one chunk.
    pub(crate) fn names_from(&self, start: Bound<&(u32, Name)>) -> &[((u32, Name), u32)]
        ensures { IsNextRun name_order.compare (bound_map (λ x. x.now) start.entry) (names_in self.now).entries result.now }
    {
        self.names.run_from(start)
    }
}

/// The bound at which the directory's names behind `after`, or all of them, begin.
fn start_after(dir: u32, after: Option<&Name>) -> Bound<(u32, Name)>
    ensures within { (m : List ℕ) → IsName m → IsAfter after.entry m → is_from name_order.compare result (dir, m) ≡ true }
    ensures later { (m : List ℕ) → is_from name_order.compare result (dir, m) ≡ true → IsAfter after.entry m }
    ensures directory { (key : ℕ × List ℕ) → is_from name_order.compare result key ≡ true → dir ≤ key.0 }
{
    match after {
        Some(name) => Bound::Excluded(name_key(dir, name)),
        None => Bound::Included((dir, least_name())),
    }
}

/// The least of all names.
fn least_name() -> Name
    ensures { result ≡ 1 ∷ [] }
{
    Name::new(&[1]).unwrap()
}

/// The key under which a name is kept.
pub(crate) fn name_key(dir: u32, name: &Name) -> (u32, Name)
    ensures key { result ≡ (dir, name.now) }
    ensures name { IsName result.1 }
{
    prove!(!name.as_bytes().is_empty());
    (dir, *name)
}

impl<A: Allocator + Clone> NodeTables<A> {
    /// The tables with one node and no name.
    pub(crate) fn with_node(
        alloc: A,
        number: u32,
        header: Header,
    ) -> Result<NodeTables<A>, AllocError>
        requires { IsNumber number }
        ensures heads { IfOk result (λ rows. heads_in rows ≡ changed empty number (Some (header_of header))) }
        ensures names { IfOk result (λ rows. names_in rows ≡ empty) }
        ensures indexed { IfOk result CountsAreExact }
    {
        let mut headers = Pages::new(alloc.clone()?)?;
        let edit = NumberEdit {
            number,
            value: Some(header),
        };
        headers.change_then(&[edit], &mut Nothing)?;
        Ok(NodeTables {
            headers,
            names: Chunks::new(alloc.clone()?),
            counts: Pages::new(alloc.clone()?)?,
            uplinks: Chunks::new(alloc),
        })
    }

    /// The tables with these headers, and with the names of rows that ascend.
    pub(crate) fn of_rows<S: SortUplinks>(
        alloc: &A,
        sorter: &S,
        headers: Pages<Header, A>,
        rows: &[NameRow],
    ) -> Result<NodeTables<A>, AllocError>
        requires can_sort { S.can_sort sorter.now }
        requires sorted { T (is_sorted name_order.compare (name_entries rows.now)) }
        requires named { All (λ row. IsName row.name) rows.now }
        requires numbered { All (λ row. IsNumber row.dir) rows.now }
        ensures headers { IfOk result (λ tables. tables.headers ≡ headers) }
        ensures names { IfOk result (λ tables. tables.names ≡ name_entries rows.now) }
        ensures indexed { IfOk result CountsAreExact }
    {
        let NameCounts { counts, uplinks } = counts_of(alloc, sorter, rows)?;
        let names = names_of(alloc, rows)?;
        Ok(NodeTables {
            headers,
            names,
            counts,
            uplinks,
        })
    }

    /// Makes the edits of all four maps and another change, or none of these. All memory is taken
    /// before the first edit.
    fn change<T: Change>(
        &mut self,
        headers: &[NumberEdit<Header>],
        edits: &NameEdits<A>,
        then: &mut T,
    ) -> Result<(), AllocError>
        requires headers { AreEdits headers.now }
        requires names { keyed.KeysAscend name_order.compare edits.now.names.items }
        requires counts { AreEdits edits.now.counts.items }
        requires uplinks { keyed.KeysAscend by_node.compare edits.now.uplinks.items }
        requires then { T.can_make then.old }
        ensures headers { OnOk result (self.new.headers ≡ rewritten self.old.headers headers.now) }
        ensures names { OnOk result (self.new.names ≡ keyed.rewritten name_order self.old.names edits.now.names.items) }
        ensures counts { OnOk result (self.new.counts ≡ rewritten self.old.counts edits.now.counts.items) }
        ensures uplinks { OnOk result (self.new.uplinks ≡ keyed.rewritten by_node self.old.uplinks edits.now.uplinks.items) }
        ensures err { OnErr result (self.new ≡ self.old) }
        ensures made { OnOk result (T.made then.old then.new) }
        ensures kept { OnErr result (T.kept then.old then.new) }
    {
        let mut all = EditChunks {
            chunks: &mut self.names,
            near: edits.places.name,
            edits: edits.names.as_slice(),
            then: EditPages {
                pages: &mut self.counts,
                edits: edits.counts.as_slice(),
                then: EditChunks {
                    chunks: &mut self.uplinks,
                    near: edits.places.uplink,
                    edits: edits.uplinks.as_slice(),
                    then: Borrowed { change: then },
                },
            },
        };
        self.headers.change_then(headers, &mut all)
    }

    /// Makes the rows' changes, together with another change. All memory is taken first; where it is
    /// refused, neither change is made, and the tables stay as they are. Names and uplinks are found faster
    /// where they are near the last ones; `last` becomes the places of these.
    pub(crate) fn apply<T: Change>(
        &mut self,
        alloc: &A,
        last: &mut LastPlaces,
        names: NameRows<'_, '_, A>,
        nodes: &NodeChanges<'_, A>,
        then: &mut T,
    ) -> Result<(), AllocError>
        requires indexed { CountsAreExact self.old }
        requires before { FitPages (heads_in self.old) (names_in self.old) }
        requires after { FitPages (reheaded (heads_in self.old) nodes.now) (renamed (names_in self.old) (rows_in names)) }
        requires then { T.can_make then.old }
        ensures indexed { CountsAreExact self.new }
        ensures headers { OnOk result (heads_in self.new ≡ reheaded (heads_in self.old) nodes.now) }
        ensures names { OnOk result (names_in self.new ≡ renamed (names_in self.old) (rows_in names.entry)) }
        ensures err { OnErr result (self.new ≡ self.old) }
        ensures made { OnOk result (T.made then.old then.new) }
        ensures kept { OnErr result (T.kept then.old then.new) }
    {
        let edits = name_edits(alloc, &self.names, &self.counts, &self.uplinks, last, names)?;
        self.change(nodes.headers(), &edits, then)
    }
}

/// A change, by reference.
#[derive(Drop)]
pub(crate) struct Borrowed<'a, T> {
    pub(crate) change: &'a mut T,
}

impl<'a, T: Change> Change for Borrowed<'a, T> {
    ghost use Rattle.std.specs.Prelude.{◌≡◌, refl};

    ghost can_make = { λ before. T.can_make before.change.now };

    ghost made = { λ before after. T.made before.change.now after.change.now × (after.change.ghost_name ≡ before.change.ghost_name) };

    ghost kept = { λ before after. T.kept before.change.now after.change.now × (after.change.ghost_name ≡ before.change.ghost_name) };

    ghost not_tried = { λ before. (T.not_tried before.change.now, refl) };

    fn make(&mut self) -> Result<(), AllocError> {
        self.change.make()
    }
}
