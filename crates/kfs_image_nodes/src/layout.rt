//! The nodes and names of an image, as views share them.
ghost use Rattle.std.specs.Prelude.{◌≡◌, ℕ, ◌<◌, T, All, List, Some, None, option_map, IfSome, IfNone, IfOk, OnOk, OnErr};
ghost use Rattle.std.specs.FinMap.Entries.{is_sorted};
ghost use Rattle.std.specs.Range.Bound.{bound_map};
ghost use Rattle.kfs_types.specs.Views.{header_of};
ghost use Rattle.kfs_model.specs.Table.{empty, get};
ghost use Rattle.kfs_maps.specs.Pages.Shown.{part};
ghost use Rattle.kfs_model.specs.Spelling.{IsName};
ghost use Rattle.kfs_model.specs.Tree.{entry_count, name_order, target};
ghost use Rattle.kfs_model.specs.Sight.{parent_in};
ghost use Rattle.kfs_image_nodes.specs.Contents.{root_alone};
ghost use Rattle.kfs_image_nodes.specs.Lent.{rows_in};
ghost use Rattle.kfs_image_nodes.specs.Look.{IsAnswer, IsAfter, IsNext, IsNextNode};
ghost use Rattle.kfs_image_nodes.specs.Change.{after_rows, renamed, reheaded};
ghost use Rattle.kfs_image_nodes.specs.NodeEdits.{IsNumber};
ghost use Rattle.kfs_image_nodes.specs.Rows.{heads_of, FitPages};
ghost use Rattle.kfs_image_nodes.specs.SortedRows.{name_entries};
ghost use Rattle.kfs_maps.specs.Chunks.Starts.{IsNextRun};
ghost use Rattle.kfs_maps.specs.Chunks.Tables.{table};

use crate::cell::{Answer, Cell};
use crate::edits::NodeChanges;
use crate::name_edits::LastPlaces;
use crate::net::NameRows;
use crate::rows::{NodeTables, name_key};
use crate::uplink_order::SortUplinks;
use kfs_maps::{NameAt, Near, Page, Pages};
use kfs_types::{Change, GREATEST_MODE_OF_VERSION_1, Header, Kind, Name, NameRow, ROOT};
use std::alloc::{AllocError, Allocator};
use std::marker::Model;
use std::ops::Bound;

/// The nodes and names of an image, without any bytes of files. A copy shares the tables, and keeps
/// showing what it showed when it was made.
#[derive(Drop)]
pub struct Shape<A: Allocator> {
    rows: NodeTables<A>,
    /// Where the last name and the last uplink were changed.
    last: LastPlaces,
}

impl<A: Allocator> Model for Shape<A> {
    ghost use Rattle.kfs_image_nodes.specs.Contents.{Contents};
    ghost use Rattle.kfs_image_nodes.specs.Rows.{heads_in, names_in, CountsAreExact};

    ghost Value = { Contents };

    ghost view = { λ s. record { heads = heads_in s.rows; names = names_in s.rows } };

    ghost invariant = { λ s. CountsAreExact s.rows };
}

impl<A: Allocator + Clone> Clone for Shape<A> {
    ghost is_clone = { λ shape copy. copy ≡ shape };

    fn clone(&self) -> Result<Shape<A>, AllocError> {
        Ok(Shape {
            rows: self.rows.clone()?,
            last: self.last,
        })
    }
}

/// The answer of the shape at a cell. Takes no memory.
pub fn look<A: Allocator>(shape: &Shape<A>, cell: &Cell) -> Answer
    ensures { IsAnswer shape.now cell.now result }
{
    match cell {
        Cell::Header(number) => Answer::Header(shape.header(*number)),
        Cell::Name(dir, name) => Answer::Name(shape.target(&name_key(*dir, name))),
        Cell::Count(dir) => Answer::Count(shape.count(*dir)),
        Cell::Parent(number) => Answer::Parent(shape.parent(*number)),
    }
}

impl<A: Allocator> Shape<A> {
    /// The header of a node: what `look` answers, without a cell. Takes no memory.
    pub fn header(&self, number: u32) -> Option<Header>
        ensures { option_map header_of result ≡ get self.now.heads number }
    {
        self.rows.header(number)
    }

    /// Where a name of a directory leads: what `look` answers, but without a copy of the name. Takes no
    /// memory.
    pub fn target(&self, key: &(u32, Name)) -> Option<u32>
        ensures { result ≡ target self.now.names key.now.0 key.now.1 }
    {
        self.rows.target(key)
    }

    /// The same for a name that is looked for where its bytes lie, and for several that are looked up one
    /// after another. It is found faster where the last name was near. `near` becomes the place of this
    /// one. Takes no memory.
    pub fn target_near(&self, near: &mut Near, key: &NameAt<'_>) -> Option<u32>
        ensures { result ≡ target self.now.names key.now.0 key.now.1 }
    {
        self.rows.target_near(near, key)
    }

    /// Where the last name was changed: a place to begin with for `target_near`. Takes no memory.
    pub fn near(&self) -> Near {
        self.last.name
    }

    /// The page with this index, or none where none of its 64 numbers is a node. Number n, from 1 on,
    /// is in page (n - 1) / 64. A page has the headers of its nodes, and all that share it see the
    /// same. Takes no memory.
    pub fn page(&self, index: u32) -> Option<&Page<Header, A>>
        ensures index { IfSome result (λ page. page.now.index ≡ index) }
        ensures headers { IfSome result (λ page. (n : ℕ) → option_map header_of (get page.now.values n) ≡ get (part index self.now.heads) n) }
        ensures some { IfSome result (λ page. part index self.now.heads ≡ empty → ⊥) }
        ensures none { IfNone result (part index self.now.heads ≡ empty) }
    {
        self.rows.headers.page(index)
    }

    /// How many names a directory has: what `look` answers, without a cell. Takes no memory.
    pub fn count(&self, dir: u32) -> u64
        ensures { result ≡ entry_count self.now.names dir }
    {
        self.rows.count(dir)
    }

    /// A directory's parent: what `look` answers, without a cell. Takes no memory.
    pub fn parent(&self, number: u32) -> Option<u32>
        ensures { result ≡ parent_in (get self.now.heads) self.now.names number }
    {
        if number == ROOT || self.header(number)?.kind != Kind::Directory {
            return None;
        }
        self.rows.holder(number)
    }

    /// The least number above `after` that is a node's, or none. Takes no memory.
    pub fn next_node(&self, after: u32) -> Option<u32>
        ensures found { IfSome result (IsNextNode self.now.heads after) }
        ensures none { IfNone result ((m : ℕ) → after < m → get self.now.heads m ≡ None) }
    {
        self.rows.next_node(after)
    }

    /// The least name of the directory above `after`, or of all its names where `after` is none, and
    /// the number that it leads to. None where there is no such name. Takes no memory.
    pub fn next_name(&self, dir: u32, after: Option<&Name>) -> Option<(&Name, u32)>
        ensures found { IfSome result (λ p. IsNext self.now.names dir after.entry p.0.now p.1) }
        ensures none { IfNone result ((m : List ℕ) (n : ℕ) → target self.now.names dir m ≡ Some n → IsAfter after.entry m → ⊥) }
    {
        self.rows.next_name(dir, after)
    }

    /// The next names at the bound or behind it, by directory and name, with the numbers that they lead
    /// to: those that stand side by side in memory. Empty only where there are none. Takes no memory.
    #[doc(hidden)]
    pub fn names_from(&self, start: Bound<&(u32, Name)>) -> &[((u32, Name), u32)]
        ensures { IsNextRun name_order.compare (bound_map (λ x. x.now) start.entry) self.now.names.entries result.now }
    {
        self.rows.names_from(start)
    }
}

impl<A: Allocator + Clone> Shape<A> {
    /// The root directory alone, with mode 0o777, uid 0 and gid 0. `Err` where memory runs out.
    pub fn with_root(alloc: A) -> Result<Shape<A>, AllocError>
        ensures { IfOk result (λ shape. shape ≡ root_alone) }
    {
        let root = Header {
            kind: Kind::Directory,
            mode: GREATEST_MODE_OF_VERSION_1,
            uid: 0,
            gid: 0,
            links: 1,
            size: 0,
        };
        let rows = NodeTables::with_node(alloc, ROOT, root)?;
        Ok(Shape {
            rows,
            last: LastPlaces::none(),
        })
    }

    /// The nodes with these headers, and the names of rows that ascend. Conditions: each name is one, and
    /// each directory's number is 1 to 65,536. Each name is written once, and `sorter` sorts uplinks. `Err` where memory runs out.
    #[doc(hidden)]
    pub fn of_rows<S: SortUplinks>(
        alloc: &A,
        sorter: &S,
        headers: Pages<Header, A>,
        names: &[NameRow],
    ) -> Result<Shape<A>, AllocError>
        requires can_sort { S.can_sort sorter.now }
        requires sorted { T (is_sorted name_order.compare (name_entries names.now)) }
        requires named { All (λ row. IsName row.name) names.now }
        requires numbered { All (λ row. IsNumber row.dir) names.now }
        ensures { IfOk result (λ shape. shape ≡ record { heads = heads_of headers; names = table name_order (name_entries names.now) }) }
    {
        let rows = NodeTables::of_rows(alloc, sorter, headers, names)?;
        Ok(Shape {
            rows,
            last: LastPlaces::none(),
        })
    }

    /// Makes the rows' changes, together with another change. All memory is taken first. `Err` where it
    /// is refused: then neither change is made, and the shape shows what it showed. Pages and chunks
    /// that copies share are copied where they change.
    pub fn apply<T: Change>(
        &mut self,
        alloc: &A,
        names: NameRows<'_, '_, A>,
        nodes: &NodeChanges<'_, A>,
        then: &mut T,
    ) -> Result<(), AllocError>
        requires before { FitPages self.old.heads self.old.names }
        requires after { FitPages (reheaded self.old.heads nodes.now) (renamed self.old.names (rows_in names)) }
        requires then { T.can_make then.old }
        ensures ok { OnOk result (self.new ≡ after_rows self.old (rows_in names.entry) nodes.now) }
        ensures err { OnErr result (self.new ≡ self.old) }
        ensures made { OnOk result (T.made then.old then.new) }
        ensures kept { OnErr result (T.kept then.old then.new) }
    {
        self.rows.apply(alloc, &mut self.last, names, nodes, then)
    }
}
