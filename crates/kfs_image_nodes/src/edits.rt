//! The changes of headers that node rows make.
ghost use Rattle.std.specs.Prelude.{◌≡◌, ◌∷◌, [], ℕ, Option, IfOk, IfSome, map};
ghost use Rattle.std.specs.Ordering.{nat_cmp};
ghost use Rattle.std.specs.BTreeMap.{get};
ghost use Rattle.kfs_maps.specs.Pages.Edits.{edited, AreEdits};
ghost use Rattle.kfs_image_nodes.specs.NodeEdits.{left_by, node_edit, AreHeaderEdits, IsNumber};
ghost use Rattle.kfs_image_nodes.specs.HeaderEdits.{header_edits_in};
ghost use Rattle.kfs_maps.specs.Chunks.Overlays.{said_or};

use crate::name_edits::number_edits;
use kfs_maps::{NumberEdit, Overlay};
use kfs_types::{GREATEST_NUMBER, Header, NodeRow};
use std::alloc::{AllocError, Allocator};
use std::marker::Model;

/// Node rows, with the new headers that they make. All that a change of nodes asks of its rows is
/// answered from these, so they are made once. Contracts see the rows.
#[derive(Drop)]
pub struct NodeChanges<'a, A: Allocator> {
    rows: &'a [NodeRow],
    edits: HeaderEdits<A>,
}

/// New headers, ascending by number. Most logs make one, which takes no memory.
#[derive(Drop)]
enum HeaderEdits<A: Allocator> {
    One([NumberEdit<Header>; 1]),
    All(Vec<NumberEdit<Header>, A>),
}

impl<A: Allocator> HeaderEdits<A> {
    fn as_slice(&self) -> &[NumberEdit<Header>]
        ensures { result.now ≡ header_edits_in self.now }
    {
        match self {
            HeaderEdits::One(edit) => edit,
            HeaderEdits::All(edits) => edits.as_slice(),
        }
    }
}

impl<'a, A: Allocator> Model for NodeChanges<'a, A> {
    ghost use Rattle.std.specs.Prelude.{List};
    ghost use Rattle.kfs_types.specs.declared.plan.NodeRow.{NodeRow};
    ghost use Rattle.kfs_image_nodes.specs.NodeEdits.{AreHeaderEdits};
    ghost use Rattle.kfs_image_nodes.specs.HeaderEdits.{header_edits_in};

    ghost Value = { List NodeRow };

    ghost view = { λ n. n.rows.now };

    ghost invariant = { λ n. AreHeaderEdits n.rows.now (header_edits_in n.edits) };
}

impl<'a, A: Allocator + Clone> NodeChanges<'a, A> {
    /// The rows, made one after another. `Err` where memory runs out.
    pub fn of(alloc: &A, rows: &'a [NodeRow]) -> Result<NodeChanges<'a, A>, AllocError>
        ensures { IfOk result (λ edits. edits ≡ rows.now) }
    {
        if let Some(edit) = one_edit(rows) {
            let edits = HeaderEdits::One([edit]);
            return Ok(NodeChanges { rows, edits });
        }
        let edits = HeaderEdits::All(header_edits(alloc, rows)?);
        Ok(NodeChanges { rows, edits })
    }
}

impl<'a, A: Allocator> NodeChanges<'a, A> {
    /// The new headers, ascending by number. Takes no memory.
    pub fn headers(&self) -> &[NumberEdit<Header>]
        ensures { AreHeaderEdits self.now result.now }
    {
        self.edits.as_slice()
    }

    /// The header of a node after the rows, where it is `before` before them. Takes no memory.
    pub fn after(&self, number: u32, before: Option<Header>) -> Option<Header>
        ensures { result ≡ left_by self.now number before }
    {
        if 1 <= number && number <= GREATEST_NUMBER {
            by_edits(self.edits.as_slice(), number, before)
        } else {
            by_rows(self.rows, number, before)
        }
    }
}

/// The header of a node after edits of headers, which ascend, found by binary search.
fn by_edits(edits: &[NumberEdit<Header>], number: u32, before: Option<Header>) -> Option<Header>
    requires { AreEdits edits.now }
    ensures { result ≡ edited edits.now number before }
{
    let place = edits.partition_point(|edit| edit.number < number);
    match edits.get(place) {
        Some(edit) if edit.number == number => edit.value,
        _ => before,
    }
}

/// The header of a node after the rows, one after another.
fn by_rows(rows: &[NodeRow], number: u32, before: Option<Header>) -> Option<Header>
    ensures { result ≡ left_by rows.now number before }
{
    let mut found = before;
    for row in rows {
        if row.number == number {
            found = row.now;
        }
    }
    found
}

/// The edit that the rows make, if there is one row, of a number that a node can have.
fn one_edit(rows: &[NodeRow]) -> Option<NumberEdit<Header>>
    ensures { IfSome result (λ edit. AreHeaderEdits rows.now (edit ∷ [])) }
{
    let [row] = rows else {
        return None;
    };
    if row.number == 0 || GREATEST_NUMBER < row.number {
        return None;
    }
    Some(NumberEdit {
        number: row.number,
        value: row.now,
    })
}

/// The new headers that the rows make, row after row, ascending by number. Rows with numbers that no
/// node can have are left out. `Err` where memory runs out.
fn header_edits<A: Allocator + Clone>(
    alloc: &A,
    nodes: &[NodeRow],
) -> Result<Vec<NumberEdit<Header>, A>, AllocError>
    ensures edits { IfOk result (λ edits. AreEdits edits.items) }
    ensures made { IfOk result (λ edits. (q : ℕ) (there : Option Header) → IsNumber q → edited edits.items q there ≡ left_by nodes.now q there) }
{
    match edits_in_order(alloc, nodes)? {
        Some(edits) => Ok(edits),
        None => {
            let latest = latest_rows(alloc, nodes)?;
            number_edits(alloc, &latest)
        }
    }
}

/// The rows as edits. None where their numbers don't ascend, or where no node can have one of them.
fn edits_in_order<A: Allocator + Clone>(
    alloc: &A,
    nodes: &[NodeRow],
) -> Result<Option<Vec<NumberEdit<Header>, A>>, AllocError>
    ensures edits { IfOk result (λ made. IfSome made (λ edits. AreEdits edits.items)) }
    ensures rows { IfOk result (λ made. IfSome made (λ edits. edits.items ≡ map node_edit nodes.now)) }
{
    let mut edits = Vec::with_capacity(alloc.clone()?, nodes.len())?;
    let mut last = 0;
    for row in nodes {
        if row.number <= last || GREATEST_NUMBER < row.number {
            return Ok(None);
        }
        last = row.number;
        edits.push(NumberEdit {
            number: row.number,
            value: row.now,
        })?;
    }
    Ok(Some(edits))
}

/// The last row of each number.
fn latest_rows<A: Allocator + Clone>(
    alloc: &A,
    nodes: &[NodeRow],
) -> Result<Overlay<u32, Header, A>, AllocError>
    ensures { IfOk result (λ overlay. (q : ℕ) (there : Option Header) → said_or (get nat_cmp overlay.latest q) there ≡ left_by nodes.now q there) }
{
    let mut overlay = Overlay::new(alloc.clone()?);
    for row in nodes {
        overlay.set(row.number, row.now)?;
    }
    Ok(overlay)
}
