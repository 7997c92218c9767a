//! The change that a log makes to names and nodes.
ghost use Rattle.std.specs.Prelude.{◌≡◌, ◌<◌, length, IfOk};
ghost use Rattle.kfs_model.specs.Spelling.{IsName};
ghost use Rattle.kfs_image_nodes.specs.Change.{led_to};
ghost use Rattle.kfs_image_nodes.specs.Lent.{net_in, rows_in, IsEditAt, IsSameNet};
ghost use Rattle.kfs_image_nodes.specs.NameEdits.{name_edit};

use crate::rows::name_key;
use kfs_maps::KeyEdit;
use kfs_types::{
    BorrowedName, BorrowedRow, KeptName, KeptRow, Name, NameRow, NodeRow, kept_rows, owned_rows,
};
use std::alloc::{AllocError, Allocator};

/// The net change of a log: the names and nodes that are different after it. `N` is how a name stands in
/// it, as in an `Entry`.
#[derive(Debug, Drop)]
pub struct Net<A: Allocator, N = Name> {
    /// The names that lead elsewhere, ascending by directory and name; number 0 stands for none.
    pub names: Vec<NameRow<N>, A>,
    /// The nodes with another header, ascending by number; no header where the node is gone.
    pub nodes: Vec<NodeRow, A>,
}

/// The same net, with names of its own. `Err` where memory runs out.
pub fn owned_net<A: Allocator>(
    alloc: A,
    net: Net<A, BorrowedName<'_>>,
) -> Result<Net<A>, AllocError>
    ensures { IfOk result (IsSameNet net.entry) }
{
    let Net { names, nodes } = net;
    let names = owned_rows(alloc, names.as_slice())?;
    Ok(Net { names, nodes })
}

/// The same net, with names that are kept. `Err` where memory runs out.
pub fn kept_net<A: Allocator + Copy>(
    alloc: A,
    net: Net<A, BorrowedName<'_>>,
) -> Result<Net<A, KeptName<A>>, AllocError>
    ensures { IfOk result (IsSameNet net.entry) }
{
    let Net { names, nodes } = net;
    let names = kept_rows(alloc, names.as_slice())?;
    Ok(Net { names, nodes })
}

/// A net, by reference.
#[derive(Clone, Copy)]
pub enum LentNet<'n, 's, A: Allocator> {
    /// With names of its own.
    Owned(&'n Net<A>),
    /// With names where they lie in the bytes of a log.
    Borrowed(&'n Net<A, BorrowedName<'s>>),
    /// With names that are kept.
    Kept(&'n Net<A, KeptName<A>>),
}

impl<'n, 's, A: Allocator> LentNet<'n, 's, A> {
    /// The rows of its names. Takes no memory.
    pub fn names(self) -> NameRows<'n, 's, A>
        ensures { rows_in result ≡ (net_in self.entry).names.items }
    {
        match self {
            LentNet::Owned(net) => NameRows::Owned(net.names.as_slice()),
            LentNet::Borrowed(net) => NameRows::Borrowed(net.names.as_slice()),
            LentNet::Kept(net) => NameRows::Kept(net.names.as_slice()),
        }
    }

    /// The rows of its nodes. Takes no memory.
    pub fn nodes(self) -> &'n Vec<NodeRow, A>
        ensures { result.now ≡ (net_in self.entry).nodes }
    {
        match self {
            LentNet::Owned(net) => &net.nodes,
            LentNet::Borrowed(net) => &net.nodes,
            LentNet::Kept(net) => &net.nodes,
        }
    }
}

/// Name rows, by reference.
#[derive_where(Clone, Copy)]
pub enum NameRows<'n, 's, A: Allocator> {
    /// With names of their own.
    Owned(&'n [NameRow]),
    /// With names where they lie in the bytes of a log.
    Borrowed(&'n [BorrowedRow<'s>]),
    /// With names that are kept.
    Kept(&'n [KeptRow<A>]),
}

impl<'n, 's, A: Allocator> NameRows<'n, 's, A> {
    /// How many rows there are.
    pub(crate) fn len(self) -> usize
        ensures { result ≡ length (rows_in self.entry) }
    {
        match self {
            NameRows::Owned(rows) => rows.len(),
            NameRows::Borrowed(rows) => rows.len(),
            NameRows::Kept(rows) => rows.len(),
        }
    }

    /// The edit of the names that a row makes. A name that isn't a value yet becomes one here.
    pub(crate) fn edit(self, index: usize) -> KeyEdit<(u32, Name), u32>
        requires { index < length (rows_in self) }
        ensures edit { IsEditAt (rows_in self.entry) index result }
        ensures name { IsName result.key.1 }
    {
        match self {
            NameRows::Owned(rows) => owned_edit(&rows[index]),
            NameRows::Borrowed(rows) => borrowed_edit(&rows[index]),
            NameRows::Kept(rows) => borrowed_edit(&rows[index].borrowed()),
        }
    }
}

fn owned_edit(row: &NameRow) -> KeyEdit<(u32, Name), u32>
    ensures edit { result ≡ name_edit row.now }
    ensures name { IsName result.key.1 }
{
    KeyEdit {
        key: name_key(row.dir, &row.name),
        value: led_to(row.number),
    }
}

fn borrowed_edit(row: &BorrowedRow<'_>) -> KeyEdit<(u32, Name), u32>
    ensures edit { result ≡ name_edit row.now }
    ensures name { IsName result.key.1 }
{
    prove!(!row.name.as_bytes().is_empty());
    KeyEdit {
        key: (row.dir, row.name.owned()),
        value: led_to(row.number),
    }
}

/// The number in a row; 0 stands for none.
fn led_to(number: u32) -> Option<u32>
    ensures { result ≡ led_to number }
{
    if number == 0 { None } else { Some(number) }
}
