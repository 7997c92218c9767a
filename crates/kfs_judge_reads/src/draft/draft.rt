//! What the entries of a log have changed so far, over the state that the log began with. The header of
//! a node that gains or loses a name.
ghost use Rattle.std.specs.Prelude.{◌≡◌, ℕ, ◌+◌, ◌==◌, ◌||◌, pos, negsuc, ◌+ℤ◌, ◌≤ℤ◌, FitsSigned, OnOk, IsTrue, false, List, [], Contains, ◌<◌, None, option_and_then};
ghost use Rattle.std.specs.Option.{option_map, is_some};
ghost use Rattle.std.specs.List.{list_any};
ghost use Rattle.std.specs.Int.{w32};
ghost use Rattle.kfs_types.specs.Views.{header_of, kind_of};
ghost use Rattle.kfs_model.specs.Sight.{Sight, Cell, HeaderOf, NameIn};
ghost use Rattle.std.specs.Ordering.{nat_cmp};
ghost use Rattle.std.specs.BTreeMap.{get};
ghost use Rattle.kfs_judge_reads.specs.Draft.Few.{found_in};
ghost use Rattle.kfs_model.specs.Tree.{name_order};
ghost use Rattle.kfs_judge_reads.specs.Draft.Shifts.{shift_in, IsShifted};
ghost use Rattle.kfs_judge_reads.specs.Draft.Overlay.{has_created, has_header, over, KeepsCreated, KeepsHeaders, KeepsShifts, ShiftsBy, ShiftsFurther, HasRoom, ChangesAreAmong, WritesNameAndHeader, WritesTwoNames, shift_of, with_header, with_target, with_more_names, with_parent, with_directory_in, with_node, with_name, without_name, with_name_moved, IsLinked};
ghost use Rattle.kfs_model.specs.SeenAfter as seen;

use crate::draft::few::{Created, Few, Shifts};
use crate::draft::key::NameKey;
use crate::draft::parents::Parents;
use kfs_types::{Header, Kind};
use std::alloc::{AllocError, Allocator};

/// The cells that the entries so far have written, each with its value now. A cell that none has
/// written isn't here. Look-ups take no memory.
#[derive(Drop)]
pub struct Draft<'e, 's, A: Allocator> {
    /// The header of each node that was written.
    heads: Few<u32, Option<Header>, A>,
    /// The number that each written name leads to. The names stand in the log.
    names: Few<NameKey<'e, 's>, Option<u32>, A>,
    /// The parent of each directory that was written.
    parents: Parents<A>,
    /// By how much each directory's count of names has changed.
    shifts: Shifts<A>,
    /// The numbers that the log created.
    created: Created<A>,
}

impl<'e, 's, A: Allocator + Copy> Draft<'e, 's, A> {
    /// No cell is written. Takes no memory.
    pub fn new(alloc: A) -> Draft<'e, 's, A>
        ensures shown { (s : Sight) → over result s ≡ s }
        ensures written { ChangesAreAmong result [] }
        ensures created { (n : ℕ) → has_created result n ≡ false }
        ensures shifts { ShiftsBy 0 result }
    {
        Draft {
            heads: Few::new(alloc),
            names: Few::new(alloc),
            parents: Parents::new(alloc),
            shifts: Shifts::new(alloc),
            created: Created::new(alloc),
        }
    }

    /// A new node, and its name in a directory. In this and the other calls that change the draft, part of
    /// the change may be made after `Err`.
    pub fn add_node(
        &mut self,
        key: &NameKey<'e, 's>,
        number: u32,
        header: Header,
    ) -> Result<(), AllocError>
        requires { HasRoom 1 self.old }
        ensures shown { OnOk result ((s : Sight) → over self.new s ≡ with_node key.now.0 key.now.1 number (header_of header) (over self.old s)) }
        ensures written { OnOk result (WritesNameAndHeader self.old self.new key.now.0 key.now.1 number) }
        ensures created { OnOk result ((n : ℕ) → has_created self.new n ≡ ((number == n) || has_created self.old n)) }
        ensures kept { OnOk result (KeepsHeaders self.old self.new) }
        ensures shifts { OnOk result (ShiftsFurther 1 self.old self.new) }
    {
        let dir = key.dir();
        self.add_name(key, number, Some(header))?;
        self.set_directory_in(header.kind, number, dir)?;
        self.created.add(number)?;
        Ok(())
    }

    /// One more name of a node, whose header is then this one.
    pub fn add_name(
        &mut self,
        key: &NameKey<'e, 's>,
        number: u32,
        header: Option<Header>,
    ) -> Result<(), AllocError>
        requires { HasRoom 1 self.old }
        ensures shown { OnOk result ((s : Sight) → over self.new s ≡ with_name key.now.0 key.now.1 number (option_map header_of header) (over self.old s)) }
        ensures written { OnOk result (WritesNameAndHeader self.old self.new key.now.0 key.now.1 number) }
        ensures created { OnOk result (KeepsCreated self.old self.new) }
        ensures kept { OnOk result (KeepsHeaders self.old self.new) }
        ensures shifts { OnOk result (ShiftsFurther 1 self.old self.new) }
    {
        self.shift_count(key.dir(), 1)?;
        self.set_target(key, Some(number))?;
        self.set_header(number, header)?;
        Ok(())
    }

    /// One name of a node fewer. Its header is then this one, or the node is gone.
    pub fn remove_name(
        &mut self,
        key: &NameKey<'e, 's>,
        number: u32,
        header: Option<Header>,
    ) -> Result<(), AllocError>
        requires { HasRoom 1 self.old }
        ensures shown { OnOk result ((s : Sight) → over self.new s ≡ without_name key.now.0 key.now.1 number (option_map header_of header) (over self.old s)) }
        ensures written { OnOk result (WritesNameAndHeader self.old self.new key.now.0 key.now.1 number) }
        ensures created { OnOk result (KeepsCreated self.old self.new) }
        ensures kept { OnOk result (KeepsHeaders self.old self.new) }
        ensures shifts { OnOk result (ShiftsFurther 1 self.old self.new) }
    {
        self.shift_count(key.dir(), -1)?;
        self.set_target(key, None)?;
        self.set_parent(number, None)?;
        self.set_header(number, header)?;
        Ok(())
    }

    /// `new_key` leads to the node, and `key` to none.
    pub fn move_name(
        &mut self,
        key: &NameKey<'e, 's>,
        new_key: &NameKey<'e, 's>,
        number: u32,
        kind: Kind,
    ) -> Result<(), AllocError>
        requires { HasRoom 2 self.old }
        ensures shown { OnOk result ((s : Sight) → over self.new s ≡ with_name_moved key.now.0 key.now.1 new_key.now.0 new_key.now.1 number (kind_of kind) (over self.old s)) }
        ensures written { OnOk result (WritesTwoNames self.old self.new key.now.0 key.now.1 new_key.now.0 new_key.now.1) }
        ensures created { OnOk result (KeepsCreated self.old self.new) }
        ensures kept { OnOk result (KeepsHeaders self.old self.new) }
        ensures shifts { OnOk result (ShiftsFurther 2 self.old self.new) }
    {
        let new_dir = new_key.dir();
        self.shift_count(key.dir(), -1)?;
        self.shift_count(new_dir, 1)?;
        self.set_target(key, None)?;
        self.set_target(new_key, Some(number))?;
        self.set_directory_in(kind, number, new_dir)?;
        Ok(())
    }

    /// Another header of a node.
    pub fn set_header(&mut self, number: u32, header: Option<Header>) -> Result<(), AllocError>
        ensures shown { OnOk result ((s : Sight) → over self.new s ≡ with_header number (option_map header_of header) (over self.old s)) }
        ensures written { OnOk result ((among : List Cell) → ChangesAreAmong self.old among → Contains among (HeaderOf number) → ChangesAreAmong self.new among) }
        ensures created { OnOk result (KeepsCreated self.old self.new) }
        ensures put { OnOk result (IsTrue (has_header self.new number)) }
        ensures kept { OnOk result (KeepsHeaders self.old self.new) }
        ensures shifts { OnOk result (KeepsShifts self.old self.new) }
    {
        self.heads.put(number, header)?;
        Ok(())
    }

    /// The name leads to this number, or to none.
    fn set_target(&mut self, key: &NameKey<'e, 's>, target: Option<u32>) -> Result<(), AllocError>
        ensures shown { OnOk result ((s : Sight) → over self.new s ≡ with_target key.now.0 key.now.1 target (over self.old s)) }
        ensures written { OnOk result ((among : List Cell) → ChangesAreAmong self.old among → Contains among (NameIn key.now.0 key.now.1) → ChangesAreAmong self.new among) }
        ensures created { OnOk result (KeepsCreated self.old self.new) }
        ensures kept { OnOk result (KeepsHeaders self.old self.new) }
        ensures shifts { OnOk result (KeepsShifts self.old self.new) }
    {
        self.names.put(key.again(), target)?;
        Ok(())
    }

    /// The directory's parent is this one, or none.
    fn set_parent(&mut self, number: u32, parent: Option<u32>) -> Result<(), AllocError>
        ensures shown { OnOk result ((s : Sight) → over self.new s ≡ with_parent number parent (over self.old s)) }
        ensures written { OnOk result ((among : List Cell) → ChangesAreAmong self.old among → ChangesAreAmong self.new among) }
        ensures created { OnOk result (KeepsCreated self.old self.new) }
        ensures kept { OnOk result (KeepsHeaders self.old self.new) }
        ensures shifts { OnOk result (KeepsShifts self.old self.new) }
    {
        self.parents.set(number, parent)?;
        Ok(())
    }

    /// If the node is a directory, its parent is `dir`.
    fn set_directory_in(&mut self, kind: Kind, number: u32, dir: u32) -> Result<(), AllocError>
        ensures shown { OnOk result ((s : Sight) → over self.new s ≡ with_directory_in (kind_of kind) number dir (over self.old s)) }
        ensures written { OnOk result ((among : List Cell) → ChangesAreAmong self.old among → ChangesAreAmong self.new among) }
        ensures created { OnOk result (KeepsCreated self.old self.new) }
        ensures kept { OnOk result (KeepsHeaders self.old self.new) }
        ensures shifts { OnOk result (KeepsShifts self.old self.new) }
    {
        match kind {
            Kind::File => Ok(()),
            Kind::Directory => {
                self.set_parent(number, Some(dir))?;
                Ok(())
            }
        }
    }

    /// The directory has `by` names more, or fewer where that is negative.
    fn shift_count(&mut self, dir: u32, by: i32) -> Result<(), AllocError>
        requires least { negsuc 0 ≤ℤ by }
        requires greatest { by ≤ℤ pos 1 }
        requires room { HasRoom 1 self.old }
        ensures shown { OnOk result ((s : Sight) → over self.new s ≡ with_more_names dir by (over self.old s)) }
        ensures written { OnOk result ((among : List Cell) → ChangesAreAmong self.old among → ChangesAreAmong self.new among) }
        ensures created { OnOk result (KeepsCreated self.old self.new) }
        ensures kept { OnOk result (KeepsHeaders self.old self.new) }
        ensures shifts { OnOk result (ShiftsFurther 1 self.old self.new) }
    {
        count_names(&mut self.shifts, dir, by)?;
        Ok(())
    }
}

/// Adds to the change of the directory's count.
fn count_names<A: Allocator + Copy>(
    shifts: &mut Shifts<A>,
    dir: u32,
    by: i32,
) -> Result<(), AllocError>
    requires { FitsSigned w32 (shift_in shifts.old dir +ℤ by) }
    ensures { OnOk result (IsShifted shifts.old shifts.new dir by) }
{
    let shift = shifts.get(dir);
    shifts.set(dir, shift + by)
}

impl<'e, 's, A: Allocator> Draft<'e, 's, A> {
    /// The node's header now, if an entry wrote it. An inner none means that the node is gone.
    pub fn header(&self, number: u32) -> Option<Option<Header>>
        ensures { result ≡ found_in nat_cmp self.now.heads number }
    {
        self.heads.get(&number)
    }

    /// The number that the name leads to now, if an entry wrote it. An inner none means that the name
    /// is gone.
    pub fn target(&self, key: &NameKey<'e, 's>) -> Option<Option<u32>>
        ensures { result ≡ found_in name_order.compare self.now.names key.now }
    {
        self.names.get(key)
    }

    /// The directory's parent now, if an entry wrote it. An inner none means that it has none.
    pub fn parent(&self, number: u32) -> Option<Option<u32>>
        ensures { result ≡ get nat_cmp self.now.parents.map number }
    {
        self.parents.get(number)
    }

    /// The numbers whose parent an entry wrote, in the order in which each was first written.
    pub fn moved(&self) -> &[u32]
        ensures { (n : ℕ) → list_any (λ m. m == n) result.now ≡ is_some (get nat_cmp self.now.parents.map n) }
    {
        self.parents.written()
    }

    /// By how much the directory's count of names has changed.
    pub fn shift(&self, dir: u32) -> i32
        ensures { result ≡ shift_of self.now dir }
    {
        self.shifts.get(dir)
    }

    /// Whether the log created the number.
    pub fn has_created(&self, number: u32) -> bool
        ensures { result ≡ has_created self.now number }
    {
        self.created.has(number)
    }

    /// The written headers, by number.
    pub fn headers(&self) -> &Few<u32, Option<Header>, A>
        ensures { result.now ≡ self.now.heads }
    {
        &self.heads
    }

    /// The written names, by directory and name.
    pub fn targets(&self) -> &Few<NameKey<'e, 's>, Option<u32>, A>
        ensures { result.now ≡ self.now.names }
    {
        &self.names
    }
}

/// The header after a name is lost: one link fewer. None where the node goes, as a directory does, and
/// a file with its last name.
pub fn unlinked(header: Option<Header>) -> Option<Header>
    ensures { option_map header_of result ≡ option_and_then seen.unlinked (option_map header_of header) }
{
    match header {
        Some(header) => without_link(header),
        None => None,
    }
}

fn without_link(header: Header) -> Option<Header>
    ensures { option_map header_of result ≡ seen.unlinked (header_of header) }
{
    match header.kind {
        Kind::File if header.links > 1 => Some(Header {
            links: header.links - 1,
            ..header
        }),
        _ => None,
    }
}

/// The header after a name is gained: one link more.
pub fn linked(header: Option<Header>) -> Option<Header>
    ensures linked { IsLinked (option_map header_of header) (option_map header_of result) }
    ensures none { header ≡ None → result ≡ None }
{
    match header {
        Some(header) => Some(with_link(header)),
        None => None,
    }
}

fn with_link(header: Header) -> Header
    ensures { header.links < 65535 → header_of result ≡ record (header_of header) { links = header.links + 1 } }
{
    Header {
        links: header.links.saturating_add(1),
        ..header
    }
}
