//! A change of pages together with another change: memory is taken while the calls go inwards, values
//! are set while they return. Many edits are made a few at a time, in groups that the caller can drop.
//! Edits of a map in pages, and the pages that their numbers belong to. Changes of several maps that
//! are made together or not at all.
ghost use Rattle.std.specs.Prelude.{◌≡◌, ℕ, ◌+◌, ◌*◌, ◌≤◌, ◌<◌, ◌++◌, [], ◌∷◌, All, IsSome, OnOk, OnErr, length, take, drop};
ghost use Rattle.kfs_maps.specs.Pages.Edits.{edited, Ascends, EditsAreWithin, IsOfPage, page_of};
ghost use Rattle.kfs_maps.specs.Pages.Groups.{held, all_held, pages_of, laid_out, GroupsAreWhole};
ghost use Rattle.kfs_maps.specs.Pages.Shown.{slot_shows, HasIndex, AreIndexedFrom, Edited};
ghost use Rattle.std.proofs.Common.{rules};

use crate::pages::page::{GROUP_LEN, Group, Page};
use crate::pages::pages::Pages;
use kfs_types::{Change, Nothing};
use std::alloc::{AllocError, Allocator};
use std::sync::Arc;

/// How many edits are made together, at most. Each may take five calls within each other.
pub(crate) const MOST_TOGETHER: usize = 16;

/// Puts a page without values into the slot, if it has none.
fn found<V: Copy, A: Allocator + Clone>(
    alloc: &A,
    slot: &mut Option<Arc<Page<V, A>, A>>,
    index: u32,
) -> Result<(), AllocError>
    requires index { index < 1024 }
    requires stands { HasIndex index (held slot.old) }
    ensures page { OnOk result (IsSome slot.new) }
    ensures stands { HasIndex index (held slot.new) }
    ensures shown { (n : ℕ) → slot_shows (held slot.new) n ≡ slot_shows (held slot.old) n }
{
    if slot.is_none() {
        let page = Page::blank(alloc.clone()?, index)?;
        *slot = Some(Arc::new(alloc.clone()?, page)?);
    }
    Ok(())
}

/// Puts a group without pages into the slot, if it has none.
fn found_group<V: Copy, A: Allocator + Clone>(
    alloc: &A,
    slot: &mut Option<Arc<Group<V, A>, A>>,
) -> Result<(), AllocError>
    ensures group { OnOk result (IsSome slot.new) }
    ensures same { pages_of (held slot.new) ≡ pages_of (held slot.old) }
{
    if slot.is_none() {
        let group = Group::blank(alloc.clone()?)?;
        *slot = Some(Arc::new(alloc.clone()?, group)?);
    }
    Ok(())
}

/// Makes the edits in these groups, a few at a time. On `Err` some may have been made: the caller gives
/// groups that it can drop.
pub(crate) fn change_each<V: Copy, A: Allocator + Clone>(
    alloc: &A,
    groups: &mut [Option<Arc<Group<V, A>, A>>],
    edits: &[NumberEdit<V>],
) -> Result<(), AllocError>
    requires count { length groups.old ≡ 32 }
    requires ascends { Ascends edits.now }
    requires within { EditsAreWithin 0 1024 edits.now }
    requires whole { GroupsAreWhole (all_held groups.old) }
    requires placed { AreIndexedFrom 0 (laid_out groups.old) }
    ensures whole { GroupsAreWhole (all_held groups.new) }
    ensures placed { AreIndexedFrom 0 (laid_out groups.new) }
    ensures edited { OnOk result (Edited 0 edits.now (laid_out groups.old) (laid_out groups.new)) }
{
    let mut rest = edits;
    while !rest.is_empty() {
        let (mine, later) = rest.split_at(rest.len().min(MOST_TOGETHER));
        change_groups(alloc, groups, 0, mine, &mut Nothing)?;
        rest = later;
    }
    Ok(())
}

/// Makes the edits in these groups, and the other change; the first group has index `first`. All memory
/// is taken before the other change is made, and that comes before the first edit.
///
/// Each edit is made inside the calls for those before it, since a page is held while the next is
/// prepared. `MOST_TOGETHER` bounds the depth.
#[cycle(change_groups)]
pub(crate) fn change_groups<V: Copy, A: Allocator + Clone, T: Change>(
    alloc: &A,
    groups: &mut [Option<Arc<Group<V, A>, A>>],
    first: u32,
    edits: &[NumberEdit<V>],
    then: &mut T,
) -> Result<(), AllocError>
    requires ascends { Ascends edits.now }
    requires within { EditsAreWithin (32 * first) (32 * (first + length groups.old)) edits.now }
    requires end { first + length groups.old ≤ 32 }
    requires whole { GroupsAreWhole (all_held groups.old) }
    requires placed { AreIndexedFrom (32 * first) (laid_out groups.old) }
    requires then { T.can_make then.old }
    ensures whole { GroupsAreWhole (all_held groups.new) }
    ensures placed { AreIndexedFrom (32 * first) (laid_out groups.new) }
    ensures ok { OnOk result (Edited (32 * first) edits.now (laid_out groups.old) (laid_out groups.new)) }
    ensures err { OnErr result (Edited (32 * first) [] (laid_out groups.old) (laid_out groups.new)) }
    ensures made { OnOk result (T.made then.old then.new) }
    ensures kept { OnErr result (T.kept then.old then.new) }
{
    let Some(edit) = edits.first() else {
        return then.make();
    };
    let index = page_of(edit.number) / GROUP_LEN;
    let (_, rest) = groups.split_at_mut((index - first) as usize);
    let Some((group, rest)) = rest.split_first_mut() else {
        // The edit's number lies in one of these groups.
        unreachable!();
    };
    change_group(alloc, group, rest, index, edits, then)
}

/// The same for a group, followed by the groups behind it.
#[cycle(change_groups)]
fn change_group<V: Copy, A: Allocator + Clone, T: Change>(
    alloc: &A,
    slot: &mut Option<Arc<Group<V, A>, A>>,
    rest: &mut [Option<Arc<Group<V, A>, A>>],
    index: u32,
    edits: &[NumberEdit<V>],
    then: &mut T,
) -> Result<(), AllocError>
    requires ascends { Ascends edits.now }
    requires within { EditsAreWithin (32 * index) (32 * (index + 1 + length rest.old)) edits.now }
    requires end { index + 1 + length rest.old ≤ 32 }
    requires group { length (pages_of (held slot.old)) ≡ 32 }
    requires whole { GroupsAreWhole (all_held rest.old) }
    requires placed { AreIndexedFrom (32 * index) (laid_out (slot.old ∷ rest.old)) }
    requires then { T.can_make then.old }
    ensures group { length (pages_of (held slot.new)) ≡ 32 }
    ensures whole { GroupsAreWhole (all_held rest.new) }
    ensures placed { AreIndexedFrom (32 * index) (laid_out (slot.new ∷ rest.new)) }
    ensures ok { OnOk result (Edited (32 * index) edits.now (laid_out (slot.old ∷ rest.old)) (laid_out (slot.new ∷ rest.new))) }
    ensures err { OnErr result (Edited (32 * index) [] (laid_out (slot.old ∷ rest.old)) (laid_out (slot.new ∷ rest.new))) }
    ensures made { OnOk result (T.made then.old then.new) }
    ensures kept { OnErr result (T.kept then.old then.new) }
{
    found_group(alloc, slot)?;
    let Some(group) = slot else {
        // `found_group` has filled the slot.
        unreachable!();
    };
    let group = Arc::make_mut(group)?;
    let pages = group.pages.as_mut_slice();
    let first = GROUP_LEN * index;
    change_pages(alloc, pages, first, rest, index + 1, edits, then)
}

/// The same for pages, the first of which has index `first`, followed by the groups behind them.
#[cycle(change_groups)]
fn change_pages<V: Copy, A: Allocator + Clone, T: Change>(
    alloc: &A,
    pages: &mut [Option<Arc<Page<V, A>, A>>],
    first: u32,
    groups: &mut [Option<Arc<Group<V, A>, A>>],
    next: u32,
    edits: &[NumberEdit<V>],
    then: &mut T,
) -> Result<(), AllocError>
    requires ascends { Ascends edits.now }
    requires within { EditsAreWithin first (32 * (next + length groups.old)) edits.now }
    requires edge { first + length pages.old ≡ 32 * next }
    requires end { next + length groups.old ≤ 32 }
    requires whole { GroupsAreWhole (all_held groups.old) }
    requires placed { AreIndexedFrom first (all_held pages.old ++ laid_out groups.old) }
    requires then { T.can_make then.old }
    ensures whole { GroupsAreWhole (all_held groups.new) }
    ensures placed { AreIndexedFrom first (all_held pages.new ++ laid_out groups.new) }
    ensures ok { OnOk result (Edited first edits.now (all_held pages.old ++ laid_out groups.old) (all_held pages.new ++ laid_out groups.new)) }
    ensures err { OnErr result (Edited first [] (all_held pages.old ++ laid_out groups.old) (all_held pages.new ++ laid_out groups.new)) }
    ensures made { OnOk result (T.made then.old then.new) }
    ensures kept { OnErr result (T.kept then.old then.new) }
{
    let Some(edit) = edits.first() else {
        return then.make();
    };
    let index = page_of(edit.number);
    if index >= GROUP_LEN * next {
        return change_groups(alloc, groups, next, edits, then);
    }
    let (mine, later) = edits.split_at(run_of(edits, index));
    let (_, rest) = pages.split_at_mut((index - first) as usize);
    let Some((page, rest)) = rest.split_first_mut() else {
        // The edit's page is one of these: it isn't behind them, as was asked above.
        unreachable!();
    };
    change_from(alloc, page, rest, index, groups, next, mine, later, then)
}

/// The same for a page, followed by the pages and groups behind it.
#[cycle(change_groups)]
fn change_from<V: Copy, A: Allocator + Clone, T: Change>(
    alloc: &A,
    slot: &mut Option<Arc<Page<V, A>, A>>,
    rest: &mut [Option<Arc<Page<V, A>, A>>],
    index: u32,
    groups: &mut [Option<Arc<Group<V, A>, A>>],
    next: u32,
    mine: &[NumberEdit<V>],
    later: &[NumberEdit<V>],
    then: &mut T,
) -> Result<(), AllocError>
    requires mine { All (IsOfPage index) mine.now }
    requires ascends { Ascends later.now }
    requires within { EditsAreWithin (index + 1) (32 * (next + length groups.old)) later.now }
    requires edge { index + 1 + length rest.old ≡ 32 * next }
    requires end { next + length groups.old ≤ 32 }
    requires stands { HasIndex index (held slot.old) }
    requires whole { GroupsAreWhole (all_held groups.old) }
    requires placed { AreIndexedFrom (index + 1) (all_held rest.old ++ laid_out groups.old) }
    requires then { T.can_make then.old }
    ensures stands { HasIndex index (held slot.new) }
    ensures whole { GroupsAreWhole (all_held groups.new) }
    ensures placed { AreIndexedFrom (index + 1) (all_held rest.new ++ laid_out groups.new) }
    ensures page { OnOk result ((n : ℕ) → slot_shows (held slot.new) n ≡ edited mine.now n (slot_shows (held slot.old) n)) }
    ensures rest { OnOk result (Edited (index + 1) later.now (all_held rest.old ++ laid_out groups.old) (all_held rest.new ++ laid_out groups.new)) }
    ensures page_err { OnErr result ((n : ℕ) → slot_shows (held slot.new) n ≡ slot_shows (held slot.old) n) }
    ensures rest_err { OnErr result (Edited (index + 1) [] (all_held rest.old ++ laid_out groups.old) (all_held rest.new ++ laid_out groups.new)) }
    ensures made { OnOk result (T.made then.old then.new) }
    ensures kept { OnErr result (T.kept then.old then.new) }
{
    found(alloc, slot, index)?;
    let Some(page) = slot else {
        // `found` has filled the slot.
        unreachable!();
    };
    let page = Arc::make_mut(page)?;
    let done = change_pages(alloc, rest, index + 1, groups, next, later, then);
    if done.is_ok() {
        page.write(mine);
    }
    done
}

/// The new value of a number, or none where it is to have none.
#[derive(Clone, Copy, Debug)]
pub struct NumberEdit<V: Copy> {
    /// 1 to 65,536.
    pub number: u32,
    /// The new value, or none.
    pub value: Option<V>,
}

/// The index of the page to which a number from 1 on belongs.
pub(crate) fn page_of(number: u32) -> u32
    ensures { result ≡ page_of number }
{
    number.saturating_sub(1) / 64
}

/// How many edits at the front of the list belong to this page.
pub(crate) fn run_of<V: Copy>(edits: &[NumberEdit<V>], index: u32) -> usize
    requires ascends { Ascends edits.now }
    requires from { All (λ e. index ≤ page_of e.number) edits.now }
    ensures within { result ≤ length edits.now }
    ensures run { All (λ e. page_of e.number ≡ index) (take result edits.now) }
    ensures rest { All (λ e. index + 1 ≤ page_of e.number) (drop result edits.now) }
    ensures ascends { Ascends (drop result edits.now) }
{
    let mut run = 0;
    for edit in edits {
        if page_of(edit.number) != index {
            break;
        }
        run += 1;
    }
    run
}

/// Edits of a map in pages, and the change to be made together with them.
#[derive(Drop)]
pub struct EditPages<'a, V: Copy, A: Allocator, T> {
    /// The map that is changed.
    pub pages: &'a mut Pages<V, A>,
    /// Its edits, ascending by number.
    pub edits: &'a [NumberEdit<V>],
    /// The change made with them.
    pub then: T,
}

impl<'a, V: Copy, A: Allocator + Clone, T: Change> Change for EditPages<'a, V, A, T> {
    ghost use Rattle.kfs_maps.specs.Pages.Edits.{rewritten, AreEdits};
    ghost use Rattle.kfs_types.specs.Nested.{Becomes};

    ghost can_make = { λ before. AreEdits before.edits.now × T.can_make before.then };

    ghost made = { λ before after. Becomes before.pages after.pages (rewritten before.pages.now before.edits.now) × T.made before.then after.then };

    ghost kept = { λ before after. Becomes before.pages after.pages before.pages.now × T.kept before.then after.then };

    ghost not_tried = { λ before. Prim.search rules };

    fn make(&mut self) -> Result<(), AllocError> {
        self.pages.change_then(self.edits, &mut self.then)
    }
}
