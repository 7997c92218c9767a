//! The pages of all numbers, as one map.
ghost use Rattle.std.specs.Prelude.{◌≡◌, ℕ, ◌<◌, None, IfOk, IfSome, IfNone, OnOk, OnErr};
ghost use Rattle.std.specs.Option.{option_copied};
ghost use Rattle.kfs_model.specs.Table.{empty, get};
ghost use Rattle.kfs_maps.specs.Pages.Values.{IsNextNumber};
ghost use Rattle.kfs_maps.specs.Pages.Edits.{rewritten, AreEdits};
ghost use Rattle.kfs_maps.specs.Pages.Shown.{part};

use crate::pages::change::{MOST_TOGETHER, NumberEdit, change_each, change_groups, page_of};
use crate::pages::page::{GROUP_LEN, Group, Page, nothing, page_at};
use kfs_types::Change;
use std::alloc::{AllocError, Allocator};
use std::marker::Model;
use std::sync::Arc;

/// How many groups there are.
const GROUPS: u32 = 32;

/// A map from the numbers 1 to 65,536 to values. Copies share groups of pages, and each keeps showing
/// what it showed when it was made. A change of few numbers copies only those groups' lists and pages
/// that it touches and that a copy shares. A change of many copies the list of groups, and those groups'
/// lists and pages that it touches.
#[derive(Drop)]
pub struct Pages<V: Copy, A: Allocator> {
    groups: Vec<Option<Arc<Group<V, A>, A>>, A>,
}

impl<V: Copy, A: Allocator> Model for Pages<V, A> {
    ghost use Rattle.std.specs.Prelude.{◌≡◌, length};
    ghost use Rattle.kfs_model.specs.Table.{Table, numbers};
    ghost use Rattle.kfs_maps.specs.Pages.Groups.{all_held, laid_out, GroupsAreWhole};
    ghost use Rattle.kfs_maps.specs.Pages.Shown.{table_from, AreIndexedFrom};

    ghost Value = { Table numbers V };

    ghost view = { λ s. table_from 0 (laid_out s.groups.items) };

    ghost invariant = { λ s. (length s.groups.items ≡ 32) × GroupsAreWhole (all_held s.groups.items) × AreIndexedFrom 0 (laid_out s.groups.items) };
}

impl<V: Copy, A: Allocator + Clone> Clone for Pages<V, A> {
    ghost is_clone = { λ pages copy. copy ≡ pages };

    fn clone(&self) -> Result<Pages<V, A>, AllocError> {
        Ok(Pages {
            groups: self.groups.clone()?,
        })
    }
}

impl<V: Copy, A: Allocator> Pages<V, A> {
    /// The map without values. Takes memory for the list of groups.
    pub fn new(alloc: A) -> Result<Pages<V, A>, AllocError>
        ensures { IfOk result (λ pages. pages ≡ empty) }
    {
        Ok(Pages {
            groups: nothing(alloc, GROUPS)?,
        })
    }

    /// The value at a number, or none. Takes no memory.
    pub fn get(&self, number: u32) -> Option<&V>
        ensures { option_copied result ≡ get self.now number }
    {
        let page = page_at(&self.groups, page_of(number))?;
        page.get(number)
    }

    /// The page with this index, or none where none of its 64 numbers has a value. Number n is in page
    /// (n - 1) / 64. Takes no memory.
    pub fn page(&self, index: u32) -> Option<&Page<V, A>>
        ensures page { IfSome result (λ page. page.now ≡ record { index = index; values = part index self.now }) }
        ensures some { IfSome result (λ page. part index self.now ≡ empty → ⊥) }
        ensures none { IfNone result (part index self.now ≡ empty) }
    {
        let page = page_at(&self.groups, index)?;
        if page.is_blank() {
            return None;
        }
        Some(page)
    }

    /// The least number above `after` that has a value, and its value. Takes no memory.
    pub fn next(&self, after: u32) -> Option<(u32, &V)>
        ensures found { IfSome result (λ p. IsNextNumber self.now after p.0 p.1.now) }
        ensures none { IfNone result ((m : ℕ) → after < m → get self.now m ≡ None) }
    {
        let pages = self.groups.len() as u32 * GROUP_LEN;
        for index in after / 64..pages {
            let found = self.next_in(index, after);
            if found.is_some() {
                return found;
            }
        }
        None
    }

    /// The same among the numbers of one page.
    fn next_in(&self, index: u32, after: u32) -> Option<(u32, &V)>
        ensures found { IfSome result (λ p. IsNextNumber (part index self.now) after p.0 p.1.now) }
        ensures none { IfNone result ((m : ℕ) → after < m → get (part index self.now) m ≡ None) }
    {
        self.page(index)?.next(after)
    }
}

impl<V: Copy, A: Allocator + Clone> Pages<V, A> {
    /// Makes the edits and the other change, or neither. All memory is taken first; then comes the
    /// other change, then the edits. Copies show what they showed. Condition: the edits ascend. `Err`
    /// where memory runs out.
    pub fn change_then<T: Change>(
        &mut self,
        edits: &[NumberEdit<V>],
        then: &mut T,
    ) -> Result<(), AllocError>
        requires edits { AreEdits edits.now }
        requires then { T.can_make then.old }
        ensures ok { OnOk result (self.new ≡ rewritten self.old edits.now) }
        ensures err { OnErr result (self.new ≡ self.old) }
        ensures made { OnOk result (T.made then.old then.new) }
        ensures kept { OnErr result (T.kept then.old then.new) }
    {
        let alloc = self.groups.allocator().clone()?;
        if edits.len() <= MOST_TOGETHER {
            return change_groups(&alloc, self.groups.as_mut_slice(), 0, edits, then);
        }
        let mut groups = self.groups.clone()?;
        change_each(&alloc, groups.as_mut_slice(), edits)?;
        then.make()?;
        self.groups = groups;
        Ok(())
    }
}
