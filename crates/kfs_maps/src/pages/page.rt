//! A page: the values of 64 numbers next to each other. Groups: 32 pages next to each other. Copies of
//! a map share a group as a whole.
ghost use Rattle.std.specs.Prelude.{◌≡◌, ℕ, ◌+◌, ◌*◌, ◌<◌, All, Some, None, true, false, IfOk, IfSome, IfNone, replicate};
ghost use Rattle.std.specs.Option.{option_copied};
ghost use Rattle.kfs_model.specs.Table.{empty, get, changed};
ghost use Rattle.kfs_maps.specs.Pages.Values.{IsNextNumber};
ghost use Rattle.kfs_maps.specs.Pages.Edits.{page_of, edited, rewritten, IsOfPage};
ghost use Rattle.kfs_maps.specs.Pages.Groups.{all_held, no_pages, laid_out, GroupsAreWhole, page_in};

use crate::pages::change::NumberEdit;
use std::alloc::{AllocError, Allocator};
use std::marker::Model;
use std::sync::Arc;

/// How many numbers are in a page.
const PAGE_LEN: u32 = 64;

/// The values of the 64 numbers from 64 * index + 1 on.
#[derive(Drop)]
pub struct Page<V: Copy, A: Allocator> {
    index: u32,
    values: Vec<Option<V>, A>,
}

impl<V: Copy, A: Allocator> Model for Page<V, A> {
    ghost use Rattle.std.specs.Prelude.{◌≡◌, ◌+◌, ◌*◌, ◌<◌, length};
    ghost use Rattle.kfs_maps.specs.Pages.Values.{Sheet, numbered};

    ghost Value = { Sheet V };

    ghost view = { λ p. record { index = p.index; values = numbered (64 * p.index + 1) p.values.items } };

    ghost invariant = { λ p. (p.index < 1024) × (length p.values.items ≡ 64) };
}

impl<V: Copy, A: Allocator + Clone> Clone for Page<V, A> {
    ghost is_clone = { λ page copy. copy ≡ page };

    fn clone(&self) -> Result<Page<V, A>, AllocError> {
        let mut values = Vec::with_capacity(self.values.allocator().clone()?, self.values.len())?;
        values.extend_from_slice(&self.values)?;
        Ok(Page {
            index: self.index,
            values,
        })
    }
}

impl<V: Copy, A: Allocator> Page<V, A> {
    /// A page without values.
    pub(crate) fn blank(alloc: A, index: u32) -> Result<Page<V, A>, AllocError>
        requires { index < 1024 }
        ensures { IfOk result (λ page. page ≡ record { index = index; values = empty }) }
    {
        let mut values = Vec::with_capacity(alloc, PAGE_LEN as usize)?;
        for _ in 0..PAGE_LEN {
            values.push(None)?;
        }
        Ok(Page { index, values })
    }

    /// The value at a number; none where it has none, or isn't in this page.
    pub fn get(&self, number: u32) -> Option<&V>
        ensures { option_copied result ≡ get self.now.values number }
    {
        let place = number.checked_sub(self.index * PAGE_LEN + 1)?;
        self.values.get(place as usize)?.as_ref()
    }

    /// Whether no number of the page has a value.
    pub(crate) fn is_blank(&self) -> bool
        ensures blank { result ≡ true → self.now.values ≡ empty }
        ensures filled { result ≡ false → self.now.values ≡ empty → ⊥ }
        ensures own { (n : ℕ) → (page_of n ≡ self.now.index → ⊥) → get self.now.values n ≡ None }
    {
        for value in &self.values {
            if value.is_some() {
                return false;
            }
        }
        true
    }

    /// The least number above `after` that has a value in the page, and its value.
    pub(crate) fn next(&self, after: u32) -> Option<(u32, &V)>
        ensures found { IfSome result (λ p. IsNextNumber self.now.values after p.0 p.1.now) }
        ensures none { IfNone result ((m : ℕ) → after < m → get self.now.values m ≡ None) }
    {
        for place in after.saturating_sub(self.index * PAGE_LEN)..PAGE_LEN {
            if let Some(value) = &self.values[place as usize] {
                return Some((self.index * PAGE_LEN + 1 + place, value));
            }
        }
        None
    }

    fn set(&mut self, number: u32, value: Option<V>)
        requires page { page_of number ≡ self.old.index }
        requires number { 0 < number }
        ensures { self.new ≡ record { index = self.old.index; values = changed self.old.values number value } }
    {
        let place = number - (self.index * PAGE_LEN + 1);
        self.values[place as usize] = value;
    }

    /// Makes the edits, all of numbers in the page. Takes no memory.
    pub(crate) fn write(&mut self, edits: &[NumberEdit<V>])
        requires { All (IsOfPage self.old.index) edits.now }
        ensures sheet { self.new ≡ record { index = self.old.index; values = rewritten self.old.values edits.now } }
        ensures shown { (n : ℕ) → get self.new.values n ≡ edited edits.now n (get self.old.values n) }
    {
        for edit in edits {
            self.set(edit.number, edit.value);
        }
    }
}

/// How many pages are in a group.
pub(crate) const GROUP_LEN: u32 = 32;

/// The pages with indices from 32 times the group's own on, 32 of them. Where a page is missing, its
/// numbers have no values.
#[derive(Drop)]
pub(crate) struct Group<V: Copy, A: Allocator> {
    pub(crate) pages: Vec<Option<Arc<Page<V, A>, A>>, A>,
}

impl<V: Copy, A: Allocator + Clone> Clone for Group<V, A> {
    ghost use Rattle.kfs_maps.specs.Pages.Groups.{all_held};

    ghost is_clone = { λ group copy. all_held copy.pages.items ≡ all_held group.pages.items };

    fn clone(&self) -> Result<Group<V, A>, AllocError> {
        Ok(Group {
            pages: self.pages.clone()?,
        })
    }
}

/// A list of `count` empty slots.
pub(crate) fn nothing<T: Drop, A: Allocator>(
    alloc: A,
    count: u32,
) -> Result<Vec<Option<T>, A>, AllocError>
    ensures { IfOk result (λ list. list.items ≡ replicate count None) }
{
    let mut list = Vec::with_capacity(alloc, count as usize)?;
    for _ in 0..count {
        list.push(None)?;
    }
    Ok(list)
}

impl<V: Copy, A: Allocator> Group<V, A> {
    /// A group without pages.
    pub(crate) fn blank(alloc: A) -> Result<Group<V, A>, AllocError>
        ensures { IfOk result (λ group. all_held group.pages.items ≡ no_pages) }
    {
        Ok(Group {
            pages: nothing(alloc, GROUP_LEN)?,
        })
    }
}

/// The page with this index, if there is one.
pub(crate) fn page_at<V: Copy, A: Allocator>(
    groups: &[Option<Arc<Group<V, A>, A>>],
    index: u32,
) -> Option<&Page<V, A>>
    requires { GroupsAreWhole (all_held groups.now) }
    ensures { option_copied result ≡ page_in (laid_out groups.now) index }
{
    let group = groups.get((index / GROUP_LEN) as usize)?.as_ref()?;
    let page = group.pages.get((index % GROUP_LEN) as usize)?.as_ref()?;
    Some(page)
}
