//! A builder as a list of at most `N` items, edited by the calls of a `Vec`.
ghost use Rattle.std.specs.List.{All, AllZip, swap_remove};
ghost use Rattle.std.specs.Prelude.{◌≡◌, ◌+◌, ◌-◌, ◌<◌, ◌≤◌, ◌↔◌, IfNone, IfSome, IsOk, IsSome, OnErr, OnOk, Some, List, [], ◌∷◌, ◌++◌, insert, length, remove, slice_get, slice_index_or, take};

use crate::builder::ArrayBuilder;
use crate::errors::AllocError;
use crate::length::ArrayLength;
use crate::slots::{write_clones_or_defaults, write_defaults};
use crate::store::{Store, take_at};

impl<T: Default + Drop, N: ArrayLength<T>> ArrayBuilder<T, N> {
    /// Takes the last item, or returns `None` if there is none. O(1).
    #[inline]
    pub fn pop(&mut self) -> Option<T>
        ensures variant { IsSome result ↔ (0 < length self.old) }
        ensures some { IfSome result (λ item. self.old ≡ self.new ++ item ∷ []) }
        ensures none { IfNone result (self.new ≡ self.old) }
        ensures bound { length self.old ≤ N.USIZE }
    {
        if self.position == 0 {
            return None;
        }
        let last = self.position - 1;
        self.position = last;
        Some(take_at(&mut self.store, last))
    }

    /// Puts `item` at `index`, and moves those from there on one place further. O(items behind it).
    ///
    /// Requires that the builder isn't full, and that `index` is at most the number of items. The
    /// counterpart of `Vec::insert`.
    #[inline]
    pub fn insert(&mut self, index: usize, item: T)
        requires in_bounds { index ≤ length self.old }
        requires room { length self.old < N.USIZE }
        ensures items { self.new ≡ insert self.old index item }
        ensures len { length self.new ≡ length self.old + 1 }
        ensures bound { length self.new ≤ N.USIZE }
    {
        self.push(item);
        carry_from_end(self.store.part_mut(0, self.position), index);
    }

    /// Takes the item at `index`, and moves those behind it one place to the front. O(items behind
    /// it).
    ///
    /// Requires that there is one. The counterpart of `Vec::remove`.
    #[inline]
    pub fn remove(&mut self, index: usize) -> T
        requires in_bounds { index < length self.old }
        ensures item { slice_get self.old index ≡ Some result }
        ensures others { self.new ≡ remove self.old index }
        ensures len { length self.new + 1 ≡ length self.old }
        ensures bound { length self.old ≤ N.USIZE }
    {
        self.carry_behind(index);
        self.pop().unwrap()
    }

    /// Takes the item at `index`, and puts the last in its place. O(1).
    ///
    /// Requires that there is one. The counterpart of `Vec::swap_remove`.
    #[inline]
    pub fn swap_remove(&mut self, index: usize) -> T
        requires in_bounds { index < length self.old }
        ensures item { slice_get self.old index ≡ Some result }
        ensures others { self.new ≡ swap_remove self.old index result }
        ensures len { length self.new + 1 ≡ length self.old }
        ensures bound { length self.old ≤ N.USIZE }
    {
        let last = self.position - 1;
        self.as_mut_slice().swap(index, last);
        self.pop().unwrap()
    }

    // Carries the item at `index` behind all others, which are left in order.
    #[inline]
    fn carry_behind(&mut self, index: usize)
        requires in_bounds { index < length self.old }
        ensures carried { (item : T)
            → self.new ≡ remove self.old index ++ slice_index_or self.old index item ∷ [] }
        ensures len { length self.new ≡ length self.old }
        ensures bound { length self.old ≤ N.USIZE }
    {
        carry_to_end(self.store.part_mut(0, self.position), index);
    }

    /// Keeps the first `len` items, and drops the others, in order. O(items dropped).
    ///
    /// Changes nothing where there are no more than `len`. The counterpart of `Vec::truncate`.
    #[inline]
    pub fn truncate(&mut self, len: usize)
        ensures items { self.new ≡ take len self.old }
        ensures len { length self.new + (length self.old - len) ≡ length self.old }
        ensures bound { length self.old ≤ N.USIZE }
    {
        if len < self.position {
            let count = self.position - len;
            write_defaults(self.store.part_mut(len, count));
            self.position = len;
        }
    }

    /// Drops all items, in order. O(items). The counterpart of `Vec::clear`.
    #[inline]
    pub fn clear(&mut self)
        ensures items { self.new ≡ [] }
        ensures bound { length self.old ≤ N.USIZE }
    {
        self.truncate(0);
    }
}

impl<T: Copy, N: ArrayLength<T>> ArrayBuilder<T, N> {
    /// Appends copies of the items, in order. One pass.
    ///
    /// Requires that the builder has room for them. The counterpart of `Vec::extend_from_slice` at
    /// `Copy` items.
    #[inline]
    pub fn extend_from_slice(&mut self, items: &[T])
        requires room { length self.old + length items.now ≤ N.USIZE }
        ensures items { self.new ≡ self.old ++ items.now }
        ensures bound { length self.new ≤ N.USIZE }
    {
        let first = self.position;
        let count = items.len();
        self.store.part_mut(first, count).copy_from_slice(items);
        self.position = first + count;
    }
}

impl<T: Clone + Default + Drop, N: ArrayLength<T>> ArrayBuilder<T, N> {
    /// Appends clones of the items, made in order. One pass.
    ///
    /// Requires that the builder has room for them. If a clone fails, drops those made before it,
    /// leaves the builder as it was, and returns the error. The counterpart of
    /// `Vec::extend_from_slice`.
    #[inline]
    pub fn extend_from_clones(&mut self, items: &[T]) -> Result<(), AllocError>
        requires room { length self.old + length items.now ≤ N.USIZE }
        ensures ok { OnOk result ((copies : List T) × (self.new ≡ self.old ++ copies)
            × AllZip T.is_clone items.now copies) }
        ensures err { OnErr result (self.new ≡ self.old) }
        ensures succeeds { All T.is_infallible items.now → IsOk result }
        ensures bound { length self.new ≤ N.USIZE }
    {
        let first = self.position;
        let count = items.len();
        write_clones_or_defaults(self.store.part_mut(first, count), items)?;
        self.position = first + count;
        Ok(())
    }
}

// Carries the last item to `index`.
#[inline]
fn carry_from_end<T>(items: &mut [T], index: usize)
    requires { index < length items.old }
    ensures { (others : List T) (last : T) → items.old ≡ others ++ last ∷ []
        → items.new ≡ insert others index last }
{
    items[index..].rotate_right(1);
}

/// Carries the item at `index` behind all others, which are left in order. For the crates above:
/// `remove` of an array carries so too. O(items behind it).
#[doc(hidden)]
#[inline]
pub fn carry_to_end<T>(items: &mut [T], index: usize)
    requires { index < length items.old }
    ensures { (item : T) → items.new ≡ remove items.old index ++ slice_index_or items.old index item ∷ [] }
{
    items[index..].rotate_left(1);
}
