//! The writing view of a slice.
ghost use Rattle.ga_views.specs.Iteration.{IteratesMutOver, IteratesOver};
ghost use Rattle.std.specs.Borrow.{sem, Array, RestsIfErr};
ghost use Rattle.std.specs.Option.{option_copied, option_copied_mut};
ghost use Rattle.std.specs.Prelude.{◌≡◌, ◌<◌, ◌↔◌, IfOk, IsOk, IsSome, length, slice_get, slice_index_or};

use crate::reborrow::ReborrowSlice;
use crate::{LengthError, Unsigned};
use std::convert::AsSlice;
use std::marker::PhantomData;
use std::ops::{DerefSlice, DerefSliceMut};
use std::slice;

/// A view of exactly `N` items of a slice, for writing. What is written through it is written to
/// the slice, and to no other item.
///
/// The counterpart of `&mut GenericArray<T, N>` made of a slice. The length has no bound.
pub type GenericArrayMut<'a, T, N> = ViewMut<&'a mut [T], T, N>;

/// A view of exactly `N` items for writing, over any reference to them: see `GenericArrayMut`.
///
/// The fields are public so that a view can be made by a literal and taken apart by a pattern: a
/// proof follows both where it doesn't follow a call. That there are `N` items holds of each
/// literal.
#[derive(Drop)]
pub struct ViewMut<S: ReborrowSlice<T>, T, N: Unsigned> {
    /// The reference to the items.
    pub slice: S,
    /// The type of the items, and the length.
    pub of: PhantomData<(T, N)>,
    ghost full: { length (S.items slice) ≡ N.USIZE },
}

impl<'a, T, N: Unsigned> ViewMut<&'a mut [T], T, N> {
    /// The view of a slice of `N` items. The counterpart of `GenericArray::from_mut_slice`, which
    /// panics where the length is another.
    #[inline]
    pub fn from_mut_slice(slice: &'a mut [T]) -> Self
        requires len { length slice.old ≡ N.USIZE }
        ensures { result.slice ≡ slice.entry }
    {
        Self::over(slice)
    }

    /// The view of a slice, or `LengthError` if it doesn't have `N` items. A slice of another
    /// length stays as it was.
    ///
    /// The checker doesn't read `writes_back` for callers, since a slice is borrowed and a
    /// `Result` returned. Where a proof needs what the slice ends as, compare the slice's length
    /// and call `from_mut_slice`.
    #[inline]
    pub fn try_from_mut_slice(slice: &'a mut [T]) -> Result<Self, LengthError>
        ensures* writes_back { sem 𝓛 (RestsIfErr (Array T.row 0)
            slice.entry (λ view. view.slice.ghost_name) result (λ rest. rest ≡ slice.old)) }
        ensures variant { IsOk result ↔ (length slice.old ≡ N.USIZE) }
        ensures ok { IfOk result (λ view. view.slice ≡ slice.entry) }
    {
        if slice.len() == N::USIZE {
            Ok(Self::from_mut_slice(slice))
        } else {
            Err(LengthError)
        }
    }

    /// All items, in order, for writing, for the whole borrow that the view was made of. A proof
    /// doesn't learn what is then written through it: see `as_mut_slice`.
    #[inline]
    pub fn into_mut_slice(self) -> &'a mut [T]
        ensures items { result ≡ self.entry.slice }
        ensures len { length result.now ≡ N.USIZE }
    {
        self.into_inner()
    }
}

impl<S: ReborrowSlice<T>, T, N: Unsigned> ViewMut<S, T, N> {
    ghost use Rattle.ga_views.specs.ViewMut.{LendsViewItems, LendsViewIter, LendsViewItem, LendsViewItemIf};

    /// The view over `items`, a reference to `N` items.
    #[inline]
    pub fn over(items: S) -> Self
        requires len { length (S.items items) ≡ N.USIZE }
        ensures { result.slice ≡ items }
    {
        ViewMut {
            slice: items,
            of: PhantomData,
        }
    }

    /// What the view was made over: of the view of an array, the reference to the array. A proof
    /// doesn't learn what is then written through it: see `as_mut_slice`.
    #[inline]
    pub fn into_inner(self) -> S
        ensures inner { result ≡ self.slice }
        ensures len { length (S.items result) ≡ N.USIZE }
    {
        let ViewMut { slice, of: _ } = self;
        slice
    }

    /// All items, in order.
    #[inline]
    #[tactic(auto, using(std::proofs::lemmas::List::take_all))]
    pub fn as_slice(&self) -> &[T]
        ensures items { result.now ≡ S.items self.now.slice }
        ensures len { length result.now ≡ N.USIZE }
    {
        &self.slice.as_slice()[..N::USIZE]
    }

    /// All items, in order, for writing.
    #[inline]
    pub fn as_mut_slice(&mut self) -> &mut [T]
        ensures* writes_back { sem 𝓛 (LendsViewItems S.row T.row N.row S.ReborrowSlice N.Unsigned
            self.entry result) }
        ensures items { result.now ≡ S.items self.old.slice }
        ensures len { length result.now ≡ N.USIZE }
    {
        self.slice.as_mut_slice(N::USIZE)
    }

    /// The item at `index`, or `None` where `index` isn't below `N`.
    #[inline]
    #[tactic(auto, using(crate::proofs::GetLemmas::got))]
    pub fn get(&self, index: usize) -> Option<&T>
        ensures variant { IsSome result ↔ (index < N.USIZE) }
        ensures item { option_copied result ≡ slice_get (S.items self.now.slice) index }
    {
        self.as_slice().get(index)
    }

    // A borrow that `get_mut` can return as it is.
    #[inline]
    fn item_mut(&mut self, index: usize) -> &mut T
        requires in_bounds { index < N.USIZE }
        ensures* writes_back { sem 𝓛 (LendsViewItem S.row T.row N.row S.ReborrowSlice N.Unsigned
            self.entry index result) }
        ensures item { result.now ≡ slice_index_or (S.items self.old.slice) index result.now }
    {
        self.slice.item_mut(index)
    }

    /// The item at `index` for writing, or `None` where `index` isn't below `N`.
    #[inline]
    pub fn get_mut(&mut self, index: usize) -> Option<&mut T>
        ensures* writes_back { sem 𝓛 (LendsViewItemIf S.row T.row N.row S.ReborrowSlice N.Unsigned
            self.entry index result) }
        ensures variant { IsSome result ↔ (index < N.USIZE) }
        ensures item { option_copied_mut result ≡ slice_get (S.items self.old.slice) index }
    {
        if index < N::USIZE {
            Some(self.item_mut(index))
        } else {
            None
        }
    }

    /// The number of items, which is `N`.
    #[inline]
    pub fn len(&self) -> usize
        ensures { result ≡ N.USIZE }
    {
        N::USIZE
    }

    /// The items by reference, in order.
    #[inline]
    pub fn iter(&self) -> slice::Iter<'_, T>
        ensures { IteratesOver (S.items self.now.slice) N.USIZE result }
    {
        self.as_slice().iter()
    }

    /// The items by reference, in order, for writing.
    #[inline]
    pub fn iter_mut(&mut self) -> slice::IterMut<'_, T>
        ensures* writes_back { sem 𝓛 (LendsViewIter S.row T.row N.row S.ReborrowSlice N.Unsigned
            self.entry result) }
        ensures items { IteratesMutOver (S.items self.old.slice) N.USIZE result }
    {
        self.as_mut_slice().iter_mut()
    }
}

impl<S: ReborrowSlice<T>, T, N: Unsigned> AsSlice<T> for ViewMut<S, T, N> {
    ghost items = { λ view. S.items view.slice };

    #[inline]
    fn as_slice(&self) -> &[T] {
        ViewMut::as_slice(self)
    }
}

/// The methods of slices, and `view[index]`.
impl<S: ReborrowSlice<T>, T, N: Unsigned> DerefSlice for ViewMut<S, T, N> {
    type Elem = T;

    ghost deref_gives = { λ view items. (items ≡ S.items view.slice) × (length items ≡ N.USIZE) };

    #[inline]
    fn deref(&self) -> &[T] {
        ViewMut::as_slice(self)
    }
}

impl<S: ReborrowSlice<T>, T, N: Unsigned> DerefSliceMut for ViewMut<S, T, N> {
    ghost use Rattle.ga_views.specs.ViewMut.{LendsViewItems};

    #[inline]
    fn deref_mut(&mut self) -> &mut [T]
        ensures* writes_back { sem 𝓛 (LendsViewItems S.row T.row N.row S.ReborrowSlice N.Unsigned
            self.entry result) }
        ensures items { result.now ≡ S.items self.old.slice }
        ensures len { length result.now ≡ N.USIZE }
    {
        ViewMut::as_mut_slice(self)
    }
}
