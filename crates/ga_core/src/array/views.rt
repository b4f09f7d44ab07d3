//! Views: of the items of an array, and of slices of the array's length.
ghost use Rattle.ga_views.specs.Length.{FitsInline};
ghost use Rattle.ga_views.specs.Parts.{LendsHalves};
ghost use Rattle.ga_views.specs.Views.{items_of_chunks, items_of_view};
ghost use Rattle.ga_views.specs.Rows.{chunk_count, chunk_rest, rows};
ghost use Rattle.std.specs.Borrow.{Array, RestsIfErr, sem};
ghost use Rattle.std.specs.Option.{option_copied};
ghost use Rattle.std.specs.Prelude.{◌≡◌, ◌<◌, ◌↔◌, ◌⊎◌, ◌++◌, IfOk, IsOk, Some, length, map, slice_get};

use crate::array::GenericArray;
use crate::length::ArrayLength;
use ga_views::{ChunksMut, ChunksRef, GenericArrayMut, GenericArrayRef, LengthError, ViewMut};
use std::marker::PhantomData;

impl<T, N: ArrayLength<T>> GenericArray<T, N> {
    /// The read-only view of the items. O(1).
    #[inline]
    pub fn view(&self) -> GenericArrayRef<'_, T, N>
        ensures items { items_of_view result ≡ self.now }
        ensures fits { FitsInline N.USIZE }
    {
        GenericArrayRef::from_slice(self.as_slice())
    }

    /// The view of the items for writing: a `ViewMut` over the array itself, which is another type
    /// than `GenericArrayMut`. O(1).
    ///
    /// In a generic function, before a loop, write `let view = &mut array.view_mut();`: the
    /// checker doesn't accept calls in the loop on a view that isn't borrowed.
    #[inline]
    pub fn view_mut(&mut self) -> ViewMut<&mut GenericArray<T, N>, T, N>
        ensures slice { result.slice ≡ self.entry }
        ensures fits { FitsInline N.USIZE }
    {
        // For the prover alone: reading a field shows the array's invariant, that there are `N`
        // items.
        let _ = &self.store;
        ViewMut {
            slice: self,
            of: PhantomData,
        }
    }

    /// The read-only view of a slice of `N` items, which need not fit inline.
    ///
    /// The Rust crate panics where the length is another.
    #[inline]
    pub fn from_slice(slice: &[T]) -> GenericArrayRef<'_, T, N>
        requires len { length slice.now ≡ N.USIZE }
        ensures { items_of_view result ≡ slice.now }
    {
        GenericArrayRef::from_slice(slice)
    }

    /// The read-only view of a slice, or `LengthError` where it doesn't have `N` items. The length
    /// need not fit inline.
    #[inline]
    pub fn try_from_slice(slice: &[T]) -> Result<GenericArrayRef<'_, T, N>, LengthError>
        ensures variant { IsOk result ↔ (length slice.now ≡ N.USIZE) }
        ensures ok { IfOk result (λ view. items_of_view view ≡ slice.now) }
    {
        GenericArrayRef::try_from_slice(slice)
    }

    /// The view of a slice of `N` items for writing, which need not fit inline.
    ///
    /// The Rust crate panics where the length is another.
    #[inline]
    pub fn from_mut_slice(slice: &mut [T]) -> GenericArrayMut<'_, T, N>
        requires len { length slice.old ≡ N.USIZE }
        ensures { result.slice ≡ slice.entry }
    {
        GenericArrayMut::from_mut_slice(slice)
    }

    /// The view of a slice for writing, or `LengthError` where it doesn't have `N` items. The
    /// length need not fit inline. Proofs don't learn what is written: see
    /// `GenericArrayMut::try_from_mut_slice`. A slice of another length stays as it was.
    #[inline]
    pub fn try_from_mut_slice(slice: &mut [T]) -> Result<GenericArrayMut<'_, T, N>, LengthError>
        ensures* writes_back { sem 𝓛 (RestsIfErr (Array T.row 0)
            slice.entry (λ view. view.slice.ghost_name) result (λ rest. rest ≡ slice.old)) }
        ensures variant { IsOk result ↔ (length slice.old ≡ N.USIZE) }
        ensures ok { IfOk result (λ view. view.slice ≡ slice.entry) }
    {
        GenericArrayMut::try_from_mut_slice(slice)
    }

    /// The whole rows of `N` items of a slice, and the items that follow them. With `N = 0` the
    /// slice has to be empty, and there are no rows. `N` need not fit inline.
    ///
    /// The Rust crate panics where `N` is 0 and the slice isn't empty.
    #[inline]
    pub fn chunks_from_slice(slice: &[T]) -> (ChunksRef<'_, T, N>, &[T])
        requires width { (0 < N.USIZE) ⊎ (length slice.now ≡ 0) }
        ensures rows { rows N.USIZE (items_of_chunks result.0) ≡ rows N.USIZE slice.now }
        ensures rest { result.1.now ≡ chunk_rest N.USIZE slice.now }
        ensures parts { items_of_chunks result.0 ++ result.1.now ≡ slice.now }
        ensures count { length (rows N.USIZE slice.now) ≡ chunk_count N.USIZE slice.now }
    {
        ChunksRef::chunks_from_slice(slice)
    }

    /// `chunks_from_slice` for writing. A proof doesn't learn what the slice ends as: see
    /// `ChunksMut::chunks_from_slice_mut`.
    #[inline]
    pub fn chunks_from_slice_mut(slice: &mut [T]) -> (ChunksMut<'_, T, N>, &mut [T])
        requires width { (0 < N.USIZE) ⊎ (length slice.old ≡ 0) }
        ensures* writes_back { sem 𝓛 (LendsHalves T.row slice.entry result.0.slice result.1) }
        ensures rows { rows N.USIZE result.0.slice.now ≡ rows N.USIZE slice.old }
        ensures rest { result.1.now ≡ chunk_rest N.USIZE slice.old }
        ensures parts { result.0.slice.now ++ result.1.now ≡ slice.old }
    {
        ChunksMut::chunks_from_slice_mut(slice)
    }

    /// `Some` of a reference to each item, in order: options, since items have a `Default` and
    /// references don't. O(N).
    pub fn each_ref<'a>(&'a self) -> GenericArray<Option<&'a T>, N>
    where
        N: ArrayLength<Option<&'a T>>,
        ensures { map option_copied result ≡ map Some self.now }
    {
        let items = self.as_slice();
        GenericArray::generate(
            |index: usize| -> Option<&T>
                ensures { option_copied result ≡ slice_get items.entry.now index }
            { items.get(index) },
        )
    }
}
