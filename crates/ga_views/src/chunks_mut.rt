//! Rows of one width that lie in a slice, for writing.
ghost use Rattle.ga_views.specs.Views.{items_of_chunks, items_of_view};
ghost use Rattle.ga_views.specs.Parts.{LendsHalves};
ghost use Rattle.ga_views.specs.RowIteration.{RowsInOrder, RowsInReverse};
ghost use Rattle.ga_views.specs.Rows.{chunk_count, chunk_rest, row_at, rows};
ghost use Rattle.std.specs.Borrow.{Array, LendsBoth, sem};
ghost use Rattle.std.specs.Option.{option_map};
ghost use Rattle.std.specs.Prelude.{◌≡◌, ◌*◌, ◌^◌, ◌<◌, ◌↔◌, ◌⊎◌, ◌++◌, IfSome, IsSome, length, slice_get};

use crate::chunks_ref::len_of_rows;
use crate::reborrow::{ReborrowPart, ReborrowSlice};
use crate::{ChunkIter, ChunksRef, GenericArrayMut, GenericArrayRef, Unsigned};
use std::marker::PhantomData;

/// Rows of `N` items each of a slice, one after the other, for writing. What is written through it
/// is written to the slice, and to no other item.
///
/// The counterpart of `&mut [GenericArray<T, N>]` made of a slice.
pub type ChunksMut<'a, T, N> = ChunksViewMut<&'a mut [T], T, N>;

/// Rows of `N` items each for writing, over any reference to them: see `ChunksMut`.
///
/// The fields are public for the reason that those of `ViewMut` are.
#[derive(Drop)]
pub struct ChunksViewMut<S: ReborrowSlice<T>, T, N: Unsigned> {
    /// The reference to the items.
    pub slice: S,
    /// The type of the items, and the length of a row.
    pub of: PhantomData<(T, N)>,
    // The rows leave no rest.
    ghost whole: { length (S.items slice) ≡ chunk_count N.USIZE (S.items slice) * N.USIZE },
}

impl<'a, T, N: Unsigned> ChunksViewMut<&'a mut [T], T, N> {
    /// The whole rows of a slice, and the items that follow them, both for writing. With `N = 0`
    /// the slice has to be empty, and there are no rows. O(1).
    ///
    /// The counterpart of `GenericArray::chunks_from_slice_mut`, which panics where `N` is 0 and
    /// the slice isn't empty.
    ///
    /// The checker doesn't read `writes_back` for callers. Where a proof needs what the slice ends
    /// as, cut it by `whole_and_rest` and make the rows by `over`.
    #[inline]
    pub fn chunks_from_slice_mut(slice: &'a mut [T]) -> (Self, &'a mut [T])
        requires width { (0 < N.USIZE) ⊎ (length slice.old ≡ 0) }
        ensures* writes_back { sem 𝓛 (LendsHalves T.row slice.entry result.0.slice result.1) }
        ensures rows { rows N.USIZE result.0.slice.now ≡ rows N.USIZE slice.old }
        ensures rest { result.1.now ≡ chunk_rest N.USIZE slice.old }
        ensures parts { result.0.slice.now ++ result.1.now ≡ slice.old }
    {
        let count = len_of_rows(slice.len(), N::USIZE);
        let (whole, rest) = slice.split_at_mut(count);
        (Self::over(whole), rest)
    }

    /// The items of the whole rows of a slice, and the items that follow them, both for writing:
    /// the two parts of `chunks_from_slice_mut` as slices. With `N = 0` the slice has to be empty.
    /// O(1).
    ///
    /// A proof follows what is written through both. `over` makes rows of the first.
    #[inline]
    pub fn whole_and_rest(slice: &'a mut [T]) -> (&'a mut [T], &'a mut [T])
        requires width { (0 < N.USIZE) ⊎ (length slice.old ≡ 0) }
        ensures* writes_back { sem 𝓛 (LendsBoth (Array T.row 0) (Array T.row 0) (Array T.row 0)
            slice.entry result ◌++◌) }
        ensures whole { length result.0.now ≡ chunk_count N.USIZE slice.old * N.USIZE }
        ensures rest { result.1.now ≡ chunk_rest N.USIZE slice.old }
        ensures parts { result.0.now ++ result.1.now ≡ slice.old }
    {
        let whole = len_of_rows(slice.len(), N::USIZE);
        slice.split_at_mut(whole)
    }

    /// The items of all rows, in order, for writing, for the whole borrow that the rows were cut
    /// from. A proof doesn't learn what is then written through it: see `as_mut_slice`.
    ///
    /// The counterpart of `GenericArray::slice_from_chunks_mut`.
    #[inline]
    pub fn into_slice(self) -> &'a mut [T]
        ensures items { result ≡ self.entry.slice }
        ensures len { length result.now ≡ chunk_count N.USIZE result.now * N.USIZE }
    {
        let ChunksViewMut { slice, of: _ } = self;
        slice
    }
}

impl<S: ReborrowSlice<T>, T, N: Unsigned> ChunksViewMut<S, T, N> {
    ghost use Rattle.ga_views.specs.ChunksViewMut.{LendsRowItems};

    /// The rows over a reference to whole rows: requires that no items are left behind them. With
    /// `N = 0` there are none. O(1).
    #[inline]
    pub fn over(items: S) -> Self
        requires whole { length (S.items items) ≡ chunk_count N.USIZE (S.items items) * N.USIZE }
        ensures { result.slice ≡ items }
    {
        ChunksViewMut {
            slice: items,
            of: PhantomData,
        }
    }

    /// The same rows, read-only.
    #[inline]
    pub fn view(&self) -> ChunksRef<'_, T, N>
        ensures { items_of_chunks result ≡ S.items self.now.slice }
    {
        ChunksRef::over(self.slice.as_slice())
    }

    /// The number of rows. O(1).
    #[inline]
    pub fn len(&self) -> usize
        ensures count { result ≡ chunk_count N.USIZE (S.items self.now.slice) }
        ensures rows { result ≡ length (rows N.USIZE (S.items self.now.slice)) }
    {
        self.view().len()
    }

    /// The row at `index`, or `None` if there are at most `index` rows. O(1).
    #[inline]
    pub fn get(&self, index: usize) -> Option<GenericArrayRef<'_, T, N>>
        ensures variant { IsSome result ↔ (index < chunk_count N.USIZE (S.items self.now.slice)) }
        ensures row { IfSome result (λ view.
            items_of_view view ≡ row_at N.USIZE (S.items self.now.slice) index) }
        ensures rows { option_map items_of_view result
            ≡ slice_get (rows N.USIZE (S.items self.now.slice)) index }
    {
        self.view().get(index)
    }

    /// The rows as read-only views, in order, from both ends.
    #[inline]
    pub fn iter(&self) -> ChunkIter<'_, T, N>
        ensures rows { result ≡ rows N.USIZE (S.items self.now.slice) }
        ensures bound { length result < 2 ^ 64 }
        ensures runs { RowsInOrder T N N.Unsigned }
        ensures runs_back { RowsInReverse T N N.Unsigned }
    {
        ChunkIter::over(self.slice.as_slice())
    }

    /// The items of all rows, in order.
    #[inline]
    pub fn as_slice(&self) -> &[T]
        ensures items { result.now ≡ S.items self.now.slice }
        ensures len { length result.now ≡ chunk_count N.USIZE (S.items self.now.slice) * N.USIZE }
    {
        self.slice.as_slice()
    }

    /// The items of all rows, in order, for writing.
    #[inline]
    pub fn as_mut_slice(&mut self) -> &mut [T]
        ensures* writes_back { sem 𝓛 (LendsRowItems S.row T.row N.row S.ReborrowSlice N.Unsigned
            self.entry result) }
        ensures items { result.now ≡ S.items self.old.slice }
        ensures len { length result.now ≡ chunk_count N.USIZE (S.items self.old.slice) * N.USIZE }
    {
        let len = self.slice.as_slice().len();
        self.slice.as_mut_slice(len)
    }
}

impl<S: ReborrowPart<T>, T, N: Unsigned> ChunksViewMut<S, T, N> {
    ghost use Rattle.ga_views.specs.ChunksViewMut.{LendsRow, LendsRowIf};

    /// The row at `index` for writing. O(1).
    #[inline]
    pub fn row_mut(&mut self, index: usize) -> &mut [T]
        requires in_bounds { index < chunk_count N.USIZE (S.items self.old.slice) }
        ensures* writes_back { sem 𝓛 (LendsRow S.row T.row N.row S.ReborrowSlice N.Unsigned
            self.entry index result) }
        ensures row { result.now ≡ row_at N.USIZE (S.items self.old.slice) index }
        ensures len { length result.now ≡ N.USIZE }
    {
        let start = self.view().start_of(index);
        self.slice.part_mut(start, N::USIZE)
    }

    /// The row at `index` for writing, or `None` if there are at most `index` rows. O(1).
    ///
    /// The checker doesn't read `writes_back` for callers. Where a proof needs what is written,
    /// call `row_mut`.
    #[inline]
    pub fn get_mut(&mut self, index: usize) -> Option<GenericArrayMut<'_, T, N>>
        ensures* writes_back { sem 𝓛 (LendsRowIf S.row T.row N.row S.ReborrowSlice N.Unsigned
            self.entry index (option_map (λ view. view.slice) result)) }
        ensures variant { IsSome result ↔ (index < chunk_count N.USIZE (S.items self.old.slice)) }
        ensures row { IfSome result (λ view.
            view.slice.now ≡ row_at N.USIZE (S.items self.old.slice) index) }
    {
        if index < self.len() {
            Some(GenericArrayMut::from_mut_slice(self.row_mut(index)))
        } else {
            None
        }
    }
}
