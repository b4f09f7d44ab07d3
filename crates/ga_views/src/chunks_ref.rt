//! Rows of one width that lie in a slice.
ghost use Rattle.ga_views.specs.RowIteration.{RowsInOrder, RowsInReverse};
ghost use Rattle.ga_views.specs.Rows.{chunk_count, chunk_rest, row_at, rows};
ghost use Rattle.std.specs.Option.{option_map};
ghost use Rattle.std.specs.Prelude.{◌≡◌, ◌*◌, ◌/◌, ◌^◌, ◌<◌, ◌≤◌, ◌↔◌, ◌⊎◌, IfSome, IsSome, ◌++◌, length, slice_get, ⊤};

use crate::{ChunkIter, GenericArrayRef, Unsigned};
use std::alloc::AllocError;
use std::marker::PhantomData;

/// Rows of `N` items each of a slice, one after the other. Copying it copies no item.
///
/// The counterpart of `&[GenericArray<T, N>]` made of a slice.
pub struct ChunksRef<'a, T, N: Unsigned> {
    slice: &'a [T],
    of: PhantomData<N>,
    // The rows leave no rest.
    ghost whole: { length slice.now ≡ chunk_count N.USIZE slice.now * N.USIZE },
}

impl<'a, T, N: Unsigned> Clone for ChunksRef<'a, T, N> {
    ghost is_clone = { λ chunks copy. copy ≡ chunks };

    ghost is_infallible = { λ _. ⊤ };

    fn clone(&self) -> Result<Self, AllocError> {
        Ok(*self)
    }
}

impl<'a, T, N: Unsigned> Copy for ChunksRef<'a, T, N> {}

impl<'a, T, N: Unsigned> ChunksRef<'a, T, N> {
    ghost use Rattle.ga_views.specs.Views.{items_of_chunks, items_of_view};

    // The rows of a slice that has no rest.
    #[inline]
    pub(crate) fn over(slice: &'a [T]) -> Self
        requires whole { length slice.now ≡ chunk_count N.USIZE slice.now * N.USIZE }
        ensures { items_of_chunks result ≡ slice.now }
    {
        ChunksRef {
            slice,
            of: PhantomData,
        }
    }

    /// The whole rows of a slice, and the items that follow them. With `N = 0` the slice has to be
    /// empty, and there are no rows. O(1).
    ///
    /// The counterpart of `GenericArray::chunks_from_slice`, which panics where `N` is 0 and the
    /// slice isn't empty.
    #[inline]
    #[tactic(auto, using(crate::proofs::RowLemmas::cut_facts))]
    pub fn chunks_from_slice(slice: &'a [T]) -> (Self, &'a [T])
        requires width { (0 < N.USIZE) ⊎ (length slice.now ≡ 0) }
        ensures rows { rows N.USIZE (items_of_chunks result.0) ≡ rows N.USIZE slice.now }
        ensures rest { result.1.now ≡ chunk_rest N.USIZE slice.now }
        ensures parts { items_of_chunks result.0 ++ result.1.now ≡ slice.now }
        ensures count { length (rows N.USIZE slice.now) ≡ chunk_count N.USIZE slice.now }
    {
        let (whole, rest) = slice.split_at(len_of_rows(slice.len(), N::USIZE));
        (ChunksRef::over(whole), rest)
    }

    /// The number of rows. O(1).
    #[inline]
    #[tactic(auto, using(crate::proofs::RowLemmas::row_facts))]
    pub fn len(&self) -> usize
        ensures count { result ≡ chunk_count N.USIZE (items_of_chunks self.now) }
        ensures rows { result ≡ length (rows N.USIZE (items_of_chunks self.now)) }
    {
        count_of_rows(self.slice.len(), N::USIZE)
    }

    // Where the row at `index` starts among the items. They lie in a slice, so this fits a `usize`.
    #[inline]
    #[tactic(auto, using(crate::proofs::RowLemmas::row_facts))]
    pub(crate) fn start_of(self, index: usize) -> usize
        requires in_bounds { index < chunk_count N.USIZE (items_of_chunks self) }
        ensures { result ≡ index * N.USIZE }
    {
        index * N::USIZE
    }

    /// The row at `index`, or `None` if there are at most `index` rows. O(1).
    #[inline]
    #[tactic(auto, using(crate::proofs::RowLemmas::row_facts))]
    pub fn get(&self, index: usize) -> Option<GenericArrayRef<'a, T, N>>
        ensures variant { IsSome result ↔ (index < chunk_count N.USIZE (items_of_chunks self.now)) }
        ensures row { IfSome result (λ view.
            items_of_view view ≡ row_at N.USIZE (items_of_chunks self.now) index) }
        ensures rows { option_map items_of_view result
            ≡ slice_get (rows N.USIZE (items_of_chunks self.now)) index }
    {
        if index < self.len() {
            let (_, behind) = self.slice.split_at(self.start_of(index));
            let (row, _) = behind.split_at(N::USIZE);
            Some(GenericArrayRef::from_slice(row))
        } else {
            None
        }
    }

    /// The rows as views, in order, from both ends.
    #[inline]
    pub fn iter(&self) -> ChunkIter<'_, T, N>
        ensures rows { result ≡ rows N.USIZE (items_of_chunks self.now) }
        ensures bound { length result < 2 ^ 64 }
        ensures runs { RowsInOrder T N N.Unsigned }
        ensures runs_back { RowsInReverse T N N.Unsigned }
    {
        ChunkIter::over(self.slice)
    }

    /// The items of all rows, in order.
    #[inline]
    pub fn as_slice(&self) -> &[T]
        ensures items { result.now ≡ items_of_chunks self.now }
        ensures len { length result.now ≡ chunk_count N.USIZE (items_of_chunks self.now) * N.USIZE }
    {
        self.slice
    }

    /// The items of all rows, in order, for the whole borrow that the rows were cut from.
    ///
    /// The counterpart of `GenericArray::slice_from_chunks`.
    #[inline]
    pub fn into_slice(self) -> &'a [T]
        ensures items { result.now ≡ items_of_chunks self.entry }
        ensures len { length result.now
            ≡ chunk_count N.USIZE (items_of_chunks self.entry) * N.USIZE }
    {
        self.slice
    }
}

// How many whole rows of a width lie in `len` items. Of the width 0 there are none.
#[inline]
pub(crate) fn count_of_rows(len: usize, width: usize) -> usize
    ensures count { result ≡ len / width }
    ensures within { result * width ≤ len }
{
    match width {
        0 => 0,
        width => len / width,
    }
}

// How many of `len` items lie in whole rows of a width.
#[inline]
pub(crate) fn len_of_rows(len: usize, width: usize) -> usize
    ensures { result ≡ len / width * width }
{
    count_of_rows(len, width) * width
}
