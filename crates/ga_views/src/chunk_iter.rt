//! The rows that lie in a slice as views, from both ends.
ghost use Rattle.ga_views.specs.Views.{items_of_view};
ghost use Rattle.ga_views.specs.Cut.{StepGives, back, front};
ghost use Rattle.ga_views.specs.RowIteration.{RowsInOrder, RowsInReverse};
ghost use Rattle.ga_views.specs.Rows.{chunk_count, rows};
ghost use Rattle.std.specs.Iterator.{YieldsFirstBy, YieldsLastBy, item_count};
ghost use Rattle.std.specs.Option.{option_map};
ghost use Rattle.std.specs.Prelude.{◌≡◌, ◌*◌, ◌^◌, ◌<◌, ◌≤◌, [], false, length, true};

use crate::chunks_ref::count_of_rows;
use crate::{GenericArrayRef, Unsigned};
use std::marker::{Model, PhantomData};

/// The rows of a `ChunksRef` or a `ChunksMut` as views, from both ends. Contracts see it as the
/// list of the rows that are left.
///
/// The counterpart of `slice::Iter` over a slice of arrays. Each call is O(1).
#[derive(Drop)]
pub struct ChunkIter<'a, T, N: Unsigned> {
    // The items of the rows that are left.
    left: &'a [T],
    of: PhantomData<N>,
}

impl<'a, T, N: Unsigned> Model for ChunkIter<'a, T, N> {
    ghost use Rattle.ga_views.specs.Rows.{chunk_count, rows};
    ghost use Rattle.std.specs.Prelude.{◌≡◌, ◌*◌, List, length};

    ghost Value = { List (List T) };

    ghost view = { λ iter. rows N.USIZE iter.left.now };

    // The rows leave no rest, so that the last of them ends where the slice does.
    ghost invariant = { λ iter. length iter.left.now
        ≡ chunk_count N.USIZE iter.left.now * N.USIZE };
}

impl<'a, T, N: Unsigned> ChunkIter<'a, T, N> {
    // The rows of a slice that has no rest.
    #[inline]
    #[tactic(auto, using(crate::proofs::RowLemmas::row_facts))]
    pub(crate) fn over(slice: &'a [T]) -> Self
        requires whole { length slice.now ≡ chunk_count N.USIZE slice.now * N.USIZE }
        ensures rows { result ≡ rows N.USIZE slice.now }
        ensures bound { length result < 2 ^ 64 }
        ensures runs { RowsInOrder T N N.Unsigned }
        ensures runs_back { RowsInReverse T N N.Unsigned }
    {
        // For the prover alone: a slice's length, and so its number of rows, fits in 64 bits.
        let _len = slice.len();
        ChunkIter {
            left: slice,
            of: PhantomData,
        }
    }

    /// The number of rows that are left.
    #[inline]
    #[tactic(auto, using(crate::proofs::RowLemmas::row_facts))]
    pub fn len(&self) -> usize
        ensures { result ≡ length self.now }
    {
        count_of_rows(self.left.len(), N::USIZE)
    }

    /// Skips `n` rows and returns the next one. If at most `n` rows are left, consumes them all
    /// and returns `None`.
    #[inline]
    pub fn nth(&mut self, n: usize) -> Option<GenericArrayRef<'a, T, N>>
        ensures step { StepGives (front n) self.old (option_map items_of_view result) self.new }
    {
        let (_, left) = self.left.split_at(n.min(self.len()) * N::USIZE);
        self.left = left;
        self.next()
    }

    /// Skips `n` rows from the back and returns the one before them. If at most `n` rows are left,
    /// consumes them all and returns `None`.
    #[inline]
    pub fn nth_back(&mut self, n: usize) -> Option<GenericArrayRef<'a, T, N>>
        ensures step { StepGives (back n) self.old (option_map items_of_view result) self.new }
    {
        let passed = n.min(self.len()) * N::USIZE;
        self.left = &self.left[..self.left.len() - passed];
        self.next_back()
    }
}

impl<'a, T, N: Unsigned> Iterator for ChunkIter<'a, T, N> {
    type Item = GenericArrayRef<'a, T, N>;

    ghost next_gives = { YieldsFirstBy items_of_view (λ left. left) };

    ghost remaining = { item_count (λ left. left) };

    /// The first row that is left.
    #[inline]
    fn next(&mut self) -> Option<GenericArrayRef<'a, T, N>> {
        let width = N::USIZE;
        if !has_row(self.left, width) {
            return None;
        }
        let (row, left) = self.left.split_at(width);
        self.left = left;
        Some(GenericArrayRef::from_slice(row))
    }

    #[inline]
    fn size_hint(&self) -> (usize, Option<usize>)
        ensures { result ≡ (length self.now, Some (length self.now)) }
    {
        let rows = self.len();
        (rows, Some(rows))
    }
}

impl<'a, T, N: Unsigned> DoubleEndedIterator for ChunkIter<'a, T, N> {
    ghost next_back_gives = { YieldsLastBy items_of_view (λ left. left) };

    /// The last row that is left.
    #[inline]
    fn next_back(&mut self) -> Option<GenericArrayRef<'a, T, N>> {
        let width = N::USIZE;
        if !has_row(self.left, width) {
            return None;
        }
        let (left, row) = self.left.split_at(self.left.len() - width);
        self.left = left;
        Some(GenericArrayRef::from_slice(row))
    }
}

// Whether the slice holds a row of this width, of which there is none where the width is 0.
#[inline]
#[tactic(auto, using(crate::proofs::RowLemmas::row_facts))]
fn has_row<T>(slice: &[T], width: usize) -> bool
    ensures some { result ≡ true → (0 < width) × (width ≤ length slice.now) }
    ensures none { result ≡ false → rows width slice.now ≡ [] }
{
    width > 0 && width <= slice.len()
}
