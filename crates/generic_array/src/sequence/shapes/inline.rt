//! The shapes of inline arrays. Each moves what an array's iterator has left into builders.
//!
//! The iterator is made before the builder: so the compiler knows the builder's position. What is
//! reordered is reordered before that: so it knows the iterator's bounds.
ghost use Rattle.ga_core.specs.Length.{FitsInline};
ghost use Rattle.std.specs.List.{swap_remove};
ghost use Rattle.std.specs.Prelude.{◌≡◌, ◌+◌, ◌*◌, ◌<◌, ◌≤◌, [], ◌∷◌, ◌++◌, drop, length, map, slice_index_or, take};

use crate::sequence::shapes::{Concat, Flatten, Lengthen, Remove, Row, Shorten, Split, Unflatten};
use ga_core::{ArrayBuilder, ArrayLength, GenericArray, GenericArrayIter, carry_to_end};

impl<T: Default + Drop, N: ArrayLength<T>, M: ArrayLength<T>> Lengthen<T, GenericArray<T, M>>
    for GenericArray<T, N> {
    ghost items = { λ array. array };

    ghost longer_items = { λ array. array };

    ghost IsOneLonger = { (M.USIZE ≡ N.USIZE + 1) × FitsInline M.USIZE };

    #[inline(always)]
    fn append(self, item: T) -> GenericArray<T, M> {
        let mut items = self.into_iter();
        let mut longer = ArrayBuilder::new();
        longer.take_from(&mut items, N::USIZE);
        longer.push(item);
        longer.finish()
    }

    #[inline(always)]
    fn prepend(self, item: T) -> GenericArray<T, M> {
        let mut items = self.into_iter();
        let mut longer = ArrayBuilder::new();
        longer.push(item);
        longer.take_from(&mut items, N::USIZE);
        longer.finish()
    }
}

impl<T: Default + Drop, N: ArrayLength<T>, M: ArrayLength<T>> Shorten<T, GenericArray<T, M>>
    for GenericArray<T, N> {
    ghost items = { λ array. array };

    ghost shorter_items = { λ array. array };

    ghost IsOneShorter = { N.USIZE ≡ M.USIZE + 1 };

    #[inline]
    fn pop_back(self) -> (GenericArray<T, M>, T) {
        let mut items = self.into_iter();
        let last = items.next_back().unwrap();
        (next_array(&mut items), last)
    }

    #[inline]
    fn pop_front(self) -> (T, GenericArray<T, M>) {
        let mut items = self.into_iter();
        (items.next().unwrap(), next_array(&mut items))
    }
}

impl<T: Default + Drop, N: ArrayLength<T>, R: ArrayLength<T>, M: ArrayLength<T>> Concat<
    T,
    GenericArray<T, R>,
    GenericArray<T, M>,
> for GenericArray<T, N> {
    ghost items = { λ array. array };

    ghost rest_items = { λ array. array };

    ghost output_items = { λ array. array };

    ghost LEN = { N.USIZE };

    ghost IsSum = { (M.USIZE ≡ N.USIZE + R.USIZE) × FitsInline M.USIZE };

    #[inline(always)]
    fn concat(self, rest: GenericArray<T, R>) -> GenericArray<T, M> {
        let mut items = self.into_iter();
        let mut both = ArrayBuilder::new();
        both.take_from(&mut items, N::USIZE);
        both.take_from(&mut rest.into_iter(), R::USIZE);
        both.finish()
    }
}

impl<T: Default + Drop, N: ArrayLength<T>, K: ArrayLength<T>, M: ArrayLength<T>> Split<
    T,
    GenericArray<T, K>,
    GenericArray<T, M>,
> for GenericArray<T, N> {
    ghost items = { λ array. array };

    ghost first_items = { λ array. array };

    ghost second_items = { λ array. array };

    ghost PLACE = { K.USIZE };

    ghost IsSum = { N.USIZE ≡ K.USIZE + M.USIZE };

    #[inline]
    fn split(self) -> (GenericArray<T, K>, GenericArray<T, M>) {
        let mut items = self.into_iter();
        (next_array(&mut items), next_array(&mut items))
    }
}

impl<T: Default + Drop, N: ArrayLength<T>, M: ArrayLength<T>> Remove<T, GenericArray<T, M>>
    for GenericArray<T, N> {
    ghost items = { λ array. array };

    ghost output_items = { λ array. array };

    ghost IsOneShorter = { N.USIZE ≡ M.USIZE + 1 };

    #[inline]
    fn remove(self, index: usize) -> (T, GenericArray<T, M>) {
        // By a view, since shapes use views, iterators and builders alone.
        let mut array = self;
        let mut view = array.view_mut();
        carry_to_end(view.as_mut_slice(), index);
        let mut items = array.into_iter();
        let item = items.next_back().unwrap();
        (item, next_array(&mut items))
    }

    #[inline]
    fn swap_remove(self, index: usize) -> (T, GenericArray<T, M>) {
        let mut array = self;
        let mut view = array.view_mut();
        swap_to_end(view.as_mut_slice(), index);
        let mut items = array.into_iter();
        (items.next_back().unwrap(), next_array(&mut items))
    }
}

impl<T: Default + Drop, N: ArrayLength<T>> Row<T> for GenericArray<T, N> {
    ghost WIDTH = { N.USIZE };

    #[inline]
    fn move_into<M: ArrayLength<T>>(self, joined: &mut ArrayBuilder<T, M>) {
        // Item by item: `take_from` of a row takes as many instructions, and more time at 64 bytes.
        for item in self {
            joined.push(item);
        }
    }
}

/// The bound is on the type of a row, since the checker doesn't cover calls of a function that
/// takes arrays of arrays by value and asks for a `Default` of the inner arrays.
impl<T: Default + Drop, I: Row<T> + Default + Drop, R: ArrayLength<I>, M: ArrayLength<T>> Flatten<
    T,
    GenericArray<T, M>,
> for GenericArray<I, R> {
    ghost row_items = { λ rows. map I.items rows };

    ghost output_items = { λ array. array };

    ghost WIDTH = { I.WIDTH };

    ghost IsArea = { (M.USIZE ≡ R.USIZE * I.WIDTH) × FitsInline M.USIZE };

    #[inline(always)]
    fn flatten(self) -> GenericArray<T, M> {
        let mut joined = ArrayBuilder::new();
        for row in self {
            row.move_into(&mut joined);
        }
        joined.finish()
    }
}

impl<
    T: Default + Drop,
    N: ArrayLength<T>,
    W: ArrayLength<T>,
    R: ArrayLength<GenericArray<T, W>>,
> Unflatten<T, GenericArray<GenericArray<T, W>, R>> for GenericArray<T, N>
where
    GenericArray<T, W>: Default,
{
    ghost items = { λ array. array };

    ghost output_rows = { λ rows. rows };

    ghost WIDTH = { W.USIZE };

    ghost IsArea = { (N.USIZE ≡ R.USIZE * W.USIZE) × (0 < W.USIZE) };

    #[inline(always)]
    fn unflatten(self) -> GenericArray<GenericArray<T, W>, R> {
        let mut items = self.into_iter();
        let mut rows = ArrayBuilder::new();
        for _row in 0..R::USIZE {
            rows.push(next_array(&mut items));
        }
        rows.finish()
    }
}

// The array of the first items that are left.
#[inline]
fn next_array<T: Default + Drop, N: ArrayLength<T>, M: ArrayLength<T>>(
    items: &mut GenericArrayIter<T, N>,
) -> GenericArray<T, M>
    requires fits { FitsInline M.USIZE }
    requires enough { M.USIZE ≤ length items.old }
    ensures first { result ≡ take M.USIZE items.old }
    ensures left { items.new ≡ drop M.USIZE items.old }
{
    let mut array = ArrayBuilder::new();
    array.take_from(items, M::USIZE);
    array.finish()
}

// Swaps the item at `index` with the last.
#[inline]
fn swap_to_end<T>(items: &mut [T], index: usize)
    requires { index < length items.old }
    ensures { (item : T) → items.new ≡ swap_remove items.old index item
        ++ slice_index_or items.old index item ∷ [] }
{
    let last = items.len() - 1;
    items.swap(index, last);
}
