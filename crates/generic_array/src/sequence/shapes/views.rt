//! The shapes of views and of references to arrays.
ghost use Rattle.ga_core.specs.Lends.{LendsBothParts};
ghost use Rattle.ga_core.specs.Parts.{LendsHalves};
ghost use Rattle.ga_core.specs.Views.{items_of_view};
ghost use Rattle.std.specs.Borrow.{sem};
ghost use Rattle.std.specs.Prelude.{◌≡◌, ◌+◌, drop, length, take};

use crate::sequence::shapes::Split;
use ga_core::{ArrayLength, GenericArray, GenericArrayMut, GenericArrayRef, Unsigned, ViewMut};

/// Two views of the slice's parts, for the lifetime of the slice. A view's length need not fit
/// inline. O(1).
impl<'a, T, N: Unsigned, K: Unsigned, M: Unsigned> Split<
    T,
    GenericArrayRef<'a, T, K>,
    GenericArrayRef<'a, T, M>,
> for GenericArrayRef<'a, T, N> {
    ghost items = { items_of_view };

    ghost first_items = { items_of_view };

    ghost second_items = { items_of_view };

    ghost PLACE = { K.USIZE };

    ghost IsSum = { N.USIZE ≡ K.USIZE + M.USIZE };

    #[inline]
    fn split(self) -> (GenericArrayRef<'a, T, K>, GenericArrayRef<'a, T, M>) {
        let (first, second) = self.into_slice().split_at(K::USIZE);
        (
            GenericArrayRef::from_slice(first),
            GenericArrayRef::from_slice(second),
        )
    }
}

/// Two views of the array's parts, for the lifetime of the borrow. O(1).
impl<'a, T, N: ArrayLength<T>, K: Unsigned, M: Unsigned> Split<
    T,
    GenericArrayRef<'a, T, K>,
    GenericArrayRef<'a, T, M>,
> for &'a GenericArray<T, N> {
    ghost items = { λ array. array.now };

    ghost first_items = { items_of_view };

    ghost second_items = { items_of_view };

    ghost PLACE = { K.USIZE };

    ghost IsSum = { N.USIZE ≡ K.USIZE + M.USIZE };

    #[inline]
    fn split(self) -> (GenericArrayRef<'a, T, K>, GenericArrayRef<'a, T, M>) {
        self.view().split()
    }
}

/// Two views of the slice's parts for writing, for the lifetime of the slice. What is written
/// through either is written to the slice, and to no other item. A view's length need not fit
/// inline. O(1).
///
/// The checker doesn't read `writes_back` for callers. Where a proof needs what the slice ends as,
/// cut the view's `as_mut_slice` and make a view of each part.
impl<'a, T, N: Unsigned, K: Unsigned, M: Unsigned> Split<
    T,
    GenericArrayMut<'a, T, K>,
    GenericArrayMut<'a, T, M>,
> for GenericArrayMut<'a, T, N> {
    ghost items = { λ view. view.slice.now };

    ghost first_items = { λ view. view.slice.now };

    ghost second_items = { λ view. view.slice.now };

    ghost PLACE = { K.USIZE };

    ghost IsSum = { N.USIZE ≡ K.USIZE + M.USIZE };

    #[inline]
    fn split(self) -> (GenericArrayMut<'a, T, K>, GenericArrayMut<'a, T, M>)
        requires { N.USIZE ≡ K.USIZE + M.USIZE }
        ensures* writes_back { sem 𝓛
            (LendsHalves T.row self.entry.slice result.0.slice result.1.slice) }
        ensures first { result.0.slice.now ≡ take K.USIZE self.entry.slice.now }
        ensures second { result.1.slice.now ≡ drop K.USIZE self.entry.slice.now }
    {
        let (first, second) = self.into_mut_slice().split_at_mut(K::USIZE);
        views_of(first, second)
    }
}

/// Two views of the array's parts for writing, for the lifetime of the borrow. What is written
/// through either is written to the array, and to no other item. O(1).
///
/// The checker doesn't read `writes_back` for callers. Where a proof needs what the array ends as,
/// cut the array's `as_mut_slice` and make a view of each part.
impl<'a, T, N: ArrayLength<T>, K: Unsigned, M: Unsigned> Split<
    T,
    GenericArrayMut<'a, T, K>,
    GenericArrayMut<'a, T, M>,
> for ViewMut<&'a mut GenericArray<T, N>, T, N> {
    ghost items = { λ view. view.slice.now };

    ghost first_items = { λ view. view.slice.now };

    ghost second_items = { λ view. view.slice.now };

    ghost PLACE = { K.USIZE };

    ghost IsSum = { N.USIZE ≡ K.USIZE + M.USIZE };

    #[inline]
    fn split(self) -> (GenericArrayMut<'a, T, K>, GenericArrayMut<'a, T, M>)
        requires { N.USIZE ≡ K.USIZE + M.USIZE }
        ensures* writes_back { sem 𝓛
            (LendsBothParts T.row self.entry.slice result.0.slice result.1.slice) }
        ensures first { result.0.slice.now ≡ take K.USIZE self.entry.slice.now }
        ensures second { result.1.slice.now ≡ drop K.USIZE self.entry.slice.now }
    {
        GenericArrayMut::<T, N>::from_mut_slice(self.slice.as_mut_slice()).split()
    }
}

// The views of two slices for writing.
#[inline]
fn views_of<'a, T, K: Unsigned, M: Unsigned>(
    first: &'a mut [T],
    second: &'a mut [T],
) -> (GenericArrayMut<'a, T, K>, GenericArrayMut<'a, T, M>)
    requires first_len { length first.old ≡ K.USIZE }
    requires second_len { length second.old ≡ M.USIZE }
    ensures first { result.0.slice ≡ first.entry }
    ensures second { result.1.slice ≡ second.entry }
{
    (
        GenericArrayMut::from_mut_slice(first),
        GenericArrayMut::from_mut_slice(second),
    )
}
