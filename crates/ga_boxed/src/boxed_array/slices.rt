//! A boxed array as a slice: the methods of slices, `array[index]`, ranges, and loops over
//! references.
ghost use Rattle.ga_core.specs.Iteration.{IteratesMutOver, IteratesOver};
ghost use Rattle.ga_core.specs.Lends.{LendsItems, LendsIter};
ghost use Rattle.std.specs.Borrow.{sem};
ghost use Rattle.std.specs.Prelude.{◌≡◌, length};

use crate::boxed_array::BoxedArray;
use ga_core::Unsigned;
use std::convert::AsSlice;
use std::ops::{DerefSlice, DerefSliceMut};
use std::slice;

impl<T, N: Unsigned> AsSlice<T> for BoxedArray<T, N> {
    ghost items = { λ array. array };

    #[inline]
    fn as_slice(&self) -> &[T] {
        BoxedArray::as_slice(self)
    }
}

/// The methods of slices, `array[index]`, `&array[1..]`, and `&array` where a slice is wanted.
impl<T, N: Unsigned> DerefSlice for BoxedArray<T, N> {
    type Elem = T;

    ghost deref_gives = { λ array items. (items ≡ array) × (length items ≡ N.USIZE) };

    #[inline]
    fn deref(&self) -> &[T] {
        BoxedArray::as_slice(self)
    }
}

impl<T, N: Unsigned> DerefSliceMut for BoxedArray<T, N> {
    #[inline]
    fn deref_mut(&mut self) -> &mut [T]
        ensures* writes_back { sem 𝓛 (LendsItems T.row self.entry result) }
        ensures items { result.now ≡ self.old }
        ensures len { length result.now ≡ N.USIZE }
    {
        self.as_mut_slice()
    }
}

/// The items by reference, in order.
impl<'a, T, N: Unsigned> IntoIterator for &'a BoxedArray<T, N> {
    type Item = &'a T;

    type IntoIter = slice::Iter<'a, T>;

    ghost into_iter_gives = { λ array iterator. IteratesOver array.now N.USIZE iterator };

    #[inline]
    fn into_iter(self) -> slice::Iter<'a, T> {
        self.as_slice().iter()
    }
}

/// The items by reference, in order, for writing.
impl<'a, T, N: Unsigned> IntoIterator for &'a mut BoxedArray<T, N> {
    type Item = &'a mut T;

    type IntoIter = slice::IterMut<'a, T>;

    ghost into_iter_gives = { λ array iterator. IteratesMutOver array.now N.USIZE iterator };

    #[inline]
    fn into_iter(self) -> slice::IterMut<'a, T>
        ensures* writes_back { sem 𝓛 (LendsIter T.row self.entry result) }
        ensures into_iter_gives { IteratesMutOver self.old N.USIZE result }
    {
        self.as_mut_slice().iter_mut()
    }
}
