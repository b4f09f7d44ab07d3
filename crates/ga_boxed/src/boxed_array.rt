//! The boxed array, and what can be borrowed of it.
ghost use Rattle.ga_core.specs.Lends.{LendsItems, LendsIter};
ghost use Rattle.ga_core.specs.Views.{items_of_view};
ghost use Rattle.ga_core.specs.Iteration.{IteratesMutOver, IteratesOver};
ghost use Rattle.std.specs.Borrow.{sem};
ghost use Rattle.std.specs.Iterator.{YieldsFirst, YieldsLast};
ghost use Rattle.std.specs.Iterator.Runs.{YieldsInOrder, YieldsInReverse};
ghost use Rattle.std.specs.Prelude.{◌≡◌, length};

mod builds;
mod conversions;
mod copies;
mod functional;
mod slices;

use crate::boxed_array_iter::BoxedArrayIter;
use crate::live_block::LiveBlock;
use ga_core::{GenericArrayRef, Unsigned};
use std::marker::{Model, PhantomData};
use std::slice;

/// An array of exactly `N` items of `T`, in one block of memory. Contracts see it as the list of
/// its items.
///
/// The counterpart of `Box<GenericArray<T, N>>`. The items need no `Default`, and the length has
/// no bound of its own.
#[derive(Drop)]
pub struct BoxedArray<T, N: Unsigned> {
    items: LiveBlock<T>,
    of: PhantomData<N>,
}

impl<T, N: Unsigned> Model for BoxedArray<T, N> {
    ghost use Rattle.std.specs.Prelude.{◌≡◌, List, length};

    ghost Value = { List T };

    ghost view = { λ array. array.items.items };

    ghost invariant = { λ array. length array.items.items ≡ N.USIZE };
}

impl<T, N: Unsigned> BoxedArray<T, N> {
    // The array of the items of a block. Moves none of them.
    #[inline]
    pub(crate) fn from_block(block: LiveBlock<T>) -> Self
        requires len { length block.items ≡ N.USIZE }
        ensures { result ≡ block.items }
    {
        BoxedArray {
            items: block,
            of: PhantomData,
        }
    }

    /// All items, in order. O(1).
    #[inline]
    pub fn as_slice(&self) -> &[T]
        ensures items { result.now ≡ self.now }
        ensures len { length result.now ≡ N.USIZE }
    {
        self.items.all(N::USIZE)
    }

    /// All items, in order, for writing. O(1).
    #[inline]
    pub fn as_mut_slice(&mut self) -> &mut [T]
        ensures* writes_back { sem 𝓛 (LendsItems T.row self.entry result) }
        ensures items { result.now ≡ self.old }
        ensures len { length result.now ≡ N.USIZE }
    {
        self.items.all_mut(N::USIZE)
    }

    /// The number of items, which is `N`. O(1).
    #[inline]
    pub fn len(&self) -> usize
        ensures { result ≡ N.USIZE }
    {
        N::USIZE
    }

    /// The items by reference, in order.
    #[inline]
    pub fn iter(&self) -> slice::Iter<'_, T>
        ensures { IteratesOver self.now N.USIZE result }
    {
        self.as_slice().iter()
    }

    /// The items by reference, in order, for writing.
    #[inline]
    pub fn iter_mut(&mut self) -> slice::IterMut<'_, T>
        ensures* writes_back { sem 𝓛 (LendsIter T.row self.entry result) }
        ensures items { IteratesMutOver self.old N.USIZE result }
    {
        self.as_mut_slice().iter_mut()
    }

    /// The read-only view of the items. O(1).
    #[inline]
    pub fn view(&self) -> GenericArrayRef<'_, T, N>
        ensures { items_of_view result ≡ self.now }
    {
        GenericArrayRef::from_slice(self.as_slice())
    }
}

/// The items by value, from either end. Moves the block, but no item, and allocates nothing.
impl<T: Drop, N: Unsigned> IntoIterator for BoxedArray<T, N> {
    type Item = T;

    type IntoIter = BoxedArrayIter<T>;

    ghost into_iter_gives = { λ array items. (items ≡ array)
        × YieldsInOrder (YieldsFirst {A = T} (λ left. left)) (λ left. left)
        × YieldsInReverse (YieldsLast {A = T} (λ left. left)) (λ left. left)
        × (length array ≡ N.USIZE) };

    #[inline]
    fn into_iter(self) -> BoxedArrayIter<T> {
        let BoxedArray { items, of: _ } = self;
        BoxedArrayIter::from_block(items.with_len(N::USIZE))
    }
}
