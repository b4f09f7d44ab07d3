//! The iterator that moves the items out of an array, from both ends.
ghost use Rattle.ga_core.specs.Lends.{LendsItems};
ghost use Rattle.ga_views.specs.Length.{FitsInline};
ghost use Rattle.std.specs.Borrow.{sem};
ghost use Rattle.std.specs.Fmt.{◌++?◌, debug_list};
ghost use Rattle.std.specs.Iterator.{YieldsFirst, YieldsLast, item_count};
ghost use Rattle.std.specs.List.{refill};
ghost use Rattle.std.specs.Prelude.{◌≡◌, ◌<◌, ◌≤◌, [], ◌∷◌, ◌++◌, Some, codes, drop, length, refl, take};

mod copies;
mod folds;
mod steps;

use crate::items_left::TwoEnded;
use crate::length::ArrayLength;
use crate::slots::{is_exchange_cheaper, move_as_one, move_items};
use crate::store::{Store, take_at};
use std::fmt;
use std::marker::{Model, PhantomData};

/// The items of an array by value, from both ends. Contracts see it as the list of the items that
/// are left.
///
/// The counterpart of `GenericArrayIter`.
#[derive(Drop)]
pub struct GenericArrayIter<T, N: ArrayLength<T>> {
    // The items that are left lie from `front` up to `back`; the other slots hold the defaults of
    // items that were taken. The two numbers stand before the store, which lets the compiler see
    // that a write to a slot leaves them.
    front: usize,
    back: usize,
    store: N::ArrayType,
    of: PhantomData<T>,
}

impl<T, N: ArrayLength<T>> Model for GenericArrayIter<T, N> {
    ghost use Rattle.std.specs.Prelude.{◌≡◌, ◌≤◌, List, length, slice_range};
    ghost use Rattle.ga_views.specs.Length.{FitsInline};

    ghost Value = { List T };

    ghost view = { λ items. slice_range (N.ArrayType.items items.store) items.front items.back };

    ghost invariant = { λ items. (items.front ≤ items.back)
        × (items.back ≤ length (N.ArrayType.items items.store))
        × (length (N.ArrayType.items items.store) ≡ N.USIZE) × FitsInline N.USIZE };
}

impl<T, N: ArrayLength<T>> GenericArrayIter<T, N> {
    // The iterator over the first `count` items of a full store.
    #[inline]
    pub(crate) fn from_store(store: N::ArrayType, count: usize) -> Self
        requires count { count ≤ N.USIZE }
        requires full { length (N.ArrayType.items store) ≡ N.USIZE }
        requires fits { FitsInline N.USIZE }
        ensures { result ≡ take count (N.ArrayType.items store) }
    {
        GenericArrayIter {
            front: 0,
            back: count,
            store,
            of: PhantomData,
        }
    }

    /// The number of items that are left. O(1).
    #[inline]
    pub fn len(&self) -> usize
        ensures { result ≡ length self.now }
    {
        self.back - self.front
    }

    /// The items that are left, in order. O(1).
    #[inline]
    pub fn as_slice(&self) -> &[T]
        ensures items { result.now ≡ self.now }
        ensures bound { length result.now ≤ N.USIZE }
        ensures fits { FitsInline N.USIZE }
    {
        &self.store.as_slice()[self.front..self.back]
    }

    /// The number of items that are left, twice: they are no fewer and no more.
    #[inline]
    pub fn size_hint(&self) -> (usize, Option<usize>)
        ensures { result ≡ (length self.now, Some (length self.now)) }
    {
        let len = self.len();
        (len, Some(len))
    }
}

impl<T: Default + Drop, N: ArrayLength<T>> Iterator for GenericArrayIter<T, N> {
    type Item = T;

    ghost next_gives = { YieldsFirst (λ left. left) };

    ghost remaining = { item_count (λ left. left) };

    /// Takes the first item that is left. O(1).
    #[inline]
    fn next(&mut self) -> Option<T> {
        if self.front >= self.back {
            return None;
        }
        Some(self.take_first())
    }

    // The type has its own, as it has `len` and `count`: so no trait has to be in scope.
    #[inline]
    fn size_hint(&self) -> (usize, Option<usize>)
        ensures { result ≡ (length self.now, Some (length self.now)) }
    {
        GenericArrayIter::size_hint(self)
    }
}

impl<T: Default + Drop, N: ArrayLength<T>> DoubleEndedIterator for GenericArrayIter<T, N> {
    ghost next_back_gives = { YieldsLast (λ left. left) };

    /// Takes the last item that is left. O(1).
    #[inline]
    fn next_back(&mut self) -> Option<T> {
        if self.front >= self.back {
            return None;
        }
        Some(self.take_last())
    }
}

impl<T: Default + Drop, N: ArrayLength<T>> TwoEnded<T> for GenericArrayIter<T, N> {
    ghost items = { λ left. left };

    #[inline]
    fn front(&mut self) -> Option<T> {
        self.next()
    }

    #[inline]
    fn back(&mut self) -> Option<T> {
        self.next_back()
    }

    fn front_nth(&mut self, n: usize) -> Option<T> {
        GenericArrayIter::nth(self, n)
    }

    fn back_nth(&mut self, n: usize) -> Option<T> {
        GenericArrayIter::nth_back(self, n)
    }

    #[inline]
    fn live(&self) -> &[T] {
        self.as_slice()
    }

    ghost left_with = { λ left written. (refill (length left) left written, refl) };

    #[inline]
    fn live_mut(&mut self) -> &mut [T] {
        self.as_mut_slice()
    }
}

impl<T: Default + Drop, N: ArrayLength<T>> GenericArrayIter<T, N> {
    // Takes the first item that is left. There is one.
    #[inline]
    fn take_first(&mut self) -> T
        requires enough { 0 < length self.old }
        ensures { self.old ≡ result ∷ self.new }
    {
        let first = self.front;
        self.front = first + 1;
        take_at(&mut self.store, first)
    }

    // Takes the last item that is left. There is one.
    #[inline]
    fn take_last(&mut self) -> T
        requires enough { 0 < length self.old }
        ensures { self.old ≡ self.new ++ result ∷ [] }
    {
        let last = self.back - 1;
        self.back = last;
        take_at(&mut self.store, last)
    }

    // `move_to` slots of a store `S`, which has `room` for items: in one piece where they are all
    // of `S` and long, or all of the iterator's store.
    #[inline(always)]
    pub(crate) fn exchange_or_move<S: Store<T>>(&mut self, slots: &mut [T], room: usize)
        requires room { room ≡ S.CAPACITY }
        requires enough { length slots.old ≤ length self.old }
        ensures moved { slots.new ≡ take (length slots.old) self.old }
        ensures left { self.new ≡ drop (length slots.old) self.old }
    {
        let count = slots.len();
        if count == room && is_exchange_cheaper(slots) {
            self.exchange::<S>(slots);
        } else if count == N::USIZE && move_as_one(slots) {
            self.exchange::<N::ArrayType>(slots);
        } else {
            self.move_to(slots);
        }
    }

    // `move_to` slots for as many items as the store `S` has room for, which leaves what they held.
    #[inline(always)]
    fn exchange<S: Store<T>>(&mut self, slots: &mut [T])
        requires all { length slots.old ≡ S.CAPACITY }
        requires enough { length slots.old ≤ length self.old }
        ensures moved { slots.new ≡ take (length slots.old) self.old }
        ensures left { self.new ≡ drop (length slots.old) self.old }
    {
        let (first, count) = (self.front, slots.len());
        S::swap_slices(self.store.part_mut(first, count), slots);
        self.front += count;
    }

    /// Moves items from the front into `slots`, one for each slot, in one pass. Drops what the
    /// slots held. Requires that so many items are left.
    ///
    /// The Rust crate has no counterpart: there a loop over `next` writes them.
    #[inline(always)]
    pub fn move_to(&mut self, slots: &mut [T])
        requires enough { length slots.old ≤ length self.old }
        ensures moved { slots.new ≡ take (length slots.old) self.old }
        ensures left { self.new ≡ drop (length slots.old) self.old }
    {
        let (first, count) = (self.front, slots.len());
        move_items(self.store.part_mut(first, count), slots);
        self.front = first + count;
    }
}

impl<T, N: ArrayLength<T>> GenericArrayIter<T, N> {
    /// The items that are left, in order, for writing. O(1).
    #[inline]
    pub fn as_mut_slice(&mut self) -> &mut [T]
        ensures* writes_back { sem 𝓛 (LendsItems T.row self.entry result) }
        ensures items { result.now ≡ self.old }
    {
        let (front, len) = (self.front, self.back - self.front);
        self.store.part_mut(front, len)
    }
}

impl<T: fmt::Debug, N: ArrayLength<T>> fmt::Debug for GenericArrayIter<T, N> {
    ghost debug_output = { λ left. Some (codes "GenericArrayIter(")
        ++? debug_list T.debug_output left ++? Some (codes ")") };

    fn fmt<W: fmt::Write>(&self, f: &mut fmt::Formatter<W>) -> fmt::Result {
        // No clause of std says what `debug_tuple` writes, so only the text of `{:#?}` is left to it.
        if f.alternate() {
            return f
                .debug_tuple("GenericArrayIter")
                .field(&self.as_slice())
                .finish();
        }
        f.write_str("GenericArrayIter(")?;
        fmt::Debug::fmt(self.as_slice(), f)?;
        f.write_str(")")
    }
}
