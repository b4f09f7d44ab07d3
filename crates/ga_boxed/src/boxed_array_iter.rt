//! The iterator that moves the items out of a boxed array, from both ends.
ghost use Rattle.ga_core.specs.Copies.{IsExact};
ghost use Rattle.ga_core.specs.Cut.{StepGives, back, front};
ghost use Rattle.ga_core.specs.Calls.{MayFold};
ghost use Rattle.ga_core.specs.Lends.{LendsItems};
ghost use Rattle.ga_core.specs.Runs.{FoldRun};
ghost use Rattle.std.specs.Borrow.{sem};
ghost use Rattle.std.specs.Iterator.{ActsAsOnTwo, YieldsFirst, YieldsLast, item_count};
ghost use Rattle.std.specs.List.{All, AllZip, refill};
ghost use Rattle.std.specs.Prelude.{◌≡◌, ◌-◌, IfOk, IsOk, fold, length, refl, reverse, slice_get};

use crate::live_block::LiveBlock;
use ga_core::AllocError;
use ga_core::items_left::{TwoEnded, fold_remaining, rfold_remaining};
use std::alloc;
use std::marker::Model;

/// The items of a boxed array by value, from both ends. Contracts see it as the list of the items
/// that are left.
#[derive(Drop)]
pub struct BoxedArrayIter<T> {
    items: LiveBlock<T>,
}

impl<T> Model for BoxedArrayIter<T> {
    ghost use Rattle.std.specs.Prelude.{List};

    ghost Value = { List T };

    ghost view = { λ left. left.items.items };
}

impl<T> BoxedArrayIter<T> {
    // The iterator over items. Moves none of them.
    #[inline]
    pub(crate) fn from_block(items: LiveBlock<T>) -> Self
        ensures { result ≡ items.items }
    {
        BoxedArrayIter { items }
    }

    /// The number of items that are left. O(1).
    #[inline]
    pub fn len(&self) -> usize
        ensures { result ≡ length self.now }
    {
        self.items.len()
    }

    /// The items that are left, in order. O(1).
    #[inline]
    pub fn as_slice(&self) -> &[T]
        ensures { result.now ≡ self.now }
    {
        self.items.as_slice()
    }

    /// The items that are left, in order, for writing. O(1).
    #[inline]
    pub fn as_mut_slice(&mut self) -> &mut [T]
        ensures* writes_back { sem 𝓛 (LendsItems T.row self.entry result) }
        ensures items { result.now ≡ self.old }
    {
        self.items.as_mut_slice()
    }

    /// The number of items that are left, twice: they are no fewer and no more.
    #[inline]
    pub fn size_hint(&self) -> (usize, Option<usize>)
        ensures { result ≡ (length self.now, Some (length self.now)) }
    {
        let len = self.len();
        (len, Some(len))
    }
}

impl<T: Drop> Iterator for BoxedArrayIter<T> {
    type Item = T;

    ghost next_gives = { YieldsFirst (λ left. left) };

    ghost remaining = { item_count (λ left. left) };

    /// Takes the first item that is left. O(1).
    #[inline]
    fn next(&mut self) -> Option<T> {
        self.items.take_front()
    }

    // The type has its own, as it has `len` and `count`: so no trait has to be in scope.
    #[inline]
    fn size_hint(&self) -> (usize, Option<usize>)
        ensures { result ≡ (length self.now, Some (length self.now)) }
    {
        BoxedArrayIter::size_hint(self)
    }
}

impl<T: Drop> DoubleEndedIterator for BoxedArrayIter<T> {
    ghost next_back_gives = { YieldsLast (λ left. left) };

    /// Takes the last item that is left. O(1).
    #[inline]
    fn next_back(&mut self) -> Option<T> {
        self.items.take_back()
    }
}

impl<T: Drop> TwoEnded<T> for BoxedArrayIter<T> {
    ghost items = { λ left. left };

    #[inline]
    fn front(&mut self) -> Option<T> {
        self.next()
    }

    #[inline]
    fn back(&mut self) -> Option<T> {
        self.next_back()
    }

    fn front_nth(&mut self, n: usize) -> Option<T> {
        BoxedArrayIter::nth(self, n)
    }

    fn back_nth(&mut self, n: usize) -> Option<T> {
        BoxedArrayIter::nth_back(self, n)
    }

    #[inline]
    fn live(&self) -> &[T] {
        self.as_slice()
    }

    ghost left_with = { λ left written. (refill (length left) left written, refl) };

    #[inline]
    fn live_mut(&mut self) -> &mut [T] {
        self.as_mut_slice()
    }
}

impl<T: Drop> BoxedArrayIter<T> {
    /// Drops `n` items and returns the next one. If at most `n` items are left, drops them all and
    /// returns `None`. O(n).
    pub fn nth(&mut self, n: usize) -> Option<T>
        ensures step { StepGives (front n) self.old result self.new }
    {
        for _passed in 0..n {
            let _ = self.items.take_front()?;
        }
        self.items.take_front()
    }

    /// Drops `n` items from the back, the last first, and returns the one before them. If at most
    /// `n` items are left, drops them all and returns `None`. O(n).
    pub fn nth_back(&mut self, n: usize) -> Option<T>
        ensures step { StepGives (back n) self.old result self.new }
    {
        for _passed_back in 0..n {
            let _ = self.items.take_back()?;
        }
        self.items.take_back()
    }

    /// The last item that is left. Drops the others, in O(n).
    pub fn last(mut self) -> Option<T>
        ensures { result ≡ slice_get self (length self - 1) }
    {
        self.next_back()
    }

    /// The number of items that are left. Drops them, in O(n).
    pub fn count(self) -> usize
        ensures { result ≡ length self }
    {
        self.len()
    }

    /// Folds the items that are left into one value, from the front, starting from `init`. One
    /// pass.
    pub fn fold<A, F: FnMut(A, T) -> A>(self, init: A, mut f: F) -> A
        requires callable { MayFold (λ item. item) F.pre F.step f init self }
        ensures run { (last : F) × FoldRun F.step f init self result last }
        ensures acts { (h : A → T → A) → ActsAsOnTwo F.FnMut f h → result ≡ fold h init self }
    {
        self.fold_by(init, &mut f)
    }

    /// `fold`: `f` is borrowed. One pass.
    pub fn fold_by<A, F: FnMut(A, T) -> A>(self, init: A, f: &mut F) -> A
        requires callable { MayFold (λ item. item) F.pre F.step f.old init self }
        ensures run { FoldRun F.step f.old init self result f.new }
        ensures acts { (h : A → T → A) → ActsAsOnTwo F.FnMut f.old h → result ≡ fold h init self }
    {
        fold_remaining(self, init, f)
    }

    /// `fold` from the back. One pass.
    pub fn rfold<A, F: FnMut(A, T) -> A>(self, init: A, mut f: F) -> A
        requires callable { MayFold (λ item. item) F.pre F.step f init (reverse self) }
        ensures run { (last : F) × FoldRun F.step f init (reverse self) result last }
        ensures acts { (h : A → T → A) → ActsAsOnTwo F.FnMut f h
            → result ≡ fold h init (reverse self) }
    {
        self.rfold_by(init, &mut f)
    }

    /// `rfold`: `f` is borrowed. One pass.
    pub fn rfold_by<A, F: FnMut(A, T) -> A>(self, init: A, f: &mut F) -> A
        requires callable { MayFold (λ item. item) F.pre F.step f.old init (reverse self) }
        ensures run { FoldRun F.step f.old init (reverse self) result f.new }
        ensures acts { (h : A → T → A) → ActsAsOnTwo F.FnMut f.old h
            → result ≡ fold h init (reverse self) }
    {
        rfold_remaining(self, init, f)
    }
}

impl<T: Clone> BoxedArrayIter<T> {
    /// An iterator over clones of the items that are left, made in order, in a block of their
    /// number.
    ///
    /// Allocates the block first, and none if no item is left. If a clone fails, drops those made
    /// before it and returns the error.
    pub fn clone(&self) -> Result<Self, AllocError>
        ensures items { IfOk result (λ copy. AllZip T.is_clone self.now copy) }
        ensures same { All (IsExact T.is_clone) self.now → IfOk result (λ copy. copy ≡ self.now) }
        ensures empty { length self.now ≡ 0 → IsOk result }
    {
        let mut clones = LiveBlock::new(self.items.allocator(), self.len())?;
        for item in self.as_slice() {
            clones.put(item.clone()?);
        }
        Ok(BoxedArrayIter::from_block(clones))
    }
}

impl<T: Clone> Clone for BoxedArrayIter<T> {
    ghost is_clone = { λ left copy. AllZip T.is_clone left copy };

    ghost is_infallible = { λ left. length left ≡ 0 };

    fn clone(&self) -> Result<Self, alloc::AllocError> {
        match BoxedArrayIter::clone(self) {
            Ok(copy) => Ok(copy),
            Err(_) => Err(alloc::AllocError),
        }
    }
}
