//! Steps over several items, and the last item and the number of those that are left.
ghost use Rattle.ga_core.specs.Cut.{StepGives, back, front};
ghost use Rattle.std.specs.Prelude.{◌≡◌, ◌-◌, ◌<◌, ◌≤◌, [], ◌∷◌, drop, length, slice_get, take};

use crate::array_iter::GenericArrayIter;
use crate::length::ArrayLength;
use crate::slots::{take_last_slot, write_defaults_back};
use crate::store::Store;
use ga_views::MAX_INLINE;

impl<T: Default + Drop, N: ArrayLength<T>> GenericArrayIter<T, N> {
    /// Drops `n` items and returns the next one. If at most `n` items are left, drops them all and
    /// returns `None`. O(n).
    #[inline]
    pub fn nth(&mut self, n: usize) -> Option<T>
        ensures step { StepGives (front n) self.old result self.new }
    {
        if n < self.len() {
            Some(self.take_behind(n))
        } else {
            self.drop_left();
            None
        }
    }

    /// Drops `n` items from the back, the last first, and returns the one before them. If at most
    /// `n` items are left, drops them all and returns `None`. O(n).
    #[inline]
    pub fn nth_back(&mut self, n: usize) -> Option<T>
        ensures step { StepGives (back n) self.old result self.new }
    {
        if n < self.len() {
            self.pass_back(n);
            Some(self.take_last())
        } else {
            let left = self.len();
            self.pass_back(left);
            None
        }
    }

    /// The number of items that are left. Drops all `N` slots.
    pub fn count(self) -> usize
        ensures { result ≡ length self }
    {
        self.len()
    }

    /// The last item that is left. Drops all `N` slots.
    pub fn last(mut self) -> Option<T>
        ensures { result ≡ slice_get self (length self - 1) }
    {
        self.next_back()
    }

    // Drops all items that are left, in order. Never inlined, so that the compiler unrolls a caller's
    // loop over `nth`.
    #[inline(never)]
    fn drop_left(&mut self)
        ensures { self.new ≡ [] }
    {
        for _item in 0..self.len() {
            let _ = self.take_first();
        }
    }

    // Drops the first `passed` items, in order, and takes the next. There is one.
    #[inline]
    fn take_behind(&mut self, passed: usize) -> T
        requires enough { passed < length self.old }
        ensures { drop passed self.old ≡ result ∷ self.new }
    {
        // The remainder is the slot itself: see `take_at`.
        let first = self.front % MAX_INLINE;
        self.front += passed + 1;
        take_last_slot(self.store.part_mut(first, passed + 1))
    }

    // Drops the last `passed` items, the last first.
    #[inline]
    fn pass_back(&mut self, passed: usize)
        requires in_bounds { passed ≤ length self.old }
        ensures { self.new ≡ take (length self.old - passed) self.old }
    {
        // With none to pass, `back` may lie behind the last slot.
        if passed > 0 {
            let first = self.back - passed;
            self.back = first;
            write_defaults_back(self.store.part_mut(first % MAX_INLINE, passed));
        }
    }
}
