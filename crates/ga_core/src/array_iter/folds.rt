//! Folds over the items that are left, from either end.
ghost use Rattle.ga_core.specs.Calls.{MayFold};
ghost use Rattle.ga_core.specs.Runs.{FoldRun};
ghost use Rattle.std.specs.Iterator.{ActsAsOnTwo};
ghost use Rattle.std.specs.Prelude.{◌≡◌, fold, reverse};

use crate::array_iter::GenericArrayIter;
use crate::items_left::{fold_remaining, rfold_remaining};
use crate::length::ArrayLength;

impl<T: Default + Drop, N: ArrayLength<T>> GenericArrayIter<T, N> {
    /// Folds the items that are left into one value, from the front, starting from `init`. One
    /// pass.
    pub fn fold<A, F: FnMut(A, T) -> A>(self, init: A, mut f: F) -> A
        requires callable { MayFold (λ item. item) F.pre F.step f init self }
        ensures run { (last : F) × FoldRun F.step f init self result last }
        ensures acts { (h : A → T → A) → ActsAsOnTwo F.FnMut f h → result ≡ fold h init self }
    {
        self.fold_by(init, &mut f)
    }

    /// `fold`: `f` is borrowed. One pass.
    pub fn fold_by<A, F: FnMut(A, T) -> A>(self, init: A, f: &mut F) -> A
        requires callable { MayFold (λ item. item) F.pre F.step f.old init self }
        ensures run { FoldRun F.step f.old init self result f.new }
        ensures acts { (h : A → T → A) → ActsAsOnTwo F.FnMut f.old h → result ≡ fold h init self }
    {
        fold_remaining(self, init, f)
    }

    /// `fold` from the back. One pass.
    pub fn rfold<A, F: FnMut(A, T) -> A>(self, init: A, mut f: F) -> A
        requires callable { MayFold (λ item. item) F.pre F.step f init (reverse self) }
        ensures run { (last : F) × FoldRun F.step f init (reverse self) result last }
        ensures acts { (h : A → T → A) → ActsAsOnTwo F.FnMut f h
            → result ≡ fold h init (reverse self) }
    {
        self.rfold_by(init, &mut f)
    }

    /// `rfold`: `f` is borrowed. One pass.
    pub fn rfold_by<A, F: FnMut(A, T) -> A>(self, init: A, f: &mut F) -> A
        requires callable { MayFold (λ item. item) F.pre F.step f.old init (reverse self) }
        ensures run { FoldRun F.step f.old init (reverse self) result f.new }
        ensures acts { (h : A → T → A) → ActsAsOnTwo F.FnMut f.old h
            → result ≡ fold h init (reverse self) }
    {
        rfold_remaining(self, init, f)
    }
}
