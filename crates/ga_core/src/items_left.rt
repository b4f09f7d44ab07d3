//! What is emptied from either end: the iterators by value of inline and boxed arrays.
ghost use Rattle.ga_core.specs.Calls.{MayFold};
ghost use Rattle.ga_core.specs.Cut.{StepGives, back, front};
ghost use Rattle.ga_core.specs.Runs.{FoldRun};
ghost use Rattle.std.specs.Borrow.{Array, Lends, sem};
ghost use Rattle.std.specs.Iterator.{ActsAsOnTwo};
ghost use Rattle.std.specs.List.{refill};
ghost use Rattle.std.specs.Prelude.{◌≡◌, List, fold, length, reverse};

use crate::blocks::BLOCK;
use std::mem;

/// An iterator by value whose items can be taken from both ends, seen and replaced:
/// `GenericArrayIter` and `BoxedArrayIter`. No call allocates.
pub trait TwoEnded<T> {
    // The items that are left, in order.
    ghost items: { Self → List T };

    /// Takes the first item, as `next` does.
    #[inline]
    fn front(&mut self) -> Option<T>
        ensures step { StepGives (front 0) (items self.old) result (items self.new) }
    {
        self.front_nth(0)
    }

    /// Takes the last item, as `next_back` does.
    #[inline]
    fn back(&mut self) -> Option<T>
        ensures step { StepGives (back 0) (items self.old) result (items self.new) }
    {
        self.back_nth(0)
    }

    /// Drops `n` items from the front, or as many as are left, and takes the next. O(n).
    fn front_nth(&mut self, n: usize) -> Option<T>
        ensures step { StepGives (front n) (items self.old) result (items self.new) };

    /// Drops `n` items from the back, or as many as are left, and takes the last of those before
    /// them. O(n).
    fn back_nth(&mut self, n: usize) -> Option<T>
        ensures step { StepGives (back n) (items self.old) result (items self.new) };

    /// All items that are left, in order.
    fn live(&self) -> &[T]
        ensures { result.now ≡ items self.now };

    // The iterator with these items written over those that are left.
    ghost left_with: { (left : Self) (written : List T) → (after : Self)
        × (items after ≡ refill (length (items left)) (items left) written) };

    /// All items that are left, in order, for writing.
    fn live_mut(&mut self) -> &mut [T]
        ensures* writes_back { sem 𝓛 (Lends Self.row (Array T.row 0)
            self.entry result (λ written. (left_with self.old written).0)) }
        ensures items { result.now ≡ items self.old };
}

/// Folds the items into one value, from the front, starting from `init`. One pass.
#[inline(always)]
pub fn fold_remaining<T, I: TwoEnded<T> + Drop, A, F: FnMut(A, T) -> A>(
    mut left: I,
    init: A,
    f: &mut F,
) -> A
    requires callable { MayFold (λ item. item) F.pre F.step f.old init (I.items left) }
    ensures run { FoldRun F.step f.old init (I.items left) result f.new }
    ensures acts { (h : A → T → A) → ActsAsOnTwo F.FnMut f.old h
        → result ≡ fold h init (I.items left) }
{
    let mut answer = init;
    while let Some(item) = left.front() {
        answer = f(answer, item);
        for _more in 1..BLOCK {
            match left.front() {
                Some(item) => answer = f(answer, item),
                None => return answer,
            }
        }
    }
    answer
}

/// `fold_remaining` from the back. One pass.
#[inline(always)]
pub fn rfold_remaining<T, I: TwoEnded<T> + Drop, A, F: FnMut(A, T) -> A>(
    mut left: I,
    init: A,
    f: &mut F,
) -> A
    requires callable { MayFold (λ item. item) F.pre F.step f.old init (reverse (I.items left)) }
    ensures run { FoldRun F.step f.old init (reverse (I.items left)) result f.new }
    ensures acts { (h : A → T → A) → ActsAsOnTwo F.FnMut f.old h
        → result ≡ fold h init (reverse (I.items left)) }
{
    // An iterator of more than 1 KiB goes one by one, which takes less from the back.
    let more = if mem::size_of_val(&left) > 1024 {
        0
    } else {
        BLOCK - 1
    };
    let mut answer = init;
    while let Some(item) = left.back() {
        answer = f(answer, item);
        for _more in 0..more {
            match left.back() {
                Some(item) => answer = f(answer, item),
                None => return answer,
            }
        }
    }
    answer
}
