//! The read-only view of a slice.
ghost use Rattle.ga_views.specs.Calls.{MayFold};
ghost use Rattle.ga_views.specs.Entries.{ActsInFold, FoldAt};
ghost use Rattle.ga_views.specs.Iteration.{IteratesOver};
ghost use Rattle.ga_views.specs.Runs.{FoldRun};
ghost use Rattle.std.specs.Option.{option_copied};
ghost use Rattle.std.specs.Prelude.{◌≡◌, ◌<◌, ◌↔◌, IfOk, IsOk, IsSome, fold, length, slice_get, ⊤};

use crate::{LengthError, Unsigned};
use std::alloc::AllocError;
use std::convert::AsSlice;
use std::marker::PhantomData;
use std::ops::DerefSlice;
use std::slice;

// How many items a fold takes at once.
const BLOCK: usize = 8;

/// A view of exactly `N` items of a slice. Copying it copies no item.
///
/// The counterpart of `&GenericArray<T, N>` made of a slice. The length has no bound.
pub struct GenericArrayRef<'a, T, N: Unsigned> {
    slice: &'a [T],
    of: PhantomData<N>,
    ghost full: { length slice.now ≡ N.USIZE },
}

impl<'a, T, N: Unsigned> Clone for GenericArrayRef<'a, T, N> {
    ghost is_clone = { λ view copy. copy ≡ view };

    ghost is_infallible = { λ _. ⊤ };

    fn clone(&self) -> Result<Self, AllocError> {
        Ok(*self)
    }
}

impl<'a, T, N: Unsigned> Copy for GenericArrayRef<'a, T, N> {}

impl<'a, T, N: Unsigned> GenericArrayRef<'a, T, N> {
    ghost use Rattle.ga_views.specs.Views.{items_of_view};

    /// The view of a slice of `N` items. The counterpart of `GenericArray::from_slice`, which
    /// panics where the length is another.
    #[inline]
    pub fn from_slice(slice: &'a [T]) -> Self
        requires len { length slice.now ≡ N.USIZE }
        ensures { items_of_view result ≡ slice.now }
    {
        GenericArrayRef {
            slice,
            of: PhantomData,
        }
    }

    /// The view of a slice, or `LengthError` where it doesn't have `N` items.
    #[inline]
    pub fn try_from_slice(slice: &'a [T]) -> Result<Self, LengthError>
        ensures variant { IsOk result ↔ (length slice.now ≡ N.USIZE) }
        ensures ok { IfOk result (λ view. items_of_view view ≡ slice.now) }
    {
        if slice.len() == N::USIZE {
            Ok(Self::from_slice(slice))
        } else {
            Err(LengthError)
        }
    }

    /// All items, in order.
    #[inline]
    #[tactic(auto, using(std::proofs::lemmas::List::take_all))]
    pub fn as_slice(&self) -> &[T]
        ensures items { result.now ≡ items_of_view self.now }
        ensures len { length result.now ≡ N.USIZE }
    {
        // That there are `N` items is known at compile time, and so it is written.
        &self.slice[..N::USIZE]
    }

    /// All items, in order, for the whole borrow that the view was made of.
    #[inline]
    #[tactic(auto, using(std::proofs::lemmas::List::take_all))]
    pub fn into_slice(self) -> &'a [T]
        ensures items { result.now ≡ items_of_view self.entry }
        ensures len { length result.now ≡ N.USIZE }
    {
        let GenericArrayRef { slice, of: _ } = self;
        &slice[..N::USIZE]
    }

    /// The item at `index`, or `None` where `index` isn't below `N`.
    #[inline]
    #[tactic(auto, using(crate::proofs::GetLemmas::got))]
    pub fn get(&self, index: usize) -> Option<&T>
        ensures variant { IsSome result ↔ (index < N.USIZE) }
        ensures item { option_copied result ≡ slice_get (items_of_view self.now) index }
    {
        self.as_slice().get(index)
    }

    /// The number of items, which is `N`.
    #[inline]
    pub fn len(&self) -> usize
        ensures { result ≡ N.USIZE }
    {
        N::USIZE
    }

    /// The items by reference, in order.
    #[inline]
    pub fn iter(&self) -> slice::Iter<'_, T>
        ensures { IteratesOver (items_of_view self.now) N.USIZE result }
    {
        self.as_slice().iter()
    }

    /// Folds the items into one value, in order, starting from `init`. One call of `f` for each.
    ///
    /// The counterpart of `fold` of `&GenericArray<T, N>`, at any length. `f` can't keep a
    /// reference to an item: `into_iter().fold` takes a closure that does.
    #[inline]
    pub fn fold<A, F: FnMut(A, &T) -> A>(self, init: A, mut f: F) -> A
        requires callable { MayFold (λ item. item.now) F.pre F.step f init (items_of_view self) }
        ensures run { (last : F)
            × FoldRun (FoldAt (λ item. item.now) F.step) f init (items_of_view self.entry)
            result last }
        ensures acts { (h : A → T → A) → ActsInFold (λ item. item.now) F.step f h
            → result ≡ fold h init (items_of_view self.entry) }
    {
        self.fold_by(init, &mut f)
    }

    /// `fold` that borrows the closure, which can be used again in the state that it reached.
    #[inline]
    pub fn fold_by<A, F: FnMut(A, &T) -> A>(self, init: A, f: &mut F) -> A
        requires callable { MayFold (λ item. item.now) F.pre F.step f.old init
            (items_of_view self) }
        ensures run { FoldRun (FoldAt (λ item. item.now) F.step) f.old init
            (items_of_view self.entry)
            result f.new }
        ensures acts { (h : A → T → A) → ActsInFold (λ item. item.now) F.step f.old h
            → result ≡ fold h init (items_of_view self.entry) }
    {
        let mut answer = init;
        let mut left = self.as_slice();
        while left.len() >= BLOCK {
            let (block, behind) = left.split_at(BLOCK);
            answer = fold_items(block, answer, f);
            left = behind;
        }
        fold_items(left, answer, f)
    }
}

// Folds the items of a slice, in order. Of a whole block their number is known, so that the
// compiler unrolls the loop.
#[inline(always)]
fn fold_items<T, A, F: FnMut(A, &T) -> A>(items: &[T], init: A, f: &mut F) -> A
    requires { MayFold (λ item. item.now) F.pre F.step f.old init items.now }
    ensures { FoldRun (FoldAt (λ item. item.now) F.step) f.old init items.now result f.new }
{
    let mut answer = init;
    for item in items {
        answer = f(answer, item);
    }
    answer
}

/// The methods of slices, and `view[index]`.
impl<'a, T, N: Unsigned> DerefSlice for GenericArrayRef<'a, T, N> {
    ghost use Rattle.ga_views.specs.Views.{items_of_view};

    type Elem = T;

    ghost deref_gives = { λ view items. (items ≡ items_of_view view) × (length items ≡ N.USIZE) };

    #[inline]
    fn deref(&self) -> &[T] {
        GenericArrayRef::as_slice(self)
    }
}

/// See `try_from_slice`.
impl<'a, T, N: Unsigned> TryFrom<&'a [T]> for GenericArrayRef<'a, T, N> {
    ghost use Rattle.ga_views.specs.Views.{items_of_view};

    type Error = LengthError;

    ghost try_from_gives = { λ slice made. (IsOk made ↔ (length slice.now ≡ N.USIZE))
        × IfOk made (λ view. items_of_view view ≡ slice.now) };

    #[inline]
    fn try_from(slice: &'a [T]) -> Result<Self, LengthError> {
        Self::try_from_slice(slice)
    }
}

impl<'a, T, N: Unsigned> AsSlice<T> for GenericArrayRef<'a, T, N> {
    ghost use Rattle.ga_views.specs.Views.{items_of_view};

    ghost items = { items_of_view };

    #[inline]
    fn as_slice(&self) -> &[T] {
        GenericArrayRef::as_slice(self)
    }
}

impl<'a, T, N: Unsigned> IntoIterator for GenericArrayRef<'a, T, N> {
    ghost use Rattle.ga_views.specs.Views.{items_of_view};
    ghost use Rattle.ga_views.specs.Iteration.{IteratesOver};

    type Item = &'a T;

    type IntoIter = slice::Iter<'a, T>;

    ghost into_iter_gives = { λ view iterator. IteratesOver (items_of_view view) N.USIZE iterator };

    #[inline]
    fn into_iter(self) -> slice::Iter<'a, T> {
        self.into_slice().iter()
    }
}
