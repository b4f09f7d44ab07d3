//! What is common to the kinds of sequences, and how each is made.
ghost use Rattle.ga_core.specs.Views.{items_of_view};
ghost use Rattle.ga_boxed.specs.Placed.{IfPlaced, IsPlaced};
ghost use Rattle.ga_core.specs.Calls.{MayGenerate, MayTryGenerate};
ghost use Rattle.ga_core.specs.Copies.{IsExact, Repeats};
ghost use Rattle.ga_core.specs.Fill.{FillFalliblyRuns, FillsFallibly};
ghost use Rattle.ga_core.specs.Runs.{ClosureRun, TryClosureRun};
ghost use Rattle.ga_core.specs.Tries.{try_map};
ghost use Rattle.generic_array.specs.Built.{built_items};
ghost use Rattle.generic_array.specs.GivenEntries.{GivesEntriesOf};
ghost use Rattle.std.specs.Iterator.{ActsAs};
ghost use Rattle.std.specs.List.{range_with_len};
ghost use Rattle.std.specs.Prelude.{◌≡◌, ℕ, ◌≤◌, ◌↔◌, IfOk, IsOk, IsTrue, OnErr, Result, length, map, replicate};

mod boxed;
mod flat_iter;
mod inline;
mod references;
mod shapes;
mod views;

pub use flat_iter::{FlatIter, iter_flat};
use ga_core::{AllocError, FillError, GenericArrayRef, Unsigned};
pub use shapes::{Concat, Flatten, Lengthen, Remove, Shorten, Split, Unflatten};
use std::convert::AsSlice;

/// An entry of a sequence: an item of its `into_iter`.
pub type SequenceItem<S> = <S as IntoIterator>::Item;

/// A sequence whose length is a type: an inline array, a reference to one, a read-only view or a
/// boxed array. Contracts see the list of its items, by `items`.
///
/// `into_iter` returns an entry for each item, in order: the item itself; in a view or a reference
/// to an array, a reference to it.
pub trait GenericSequence<T>: Sized + AsSlice<T> + IntoIterator {
    /// How many items there are.
    type Length: Unsigned;

    /// What calls that build a sequence of this kind return. It owns its items.
    type Sequence: AsSlice<T> + IntoIterator<Item = T>;

    /// The allocator of a sequence that is built, or `()` if none is needed.
    type Place;

    /// Why a sequence wasn't built: `Never` if that can't happen.
    type Error;

    // A sequence of this kind may have this length.
    ghost Fits: { Type 0 };

    // The value that an entry stands for.
    ghost entry: { Self.Item → T };

    // A sequence of this kind and length is built without a request for memory.
    ghost NeedsNoMemory: { Type 0 };

    /// Whether a sequence of this kind may have this length, which calls that build one require.
    fn fits() -> bool
        ensures { IsTrue result ↔ Fits };

    /// All items as a view, which knows that there are `Length` of them. O(1).
    fn view(&self) -> GenericArrayRef<'_, T, Self::Length>
        ensures { items_of_view result ≡ Self.items self.now };

    /// The sequence of `f(0)` to `f(Length - 1)`, each called once, in this order.
    ///
    /// Requires that the length fits, which `fits` tests. `place` is the allocator, or `()`.
    /// Allocates first: if that fails, `f` is never called.
    final fn generate<F: FnMut(usize) -> T>(
        place: Self::Place,
        mut f: F,
    ) -> Result<Self::Sequence, Self::Error>
        requires fits { Fits }
        requires callable { MayGenerate F.pre F.step f Self.Length.USIZE }
        ensures len { IfOk result (λ made. length (Self.Sequence.items made) ≡ Self.Length.USIZE) }
        ensures run { (last : F) × IfOk result (λ made.
            ClosureRun F.step f (range_with_len 0 Self.Length.USIZE)
            (Self.Sequence.items made) last) }
        ensures acts { IfOk result (λ made. (h : ℕ → T) → ActsAs F.FnMut f h
            → Self.Sequence.items made ≡ map h (range_with_len 0 Self.Length.USIZE)) }
        ensures promised { NeedsNoMemory → IsOk result }
    {
        Self::generate_by(place, &mut f)
    }

    /// `generate`: `f` is borrowed.
    fn generate_by<F: FnMut(usize) -> T>(
        place: Self::Place,
        f: &mut F,
    ) -> Result<Self::Sequence, Self::Error>
        requires fits { Fits }
        requires callable { MayGenerate F.pre F.step f.old Self.Length.USIZE }
        ensures len { IfOk result (λ made. length (Self.Sequence.items made) ≡ Self.Length.USIZE) }
        ensures run { IfOk result (λ made.
            ClosureRun F.step f.old (range_with_len 0 Self.Length.USIZE) (Self.Sequence.items made)
            f.new) }
        ensures acts { IfOk result (λ made. (h : ℕ → T) → ActsAs F.FnMut f.old h
            → Self.Sequence.items made ≡ map h (range_with_len 0 Self.Length.USIZE)) }
        ensures err { OnErr result (f.new ≡ f.old) }
        ensures promised { NeedsNoMemory → IsOk result };

    /// The sequence of `Length` values: clones of `item`, made in order, and `item` itself last.
    ///
    /// If the allocation or a clone fails, drops the clones made before and returns the error.
    fn repeat(place: Self::Place, item: T) -> Result<Self::Sequence, AllocError>
    where
        T: Clone,
        requires fits { Fits }
        ensures items { IfOk result (λ made.
            Repeats T.is_clone item Self.Length.USIZE (Self.Sequence.items made)) }
        ensures same { IsExact T.is_clone item
            → IfOk result (λ made. Self.Sequence.items made ≡ replicate Self.Length.USIZE item) }
        ensures few { NeedsNoMemory → Self.Length.USIZE ≤ 1 → IsOk result }
        ensures succeeds { NeedsNoMemory → T.is_infallible item → IsOk result };

    // So is one of no items.
    ghost empty_needs_no_memory: { Self.Length.USIZE ≡ 0 → NeedsNoMemory };

    // `into_iter` gives an entry for each item, in order, and then ends.
    ghost gives_entries: { GivesEntriesOf Self.IntoIter.can_next Self.IntoIter.next_gives
        Self.IntoIter.remaining Self.into_iter_gives Self.items entry };

    // `into_iter` of what is built gives its items, in order, and then ends.
    ghost gives_items: { GivesEntriesOf Self.Sequence.IntoIter.can_next
        Self.Sequence.IntoIter.next_gives
        Self.Sequence.IntoIter.remaining Self.Sequence.into_iter_gives Self.Sequence.items
        (λ item. item) };
}

/// A sequence that can be made by a closure that may fail.
pub trait FallibleGenericSequence<T>: GenericSequence<T> {
    /// `generate` with a closure that may fail: the sequence of its values, or its first error.
    ///
    /// No call follows an error, and the items made before it are dropped.
    final fn try_generate<F: FnMut(usize) -> Result<T, E>, E>(
        place: Self::Place,
        mut f: F,
    ) -> Result<Result<Self::Sequence, E>, Self::Error>
        requires fits { Self.Fits }
        requires callable { MayTryGenerate F.pre F.step f Self.Length.USIZE }
        ensures len { IfOk result (λ built.
            IfOk built (λ made. length (Self.Sequence.items made) ≡ Self.Length.USIZE)) }
        ensures run { (last : F) × IfOk result (λ built.
            TryClosureRun F.step f (range_with_len 0 Self.Length.USIZE)
            (built_items Self.Sequence.items built) last) }
        ensures acts { IfOk result (λ built. (h : ℕ → Result T E) → ActsAs F.FnMut f h
            → built_items Self.Sequence.items built
            ≡ try_map h (range_with_len 0 Self.Length.USIZE)) }
        ensures promised { Self.NeedsNoMemory → IsOk result }
    {
        Self::try_generate_by(place, &mut f)
    }

    /// `try_generate`: `f` is borrowed.
    fn try_generate_by<F: FnMut(usize) -> Result<T, E>, E>(
        place: Self::Place,
        f: &mut F,
    ) -> Result<Result<Self::Sequence, E>, Self::Error>
        requires fits { Self.Fits }
        requires callable { MayTryGenerate F.pre F.step f.old Self.Length.USIZE }
        ensures len { IfOk result (λ built.
            IfOk built (λ made. length (Self.Sequence.items made) ≡ Self.Length.USIZE)) }
        ensures run { IfOk result (λ built.
            TryClosureRun F.step f.old (range_with_len 0 Self.Length.USIZE)
            (built_items Self.Sequence.items built) f.new) }
        ensures acts { IfOk result (λ built. (h : ℕ → Result T E) → ActsAs F.FnMut f.old h
            → built_items Self.Sequence.items built
            ≡ try_map h (range_with_len 0 Self.Length.USIZE)) }
        ensures err { OnErr result (f.new ≡ f.old) }
        ensures promised { Self.NeedsNoMemory → IsOk result };
}

/// A sequence that can be filled from an iterator whose items may be errors.
pub trait FromFallibleIterator<T>: GenericSequence<T> {
    /// Returns the first `Err` among the first `Length` items as `FillError::Item`, without asking
    /// for another; otherwise the sequence of the `Length` values, or `FillError::Length` if there
    /// are more or fewer.
    ///
    /// Allocates first: if that fails, returns `FillError::Place` and takes no item. An `Err`
    /// after `Length` values is one item too many. Size hints aren't consulted.
    final fn from_fallible_iter<I: Iterator<Item = Result<T, E>>, E: Drop>(
        place: Self::Place,
        mut items: I,
    ) -> Result<Self, FillError<E, Self::Error>>
        requires fits { Self.Fits }
        requires can { I.can_next items }
        ensures fill { (after : I) × IfPlaced (built_items Self.items result) (λ built.
            FillsFallibly I.next_gives items Self.Length.USIZE built after) }
        ensures runs { IfPlaced (built_items Self.items result) (λ built.
            FillFalliblyRuns I.next_gives items Self.Length.USIZE built) }
        ensures promised { Self.NeedsNoMemory → IsPlaced result }
    {
        Self::from_fallible_iter_ref(place, &mut items)
    }

    /// `from_fallible_iter` that borrows the iterator, which can be used again afterwards.
    ///
    /// A returned `Item` is the last item taken. Doesn't call `next` again once the iterator has
    /// ended.
    fn from_fallible_iter_ref<I: Iterator<Item = Result<T, E>>, E: Drop>(
        place: Self::Place,
        items: &mut I,
    ) -> Result<Self, FillError<E, Self::Error>>
        requires fits { Self.Fits }
        requires can { I.can_next items.old }
        ensures fill { IfPlaced (built_items Self.items result) (λ built.
            FillsFallibly I.next_gives items.old Self.Length.USIZE built items.new) }
        ensures runs { IfPlaced (built_items Self.items result) (λ built.
            FillFalliblyRuns I.next_gives items.old Self.Length.USIZE built) }
        ensures can_on { (error : E) → result ≡ Err (FillError.Item error) → I.can_next items.new }
        ensures err { (refused : Self.Error) → result ≡ Err (FillError.Place refused)
            → items.new ≡ items.old }
        ensures promised { Self.NeedsNoMemory → IsPlaced result };
}
