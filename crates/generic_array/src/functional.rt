//! Calls of a closure at all entries of a sequence, from the first to the last.
//!
//! Each is inlined always: a call that isn't inlined copies an array that it passes on by value.
ghost use Rattle.ga_core.specs.Calls.{MayFold, MayMap, MayTryFold, MayTryMap, MayZip};
ghost use Rattle.ga_core.specs.Entries.{ActsInFold, ActsOnEntries, ActsOnEntry, CallAt, CallAtPair, FoldAt};
ghost use Rattle.ga_core.specs.Runs.{ClosureRun, TryClosureRun, FoldRun, TryFoldRun};
ghost use Rattle.ga_core.specs.Tries.{try_fold, try_map};
ghost use Rattle.generic_array.specs.Built.{built_items};
ghost use Rattle.std.specs.List.{zip};
ghost use Rattle.std.specs.Prelude.{◌≡◌, IfOk, IsOk, OnErr, Result, fold, length, map};

mod inverted;
mod kinds;
mod walks;

use crate::sequence::{FallibleGenericSequence, GenericSequence};
use ga_core::Never;
pub use inverted::{inverted_zip, inverted_zip_by, inverted_zip2, inverted_zip2_by};
pub(crate) use walks::fold_made;
use walks::{entries_of, fold_entries, map_entries, try_fold_entries, try_map_entries};

/// The kind of sequence that a map to `U` makes.
pub type Mapped<S, T, U> = <S as MappedGenericSequence<T, U>>::Mapped;

/// The sequence that a map to `U` makes.
pub type MappedSequence<S, T, U> = <Mapped<S, T, U> as GenericSequence<U>>::Sequence;

/// The allocator of the sequence that a map to `U` makes, or `()`.
pub type MappedPlace<S, T, U> = <Mapped<S, T, U> as GenericSequence<U>>::Place;

/// Why a map to `U` made no sequence.
pub type MappedError<S, T, U> = <Mapped<S, T, U> as GenericSequence<U>>::Error;

/// A sequence of which a sequence of as many `U` can be made.
pub trait MappedGenericSequence<T, U>: GenericSequence<T> {
    /// The kind of what is made: boxed for boxed arrays, inline for all others.
    type Mapped: GenericSequence<U>;

    // What is made has as many items.
    ghost same_length: { Self.Mapped.Length.USIZE ≡ Self.Length.USIZE };
}

/// A sequence whose map to `U` makes an inline array, so that `place` is `()` and nothing fails: an
/// inline array, a view or a reference to an array. A bound for chains of calls over any of them.
pub trait MapsInline<T, U>: FunctionalSequence<T>
    + MappedGenericSequence<
        T,
        U,
        Mapped: GenericSequence<U, Place = (), Error = Never, Sequence: Drop>,
    > {}

/// Calls of a closure at all entries. Each has one body, for all kinds.
///
/// Calls that build a sequence allocate first: if that fails, `f` is never called and the items
/// are dropped. `place` is the allocator: `()` for inline arrays, which can't fail (unwrap with
/// `always`), `Global` for boxed ones. They require that the length fits what is made, and that
/// the closure may be called at each entry.
pub trait FunctionalSequence<T>: GenericSequence<T> {
    /// The sequence of the values of `f` at the entries, called in order.
    #[inline(always)]
    final fn map<U, F: FnMut(Self::Item) -> U>(
        self,
        place: MappedPlace<Self, T, U>,
        mut f: F,
    ) -> Result<MappedSequence<Self, T, U>, MappedError<Self, T, U>>
    where
        Self: MappedGenericSequence<T, U>,
        requires fits { Self.Mapped.Fits }
        requires callable { MayMap Self.entry F.pre F.step f (Self.items self) }
        ensures len { IfOk result (λ made.
            length (Self.Mapped.Sequence.items made) ≡ Self.Length.USIZE) }
        ensures run { (last : F) × IfOk result (λ made.
            ClosureRun (CallAt Self.entry F.step) f (Self.items self)
            (Self.Mapped.Sequence.items made) last) }
        ensures acts { IfOk result (λ made. (h : T → U) → ActsOnEntry Self.entry F.step f h
            → Self.Mapped.Sequence.items made ≡ map h (Self.items self)) }
        ensures promised { Self.Mapped.NeedsNoMemory → IsOk result }
    {
        self.map_by(place, &mut f)
    }

    /// `map`: `f` is borrowed.
    #[inline(always)]
    final fn map_by<U, F: FnMut(Self::Item) -> U>(
        self,
        place: MappedPlace<Self, T, U>,
        f: &mut F,
    ) -> Result<MappedSequence<Self, T, U>, MappedError<Self, T, U>>
    where
        Self: MappedGenericSequence<T, U>,
        requires fits { Self.Mapped.Fits }
        requires callable { MayMap Self.entry F.pre F.step f.old (Self.items self) }
        ensures len { IfOk result (λ made.
            length (Self.Mapped.Sequence.items made) ≡ Self.Length.USIZE) }
        ensures run { IfOk result (λ made.
            ClosureRun (CallAt Self.entry F.step) f.old (Self.items self)
            (Self.Mapped.Sequence.items made) f.new) }
        ensures acts { IfOk result (λ made. (h : T → U) → ActsOnEntry Self.entry F.step f.old h
            → Self.Mapped.Sequence.items made ≡ map h (Self.items self)) }
        ensures err { OnErr result (f.new ≡ f.old) }
        ensures promised { Self.Mapped.NeedsNoMemory → IsOk result }
    {
        map_entries::<T, Self::IntoIter, U, Mapped<Self, T, U>, F>(entries_of(self), place, f)
    }

    /// `map` with a closure that may fail: the sequence of its values, or its first error.
    ///
    /// No call follows an error. The values made before it, and the entries left, are dropped.
    #[inline(always)]
    final fn try_map<U, F: FnMut(Self::Item) -> Result<U, E>, E>(
        self,
        place: MappedPlace<Self, T, U>,
        mut f: F,
    ) -> Result<Result<MappedSequence<Self, T, U>, E>, MappedError<Self, T, U>>
    where
        Self: MappedGenericSequence<T, U>,
        Mapped<Self, T, U>: FallibleGenericSequence<U>,
        requires fits { Self.Mapped.Fits }
        requires callable { MayTryMap Self.entry F.pre F.step f (Self.items self) }
        ensures len { IfOk result (λ built.
            IfOk built (λ made. length (Self.Mapped.Sequence.items made) ≡ Self.Length.USIZE)) }
        ensures run { (last : F) × IfOk result (λ built.
            TryClosureRun (CallAt Self.entry F.step) f (Self.items self)
            (built_items Self.Mapped.Sequence.items built) last) }
        ensures acts { IfOk result (λ built. (h : T → Result U E)
            → ActsOnEntry Self.entry F.step f h
            → built_items Self.Mapped.Sequence.items built ≡ try_map h (Self.items self)) }
        ensures promised { Self.Mapped.NeedsNoMemory → IsOk result }
    {
        self.try_map_by(place, &mut f)
    }

    /// `try_map`: `f` is borrowed.
    #[inline(always)]
    final fn try_map_by<U, F: FnMut(Self::Item) -> Result<U, E>, E>(
        self,
        place: MappedPlace<Self, T, U>,
        f: &mut F,
    ) -> Result<Result<MappedSequence<Self, T, U>, E>, MappedError<Self, T, U>>
    where
        Self: MappedGenericSequence<T, U>,
        Mapped<Self, T, U>: FallibleGenericSequence<U>,
        requires fits { Self.Mapped.Fits }
        requires callable { MayTryMap Self.entry F.pre F.step f.old (Self.items self) }
        ensures len { IfOk result (λ built.
            IfOk built (λ made. length (Self.Mapped.Sequence.items made) ≡ Self.Length.USIZE)) }
        ensures run { IfOk result (λ built.
            TryClosureRun (CallAt Self.entry F.step) f.old (Self.items self)
            (built_items Self.Mapped.Sequence.items built) f.new) }
        ensures acts { IfOk result (λ built. (h : T → Result U E)
            → ActsOnEntry Self.entry F.step f.old h
            → built_items Self.Mapped.Sequence.items built ≡ try_map h (Self.items self)) }
        ensures err { OnErr result (f.new ≡ f.old) }
        ensures promised { Self.Mapped.NeedsNoMemory → IsOk result }
    {
        try_map_entries::<T, Self::IntoIter, U, E, Mapped<Self, T, U>, F>(
            entries_of(self),
            place,
            f,
        )
    }

    /// The sequence of the values of `f` at each entry and that of `rhs` at the same index, called
    /// in order. It is of the kind that a map of `self` makes.
    ///
    /// Requires that the lengths are equal. `rhs` may be of another kind.
    #[inline(always)]
    final fn zip<B, Rhs: GenericSequence<B>, U, F: FnMut(Self::Item, Rhs::Item) -> U>(
        self,
        place: MappedPlace<Self, T, U>,
        rhs: Rhs,
        f: F,
    ) -> Result<MappedSequence<Self, T, U>, MappedError<Self, T, U>>
    where
        Self: MappedGenericSequence<T, U>,
        requires lengths { Self.Length.USIZE ≡ Rhs.Length.USIZE }
        requires fits { Self.Mapped.Fits }
        requires callable { MayZip Self.entry Rhs.entry F.pre F.step f (Self.items self)
            (Rhs.items rhs) }
        ensures len { IfOk result (λ made.
            length (Self.Mapped.Sequence.items made) ≡ Self.Length.USIZE) }
        ensures run { (last : F) × IfOk result (λ made.
            ClosureRun (CallAtPair Self.entry Rhs.entry F.step) f
            (zip (Self.items self) (Rhs.items rhs)) (Self.Mapped.Sequence.items made) last) }
        ensures acts { IfOk result (λ made. (h : T × B → U)
            → ActsOnEntries Self.entry Rhs.entry F.step f h
            → Self.Mapped.Sequence.items made ≡ map h (zip (Self.items self) (Rhs.items rhs))) }
        ensures promised { Self.Mapped.NeedsNoMemory → IsOk result }
    {
        inverted_zip2(rhs, place, self, f)
    }

    /// `zip`: `f` is borrowed.
    #[inline(always)]
    final fn zip_by<B, Rhs: GenericSequence<B>, U, F: FnMut(Self::Item, Rhs::Item) -> U>(
        self,
        place: MappedPlace<Self, T, U>,
        rhs: Rhs,
        f: &mut F,
    ) -> Result<MappedSequence<Self, T, U>, MappedError<Self, T, U>>
    where
        Self: MappedGenericSequence<T, U>,
        requires lengths { Self.Length.USIZE ≡ Rhs.Length.USIZE }
        requires fits { Self.Mapped.Fits }
        requires callable { MayZip Self.entry Rhs.entry F.pre F.step f.old (Self.items self)
            (Rhs.items rhs) }
        ensures len { IfOk result (λ made.
            length (Self.Mapped.Sequence.items made) ≡ Self.Length.USIZE) }
        ensures run { IfOk result (λ made.
            ClosureRun (CallAtPair Self.entry Rhs.entry F.step) f.old
            (zip (Self.items self) (Rhs.items rhs)) (Self.Mapped.Sequence.items made) f.new) }
        ensures acts { IfOk result (λ made. (h : T × B → U)
            → ActsOnEntries Self.entry Rhs.entry F.step f.old h
            → Self.Mapped.Sequence.items made ≡ map h (zip (Self.items self) (Rhs.items rhs))) }
        ensures err { OnErr result (f.new ≡ f.old) }
        ensures promised { Self.Mapped.NeedsNoMemory → IsOk result }
    {
        inverted_zip2_by(rhs, place, self, f)
    }

    /// Folds the entries into one value, in order, starting from `init`.
    #[inline(always)]
    final fn fold<A, F: FnMut(A, Self::Item) -> A>(self, init: A, mut f: F) -> A
        requires callable { MayFold Self.entry F.pre F.step f init (Self.items self) }
        ensures run { (last : F)
            × FoldRun (FoldAt Self.entry F.step) f init (Self.items self) result last }
        ensures acts { (h : A → T → A) → ActsInFold Self.entry F.step f h
            → result ≡ fold h init (Self.items self) }
    {
        self.fold_by(init, &mut f)
    }

    /// `fold`: `f` is borrowed.
    #[inline(always)]
    final fn fold_by<A, F: FnMut(A, Self::Item) -> A>(self, init: A, f: &mut F) -> A
        requires callable { MayFold Self.entry F.pre F.step f.old init (Self.items self) }
        ensures run { FoldRun (FoldAt Self.entry F.step) f.old init (Self.items self) result f.new }
        ensures acts { (h : A → T → A) → ActsInFold Self.entry F.step f.old h
            → result ≡ fold h init (Self.items self) }
    {
        fold_entries::<T, Self::IntoIter, A, F>(entries_of(self), init, f)
    }

    /// `fold` with a closure that may fail: the last value, or the first error.
    ///
    /// No call follows an error, and the entries left are dropped.
    #[inline(always)]
    final fn try_fold<A, F: FnMut(A, Self::Item) -> Result<A, E>, E>(
        self,
        init: A,
        mut f: F,
    ) -> Result<A, E>
        requires callable { MayTryFold Self.entry F.pre F.step f init (Self.items self) }
        ensures run { (last : F)
            × TryFoldRun (FoldAt Self.entry F.step) f init (Self.items self) result last }
        ensures acts { (h : A → T → Result A E) → ActsInFold Self.entry F.step f h
            → result ≡ try_fold h init (Self.items self) }
    {
        self.try_fold_by(init, &mut f)
    }

    /// `try_fold`: `f` is borrowed.
    #[inline(always)]
    final fn try_fold_by<A, F: FnMut(A, Self::Item) -> Result<A, E>, E>(
        self,
        init: A,
        f: &mut F,
    ) -> Result<A, E>
        requires callable { MayTryFold Self.entry F.pre F.step f.old init (Self.items self) }
        ensures run { TryFoldRun (FoldAt Self.entry F.step) f.old init (Self.items self)
            result f.new }
        ensures acts { (h : A → T → Result A E) → ActsInFold Self.entry F.step f.old h
            → result ≡ try_fold h init (Self.items self) }
    {
        try_fold_entries::<T, Self::IntoIter, A, E, F>(entries_of(self), init, f)
    }
}
