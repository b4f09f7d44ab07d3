//! Arrays built from a closure or an iterator.
ghost use Rattle.ga_core.specs.Calls.{MayGenerate, MayTryGenerate};
ghost use Rattle.ga_core.specs.Fill.{Asks, FillFalliblyRuns, FillRuns, Fills, FillsFallibly};
ghost use Rattle.ga_core.specs.Made.{made};
ghost use Rattle.ga_core.specs.Runs.{ClosureRun, TryClosureRun};
ghost use Rattle.ga_core.specs.Tries.{try_map};
ghost use Rattle.ga_views.specs.Length.{FitsInline};
ghost use Rattle.std.specs.Iterator.{ActsAs};
ghost use Rattle.std.specs.List.{range_with_len};
ghost use Rattle.std.specs.Prelude.{◌≡◌, ℕ, ◌+◌, IfOk, OnErr, Result, map};

use crate::array::GenericArray;
use crate::builder::ArrayBuilder;
use crate::call_results::{try_write_generated, write_generated};
use crate::length::ArrayLength;
use ga_views::LengthError;

impl<T: Default + Drop, N: ArrayLength<T>> GenericArray<T, N> {
    /// The array of `f(0)` to `f(N - 1)`, each called once, in this order.
    ///
    /// Requires `N <= MAX_INLINE`. Allocates nothing.
    pub fn generate<F: FnMut(usize) -> T>(mut f: F) -> Self
        requires fits { FitsInline N.USIZE }
        requires callable { MayGenerate F.pre F.step f N.USIZE }
        ensures run { (last : F) × ClosureRun F.step f (range_with_len 0 N.USIZE) result last }
        ensures acts { (h : ℕ → T) → ActsAs F.FnMut f h
            → result ≡ map h (range_with_len 0 N.USIZE) }
        ensures made { (h : ℕ → T) → ActsAs F.FnMut f h → result ≡ made h N.USIZE }
    {
        Self::generate_by(&mut f)
    }

    /// `generate`: `f` is borrowed.
    pub fn generate_by<F: FnMut(usize) -> T>(f: &mut F) -> Self
        requires fits { FitsInline N.USIZE }
        requires callable { MayGenerate F.pre F.step f.old N.USIZE }
        ensures run { ClosureRun F.step f.old (range_with_len 0 N.USIZE) result f.new }
        ensures acts { (h : ℕ → T) → ActsAs F.FnMut f.old h
            → result ≡ map h (range_with_len 0 N.USIZE) }
        ensures made { (h : ℕ → T) → ActsAs F.FnMut f.old h → result ≡ made h N.USIZE }
    {
        let mut array = Self::default();
        write_generated(array.as_mut_slice(), f);
        array.repack()
    }

    /// `generate` with a closure that may fail: the array of its values, or its first error.
    ///
    /// No call follows an error, and the items made before it are dropped.
    pub fn try_generate<F: FnMut(usize) -> Result<T, E>, E>(mut f: F) -> Result<Self, E>
        requires fits { FitsInline N.USIZE }
        requires callable { MayTryGenerate F.pre F.step f N.USIZE }
        ensures run { (last : F) × TryClosureRun F.step f (range_with_len 0 N.USIZE) result last }
        ensures acts { (h : ℕ → Result T E) → ActsAs F.FnMut f h
            → result ≡ try_map h (range_with_len 0 N.USIZE) }
    {
        Self::try_generate_by(&mut f)
    }

    /// `try_generate`: `f` is borrowed.
    pub fn try_generate_by<F: FnMut(usize) -> Result<T, E>, E>(f: &mut F) -> Result<Self, E>
        requires fits { FitsInline N.USIZE }
        requires callable { MayTryGenerate F.pre F.step f.old N.USIZE }
        ensures run { TryClosureRun F.step f.old (range_with_len 0 N.USIZE) result f.new }
        ensures acts { (h : ℕ → Result T E) → ActsAs F.FnMut f.old h
            → result ≡ try_map h (range_with_len 0 N.USIZE) }
    {
        let mut array = Self::default();
        match try_write_generated(array.as_mut_slice(), f) {
            Ok(()) => Ok(array.repack()),
            Err(error) => Err(error),
        }
    }
}

impl<T: Default + Drop, N: ArrayLength<T>> GenericArray<T, N> {
    /// The array of all items of `items`, or `LengthError` if they aren't exactly `N`.
    ///
    /// Requires `N <= MAX_INLINE`. Takes at most `N + 1` items, as the clauses of
    /// `try_from_iter_ref` say. Size hints aren't consulted. Allocates nothing.
    pub fn try_from_iter<I: Iterator<Item = T>>(mut items: I) -> Result<Self, LengthError>
        requires fits { FitsInline N.USIZE }
        requires can { I.can_next items }
        ensures runs { FillRuns I.next_gives items N.USIZE result }
    {
        Self::try_from_iter_ref(&mut items)
    }

    /// `try_from_iter` that borrows the iterator, which can be used again afterwards.
    ///
    /// Takes at most `N + 1` items, and doesn't call `next` again once the iterator has ended.
    pub fn try_from_iter_ref<I: Iterator<Item = T>>(items: &mut I) -> Result<Self, LengthError>
        requires fits { FitsInline N.USIZE }
        requires can { I.can_next items.old }
        ensures fill { Fills I.next_gives items.old N.USIZE result items.new }
        ensures runs { FillRuns I.next_gives items.old N.USIZE result }
        ensures asks { Asks I.next_gives items.old (N.USIZE + 1) items.new }
    {
        let mut builder = ArrayBuilder::new();
        builder.fill(items);
        builder.finish_at_end(items)
    }

    /// Returns the first `Err` among the first `N` items as `Ok(Err(error))`, without asking for
    /// another; otherwise the array of the `N` values as `Ok(Ok(array))`, or `Err(LengthError)` if
    /// there are more or fewer.
    ///
    /// Requires `N <= MAX_INLINE`. An `Err` after `N` values is one item too many. Size hints
    /// aren't consulted. Allocates nothing.
    pub fn try_from_fallible_iter<I: Iterator<Item = Result<T, E>>, E: Drop>(
        mut items: I,
    ) -> Result<Result<Self, E>, LengthError>
        requires fits { FitsInline N.USIZE }
        requires can { I.can_next items }
        ensures fill { (after : I) × FillsFallibly I.next_gives items N.USIZE result after }
        ensures runs { FillFalliblyRuns I.next_gives items N.USIZE result }
    {
        Self::try_from_fallible_iter_ref(&mut items)
    }

    /// `try_from_fallible_iter` that borrows the iterator, which can be used again afterwards.
    ///
    /// A returned `Err` is the last item taken. Doesn't call `next` again once the iterator has
    /// ended.
    pub fn try_from_fallible_iter_ref<I: Iterator<Item = Result<T, E>>, E: Drop>(
        items: &mut I,
    ) -> Result<Result<Self, E>, LengthError>
        requires fits { FitsInline N.USIZE }
        requires can { I.can_next items.old }
        ensures fill { FillsFallibly I.next_gives items.old N.USIZE result items.new }
        ensures runs { FillFalliblyRuns I.next_gives items.old N.USIZE result }
        ensures can_on { IfOk result (λ made. OnErr made (I.can_next items.new)) }
    {
        let mut builder = ArrayBuilder::new();
        if let Err(error) = builder.try_extend(items) {
            return Ok(Err(error));
        }
        Ok(Ok(builder.finish_at_end(items)?))
    }
}
