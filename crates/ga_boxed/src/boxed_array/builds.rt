//! Boxed arrays built from a closure or an iterator. Memory comes first in each.
ghost use Rattle.ga_boxed.specs.Placed.{IfPlaced, IsPlaced};
ghost use Rattle.ga_core.specs.Calls.{MayGenerate, MayTryGenerate};
ghost use Rattle.ga_core.specs.Fill.{Asks, FillFalliblyRuns, FillRuns, Fills, FillsFallibly};
ghost use Rattle.ga_core.specs.Runs.{ClosureRun, TryClosureRun};
ghost use Rattle.ga_core.specs.Tries.{try_map};
ghost use Rattle.std.specs.Iterator.{ActsAs};
ghost use Rattle.std.specs.List.{range_with_len};
ghost use Rattle.std.specs.Prelude.{◌≡◌, ℕ, ◌+◌, ◌≤◌, IfOk, IsOk, OnErr, OnOk, Result, length, map};

use crate::boxed_array::BoxedArray;
use crate::live_block::LiveBlock;
use ga_core::blocks::{BLOCK, fits_a_word};
use ga_core::{AllocError, FillError, LengthError, Unsigned};
use std::alloc::Global;

impl<T, N: Unsigned> BoxedArray<T, N> {
    /// The array of `f(0)` to `f(N - 1)`, each called once, in this order.
    ///
    /// Allocates the whole block first: if that fails, `f` is never called. Allocates nothing if
    /// `N` is 0.
    pub fn generate<F: FnMut(usize) -> T>(alloc: Global, mut f: F) -> Result<Self, AllocError>
        requires callable { MayGenerate F.pre F.step f N.USIZE }
        ensures run { (last : F) × IfOk result (λ array.
            ClosureRun F.step f (range_with_len 0 N.USIZE) array last) }
        ensures acts { IfOk result (λ array. (h : ℕ → T) → ActsAs F.FnMut f h
            → array ≡ map h (range_with_len 0 N.USIZE)) }
        ensures empty { N.USIZE ≡ 0 → IsOk result }
    {
        Self::generate_by(alloc, &mut f)
    }

    /// `generate`: `f` is borrowed.
    pub fn generate_by<F: FnMut(usize) -> T>(alloc: Global, f: &mut F) -> Result<Self, AllocError>
        requires callable { MayGenerate F.pre F.step f.old N.USIZE }
        ensures run { IfOk result (λ array.
            ClosureRun F.step f.old (range_with_len 0 N.USIZE) array f.new) }
        ensures acts { IfOk result (λ array. (h : ℕ → T) → ActsAs F.FnMut f.old h
            → array ≡ map h (range_with_len 0 N.USIZE)) }
        ensures err { OnErr result (f.new ≡ f.old) }
        ensures empty { N.USIZE ≡ 0 → IsOk result }
    {
        let mut block = LiveBlock::new(alloc, N::USIZE)?;
        let in_blocks = fits_a_word(f);
        while in_blocks && block.room() >= BLOCK {
            put_some(&mut block, BLOCK, f);
        }
        let left = block.room();
        put_some(&mut block, left, f);
        Ok(BoxedArray::from_block(block))
    }
}

// Puts `f(n)` and so on behind the items, of which there are `n`, `count` times. The items are what
// the calls before returned.
#[inline(always)]
fn put_some<T, F: FnMut(usize) -> T>(block: &mut LiveBlock<T>, count: usize, f: &mut F)
    requires room { count ≤ block.old.room }
    requires callable { (begun : F)
        × MayGenerate F.pre F.step begun (length block.old.items + count)
        × ClosureRun F.step begun (range_with_len 0 (length block.old.items)) block.old.items f.old }
    ensures run { (begun : F)
        → ClosureRun F.step begun (range_with_len 0 (length block.old.items)) block.old.items f.old
        → ClosureRun F.step begun (range_with_len 0 (length block.new.items)) block.new.items
        f.new }
    ensures long { length block.new.items ≡ length block.old.items + count }
    ensures room { block.new.room + count ≡ block.old.room }
{
    for _put in 0..count {
        let index = block.len();
        block.put(f(index));
    }
}

impl<T: Drop, N: Unsigned> BoxedArray<T, N> {
    /// `generate` with a closure that may fail: the array of its values, or its first error.
    ///
    /// No call follows an error, and the items made before it are dropped.
    pub fn try_generate<F: FnMut(usize) -> Result<T, E>, E>(
        alloc: Global,
        mut f: F,
    ) -> Result<Result<Self, E>, AllocError>
        requires callable { MayTryGenerate F.pre F.step f N.USIZE }
        ensures run { (last : F) × IfOk result (λ built.
            TryClosureRun F.step f (range_with_len 0 N.USIZE) built last) }
        ensures acts { IfOk result (λ built. (h : ℕ → Result T E) → ActsAs F.FnMut f h
            → built ≡ try_map h (range_with_len 0 N.USIZE)) }
        ensures empty { N.USIZE ≡ 0 → IsOk result }
    {
        Self::try_generate_by(alloc, &mut f)
    }

    /// `try_generate`: `f` is borrowed.
    pub fn try_generate_by<F: FnMut(usize) -> Result<T, E>, E>(
        alloc: Global,
        f: &mut F,
    ) -> Result<Result<Self, E>, AllocError>
        requires callable { MayTryGenerate F.pre F.step f.old N.USIZE }
        ensures run { IfOk result (λ built.
            TryClosureRun F.step f.old (range_with_len 0 N.USIZE) built f.new) }
        ensures acts { IfOk result (λ built. (h : ℕ → Result T E) → ActsAs F.FnMut f.old h
            → built ≡ try_map h (range_with_len 0 N.USIZE)) }
        ensures err { OnErr result (f.new ≡ f.old) }
        ensures empty { N.USIZE ≡ 0 → IsOk result }
    {
        let mut block = LiveBlock::new(alloc, N::USIZE)?;
        for index in 0..N::USIZE {
            match f(index) {
                Ok(item) => block.put(item),
                Err(error) => return Ok(Err(error)),
            }
        }
        Ok(Ok(BoxedArray::from_block(block)))
    }

    /// The array of all items of `items`, or `LengthError` if they aren't exactly `N`.
    ///
    /// Allocates the whole block first: if that fails, takes no item. Takes at most `N + 1` items,
    /// as the clauses of `try_boxed_from_iter_ref` say. Size hints aren't consulted.
    pub fn try_boxed_from_iter<I: Iterator<Item = T>>(
        alloc: Global,
        mut items: I,
    ) -> Result<Result<Self, LengthError>, AllocError>
        requires can { I.can_next items }
        ensures runs { IfOk result (λ built. FillRuns I.next_gives items N.USIZE built) }
        ensures empty { N.USIZE ≡ 0 → IsOk result }
    {
        Self::try_boxed_from_iter_ref(alloc, &mut items)
    }

    /// `try_boxed_from_iter` that borrows the iterator, which can be used again afterwards.
    ///
    /// Takes at most `N + 1` items, and doesn't call `next` again once the iterator has ended.
    pub fn try_boxed_from_iter_ref<I: Iterator<Item = T>>(
        alloc: Global,
        items: &mut I,
    ) -> Result<Result<Self, LengthError>, AllocError>
        requires can { I.can_next items.old }
        ensures fill { IfOk result (λ built. Fills I.next_gives items.old N.USIZE built items.new) }
        ensures runs { IfOk result (λ built. FillRuns I.next_gives items.old N.USIZE built) }
        ensures asks { OnOk result (Asks I.next_gives items.old (N.USIZE + 1) items.new) }
        ensures err { OnErr result (items.new ≡ items.old) }
        ensures empty { N.USIZE ≡ 0 → IsOk result }
    {
        let mut block = LiveBlock::new(alloc, N::USIZE)?;
        while block.room() >= BLOCK {
            let less = block.room() - BLOCK;
            while block.room() != less {
                match items.next() {
                    Some(item) => block.put(item),
                    None => return Ok(Err(LengthError)),
                }
            }
        }
        while block.room() > 0 {
            match items.next() {
                Some(item) => block.put(item),
                None => return Ok(Err(LengthError)),
            }
        }
        match items.next() {
            None => Ok(Ok(BoxedArray::from_block(block))),
            Some(_surplus) => Ok(Err(LengthError)),
        }
    }

    /// Returns the first `Err` among the first `N` items as `FillError::Item`, without asking for
    /// another; otherwise the array of the `N` values, or `FillError::Length` if there are more or
    /// fewer.
    ///
    /// Allocates the whole block first: if that fails, returns `FillError::Place` and takes no
    /// item. An `Err` after `N` values is one item too many. Size hints aren't consulted.
    pub fn try_boxed_from_fallible_iter<I: Iterator<Item = Result<T, E>>, E: Drop>(
        alloc: Global,
        mut items: I,
    ) -> Result<Self, FillError<E, AllocError>>
        requires can { I.can_next items }
        ensures fill { (after : I)
            × IfPlaced result (λ built. FillsFallibly I.next_gives items N.USIZE built after) }
        ensures runs { IfPlaced result (λ built.
            FillFalliblyRuns I.next_gives items N.USIZE built) }
        ensures empty { N.USIZE ≡ 0 → IsPlaced result }
    {
        Self::try_boxed_from_fallible_iter_ref(alloc, &mut items)
    }

    /// `try_boxed_from_fallible_iter` that borrows the iterator, which can be used again
    /// afterwards.
    ///
    /// A returned `Item` is the last item taken. Doesn't call `next` again once the iterator has
    /// ended.
    pub fn try_boxed_from_fallible_iter_ref<I: Iterator<Item = Result<T, E>>, E: Drop>(
        alloc: Global,
        items: &mut I,
    ) -> Result<Self, FillError<E, AllocError>>
        requires can { I.can_next items.old }
        ensures fill { IfPlaced result (λ built.
            FillsFallibly I.next_gives items.old N.USIZE built items.new) }
        ensures runs { IfPlaced result (λ built.
            FillFalliblyRuns I.next_gives items.old N.USIZE built) }
        ensures can_on { (error : E) → result ≡ Err (FillError.Item error) → I.can_next items.new }
        ensures err { (refused : AllocError) → result ≡ Err (FillError.Place refused)
            → items.new ≡ items.old }
        ensures empty { N.USIZE ≡ 0 → IsPlaced result }
    {
        let Ok(mut block) = LiveBlock::new(alloc, N::USIZE) else {
            return Err(FillError::Place(AllocError));
        };
        while block.room() > 0 {
            match items.next() {
                Some(Ok(item)) => block.put(item),
                Some(Err(error)) => return Err(FillError::Item(error)),
                None => return Err(FillError::Length(LengthError)),
            }
        }
        match items.next() {
            None => Ok(BoxedArray::from_block(block)),
            Some(_surplus) => Err(FillError::Length(LengthError)),
        }
    }
}
