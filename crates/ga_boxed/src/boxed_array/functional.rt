//! Calls of a closure at borrowed items, in plain types: what is made is a boxed array, of the
//! allocator that this one keeps. Memory comes first in each.
ghost use Rattle.ga_core.specs.Calls.{MayMap, MayTryMap, MayZip};
ghost use Rattle.ga_core.specs.Entries.{ActsOnEntries, ActsOnEntry, CallAt, CallAtPair};
ghost use Rattle.ga_core.specs.Runs.{ClosureRun, TryClosureRun};
ghost use Rattle.ga_core.specs.Tries.{try_map};
ghost use Rattle.ga_core.specs.Views.{items_of_view};
ghost use Rattle.std.specs.List.{zip};
ghost use Rattle.std.specs.Prelude.{◌≡◌, IfOk, IsOk, OnErr, Result, map};

use crate::boxed_array::BoxedArray;
use crate::live_block::LiveBlock;
use ga_core::{AllocError, GenericArrayRef, Unsigned};

impl<T, N: Unsigned> BoxedArray<T, N> {
    /// The boxed array of what `f` returns at each item by reference, called in order.
    ///
    /// Allocates the whole block first: if that fails, `f` is never called. Allocates nothing if
    /// `N` is 0. The counterpart of `map` of `&GenericArray<T, N>`, which makes an inline array.
    pub fn map_ref<U, F: FnMut(&T) -> U>(&self, mut f: F) -> Result<BoxedArray<U, N>, AllocError>
        requires callable { MayMap (λ item. item.now) F.pre F.step f self.now }
        ensures run { (last : F) × IfOk result (λ made.
            ClosureRun (CallAt (λ item. item.now) F.step) f self.now made last) }
        ensures acts { IfOk result (λ made. (h : T → U) → ActsOnEntry (λ item. item.now) F.step f h
            → made ≡ map h self.now) }
        ensures empty { N.USIZE ≡ 0 → IsOk result }
    {
        self.map_ref_by(&mut f)
    }

    /// `map_ref`: `f` is borrowed.
    pub fn map_ref_by<U, F: FnMut(&T) -> U>(
        &self,
        f: &mut F,
    ) -> Result<BoxedArray<U, N>, AllocError>
        requires callable { MayMap (λ item. item.now) F.pre F.step f.old self.now }
        ensures run { IfOk result (λ made.
            ClosureRun (CallAt (λ item. item.now) F.step) f.old self.now made f.new) }
        ensures acts { IfOk result (λ made. (h : T → U)
            → ActsOnEntry (λ item. item.now) F.step f.old h
            → made ≡ map h self.now) }
        ensures err { OnErr result (f.new ≡ f.old) }
        ensures empty { N.USIZE ≡ 0 → IsOk result }
    {
        let mut block = LiveBlock::new(self.items.allocator(), N::USIZE)?;
        for item in self.as_slice() {
            block.put(f(item));
        }
        Ok(BoxedArray::from_block(block))
    }

    /// `map_ref` with a closure that may fail: the boxed array of its values, or its first error.
    ///
    /// No call follows an error, and the values made before it are dropped.
    pub fn try_map_ref<U: Drop, F: FnMut(&T) -> Result<U, E>, E>(
        &self,
        mut f: F,
    ) -> Result<Result<BoxedArray<U, N>, E>, AllocError>
        requires callable { MayTryMap (λ item. item.now) F.pre F.step f self.now }
        ensures run { (last : F) × IfOk result (λ built.
            TryClosureRun (CallAt (λ item. item.now) F.step) f self.now built last) }
        ensures acts { IfOk result (λ built. (h : T → Result U E)
            → ActsOnEntry (λ item. item.now) F.step f h → built ≡ try_map h self.now) }
        ensures empty { N.USIZE ≡ 0 → IsOk result }
    {
        self.try_map_ref_by(&mut f)
    }

    /// `try_map_ref`: `f` is borrowed.
    pub fn try_map_ref_by<U: Drop, F: FnMut(&T) -> Result<U, E>, E>(
        &self,
        f: &mut F,
    ) -> Result<Result<BoxedArray<U, N>, E>, AllocError>
        requires callable { MayTryMap (λ item. item.now) F.pre F.step f.old self.now }
        ensures run { IfOk result (λ built.
            TryClosureRun (CallAt (λ item. item.now) F.step) f.old self.now built f.new) }
        ensures acts { IfOk result (λ built. (h : T → Result U E)
            → ActsOnEntry (λ item. item.now) F.step f.old h → built ≡ try_map h self.now) }
        ensures err { OnErr result (f.new ≡ f.old) }
        ensures empty { N.USIZE ≡ 0 → IsOk result }
    {
        let mut block = LiveBlock::new(self.items.allocator(), N::USIZE)?;
        for item in self.as_slice() {
            match f(item) {
                Ok(value) => block.put(value),
                Err(error) => return Ok(Err(error)),
            }
        }
        Ok(Ok(BoxedArray::from_block(block)))
    }

    /// The boxed array of what `f` returns at each item and that of `rhs` in its place, both by
    /// reference, called in order. With an array on the right, pass its view.
    ///
    /// Allocates the whole block first: if that fails, `f` is never called. Allocates nothing if
    /// `N` is 0. The counterpart of `zip` of `&GenericArray<T, N>`, which makes an inline array.
    pub fn zip_ref<B, U, F: FnMut(&T, &B) -> U>(
        &self,
        rhs: GenericArrayRef<'_, B, N>,
        mut f: F,
    ) -> Result<BoxedArray<U, N>, AllocError>
        requires callable { MayZip (λ item. item.now) (λ item. item.now) F.pre F.step f self.now
            (items_of_view rhs) }
        ensures run { (last : F) × IfOk result (λ made.
            ClosureRun (CallAtPair (λ item. item.now) (λ item. item.now) F.step) f
            (zip self.now (items_of_view rhs.entry)) made last) }
        ensures acts { IfOk result (λ made. (h : T × B → U)
            → ActsOnEntries (λ item. item.now) (λ item. item.now) F.step f h
            → made ≡ map h (zip self.now (items_of_view rhs.entry))) }
        ensures empty { N.USIZE ≡ 0 → IsOk result }
    {
        self.zip_ref_by(rhs, &mut f)
    }

    /// `zip_ref`: `f` is borrowed.
    pub fn zip_ref_by<B, U, F: FnMut(&T, &B) -> U>(
        &self,
        rhs: GenericArrayRef<'_, B, N>,
        f: &mut F,
    ) -> Result<BoxedArray<U, N>, AllocError>
        requires callable { MayZip (λ item. item.now) (λ item. item.now) F.pre F.step f.old self.now
            (items_of_view rhs) }
        ensures run { IfOk result (λ made.
            ClosureRun (CallAtPair (λ item. item.now) (λ item. item.now) F.step) f.old
            (zip self.now (items_of_view rhs.entry)) made f.new) }
        ensures acts { IfOk result (λ made. (h : T × B → U)
            → ActsOnEntries (λ item. item.now) (λ item. item.now) F.step f.old h
            → made ≡ map h (zip self.now (items_of_view rhs.entry))) }
        ensures err { OnErr result (f.new ≡ f.old) }
        ensures empty { N.USIZE ≡ 0 → IsOk result }
    {
        let mut block = LiveBlock::new(self.items.allocator(), N::USIZE)?;
        let (left, right) = (self.as_slice(), rhs.as_slice());
        for index in 0..N::USIZE {
            block.put(f(&left[index], &right[index]));
        }
        Ok(BoxedArray::from_block(block))
    }
}
