//! Calls of a closure at the items of an inline array, in plain types: what is made is an inline
//! array too.
//!
//! The traits of `generic_array` have `map`, `try_map` and `zip` for every kind of sequence. These
//! calls name their types, so that who writes one has less to prove.
ghost use Rattle.ga_core.specs.Calls.{MayMap, MayTryMap, MayZip};
ghost use Rattle.ga_core.specs.Entries.{ActsOnEntries, CallAtPair};
ghost use Rattle.ga_core.specs.Runs.{ClosureRun, TryClosureRun};
ghost use Rattle.ga_core.specs.Tries.{try_map};
ghost use Rattle.std.specs.Iterator.{ActsAs};
ghost use Rattle.std.specs.List.{zip};
ghost use Rattle.std.specs.Prelude.{◌≡◌, Result, map};

use crate::array::GenericArray;
use crate::call_results::{try_write_mapped, write_mapped, write_zipped};
use crate::length::ArrayLength;

impl<T: Default + Drop, N: ArrayLength<T>> GenericArray<T, N> {
    /// The array of what `f` returns at each item, called in order. Takes the items by value.
    ///
    /// The counterpart of `map`. Allocates nothing.
    #[inline(always)]
    pub fn map_inline<U: Default + Drop, F: FnMut(T) -> U>(self, mut f: F) -> GenericArray<U, N>
    where
        N: ArrayLength<U>,
        requires callable { MayMap (λ item. item) F.pre F.step f self }
        ensures run { (last : F) × ClosureRun F.step f self result last }
        ensures acts { (h : T → U) → ActsAs F.FnMut f h → result ≡ map h self }
    {
        self.map_inline_by(&mut f)
    }

    /// `map_inline`: `f` is borrowed.
    #[inline(always)]
    pub fn map_inline_by<U: Default + Drop, F: FnMut(T) -> U>(
        mut self,
        f: &mut F,
    ) -> GenericArray<U, N>
    where
        N: ArrayLength<U>,
        requires callable { MayMap (λ item. item) F.pre F.step f.old self }
        ensures run { ClosureRun F.step f.old self result f.new }
        ensures acts { (h : T → U) → ActsAs F.FnMut f.old h → result ≡ map h self }
    {
        let mut made = GenericArray::<U, N>::default();
        write_mapped(self.as_mut_slice(), made.as_mut_slice(), f);
        made.repack()
    }

    /// `map_inline` with a closure that may fail: the array of what it returns, or its first error.
    ///
    /// No call follows an error. The items that were made, and those that are left, are dropped.
    #[inline(always)]
    pub fn try_map_inline<U: Default + Drop, F: FnMut(T) -> Result<U, E>, E>(
        self,
        mut f: F,
    ) -> Result<GenericArray<U, N>, E>
    where
        N: ArrayLength<U>,
        requires callable { MayTryMap (λ item. item) F.pre F.step f self }
        ensures run { (last : F) × TryClosureRun F.step f self result last }
        ensures acts { (h : T → Result U E) → ActsAs F.FnMut f h → result ≡ try_map h self }
    {
        self.try_map_inline_by(&mut f)
    }

    /// `try_map_inline`: `f` is borrowed.
    #[inline(always)]
    pub fn try_map_inline_by<U: Default + Drop, F: FnMut(T) -> Result<U, E>, E>(
        mut self,
        f: &mut F,
    ) -> Result<GenericArray<U, N>, E>
    where
        N: ArrayLength<U>,
        requires callable { MayTryMap (λ item. item) F.pre F.step f.old self }
        ensures run { TryClosureRun F.step f.old self result f.new }
        ensures acts { (h : T → Result U E) → ActsAs F.FnMut f.old h → result ≡ try_map h self }
    {
        let mut made = GenericArray::<U, N>::default();
        match try_write_mapped(self.as_mut_slice(), made.as_mut_slice(), f) {
            Ok(()) => Ok(made.repack()),
            Err(error) => Err(error),
        }
    }

    /// The array of what `f` returns at each item and that of `rhs` in its place, called in order.
    /// Takes the items of both by value.
    ///
    /// The counterpart of `zip`. Allocates nothing.
    #[inline(always)]
    pub fn zip_inline<B: Default + Drop, U: Default + Drop, F: FnMut(T, B) -> U>(
        self,
        rhs: GenericArray<B, N>,
        mut f: F,
    ) -> GenericArray<U, N>
    where
        N: ArrayLength<B> + ArrayLength<U>,
        requires callable { MayZip (λ item. item) (λ item. item) F.pre F.step f self rhs }
        ensures run { (last : F)
            × ClosureRun (CallAtPair (λ item. item) (λ item. item) F.step) f (zip self rhs)
            result last }
        ensures acts { (h : T × B → U) → ActsOnEntries (λ item. item) (λ item. item) F.step f h
            → result ≡ map h (zip self rhs) }
    {
        self.zip_inline_by(rhs, &mut f)
    }

    /// `zip_inline`: `f` is borrowed.
    #[inline(always)]
    pub fn zip_inline_by<B: Default + Drop, U: Default + Drop, F: FnMut(T, B) -> U>(
        mut self,
        mut rhs: GenericArray<B, N>,
        f: &mut F,
    ) -> GenericArray<U, N>
    where
        N: ArrayLength<B> + ArrayLength<U>,
        requires callable { MayZip (λ item. item) (λ item. item) F.pre F.step f.old self rhs }
        ensures run { ClosureRun (CallAtPair (λ item. item) (λ item. item) F.step) f.old
            (zip self rhs)
            result f.new }
        ensures acts { (h : T × B → U) → ActsOnEntries (λ item. item) (λ item. item) F.step f.old h
            → result ≡ map h (zip self rhs) }
    {
        let mut made = GenericArray::<U, N>::default();
        write_zipped(
            self.as_mut_slice(),
            rhs.as_mut_slice(),
            made.as_mut_slice(),
            f,
        );
        made.repack()
    }
}
