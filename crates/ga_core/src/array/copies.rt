//! Arrays of defaults, of copies of one value, and copies of arrays.
ghost use Rattle.ga_core.specs.Copies.{ExactlyEach, IsExact, Repeats};
ghost use Rattle.ga_views.specs.Length.{FitsInline};
ghost use Rattle.std.specs.List.{All, AllZip};
ghost use Rattle.std.specs.Prelude.{◌≡◌, ◌≤◌, IfOk, IsOk, length, replicate};

use crate::array::GenericArray;
use crate::errors::AllocError;
use crate::length::ArrayLength;
use crate::slots::{write_clones, write_copies};
use crate::store::Store;
use std::alloc;

impl<T: Default + Drop, N: ArrayLength<T>> GenericArray<T, N> {
    /// The array of `N` defaults. Requires `N <= MAX_INLINE`. No clause and no test says how often
    /// and in which order `T::default()` is called.
    ///
    /// For every length that fits. The trait `Default`, which items of arrays need, is there for
    /// every `InlineLength`.
    pub fn default() -> Self
        requires fits { FitsInline N.USIZE }
        ensures items { All T.is_default result }
        ensures len { length result ≡ N.USIZE }
        ensures each { ExactlyEach T.is_default N.USIZE result }
    {
        GenericArray::from_store(Store::with_defaults(N::USIZE))
    }
}

impl<T: Copy + Default + Drop, N: ArrayLength<T>> GenericArray<T, N> {
    /// The array of `N` times `item`. Requires `N <= MAX_INLINE`. `arr![item; N]` stands on it.
    #[inline]
    pub fn from_copies(item: T) -> Self
        requires fits { FitsInline N.USIZE }
        ensures { result ≡ replicate N.USIZE item }
    {
        Self::generate(|_| item)
    }
}

impl<T: Clone + Default, N: ArrayLength<T>> GenericArray<T, N> {
    /// The array of `N` values: clones of `item`, made in order, and `item` itself last.
    ///
    /// Requires `N <= MAX_INLINE`. If a clone fails, drops those made before it and returns the
    /// error; for a length of 0 or 1 none is made. The counterpart of `GenericSequence::repeat`.
    #[inline(always)]
    pub fn repeat(item: T) -> Result<Self, AllocError>
        requires fits { FitsInline N.USIZE }
        ensures items { IfOk result (λ array. Repeats T.is_clone item N.USIZE array) }
        ensures same { IsExact T.is_clone item
            → IfOk result (λ array. array ≡ replicate N.USIZE item) }
        ensures few { N.USIZE ≤ 1 → IsOk result }
        ensures succeeds { T.is_infallible item → IsOk result }
    {
        let mut array = Self::default();
        match write_copies(array.as_mut_slice(), item) {
            Ok(()) => Ok(array.repack()),
            Err(refused) => Err(refused),
        }
    }

    /// The array of clones of the items, made in order.
    ///
    /// If a clone fails, drops those made before it and returns the error.
    pub fn clone(&self) -> Result<Self, AllocError>
        ensures items { IfOk result (λ copy. AllZip T.is_clone self.now copy) }
        ensures same { All (IsExact T.is_clone) self.now → IfOk result (λ copy. copy ≡ self.now) }
        ensures succeeds { All T.is_infallible self.now → IsOk result }
        ensures empty { N.USIZE ≡ 0 → IsOk result }
    {
        let items = self.as_slice();
        let mut copy = Self::default();
        match write_clones(copy.as_mut_slice(), items) {
            Ok(()) => Ok(copy.repack()),
            Err(refused) => Err(refused),
        }
    }
}

impl<T: Clone + Default, N: ArrayLength<T>> Clone for GenericArray<T, N> {
    ghost is_clone = { λ array copy. AllZip T.is_clone array copy };

    ghost is_infallible = { λ array. All T.is_infallible array };

    fn clone(&self) -> Result<Self, alloc::AllocError> {
        match GenericArray::clone(self) {
            Ok(copy) => Ok(copy),
            Err(_) => Err(alloc::AllocError),
        }
    }
}
