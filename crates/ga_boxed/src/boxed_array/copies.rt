//! Boxed arrays of defaults and of copies of one value.
ghost use Rattle.ga_core.specs.Copies.{ExactlyEach, IsExact, Repeats};
ghost use Rattle.std.specs.List.{All};
ghost use Rattle.std.specs.Prelude.{◌≡◌, IfOk, IsOk, length, replicate};

use crate::boxed_array::BoxedArray;
use crate::live_block::LiveBlock;
use ga_core::{AllocError, Unsigned};
use std::alloc::Global;

impl<T: Default, N: Unsigned> BoxedArray<T, N> {
    /// The array of `N` defaults. No clause and no test says how often and in which order
    /// `T::default()` is called.
    ///
    /// Allocates the whole block first, and nothing if `N` is 0.
    pub fn default_boxed(alloc: Global) -> Result<Self, AllocError>
        ensures items { IfOk result (λ array. All T.is_default array) }
        ensures len { IfOk result (λ array. length array ≡ N.USIZE) }
        ensures each { IfOk result (λ array. ExactlyEach T.is_default N.USIZE array) }
        ensures empty { N.USIZE ≡ 0 → IsOk result }
    {
        Self::generate(alloc, |_| T::default())
    }
}

impl<T: Copy, N: Unsigned> BoxedArray<T, N> {
    /// The array of `N` times `item`. `box_arr!(alloc, [item; N])` stands on it.
    ///
    /// Allocates the whole block first, and nothing if `N` is 0.
    pub fn from_copies(alloc: Global, item: T) -> Result<Self, AllocError>
        ensures items { IfOk result (λ array. array ≡ replicate N.USIZE item) }
        ensures empty { N.USIZE ≡ 0 → IsOk result }
    {
        Self::generate(alloc, |_| item)
    }
}

impl<T: Clone, N: Unsigned> BoxedArray<T, N> {
    /// The array of `N` values: clones of `item`, made in order, and `item` itself last.
    ///
    /// Allocates the whole block first, and nothing if `N` is 0. If a clone fails, drops those
    /// made before it and returns the error.
    pub fn repeat(alloc: Global, item: T) -> Result<Self, AllocError>
        ensures items { IfOk result (λ array. Repeats T.is_clone item N.USIZE array) }
        ensures same { IsExact T.is_clone item
            → IfOk result (λ array. array ≡ replicate N.USIZE item) }
        ensures empty { N.USIZE ≡ 0 → IsOk result }
    {
        let mut block = LiveBlock::new(alloc, N::USIZE)?;
        for _clone in 1..N::USIZE {
            block.put(item.clone()?);
        }
        if N::USIZE > 0 {
            block.put(item);
        }
        Ok(BoxedArray::from_block(block))
    }
}
