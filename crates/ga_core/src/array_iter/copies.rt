//! Clones of an iterator: of the items that are left.
ghost use Rattle.ga_core.specs.Copies.{IsExact};
ghost use Rattle.std.specs.List.{All, AllZip};
ghost use Rattle.std.specs.Prelude.{◌≡◌, IfOk, IsOk};

use crate::array_iter::GenericArrayIter;
use crate::errors::AllocError;
use crate::length::ArrayLength;
use crate::slots::write_clones;
use crate::store::Store;
use std::alloc;

impl<T: Clone + Default, N: ArrayLength<T>> GenericArrayIter<T, N> {
    /// An iterator over clones of the items that are left, made in order.
    ///
    /// If a clone fails, drops those made before it and returns the error.
    pub fn clone(&self) -> Result<Self, AllocError>
        ensures items { IfOk result (λ copy. AllZip T.is_clone self.now copy) }
        ensures same { All (IsExact T.is_clone) self.now → IfOk result (λ copy. copy ≡ self.now) }
        ensures succeeds { All T.is_infallible self.now → IsOk result }
    {
        let items = self.as_slice();
        let mut store = N::ArrayType::with_defaults(N::USIZE);
        match write_clones(store.part_mut(0, items.len()), items) {
            Ok(()) => Ok(GenericArrayIter::from_store(store, items.len())),
            Err(refused) => Err(refused),
        }
    }
}

impl<T: Clone + Default, N: ArrayLength<T>> Clone for GenericArrayIter<T, N> {
    ghost is_clone = { λ items copy. AllZip T.is_clone items copy };

    ghost is_infallible = { λ items. All T.is_infallible items };

    fn clone(&self) -> Result<Self, alloc::AllocError> {
        match GenericArrayIter::clone(self) {
            Ok(copy) => Ok(copy),
            Err(_) => Err(alloc::AllocError),
        }
    }
}
