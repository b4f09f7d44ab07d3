//! Conversions from and to inline arrays, native arrays, vectors and boxed slices.
ghost use Rattle.std.specs.Box.{boxed_slice_items};
ghost use Rattle.std.specs.Prelude.{◌≡◌, ◌≢◌, ◌↔◌, IfOk, IsOk, length};

use crate::boxed_array::BoxedArray;
use crate::live_block::LiveBlock;
use ga_core::{AllocError, ArrayLength, Const, GenericArray, LengthError, Unsigned};
use std::alloc::Global;
use std::boxed::BoxedSlice;
use std::mem;

impl<T: Default + Drop, N: ArrayLength<T>> BoxedArray<T, N> {
    /// The items of an inline array in a block. If the allocation fails, drops them. Allocates
    /// nothing if `N` is 0.
    ///
    /// Moves each item once.
    pub fn from_inline(alloc: Global, mut array: GenericArray<T, N>) -> Result<Self, AllocError>
        ensures ok { IfOk result (λ boxed. boxed ≡ array) }
        ensures empty { N.USIZE ≡ 0 → IsOk result }
    {
        let slots = array.as_mut_slice();
        let mut block = LiveBlock::new(alloc, N::USIZE)?;
        for slot in slots.iter_mut() {
            block.put(mem::take(slot));
        }
        Ok(BoxedArray::from_block(block))
    }
}

impl<T: Drop, const U: usize> BoxedArray<T, Const<U>> {
    /// The items of a native array in a block. If the allocation fails, drops them. Allocates
    /// nothing if there are none.
    ///
    /// Moves each item once. `box_arr!` stands on it.
    pub fn from_array(alloc: Global, items: [T; U]) -> Result<Self, AllocError>
        ensures ok { IfOk result (λ boxed. boxed ≡ items) }
        ensures empty { U ≡ 0 → IsOk result }
    {
        Ok(BoxedArray::from_block(LiveBlock::from_array(alloc, items)?))
    }
}

impl<T: Drop, N: Unsigned> BoxedArray<T, N> {
    /// The array of the items of a vector, or `LengthError` if they aren't exactly `N`. Compares
    /// the lengths before it allocates. Either error drops the vector. Allocates nothing if `N` is
    /// 0.
    ///
    /// The counterpart of `GenericArray::try_from_vec`. Moves each item once, to a block for `N`.
    pub fn try_from_vec(
        alloc: Global,
        items: Vec<T>,
    ) -> Result<Result<Self, LengthError>, AllocError>
        ensures variant { IfOk result (λ built. IsOk built ↔ (length items.items ≡ N.USIZE)) }
        ensures ok { IfOk result (λ built. IfOk built (λ array. array ≡ items.items)) }
        ensures other { length items.items ≢ N.USIZE → IsOk result }
        ensures empty { N.USIZE ≡ 0 → IsOk result }
    {
        if items.len() != N::USIZE {
            return Ok(Err(LengthError));
        }
        let mut block = LiveBlock::new(alloc, N::USIZE)?;
        // One by one, though fills take blocks: of so plain a loop the compiler makes vector code.
        for item in items {
            block.put(item);
        }
        Ok(Ok(BoxedArray::from_block(block)))
    }

    /// `try_from_vec` of a boxed slice. The counterpart of `GenericArray::try_from_boxed_slice`.
    pub fn try_from_boxed_slice(
        alloc: Global,
        items: BoxedSlice<T, Global>,
    ) -> Result<Result<Self, LengthError>, AllocError>
        ensures variant { IfOk result (λ built.
            IsOk built ↔ (length (boxed_slice_items items) ≡ N.USIZE)) }
        ensures ok { IfOk result (λ built. IfOk built (λ array. array ≡ boxed_slice_items items)) }
        ensures other { length (boxed_slice_items items) ≢ N.USIZE → IsOk result }
        ensures empty { N.USIZE ≡ 0 → IsOk result }
    {
        Self::try_from_vec(alloc, items.into_vec())
    }

    /// The items as a vector. If the allocation fails, drops them. Allocates nothing if `N` is 0.
    /// The counterpart of `GenericArray::into_vec`.
    ///
    /// Moves each item once, to the vector's memory.
    pub fn into_vec(self) -> Result<Vec<T>, AllocError>
        ensures ok { IfOk result (λ items. items.items ≡ self) }
        ensures empty { N.USIZE ≡ 0 → IsOk result }
    {
        let BoxedArray {
            items: mut block,
            of: _,
        } = self;
        let mut vector = Vec::with_capacity(block.allocator(), N::USIZE)?;
        // The count is a constant, so the compiler moves several small items at once.
        for _moved in 0..N::USIZE {
            vector.push_reserved(block.take_first());
        }
        Ok(vector)
    }

    /// The items as a boxed slice: see `into_vec`. The counterpart of
    /// `GenericArray::into_boxed_slice`.
    pub fn into_boxed_slice(self) -> Result<BoxedSlice<T, Global>, AllocError>
        ensures ok { IfOk result (λ items. boxed_slice_items items ≡ self) }
        ensures empty { N.USIZE ≡ 0 → IsOk result }
    {
        Ok(self.into_vec()?.into_boxed_slice())
    }
}
