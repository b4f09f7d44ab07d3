//! Conversions from and to native arrays, vectors and boxed slices, and from views.
ghost use Rattle.ga_views.specs.Views.{items_of_view};
ghost use Rattle.ga_views.specs.Length.{FitsInline};
ghost use Rattle.std.specs.Box.{boxed_slice_items};
ghost use Rattle.std.specs.Prelude.{◌≡◌, ◌≤◌, ◌↔◌, IfOk, IsOk, [], length, vec_capacity};

use crate::array::GenericArray;
use crate::errors::AllocError;
use crate::length::ArrayLength;
use crate::slots::move_items;
use crate::store::store_of_array;
use ga_views::{Const, GenericArrayRef, InlineLength, LengthError};
use std::alloc::Global;
use std::boxed::BoxedSlice;
use std::marker::PhantomData;
use std::mem;

impl<T: Default + Drop, const U: usize> GenericArray<T, Const<U>> {
    /// The array of the items of a native one. The counterpart of `GenericArray::from_array`, and
    /// of `From<[T; N]>`.
    ///
    /// Requires `N <= MAX_INLINE`. Moves the items once, and allocates nothing.
    #[inline]
    pub fn from_array(items: [T; U]) -> Self
        requires fits { FitsInline U }
        ensures { result ≡ items }
    {
        GenericArray {
            store: store_of_array(items),
            of: PhantomData,
        }
    }
}

impl<T: Copy + Default + Drop, N: ArrayLength<T>> GenericArray<T, N> {
    /// The array of copies of a view's items. The counterpart of `*view` where `GenericArray` is
    /// `Copy`.
    ///
    /// Requires `N <= MAX_INLINE`. Copies the items once, and allocates nothing.
    #[inline]
    pub fn from_view(view: GenericArrayRef<'_, T, N>) -> Self
        requires fits { FitsInline N.USIZE }
        ensures { result ≡ items_of_view view.entry }
    {
        let mut array = Self::default();
        array.as_mut_slice().copy_from_slice(view.as_slice());
        array.repack()
    }

    /// The native array of the items. Requires that `U` is `N`. The counterpart of
    /// `GenericArray::into_array`.
    ///
    /// Copies the items once.
    #[inline]
    pub fn into_array<const U: usize>(self) -> [T; U]
        requires len { N.USIZE ≡ U }
        ensures { result ≡ self }
    {
        let mut items = [T::default(); U];
        items.copy_from_slice(self.as_slice());
        items
    }
}

impl<T: Default + Drop, N: ArrayLength<T>> GenericArray<T, N> {
    /// The array of the items of a vector, or `LengthError` if it doesn't have `N` items; the
    /// vector is then dropped. The counterpart of `TryFrom<Vec<T>>`.
    ///
    /// Requires `N <= MAX_INLINE`. Moves each item once, and allocates nothing.
    pub fn try_from_vec(mut items: Vec<T>) -> Result<Self, LengthError>
        requires fits { FitsInline N.USIZE }
        ensures variant { IsOk result ↔ (length items.items ≡ N.USIZE) }
        ensures ok { IfOk result (λ array. array ≡ items.items) }
    {
        if items.len() != N::USIZE {
            return Err(LengthError);
        }
        let mut array = Self::default();
        move_items(items.as_mut_slice(), array.as_mut_slice());
        Ok(array.repack())
    }

    /// `try_from_vec` of a boxed slice. The counterpart of `TryFrom<Box<[T]>>`.
    pub fn try_from_boxed_slice(items: BoxedSlice<T, Global>) -> Result<Self, LengthError>
        requires fits { FitsInline N.USIZE }
        ensures variant { IsOk result ↔ (length (boxed_slice_items items) ≡ N.USIZE) }
        ensures ok { IfOk result (λ array. array ≡ boxed_slice_items items) }
    {
        Self::try_from_vec(items.into_vec())
    }

    /// The items as a vector. If its block can't be allocated, drops them and returns the error.
    /// Allocates nothing if `N` is 0. The counterpart of `From<GenericArray<T, N>>` for `Vec<T>`.
    ///
    /// Moves each item once.
    pub fn into_vec(mut self, alloc: Global) -> Result<Vec<T>, AllocError>
        ensures ok { IfOk result (λ items. items.items ≡ self) }
        ensures empty { N.USIZE ≡ 0 → IsOk result }
    {
        let mut items = Vec::with_capacity(alloc, N::USIZE)?;
        push_items(self.as_mut_slice(), &mut items);
        Ok(items)
    }

    /// The items as a boxed slice: see `into_vec`.
    pub fn into_boxed_slice(self, alloc: Global) -> Result<BoxedSlice<T, Global>, AllocError>
        ensures ok { IfOk result (λ items. boxed_slice_items items ≡ self) }
        ensures empty { N.USIZE ≡ 0 → IsOk result }
    {
        Ok(self.into_vec(alloc)?.into_boxed_slice())
    }
}

// Moves the items of a slice into a vector without items that has room for them, and leaves
// defaults.
#[inline]
fn push_items<T: Default + Drop>(slots: &mut [T], items: &mut Vec<T>)
    requires empty { items.old.items ≡ [] }
    requires room { length slots.old ≤ vec_capacity items.old }
    ensures { items.new.items ≡ slots.old }
{
    for slot in slots.iter_mut() {
        items.push_reserved(mem::take(slot));
    }
}

/// See `from_array`.
impl<T: Default + Drop, const U: usize> From<[T; U]> for GenericArray<T, Const<U>>
where
    Const<U>: InlineLength,
{
    ghost from_gives = { λ items array. array ≡ items };

    #[inline]
    fn from(items: [T; U]) -> Self {
        GenericArray::from_array(items)
    }
}

/// See `into_array`.
impl<T: Copy + Default + Drop, const U: usize> From<GenericArray<T, Const<U>>> for [T; U] {
    ghost from_gives = { λ array items. items ≡ array };

    #[inline]
    fn from(array: GenericArray<T, Const<U>>) -> Self {
        array.into_array()
    }
}

/// See `try_from_vec`.
impl<T: Default + Drop, N: ArrayLength<T> + InlineLength> TryFrom<Vec<T>> for GenericArray<T, N> {
    type Error = LengthError;

    ghost try_from_gives = { λ items made. (IsOk made ↔ (length items.items ≡ N.USIZE))
        × IfOk made (λ array. array ≡ items.items) };

    fn try_from(items: Vec<T>) -> Result<Self, LengthError> {
        Self::try_from_vec(items)
    }
}

/// See `try_from_boxed_slice`.
impl<T: Default + Drop, N: ArrayLength<T> + InlineLength> TryFrom<BoxedSlice<T, Global>>
    for GenericArray<T, N> {
    type Error = LengthError;

    ghost try_from_gives = { λ items made. (IsOk made
        ↔ (length (boxed_slice_items items) ≡ N.USIZE))
        × IfOk made (λ array. array ≡ boxed_slice_items items) };

    fn try_from(items: BoxedSlice<T, Global>) -> Result<Self, LengthError> {
        Self::try_from_boxed_slice(items)
    }
}
