//! An array for writing, as what a writing view stands on.
use crate::array::GenericArray;
use crate::length::ArrayLength;
use crate::store::Store;
use ga_views::reborrow::ReborrowSlice;

impl<'a, T, N: ArrayLength<T>> ReborrowSlice<T> for &'a mut GenericArray<T, N> {
    ghost use Rattle.std.specs.List.{refill};
    ghost use Rattle.std.specs.Prelude.{◌≡◌, length, refl, slice_set};

    ghost items = { λ array. array.now };

    ghost stays = { λ array after. after.ghost_name ≡ array.ghost_name };

    #[inline]
    fn as_slice(&self) -> &[T] {
        GenericArray::as_slice(self)
    }

    ghost slice_with = { λ array written.
        (record array { now = refill (length array.now) array.now written }, refl) };

    ghost slice_with_stays = { λ array written. refl };

    #[inline]
    fn as_mut_slice(&mut self, _len: usize) -> &mut [T] {
        GenericArray::as_mut_slice(self)
    }

    ghost slice_with_item = { λ array index item.
        (record array { now = slice_set array.now index item }, refl) };

    ghost slice_with_item_stays = { λ array index item. refl };

    #[inline]
    fn item_mut(&mut self, index: usize) -> &mut T {
        // The checker knows the fields of what a variable refers to by one reference.
        let array: &mut GenericArray<T, N> = self;
        array.store.item_mut(index)
    }
}
