//! `Default` for the lengths that fit inline, so that arrays of these can be items of arrays.
ghost use Rattle.ga_core.specs.Copies.{ExactlyEach};
ghost use Rattle.std.specs.List.{All};
ghost use Rattle.std.specs.Prelude.{◌≡◌, length};

use crate::array::GenericArray;
use crate::length::ArrayLength;
use ga_views::InlineLength;

impl<T: Default + Drop, N: ArrayLength<T> + InlineLength> Default for GenericArray<T, N> {
    ghost is_default = { λ array. (length array ≡ N.USIZE) × All T.is_default array
        × ExactlyEach T.is_default N.USIZE array };

    fn default() -> Self {
        GenericArray::default()
    }
}
