//! Lengths whose arrays are kept inline.
ghost use Rattle.std.specs.Prelude.{◌≡◌, refl};

use crate::store::Store;
use arrayvec::ArrayVec;
use ga_views::{Const, Unsigned};

/// A length whose arrays of `T` are kept inline. The counterpart of `ArrayLength`, which has no
/// parameter there and can't be implemented outside the crate.
pub trait ArrayLength<T>: Unsigned {
    /// Where such an array keeps its items: a store with room for exactly `USIZE` of them.
    type ArrayType: Store<T>;

    // The store has room for exactly `USIZE` items.
    ghost capacity_is: { Self.ArrayType.CAPACITY ≡ Self.USIZE };
}

impl<T: Default + Drop, const N: usize> ArrayLength<T> for Const<N> {
    type ArrayType = ArrayVec<T, N>;

    ghost capacity_is = { refl };
}

/// A type that names a length. Every `ArrayLength` names itself.
pub trait IntoArrayLength<T> {
    /// The length that is named.
    type ArrayLength: ArrayLength<T>;
}

impl<T, N: ArrayLength<T>> IntoArrayLength<T> for N {
    type ArrayLength = N;
}

/// The length `N`, named as the Rust crate does.
pub type ConstArrayLength<const N: usize> = Const<N>;
