//! A trait of your own over arrays of a length that each impl chooses, whose calls take them by
//! value.
ghost use Rattle.ga_core.specs.Views.{items_of_view};
ghost use Rattle.std.specs.Prelude.{◌≡◌, ℕ, ◌/◌, ◌++◌, List, drop, take};

use ga_core::{ArrayLength, GenericArray, GenericArrayRef, InlineLength, Unsigned};
use std::marker::PhantomData;

/// Turns blocks of one length.
///
/// Its calls take a block by a length of their own, which is the trait's: no impl is proved whose
/// call takes an array or a view of `Self::Size` by value.
trait Turner {
    /// How many bytes a block has.
    type Size: ArrayLength<u8> + InlineLength;

    // What a block is turned to.
    ghost turned: { List ℕ → List ℕ };

    /// A view of a block, turned.
    fn turned_copy<N: ArrayLength<u8>>(
        block: GenericArrayRef<'_, u8, N>,
    ) -> GenericArray<u8, Self::Size>
        requires { N.USIZE ≡ Self.Size.USIZE }
        ensures { result ≡ turned (items_of_view block.entry) };

    /// The block, turned.
    fn turn<N: ArrayLength<u8>>(block: GenericArray<u8, N>) -> GenericArray<u8, N>
        requires { N.USIZE ≡ Self.Size.USIZE }
        ensures { result ≡ turned block };
}

/// Swaps the halves of blocks of any length; of an odd one the second is longer.
struct Swap<N> {
    of: PhantomData<N>,
}

impl<L: ArrayLength<u8> + InlineLength> Turner for Swap<L> {
    type Size = L;

    ghost turned = { λ block. drop (L.USIZE / 2) block ++ take (L.USIZE / 2) block };

    fn turned_copy<N: ArrayLength<u8>>(block: GenericArrayRef<'_, u8, N>) -> GenericArray<u8, L> {
        let mut copy = GenericArray::from_view(GenericArrayRef::from_slice(block.into_slice()));
        copy.rotate_left(L::USIZE / 2);
        copy
    }

    fn turn<N: ArrayLength<u8>>(mut block: GenericArray<u8, N>) -> GenericArray<u8, N> {
        block.rotate_left(N::USIZE / 2);
        block
    }
}

fn turned_twice<T: Turner>(block: GenericArray<u8, T::Size>) -> GenericArray<u8, T::Size>
    ensures { result ≡ T.turned (T.turned block) }
{
    T::turn(T::turned_copy(block.view()))
}
