//! The kinds of sequences whose entries a closure can be called at, and what a map of each makes.
ghost use Rattle.std.specs.Prelude.{refl};

use crate::functional::{FunctionalSequence, MappedGenericSequence, MapsInline};
use crate::sequence::GenericSequence;
use ga_boxed::BoxedArray;
use ga_core::{ArrayLength, GenericArray, GenericArrayRef, Never, Unsigned};

impl<T: Default + Drop, N: ArrayLength<T>> FunctionalSequence<T> for GenericArray<T, N> {}

impl<'a, T: Default + Drop, N: ArrayLength<T>> FunctionalSequence<T>
    for GenericArrayRef<'a, T, N> {}

impl<'a, T: Default + Drop, N: ArrayLength<T>> FunctionalSequence<T> for &'a GenericArray<T, N> {}

impl<T: Drop, N: Unsigned> FunctionalSequence<T> for BoxedArray<T, N> {}

impl<
    T: Default + Drop,
    U: Default + Drop,
    N: ArrayLength<T> + ArrayLength<U>,
> MappedGenericSequence<T, U> for GenericArray<T, N> {
    type Mapped = GenericArray<U, N>;

    ghost same_length = { refl };
}

impl<
    'a,
    T: Default + Drop,
    U: Default + Drop,
    N: ArrayLength<T> + ArrayLength<U>,
> MappedGenericSequence<T, U> for GenericArrayRef<'a, T, N> {
    type Mapped = GenericArray<U, N>;

    ghost same_length = { refl };
}

impl<
    'a,
    T: Default + Drop,
    U: Default + Drop,
    N: ArrayLength<T> + ArrayLength<U>,
> MappedGenericSequence<T, U> for &'a GenericArray<T, N> {
    type Mapped = GenericArray<U, N>;

    ghost same_length = { refl };
}

impl<T: Drop, U: Drop, N: Unsigned> MappedGenericSequence<T, U> for BoxedArray<T, N> {
    type Mapped = BoxedArray<U, N>;

    ghost same_length = { refl };
}

impl<
    T,
    U,
    S: FunctionalSequence<T>
        + MappedGenericSequence<
            T,
            U,
            Mapped: GenericSequence<U, Place = (), Error = Never, Sequence: Drop>,
        >,
> MapsInline<T, U> for S {}
