//! Tuples of the items of arrays, each by the native array of them and std's `From`.
ghost use Rattle.std.specs.Prelude.{◌≡◌, ◌∷◌, []};

use crate::array::GenericArray;
use crate::store::array_of_store;
use ga_views::{U1, U2, U3, U4, U5, U6, U7, U8, U9, U10, U11, U12};

impl<T: Default + Drop> From<GenericArray<T, U1>> for (T,) {
    ghost from_gives = { λ array tuple. array ≡ tuple.0 ∷ [] };

    fn from(array: GenericArray<T, U1>) -> Self {
        array_of_store(array.store).into()
    }
}

impl<T: Default + Drop> From<GenericArray<T, U2>> for (T, T) {
    ghost from_gives = { λ array tuple. array ≡ tuple.0 ∷ tuple.1 ∷ [] };

    fn from(array: GenericArray<T, U2>) -> Self {
        array_of_store(array.store).into()
    }
}

impl<T: Default + Drop> From<GenericArray<T, U3>> for (T, T, T) {
    ghost from_gives = { λ array tuple. array ≡ tuple.0 ∷ tuple.1 ∷ tuple.2 ∷ [] };

    fn from(array: GenericArray<T, U3>) -> Self {
        array_of_store(array.store).into()
    }
}

impl<T: Default + Drop> From<GenericArray<T, U4>> for (T, T, T, T) {
    ghost from_gives = { λ array tuple. array ≡ tuple.0 ∷ tuple.1 ∷ tuple.2 ∷ tuple.3 ∷ [] };

    fn from(array: GenericArray<T, U4>) -> Self {
        array_of_store(array.store).into()
    }
}

impl<T: Default + Drop> From<GenericArray<T, U5>> for (T, T, T, T, T) {
    ghost from_gives = { λ array tuple.
        array ≡ tuple.0 ∷ tuple.1 ∷ tuple.2 ∷ tuple.3 ∷ tuple.4 ∷ [] };

    fn from(array: GenericArray<T, U5>) -> Self {
        array_of_store(array.store).into()
    }
}

impl<T: Default + Drop> From<GenericArray<T, U6>> for (T, T, T, T, T, T) {
    ghost from_gives = { λ array tuple.
        array ≡ tuple.0 ∷ tuple.1 ∷ tuple.2 ∷ tuple.3 ∷ tuple.4 ∷ tuple.5 ∷ [] };

    fn from(array: GenericArray<T, U6>) -> Self {
        array_of_store(array.store).into()
    }
}

impl<T: Default + Drop> From<GenericArray<T, U7>> for (T, T, T, T, T, T, T) {
    ghost from_gives = { λ array tuple.
        array ≡ tuple.0 ∷ tuple.1 ∷ tuple.2 ∷ tuple.3 ∷ tuple.4 ∷ tuple.5 ∷ tuple.6 ∷ [] };

    fn from(array: GenericArray<T, U7>) -> Self {
        array_of_store(array.store).into()
    }
}

impl<T: Default + Drop> From<GenericArray<T, U8>> for (T, T, T, T, T, T, T, T) {
    ghost from_gives = { λ array tuple.
        array ≡ tuple.0 ∷ tuple.1 ∷ tuple.2 ∷ tuple.3 ∷ tuple.4 ∷ tuple.5 ∷ tuple.6 ∷ tuple.7
        ∷ [] };

    fn from(array: GenericArray<T, U8>) -> Self {
        array_of_store(array.store).into()
    }
}

impl<T: Default + Drop> From<GenericArray<T, U9>> for (T, T, T, T, T, T, T, T, T) {
    ghost from_gives = { λ array tuple.
        array ≡ tuple.0 ∷ tuple.1 ∷ tuple.2 ∷ tuple.3 ∷ tuple.4 ∷ tuple.5 ∷ tuple.6 ∷ tuple.7
        ∷ tuple.8 ∷ [] };

    fn from(array: GenericArray<T, U9>) -> Self {
        array_of_store(array.store).into()
    }
}

impl<T: Default + Drop> From<GenericArray<T, U10>> for (T, T, T, T, T, T, T, T, T, T) {
    ghost from_gives = { λ array tuple.
        array ≡ tuple.0 ∷ tuple.1 ∷ tuple.2 ∷ tuple.3 ∷ tuple.4 ∷ tuple.5 ∷ tuple.6 ∷ tuple.7
        ∷ tuple.8 ∷ tuple.9 ∷ [] };

    fn from(array: GenericArray<T, U10>) -> Self {
        array_of_store(array.store).into()
    }
}

impl<T: Default + Drop> From<GenericArray<T, U11>> for (T, T, T, T, T, T, T, T, T, T, T) {
    ghost from_gives = { λ array tuple.
        array ≡ tuple.0 ∷ tuple.1 ∷ tuple.2 ∷ tuple.3 ∷ tuple.4 ∷ tuple.5 ∷ tuple.6 ∷ tuple.7
        ∷ tuple.8 ∷ tuple.9 ∷ tuple.10 ∷ [] };

    fn from(array: GenericArray<T, U11>) -> Self {
        array_of_store(array.store).into()
    }
}

impl<T: Default + Drop> From<GenericArray<T, U12>> for (T, T, T, T, T, T, T, T, T, T, T, T) {
    ghost from_gives = { λ array tuple.
        array ≡ tuple.0 ∷ tuple.1 ∷ tuple.2 ∷ tuple.3 ∷ tuple.4 ∷ tuple.5 ∷ tuple.6 ∷ tuple.7
        ∷ tuple.8 ∷ tuple.9 ∷ tuple.10 ∷ tuple.11 ∷ [] };

    fn from(array: GenericArray<T, U12>) -> Self {
        array_of_store(array.store).into()
    }
}
