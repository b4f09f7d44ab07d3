//! Arrays of the items of tuples, each by the native array of them.
ghost use Rattle.std.specs.Prelude.{◌≡◌, ◌∷◌, []};

use crate::array::GenericArray;
use ga_views::{U1, U2, U3, U4, U5, U6, U7, U8, U9, U10, U11, U12};

impl<T: Default + Drop> From<(T,)> for GenericArray<T, U1> {
    ghost from_gives = { λ tuple array. array ≡ tuple.0 ∷ [] };

    fn from(tuple: (T,)) -> Self {
        GenericArray::from_array(tuple.into())
    }
}

impl<T: Default + Drop> From<(T, T)> for GenericArray<T, U2> {
    ghost from_gives = { λ tuple array. array ≡ tuple.0 ∷ tuple.1 ∷ [] };

    fn from(tuple: (T, T)) -> Self {
        GenericArray::from_array(tuple.into())
    }
}

impl<T: Default + Drop> From<(T, T, T)> for GenericArray<T, U3> {
    ghost from_gives = { λ tuple array. array ≡ tuple.0 ∷ tuple.1 ∷ tuple.2 ∷ [] };

    fn from(tuple: (T, T, T)) -> Self {
        GenericArray::from_array(tuple.into())
    }
}

impl<T: Default + Drop> From<(T, T, T, T)> for GenericArray<T, U4> {
    ghost from_gives = { λ tuple array. array ≡ tuple.0 ∷ tuple.1 ∷ tuple.2 ∷ tuple.3 ∷ [] };

    fn from(tuple: (T, T, T, T)) -> Self {
        GenericArray::from_array(tuple.into())
    }
}

impl<T: Default + Drop> From<(T, T, T, T, T)> for GenericArray<T, U5> {
    ghost from_gives = { λ tuple array.
        array ≡ tuple.0 ∷ tuple.1 ∷ tuple.2 ∷ tuple.3 ∷ tuple.4 ∷ [] };

    fn from(tuple: (T, T, T, T, T)) -> Self {
        GenericArray::from_array(tuple.into())
    }
}

impl<T: Default + Drop> From<(T, T, T, T, T, T)> for GenericArray<T, U6> {
    ghost from_gives = { λ tuple array.
        array ≡ tuple.0 ∷ tuple.1 ∷ tuple.2 ∷ tuple.3 ∷ tuple.4 ∷ tuple.5 ∷ [] };

    fn from(tuple: (T, T, T, T, T, T)) -> Self {
        GenericArray::from_array(tuple.into())
    }
}

impl<T: Default + Drop> From<(T, T, T, T, T, T, T)> for GenericArray<T, U7> {
    ghost from_gives = { λ tuple array.
        array ≡ tuple.0 ∷ tuple.1 ∷ tuple.2 ∷ tuple.3 ∷ tuple.4 ∷ tuple.5 ∷ tuple.6 ∷ [] };

    fn from(tuple: (T, T, T, T, T, T, T)) -> Self {
        GenericArray::from_array(tuple.into())
    }
}

impl<T: Default + Drop> From<(T, T, T, T, T, T, T, T)> for GenericArray<T, U8> {
    ghost from_gives = { λ tuple array.
        array ≡ tuple.0 ∷ tuple.1 ∷ tuple.2 ∷ tuple.3 ∷ tuple.4 ∷ tuple.5 ∷ tuple.6 ∷ tuple.7
        ∷ [] };

    fn from(tuple: (T, T, T, T, T, T, T, T)) -> Self {
        GenericArray::from_array(tuple.into())
    }
}

impl<T: Default + Drop> From<(T, T, T, T, T, T, T, T, T)> for GenericArray<T, U9> {
    ghost from_gives = { λ tuple array.
        array ≡ tuple.0 ∷ tuple.1 ∷ tuple.2 ∷ tuple.3 ∷ tuple.4 ∷ tuple.5 ∷ tuple.6 ∷ tuple.7
        ∷ tuple.8 ∷ [] };

    fn from(tuple: (T, T, T, T, T, T, T, T, T)) -> Self {
        GenericArray::from_array(tuple.into())
    }
}

impl<T: Default + Drop> From<(T, T, T, T, T, T, T, T, T, T)> for GenericArray<T, U10> {
    ghost from_gives = { λ tuple array.
        array ≡ tuple.0 ∷ tuple.1 ∷ tuple.2 ∷ tuple.3 ∷ tuple.4 ∷ tuple.5 ∷ tuple.6 ∷ tuple.7
        ∷ tuple.8 ∷ tuple.9 ∷ [] };

    fn from(tuple: (T, T, T, T, T, T, T, T, T, T)) -> Self {
        GenericArray::from_array(tuple.into())
    }
}

impl<T: Default + Drop> From<(T, T, T, T, T, T, T, T, T, T, T)> for GenericArray<T, U11> {
    ghost from_gives = { λ tuple array.
        array ≡ tuple.0 ∷ tuple.1 ∷ tuple.2 ∷ tuple.3 ∷ tuple.4 ∷ tuple.5 ∷ tuple.6 ∷ tuple.7
        ∷ tuple.8 ∷ tuple.9 ∷ tuple.10 ∷ [] };

    fn from(tuple: (T, T, T, T, T, T, T, T, T, T, T)) -> Self {
        GenericArray::from_array(tuple.into())
    }
}

impl<T: Default + Drop> From<(T, T, T, T, T, T, T, T, T, T, T, T)> for GenericArray<T, U12> {
    ghost from_gives = { λ tuple array.
        array ≡ tuple.0 ∷ tuple.1 ∷ tuple.2 ∷ tuple.3 ∷ tuple.4 ∷ tuple.5 ∷ tuple.6 ∷ tuple.7
        ∷ tuple.8 ∷ tuple.9 ∷ tuple.10 ∷ tuple.11 ∷ [] };

    fn from(tuple: (T, T, T, T, T, T, T, T, T, T, T, T)) -> Self {
        GenericArray::from_array(tuple.into())
    }
}
