//! Callers of the shapes, with the items that they get.
ghost use Rattle.std.specs.List.{flat_map};
ghost use Rattle.std.specs.Prelude.{◌≡◌, ◌∷◌, [], IfOk};

use generic_array::sequence::{Remove, Split, iter_flat};
use generic_array::{GenericArray, GenericArrayMut, LengthError, U1, U2, U3, U4, U5};

/// Two rows of two.
type Square = GenericArray<GenericArray<u32, U2>, U2>;

/// The first item of three, and the others.
type CutMut<'a> = (GenericArrayMut<'a, u32, U1>, GenericArrayMut<'a, u32, U2>);

fn writing_view_cut_after_the_first<'a>(view: GenericArrayMut<'a, u32, U3>) -> CutMut<'a>
    requires { view.slice.now ≡ 1 ∷ 2 ∷ 3 ∷ [] }
    ensures first { result.0.slice.now ≡ 1 ∷ [] }
    ensures second { result.1.slice.now ≡ 2 ∷ 3 ∷ [] }
{
    view.split()
}

/// A proof learns what both halves write where it follows the slice, and each half is made a view.
fn both_halves_written(slice: &mut [u32])
    requires { slice.old ≡ 1 ∷ 2 ∷ 3 ∷ 4 ∷ 5 ∷ [] }
    ensures { slice.new ≡ 9 ∷ 2 ∷ 3 ∷ 4 ∷ 8 ∷ [] }
{
    let mut view: GenericArrayMut<u32, U5> = GenericArrayMut::from_mut_slice(slice);
    let (first, second) = view.as_mut_slice().split_at_mut(2);
    let mut first: GenericArrayMut<u32, U2> = GenericArrayMut::from_mut_slice(first);
    let mut second: GenericArrayMut<u32, U3> = GenericArrayMut::from_mut_slice(second);
    first.as_mut_slice()[0] = 9;
    second.as_mut_slice()[2] = 8;
}

/// The first of four, and the others but the second, once two are removed.
fn two_removed(array: GenericArray<u32, U4>) -> (u32, GenericArray<u32, U2>)
    requires { array ≡ 1 ∷ 2 ∷ 3 ∷ 4 ∷ [] }
    ensures { result ≡ (1, 4 ∷ 3 ∷ []) }
{
    let (_second, others): (u32, GenericArray<u32, U3>) = array.remove(1);
    others.swap_remove(0)
}

/// The same by the names of the Rust crate's unsafe calls.
fn two_removed_unchecked(array: GenericArray<u32, U4>) -> (u32, GenericArray<u32, U2>)
    requires { array ≡ 1 ∷ 2 ∷ 3 ∷ 4 ∷ [] }
    ensures { result ≡ (1, 4 ∷ 3 ∷ []) }
{
    let (_second, others): (u32, GenericArray<u32, U3>) = array.remove_unchecked(1);
    others.swap_remove_unchecked(0)
}

fn copy_of_rows(rows: &Square) -> Result<GenericArray<u32, U4>, LengthError>
    ensures ok { IfOk result (λ all. all ≡ flat_map (λ row. row) rows.now) }
{
    GenericArray::try_from_iter(iter_flat(rows.view()).copied())
}
