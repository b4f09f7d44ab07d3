//! Views as slices, and what a proof follows through the views that write.
ghost use Rattle.std.specs.Prelude.{◌≡◌, ◌∷◌, [], ◌≤◌, ◌↔◌, IsOk, length, slice_set};

use ga_core::reborrow::{ReborrowPart, ReborrowSlice};
use ga_core::{
    ChunksMut, GenericArray, GenericArrayMut, GenericArrayRef, LengthError, U2, ViewMut,
};
use std::marker::PhantomData;

/// Any view that writes, as an array's.
fn first_set<S: ReborrowSlice<u8>>(view: &mut ViewMut<S, u8, U2>)
    ensures items { S.items view.new.slice ≡ slice_set (S.items view.old.slice) 0 6 }
    ensures stays { S.stays view.old.slice view.new.slice }
{
    view.as_mut_slice()[0] = 6;
}

fn first_of_array_set(array: &mut GenericArray<u8, U2>)
    ensures { array.new ≡ slice_set array.old 0 6 }
{
    let mut view = array.view_mut();
    first_set(&mut view);
}

/// Any slice that lends an item and a part.
fn second_and_first_set<S: ReborrowPart<u8>>(slice: &mut S)
    requires { 2 ≤ length (S.items slice.old) }
    ensures { S.items slice.new ≡ slice_set (slice_set (S.items slice.old) 1 9) 0 6 }
{
    *slice.item_mut(1) = 9;
    slice.part_mut(0, 1)[0] = 6;
}

fn array_set_through_a_literal(array: &mut GenericArray<u8, U2>)
    ensures { array.new ≡ slice_set array.old 1 6 }
{
    let items = array.as_mut_slice();
    let mut view: GenericArrayMut<u8, U2> = ViewMut {
        slice: items,
        of: PhantomData,
    };
    view.as_mut_slice()[1] = 6;
}

fn slice_set_behind_a_pattern(slice: &mut [u8])
    requires { length slice.old ≡ 2 }
    ensures { slice.new ≡ slice_set slice.old 1 6 }
{
    let view: GenericArrayMut<u8, U2> = GenericArrayMut::from_mut_slice(slice);
    let ViewMut {
        slice: items,
        of: _,
    } = view;
    items[1] = 6;
}

fn row_and_rest_set(slice: &mut [u8])
    requires { slice.old ≡ 1 ∷ 2 ∷ 3 ∷ 4 ∷ 5 ∷ [] }
    ensures { slice.new ≡ 1 ∷ 2 ∷ 9 ∷ 4 ∷ 8 ∷ [] }
{
    let (whole, rest) = ChunksMut::<u8, U2>::whole_and_rest(slice);
    let mut rows: ChunksMut<u8, U2> = ChunksMut::over(whole);
    rows.row_mut(1)[0] = 9;
    rest[0] = 8;
}

/// A length that `?` checks.
fn second_set_if_two(slice: &mut [u8]) -> Result<(), LengthError>
    ensures variant { IsOk result ↔ (length slice.old ≡ 2) }
    ensures ok { IsOk result → slice.new ≡ slice_set slice.old 1 6 }
{
    let _ = GenericArrayRef::<u8, U2>::try_from_slice(slice)?;
    let mut view: GenericArrayMut<u8, U2> = GenericArrayMut::from_mut_slice(slice);
    view[1] = 6;
    Ok(())
}
