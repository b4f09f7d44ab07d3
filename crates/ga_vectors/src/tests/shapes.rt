//! Items that go through each shape.
ghost use Rattle.std.specs.Prelude.{◌≡◌, length};

use crate::tests::numbers::{from_one, gives};
use generic_array::sequence::{
    Concat, Flatten, Lengthen, Remove, Shorten, Split, Unflatten, iter_flat,
};
use generic_array::{GenericArray, GenericArrayMut, U0, U2, U3, U4, U5, arr};

#[test]
fn a_split_at_the_front_gives_nothing_and_all(rt: HostRuntime) {
    let (none, all): (GenericArray<u32, U0>, GenericArray<u32, U3>) = from_one::<U3>().split();
    assert!(rt; none.as_slice().is_empty() && all.as_slice() == [1, 2, 3].as_slice());
}

/// Writes 9 at the first place of the first half, and 8 at the third of the second.
fn write_through_halves(slice: &mut [u32])
    requires { length slice.old ≡ 5 }
{
    let view: GenericArrayMut<u32, U5> = GenericArrayMut::from_mut_slice(slice);
    let (mut first, mut second): (GenericArrayMut<u32, U2>, GenericArrayMut<u32, U3>) =
        view.split();
    first.as_mut_slice()[0] = 9;
    second.as_mut_slice()[2] = 8;
}

fn write_through_halves_of_array(array: &mut GenericArray<u32, U5>) {
    let (mut first, mut second): (GenericArrayMut<u32, U2>, GenericArrayMut<u32, U3>) = array
        .view_mut()
        .split();
    first.as_mut_slice()[0] = 9;
    second.as_mut_slice()[2] = 8;
}

#[test]
fn what_is_written_through_both_halves_of_a_view_stands_in_the_slice(rt: HostRuntime) {
    let mut items: [u32; 5] = [1, 2, 3, 4, 5];
    write_through_halves(&mut items);
    assert!(rt; items == [9, 2, 3, 4, 8]);
    let mut array: GenericArray<u32, U5> = from_one();
    write_through_halves_of_array(&mut array);
    assert!(rt; array.as_slice() == [9, 2, 3, 4, 8].as_slice());
}

#[test]
fn an_array_may_be_without_items(rt: HostRuntime) {
    let (last, others): (u32, GenericArray<u32, U3>) = from_one::<U4>().swap_remove(3);
    assert!(rt; last == 4 && others.as_slice() == [1, 2, 3].as_slice());
    let (only, none): (u32, GenericArray<u32, U0>) = arr![5].pop_front();
    assert!(rt; only == 5 && none.as_slice().is_empty());
    let two: GenericArray<u32, U2> = none.concat(from_one::<U2>());
    assert!(rt; two.as_slice() == [1, 2].as_slice());
}

#[test]
fn there_may_be_no_rows(rt: HostRuntime) {
    let rows: GenericArray<GenericArray<u32, U2>, U0> = from_one::<U0>().unflatten();
    assert!(rt; rows.as_slice().is_empty());
    let none: GenericArray<u32, U0> = rows.flatten();
    assert!(rt; none.as_slice().is_empty());
}

#[test]
fn rows_may_be_without_items(rt: HostRuntime) {
    let rows: GenericArray<GenericArray<u32, U0>, U3> = GenericArray::default();
    assert!(rt; iter_flat(rows.view()).next().is_none());
    let none: GenericArray<u32, U0> = rows.flatten();
    assert!(rt; none.as_slice().is_empty());
}

#[test]
fn the_items_of_rows_come_row_by_row(rt: HostRuntime) {
    let rows: GenericArray<GenericArray<u32, U2>, U2> = arr![arr![1, 2], arr![3, 4]];
    let items = GenericArray::<u32, U4>::try_from_iter(iter_flat(rows.view()).copied());
    assert!(rt; gives(items, &[1, 2, 3, 4]));
}
