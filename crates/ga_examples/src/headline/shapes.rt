//! Shapes and their inverses.
ghost use Rattle.std.specs.Prelude.{◌<◌, length};

use ga_headline::shapes::{
    concat_then_split, flatten_then_unflatten, pop_then_put, put_then_pop, split_then_concat,
    split_view, unflatten_then_flatten,
};
use generic_array::{GenericArray, U0, U1, U2, U3, U4, U5, arr};

/// Two rows of two.
type Pairs = GenericArray<GenericArray<u32, U2>, U2>;

fn total_of(items: &[u32]) -> u32 {
    items.iter().fold(0, |sum, item| sum.wrapping_add(*item))
}

fn one_to_four() -> GenericArray<u32, U4> {
    arr![1, 2, 3, 4]
}

// What may be called with just the items that it is shown: an index that these have.
#[test]
fn what_is_put_and_taken_again_is_gone(rt: HostRuntime) {
    let (array, item, fifth) = put_then_pop::<u32, U4, U5, _, _>(
        one_to_four(),
        8,
        false,
        |items: &[u32]| -> u32
            requires { 4 < length items.now }
        { items[4] },
    );
    assert!(rt; item == 8 && fifth == 8 && array == one_to_four());
    let (array, sum) = pop_then_put::<u32, U4, U3, _, _>(one_to_four(), true, total_of);
    assert!(rt; sum == 9 && array == one_to_four());
}

#[test]
fn what_is_split_and_joined_is_as_it_was(rt: HostRuntime) {
    let (array, sums) = split_then_concat::<u32, U4, U2, U2, _, _>(
        one_to_four(),
        |first, second| { (total_of(first), total_of(second)) },
    );
    assert!(rt; sums == (3, 7) && array == one_to_four());
    let (none, array, sum) = concat_then_split::<u32, U4, U0, U4, _, _>(
        arr![],
        one_to_four(),
        total_of,
    );
    assert!(rt; sum == 10 && none == arr![] && array == one_to_four());
    let (first, last) = split_view::<u32, U4, U1, U3>(array.view());
    assert!(rt; first.as_slice() == [1].as_slice() && last.as_slice() == [2, 3, 4].as_slice());
}

#[test]
fn what_is_cut_into_rows_and_joined_is_as_it_was(rt: HostRuntime) {
    let (array, count) = unflatten_then_flatten::<u32, GenericArray<u32, U4>, Pairs, _, _>(
        one_to_four(),
        |rows| rows.as_slice().len(),
    );
    assert!(rt; count == 2 && array == one_to_four());
    let (rows, count) = flatten_then_unflatten::<u32, GenericArray<u32, U4>, Pairs, _, _>(
        arr![arr![1u32, 2], arr![3, 4]],
        |items| items.len(),
    );
    assert!(rt; count == 4 && rows[1] == arr![3, 4]);
}
