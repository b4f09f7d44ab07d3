//! Each example, by the call that it shows.
use crate::tests::numbers::has;
use generic_array::functional::FunctionalSequence;
use generic_array::sequence::{Flatten, Lengthen, Remove, Shorten, Unflatten};
use generic_array::{Const, GenericArray, U2, U3, U4, U5, U6, always, arr, box_arr};

#[test]
fn arrays_are_built(rt: HostRuntime) {
    let doubled: GenericArray<usize, U4> = GenericArray::generate(|index| 2 * index);
    assert!(rt; has(doubled, &[0, 2, 4, 6]));
    assert!(rt; has(GenericArray::<i32, U5>::default(), &[0; 5]) && arr![1, 2, 3][2] == 3);
}

#[test]
fn items_are_referred_to(rt: HostRuntime) {
    let array = arr![1, 2, 3];
    let refs: GenericArray<Option<&i32>, U3> = array.each_ref();
    assert!(rt; refs[0] == Some(&1) && refs[1] == Some(&2) && refs[2] == Some(&3));
}

#[test]
fn arrays_grow(rt: HostRuntime) {
    let longer: GenericArray<i32, U4> = arr![1, 2, 3].append(4);
    assert!(rt; has(longer, &[1, 2, 3, 4]));
    let longer: GenericArray<i32, U4> = arr![1, 2, 3].prepend(4);
    assert!(rt; has(longer, &[4, 1, 2, 3]));
}

#[test]
fn arrays_shrink(rt: HostRuntime) {
    let (init, last): (GenericArray<i32, U3>, i32) = arr![1, 2, 3, 4].pop_back();
    assert!(rt; last == 4 && has(init, &[1, 2, 3]));
    let (head, tail): (i32, GenericArray<i32, U3>) = arr![1, 2, 3, 4].pop_front();
    assert!(rt; head == 1 && has(tail, &[2, 3, 4]));
}

#[test]
fn items_are_removed(rt: HostRuntime) {
    let (removed, others): (i32, GenericArray<i32, U3>) = arr![1, 2, 3, 4].remove(2);
    assert!(rt; removed == 3 && has(others, &[1, 2, 4]));
    let (removed, others): (i32, GenericArray<i32, U3>) = arr![1, 2, 3, 4].swap_remove(1);
    assert!(rt; removed == 2 && has(others, &[1, 4, 3]));
}

#[test]
fn rows_are_joined_and_cut(rt: HostRuntime) {
    let all: GenericArray<i32, U6> = arr![arr![1, 2], arr![3, 4], arr![5, 6]].flatten();
    assert!(rt; has(all, &[1, 2, 3, 4, 5, 6]));
    let rows: GenericArray<GenericArray<i32, U2>, U3> = arr![1, 2, 3, 4, 5, 6].unflatten();
    assert!(rt; rows == arr![arr![1, 2], arr![3, 4], arr![5, 6]]);
}

fn add(left: &i32, right: i32) -> i32 {
    left.wrapping_add(right)
}

fn add_to(sum: i32, item: &i32) -> i32 {
    sum.wrapping_add(*item)
}

#[test]
fn views_are_zipped_and_folded(rt: HostRuntime) {
    let odd = arr![1, 3, 5, 7];
    let sums = always(odd.view().zip((), arr![2, 4, 6, 8], add));
    assert!(rt;
        sums.as_slice() == [3, 7, 11, 15].as_slice()
            && FunctionalSequence::fold(odd.view(), 0, add_to) == 16
    );
}

#[test]
fn bytes_are_hex_digits(rt: HostRuntime) {
    let mut text = Vec::new(rt.alloc());
    assert!(rt; arr![10u8, 20, 30].write_lower_hex(&mut text, None).is_ok());
    assert!(rt; text.as_slice() == b"0a141e".as_slice());
}

#[test]
fn a_million_items_are_written_to_a_block(rt: HostRuntime) {
    let ones = box_arr!(rt.alloc(), [1u128; Const<1000000>]).expect(&rt, "no memory");
    assert!(rt; ones.len() == 1_000_000 && ones.iter().all(|one| *one == 1));
}
