//! Items that go from one kind of array to another, through vectors, boxed slices and tuples.
use crate::tests::numbers::{gives, has};
use generic_array::{AllocError, BoxedArray, GenericArray, U0, U1, U2, U3, U4, U12, arr, box_arr};
use std::test::Fail;

type Twelve = (u8, u8, u8, u8, u8, u8, u8, u8, u8, u8, u8, u8);

#[test]
fn tuples_become_arrays_and_come_back(rt: HostRuntime) {
    let pair: GenericArray<u8, U2> = (7, 8).into();
    assert!(rt; pair.as_slice() == [7, 8].as_slice());
    let pair: (u8, u8) = pair.into();
    assert!(rt; pair == (7, 8));
    let one: GenericArray<u8, U1> = (7,).into();
    assert!(rt; one.as_slice() == [7].as_slice());
    let one: (u8,) = one.into();
    assert!(rt; one == (7,));
}

#[test]
fn twelve_items_are_a_tuple(rt: HostRuntime) {
    let numbers = [1, 2, 3, 4, 5, 6, 7, 8, 9, 10, 11, 12];
    let array: GenericArray<u8, U12> = (1, 2, 3, 4, 5, 6, 7, 8, 9, 10, 11, 12).into();
    assert!(rt; array.as_slice() == numbers.as_slice());
    let again: Twelve = array.into();
    let again: GenericArray<u8, U12> = again.into();
    assert!(rt; has(again, &numbers));
}

#[test]
fn three_items_go_through_vectors_and_back(rt: HostRuntime) -> Result<(), Fail> {
    let items = box_arr!(rt.alloc(), [1u8, 2, 3])?.into_vec()?;
    let made = BoxedArray::<u8, U3>::try_from_vec(rt.alloc(), items)?;
    assert!(rt; gives(made, &[1, 2, 3]));
    let items = vec![in rt.alloc(); 1u8, 2, 3]?;
    assert!(rt; GenericArray::<u8, U4>::try_from_vec(items).is_err());
    let items = vec![in rt.alloc(); 1u8, 2, 3]?;
    assert!(rt; BoxedArray::<u8, U4>::try_from_vec(rt.alloc(), items)?.is_err());
    Ok(())
}

#[test]
fn two_items_go_through_a_vector_and_boxed_slices(rt: HostRuntime) -> Result<(), Fail> {
    let items = arr![1u8, 2].into_vec(rt.alloc())?;
    assert!(rt; items.capacity() == 2 && has(items, &[1, 2]));
    assert!(rt; gives(arr![1u8, 2].into_boxed_slice(rt.alloc()), &[1, 2]));
    let items = BoxedArray::from_inline(rt.alloc(), arr![1u8, 2])?.into_boxed_slice()?;
    assert!(rt; items.as_slice() == [1, 2].as_slice());
    let made = BoxedArray::<u8, U2>::try_from_boxed_slice(rt.alloc(), items)?;
    assert!(rt; gives(made, &[1, 2]));
    Ok(())
}

#[test]
fn blocks_are_written_out(rt: HostRuntime) {
    assert!(rt; gives(box_arr!(rt.alloc(), [7u8; U3]), &[7, 7, 7]));
    let none: Result<BoxedArray<u8, U0>, AllocError> = box_arr!(rt.alloc(), []);
    assert!(rt; gives(none, &[]));
}
