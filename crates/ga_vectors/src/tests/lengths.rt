//! The lengths of types, the longest inline array, and items that take no space.
use generic_array::{
    BoxedArray, Const, ConstArrayLength, ConstGenericArray, GenericArray, IntoArrayLength, U3,
};
use std::test::Fail;

fn named_length<T, N: IntoArrayLength<T>>() -> usize {
    GenericArray::<T, N::ArrayLength>::len()
}

#[test]
fn lengths_are_those_of_the_types(rt: HostRuntime) {
    assert!(rt; ConstGenericArray::<u8, 7>::len() == 7);
    assert!(rt; GenericArray::<u8, ConstArrayLength<9>>::len() == 9);
    assert!(rt; named_length::<u8, U3>() == 3);
    assert!(rt; GenericArray::<u8, Const<65536>>::fits());
    assert!(rt; !GenericArray::<u8, Const<65537>>::fits());
}

#[test]
fn units_and_the_longest_inline_array_are_held(rt: HostRuntime) -> Result<(), Fail> {
    let units: BoxedArray<(), U3> = BoxedArray::generate(rt.alloc(), |_index| ())?;
    let mut left = units.into_iter();
    assert!(rt; left.next().is_some() && left.next().is_some());
    assert!(rt; left.next().is_some() && left.next().is_none());
    let bytes: GenericArray<u8, Const<65536>> = GenericArray::generate(|index| (index % 256) as u8);
    assert!(rt; bytes[65_535] == 255 && bytes[65_280] == 0);
    Ok(())
}
