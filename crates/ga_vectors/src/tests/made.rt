//! What the builds of the traits make of each kind.
use crate::tests::fills::{Answer, Scripted};
use crate::tests::numbers::gives;
use generic_array::sequence::{FallibleGenericSequence, FromFallibleIterator};
use generic_array::{
    ArrayLength, BoxedArray, GenericArray, GenericArrayRef, InlineLength, U0, U2, U3,
};
use std::alloc::Global;

fn square(index: usize) -> usize {
    index.wrapping_mul(index)
}

fn same(index: usize) -> Result<usize, u8> {
    Ok(index)
}

/// Whether a kind makes these squares, copies of 7, and the numbers of its places by a closure that
/// may fail.
fn makes<S: FallibleGenericSequence<usize>>(place: S::Place, all: [&[usize]; 3]) -> bool
where
    S::Place: Copy,
    S::Sequence: Drop,
    S::Error: Drop,
    requires { S.Fits }
{
    let [squares, sevens, numbers] = all;
    let are_numbers = match S::try_generate(place, same) {
        Ok(made) => gives(made, numbers),
        Err(_refused) => false,
    };
    gives(S::generate(place, square), squares) && gives(S::repeat(place, 7), sevens) && are_numbers
}

/// Whether each kind of a length makes these. One function for all calls hands over what they share
/// once.
fn each_makes<N: ArrayLength<usize> + InlineLength>(alloc: Global, all: [&[usize]; 3]) -> bool {
    makes::<GenericArray<usize, N>>((), all)
        && makes::<GenericArrayRef<usize, N>>((), all)
        && makes::<BoxedArray<usize, N>>(alloc, all)
}

/// Whether a kind is filled by these results with these items.
fn is_filled<S: FromFallibleIterator<u32> + Drop>(
    place: S::Place,
    results: &[Option<Answer>],
    items: &[u32],
) -> bool
where
    S::Error: Drop,
    requires { S.Fits }
{
    gives(S::from_fallible_iter(place, Scripted::new(results)), items)
}

#[test]
fn each_kind_is_made_by_the_calls_of_the_traits(rt: HostRuntime) {
    assert!(rt; each_makes::<U3>(rt.alloc(), [&[0, 1, 4], &[7, 7, 7], &[0, 1, 2]]));
    assert!(rt; each_makes::<U0>(rt.alloc(), [&[], &[], &[]]));
    assert!(rt; each_makes::<U2>(rt.alloc(), [&[0, 1], &[7, 7], &[0, 1]]));
    let two = [Some(Ok(4)), Some(Ok(5))];
    assert!(rt; is_filled::<GenericArray<u32, U2>>((), &two, &[4, 5]));
    assert!(rt; is_filled::<GenericArray<u32, U0>>((), &[], &[]));
    assert!(rt; is_filled::<BoxedArray<u32, U2>>(rt.alloc(), &two, &[4, 5]));
}
