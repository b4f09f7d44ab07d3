//! Maps, zips and folds of the traits: what they return, and where they stop.
use crate::tests::counted::Counts;
use crate::tests::numbers::{boxed_from_one, from_one, next_digit};
use generic_array::checks::map_total_by;
use generic_array::functional::{FunctionalSequence, inverted_zip, inverted_zip2};
use generic_array::sequence::Concat;
use generic_array::{
    AllocError, ArrayLength, BoxedArray, GenericArray, GenericArrayRef, InlineLength, U3, U4,
    Unsigned, always, arr,
};
use std::alloc::Global;
use std::test::Fail;

type Inline<N> = GenericArray<u32, N>;

type Boxed<N> = BoxedArray<u32, N>;

fn doubled(item: u32) -> u32 {
    item.wrapping_mul(2)
}

/// `map_total_by` of a view.
fn total_of_view<N: ArrayLength<u32> + InlineLength>(view: GenericArrayRef<'_, u32, N>) -> u32 {
    let mut double = |item: &u32| doubled(*item);
    always(map_total_by(view, (), &mut double, 0, &mut next_digit))
}

/// `map_total_by` of an inline array.
fn total_of_array<N: ArrayLength<u32> + InlineLength>(array: Inline<N>) -> u32 {
    always(map_total_by(array, (), &mut doubled, 0, &mut next_digit))
}

/// `map_total_by` of a boxed array.
fn total_of_boxed<N: Unsigned>(alloc: Global, array: Boxed<N>) -> Result<u32, AllocError> {
    map_total_by(array, alloc, &mut doubled, 0, &mut next_digit)
}

#[test]
fn a_map_is_folded_in_order(rt: HostRuntime) -> Result<(), Fail> {
    let array = from_one::<U3>();
    assert!(rt; total_of_view(array.view()) == 246 && total_of_array(array) == 246);
    let boxed = boxed_from_one::<U3>(rt.alloc())?;
    assert!(rt; total_of_boxed(rt.alloc(), boxed)? == 246);
    Ok(())
}

/// Twice the item, but an error for 2.
fn doubled_but_two(item: u32) -> Result<u32, u32> {
    if item == 2 {
        Err(item)
    } else {
        Ok(doubled(item))
    }
}

/// The error of a map of a view, if there is one, and the number of calls.
fn mapped_up_to_two<N: ArrayLength<u32> + InlineLength>(
    view: GenericArrayRef<'_, u32, N>,
) -> (Option<u32>, usize) {
    let counts = Counts::default();
    let mut map = |item: &u32| counts.same(doubled_but_two(*item));
    let mapped = always(view.try_map_by((), &mut map));
    (mapped.err(), counts.calls.get())
}

#[test]
fn a_map_of_a_view_stops_at_an_error(rt: HostRuntime) {
    assert!(rt; mapped_up_to_two(from_one::<U3>().view()) == (Some(2), 2));
}

/// The same of a map of an inline array.
fn array_mapped_up_to_two<N: ArrayLength<u32> + InlineLength>(
    array: Inline<N>,
) -> (Option<u32>, usize) {
    let counts = Counts::default();
    let mut map = |item: u32| counts.same(doubled_but_two(item));
    let mapped = always(array.try_map_by((), &mut map));
    (mapped.err(), counts.calls.get())
}

#[test]
fn a_map_of_an_array_stops_at_an_error(rt: HostRuntime) {
    assert!(rt; array_mapped_up_to_two(from_one::<U3>()) == (Some(2), 2));
}

/// The same of a map of a boxed array.
fn block_mapped_up_to_two<N: Unsigned>(
    alloc: Global,
    array: Boxed<N>,
) -> Result<(Option<u32>, usize), AllocError> {
    let counts = Counts::default();
    let mut map = |item: u32| counts.same(doubled_but_two(item));
    let mapped = array.try_map_by(alloc, &mut map)?;
    Ok((mapped.err(), counts.calls.get()))
}

#[test]
fn a_map_of_a_block_stops_at_an_error(rt: HostRuntime) -> Result<(), Fail> {
    let array = boxed_from_one::<U3>(rt.alloc())?;
    assert!(rt; block_mapped_up_to_two(rt.alloc(), array)? == (Some(2), 2));
    Ok(())
}

/// The sum, or an error of it where it passes 3.
fn added_up_to_three(sum: u32, item: u32) -> Result<u32, u32> {
    let next = sum.wrapping_add(item);
    if next > 3 { Err(next) } else { Ok(next) }
}

/// What a fold up to a sum of 3 returns, and the number of calls.
fn folded_up_to_three<N: ArrayLength<u32> + InlineLength>(
    array: Inline<N>,
) -> (Result<u32, u32>, usize) {
    let counts = Counts::default();
    let mut add = |sum: u32, item: u32| counts.same(added_up_to_three(sum, item));
    (array.try_fold_by(0, &mut add), counts.calls.get())
}

#[test]
fn a_fold_stops_at_an_error(rt: HostRuntime) {
    assert!(rt; folded_up_to_three(from_one::<U4>()) == (Err(6), 3));
}

/// The running sums of the items of both arrays, by one closure.
fn running_sums<N: ArrayLength<u32> + InlineLength>(
    first: Inline<N>,
    second: Inline<N>,
) -> (Inline<N>, Inline<N>) {
    let mut sum = 0u32;
    let mut add = |item: u32| {
        sum = sum.wrapping_add(item);
        sum
    };
    let first = always(first.map_by((), &mut add));
    (first, always(second.map_by((), &mut add)))
}

#[test]
fn a_map_of_joined_arrays_goes_on_where_the_first_ends(rt: HostRuntime) {
    let joined: GenericArray<u32, U4> = arr![1u32, 2].concat(arr![3u32, 4]);
    assert!(rt; running_sums(joined, GenericArray::default()).0 == arr![1, 3, 6, 10]);
    assert!(rt; running_sums(arr![1u32, 2], arr![3u32, 4]) == (arr![1u32, 3], arr![6u32, 10]));
}

/// The boxed items less the inline ones: by a zip of an inline array with a boxed one.
fn less_of_inline<N: ArrayLength<u32> + InlineLength>(
    inline: Inline<N>,
    boxed: Boxed<N>,
) -> Inline<N> {
    always(inline.zip((), boxed, |left: u32, right: u32| right.wrapping_sub(left)))
}

/// The same by a zip of the boxed array with the inline one.
fn less_of_boxed<N: ArrayLength<u32> + InlineLength>(
    alloc: Global,
    boxed: Boxed<N>,
    inline: Inline<N>,
) -> Result<Boxed<N>, AllocError> {
    boxed.zip(alloc, inline, u32::wrapping_sub)
}

#[test]
fn a_zip_of_two_kinds_is_of_the_first(rt: HostRuntime) -> Result<(), Fail> {
    let boxed = BoxedArray::from_array(rt.alloc(), [3, 5])?;
    assert!(rt; less_of_inline(arr![1u32, 2], boxed) == arr![2u32, 3]);
    let boxed = BoxedArray::from_array(rt.alloc(), [3, 5])?;
    let less = less_of_boxed(rt.alloc(), boxed, arr![1u32, 2])?;
    assert!(rt; less.as_slice() == [2, 3].as_slice());
    Ok(())
}

/// `inverted_zip` of inline arrays.
fn inverted<N: ArrayLength<u32> + InlineLength>(array: Inline<N>, left: Inline<N>) -> Inline<N> {
    inverted_zip(array, left, u32::wrapping_sub)
}

/// `inverted_zip2` of inline arrays.
fn inverted_second<N: ArrayLength<u32> + InlineLength>(
    array: Inline<N>,
    left: Inline<N>,
) -> Inline<N> {
    always(inverted_zip2(array, (), left, u32::wrapping_sub))
}

/// `inverted_zip2` of an inline array, with a boxed one on the left.
fn inverted_boxed<N: ArrayLength<u32> + InlineLength>(
    alloc: Global,
    array: Inline<N>,
    left: Boxed<N>,
) -> Result<Boxed<N>, AllocError> {
    inverted_zip2(array, alloc, left, u32::wrapping_sub)
}

#[test]
fn inverted_zips_take_the_left_side_second(rt: HostRuntime) -> Result<(), Fail> {
    assert!(rt; inverted(arr![1u32, 2], arr![10u32, 20]) == arr![9u32, 18]);
    assert!(rt; inverted_second(arr![1u32, 2], arr![10u32, 20]) == arr![9u32, 18]);
    let left = BoxedArray::from_array(rt.alloc(), [10, 20])?;
    let boxed = inverted_boxed(rt.alloc(), arr![1u32, 2], left)?;
    assert!(rt; boxed.as_slice() == [9, 18].as_slice());
    Ok(())
}
