//! Builds and copies that stop at a call or a clone: how many were made before it, and what is
//! dropped of them.
ghost use Rattle.generic_array.specs.Length.{FitsInline};

use crate::tests::counted::{Counted, Counts, Item, Seen, boxed_items, flat, inline_items};
use crate::tests::numbers::digits;
use generic_array::{
    AllocError, ArrayLength, BoxedArray, Const, GenericArray, U0, U1, U3, U4, U5, Unsigned,
};
use std::alloc::Global;
use std::test::Fail;

/// Builds of N items, inline and in a block.
fn builds<'a, T: Item<'a>, N: ArrayLength<T>>(alloc: Global, counts: &'a Counts) -> [Seen; 2]
    requires { FitsInline N.USIZE }
{
    let mut make = |index: usize| -> Result<T, u32> { counts.try_make(index) };
    let inline = counts.seen(GenericArray::<T, N>::try_generate_by(&mut make));
    let boxed = BoxedArray::<T, N>::try_generate_by(alloc, &mut make);
    [inline, counts.seen(flat(boxed))]
}

#[test]
fn a_build_of_five_stops_at_each_error_and_drops_what_it_made(rt: HostRuntime) {
    let counts = Counts::default();
    for place in 0..5usize {
        counts.fail_at(place + 1);
        let stopped = builds::<Counted, U5>(rt.alloc(), &counts);
        assert!(rt; stopped == [(None, place + 1, place); 2], "{place}");
    }
}

/// N copies of an item, inline and in a block.
fn copies<'a, T: Item<'a>, N: ArrayLength<T>>(alloc: Global, counts: &'a Counts) -> [Seen; 2]
    requires { FitsInline N.USIZE }
{
    let inline = counts.seen(GenericArray::<T, N>::repeat(T::at(counts, 0)));
    let boxed = BoxedArray::<T, N>::repeat(alloc, T::at(counts, 0));
    [inline, counts.seen(boxed)]
}

#[test]
fn copies_are_clones_but_for_the_last(rt: HostRuntime) {
    let counts = Counts::default();
    assert!(rt; copies::<Counted, U3>(rt.alloc(), &counts) == [(Some(111), 2, 0); 2]);
    assert!(rt; copies::<Counted, U1>(rt.alloc(), &counts) == [(Some(1), 0, 0); 2]);
    assert!(rt; copies::<Counted, U0>(rt.alloc(), &counts) == [(Some(0), 0, 1); 2]);
}

#[test]
fn four_copies_stop_at_each_clone_that_is_refused(rt: HostRuntime) {
    let counts = Counts::default();
    for number in 1..4usize {
        counts.fail_at(number);
        let stopped = copies::<Counted, U4>(rt.alloc(), &counts);
        assert!(rt; stopped == [(None, number, number); 2], "{number}");
    }
}

/// Whether a clone was made, how many clones of items it asked for, how many items it dropped, and
/// the digits of the items that were to be cloned.
pub type Cloned = (bool, usize, usize, u32);

macro_rules! cloned {
    ($counts:ident, $source:expr) => {{
        let source = $source;
        let is_made = source.clone().is_ok();
        (is_made, $counts.calls.get(), $counts.drops.get(), digits(source.as_slice()))
    }};
}

fn cloned_inline<'a, T: Item<'a>, N: ArrayLength<T>>(counts: &'a Counts, is_array: bool) -> Cloned
    requires { FitsInline N.USIZE }
{
    let array = inline_items::<T, N>(counts);
    if is_array {
        cloned!(counts, array)
    } else {
        cloned!(counts, array.into_iter())
    }
}

/// The same of the iterator of a block.
pub fn cloned_block<'a, T: Item<'a>, N: Unsigned>(
    alloc: Global,
    counts: &'a Counts,
) -> Result<Cloned, AllocError> {
    Ok(cloned!(counts, boxed_items::<T, N>(alloc, counts)?.into_iter()))
}

#[test]
fn a_clone_of_three_stops_at_each_clone_that_is_refused(rt: HostRuntime) -> Result<(), Fail> {
    for number in 1..4usize {
        let stopped = (false, number, number - 1, 123);
        for is_array in [true, false] {
            let counts = Counts::default();
            counts.fail_at(number);
            let cloned = cloned_inline::<Counted, U3>(&counts, is_array);
            assert!(rt; cloned == stopped, "{number}, {is_array}");
        }
        let counts = Counts::default();
        counts.fail_at(number);
        let cloned = cloned_block::<Counted, U3>(rt.alloc(), &counts)?;
        assert!(rt; cloned == stopped, "{number}");
    }
    Ok(())
}

#[test]
fn more_numbers_than_a_block_holds_are_refused_before_any_call(rt: HostRuntime) {
    let counts = Counts::default();
    let mut make = |index: usize| counts.same(index as u64);
    let made = BoxedArray::<u64, Const<18446744073709551615>>::generate_by(rt.alloc(), &mut make);
    assert!(rt; made.is_err() && counts.calls.get() == 0);
}
