//! Boxed builds at concrete types: what they make, how often they call, and what they take.
use crate::tests::counted::Counts;
use crate::tests::fills::{End, Scripted, boxed_fallible_fill};
use crate::tests::numbers::gives;
use generic_array::{BoxedArray, U2, U3};
use std::test::Fail;

#[test]
fn a_block_is_made_by_one_call_for_each_place(rt: HostRuntime) {
    let counts = Counts::default();
    let mut square = |index: usize| counts.same(index.wrapping_mul(index));
    let squares = BoxedArray::<usize, U3>::generate_by(rt.alloc(), &mut square);
    assert!(rt; gives(squares, &[0, 1, 4]) && counts.calls.get() == 3);
}

#[test]
fn a_build_of_a_block_stops_at_an_error(rt: HostRuntime) -> Result<(), Fail> {
    let counts = Counts::default();
    let mut build = |index: usize| counts.same(if index == 1 { Err(index) } else { Ok(index) });
    let built = BoxedArray::<usize, U3>::try_generate_by(rt.alloc(), &mut build)?;
    assert!(rt; built.err() == Some(1) && counts.calls.get() == 2);
    Ok(())
}

#[test]
fn a_fill_of_a_block_stops_at_an_error(rt: HostRuntime) {
    let results = [Ok(1), Err("x")].map(Some);
    let run = boxed_fallible_fill::<U2>(rt.alloc(), Scripted::new(&results));
    assert!(rt; run == (End::Item("x"), 2, None));
}

#[test]
fn an_error_behind_the_last_item_of_a_block_is_one_item_too_many(rt: HostRuntime) {
    let results = [Ok(1), Ok(2), Err("x")].map(Some);
    let run = boxed_fallible_fill::<U2>(rt.alloc(), Scripted::new(&results));
    assert!(rt; run == (End::WrongLength, 3, None));
}

#[test]
fn a_block_is_of_copies_or_of_what_an_iterator_gives(rt: HostRuntime) -> Result<(), Fail> {
    assert!(rt; gives(BoxedArray::<u8, U2>::default_boxed(rt.alloc()), &[0, 0]));
    assert!(rt; gives(BoxedArray::<u8, U3>::repeat(rt.alloc(), 7), &[7, 7, 7]));
    let mut items = 4..6u32;
    let filled = BoxedArray::<u32, U2>::try_boxed_from_iter(rt.alloc(), &mut items)?;
    assert!(rt; gives(filled, &[4, 5]));
    Ok(())
}
