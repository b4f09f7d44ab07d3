//! Inline builds at concrete types: how often they call and take.
ghost use Rattle.generic_array.specs.Length.{FitsInline};

use crate::tests::counted::Counts;
use crate::tests::fills::{End, Scripted, inline_fallible_fill, inline_fill};
use crate::tests::numbers::{gives, has};
use generic_array::{ArrayLength, GenericArray, U0, U2, U3, U4, U5};

/// The array of doubled places, and how often the closure was called.
fn doubled<N: ArrayLength<usize>>() -> (GenericArray<usize, N>, usize)
    requires { FitsInline N.USIZE }
{
    let counts = Counts::default();
    let mut double = |index: usize| counts.same(index.wrapping_mul(2));
    (GenericArray::generate_by(&mut double), counts.calls.get())
}

#[test]
fn a_closure_is_called_once_for_each_place(rt: HostRuntime) {
    let (four, calls) = doubled::<U4>();
    assert!(rt; has(four, &[0, 2, 4, 6]) && calls == 4);
    let (none, calls) = doubled::<U0>();
    assert!(rt; has(none, &[]) && calls == 0);
}

/// The error of a build that fails at index 2, if there is one, and the number of calls.
fn built_up_to_two<N: ArrayLength<usize>>() -> (Option<usize>, usize)
    requires { FitsInline N.USIZE }
{
    let counts = Counts::default();
    let mut build = |index: usize| counts.same(if index == 2 { Err(index) } else { Ok(index) });
    let built = GenericArray::<usize, N>::try_generate_by(&mut build);
    (built.err(), counts.calls.get())
}

#[test]
fn a_build_stops_at_an_error(rt: HostRuntime) {
    assert!(rt; built_up_to_two::<U5>() == (Some(2), 3));
    assert!(rt; built_up_to_two::<U0>() == (None, 0));
}

#[test]
fn a_fill_takes_one_item_more_than_fits(rt: HostRuntime) {
    let seven = [1, 2, 3, 4, 5, 6, 7].map(Some);
    assert!(rt; inline_fill::<U4>(Scripted::new(&seven)) == (End::WrongLength, 5, Some(6)));
    let three = [1, 2, 3].map(Some);
    assert!(rt; inline_fill::<U4>(Scripted::new(&three)) == (End::WrongLength, 4, None));
    assert!(rt; inline_fill::<U0>(Scripted::new(&[])) == (End::Made(0), 1, None));
    let two = [9, 8].map(Some);
    assert!(rt; inline_fill::<U0>(Scripted::new(&two)) == (End::WrongLength, 1, Some(8)));
}

#[test]
fn a_fallible_fill_stops_at_the_first_error(rt: HostRuntime) {
    let results = [Ok(1), Err("x"), Ok(3)].map(Some);
    let run = inline_fallible_fill::<U3>(Scripted::new(&results));
    assert!(rt; run == (End::Item("x"), 2, Some(Ok(3))));
    let run = inline_fallible_fill::<U3>(Scripted::new(&[Some(Err("x")), Some(Ok(1))]));
    assert!(rt; run == (End::Item("x"), 1, Some(Ok(1))));
}

#[test]
fn an_error_behind_the_last_item_is_one_item_too_many(rt: HostRuntime) {
    let results = [Ok(1), Ok(2), Err("x")].map(Some);
    let run = inline_fallible_fill::<U2>(Scripted::new(&results));
    assert!(rt; run == (End::WrongLength, 3, None));
    let run = inline_fallible_fill::<U0>(Scripted::new(&[Some(Err("x"))]));
    assert!(rt; run == (End::WrongLength, 1, None));
}

#[test]
fn a_build_that_may_fail_gives_the_items_where_none_does(rt: HostRuntime) {
    let numbers = GenericArray::<usize, U3>::try_generate(|index: usize| -> Result<usize, u8> {
        Ok(index)
    });
    assert!(rt; gives(numbers, &[0, 1, 2]));
}
