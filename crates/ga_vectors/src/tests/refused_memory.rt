//! Calls while memory is refused: what they return then, what they drop, and what stays as it was.
ghost use Rattle.generic_array.specs.Length.{FitsInline};

use crate::tests::counted::{Counted, Counts, Item, Seen, boxed_items, flat, inline_items};
use crate::tests::fills::{End, Scripted, boxed_fallible_fill, boxed_fill, boxed_fill_by_trait};
use crate::tests::numbers::{Numbered, boxed_from_one, from_one, gives, next_digit};
use crate::tests::stopped::{Cloned, cloned_block};
use generic_array::checks::map_total_by;
use generic_array::functional::{FunctionalSequence, inverted_zip2};
use generic_array::sequence::{FallibleGenericSequence, GenericSequence};
use generic_array::steps::{Reply, Step, TwoEnded, run_steps};
use generic_array::{
    AllocError, ArrayLength, BoxedArray, LengthError, LiveBlock, U0, U2, U3, U4, Unsigned, box_arr,
};
use std::alloc::Global;

/// The call of this number, from 0, among those of a test.
#[derive(Drop)]
struct Case {
    alloc: Global,
    call: u32,
    counts: Counts,
}

/// Whether each of so many calls comes to `exact`, or to `refused` where it gets no memory. For
/// calls that need none, both are the same.
///
/// Runs the calls twice: `rt try --test --fail-alloc K` refuses one request of a test, so a call
/// that is refused in both runs never gets memory. Prints a line if one was refused.
fn are_right<R, S, F>(rt: &R, calls: u32, exact: S, refused: S, run: F) -> bool
where
    R: AllocGlobal + Print,
    S: PartialEq + Copy,
    F: Fn(&Case) -> Result<S, AllocError>,
    requires { F.IsAlwaysCallable run }
{
    let mut refusals = 0u32;
    for number in 0..calls.saturating_mul(2) {
        let case = Case {
            alloc: rt.alloc(),
            call: number / 2,
            counts: Counts::default(),
        };
        match run(&case) {
            Ok(end) if end == exact => {}
            Ok(end) if end != refused => return false,
            _ => refusals = refusals.wrapping_add(1),
        }
    }
    if refusals > 0 {
        let _ = println!(rt; "refused: a request");
    }
    refusals < 2
}

const NONE: Seen = (Some(0), 0, 0);

/// Checks so many calls at three items, and at none, which need no memory.
macro_rules! check {
    ($rt:ident, $count:literal $calls:ident, $exact:expr, $refused:expr, $none:expr) => {
        let calls = |case: &Case| $calls::<Counted, U3>(case);
        assert!($rt; are_right(&$rt, $count, $exact, $refused, calls), "three items");
        let calls = |case: &Case| $calls::<Counted, U0>(case);
        assert!($rt; are_right(&$rt, $count, $none, $none, calls), "no items");
    };
}

fn squares<N: Unsigned>(case: &Case, all: &[usize]) -> Result<(bool, usize), AllocError> {
    let mut square = |index: usize| case.counts.same(index.wrapping_mul(index));
    let made = BoxedArray::<usize, N>::generate_by(case.alloc, &mut square);
    Ok((gives(made, all), case.counts.calls.get()))
}

#[test]
fn a_block_of_squares_is_refused_before_any_call_and_one_of_none_never(rt: HostRuntime) {
    let three = |case: &Case| squares::<U3>(case, &[0, 1, 4]);
    assert!(rt; are_right(&rt, 1, (true, 3), (false, 0), three));
    let none = |case: &Case| squares::<U0>(case, &[]);
    assert!(rt; are_right(&rt, 1, (true, 0), (true, 0), none));
}

/// Builds by a closure.
fn builds<'a, T: Item<'a>, N: ArrayLength<T>>(case: &'a Case) -> Result<Seen, AllocError> {
    let (alloc, counts) = (case.alloc, &case.counts);
    let mut make = |index: usize| -> T { counts.same(T::at(counts, index)) };
    let try_make = |index: usize| -> Result<T, u32> { counts.try_make(index) };
    Ok(match case.call {
        0 => counts.seen(BoxedArray::<T, N>::generate_by(alloc, &mut make)),
        1 => counts.seen(<BoxedArray<T, N> as GenericSequence<T>>::generate(alloc, make)),
        2 => counts.seen(flat(BoxedArray::<T, N>::try_generate(alloc, try_make))),
        _ => counts.seen(flat(<BoxedArray<T, N> as FallibleGenericSequence<T>>::try_generate(
            alloc, try_make,
        ))),
    })
}

fn maps<'a, T: Item<'a>, N: ArrayLength<T>>(case: &'a Case) -> Result<Seen, AllocError> {
    let (alloc, counts) = (case.alloc, &case.counts);
    let items = boxed_items::<T, N>(alloc, counts)?;
    let mut same = |item: T| -> T { counts.hand_on(item) };
    let try_same = |item: T| -> Result<T, u32> { Ok(counts.hand_on(item)) };
    Ok(match case.call {
        0 => counts.seen(items.map_by(alloc, &mut same)),
        _ => counts.seen(flat(items.try_map(alloc, try_same))),
    })
}

#[test]
fn builds_of_blocks_are_refused_before_any_call_or_item(rt: HostRuntime) {
    check!(rt, 4 builds, (Some(123), 3, 0), (None, 0, 0), NONE);
    check!(rt, 2 maps, (Some(123), 3, 0), (None, 0, 3), NONE);
    let fill = |case: &Case| {
        Ok(boxed_fill::<U3>(case.alloc, Scripted::new(&[Some(1), Some(2), Some(3)])))
    };
    let (made, refused) = ((End::Made(123), 4, None), (End::NoMemory, 0, Some(1)));
    assert!(rt; are_right(&rt, 1, made, refused, fill));
}

#[test]
fn fallible_fills_are_refused_before_any_item(rt: HostRuntime) {
    let results = [1, 2, 3].map(|number| Some(Ok(number)));
    let (made, refused) = ((End::Made(123), 4, None), (End::NoMemory, 0, Some(Ok(1))));
    let fill = |case: &Case| Ok(boxed_fallible_fill::<U3>(case.alloc, Scripted::new(&results)));
    assert!(rt; are_right(&rt, 1, made, refused, fill));
    let fill = |case: &Case| Ok(boxed_fill_by_trait::<U3>(case.alloc, Scripted::new(&results)));
    assert!(rt; are_right(&rt, 1, made, refused, fill));
    let none = boxed_fill_by_trait::<U0>(rt.alloc(), Scripted::new(&[]));
    assert!(rt; none == (End::Made(0), 1, None));
}

/// Copies of 1, which is dropped where they are refused.
fn copies<'a, T: Item<'a>, N: ArrayLength<T>>(case: &'a Case) -> Result<Seen, AllocError> {
    let (alloc, counts) = (case.alloc, &case.counts);
    let item: T = T::at(counts, 0);
    Ok(match case.call {
        0 => counts.seen(BoxedArray::<T, N>::repeat(alloc, item)),
        _ => counts.seen(<BoxedArray<T, N> as GenericSequence<T>>::repeat(alloc, item)),
    })
}

/// Zeros, and defaults, whose number is 0.
fn zeros<'a, T: Item<'a>, N: ArrayLength<T>>(case: &'a Case) -> Result<Seen, AllocError> {
    let (alloc, counts) = (case.alloc, &case.counts);
    Ok(match case.call {
        0 => counts.seen(BoxedArray::<u32, N>::from_copies(alloc, 0)),
        _ => counts.seen(BoxedArray::<T, N>::default_boxed(alloc)),
    })
}

#[test]
fn defaults_and_copies_report_refused_memory(rt: HostRuntime) {
    check!(rt, 2 zeros, (Some(0), 0, 0), (None, 0, 0), NONE);
    check!(rt, 2 copies, (Some(111), 2, 0), (None, 0, 1), (Some(0), 0, 1));
    let block = |case: &Case| Ok(LiveBlock::<u32>::new(case.alloc, 3).is_ok());
    assert!(rt; are_right(&rt, 1, true, false, block));
}

fn vectors<'a, T: Item<'a>, N: ArrayLength<T>>(case: &'a Case) -> Result<Seen, AllocError>
    requires { FitsInline N.USIZE }
{
    let counts = &case.counts;
    Ok(counts.seen(inline_items::<T, N>(counts).into_vec(case.alloc)))
}

#[test]
fn three_items_that_find_no_vector_are_dropped_and_none_always_find_one(rt: HostRuntime) {
    check!(rt, 1 vectors, (Some(123), 0, 0), (None, 0, 3), NONE);
}

/// The other conversions.
fn moves<'a, T: Item<'a>, N: ArrayLength<T>>(case: &'a Case) -> Result<Seen, AllocError>
    requires { FitsInline N.USIZE }
{
    let (alloc, counts) = (case.alloc, &case.counts);
    let items = inline_items::<T, N>(counts);
    Ok(match case.call {
        0 => counts.seen(items.into_boxed_slice(alloc)),
        1 => counts.seen(BoxedArray::from_inline(alloc, items)),
        2 => counts.seen(BoxedArray::from_inline(alloc, items)?.into_vec()),
        3 => counts.seen(BoxedArray::from_inline(alloc, items)?.into_boxed_slice()),
        4 => {
            let items = items.into_vec(alloc)?;
            counts.seen(flat(BoxedArray::<T, N>::try_from_vec(alloc, items)))
        }
        _ => {
            let items = items.into_boxed_slice(alloc)?;
            counts.seen(flat(BoxedArray::<T, N>::try_from_boxed_slice(alloc, items)))
        }
    })
}

#[test]
fn conversions_drop_their_items_where_memory_is_refused(rt: HostRuntime) {
    check!(rt, 6 moves, (Some(123), 0, 0), (None, 0, 3), NONE);
}

fn add<T: Numbered + Drop>(digits: u32, item: T) -> u32 {
    next_digit(digits, item.number())
}

/// A zip to its left item.
fn zips<'a, T: Item<'a>, N: ArrayLength<T>>(case: &'a Case) -> Result<Seen, AllocError> {
    let (alloc, counts) = (case.alloc, &case.counts);
    let left = boxed_items::<T, N>(alloc, counts)?;
    let right = boxed_items::<T, N>(alloc, counts)?;
    Ok(counts.seen(left.zip(alloc, right, |left: T, _right: T| -> T {
        counts.hand_on(left)
    })))
}

/// An inverted zip to its left item.
fn inverted_zips<'a, T: Item<'a>, N: ArrayLength<T>>(case: &'a Case) -> Result<Seen, AllocError> {
    let (alloc, counts) = (case.alloc, &case.counts);
    let left = boxed_items::<T, N>(alloc, counts)?;
    let right = boxed_items::<T, N>(alloc, counts)?;
    let left_of = |left: T, _right: T| -> T { counts.hand_on(left) };
    Ok(counts.seen(inverted_zip2(right, alloc, left, left_of)))
}

/// The fold of a map to the digits of its items.
fn folds<'a, T: Item<'a>, N: ArrayLength<T>>(case: &'a Case) -> Result<Seen, AllocError> {
    let (alloc, counts) = (case.alloc, &case.counts);
    let items = boxed_items::<T, N>(alloc, counts)?;
    let mut same = |item: T| -> T { counts.hand_on(item) };
    let total = map_total_by(items, alloc, &mut same, 0, &mut add::<T>);
    Ok((total.ok(), counts.calls.get(), counts.drops.get()))
}

#[test]
fn zips_and_folds_drop_their_items_where_memory_is_refused(rt: HostRuntime) {
    check!(rt, 1 zips, (Some(123), 3, 3), (None, 0, 6), NONE);
    check!(rt, 1 inverted_zips, (Some(123), 3, 3), (None, 0, 6), NONE);
    check!(rt, 1 folds, (Some(123), 3, 3), (None, 0, 3), NONE);
}

fn clones<'a, T: Item<'a>, N: ArrayLength<T>>(case: &'a Case) -> Result<Cloned, AllocError> {
    cloned_block::<T, N>(case.alloc, &case.counts)
}

#[test]
fn a_clone_that_is_refused_memory_leaves_the_iterator(rt: HostRuntime) {
    check!(rt, 1 clones, (true, 3, 3, 123), (false, 0, 0, 123), (true, 0, 0, 0));
}

#[test]
fn a_box_of_none_is_made_with_all_memory_refused(rt: HostRuntime) {
    let written_out: Result<BoxedArray<u32, U0>, AllocError> = box_arr!(rt.alloc(), []);
    assert!(rt; gives(written_out, &[]));
    assert!(rt; gives(BoxedArray::<u32, U0>::from_array(rt.alloc(), []), &[]));
}

#[test]
fn a_wrong_length_is_seen_before_memory(rt: HostRuntime) {
    let three_for_four = |case: &Case| {
        let three = vec![in case.alloc; 1u32, 2, 3]?;
        let made = BoxedArray::<u32, U4>::try_from_vec(case.alloc, three);
        Ok(matches!(made, Ok(Err(LengthError))))
    };
    assert!(rt; are_right(&rt, 1, true, true, three_for_four));
}

/// What a run of these steps over 1 and 2 comes to: whether it was refused, how often it looked,
/// how many replies there are then, and the item that comes next.
fn run_of<I: TwoEnded<u32>>(
    items: &mut I,
    steps: Vec<Step<u32>>,
    replies: &mut Vec<Reply<u32, usize>>,
) -> (bool, usize, usize, Option<u32>) {
    let counts = Counts::default();
    let mut look = |live: &[u32]| counts.same(live.len());
    let is_refused = run_steps(items, steps, &mut look, replies).is_err();
    (is_refused, counts.calls.get(), replies.len(), items.front())
}

#[test]
fn a_refused_run_of_steps_leaves_all_as_it_was(rt: HostRuntime) {
    let run = |case: &Case| {
        let mut items = boxed_from_one::<U2>(case.alloc)?.into_iter();
        let steps = vec![in case.alloc; Step::Next, Step::Look]?;
        let mut replies = vec![in case.alloc; Reply::Old(7)]?;
        let run = run_of(&mut items, steps, &mut replies);
        Ok((run, matches!(replies.first(), Some(Reply::Old(7)))))
    };
    let (exact, refused) = ((false, 1, 3, Some(2)), (true, 0, 1, Some(1)));
    assert!(rt; are_right(&rt, 1, (exact, true), (refused, true), run));
}

#[test]
fn a_run_of_no_steps_is_never_refused(rt: HostRuntime) {
    let unchanged = (false, 0, 0, Some(1));
    let mut inline = from_one::<U2>().into_iter();
    let run = run_of(&mut inline, Vec::new(rt.alloc()), &mut Vec::new(rt.alloc()));
    assert!(rt; run == unchanged);
    let boxed = |case: &Case| {
        let mut items = boxed_from_one::<U2>(case.alloc)?.into_iter();
        Ok(run_of(&mut items, Vec::new(case.alloc), &mut Vec::new(case.alloc)))
    };
    assert!(rt; are_right(&rt, 1, unchanged, unchanged, boxed));
}
