//! Fills from iterators whose hints are wrong, that return items after their end, or errors.
use crate::tests::fills::{
    Answer, End, Run, Scripted, boxed_fallible_fill, boxed_fill, inline_fallible_fill, inline_fill,
};
use generic_array::{ArrayLength, InlineLength, U0, U1, U2, U3, U4};
use std::alloc::Global;

/// Whether both fills of N items run so, by an iterator that hints at nine, and returns 1, 2, an end,
/// 3, 4 and 5.
fn fills_are<N: ArrayLength<u32> + InlineLength>(alloc: Global, run: Run<u32>) -> bool {
    let items = [Some(1), Some(2), None, Some(3), Some(4), Some(5)];
    inline_fill::<N>(Scripted::hinting_at(9, &items)) == run
        && boxed_fill::<N>(alloc, Scripted::hinting_at(9, &items)) == run
}

/// Whether both fallible fills of N items from these results run so.
fn fallible_fills_are<N: ArrayLength<u32> + InlineLength>(
    alloc: Global,
    hint: usize,
    results: &[Option<Answer>],
    run: Run<Answer>,
) -> bool {
    inline_fallible_fill::<N>(Scripted::hinting_at(hint, results)) == run
        && boxed_fallible_fill::<N>(alloc, Scripted::hinting_at(hint, results)) == run
}

#[test]
fn a_fill_believes_no_hint_and_asks_nothing_after_the_end(rt: HostRuntime) {
    assert!(rt; fills_are::<U2>(rt.alloc(), (End::Made(12), 3, Some(3))));
    assert!(rt; fills_are::<U3>(rt.alloc(), (End::WrongLength, 3, Some(3))));
    assert!(rt; fills_are::<U0>(rt.alloc(), (End::WrongLength, 1, Some(2))));
    assert!(rt; fills_are::<U1>(rt.alloc(), (End::WrongLength, 2, None)));
    let items = [Some(Ok(1)), Some(Ok(2)), None, Some(Ok(3)), Some(Ok(4))];
    assert!(rt; fallible_fills_are::<U2>(rt.alloc(), 9, &items, (End::Made(12), 3, Some(Ok(3)))));
    assert!(rt;
        fallible_fills_are::<U3>(rt.alloc(), 9, &items, (End::WrongLength, 3, Some(Ok(3))))
    );
}

#[test]
fn the_first_error_among_the_first_items_is_answered(rt: HostRuntime) {
    let numbers: [Option<Answer>; 6] = [Ok(1), Ok(2), Ok(3), Ok(4), Ok(5), Ok(6)].map(Some);
    for place in 0..6usize {
        let mut results = numbers;
        results[place] = Some(Err("x"));
        let run = match place {
            4 => (End::WrongLength, 5, Some(Ok(6))),
            5 => (End::WrongLength, 5, Some(Err("x"))),
            _ => (End::Item("x"), place + 1, numbers[place + 1]),
        };
        assert!(rt;
            fallible_fills_are::<U4>(rt.alloc(), 6, &results, run),
            "{place}"
        );
    }
    let early = [Some(Err("x")), Some(Ok(1))];
    assert!(rt; fallible_fills_are::<U3>(rt.alloc(), 5, &early, (End::Item("x"), 1, Some(Ok(1)))));
    assert!(rt;
        fallible_fills_are::<U0>(rt.alloc(), 5, &early, (End::WrongLength, 1, Some(Ok(1))))
    );
}
