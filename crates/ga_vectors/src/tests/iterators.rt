//! Runs of steps over both iterators by value, from both ends.
use crate::tests::numbers::{boxed_from_one, digits, from_one, has, next_digit};
use generic_array::{U3, U5};
use std::test::Fail;

/// Checks folds, counts and what is skipped over arrays of 1 to 3. Iterators that are left live in
/// blocks, since each that is alive at a later exit makes the proof longer.
macro_rules! check_counts {
    ($rt:ident, $three:expr) => {
        assert!($rt; $three.into_iter().fold(0, next_digit) == 123);
        assert!($rt; $three.into_iter().rfold(0, next_digit) == 321);
        {
            let mut items = $three.into_iter();
            assert!($rt; items.next() == Some(1) && items.size_hint() == (2, Some(2)));
            assert!($rt; items.count() == 2);
        }
        {
            let mut items = $three.into_iter();
            assert!($rt; items.next() == Some(1) && items.last() == Some(3));
        }
        {
            let (mut items, mut others) = ($three.into_iter(), $three.into_iter());
            assert!($rt; items.nth_back(3).is_none() && items.len() == 0);
            assert!($rt; others.nth(usize::MAX).is_none() && others.len() == 0);
        }
    };
}

#[test]
fn all_items_are_folded_counted_and_skipped(rt: HostRuntime) -> Result<(), Fail> {
    check_counts!(rt, from_one::<U3>());
    check_counts!(rt, boxed_from_one::<U3>(rt.alloc())?);
    Ok(())
}

/// Checks runs over arrays of 1 to 3 and of 1 to 5.
macro_rules! check_walks {
    ($rt:ident, $three:expr, $five:expr) => {
        {
            let mut items = $three.into_iter();
            assert!($rt; items.next() == Some(1) && digits(items.as_slice()) == 23);
            assert!($rt; digits(items.clone()?.as_slice()) == 23);
        }
        {
            let mut items = $three.into_iter();
            if let Some(first) = items.as_mut_slice().first_mut() {
                *first = 9;
            }
            assert!($rt; items.next() == Some(9) && items.len() == 2);
        }
        let mut items = $five.into_iter();
        assert!($rt; items.next_back() == Some(5) && items.nth(1) == Some(2));
        assert!($rt; digits(items.as_slice()) == 34 && items.nth_back(0) == Some(4));
        assert!($rt; items.nth(7).is_none() && items.next_back().is_none());
    };
}

#[test]
fn steps_from_both_ends_meet_inline(rt: HostRuntime) -> Result<(), Fail> {
    check_walks!(rt, from_one::<U3>(), from_one::<U5>());
    Ok(())
}

#[test]
fn steps_from_both_ends_meet_in_a_block(rt: HostRuntime) -> Result<(), Fail> {
    check_walks!(
        rt,
        boxed_from_one::<U3>(rt.alloc())?,
        boxed_from_one::<U5>(rt.alloc())?
    );
    Ok(())
}

#[test]
fn clones_have_all_items_and_what_is_left(rt: HostRuntime) -> Result<(), Fail> {
    let array = from_one::<U3>();
    assert!(rt; has(array.clone()?, &[1, 2, 3]));
    let mut items = array.into_iter();
    assert!(rt; items.next() == Some(1) && items.clone()?.as_slice() == [2, 3].as_slice());
    Ok(())
}
