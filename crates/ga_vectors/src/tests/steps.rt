//! Runs of known steps over an inline and over a boxed iterator: the replies, and what is left.
use crate::tests::numbers::{boxed_from_one, digits, from_one};
use generic_array::steps::Step::{Look, Next, NextBack, Nth, NthBack};
use generic_array::steps::{Reply, Step, TwoEnded, run_steps};
use generic_array::{AllocError, U2, U5};
use std::alloc::Global;
use std::test::Fail;

/// The sum of the numbers.
fn total(numbers: &[u32]) -> u32 {
    let mut sum = 0u32;
    for number in numbers {
        sum = sum.wrapping_add(*number);
    }
    sum
}

fn run<I: TwoEnded<u32>>(
    numbers: &mut I,
    steps: Vec<Step<u32>>,
    replies: &mut Vec<Reply<u32, u32>>,
) -> Result<(), AllocError> {
    run_steps(numbers, steps, &mut total, replies)
}

/// Whether two runs of steps, one after the other, reply with this text behind a reply that is
/// there, or none, and leave numbers of these digits. Proved once for all runs.
fn reply_with<I: TwoEnded<u32> + Drop, const A: usize, const B: usize>(
    alloc: Global,
    mut numbers: I,
    old: Option<Reply<u32, u32>>,
    steps: ([Step<u32>; A], [Step<u32>; B]),
    printed: &str,
    left: u32,
) -> Result<bool, AllocError> {
    let mut replies = Vec::new(alloc);
    if let Some(old) = old {
        replies.push(old)?;
    }
    let (first, second) = steps;
    run(&mut numbers, Vec::from_array(alloc, first)?, &mut replies)?;
    run(&mut numbers, Vec::from_array(alloc, second)?, &mut replies)?;
    let text = format!(in alloc; "{replies:?}")?;
    Ok(text.as_str() == printed && digits(numbers.live()) == left)
}

/// Checks such runs over 1 to N, inline and in a block.
macro_rules! check {
    ($rt:ident, $len:ty; $old:expr, $steps:expr => $printed:expr, $left:expr) => {
        let (alloc, inline) = ($rt.alloc(), from_one::<$len>().into_iter());
        assert!($rt; reply_with(alloc, inline, $old, $steps, $printed, $left)?, "inline");
        let block = boxed_from_one::<$len>(alloc)?.into_iter();
        assert!($rt; reply_with(alloc, block, $old, $steps, $printed, $left)?, "a block");
    };
}

const LOOKED_AT: &str = "[Item(Some(2)), Seen(12), Item(None), Item(None), Seen(0)]";

#[test]
fn five_are_taken_from_both_ends_and_looked_at(rt: HostRuntime) -> Result<(), Fail> {
    check!(rt, U5; None, ([Nth(1), Look, NthBack(5), Next, Look], []) => LOOKED_AT, 0);
    Ok(())
}

#[test]
fn a_run_in_two_parts_replies_as_one(rt: HostRuntime) -> Result<(), Fail> {
    check!(rt, U5; None, ([Nth(1), Look], [NthBack(5), Next, Look]) => LOOKED_AT, 0);
    Ok(())
}

#[test]
fn replies_stand_behind_those_that_are_there(rt: HostRuntime) -> Result<(), Fail> {
    check!(rt, U2; Some(Reply::Old(7)), ([NextBack], []) => "[Old(7), Item(Some(2))]", 1);
    Ok(())
}

#[test]
fn no_steps_leave_all_as_it_was(rt: HostRuntime) -> Result<(), Fail> {
    check!(rt, U2; Some(Reply::Old(7)), ([], []) => "[Old(7)]", 12);
    Ok(())
}

#[test]
fn each_end_replies_as_if_the_other_stood_still(rt: HostRuntime) -> Result<(), Fail> {
    let in_front = "[Item(Some(2)), Item(Some(5)), Item(Some(3))]";
    check!(rt, U5; None, ([Nth(1), NextBack, Next], []) => in_front, 4);
    let at_the_back = "[Item(Some(5)), Item(Some(2)), Item(Some(3))]";
    check!(rt, U5; None, ([NextBack, Nth(1), Next], []) => at_the_back, 4);
    Ok(())
}
