//! Callers of runs of steps, each proved: known steps over any iterator with two ends.
ghost use Rattle.generic_array.specs.declared.steps.step.Reply.TheVariants.{Item, Old, Outside};
ghost use Rattle.std.specs.Prelude.{◌≡◌, ◌^◌, ◌<◌, [], ◌∷◌, ◌++◌, OnOk, Some, length, sum};

mod any_steps;

use generic_array::steps::{Reply, Step, TwoEnded, run_steps};
use generic_array::{AllocError, BoxedArray, U3};
use std::alloc::Global;
use std::test::Fail;

/// The sum of the numbers, which has to fit.
fn total(numbers: &[u32]) -> u32
    requires bound { sum numbers.now < 2 ^ 32 }
    ensures { result ≡ sum numbers.now }
{
    numbers.iter().sum()
}

/// How many items there are.
pub fn count_of<T>(items: &[T]) -> usize
    ensures { result ≡ length items.now }
{
    items.len()
}

/// The first of three numbers, another in the place of the last, and this one taken again.
fn take_and_replace<I: TwoEnded<u32>>(
    alloc: Global,
    numbers: &mut I,
    replies: &mut Vec<Reply<u32, u32>>,
) -> Result<(), AllocError>
    requires three { I.items numbers.old ≡ 1 ∷ 2 ∷ 3 ∷ [] }
    ensures replies { OnOk result (replies.new.items
        ≡ replies.old.items ++ Item (Some 1) ∷ Old 3 ∷ Outside 8 ∷ Item (Some 9) ∷ []) }
    ensures left { OnOk result (I.items numbers.new ≡ 2 ∷ []) }
{
    let steps = vec![in alloc;
        Step::Next,
        Step::Set(1, 9),
        Step::Set(2, 8),
        Step::NextBack,
    ]?;
    run_steps(numbers, steps, &mut total, replies)
}

#[test]
fn an_item_that_is_replaced_is_taken(rt: HostRuntime) -> Result<(), Fail> {
    let alloc = rt.alloc();
    let mut replies = Vec::new(alloc);
    let mut numbers = BoxedArray::<u32, U3>::from_array(alloc, [1, 2, 3])?.into_iter();
    take_and_replace(alloc, &mut numbers, &mut replies)?;
    let text = format!(in alloc; "{:?} {replies:?}", Step::Set(0, 9u8))?;
    assert_eq!(rt;
        text.as_str(),
        "Set(0, 9) [Item(Some(1)), Old(3), Outside(8), Item(Some(9))]"
    );
    Ok(())
}
