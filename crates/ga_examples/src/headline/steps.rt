//! Runs of steps over an array: one walk, and on with it.
ghost use Rattle.generic_array.specs.declared.steps.step.Reply.TheVariants.{Item};
ghost use Rattle.generic_array.specs.declared.steps.step.Step.TheVariants.{Look, Next, NextBack, Set};
ghost use Rattle.std.specs.Prelude.{◌≡◌, [], ◌∷◌, ◌++◌, IfOk, OnOk, drop, length, slice_get};

use crate::runs_of_steps::count_of;
use ga_headline::steps::{walk, walk_on};
use generic_array::steps::{Reply, Step};
use generic_array::{AllocError, ArrayLength, GenericArray, GenericArrayIter, arr};
use std::alloc::Global;
use std::test::Fail;

/// Takes the first item, counts those left, and takes the next: two runs with one list of replies.
fn walk_in_two<N: ArrayLength<u32>>(
    array: GenericArray<u32, N>,
    first: Vec<Step<u32>>,
    second: Vec<Step<u32>>,
    replies: &mut Vec<Reply<u32, usize>>,
) -> Result<(GenericArrayIter<u32, N>, usize), AllocError>
    requires first { first.items ≡ Next ∷ [] }
    requires second { second.items ≡ Next ∷ [] }
    ensures replies { OnOk result (replies.new.items ≡ replies.old.items
        ++ Item (slice_get array 0) ∷ Item (slice_get array 1) ∷ []) }
    ensures seen { IfOk result (λ made. made.1 ≡ length (drop 1 array)) }
    ensures left { IfOk result (λ made. made.0 ≡ drop 2 array) }
{
    let mut left = walk(array, first, &mut count_of::<u32>, replies)?;
    let seen = left.as_slice().len();
    walk_on(&mut left, second, &mut count_of::<u32>, replies)?;
    Ok((left, seen))
}

/// The steps of the walks behind a map.
pub fn steps(alloc: Global) -> Result<Vec<Step<u32>>, AllocError>
    ensures { IfOk result (λ steps. steps.items ≡ Next ∷ Look ∷ Set 1 9 ∷ NextBack ∷ []) }
{
    Ok(vec![in alloc; Step::Next, Step::Look, Step::Set(1, 9), Step::NextBack]?)
}

#[test]
fn a_walk_goes_on(rt: HostRuntime) -> Result<(), Fail> {
    let alloc = rt.alloc();
    let mut replies = Vec::with_capacity(alloc, 2)?;
    let (first, second) = (vec![in alloc; Step::Next]?, vec![in alloc; Step::Next]?);
    let (left, seen) = walk_in_two(arr![1, 2, 3], first, second, &mut replies)?;
    assert!(rt; seen == 2 && left.as_slice() == [3].as_slice() && replies.capacity() == 2);
    Ok(())
}
