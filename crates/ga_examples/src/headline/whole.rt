//! A map and a walk, and a build before both: half of each number of three, walked over.
ghost use Rattle.generic_array.specs.Views.{items_of_view};
ghost use Rattle.generic_array.specs.declared.steps.step.Reply.TheVariants.{Item, Old, Seen};
ghost use Rattle.generic_array.specs.declared.steps.step.Step.TheVariants.{Look, Next, NextBack, Set};
ghost use Rattle.std.specs.Prelude.{◌≡◌, ◌/◌, ◌%◌, [], ◌∷◌, ◌++◌, Err, IfOk, Ok, OnOk, Some, if◌then◌else◌, nat_eq};

use super::steps::steps;
use crate::runs_of_steps::count_of;
use ga_headline::whole::{Stopped, build_map_walk, map_walk};
use generic_array::steps::{Reply, Step};
use generic_array::{
    ArrayLength, FillError, GenericArray, GenericArrayIter, GenericArrayRef, InlineLength, Never,
    U3,
};
use std::test::Fail;

/// Half of an even number, or an error of an odd one.
fn half_of(number: u32) -> Result<u32, u32>
    ensures { result ≡ (if nat_eq (number % 2) 0 then Ok (number / 2) else Err number) }
{
    if number % 2 == 0 {
        Ok(number / 2)
    } else {
        Err(number)
    }
}

/// The items of a view are read, and the walk takes what was made of them.
fn walk_over_view<N: ArrayLength<u32> + InlineLength>(
    view: GenericArrayRef<'_, u32, N>,
    steps: Vec<Step<u32>>,
    replies: &mut Vec<Reply<u32, usize>>,
) -> Result<GenericArrayIter<u32, N>, Stopped<Never, u32, Never>>
    requires view { items_of_view view ≡ 2 ∷ 4 ∷ 6 ∷ [] }
    requires steps { steps.items ≡ Next ∷ Look ∷ Set 1 9 ∷ NextBack ∷ [] }
    ensures replies { OnOk result (replies.new.items
        ≡ replies.old.items ++ Item (Some 1) ∷ Seen 2 ∷ Old 3 ∷ Item (Some 9) ∷ []) }
    ensures left { IfOk result (λ left. left ≡ 2 ∷ []) }
{
    map_walk(
        view,
        (),
        &mut |item: &u32| half_of(*item),
        steps,
        &mut count_of::<u32>,
        replies,
    )
}

fn whole_inline<N: ArrayLength<u32> + InlineLength>(
    results: Vec<Result<u32, u8>>,
    steps: Vec<Step<u32>>,
    replies: &mut Vec<Reply<u32, usize>>,
) -> Result<GenericArrayIter<u32, N>, Stopped<FillError<u8, Never>, u32, Never>>
    requires len { N.USIZE ≡ 3 }
    requires results { results.items ≡ Ok 2 ∷ Ok 4 ∷ Ok 6 ∷ [] }
    requires steps { steps.items ≡ Next ∷ Look ∷ Set 1 9 ∷ NextBack ∷ [] }
    ensures replies { OnOk result (replies.new.items
        ≡ replies.old.items ++ Item (Some 1) ∷ Seen 2 ∷ Old 3 ∷ Item (Some 9) ∷ []) }
    ensures left { IfOk result (λ left. left ≡ 2 ∷ []) }
{
    build_map_walk::<u32, u8, u32, u32, usize, GenericArray<u32, N>, _, _, _>(
        (),
        &mut results.into_iter(),
        (),
        &mut half_of,
        steps,
        &mut count_of::<u32>,
        replies,
    )
}

#[test]
fn the_whole_runs_to_its_end(rt: HostRuntime) -> Result<(), Fail> {
    let alloc = rt.alloc();
    let mut replies = Vec::new(alloc);
    let view = GenericArrayRef::<u32, U3>::from_slice(&[2, 4, 6]);
    let left = walk_over_view(view, steps(alloc)?, &mut replies);
    assert!(rt; left.is_ok_and(|left| left.as_slice() == [2].as_slice()) && replies.len() == 4);
    let results = vec![in alloc; Ok(2), Ok(4), Ok(6)]?;
    let left = whole_inline::<U3>(results, steps(alloc)?, &mut replies);
    assert!(rt; left.is_ok_and(|left| left.as_slice() == [2].as_slice()) && replies.len() == 8);
    Ok(())
}
