//! Every run of two-ended iterator calls gives what a list cut from both ends gives.
ghost use Rattle.generic_array.specs.Account.{Account};
ghost use Rattle.generic_array.specs.Entries.{CallAt, MayCallAt};
ghost use Rattle.generic_array.specs.Steps.{MaySteps, StepsRun};
ghost use Rattle.std.specs.Prelude.{◌≡◌, ◌+◌, ◌≤◌, List, [], ◌++◌, IfOk, IsOk, OnErr, OnOk, length};
ghost use Rattle.std.specs.Vec.{vec_capacity, vec_len};

use generic_array::AllocError;
use generic_array::steps::{Reply, Step, TwoEnded, TwoEndedSequence, run_steps};

/// Runs any steps over the items of a sequence, and returns the iterator over those that are left.
///
/// The steps and the replies are those of the list of the sequence's items. No item is lost or
/// doubled (`Account`). If room for the replies can't be allocated, no step is made, and items and
/// steps are dropped.
pub fn walk<T: Drop, R, S: TwoEndedSequence<T>, G: FnMut(&[T]) -> R>(
    s: S,
    steps: Vec<Step<T>>,
    look: &mut G,
    replies: &mut Vec<Reply<T, R>>,
) -> Result<S::TwoEnded, AllocError>
    requires callable { MaySteps (MayCallAt (λ slice. slice.now) G.pre)
        (CallAt (λ slice. slice.now) G.step) (S.items s, look.old) steps.items }
    ensures run { IfOk result (λ left.
        (given : List (Reply T R)) × (replies.new.items ≡ replies.old.items ++ given)
        × StepsRun (CallAt (λ slice. slice.now) G.step) (S.items s, look.old) steps.items given
        (S.TwoEnded.items left, look.new)
        × Account (S.items s) steps.items given (S.TwoEnded.items left)) }
    ensures err { OnErr result ((look.new ≡ look.old) × (replies.new.items ≡ replies.old.items)) }
    ensures empty { steps.items ≡ [] → IsOk result }
    ensures room { vec_len replies.old + length steps.items ≤ vec_capacity replies.old
        → IsOk result }
    ensures kept { vec_capacity replies.old ≤ vec_capacity replies.new }
{
    let mut left = s.into_two_ended();
    run_steps(&mut left, steps, look, replies)?;
    Ok(left)
}

/// Runs more steps over what an iterator has left, in any state that a run reaches.
///
/// The clauses are those of `walk`, over the items that are left. So `walk` and then `walk_on` are
/// one run over the steps of both (`runs_of_steps_join`). If room for the replies can't be
/// allocated, the iterator is as it was.
pub fn walk_on<T: Drop, R, I: TwoEnded<T>, G: FnMut(&[T]) -> R>(
    left: &mut I,
    steps: Vec<Step<T>>,
    look: &mut G,
    replies: &mut Vec<Reply<T, R>>,
) -> Result<(), AllocError>
    requires callable { MaySteps (MayCallAt (λ slice. slice.now) G.pre)
        (CallAt (λ slice. slice.now) G.step) (I.items left.old, look.old) steps.items }
    ensures run { OnOk result ((given : List (Reply T R))
        × (replies.new.items ≡ replies.old.items ++ given)
        × StepsRun (CallAt (λ slice. slice.now) G.step) (I.items left.old, look.old) steps.items given
        (I.items left.new, look.new)
        × Account (I.items left.old) steps.items given (I.items left.new)) }
    ensures err { OnErr result ((left.new ≡ left.old) × (look.new ≡ look.old)
        × (replies.new.items ≡ replies.old.items)) }
    ensures empty { steps.items ≡ [] → IsOk result }
    ensures room { vec_len replies.old + length steps.items ≤ vec_capacity replies.old
        → IsOk result }
    ensures kept { vec_capacity replies.old ≤ vec_capacity replies.new }
{
    run_steps(left, steps, look, replies)
}
