//! Runs of steps over the iterators by value: items taken from both ends, looked at and replaced.
//!
//! A run does to the items what it would do to a list that is cut from both ends. Each step has its
//! reply and leaves a list (`StepGivesReply`), a run is these one after the other, and the account
//! of a run (`Account`) says that no item is lost or doubled.
ghost use Rattle.generic_array.specs.Account.{Account};
ghost use Rattle.ga_core.specs.Entries.{CallAt, MayCallAt};
ghost use Rattle.generic_array.specs.Steps.{MayStep, MaySteps, StepGivesReply, StepsRun};
ghost use Rattle.std.specs.Prelude.{◌≡◌, ◌+◌, ◌≤◌, IsOk, List, OnErr, OnOk, [], ◌++◌, length};
ghost use Rattle.std.specs.Vec.{vec_capacity, vec_len};

mod kinds;
mod step;

use crate::sequence::GenericSequence;
use ga_core::AllocError;
pub use ga_core::items_left::TwoEnded;
use std::mem;
pub use step::{Reply, Step};

/// A sequence that owns its items, and whose iterator by value has two ends: an inline or a boxed
/// array.
///
/// A view isn't one: its iterator returns references, which can't be replaced.
pub trait TwoEndedSequence<T>: GenericSequence<T> {
    /// The iterator by value.
    type TwoEnded: TwoEnded<T> + Drop;

    /// All items, in order, to be taken from both ends: what `into_iter` returns. O(1) of a boxed
    /// array; of an inline one it moves the items.
    fn into_two_ended(self) -> Self::TwoEnded
        ensures { Self.TwoEnded.items result ≡ Self.items self };
}

// Makes one step.
fn step_once<T: Drop, R, I: TwoEnded<T>, G: FnMut(&[T]) -> R>(
    iter: &mut I,
    step: Step<T>,
    look: &mut G,
) -> Reply<T, R>
    requires { MayStep (MayCallAt (λ slice. slice.now) G.pre) (I.items iter.old, look.old) step }
    ensures { StepGivesReply (CallAt (λ slice. slice.now) G.step) (I.items iter.old, look.old)
        step result
        (I.items iter.new, look.new) }
{
    match step {
        Step::Next => Reply::Item(iter.front()),
        Step::NextBack => Reply::Item(iter.back()),
        Step::Nth(n) => Reply::Item(iter.front_nth(n)),
        Step::NthBack(n) => Reply::Item(iter.back_nth(n)),
        Step::Look => Reply::Seen(look(iter.live())),
        Step::Set(index, item) => {
            let live = iter.live_mut();
            if index < live.len() {
                Reply::Old(mem::replace(&mut live[index], item))
            } else {
                Reply::Outside(item)
            }
        }
    }
}

/// Makes the steps in order, and pushes one reply for each to `replies`. Calls `look` once for
/// each `Look`, with all items that are left then.
///
/// Allocates room for all replies first, if `replies` doesn't have it. If that fails, no step is
/// made, iterator, closure and replies are as they were, and the steps are dropped. A run may be
/// stopped after any step and taken up again by another call: both together are one run.
pub fn run_steps<T: Drop, R, I: TwoEnded<T>, G: FnMut(&[T]) -> R>(
    iter: &mut I,
    steps: Vec<Step<T>>,
    look: &mut G,
    replies: &mut Vec<Reply<T, R>>,
) -> Result<(), AllocError>
    requires callable { MaySteps (MayCallAt (λ slice. slice.now) G.pre)
        (CallAt (λ slice. slice.now) G.step) (I.items iter.old, look.old) steps.items }
    ensures run { OnOk result ((given : List (Reply T R))
        × (replies.new.items ≡ replies.old.items ++ given)
        × StepsRun (CallAt (λ slice. slice.now) G.step) (I.items iter.old, look.old)
        steps.items given
        (I.items iter.new, look.new)
        × Account (I.items iter.old) steps.items given (I.items iter.new)) }
    ensures err { OnErr result ((iter.new ≡ iter.old) × (look.new ≡ look.old)
        × (replies.new.items ≡ replies.old.items)) }
    ensures empty { steps.items ≡ [] → IsOk result }
    ensures room { vec_len replies.old + length steps.items ≤ vec_capacity replies.old
        → IsOk result }
    ensures kept { vec_capacity replies.old ≤ vec_capacity replies.new }
{
    if let Err(_) = replies.try_reserve(steps.len()) {
        return Err(AllocError);
    }
    for step in steps {
        let reply = step_once(iter, step, look);
        replies.push_reserved(reply);
    }
    Ok(())
}
