//! Callers that know neither the steps nor the items: what the account of a run gives them.
ghost use Rattle.generic_array.specs.Account.{HasNoSet, gone_back, gone_front};
ghost use Rattle.std.specs.Prelude.{◌≡◌, ◌++◌, OnOk, reverse};

use super::count_of;
use generic_array::AllocError;
use generic_array::steps::{Reply, Step, TwoEnded, run_steps};

/// Runs any steps without a Set: the items taken at both ends, joined with those left, are all
/// items.
fn run_without_set<T: Drop, I: TwoEnded<T>>(
    items: &mut I,
    steps: Vec<Step<T>>,
    replies: &mut Vec<Reply<T, usize>>,
) -> Result<(), AllocError>
    requires no_set { HasNoSet steps.items }
    ensures in_order { OnOk result (gone_front (I.items items.old) steps.items
        ++ (I.items items.new ++ reverse (gone_back (I.items items.old) steps.items))
        ≡ I.items items.old) }
{
    run_steps(items, steps, &mut count_of::<T>, replies)
}
