//! Items taken from both ends of an iterator by value: who takes one drops it, and the iterator
//! drops the others.
ghost use Rattle.generic_array.specs.Length.{FitsInline};

use crate::tests::counted::{Counted, Counts, Item, boxed_items, inline_items};
use generic_array::{AllocError, ArrayLength, U4};
use std::alloc::Global;
use std::test::Fail;

/// How many items are dropped once so many were taken from each end and dropped, and then once the
/// iterator was.
macro_rules! drops {
    ($counts:ident, $items:expr, $front:ident, $back:ident) => {{
        $counts.fail_at(0);
        let mut left = $items.into_iter();
        for _item in 0..$front {
            drop(left.next());
        }
        for _item in 0..$back {
            drop(left.next_back());
        }
        let taken = $counts.drops.get();
        drop(left);
        (taken, $counts.drops.get())
    }};
}

/// Inline and in a block.
fn drops_of<'a, T: Item<'a>, N: ArrayLength<T>>(
    alloc: Global,
    counts: &'a Counts,
    front: usize,
    back: usize,
) -> Result<[(usize, usize); 2], AllocError>
    requires { FitsInline N.USIZE }
{
    let of_array = drops!(counts, inline_items::<T, N>(counts), front, back);
    let of_block = drops!(counts, boxed_items::<T, N>(alloc, counts)?, front, back);
    Ok([of_array, of_block])
}

#[test]
fn four_items_are_dropped_once_however_many_are_taken(rt: HostRuntime) -> Result<(), Fail> {
    let counts = Counts::default();
    for front in 0..5usize {
        for back in 0..5 - front {
            let drops = drops_of::<Counted, U4>(rt.alloc(), &counts, front, back)?;
            assert!(rt; drops == [(front + back, 4); 2], "{front} and {back}");
        }
    }
    Ok(())
}
