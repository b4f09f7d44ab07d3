//! Builders that are filled, of any length: by what an array's iterator has left, and in a loop.
ghost use Rattle.std.specs.List.{range_with_len};
ghost use Rattle.std.specs.Prelude.{◌≡◌, ◌+◌, ◌<◌, ◌≤◌, ◌^◌, ◌++◌, drop, length, map, reverse, sum, take};

use ga_core::{ArrayBuilder, ArrayLength, GenericArray};

/// All items of an array, in one piece.
fn with_moved<T: Default + Drop, N: ArrayLength<T>, M: ArrayLength<T>>(
    list: &mut ArrayBuilder<T, N>,
    array: GenericArray<T, M>,
)
    requires { length list.old + length array ≤ N.USIZE }
    ensures { list.new ≡ list.old ++ array }
{
    list.take_from(&mut array.into_iter(), M::USIZE);
}

/// All items of an array but the first and the last.
fn with_inner<T: Default + Drop, N: ArrayLength<T>, M: ArrayLength<T>>(
    list: &mut ArrayBuilder<T, N>,
    array: GenericArray<T, M>,
)
    requires { length list.old + length array ≤ N.USIZE }
    ensures { list.new ≡ list.old ++ reverse (drop 1 (reverse (drop 1 array))) }
{
    let mut items = array.into_iter();
    let _ = items.next();
    let _ = items.next_back();
    let count = items.len();
    list.take_from(&mut items, count);
}

/// The sum of the items up to each place.
fn cumulative_sums<N: ArrayLength<u64>>(window: &GenericArray<u64, N>) -> GenericArray<u64, N>
    requires { sum window.now < 2 ^ 64 }
    ensures { result ≡ map (λ index. sum (take (index + 1) window.now)) (range_with_len 0 N.USIZE) }
{
    let items = window.as_slice();
    let mut total = 0;
    let mut sums = ArrayBuilder::new();
    for item in items {
        total += *item;
        sums.push(total);
    }
    sums.finish()
}
