//! Builders as lists of at most `N` items, of any length: one change after the other, the items
//! that pass a test, and items written.
ghost use Rattle.ga_core.specs.Length.{FitsInline};
ghost use Rattle.std.specs.List.{swap, swap_remove};
ghost use Rattle.std.specs.Prelude.{◌≡◌, ◌+◌, ◌-◌, ◌<◌, ◌≤◌, ◌++◌, ◌∷◌, ◌==◌, IsOk, Some, drop, filter, length, not, slice_get, slice_set, take};

use ga_core::{AllocError, ArrayBuilder, ArrayLength, GenericArray, U4};
use std::mem;

fn join<T: Copy + Default + Drop, N: ArrayLength<T>>(
    first: &[T],
    second: &[T],
) -> GenericArray<T, N>
    requires fits { FitsInline N.USIZE }
    requires sum { length first.now + length second.now ≡ N.USIZE }
    ensures { result ≡ first.now ++ second.now }
{
    let mut both = ArrayBuilder::new();
    both.extend_from_slice(first);
    both.extend_from_slice(second);
    both.finish()
}

/// Moves the first item behind the others.
fn rotate<T: Default + Drop, N: ArrayLength<T>>(list: &mut ArrayBuilder<T, N>)
    requires { 0 < length list.old }
    ensures { list.new ≡ drop 1 list.old ++ take 1 list.old }
{
    let item = list.remove(0);
    list.push(item);
}

/// Appends clones of bytes, which can't fail.
fn extend_by_clones<N: ArrayLength<u8>>(
    list: &mut ArrayBuilder<u8, N>,
    items: &[u8],
) -> Result<(), AllocError>
    requires { length list.old + length items.now ≤ N.USIZE }
    ensures succeeds { IsOk result }
    ensures items { list.new ≡ list.old ++ items.now }
{
    list.extend_from_clones(items)
}

/// Returns a second list of the same items. That the first is read shows that `N` items fit inline.
fn copy_of<T: Copy + Default + Drop, N: ArrayLength<T>>(
    list: &ArrayBuilder<T, N>,
) -> ArrayBuilder<T, N>
    ensures { result ≡ list.now }
{
    let items = list.as_slice();
    let mut copy = ArrayBuilder::new();
    copy.extend_from_slice(items);
    copy
}

/// Puts a key in front of the others. Where there is no room, the last is dropped.
fn touch<N: ArrayLength<u32>>(keys: &mut ArrayBuilder<u32, N>, key: u32)
    requires { 0 < N.USIZE }
    ensures { keys.new
        ≡ key ∷ take (N.USIZE - 1) (filter (λ other. not (other == key)) keys.old) }
{
    let items = keys.as_slice();
    let mut kept = ArrayBuilder::new();
    for other in items {
        if *other != key {
            kept.push(*other);
        }
    }
    kept.truncate(N::USIZE - 1);
    kept.insert(0, key);
    *keys = kept;
}

/// Puts an item in the place of another, which it returns.
fn replace<T, N: ArrayLength<T>>(list: &mut ArrayBuilder<T, N>, index: usize, item: T) -> T
    requires { index < length list.old }
    ensures item { slice_get list.old index ≡ Some result }
    ensures items { list.new ≡ slice_set list.old index item }
{
    mem::replace(&mut list.as_mut_slice()[index], item)
}

/// Swaps the two topmost items of a stack.
fn swap_top<T, N: ArrayLength<T>>(stack: &mut ArrayBuilder<T, N>)
    requires { 2 ≤ length stack.old }
    ensures { stack.new ≡ swap stack.old (length stack.old - 2) (length stack.old - 1) }
{
    let len = stack.position();
    stack.as_mut_slice().swap(len - 2, len - 1);
}

/// Takes an item out of a list whose order doesn't matter.
fn draw<T: Default + Drop, N: ArrayLength<T>>(list: &mut ArrayBuilder<T, N>, index: usize) -> T
    requires { index < length list.old }
    ensures item { slice_get list.old index ≡ Some result }
    ensures others { list.new ≡ swap_remove list.old index result }
{
    list.swap_remove(index)
}

#[test]
fn clones_stand_behind_what_was_there(rt: HostRuntime) {
    let mut list: ArrayBuilder<u8, U4> = ArrayBuilder::new();
    list.push(1);
    assert!(rt; extend_by_clones(&mut list, &[2, 3]).is_ok());
    assert!(rt; list.as_slice() == [1, 2, 3].as_slice());
}
