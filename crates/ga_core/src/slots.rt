//! The slots of a slice: moves of their items, and what is written over them in order.
ghost use Rattle.ga_core.specs.Copies.{Repeats};
ghost use Rattle.std.specs.List.{All, AllZip};
ghost use Rattle.std.specs.Prelude.{◌≡◌, ◌-◌, ◌<◌, ◌≤◌, IsOk, OnOk, length, slice_index_or};

use crate::errors::AllocError;
use std::mem;

// Moves the items of a slice over those of another of the same length, which are dropped, and
// leaves defaults. Compiles to a copy where the length is known.
#[inline]
pub(crate) fn move_items<T: Default + Drop>(items: &mut [T], slots: &mut [T])
    requires len { length items.old ≡ length slots.old }
    ensures moved { slots.new ≡ items.old }
    ensures left { All T.is_default items.new }
{
    for (index, slot) in slots.iter_mut().enumerate() {
        *slot = mem::take(&mut items[index]);
    }
}

// Writes defaults over the items of the slots, which are dropped, in order.
#[inline]
pub(crate) fn write_defaults<T: Default + Drop>(slots: &mut [T])
    ensures { All T.is_default slots.new }
{
    for slot in slots.iter_mut() {
        *slot = T::default();
    }
}

// Takes the item of the last slot, and writes defaults over all others, in order.
#[inline]
pub(crate) fn take_last_slot<T: Default + Drop>(slots: &mut [T]) -> T
    requires some { 0 < length slots.old }
    ensures item { result ≡ slice_index_or slots.old (length slots.old - 1) result }
    ensures len { length slots.new ≡ length slots.old }
{
    let last = slots.len() - 1;
    let item = mem::take(&mut slots[last]);
    write_defaults(&mut slots[..last]);
    item
}

// `write_defaults` from the last slot to the first.
#[inline]
pub(crate) fn write_defaults_back<T: Default + Drop>(slots: &mut [T])
    ensures len { length slots.new ≡ length slots.old }
{
    for index in (0..slots.len()).rev() {
        slots[index] = T::default();
    }
}

// Whether items are moved in one piece. Up to eight that take more than a word aren't: the compiler
// keeps each in a register.
#[inline(always)]
pub(crate) fn move_as_one<T>(items: &[T]) -> bool {
    items.len() > 8 || mem::size_of_val(items) <= mem::size_of::<usize>()
}

// Whether an exchange of the items takes less than a loop over them: above 512 bytes it does, where
// they are those of a whole builder.
#[inline(always)]
pub(crate) fn is_exchange_cheaper<T>(items: &[T]) -> bool {
    mem::size_of_val(items) > 512
}

// Exchanges the items of two slices of `N`, in one piece: without a loop, the compiler leaves out
// copies.
#[inline(always)]
pub(crate) fn swap_arrays<T, const N: usize>(left: &mut [T], right: &mut [T])
    requires left { length left.old ≡ N }
    requires right { length right.old ≡ N }
    ensures left { left.new ≡ right.old }
    ensures right { right.new ≡ left.old }
{
    let Some(first) = left.as_mut_array::<N>() else {
        unreachable!();
    };
    let Some(second) = right.as_mut_array::<N>() else {
        unreachable!();
    };
    mem::swap(first, second);
}

// Writes clones of the items over as many slots, in order, up to the first clone that fails.
#[inline]
pub(crate) fn write_clones<T: Clone>(slots: &mut [T], items: &[T]) -> Result<(), AllocError>
    requires room { length slots.old ≡ length items.now }
    ensures items { OnOk result (AllZip T.is_clone items.now slots.new) }
    ensures succeeds { All T.is_infallible items.now → IsOk result }
{
    for (index, slot) in slots.iter_mut().enumerate() {
        *slot = items[index].clone()?;
    }
    Ok(())
}

// `write_clones`, after which defaults lie in the slots if a clone fails.
#[inline]
pub(crate) fn write_clones_or_defaults<T: Clone + Default + Drop>(
    slots: &mut [T],
    items: &[T],
) -> Result<(), AllocError>
    requires room { length slots.old ≡ length items.now }
    ensures items { OnOk result (AllZip T.is_clone items.now slots.new) }
    ensures succeeds { All T.is_infallible items.now → IsOk result }
{
    let cloned = write_clones(slots, items);
    if cloned.is_err() {
        write_defaults(slots);
    }
    cloned
}

// Writes clones of `item` over the slots, in order, and `item` itself over the last, up to the
// first clone that fails.
#[inline]
pub(crate) fn write_copies<T: Clone>(slots: &mut [T], item: T) -> Result<(), AllocError>
    ensures items { OnOk result (Repeats T.is_clone item (length slots.old) slots.new) }
    ensures few { length slots.old ≤ 1 → IsOk result }
    ensures succeeds { T.is_infallible item → IsOk result }
{
    let count = slots.len();
    if count > 0 {
        let last = count - 1;
        for slot in slots[..last].iter_mut() {
            *slot = item.clone()?;
        }
        slots[last] = item;
    }
    Ok(())
}
