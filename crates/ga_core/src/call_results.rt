//! What a closure returns, written over the slots of a slice, in order: at their indexes, or at the
//! items of other slices.
ghost use Rattle.ga_core.specs.Calls.{MayGenerate, MayMap, MayTryGenerate, MayTryMap, MayZip};
ghost use Rattle.ga_core.specs.Entries.{CallAt, CallAtPair};
ghost use Rattle.ga_core.specs.Runs.{ClosureRun, TryClosureRun};
ghost use Rattle.std.specs.List.{range_with_len, zip};
ghost use Rattle.std.specs.Prelude.{◌≡◌, ◌+◌, ◌≤◌, Ok, length, take};
ghost use Rattle.std.specs.Result.{result_and};

use crate::blocks::{BLOCK, fits_a_word};
use std::mem;

// Up to so many slots, the compiler unrolls the loop over blocks too.
const MOST_UNROLLED: usize = 64;

// Writes `f(0)`, `f(1)` and so on over the slots, each called once, in this order. Many slots are
// written one by one where the closure takes more than a word.
#[inline(always)]
pub(crate) fn write_generated<T: Drop, F: FnMut(usize) -> T>(slots: &mut [T], f: &mut F)
    requires callable { MayGenerate F.pre F.step f.old (length slots.old) }
    ensures run { ClosureRun F.step f.old (range_with_len 0 (length slots.old)) slots.new f.new }
{
    let in_blocks = slots.len() <= MOST_UNROLLED || fits_a_word(f);
    let mut done = 0;
    while in_blocks && slots.len() - done >= BLOCK {
        write_some(slots, done, BLOCK, f);
        done += BLOCK;
    }
    let left = slots.len() - done;
    write_some(slots, done, left, f);
}

// Writes `f(first)` and so on over `count` slots from `first` on. What the calls before gave stands
// in the slots before.
#[inline(always)]
fn write_some<T: Drop, F: FnMut(usize) -> T>(slots: &mut [T], first: usize, count: usize, f: &mut F)
    requires room { first + count ≤ length slots.old }
    requires callable { (begun : F) × MayGenerate F.pre F.step begun (length slots.old)
        × ClosureRun F.step begun (range_with_len 0 first) (take first slots.old) f.old }
    ensures run { (begun : F)
        → ClosureRun F.step begun (range_with_len 0 first) (take first slots.old) f.old
        → ClosureRun F.step begun (range_with_len 0 (first + count))
        (take (first + count) slots.new) f.new }
{
    for index in 0..count {
        slots[first + index] = f(first + index);
    }
}

// `write_generated` of a closure that may fail, up to its first error, which is returned.
#[inline]
pub(crate) fn try_write_generated<T: Drop, E, F: FnMut(usize) -> Result<T, E>>(
    slots: &mut [T],
    f: &mut F,
) -> Result<(), E>
    requires callable { MayTryGenerate F.pre F.step f.old (length slots.old) }
    ensures run { TryClosureRun F.step f.old (range_with_len 0 (length slots.old))
        (result_and result (Ok slots.new)) f.new }
{
    for (index, slot) in slots.iter_mut().enumerate() {
        match f(index) {
            Ok(item) => *slot = item,
            Err(error) => return Err(error),
        }
    }
    Ok(())
}

// Writes what `f` returns at each item, which is moved to it. Leaves defaults.
#[inline]
pub(crate) fn write_mapped<T: Default + Drop, U: Drop, F: FnMut(T) -> U>(
    items: &mut [T],
    slots: &mut [U],
    f: &mut F,
)
    requires len { length items.old ≡ length slots.old }
    requires callable { MayMap (λ item. item) F.pre F.step f.old items.old }
    ensures run { ClosureRun F.step f.old items.old slots.new f.new }
{
    for (index, slot) in slots.iter_mut().enumerate() {
        *slot = f(mem::take(&mut items[index]));
    }
}

// `write_mapped` of a closure that may fail, up to its first error, which is returned.
#[inline]
pub(crate) fn try_write_mapped<T: Default + Drop, U: Drop, E, F: FnMut(T) -> Result<U, E>>(
    items: &mut [T],
    slots: &mut [U],
    f: &mut F,
) -> Result<(), E>
    requires len { length items.old ≡ length slots.old }
    requires callable { MayTryMap (λ item. item) F.pre F.step f.old items.old }
    ensures run { TryClosureRun F.step f.old items.old (result_and result (Ok slots.new)) f.new }
{
    for (index, slot) in slots.iter_mut().enumerate() {
        match f(mem::take(&mut items[index])) {
            Ok(item) => *slot = item,
            Err(error) => return Err(error),
        }
    }
    Ok(())
}

// Writes what `f` returns at each item, which is borrowed.
#[inline]
pub(crate) fn write_mapped_ref<T, U: Drop, F: FnMut(&T) -> U>(
    items: &[T],
    slots: &mut [U],
    f: &mut F,
)
    requires len { length items.now ≡ length slots.old }
    requires callable { MayMap (λ item. item.now) F.pre F.step f.old items.now }
    ensures run { ClosureRun (CallAt (λ item. item.now) F.step) f.old items.now slots.new f.new }
{
    for (index, slot) in slots.iter_mut().enumerate() {
        *slot = f(&items[index]);
    }
}

// `write_mapped_ref` of a closure that may fail, up to its first error, which is returned.
#[inline]
pub(crate) fn try_write_mapped_ref<T, U: Drop, E, F: FnMut(&T) -> Result<U, E>>(
    items: &[T],
    slots: &mut [U],
    f: &mut F,
) -> Result<(), E>
    requires len { length items.now ≡ length slots.old }
    requires callable { MayTryMap (λ item. item.now) F.pre F.step f.old items.now }
    ensures run { TryClosureRun (CallAt (λ item. item.now) F.step) f.old items.now
        (result_and result (Ok slots.new)) f.new }
{
    for (index, slot) in slots.iter_mut().enumerate() {
        match f(&items[index]) {
            Ok(item) => *slot = item,
            Err(error) => return Err(error),
        }
    }
    Ok(())
}

// Writes what `f` returns at each two items in the same place, which are moved to it. Leaves
// defaults.
#[inline]
pub(crate) fn write_zipped<T: Default + Drop, B: Default + Drop, U: Drop, F: FnMut(T, B) -> U>(
    left: &mut [T],
    right: &mut [B],
    slots: &mut [U],
    f: &mut F,
)
    requires left { length left.old ≡ length slots.old }
    requires right { length right.old ≡ length slots.old }
    requires callable { MayZip (λ item. item) (λ item. item) F.pre F.step f.old left.old right.old }
    ensures run { ClosureRun (CallAtPair (λ item. item) (λ item. item) F.step) f.old
        (zip left.old right.old) slots.new f.new }
{
    for (index, slot) in slots.iter_mut().enumerate() {
        *slot = f(mem::take(&mut left[index]), mem::take(&mut right[index]));
    }
}

// `write_zipped` where the items of both sides are borrowed.
#[inline]
pub(crate) fn write_zipped_ref<T, B, U: Drop, F: FnMut(&T, &B) -> U>(
    left: &[T],
    right: &[B],
    slots: &mut [U],
    f: &mut F,
)
    requires left { length left.now ≡ length slots.old }
    requires right { length right.now ≡ length slots.old }
    requires callable { MayZip (λ item. item.now) (λ item. item.now) F.pre F.step f.old left.now
        right.now }
    ensures run { ClosureRun (CallAtPair (λ item. item.now) (λ item. item.now) F.step) f.old
        (zip left.now right.now) slots.new f.new }
{
    for (index, slot) in slots.iter_mut().enumerate() {
        *slot = f(&left[index], &right[index]);
    }
}
