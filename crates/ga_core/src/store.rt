//! Where an inline array keeps its items: `Store`, and `ArrayVec` as one.
ghost use Rattle.arrayvec.specs.ArrayVec.{with_items};
ghost use Rattle.ga_views.specs.Length.{FitsInline};
ghost use Rattle.ga_views.specs.Parts.{part_set};
ghost use Rattle.std.specs.Borrow.{Array, Lends, sem};
ghost use Rattle.std.specs.Iterator.{YieldsLast};
ghost use Rattle.std.specs.List.{All, refill};
ghost use Rattle.std.specs.Prelude.{◌≡◌, ℕ, ◌+◌, ◌<◌, ◌≤◌, [], ◌∷◌, ◌++◌, List, drop, length, refl, remove, slice_index_or, slice_set, take};

use crate::slots::{move_items, swap_arrays};
use arrayvec::ArrayVec;
use ga_views::MAX_INLINE;
use std::default::MadeWith;
use std::mem;

/// A list with a capacity, kept in the value itself. It never asks for memory.
///
/// Who writes one gives the six calls without a body. The others stand on them. Arrays, builders and
/// iterators keep theirs full: they make one by `with_defaults`, and call neither `push` nor `pop` nor
/// `remove_at`, which are for who keeps items in a store alone.
pub trait Store<T>: Sized + Drop {
    // The items, in order.
    ghost items: { Self → List T };

    // How many items there is room for.
    ghost CAPACITY: { ℕ };

    /// A store without items. Its capacity is at most `MAX_INLINE`.
    ///
    /// It may take time in proportion to the capacity, as spare slots may be filled with defaults.
    fn empty() -> Self
        requires fits { FitsInline CAPACITY }
        ensures { items result ≡ [] };

    /// Appends `item`. Requires that the store isn't full. O(1).
    fn push(&mut self, item: T)
        requires room { length (items self.old) < CAPACITY }
        ensures { items self.new ≡ items self.old ++ item ∷ [] };

    /// Takes the last item, or returns `None` if there is none. O(1).
    fn pop(&mut self) -> Option<T>
        ensures { YieldsLast items self.old result self.new };

    /// Takes the item at `index` and moves the later ones down by one slot.
    fn remove_at(&mut self, index: usize) -> T
        requires in_bounds { index < length (items self.old) }
        ensures item { result ≡ slice_index_or (items self.old) index result }
        ensures others { items self.new ≡ remove (items self.old) index };

    /// The items, in order.
    fn as_slice(&self) -> &[T]
        ensures { result.now ≡ items self.now };

    // The store with these items written over its own, as many as it has.
    ghost store_with: { (store : Self) (written : List T) → (after : Self)
        × (items after ≡ refill (length (items store)) (items store) written) };

    /// The items, in order, for writing. What is written stands in the store afterwards.
    fn as_mut_slice(&mut self) -> &mut [T]
        ensures* writes_back { sem 𝓛 (Lends Self.row (Array T.row 0)
            self.entry result (λ written. (store_with self.old written).0)) }
        ensures items { result.now ≡ items self.old };

    /// A full store of defaults. `capacity` is the store's own, which is at most `MAX_INLINE`. No
    /// clause and no test says how often `default` is called.
    ///
    /// The body here appends each to an empty store. A store that fills its spare slots with
    /// defaults can do without the second pass.
    fn with_defaults(capacity: usize) -> Self
    where
        T: Default,
        requires fits { FitsInline CAPACITY }
        requires capacity { capacity ≡ CAPACITY }
        ensures items { All T.is_default (items result) }
        ensures len { length (items result) ≡ CAPACITY }
    {
        let mut store = Self::empty();
        for _slot in 0..capacity {
            store.push(T::default());
        }
        store
    }

    /// Exchanges the items of two slices, each of as many items as a store has room for.
    ///
    /// The body here goes item by item. A store whose capacity is a constant can move them in one
    /// piece. A store of any items writes this body out, since the checker then asks that the store
    /// fits in memory.
    fn swap_slices(left: &mut [T], right: &mut [T])
        requires left { length left.old ≡ CAPACITY }
        requires right { length right.old ≡ CAPACITY }
        ensures left { left.new ≡ right.old }
        ensures right { right.new ≡ left.old }
    {
        left.swap_with_slice(right);
    }

    /// `len` items from place `from` on, for writing. What is written stands in the store
    /// afterwards.
    ///
    /// The caller says how many they are, so that the compiler knows it too.
    #[inline]
    final fn part_mut(&mut self, from: usize, len: usize) -> &mut [T]
        requires in_bounds { from + len ≤ length (items self.old) }
        ensures* writes_back { sem 𝓛 (Lends Self.row (Array T.row 0) self.entry result
            (λ part. (store_with self.old (part_set from len (items self.old) part)).0)) }
        ensures items { result.now ≡ take len (drop from (items self.old)) }
    {
        &mut self.as_mut_slice()[from..from + len]
    }

    /// The item at `index`, for writing.
    #[inline]
    final fn item_mut(&mut self, index: usize) -> &mut T
        requires in_bounds { index < length (items self.old) }
        ensures* writes_back { sem 𝓛 (Lends Self.row T.row self.entry result
            (λ item. (store_with self.old (slice_set (items self.old) index item)).0)) }
        ensures item { result.now ≡ slice_index_or (items self.old) index result.now }
    {
        &mut self.as_mut_slice()[index]
    }
}

/// The defaults in the spare slots of an `ArrayVec` count as no items.
// `MadeWith<()>` is what each type with a `Default` has. With that bound in its place there would
// be two defaults in `with_defaults`, of which no proof shows that they agree.
impl<T: MadeWith<()> + Drop, const N: usize> Store<T> for ArrayVec<T, N> {
    ghost items = { λ store. store.items };

    ghost CAPACITY = { N };

    #[inline]
    fn empty() -> Self {
        ArrayVec::new_in(())
    }

    #[inline]
    fn push(&mut self, item: T) {
        ArrayVec::push(self, item)
    }

    #[inline]
    fn pop(&mut self) -> Option<T> {
        ArrayVec::pop(self)
    }

    #[inline]
    fn remove_at(&mut self, index: usize) -> T {
        ArrayVec::remove(self, index)
    }

    #[inline]
    fn as_slice(&self) -> &[T] {
        ArrayVec::as_slice(self)
    }

    ghost store_with = { λ store written. (with_items store written, refl) };

    #[inline]
    fn as_mut_slice(&mut self) -> &mut [T] {
        ArrayVec::as_mut_slice(self)
    }

    #[inline]
    fn with_defaults(_capacity: usize) -> Self
    where
        T: Default,
    {
        ArrayVec::from_array_in((), Default::default())
    }

    #[inline(always)]
    fn swap_slices(left: &mut [T], right: &mut [T]) {
        swap_arrays::<T, N>(left, right);
    }
}

// Writes `item` over the item of a slot, which is dropped.
#[inline]
pub(crate) fn put_at<T: Drop, S: Store<T>>(store: &mut S, slot: usize, item: T)
    requires { slot < length (S.items store.old) }
    ensures { S.items store.new ≡ slice_set (S.items store.old) slot item }
{
    *store.item_mut(slot) = item;
}

// Takes the item of a slot, and leaves a default there. `slot % MAX_INLINE` is the slot: by it the
// compiler sees that the write reaches nothing before the store.
#[inline]
pub(crate) fn take_at<T: Default + Drop, S: Store<T>>(store: &mut S, slot: usize) -> T
    requires fits { FitsInline (length (S.items store.old)) }
    requires in_bounds { slot < length (S.items store.old) }
    ensures item { result ≡ slice_index_or (S.items store.old) slot result }
    ensures left { (blank : T) × (S.items store.new ≡ slice_set (S.items store.old) slot blank) }
{
    mem::take(store.item_mut(slot % MAX_INLINE))
}

// The full store of the items of a native array.
#[inline]
pub(crate) fn store_of_array<T, const N: usize>(items: [T; N]) -> ArrayVec<T, N>
    ensures { result.items ≡ items }
{
    ArrayVec::from_array_in((), items)
}

// The items of a full store as a native array.
#[inline]
pub(crate) fn array_of_store<T: Default + Drop, const N: usize>(mut store: ArrayVec<T, N>) -> [T; N]
    requires full { length store.items ≡ N }
    ensures { result ≡ store.items }
{
    let mut items: [T; N] = Default::default();
    move_items(store.as_mut_slice(), &mut items);
    items
}
