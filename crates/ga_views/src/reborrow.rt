//! Slices that can be written, and borrowed on for writing.
ghost use Rattle.std.specs.Borrow.{Array, Lends, sem};
ghost use Rattle.std.specs.List.{refill};
ghost use Rattle.ga_views.specs.Parts.{part_set};
ghost use Rattle.std.specs.Prelude.{◌≡◌, ℕ, ◌+◌, ◌<◌, ◌≤◌, List, drop, length, refl, slice_index_or, slice_set, take};

/// A reference through which a slice can be written: `&mut [T]`, or one to an array of `ga_core`.
/// Writing doesn't change the slice's length.
///
/// The writing view is generic over it. A contract can say what a view ends as after its slice was
/// reborrowed only if the slice's type is a parameter with a bound.
pub trait ReborrowSlice<T>: Drop {
    // The items of the slice.
    ghost items: { Self → List T };

    // Both are the same reference, whatever has been written through it.
    ghost stays: { Self → Self → Type 0 };

    /// The items, in order.
    fn as_slice(&self) -> &[T]
        ensures { result.now ≡ items self.now };

    // The slice with these items written over its own, as many as it has.
    ghost slice_with: { (slice : Self) (written : List T) → (after : Self)
        × (items after ≡ refill (length (items slice)) (items slice) written) };

    // With these items it is the same reference.
    ghost slice_with_stays: { (slice : Self) (written : List T)
        → stays slice (slice_with slice written).0 };

    /// The items, in order, for writing. The caller says how many they are, so that the compiler
    /// knows it too.
    fn as_mut_slice(&mut self, len: usize) -> &mut [T]
        requires len { len ≡ length (items self.old) }
        ensures* writes_back { sem 𝓛 (Lends Self.row (Array T.row 0)
            self.entry result (λ written. (slice_with self.old written).0)) }
        ensures items { result.now ≡ items self.old };

    // The slice with this item at the index, and the others as they are.
    ghost slice_with_item: { (slice : Self) (index : ℕ) (item : T) → (after : Self)
        × (items after ≡ slice_set (items slice) index item) };

    // With this item it is the same reference.
    ghost slice_with_item_stays: { (slice : Self) (index : ℕ) (item : T)
        → stays slice (slice_with_item slice index item).0 };

    /// The item at `index`, for writing.
    fn item_mut(&mut self, index: usize) -> &mut T
        requires in_bounds { index < length (items self.old) }
        ensures* writes_back { sem 𝓛 (Lends Self.row T.row
            self.entry result (λ item. (slice_with_item self.old index item).0)) }
        ensures item { result.now ≡ slice_index_or (items self.old) index result.now };
}

/// A reference of which a part of the slice can be borrowed for writing: `&mut [T]`.
pub trait ReborrowPart<T>: ReborrowSlice<T> {
    /// `len` items from place `from` on, for writing.
    fn part_mut(&mut self, from: usize, len: usize) -> &mut [T]
        requires in_bounds { from + len ≤ length (Self.items self.old) }
        ensures* writes_back { sem 𝓛 (Lends Self.row (Array T.row 0)
            self.entry result (λ part.
            (Self.slice_with self.old (part_set from len (Self.items self.old) part)).0)) }
        ensures items { result.now ≡ take len (drop from (Self.items self.old)) };
}

impl<'a, T> ReborrowSlice<T> for &'a mut [T] {
    ghost items = { λ slice. slice.now };

    ghost stays = { λ slice after. after.ghost_name ≡ slice.ghost_name };

    #[inline]
    fn as_slice(&self) -> &[T] {
        &**self
    }

    ghost slice_with = { λ slice written.
        (record slice { now = refill (length slice.now) slice.now written }, refl) };

    ghost slice_with_stays = { λ slice written. refl };

    #[inline]
    fn as_mut_slice(&mut self, len: usize) -> &mut [T] {
        &mut self[..len]
    }

    ghost slice_with_item = { λ slice index item.
        (record slice { now = slice_set slice.now index item }, refl) };

    ghost slice_with_item_stays = { λ slice index item. refl };

    #[inline]
    fn item_mut(&mut self, index: usize) -> &mut T {
        &mut self[index]
    }
}

impl<'a, T> ReborrowPart<T> for &'a mut [T] {
    #[inline]
    fn part_mut(&mut self, from: usize, len: usize) -> &mut [T] {
        &mut self[from..from + len]
    }
}
