//! Shapes of inline arrays undo each other: what is done and undone is as it was, and what stood in
//! between is known.
//!
//! Each function but the last makes a shape and undoes it, of any lengths that fit together. `see`
//! is called with what stands in between, and need be callable with just that.
ghost use Rattle.generic_array.specs.Length.{FitsInline};
ghost use Rattle.generic_array.specs.Rows.{rows};
ghost use Rattle.generic_array.specs.Views.{items_of_view};
ghost use Rattle.std.specs.Fn.{FnOnceReturnsAt, FnOnceReturnsAtPair};
ghost use Rattle.std.specs.List.{flat_map};
ghost use Rattle.std.specs.Prelude.{◌≡◌, ◌+◌, ◌<◌, [], ◌∷◌, ◌++◌, drop, if◌then◌else◌, take};

use generic_array::sequence::{Concat, Flatten, Lengthen, Shorten, Split, Unflatten};
use generic_array::{ArrayLength, GenericArray, GenericArrayRef, Unsigned};
use std::convert::AsSlice;

/// An item put at the back and popped there, or at the front where `at_front`.
pub fn put_then_pop<
    T: Default + Drop,
    N: ArrayLength<T>,
    M: ArrayLength<T>,
    R,
    S: FnOnce(&[T]) -> R,
>(array: GenericArray<T, N>, item: T, at_front: bool, see: S) -> (GenericArray<T, N>, T, R)
    requires one_longer { M.USIZE ≡ N.USIZE + 1 }
    requires fits { FitsInline M.USIZE }
    requires callable { (seen : _)
        → seen.now ≡ (if at_front then item ∷ array else (array ++ item ∷ []))
        → S.pre see seen }
    ensures array { result.0 ≡ array }
    ensures item { result.1 ≡ item }
    ensures between { FnOnceReturnsAt S.FnOnce see
        (if at_front then item ∷ array else (array ++ item ∷ [])) result.2 }
{
    let longer: GenericArray<T, M> = if at_front {
        array.prepend(item)
    } else {
        array.append(item)
    };
    let seen = see(longer.as_slice());
    if at_front {
        let (item, array) = longer.pop_front();
        (array, item, seen)
    } else {
        let (array, item) = longer.pop_back();
        (array, item, seen)
    }
}

/// The last item popped and appended, or the first popped and prepended where `at_front`.
pub fn pop_then_put<
    T: Default + Drop,
    N: ArrayLength<T>,
    M: ArrayLength<T>,
    R,
    S: FnOnce(&[T]) -> R,
>(array: GenericArray<T, N>, at_front: bool, see: S) -> (GenericArray<T, N>, R)
    requires one_shorter { N.USIZE ≡ M.USIZE + 1 }
    requires callable { (seen : _)
        → seen.now ≡ (if at_front then drop 1 array else take M.USIZE array)
        → S.pre see seen }
    ensures array { result.0 ≡ array }
    ensures between { FnOnceReturnsAt S.FnOnce see
        (if at_front then drop 1 array else take M.USIZE array) result.1 }
{
    let (others, item): (GenericArray<T, M>, T) = if at_front {
        let (first, others) = array.pop_front();
        (others, first)
    } else {
        array.pop_back()
    };
    let seen = see(others.as_slice());
    let array = if at_front {
        others.prepend(item)
    } else {
        others.append(item)
    };
    (array, seen)
}

/// An array cut in two and joined.
pub fn split_then_concat<
    T: Default + Drop,
    N: ArrayLength<T>,
    K: ArrayLength<T>,
    M: ArrayLength<T>,
    R,
    S: FnOnce(&[T], &[T]) -> R,
>(array: GenericArray<T, N>, see: S) -> (GenericArray<T, N>, R)
    requires sum { N.USIZE ≡ K.USIZE + M.USIZE }
    requires callable { (first : _) (second : _) → first.now ≡ take K.USIZE array
        → second.now ≡ drop K.USIZE array → S.pre see first second }
    ensures array { result.0 ≡ array }
    ensures between { FnOnceReturnsAtPair S.FnOnce see (take K.USIZE array) (drop K.USIZE array)
        result.1 }
{
    let (first, second): (GenericArray<T, K>, GenericArray<T, M>) = array.split();
    let seen = see(first.as_slice(), second.as_slice());
    (first.concat(second), seen)
}

/// Two arrays joined and cut where they were joined.
pub fn concat_then_split<
    T: Default + Drop,
    N: ArrayLength<T>,
    K: ArrayLength<T>,
    M: ArrayLength<T>,
    R,
    S: FnOnce(&[T]) -> R,
>(
    first: GenericArray<T, K>,
    second: GenericArray<T, M>,
    see: S,
) -> (GenericArray<T, K>, GenericArray<T, M>, R)
    requires sum { N.USIZE ≡ K.USIZE + M.USIZE }
    requires fits { FitsInline N.USIZE }
    requires callable { (seen : _) → seen.now ≡ first ++ second → S.pre see seen }
    ensures first { result.0 ≡ first }
    ensures second { result.1 ≡ second }
    ensures between { FnOnceReturnsAt S.FnOnce see (first ++ second) result.2 }
{
    let joined: GenericArray<T, N> = first.concat(second);
    let seen = see(joined.as_slice());
    let (first, second) = joined.split();
    (first, second, seen)
}

/// A sequence cut into rows of any width and joined, of whatever sequences these are. Requires that
/// both traits name the same rows, as those of arrays do.
pub fn unflatten_then_flatten<T, Flat, Rows, A, S>(flat: Flat, see: S) -> (Flat, A)
where
    Flat: Unflatten<T, Rows>,
    Rows: Flatten<T, Flat>,
    S: FnOnce(&Rows) -> A,
    requires area { Flat.IsArea }
    requires rows_area { Rows.IsArea }
    requires same_rows { (rows : Rows) → Rows.row_items rows ≡ Flat.output_rows rows }
    requires callable { (between : _)
        → Flat.output_rows between.now ≡ rows Flat.WIDTH (Flat.items flat)
        → S.pre see between }
    ensures items { Rows.output_items result.0 ≡ Flat.items flat }
    ensures between { (between : Rows)
        × (Flat.output_rows between ≡ rows Flat.WIDTH (Flat.items flat))
        × FnOnceReturnsAt S.FnOnce see between result.1 }
{
    let rows = flat.unflatten();
    let seen = see(&rows);
    (rows.flatten(), seen)
}

/// Rows joined and cut again, of whatever sequences these are. Requires that the traits name the
/// same width and items, as those of arrays do.
pub fn flatten_then_unflatten<T, Flat, Rows, A, S>(rows: Rows, see: S) -> (Rows, A)
where
    Flat: Unflatten<T, Rows> + AsSlice<T>,
    Rows: Flatten<T, Flat>,
    S: FnOnce(&[T]) -> A,
    requires rows_area { Rows.IsArea }
    requires area { Flat.Unflatten.IsArea }
    requires same_width { Flat.Unflatten.WIDTH ≡ Rows.WIDTH }
    requires same_items { (flat : Flat) → Flat.Unflatten.items flat ≡ Rows.output_items flat }
    requires same_slice { (flat : Flat) → Flat.AsSlice.items flat ≡ Rows.output_items flat }
    requires width { 0 < Rows.WIDTH }
    requires callable { (seen : _) → seen.now ≡ flat_map (λ row. row) (Rows.row_items rows)
        → S.pre see seen }
    ensures rows { Flat.Unflatten.output_rows result.0 ≡ Rows.row_items rows }
    ensures between { FnOnceReturnsAt S.FnOnce see (flat_map (λ row. row) (Rows.row_items rows))
        result.1 }
{
    let flat = rows.flatten();
    let seen = see(flat.as_slice());
    (flat.unflatten(), seen)
}

/// A view cut in two. Its parts joined are the view. Nothing is moved, so there is nothing to undo.
pub fn split_view<'a, T, N: Unsigned, K: Unsigned, M: Unsigned>(
    view: GenericArrayRef<'a, T, N>,
) -> (GenericArrayRef<'a, T, K>, GenericArrayRef<'a, T, M>)
    requires sum { N.USIZE ≡ K.USIZE + M.USIZE }
    ensures joined { items_of_view result.0 ++ items_of_view result.1 ≡ items_of_view view.entry }
{
    view.split()
}
