//! The items of rows by reference, row by row.
ghost use Rattle.ga_core.specs.Views.{items_of_view};
ghost use Rattle.std.specs.Iterator.{YieldsFirstRef, item_count};
ghost use Rattle.std.specs.Iterator.Runs.{YieldsRefsInOrder};
ghost use Rattle.std.specs.List.{flat_map};
ghost use Rattle.std.specs.Prelude.{◌≡◌};

use ga_core::{ArrayLength, GenericArray, GenericArrayRef, Unsigned};
use std::marker::Model;
use std::slice;

/// References to the items of all rows, in the order in which `flatten` joins them.
///
/// The counterpart of `flatten` of a reference to an array of arrays.
#[inline]
pub fn iter_flat<'a, T, W: ArrayLength<T>, R: Unsigned>(
    view: GenericArrayRef<'a, GenericArray<T, W>, R>,
) -> FlatIter<'a, T, W>
    ensures items { result ≡ flat_map (λ row. row) (items_of_view view.entry) }
    ensures runs { YieldsRefsInOrder {A = T} (YieldsFirstRef (λ left. left)) (λ left. left) }
{
    let none: &[T] = &[];
    FlatIter {
        row: none.iter(),
        rows: view.into_slice().iter(),
    }
}

/// The items of rows by reference, from the front: see `iter_flat`. Contracts see it as the list
/// of the items that are left.
#[derive(Drop)]
pub struct FlatIter<'a, T, W: ArrayLength<T>> {
    // What is left of the row that was begun, and the rows behind it.
    row: slice::Iter<'a, T>,
    rows: slice::Iter<'a, GenericArray<T, W>>,
}

impl<'a, T, W: ArrayLength<T>> Model for FlatIter<'a, T, W> {
    ghost use Rattle.std.specs.List.{flat_map};
    ghost use Rattle.std.specs.Prelude.{◌++◌, List};
    ghost use Rattle.std.specs.Slice.Iter.{iter_rest};

    ghost Value = { List T };

    ghost view = { λ items. iter_rest items.row ++ flat_map (λ row. row) (iter_rest items.rows) };
}

impl<'a, T, W: ArrayLength<T>> Iterator for FlatIter<'a, T, W> {
    type Item = &'a T;

    ghost next_gives = { YieldsFirstRef (λ left. left) };

    ghost remaining = { item_count (λ left. left) };

    /// The next item. O(1) if the rows have items.
    #[inline]
    fn next(&mut self) -> Option<&'a T> {
        loop {
            if let Some(item) = self.row.next() {
                return Some(item);
            }
            match self.rows.next() {
                Some(row) => self.row = row.iter(),
                None => return None,
            }
        }
    }
}
