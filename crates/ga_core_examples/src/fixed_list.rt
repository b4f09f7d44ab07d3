//! A list with room for `N` items, kept inline: a builder that is never finished.
ghost use Rattle.ga_core.specs.Fill.{TakeRuns};
ghost use Rattle.ga_core.specs.Length.{FitsInline};
ghost use Rattle.std.specs.Prelude.{◌≡◌, ◌-◌, ◌<◌, ◌≤◌, ◌++◌, ◌∷◌, [], drop, length, slice_get, take};

use ga_core::{ArrayBuilder, ArrayLength};
use std::marker::Model;

#[derive(Drop)]
struct FixedList<T, N: ArrayLength<T>> {
    items: ArrayBuilder<T, N>,
}

impl<T, N: ArrayLength<T>> Model for FixedList<T, N> {
    ghost use Rattle.std.specs.Prelude.{List};

    ghost Value = { List T };

    ghost view = { λ list. list.items };
}

impl<T: Default + Drop, N: ArrayLength<T>> FixedList<T, N> {
    fn new() -> Self
        requires { FitsInline N.USIZE }
        ensures { result ≡ [] }
    {
        let items = ArrayBuilder::new();
        FixedList { items }
    }

    // Appends the item. Requires that there is room.
    fn push_back(&mut self, item: T)
        requires room { length self.old < N.USIZE }
        ensures items { self.new ≡ self.old ++ item ∷ [] }
        ensures bound { length self.new ≤ N.USIZE }
    {
        self.items.push(item);
    }

    // Appends items until there is no room, or the iterator ends.
    fn extend<I: Iterator<Item = T>>(&mut self, items: &mut I)
        requires { I.can_next items.old }
        ensures { TakeRuns I.next_gives items.old (N.USIZE - length self.old) (λ taken.
            self.new ≡ self.old ++ taken) }
    {
        self.items.extend(items);
    }

    fn pop_front(&mut self) -> Option<T>
        ensures item { result ≡ slice_get self.old 0 }
        ensures rest { self.new ≡ drop 1 self.old }
        ensures bound { length self.old ≤ N.USIZE }
    {
        if self.items.position() == 0 {
            return None;
        }
        Some(self.items.remove(0))
    }
}

/// Moves the first item behind the others. The clause `bound` of `pop_front` shows that there is
/// room for it.
fn rotate<T: Default + Drop, N: ArrayLength<T>>(list: &mut FixedList<T, N>)
    ensures { list.new ≡ drop 1 list.old ++ take 1 list.old }
{
    if let Some(item) = list.pop_front() {
        list.push_back(item);
    }
}
