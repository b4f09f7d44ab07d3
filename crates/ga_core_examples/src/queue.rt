//! A queue in an array that need not be full: a head and a count.
ghost use Rattle.std.specs.Prelude.{◌≡◌, ◌<◌, ◌↔◌, ◌++◌, ◌∷◌, [], IsOk, OnErr, OnOk, drop, length, slice_get};

use ga_core::{ArrayLength, GenericArray, InlineLength};
use std::marker::Model;
use std::mem;

/// There is no room.
struct Full;

/// At most `N` items: contracts see them from the oldest to the newest.
#[derive(Drop)]
struct Queue<T: Default + Drop, N: ArrayLength<T>> {
    slots: GenericArray<T, N>,
    /// The index of the oldest.
    head: usize,
    count: usize,
}

impl<T: Default + Drop, N: ArrayLength<T>> Model for Queue<T, N> {
    ghost use Rattle.ga_core.specs.Length.{FitsInline};
    ghost use Rattle.std.specs.Prelude.{◌<◌, ◌≤◌, ◌++◌, List, drop, take};

    ghost Value = { List T };

    ghost view = { λ queue. take queue.count (drop queue.head queue.slots ++ take queue.head queue.slots) };

    ghost invariant = { λ queue. (queue.head < N.USIZE) × (queue.count ≤ N.USIZE) × FitsInline N.USIZE };
}

impl<T: Default + Drop, N: ArrayLength<T> + InlineLength> Queue<T, N> {
    fn new() -> Self
        requires { 0 < N.USIZE }
        ensures { result ≡ [] }
    {
        Queue {
            slots: GenericArray::default(),
            head: 0,
            count: 0,
        }
    }

    /// Puts an item behind the others.
    fn push(&mut self, item: T) -> Result<(), Full>
        ensures variant { IsOk result ↔ (length self.old < N.USIZE) }
        ensures ok { OnOk result (self.new ≡ self.old ++ item ∷ []) }
        ensures err { OnErr result (self.new ≡ self.old) }
    {
        let len = self.slots.as_slice().len();
        if self.count == len {
            return Err(Full);
        }
        self.slots[(self.head + self.count) % len] = item;
        self.count += 1;
        Ok(())
    }

    /// Takes the oldest item. The look at the slots comes first: without it `rest` stays open.
    fn pop(&mut self) -> Option<T>
        ensures item { result ≡ slice_get self.old 0 }
        ensures rest { self.new ≡ drop 1 self.old }
    {
        let len = self.slots.as_slice().len();
        if self.count == 0 {
            return None;
        }
        let item = mem::take(&mut self.slots[self.head]);
        self.head = (self.head + 1) % len;
        self.count -= 1;
        Some(item)
    }
}
