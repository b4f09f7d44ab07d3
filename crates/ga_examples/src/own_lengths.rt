//! Lengths of your own: one that is kept in an `ArrayVec`, and one that is kept in a store of
//! your own.
ghost use Rattle.std.proofs.Math.Dec.{lit≤};
ghost use Rattle.std.specs.List.{refill};
ghost use Rattle.std.specs.Prelude.{◌≡◌, ◌++◌, length, refl};

use arrayvec::ArrayVec;
use generic_array::sequence::Concat;
use generic_array::{ArrayLength, GenericArray, InlineLength, Store, U10, Unsigned};
use std::marker::Model;

/// The days of a week.
struct Week;

impl Unsigned for Week {
    ghost USIZE = { 7 };

    const USIZE: usize = 7;
}

impl<T: Default + Drop> ArrayLength<T> for Week {
    type ArrayType = ArrayVec<T, 7>;

    ghost capacity_is = { refl };
}

impl InlineLength for Week {
    ghost fits = { lit≤ tt };
}

/// The sides of a triangle.
struct Sides;

impl Unsigned for Sides {
    ghost USIZE = { 3 };

    const USIZE: usize = 3;
}

impl<T: Default + Drop> ArrayLength<T> for Sides {
    type ArrayType = Lender<T, 3>;

    ghost capacity_is = { refl };
}

/// A store that counts how often its items were lent for writing.
#[derive(Drop)]
struct Lender<T, const N: usize> {
    slots: ArrayVec<T, N>,
    times: u64,
}

impl<T, const N: usize> Model for Lender<T, N> {
    ghost use Rattle.std.specs.Prelude.{List};

    ghost Value = { List T };

    ghost view = { λ store. store.slots.items };
}

impl<T: Default + Drop, const N: usize> Store<T> for Lender<T, N> {
    ghost items = { λ store. store };

    ghost CAPACITY = { N };

    fn empty() -> Self {
        Lender {
            slots: Store::empty(),
            times: 0,
        }
    }

    fn push(&mut self, item: T) {
        self.slots.push(item);
    }

    fn pop(&mut self) -> Option<T> {
        self.slots.pop()
    }

    fn remove_at(&mut self, index: usize) -> T {
        self.slots.remove(index)
    }

    fn as_slice(&self) -> &[T] {
        self.slots.as_slice()
    }

    ghost store_with = { λ store written. (refill (length store) store written, refl) };

    fn as_mut_slice(&mut self) -> &mut [T] {
        self.times = self.times.wrapping_add(1);
        self.slots.as_mut_slice()
    }

    // The trait's own body, written out: a call of that asks that the store fits in memory, which
    // isn't known of any items.
    fn swap_slices(left: &mut [T], right: &mut [T]) {
        left.swap_with_slice(right);
    }
}

fn join(left: GenericArray<u8, Week>, right: GenericArray<u8, Sides>) -> GenericArray<u8, U10>
    ensures { result ≡ left ++ right }
{
    left.concat(right)
}
