//! Items whose drops and clones are counted, and what closures do that count their calls.
ghost use Rattle.generic_array.specs.Length.{FitsInline};

use crate::tests::numbers::{Numbered, digits, number_at};
use generic_array::{ArrayLength, BoxedArray, GenericArray, Unsigned};
use std::alloc::{AllocError, Global};
use std::cell::Cell;
use std::convert::AsSlice;

/// How many items were dropped, how many clones and calls of closures there were, one that failed
/// among them, and which of these fails.
#[derive(Default, Drop)]
pub struct Counts {
    pub drops: Cell<usize>,
    pub calls: Cell<usize>,
    failing: Cell<usize>,
}

/// What a call returned, as the digits of its items, or `None` for an error; how many clones and
/// calls of closures it made; and how many items it dropped.
pub type Seen = (Option<u32>, usize, usize);

impl Counts {
    /// Counts from 0 again. The clone or call of this number fails, counted from 1.
    pub fn fail_at(&self, number: usize) {
        self.drops.set(0);
        self.calls.set(0);
        self.failing.set(number);
    }

    /// What is seen of a call that returned this, since the last one. Drops what it returned.
    pub fn seen<T: Numbered, S: AsSlice<T> + Drop, E: Drop>(&self, returned: Result<S, E>) -> Seen {
        let (calls, drops) = (self.calls.get(), self.drops.get());
        let all = match returned {
            Ok(made) => Some(digits(made.as_slice())),
            Err(_error) => None,
        };
        self.fail_at(self.failing.get());
        (all, calls, drops)
    }

    // Counts a clone or call, and returns whether it fails.
    fn fails(&self) -> bool {
        count(&self.calls);
        self.calls.get() == self.failing.get()
    }

    /// A closure's call that makes the item of an index, unless it fails.
    pub fn try_make<'a, T: Item<'a>>(&'a self, index: usize) -> Result<T, u32> {
        if self.fails() {
            Err(0)
        } else {
            Ok(T::at(self, index))
        }
    }

    /// A closure's call that returns its argument.
    pub fn same<T>(&self, item: T) -> T {
        count(&self.calls);
        item
    }

    /// The same of a counted item. The checker needs the lifetime of the counts.
    pub fn hand_on<'a, T: Item<'a>>(&'a self, item: T) -> T {
        self.same(item)
    }
}

fn count(number: &Cell<usize>) {
    number.set(number.get().wrapping_add(1));
}

/// A counted item. Tests know `Counted` by this bound alone, since that is cheaper to prove.
pub trait Item<'a>: Numbered + Default + Clone + Drop {
    /// The item of this index, numbered from 1.
    fn at(counts: &'a Counts, index: usize) -> Self;
}

/// Counts its drop, and its clones. One made by `default` has the number 0 and counts nothing.
#[derive(Default)]
pub struct Counted<'a> {
    counts: Option<&'a Counts>,
    number: u32,
}

impl Numbered for Counted<'_> {
    fn number(&self) -> u32 {
        self.number
    }
}

impl<'a> Item<'a> for Counted<'a> {
    fn at(counts: &'a Counts, index: usize) -> Self {
        Counted {
            counts: Some(counts),
            number: number_at(index),
        }
    }
}

impl Drop for Counted<'_> {
    fn drop(self) {
        let Counted { counts, number: _ } = self;
        if let Some(counts) = counts {
            count(&counts.drops);
        }
    }
}

impl Clone for Counted<'_> {
    fn clone(&self) -> Result<Self, AllocError> {
        if self.counts.is_some_and(Counts::fails) {
            return Err(AllocError);
        }
        Ok(Counted {
            counts: self.counts,
            number: self.number,
        })
    }
}

/// A result with one kind of error for two.
pub fn flat<S, E: Drop, P: Drop>(returned: Result<Result<S, E>, P>) -> Result<S, ()> {
    match returned {
        Ok(Ok(made)) => Ok(made),
        Ok(Err(_error)) => Err(()),
        Err(_refused) => Err(()),
    }
}

/// The array of N items, numbered from 1.
pub fn inline_items<'a, T: Item<'a>, N: ArrayLength<T>>(counts: &'a Counts) -> GenericArray<T, N>
    requires { FitsInline N.USIZE }
{
    GenericArray::generate(|index: usize| T::at(counts, index))
}

/// The same in a block.
pub fn boxed_items<'a, T: Item<'a>, N: Unsigned>(
    alloc: Global,
    counts: &'a Counts,
) -> Result<BoxedArray<T, N>, generic_array::AllocError> {
    BoxedArray::generate(alloc, |index: usize| T::at(counts, index))
}
