//! Arrays of the numbers from 1, numbered items written as the digits of one number, and
//! comparisons of what calls made, each proved once.
ghost use Rattle.generic_array.specs.Length.{FitsInline};

use generic_array::{AllocError, ArrayLength, BoxedArray, GenericArray, Unsigned};
use std::alloc::Global;
use std::convert::AsSlice;

/// An item with a number to know it by.
pub trait Numbered {
    fn number(&self) -> u32;
}

impl Numbered for u32 {
    fn number(&self) -> u32 {
        *self
    }
}

/// The digits so far and one more.
pub fn next_digit(digits: u32, digit: u32) -> u32 {
    digits.wrapping_mul(10).wrapping_add(digit)
}

/// The numbers of the items as the digits of one.
pub fn digits<T: Numbered>(items: &[T]) -> u32 {
    let mut all = 0u32;
    for item in items {
        all = next_digit(all, item.number());
    }
    all
}

/// The number of the item at an index, from 1. It is a digit.
pub fn number_at(index: usize) -> u32 {
    (index % 9) as u32 + 1
}

/// The array of 1 to N.
pub fn from_one<N: ArrayLength<u32>>() -> GenericArray<u32, N>
    requires { FitsInline N.USIZE }
{
    GenericArray::generate(number_at)
}

/// The same in a block.
pub fn boxed_from_one<N: Unsigned>(alloc: Global) -> Result<BoxedArray<u32, N>, AllocError> {
    BoxedArray::generate(alloc, number_at)
}

/// Whether a sequence has exactly these items.
pub fn has<T: PartialEq, S: AsSlice<T> + Drop>(made: S, items: &[T]) -> bool {
    made.as_slice() == items
}

/// Whether there is a sequence, of exactly these items.
pub fn gives<T: PartialEq, S: AsSlice<T> + Drop, E: Drop>(made: Result<S, E>, items: &[T]) -> bool {
    match made {
        Ok(made) => has(made, items),
        Err(_refused) => false,
    }
}
